//! The monitor of the collection cycles and stores, with calls that take no memory.
#![tactic(auto)]

mod channel_flags;
mod fault;
mod monitor;

pub use fault::MonitorFault;
pub use monitor::Monitor;
