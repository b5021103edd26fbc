//! A log of whole records behind gates: each record is on the disk before its gate is opened, so a stop
//! leaves the old records, or these and the new one.
#![tactic(auto)]

pub mod finish;
mod gate;
pub mod laws;
pub mod log;
pub mod opening;
mod payload;
mod record;
mod size;
pub mod start;

pub use log::{AppendFault, GatedLog};
pub use opening::{LogFault, Opening};
pub use start::begin;
