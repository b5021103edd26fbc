//! The storage of a run on one thread: its channels, each on a disk of its own, and the monitor of its stores.
#![tactic(auto)]

mod looking;
mod storage;

pub use storage::StorageAlone;
