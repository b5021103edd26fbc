//! The entries of a transactions log, and the bytes that spell them.
#![tactic(auto)]

mod entry;
mod kind;
mod read;
mod write;

pub use entry::{BadEntry, Entry};
pub use read::read_entry;
pub use write::write_entry;
