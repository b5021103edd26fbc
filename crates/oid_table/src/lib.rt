//! A table that finds a value by its number, as the id of an object or of a file.
#![tactic(auto)]

mod memory;
mod probing;
mod slot;
mod table;

pub use memory::NoMemory;
pub use table::OidTable;
