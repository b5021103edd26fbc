//! The rows of a channel's live entities, and how much of each data file they use.
#![tactic(auto)]

mod index;
mod row;
mod tally;

pub use index::EntityIndex;
pub use oid_table::NoMemory;
pub use row::{Row, State};
