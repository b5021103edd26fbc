//! Explicit pairs, by which old names of types and of members lead to new ones.
#![tactic(auto)]

mod fault;
mod index;
mod name;
mod reading;
mod table;

pub use fault::{AddFault, NameFault};
pub use name::{Pair, RefName};
pub use reading::read_name;
pub use table::RefactorTable;
