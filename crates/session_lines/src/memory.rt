//! What a session keeps between two lines.

use object_registry::Registry;
use refactor_table::RefactorTable;
use std::alloc::Global;
use type_dictionary::Dictionary;

/// The types, the pairs of names, the bound names with the objects in memory, and the next object id. `rooted` tells, until the script has
/// begun, whether the graph has the root.
#[derive(Debug, Drop)]
pub struct Memory {
    pub alloc: Global,
    pub types: Dictionary,
    pub table: RefactorTable,
    pub registry: Registry,
    pub next_id: u64,
    pub rooted: bool,
    pub started: bool,
}
