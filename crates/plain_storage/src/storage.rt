//! A graph in memory, beside the two logs of one disk.

use crate::tree::Tree;
use gated_log::GatedLog;
use std::alloc::Global;
use std::collections::BTreeSet;
use std::marker::Model;

/// A storage that has its graph in memory, and keeps each store and each type in a log of the disk. Contracts see what it keeps.
#[derive(Drop)]
pub struct PlainStorage {
    pub(crate) alloc: Global,
    pub(crate) graph: Tree,
    pub(crate) held: BTreeSet<u64>,
    /// The next id of the last store, or the first id.
    pub(crate) next_id: u64,
    pub(crate) stores_log: GatedLog,
    pub(crate) types_log: GatedLog,
}

impl Model for PlainStorage {
    ghost use Rattle.plain_storage.specs.Keeping.{Plain};

    ghost Value = { Plain };

    ghost view = { λ p. record {
      graph = p.graph;
      held = p.held.keys;
      next_id = p.next_id;
      stores_log = p.stores_log;
      types_log = p.types_log;
    } };
}
