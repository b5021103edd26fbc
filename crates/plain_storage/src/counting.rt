//! What is reached is counted.

ghost use Rattle.std.specs.Prelude.{◌≡◌, ◌∷◌, IfOk};
ghost use Rattle.plain_storage.specs.Serving.{IsKeptCount};

use crate::tree::Tree;
use graph_model::{NoMemory, ROOT_ID};
use object_registry::{Edges, walk};
use std::alloc::{AllocError, Global};
use std::collections::BTreeSet;

impl Edges for Tree {
    ghost graph = { λ tree. tree };

    fn push_edges(&self, id: u64, ids: &mut Vec<u64>) -> Result<(), NoMemory> {
        match self.get(id) {
            Some(entity) => entity.push_edges(ids),
            None => Ok(()),
        }
    }
}

/// Where walks start: the root and the held ids.
fn starts(alloc: Global, held: &BTreeSet<u64>) -> Result<Vec<u64>, AllocError>
    ensures { IfOk result (λ ids. ids.items ≡ 1 ∷ held.now.keys) }
{
    let mut ids = Vec::new(alloc);
    ids.push(ROOT_ID)?;
    for id in held {
        ids.push(*id)?;
    }
    Ok(ids)
}

/// How many entities of the graph are reached from the root and the held ids.
pub fn count_kept(alloc: Global, graph: &Tree, held: &BTreeSet<u64>) -> Result<u64, NoMemory>
    ensures { IfOk result (IsKeptCount graph.now held.now.keys) }
{
    let starts = starts(alloc, held)?;
    let mut kept = walk(alloc, graph, starts.as_slice())?;
    kept.retain(|id| graph.get(*id).is_some());
    Ok(kept.len() as u64)
}
