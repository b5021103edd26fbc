//! The one walk over edges.

ghost use Rattle.std.specs.Prelude.{◌≡◌, ◌++◌, ℕ, true, false, IfOk, OnOk};
ghost use Rattle.std.specs.Ordering.{nat_cmp};
ghost use Rattle.std.specs.BTreeSet.{IsOrdered};
ghost use Rattle.graph_model.specs.Ids.{has, insert};
ghost use Rattle.graph_model.specs.Graph.{Graph, edges_of, entity_of};
ghost use Rattle.session_model.specs.Instances.{reached};

use graph_model::NoMemory;
use std::alloc::Global;
use std::collections::BTreeSet;

/// A graph that a walk goes along.
pub trait Edges {
    ghost graph: { Self → Graph };

    /// Puts the edges of an id at the end of a list. An id that the graph lacks has none. With no memory, some are there.
    fn push_edges(&self, id: u64, ids: &mut Vec<u64>) -> Result<(), NoMemory>
        ensures { OnOk result (ids.new.items ≡ ids.old.items ++ edges_of (entity_of (graph self.now) id)) };
}

/// The ids that walks along the edges reach from the starts. The starts are among them, also those that the graph lacks.
/// Each id is looked at once, and each edge once.
pub fn walk<E: Edges>(alloc: Global, edges: &E, starts: &[u64]) -> Result<BTreeSet<u64>, NoMemory>
    ensures { IfOk result (λ ids. ids.keys ≡ reached (E.graph edges.now) starts.now) }
{
    let mut found = BTreeSet::new(alloc);
    let mut open_ids = Vec::from_slice(alloc, starts)?;
    while let Some(id) = open_ids.pop() {
        look_at(edges, id, &mut found, &mut open_ids)?;
    }
    Ok(found)
}

/// Where the id is new, takes it as found, and opens the ids of its edges.
fn look_at<E: Edges>(
    edges: &E,
    id: u64,
    found: &mut BTreeSet<u64>,
    open_ids: &mut Vec<u64>,
) -> Result<(), NoMemory>
    ensures known { OnOk result (has id found.old.keys ≡ true → (found.new.keys ≡ found.old.keys) × (open_ids.new.items ≡ open_ids.old.items)) }
    ensures new { OnOk result (has id found.old.keys ≡ false → (found.new.keys ≡ insert id found.old.keys) × (open_ids.new.items ≡ open_ids.old.items ++ edges_of (entity_of (E.graph edges.now) id))) }
{
    if found.insert(id)? {
        edges.push_edges(id, open_ids)
    } else {
        Ok(())
    }
}
