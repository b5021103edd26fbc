ghost use Rattle.std.specs.Prelude.{◌≡◌, ◌↔◌, ◌++◌, ℕ, true, false, option_copied, IsTrue, IfOk, OnOk};
ghost use Rattle.graph_model.specs.Ids.{has, insert, rises};
ghost use Rattle.graph_model.specs.Graph.{entity_of, edges_of, ids, after, last_stored, or_else, IsReached};

use crate::entity::{Entity, Records, StoreOp};
use crate::lists::Ids;
use crate::memory::NoMemory;
use std::alloc::Global;
use std::marker::Model;

/// A graph: entities by rising id. Contracts see it as the list of its records.
#[derive(Clone, Debug, Drop)]
pub struct Graph {
    pub records: Records,
}

impl Model for Graph {
    ghost use Rattle.graph_model.specs.Graph.{Graph};

    ghost Value = { Graph };

    ghost view = { λ graph. graph.records };
}

impl Graph {
    /// The entity of an id, where the graph has it. It looks at one record after another.
    pub fn get(&self, id: u64) -> Option<&Entity>
        ensures { option_copied result ≡ entity_of self.now id }
    {
        self.records.get(id)
    }
}

/// The graph after stores. Each id has the entity of the last store that lists it, and else the one that it had.
pub fn after(alloc: Global, graph: &Graph, stores: &Vec<StoreOp>) -> Result<Graph, NoMemory>
    ensures entities { IfOk result (λ g. (x : ℕ) → entity_of g x ≡ or_else (last_stored stores.now.items x) (entity_of graph.now x)) }
    ensures order { IfOk result (λ g. IsTrue (rises (ids graph.now)) → IsTrue (rises (ids g))) }
    ensures whole { IfOk result (λ g. g ≡ after graph.now stores.now.items) }
{
    let mut records = Records::copy_of(alloc, graph.records.as_slice())?;
    for store in stores {
        records.put_all(&store.records)?;
    }
    Ok(Graph { records })
}

/// The ids that are reached by edges from the starts, by rising id. The starts are among them, also those that the graph lacks.
pub fn reach(alloc: Global, graph: &Graph, starts: &Ids) -> Result<Ids, NoMemory>
    ensures walks { IfOk result (λ reached. (x : ℕ) → IsTrue (has x reached) ↔ IsReached graph.now starts.now x) }
    ensures order { IfOk result (λ reached. IsTrue (rises reached)) }
{
    let mut reached = Ids::new(Vec::new(alloc));
    let mut open_ids = Vec::from_slice(alloc, starts.as_slice())?;
    while let Some(id) = open_ids.pop() {
        look_at(graph, id, &mut reached, &mut open_ids)?;
    }
    Ok(reached)
}

/// Where the id is new, takes it as reached, and opens the ids of its edges.
fn look_at(
    graph: &Graph,
    id: u64,
    reached: &mut Ids,
    open_ids: &mut Vec<u64>,
) -> Result<(), NoMemory>
    ensures known { OnOk result (has id reached.old ≡ true → (reached.new ≡ reached.old) × (open_ids.new.items ≡ open_ids.old.items)) }
    ensures new { OnOk result (has id reached.old ≡ false → (reached.new ≡ insert id reached.old) × (open_ids.new.items ≡ open_ids.old.items ++ edges_of (entity_of graph.now id))) }
{
    if reached.contains(id) {
        return Ok(());
    }
    reached.insert(id)?;
    match graph.get(id) {
        Some(entity) => entity.push_edges(open_ids),
        None => Ok(()),
    }
}
