//! The entities of a graph by their ids.

ghost use Rattle.std.specs.Prelude.{◌≡◌, [], option_copied, IsTrue, OnOk, OnErr};
ghost use Rattle.graph_model.specs.Graph.{entity_of, ids, put};
ghost use Rattle.graph_model.specs.Ids.{rises};

use graph_model::{Entity, NoMemory};
use std::alloc::Global;
use std::collections::BTreeMap;
use std::marker::Model;

/// A search tree of entities, which contracts see as a graph.
#[derive(Debug, Drop)]
pub struct Tree {
    pub(crate) entities: BTreeMap<u64, Entity>,
}

impl Model for Tree {
    ghost use Rattle.std.specs.Ordering.{nat_cmp};
    ghost use Rattle.std.specs.BTreeMap.{IsOrdered};
    ghost use Rattle.graph_model.specs.Graph.{Graph};
    ghost use Rattle.plain_storage.specs.Trees.{graph_of};

    ghost Value = { Graph };

    ghost view = { λ tree. graph_of tree.entities.entries };

    ghost invariant = { λ tree. IsOrdered nat_cmp tree.entities };
}

impl Tree {
    pub fn new(alloc: Global) -> Tree
        ensures { result ≡ [] }
    {
        Tree {
            entities: BTreeMap::new(alloc),
        }
    }

    /// The entity of an id.
    pub fn get(&self, id: u64) -> Option<&Entity>
        ensures found { option_copied result ≡ entity_of self.now id }
        ensures order { IsTrue (rises (ids self.now)) }
    {
        self.entities.get(&id)
    }

    /// Puts an entity in its place, in the stead of the one of the same id.
    pub fn put(&mut self, id: u64, entity: Entity) -> Result<(), NoMemory>
        ensures ok { OnOk result (self.new ≡ put (record { id = id; entity = entity }) self.old) }
        ensures err { OnErr result (self.new ≡ self.old) }
    {
        self.entities.insert(id, entity)?;
        Ok(())
    }
}
