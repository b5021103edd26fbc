//! Which instances are given up.

ghost use Rattle.std.specs.Prelude.{◌≡◌, ◌≤◌, ◌&&◌, ◌++◌, ◌∷◌, [], not, length, IfOk, OnOk};
ghost use Rattle.std.specs.Ordering.{nat_cmp};
ghost use Rattle.std.specs.BTreeMap.{IsOrdered};
ghost use Rattle.graph_model.specs.Ids.{has};
ghost use Rattle.session_model.specs.Instances.{graph_of, kept_refs, reached};
ghost use Rattle.object_registry.specs.Entries.{bindings_of, held, held_in};
ghost use Rattle.object_registry.specs.Registered.{bound_ids, kept_among, released_ids};

use crate::instance::Instance;
use crate::names::{self, Names};
use crate::table::{self, Table};
use crate::walking::{Edges, walk};
use graph_model::{Ids, NoMemory};
use std::alloc::Global;
use std::collections::BTreeSet;

/// What was given up.
#[derive(Debug, Drop)]
pub struct Forgotten {
    /// How many instances.
    pub count: u64,
    /// The ids of those among them that were saved, by rising number.
    pub released: Ids,
}

/// What each instance keeps.
#[derive(Drop)]
struct KeptEdges<'a> {
    instances: &'a Table,
}

impl<'a> Edges for KeptEdges<'a> {
    ghost graph = { λ edges. graph_of kept_refs (held_in edges.instances.now.entries) };

    fn push_edges(&self, id: u64, ids: &mut Vec<u64>) -> Result<(), NoMemory> {
        match table::find(self.instances, id) {
            Some(instance) => instance.push_kept(ids),
            None => Ok(()),
        }
    }
}

/// The ids that are kept: those that are bound, and what is reached from them.
pub fn kept_ids(alloc: Global, names: &Names, instances: &Table) -> Result<BTreeSet<u64>, NoMemory>
    ensures { IfOk result (λ kept. kept.keys ≡ reached (graph_of kept_refs (held_in instances.now.entries)) (bound_ids (bindings_of names.now.entries))) }
{
    let starts = names::ids_of(alloc, names)?;
    walk(alloc, &KeptEdges { instances }, starts.as_slice())
}

/// The ids of the saved instances that are not kept, by rising number.
pub fn released(alloc: Global, instances: &Table, kept: &BTreeSet<u64>) -> Result<Ids, NoMemory>
    ensures { IfOk result (λ ids. ids ≡ released_ids (held_in instances.now.entries) kept.now.keys) }
{
    let mut ids = Vec::new(alloc);
    for (id, instance) in instances {
        push_released(*id, instance, kept, &mut ids)?;
    }
    Ok(Ids::new(ids))
}

fn push_released(
    id: u64,
    instance: &Instance,
    kept: &BTreeSet<u64>,
    ids: &mut Vec<u64>,
) -> Result<(), NoMemory>
    ensures { OnOk result (ids.new.items ≡ ids.old.items ++ released_ids (held id instance.now ∷ []) kept.now.keys) }
{
    if is_released(id, instance, kept) {
        ids.push(id)?;
    }
    Ok(())
}

fn is_released(id: u64, instance: &Instance, kept: &BTreeSet<u64>) -> bool
    ensures { result ≡ (instance.now.saved && not (has id kept.now.keys)) }
{
    instance.is_saved() && !kept.contains(&id)
}

/// Gives up the instances that are not kept.
pub fn keep(instances: &mut Table, kept: &BTreeSet<u64>)
    ensures kept { held_in instances.new.entries ≡ kept_among (held_in instances.old.entries) kept.now.keys }
    ensures fewer { length instances.new.entries ≤ length instances.old.entries }
    ensures ordered { IsOrdered nat_cmp instances.new }
{
    instances.retain(|id, _| kept.contains(id));
}
