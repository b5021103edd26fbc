//! Ids are held, and records are put into memory.

ghost use Rattle.std.specs.Prelude.{◌≡◌, ◌||◌, ◌&&◌, not, ℕ, OnOk};
ghost use Rattle.graph_model.specs.Graph.{ids, put_all};
ghost use Rattle.graph_model.specs.Ids.{has};

use crate::tree::Tree;
use graph_model::{NoMemory, Records};
use std::collections::BTreeSet;

/// Holds ids too. With no memory, some of them are held.
pub fn hold_all(held: &mut BTreeSet<u64>, ids: &[u64]) -> Result<(), NoMemory>
    ensures { OnOk result ((x : ℕ) → has x held.new.keys ≡ (has x ids.now || has x held.old.keys)) }
{
    for id in ids {
        held.insert(*id)?;
    }
    Ok(())
}

/// Holds ids no longer.
pub fn release_all(held: &mut BTreeSet<u64>, ids: &[u64])
    ensures { (x : ℕ) → has x held.new.keys ≡ (has x held.old.keys && not (has x ids.now)) }
{
    for id in ids {
        held.remove(id);
    }
}

/// Puts records into a graph, and holds their ids. Of records of one id the first stays. With no memory, some are there.
pub fn take_all(
    graph: &mut Tree,
    held: &mut BTreeSet<u64>,
    records: Records,
) -> Result<(), NoMemory>
    ensures graph { OnOk result (graph.new ≡ put_all records graph.old) }
    ensures held { OnOk result ((x : ℕ) → has x held.new.keys ≡ (has x (ids records) || has x held.old.keys)) }
{
    let mut records = records.into_vec();
    while let Some(record) = records.pop() {
        held.insert(record.id)?;
        graph.put(record.id, record.entity)?;
    }
    Ok(())
}
