// Sets of ids that events make.
ghost use Rattle.std.specs.Prelude.{◌≡◌, [], IfOk, OnOk};
ghost use Rattle.graph_model.specs.Ids.{add_all, remove_all};
ghost use Rattle.graph_model.specs.Graph.{edges_of, entity_of, ids};

use graph_model::{Ids, NoMemory, Records};
use std::alloc::Global;

/// No id.
pub(crate) fn no_ids(alloc: Global) -> Ids
    ensures { result ≡ [] }
{
    Ids::new(Vec::new(alloc))
}

/// The edges of the entity of an id; none where there is no such entity.
pub(crate) fn edges_of(alloc: Global, table: &Records, id: u64) -> Result<Ids, NoMemory>
    ensures { IfOk result (λ edges. edges ≡ edges_of (entity_of table.now id)) }
{
    let mut edges = Vec::new(alloc);
    match table.get(id) {
        Some(entity) => {
            entity.push_edges(&mut edges)?;
            Ok(Ids::new(edges))
        }
        None => Ok(Ids::new(edges)),
    }
}

/// The ids of the records, in their order.
pub(crate) fn ids_of(alloc: Global, records: &Records) -> Result<Ids, NoMemory>
    ensures { IfOk result (λ found. found ≡ ids records.now) }
{
    let mut found = Vec::new(alloc);
    for record in records.as_slice() {
        found.push(record.id)?;
    }
    Ok(Ids::new(found))
}

/// Adds each of the ids. With no memory, some are added.
pub(crate) fn add_all(set: &mut Ids, ids: &Ids) -> Result<(), NoMemory>
    ensures { OnOk result (set.new ≡ add_all ids.now set.old) }
{
    let ids = ids.as_slice();
    let mut left = ids.len();
    while left > 0 {
        left -= 1;
        set.add(ids[left])?;
    }
    Ok(())
}

/// Takes out each of the ids once.
pub(crate) fn remove_all(set: &mut Ids, ids: &Ids)
    ensures { set.new ≡ remove_all ids.now set.old }
{
    let ids = ids.as_slice();
    let mut left = ids.len();
    while left > 0 {
        left -= 1;
        set.remove(ids[left]);
    }
}
