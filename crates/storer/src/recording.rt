//! Gathered objects as entities.

ghost use Rattle.std.specs.Prelude.{◌≡◌, ◌≤◌, ◌<◌, ◌++◌, ◌∷◌, [], length, IsTrue, IfOk, IfErr, OnOk, None};
ghost use Rattle.graph_model.specs.Ids.{rises};
ghost use Rattle.graph_model.specs.Graph.{entity_size};
ghost use Rattle.entity_form.specs.Values.{entity_of};
ghost use Rattle.session_model.specs.Instances.{instance_at};
ghost use Rattle.object_registry.specs.Registered.{instance_ids};
ghost use Rattle.storer.specs.Gathered.{IsKnown, AreKnown, records_at, records_of};
ghost use Rattle.storer.specs.Faults.{IsRefusedAlone, IsRefusedTogether, first_big, total_of};

use crate::fault::GatherFault;
use entity_form::{EncodeFault, Object, encode};
use graph_model::{Entity, Record};
use object_registry::Registry;
use std::alloc::Global;
use std::collections::BTreeSet;
use type_dictionary::Dictionary;

/// The record of an object, where it is not too big.
fn record_of(
    alloc: Global,
    id: u64,
    object: &Object,
    types: &Dictionary,
) -> Result<Record, GatherFault>
    requires { IsKnown types.now object.now }
    ensures is { IfOk result (λ r. r ≡ record { id = id; entity = entity_of object.now }) }
    ensures fits { IfOk result (λ r. entity_size r.entity ≤ 1048576) }
    ensures fault { IfErr result (IsRefusedAlone (record { id = id; entity = entity_of object.now } ∷ [])) }
{
    let Some(desc) = types.by_id(object.type_id) else {
        unreachable!();
    };
    match encode(alloc, object, desc) {
        Ok(entity) => Ok(Record { id, entity }),
        Err(EncodeFault::TooBig { length }) => Err(GatherFault::EntityTooBig { id, length }),
        Err(EncodeFault::NoMemory) => Err(GatherFault::NoMemory),
    }
}

/// Puts the record of an id at the end of a list, where it has an instance.
fn push_record(
    alloc: Global,
    registry: &Registry,
    types: &Dictionary,
    id: u64,
    records: &mut Vec<Record>,
) -> Result<(), GatherFault>
    requires { AreKnown types.now registry.now.instances }
    ensures ok { OnOk result (records.new.items ≡ records.old.items ++ records_of id (instance_at registry.now.instances id)) }
    ensures fits { OnOk result (first_big (records_of id (instance_at registry.now.instances id)) ≡ None) }
    ensures fault { IfErr result (IsRefusedAlone (records_of id (instance_at registry.now.instances id))) }
    ensures order { IsTrue (rises (instance_ids registry.now.instances)) }
{
    match registry.copy(id) {
        Some(instance) => {
            let record = record_of(alloc, id, instance.object(), types)?;
            records.push(record)?;
            Ok(())
        }
        None => Ok(()),
    }
}

/// The records of the instances of these ids, by rising id.
pub fn record_all(
    alloc: Global,
    registry: &Registry,
    types: &Dictionary,
    ids: &BTreeSet<u64>,
) -> Result<Vec<Record>, GatherFault>
    requires { AreKnown types.now registry.now.instances }
    ensures ok { IfOk result (λ records. records.items ≡ records_at registry.now.instances ids.now.keys) }
    ensures fits { OnOk result (first_big (records_at registry.now.instances ids.now.keys) ≡ None) }
    ensures fault { IfErr result (IsRefusedAlone (records_at registry.now.instances ids.now.keys)) }
    ensures order { 0 < length ids.now.keys → IsTrue (rises (instance_ids registry.now.instances)) }
{
    let mut records = Vec::new(alloc);
    for id in ids {
        push_record(alloc, registry, types, *id, &mut records)?;
    }
    Ok(records)
}

/// How many bytes an entity takes.
fn size_of(entity: &Entity) -> u64
    requires { entity_size entity.now ≤ 1048576 }
    ensures { result ≡ entity_size entity.now }
{
    32 + 8 * entity.refs.len() as u64 + entity.plain.len() as u64
}

/// How many bytes all entities take.
fn total_size(records: &[Record]) -> u128
    requires { first_big records.now ≡ None }
    ensures { result ≡ total_of records.now }
{
    let mut total = 0;
    for record in records {
        total += u128::from(size_of(&record.entity));
    }
    total
}

/// Whether all entities together are within the most bytes.
pub fn check_total(records: &[Record], most: u64) -> Result<(), GatherFault>
    requires { first_big records.now ≡ None }
    ensures ok { OnOk result (total_of records.now ≤ most) }
    ensures fault { IfErr result (IsRefusedTogether most records.now) }
{
    let total = total_size(records);
    if total > u128::from(most) {
        let length = u64::try_from(total).unwrap_or(u64::MAX);
        return Err(GatherFault::StoreTooBig { length });
    }
    Ok(())
}
