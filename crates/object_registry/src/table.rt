//! The objects in memory by their ids.

ghost use Rattle.std.specs.Prelude.{◌≡◌, ◌<◌, ◌++◌, [], ◌∷◌, length, option_copied, IsSomeAnd, IfSome, OnOk, OnErr};
ghost use Rattle.std.specs.Ordering.{nat_cmp};
ghost use Rattle.std.specs.BTreeMap.{IsOrdered};
ghost use Rattle.session_model.specs.Answer.{saved_instances, without_at};
ghost use Rattle.session_model.specs.Instances.{instance_at, put_instance};
ghost use Rattle.object_registry.specs.Entries.{held_in};
ghost use Rattle.object_registry.specs.Registered.{ChangesRefs, HasRefAt, HasRefs, put_loaded, with_member};

use crate::instance::Instance;
use entity_form::{Object, Value};
use graph_model::NoMemory;
use std::alloc::Global;
use std::collections::BTreeMap;

/// The objects in memory by their ids.
pub type Table = BTreeMap<u64, Instance>;

/// The instance of an id.
pub fn find(table: &Table, id: u64) -> Option<&Instance>
    ensures { option_copied result ≡ instance_at (held_in table.now.entries) id }
{
    table.get(&id)
}

/// Puts an instance in the place of the one that the id may have.
pub fn put(table: &mut Table, id: u64, instance: Instance) -> Result<(), NoMemory>
    ensures ok { OnOk result (held_in table.new.entries ≡ put_instance id instance (held_in table.old.entries)) }
    ensures err { OnErr result (table.new.entries ≡ table.old.entries) }
    ensures ordered { IsOrdered nat_cmp table.new }
{
    table.insert(id, instance)?;
    Ok(())
}

/// Puts objects in as they were loaded. With no memory, some are there.
pub fn put_all(table: &mut Table, all: Vec<(u64, Object)>) -> Result<(), NoMemory>
    requires { IsOrdered nat_cmp table.old }
    ensures ok { OnOk result (held_in table.new.entries ≡ put_loaded all.items (held_in table.old.entries)) }
    ensures ordered { IsOrdered nat_cmp table.new }
{
    let mut left = all;
    while let Some((id, object)) = left.pop() {
        put(table, id, Instance::loaded(object))?;
    }
    Ok(())
}

/// Gives a member of an instance another value.
pub fn set(table: &mut Table, alloc: Global, id: u64, member: u32, value: Value)
    requires { IsSomeAnd (instance_at (held_in table.old.entries) id) (λ i. member < length i.object.values) }
    ensures set { IfSome (instance_at (held_in table.old.entries) id) (λ i. held_in table.new.entries ≡ put_instance id (with_member i member value) (held_in table.old.entries)) }
    ensures ordered { IsOrdered nat_cmp table.new }
{
    match table.get_mut(&id) {
        Some(instance) => instance.set(alloc, member, value),
        None => unreachable!(),
    }
}

/// Puts an id behind the last of an instance's `refs` member. With no memory, nothing changes.
pub fn push_ref(
    table: &mut Table,
    alloc: Global,
    id: u64,
    member: u32,
    target: u64,
) -> Result<(), NoMemory>
    requires { HasRefs (held_in table.old.entries) id member }
    ensures ok { OnOk result (ChangesRefs (λ ids. ids ++ target ∷ []) id member (held_in table.old.entries) (held_in table.new.entries)) }
    ensures err { OnErr result (table.new.entries ≡ table.old.entries) }
    ensures ordered { IsOrdered nat_cmp table.new }
{
    match table.get_mut(&id) {
        Some(instance) => instance.push_ref(alloc, member, target),
        None => unreachable!(),
    }
}

/// Takes the id with this index out of an instance's `refs` member.
pub fn take_ref(table: &mut Table, alloc: Global, id: u64, member: u32, at: usize)
    requires { HasRefAt (held_in table.old.entries) id member at }
    ensures taken { ChangesRefs (λ ids. without_at ids at) id member (held_in table.old.entries) (held_in table.new.entries) }
    ensures ordered { IsOrdered nat_cmp table.new }
{
    match table.get_mut(&id) {
        Some(instance) => instance.take_ref(alloc, member, at),
        None => unreachable!(),
    }
}

/// Takes the instance of an id as stored just now.
fn store(table: &mut Table, id: u64)
    ensures saved { held_in table.new.entries ≡ saved_instances (held_in table.old.entries) (id ∷ []) }
    ensures ordered { IsOrdered nat_cmp table.new }
{
    match table.get_mut(&id) {
        Some(instance) => instance.store(),
        None => {}
    }
}

/// Takes the instances of these ids as stored just now.
pub fn store_all(table: &mut Table, ids: &[u64])
    requires { IsOrdered nat_cmp table.old }
    ensures saved { held_in table.new.entries ≡ saved_instances (held_in table.old.entries) ids.now }
    ensures ordered { IsOrdered nat_cmp table.new }
{
    for id in ids {
        store(table, *id);
    }
}
