//! Where a line's words lead: to an object that has a name, and to a member of it.

ghost use Rattle.std.specs.Prelude.{◌≡◌, ◌<◌, None, IfOk, IfSome, IsSomeAnd, MatchOption, MatchResult, is_some, length, option_map};
ghost use Rattle.session_model.specs.Answer.{id_in, is_root_name, ref_in, refs_in};
ghost use Rattle.session_model.specs.Instances.{instance_at};
ghost use Rattle.session_model.specs.Types.{is_root_type, member_index};
ghost use Rattle.session_lines.specs.Places.{IsFree, IsMember, IsMissing, IsBoundTo, IsNotFree, IsPlace, instance_named, index_of};

use crate::memory::Memory;
use crate::refusal::{Refusal, Stop};
use entity_form::Value;
use graph_model::Ids;
use object_registry::Instance;
use type_desc::{Text, TypeDesc};

/// Whether the name is `root`, which is always bound.
pub fn is_root_name(name: &Text) -> bool
    ensures { result ≡ is_root_name name.now }
{
    name.as_str() == "root"
}

/// Whether the name is that of the built-in type.
pub fn is_root_type(name: &Text) -> bool
    ensures { result ≡ is_root_type name.now }
{
    name.as_str() == "Root"
}

/// The object that a name is bound to, with its id.
pub fn named<'a>(memory: &'a Memory, name: &Text) -> Option<(u64, &'a Instance)>
    ensures { MatchOption result (instance_named memory.now.registry name.now ≡ None) (λ found. IsBoundTo memory.now.registry name.now found.0 found.1.now) }
{
    let id = memory.registry.id_of(name)?;
    match memory.registry.copy(id) {
        Some(instance) => Some((id, instance)),
        None => None,
    }
}

/// Where a type has a member of this name.
pub fn index_in(desc: &TypeDesc, member: &Text) -> Option<usize>
    ensures { result ≡ member_index desc.now member.now }
{
    desc.members
        .as_slice()
        .iter()
        .position(|m| m.name.is_same(member))
}

/// Where an object has a member of this name. No type has more than 1,024 members.
fn index_of(memory: &Memory, instance: &Instance, member: &Text) -> Option<u32>
    ensures at { result ≡ index_of memory.now.types instance.now member.now }
{
    match memory.types.by_id(instance.object().type_id) {
        Some(desc) => index_in(desc, member).map(|index| index as u32),
        None => None,
    }
}

/// A member of an object that has a name.
#[derive(Clone, Copy, Debug)]
pub struct Place<'a> {
    /// The object's id.
    pub id: u64,
    /// The member's index, from 0.
    pub index: u32,
    pub value: &'a Value,
}

/// The member of the object that the name is bound to: `NoName`, then `NoMember`.
pub fn place_of<'a>(memory: &'a Memory, name: &Text, member: &Text) -> Result<Place<'a>, Stop>
    ensures { MatchResult result (λ place. IsPlace memory.now.registry memory.now.types name.now member.now place.id place.index place.value.now) (IsMissing memory.now.registry memory.now.types name.now member.now) }
{
    let Some((id, instance)) = named(memory, name) else {
        return Err(Stop::Refused(Refusal::NoName));
    };
    let Some(index) = index_of(memory, instance, member) else {
        return Err(Stop::Refused(Refusal::NoMember));
    };
    match instance.object().values.as_slice().get(index as usize) {
        Some(value) => Ok(Place { id, index, value }),
        None => Err(Stop::Refused(Refusal::NoMember)),
    }
}

/// The ids of a `refs` member.
pub fn refs_in(value: &Value) -> Option<&Ids>
    ensures { option_map (λ ids. ids.now) result ≡ refs_in (Some value.now) }
{
    match value {
        Value::Refs(ids) => Some(ids),
        _ => None,
    }
}

/// The id of a `ref` or `lazy` member.
pub fn ref_in(value: &Value) -> Option<u64>
    ensures { result ≡ ref_in (Some value.now) }
{
    match value {
        Value::Ref(id) | Value::Lazy(id) => Some(*id),
        _ => None,
    }
}

/// Whether a name may be bound: `Reserved`, then `NameTaken`.
pub fn may_bind(memory: &Memory, name: &Text) -> Result<(), Stop>
    ensures { MatchResult result (λ _. IsFree memory.now.registry name.now) (IsNotFree memory.now.registry name.now) }
{
    if is_root_name(name) {
        return Err(Stop::Refused(Refusal::Reserved));
    }
    match memory.registry.id_of(name) {
        Some(_) => Err(Stop::Refused(Refusal::NameTaken)),
        None => Ok(()),
    }
}
