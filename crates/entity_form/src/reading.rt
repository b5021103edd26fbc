//! Reading the values of an entity.

ghost use Rattle.std.specs.Prelude.{◌≡◌, ◌<◌, ◌+◌, length, option_map, map, List, IfOk, IfErr, MatchResult, IsTrue, IsFalse};
ghost use Rattle.entity_form.specs.declared.value.Value.{Value as AnyValue};
ghost use Rattle.entity_form.specs.Form.{Holds};
ghost use Rattle.entity_form.specs.Faults.{IsBadForm};
ghost use Rattle.entity_form.specs.Reading.{Decodes, Gives, sized_at, value_at, values_at};
ghost use Rattle.entity_form.specs.Values.{kinds_of};

use crate::fault::{DecodeFault, ValueFault};
use crate::value::{Object, Value, Values};
use field_bytes::{read_u32_at, read_u64_at};
use graph_model::{Bytes, Entity, Ids};
use std::alloc::Global;
use type_desc::{Kind, Member, Text, TypeDesc};

/// Takes a length and so many bytes.
#[tactic(auto, unfolding(crate::specs::Reading::sized_at))]
fn sized(plain: &[u8]) -> Option<(&[u8], &[u8])>
    ensures { option_map (λ x. (x.0.now, x.1.now)) result ≡ sized_at plain.now }
{
    let len = read_u32_at(plain, 0)? as usize;
    let rest = &plain[4..];
    if rest.len() < len {
        return None;
    }
    Some(rest.split_at(len))
}

/// Takes the value of a member of this kind.
#[tactic(auto, unfolding(crate::specs::Reading::value_at))]
fn value<'a>(
    alloc: Global,
    kind: Kind,
    refs: &'a [u64],
    plain: &'a [u8],
) -> Result<(Value, &'a [u64], &'a [u8]), ValueFault>
    ensures { Gives (λ x. (x.0, x.1.now, x.2.now)) result (value_at kind refs.now plain.now) }
{
    match kind {
        Kind::Int => match read_u64_at(plain, 0) {
            Some(number) => Ok((Value::Int(number.cast_signed()), refs, &plain[8..])),
            None => Err(ValueFault::Unreadable),
        },
        Kind::Text => match sized(plain) {
            Some((bytes, rest)) => match std::str::from_utf8(bytes) {
                Ok(text) => Ok((Value::Text(Text::new(alloc, text)?), refs, rest)),
                Err(_) => Err(ValueFault::Unreadable),
            },
            None => Err(ValueFault::Unreadable),
        },
        Kind::Bytes => match sized(plain) {
            Some((bytes, rest)) => {
                let bytes = Bytes::new(Vec::from_slice(alloc, bytes)?);
                Ok((Value::Bytes(bytes), refs, rest))
            }
            None => Err(ValueFault::Unreadable),
        },
        Kind::Ref => match refs {
            [id, refs @ ..] => Ok((Value::Ref(*id), refs, plain)),
            [] => Err(ValueFault::Unreadable),
        },
        Kind::Lazy => match refs {
            [id, refs @ ..] => Ok((Value::Lazy(*id), refs, plain)),
            [] => Err(ValueFault::Unreadable),
        },
        Kind::Refs => match read_u32_at(plain, 0) {
            Some(count) if count as usize <= refs.len() => {
                let (ids, refs) = refs.split_at(count as usize);
                let ids = Ids::new(Vec::from_slice(alloc, ids)?);
                Ok((Value::Refs(ids), refs, &plain[4..]))
            }
            _ => Err(ValueFault::Unreadable),
        },
    }
}

/// Whether nothing is left.
fn is_used_up(refs: &[u64], plain: &[u8]) -> bool
    ensures used { IsTrue result → length refs.now + length plain.now ≡ 0 }
    ensures left { IsFalse result → 0 < length refs.now + length plain.now }
{
    refs.is_empty() && plain.is_empty()
}

/// Reads the values of all members.
fn values(
    alloc: Global,
    members: &[Member],
    refs: &[u64],
    plain: &[u8],
) -> Result<Values, DecodeFault>
    ensures { Decodes (λ v. v) result (values_at (map (λ m. m.kind) members.now) 0 refs.now plain.now) }
{
    let mut values = Vec::new(alloc);
    let mut refs_left = refs;
    let mut plain_left = plain;
    for (i, member) in members.iter().enumerate() {
        match value(alloc, member.kind, refs_left, plain_left) {
            Ok((value, refs_after, plain_after)) => {
                values.push(value)?;
                refs_left = refs_after;
                plain_left = plain_after;
            }
            Err(ValueFault::Memory) => return Err(DecodeFault::NoMemory),
            Err(ValueFault::Unreadable) => {
                return Err(DecodeFault::BadForm { at: i as u64 });
            }
        }
    }
    if !is_used_up(refs_left, plain_left) {
        return Err(DecodeFault::BadForm {
            at: members.len() as u64,
        });
    }
    Ok(Values::new(values))
}

/// The values of all members, in the words of what the entity holds.
fn held_values(
    alloc: Global,
    members: &[Member],
    refs: &[u64],
    plain: &[u8],
) -> Result<Values, DecodeFault>
    ensures found { IfOk result (λ v. Holds (map (λ m. m.kind) members.now) refs.now plain.now v) }
    ensures only { (vs : List AnyValue) → Holds (map (λ m. m.kind) members.now) refs.now plain.now vs
        → MatchResult result (λ v. v ≡ vs) (λ f. f ≡ DecodeFault.NoMemory) }
    ensures fault { IfErr result (λ f. IsBadForm (map (λ m. m.kind) members.now) refs.now plain.now f) }
{
    match values(alloc, members, refs, plain) {
        Ok(values) => Ok(values),
        Err(fault) => Err(fault),
    }
}

/// The object that the entity holds by this description.
pub fn decode(alloc: Global, entity: &Entity, desc: &TypeDesc) -> Result<Object, DecodeFault>
    ensures kept { IfOk result (λ o. o.type_id ≡ entity.now.type_id) }
    // The entity holds what is decoded.
    ensures found { IfOk result (λ o. Holds (kinds_of desc.now) entity.now.refs entity.now.plain o.values) }
    // What the entity holds is decoded, unless memory runs out.
    ensures only { (values : List AnyValue) → Holds (kinds_of desc.now) entity.now.refs entity.now.plain values
        → MatchResult result (λ o. o.values ≡ values) (λ f. f ≡ DecodeFault.NoMemory) }
    // Where it has not the form.
    ensures fault { IfErr result (λ f. IsBadForm (kinds_of desc.now) entity.now.refs entity.now.plain f) }
{
    let members = desc.members.as_slice();
    match held_values(
        alloc,
        members,
        entity.refs.as_slice(),
        entity.plain.as_slice(),
    ) {
        Ok(values) => Ok(Object {
            type_id: entity.type_id,
            values,
        }),
        Err(fault) => Err(fault),
    }
}
