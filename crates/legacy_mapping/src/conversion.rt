//! Conversion of objects.

ghost use Rattle.std.specs.Prelude.{◌≡◌, ◌≢◌, ◌<◌, ℕ, IfOk, List, Some, length, map, slice_get};
ghost use Rattle.std.specs.Option.{ForSome};
ghost use Rattle.entity_form.specs.Values.{AreOf, kind_of, kinds_of};
ghost use Rattle.legacy_mapping.specs.Conversion.{IsConversion, Suits, converted, value_from};
ghost use Rattle.legacy_mapping.specs.Sources.{AreApart, AreSources};
ghost use Rattle.refactor_table.specs.declared.name.Pair.{Pair as AnyPair};
ghost use Rattle.type_desc.specs.declared.desc.Member.{Member as AnyMember};
ghost use Rattle.type_desc.specs.declared.desc.TypeDesc.{TypeDesc as AnyDesc};

use crate::sources::Plan;
use entity_form::{Object, Value, Values, default_value};
use std::alloc::{AllocError, Global};
use type_desc::{Kind, Member, NoMemory, TypeDesc};

/// Takes the value of the source out, else gives the default of the kind.
fn take_value(alloc: Global, values: &mut [Value], kind: Kind, source: Option<usize>) -> Value
    requires { ForSome source (λ i. i < length values.old) }
    ensures value { result ≡ value_from values.old kind source }
    ensures others { (k : ℕ) → source ≢ Some k → slice_get values.new k ≡ slice_get values.old k }
    ensures length { length values.new ≡ length values.old }
{
    match source {
        Some(i) => std::mem::replace(&mut values[i], Value::Int(0)),
        None => default_value(alloc, kind),
    }
}

/// For each member, in order, the value of its source, else its default.
fn values_from(
    alloc: Global,
    values: &mut [Value],
    members: &[Member],
    sources: &[Option<usize>],
) -> Result<Values, AllocError>
    requires suits { Suits (map kind_of values.old) (map (λ (m : AnyMember). m.kind) members.now) sources.now }
    requires apart { AreApart sources.now }
    ensures { IfOk result (λ v. v ≡ converted values.old (map (λ (m : AnyMember). m.kind) members.now) sources.now) }
{
    let mut new_values = Vec::new(alloc);
    for (i, member) in members.iter().enumerate() {
        let value = take_value(alloc, values, member.kind, sources[i]);
        new_values.push(value)?;
    }
    Ok(Values::new(new_values))
}

/// The object of the newer type that the object becomes. Its values are taken over, and those of members that are no
/// source are left behind.
pub fn convert(
    alloc: Global,
    object: Object,
    new_type: u64,
    new: &TypeDesc,
    plan: &Plan,
) -> Result<Object, NoMemory>
    requires suits { Suits (map kind_of object.values) (kinds_of new.now) plan.now }
    requires apart { AreApart plan.now }
    ensures type_id { IfOk result (λ o. o.type_id ≡ new_type) }
    ensures values { IfOk result (λ o. o.values ≡ converted object.values (kinds_of new.now) plan.now) }
    ensures kinds { IfOk result (λ o. AreOf (kinds_of new.now) o.values) }
    // Whatever two types and pairs the plan is of.
    ensures conversion { (pairs : List AnyPair) (old : AnyDesc) → AreOf (kinds_of old) object.values → AreSources pairs old new.now plan.now
        → IfOk result (λ o. IsConversion pairs old new.now object.values o.values) }
{
    let mut old_values = object.values.into_vec();
    let values = values_from(
        alloc,
        &mut old_values,
        new.members.as_slice(),
        plan.as_slice(),
    )?;
    Ok(Object {
        type_id: new_type,
        values,
    })
}
