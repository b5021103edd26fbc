//! Writing an object as an entity.

ghost use Rattle.std.specs.Prelude.{◌≡◌, ◌++◌, ◌+◌, ◌-◌, ◌<◌, ◌≤◌, ◌^◌, length, min, IfOk, IfErr, OnOk, sum_by};
ghost use Rattle.graph_model.specs.Graph.{entity_size};
ghost use Rattle.entity_form.specs.Faults.{IsEncodeFault};
ghost use Rattle.entity_form.specs.Form.{Holds};
ghost use Rattle.entity_form.specs.Values.{refs_of, plain_of, sized, value_size, entity_of, kinds_of, AreOf, IsHeld};

use crate::fault::EncodeFault;
use crate::places::HEADER_BYTES;
use crate::value::{Object, Value};
use field_bytes::{push_u32, push_u64};
use graph_model::{Bytes, ENTITY_LIMIT, Entity, Ids};
use std::alloc::{AllocError, Global};
use type_desc::TypeDesc;

fn put_refs(out: &mut Vec<u64>, value: &Value) -> Result<(), AllocError>
    ensures { OnOk result (out.new.items ≡ out.old.items ++ refs_of value.now) }
{
    match value {
        Value::Ref(id) | Value::Lazy(id) => out.push(*id)?,
        Value::Refs(ids) => out.extend_from_slice(ids.as_slice())?,
        Value::Int(_) | Value::Text(_) | Value::Bytes(_) => {}
    }
    Ok(())
}

fn put_sized(out: &mut Vec<u8>, bytes: &[u8]) -> Result<(), AllocError>
    requires { length bytes.now < 2 ^ 32 }
    ensures { OnOk result (out.new.items ≡ out.old.items ++ sized bytes.now) }
{
    push_u32(out, bytes.len() as u32)?;
    out.extend_from_slice(bytes)?;
    Ok(())
}

fn put_plain(out: &mut Vec<u8>, value: &Value) -> Result<(), AllocError>
    requires { value_size value.now < 2 ^ 32 }
    ensures put { OnOk result (out.new.items ≡ out.old.items ++ plain_of value.now) }
    ensures held { OnOk result (IsHeld value.now) }
{
    match value {
        Value::Int(number) => push_u64(out, number.cast_unsigned())?,
        Value::Text(text) => put_sized(out, text.as_str().as_bytes())?,
        Value::Bytes(bytes) => put_sized(out, bytes.as_slice())?,
        Value::Refs(ids) => push_u32(out, ids.as_slice().len() as u32)?,
        Value::Ref(_) | Value::Lazy(_) => {}
    }
    Ok(())
}

/// How many bytes a value takes, as far as a `u64` can say.
fn size_of_value(value: &Value) -> u64
    ensures { result ≡ min (value_size value.now) (2 ^ 64 - 1) }
{
    match value {
        Value::Int(_) | Value::Ref(_) | Value::Lazy(_) => 8,
        Value::Text(text) => (text.as_str().len() as u64).saturating_add(4),
        Value::Bytes(bytes) => (bytes.as_slice().len() as u64).saturating_add(4),
        Value::Refs(ids) => (ids.as_slice().len() as u64)
            .saturating_mul(8)
            .saturating_add(4),
    }
}

/// How many bytes the entity of these values has, as far as a `u64` can say.
fn size_of(values: &[Value]) -> u64
    ensures { result ≡ min (32 + sum_by value_size values.now) (2 ^ 64 - 1) }
{
    let mut size = HEADER_BYTES as u64;
    for value in values {
        size = size.saturating_add(size_of_value(value));
    }
    size
}

/// The entity that holds the object.
pub fn encode(alloc: Global, object: &Object, desc: &TypeDesc) -> Result<Entity, EncodeFault>
    requires { AreOf (kinds_of desc.now) object.now.values }
    ensures entity { IfOk result (λ e. e ≡ entity_of object.now) }
    // The entity has the type's form, and these values are read from it.
    ensures held { IfOk result (λ e. Holds (kinds_of desc.now) e.refs e.plain object.now.values) }
    ensures fits { IfOk result (λ e. entity_size e ≤ 1048576) }
    // An object whose entity is too big is refused as such, whether there is memory or not.
    ensures fault { IfErr result (λ f. IsEncodeFault (entity_size (entity_of object.now)) f) }
{
    let values = object.values.as_slice();
    let length = size_of(values);
    if length > ENTITY_LIMIT {
        return Err(EncodeFault::TooBig { length });
    }
    let mut refs = Vec::new(alloc);
    let mut plain = Vec::new(alloc);
    for value in values {
        put_refs(&mut refs, value)?;
        put_plain(&mut plain, value)?;
    }
    Ok(Entity {
        type_id: object.type_id,
        refs: Ids::new(refs),
        plain: Bytes::new(plain),
    })
}
