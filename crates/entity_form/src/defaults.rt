//! Objects as they are before anything is set.

ghost use Rattle.std.specs.Prelude.{◌≡◌, map, IfOk};
ghost use Rattle.entity_form.specs.Values.{default_of, kinds_of, AreOf};

use crate::value::{Object, Value, Values};
use graph_model::{Bytes, Ids, NoMemory};
use std::alloc::Global;
use type_desc::{Kind, Text, TypeDesc};

/// The value of a member of this kind that nothing was set to. Takes no memory.
pub fn default_value(alloc: Global, kind: Kind) -> Value
    ensures { result ≡ default_of kind }
{
    match kind {
        Kind::Int => Value::Int(0),
        Kind::Text => Value::Text(Text::from_string(String::new(alloc))),
        Kind::Bytes => Value::Bytes(Bytes::new(Vec::new(alloc))),
        Kind::Ref => Value::Ref(0),
        Kind::Lazy => Value::Lazy(0),
        Kind::Refs => Value::Refs(Ids::new(Vec::new(alloc))),
    }
}

/// The object of this type that nothing was set in.
pub fn default_object(alloc: Global, type_id: u64, desc: &TypeDesc) -> Result<Object, NoMemory>
    ensures typed { IfOk result (λ o. o.type_id ≡ type_id) }
    // The values fit the description.
    ensures fits { IfOk result (λ o. AreOf (kinds_of desc.now) o.values) }
    ensures defaults { IfOk result (λ o. o.values ≡ map default_of (kinds_of desc.now)) }
{
    let mut values = Vec::new(alloc);
    for member in desc.members.as_slice() {
        values.push(default_value(alloc, member.kind))?;
    }
    Ok(Object {
        type_id,
        values: Values::new(values),
    })
}
