//! Objects as lines of JSON: compact, with keys in byte order.
#![tactic(auto)]

ghost use Rattle.std.specs.Prelude.{◌≡◌, length, IfOk};
ghost use Rattle.serde_json.specs.Data.{no_members, array};
ghost use Rattle.serde_json.specs.View.{view, items_view, members_view};
ghost use Rattle.graph_export.specs.Line.{HasNoFeed, ids_data, value_data, with_members, line};

use entity_form::{Object, Value};
use graph_model::{Bytes, NoMemory};
use serde_json::{Map, Value as Json, put};
use std::alloc::{AllocError, Global};
use type_desc::{Member, TypeDesc};

/// An array of numbers.
fn ids_json(alloc: Global, ids: &[u64]) -> Result<Json, AllocError>
    ensures { IfOk result (λ v. view v ≡ array (ids_data ids.now)) }
{
    let mut items = Vec::new(alloc);
    for id in ids {
        items.push(Json::from(*id))?;
    }
    Ok(Json::Array(items))
}

/// What a member holds.
fn value_json(alloc: Global, value: &Value) -> Result<Json, AllocError>
    ensures { IfOk result (λ v. view v ≡ value_data value.now) }
{
    match value {
        Value::Int(number) => Ok(Json::from(*number)),
        Value::Text(text) => Json::try_from_str(alloc, text.as_str()),
        Value::Bytes(bytes) => {
            let digits = hex::encode(alloc, bytes.as_slice())?;
            Json::try_from_str(alloc, digits.as_str())
        }
        Value::Ref(id) | Value::Lazy(id) => Ok(Json::from(*id)),
        Value::Refs(ids) => ids_json(alloc, ids.as_slice()),
    }
}

/// The members by name.
fn members_json(
    alloc: Global,
    members: &[Member],
    values: &[Value],
) -> Result<Map<String, Json>, AllocError>
    requires { length members.now ≡ length values.now }
    ensures { IfOk result (λ m. members_view m.entries ≡ with_members members.now values.now no_members) }
{
    let mut map = Map::new(alloc);
    for i in 0..members.len() {
        let value = value_json(alloc, &values[i])?;
        put(&mut map, alloc, members[i].name.as_str(), value)?;
    }
    Ok(map)
}

/// The line of an object, without a line feed: its id, its members by name, and its type's name.
/// Bytes are pairs of lower-case hexadecimal digits, references are numbers.
pub fn line_of(alloc: Global, id: u64, object: &Object, desc: &TypeDesc) -> Result<Bytes, NoMemory>
    requires { length desc.now.members ≡ length object.now.values }
    ensures text { IfOk result (λ text. text ≡ line id object.now desc.now) }
    ensures one_line { IfOk result (λ text. HasNoFeed text) }
{
    let members = members_json(alloc, desc.members.as_slice(), object.values.as_slice())?;
    let mut line = Map::new(alloc);
    put(&mut line, alloc, "id", Json::from(id))?;
    put(&mut line, alloc, "m", Json::Object(members))?;
    put(
        &mut line,
        alloc,
        "type",
        Json::try_from_str(alloc, desc.name.as_str())?,
    )?;
    let text = Json::Object(line).to_string(alloc)?;
    Ok(Bytes::new(text.into_bytes()))
}
