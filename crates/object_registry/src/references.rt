//! The ids that values name.

ghost use Rattle.std.specs.Prelude.{◌≡◌, ◌∷◌, ◌++◌, [], OnOk};
ghost use Rattle.std.specs.List.{flat_map};
ghost use Rattle.entity_form.specs.Values.{refs_of};
ghost use Rattle.session_model.specs.Instances.{eager_refs_of};
ghost use Rattle.object_registry.specs.References.{without_none};

use entity_form::Value;
use graph_model::NoMemory;

/// Puts an id at the end of a list, unless it is 0, which is none.
pub fn push_id(id: u64, ids: &mut Vec<u64>) -> Result<(), NoMemory>
    ensures { OnOk result (ids.new.items ≡ ids.old.items ++ without_none (id ∷ [])) }
{
    if id != 0 {
        ids.push(id)?;
    }
    Ok(())
}

fn push_ids(more: &[u64], ids: &mut Vec<u64>) -> Result<(), NoMemory>
    ensures { OnOk result (ids.new.items ≡ ids.old.items ++ without_none more.now) }
{
    for id in more {
        push_id(*id, ids)?;
    }
    Ok(())
}

/// Puts what a value names at the end of a list, without 0.
pub fn push_refs(value: &Value, ids: &mut Vec<u64>) -> Result<(), NoMemory>
    ensures { OnOk result (ids.new.items ≡ ids.old.items ++ without_none (refs_of value.now)) }
{
    match value {
        Value::Ref(id) => push_id(*id, ids),
        Value::Lazy(id) => push_id(*id, ids),
        Value::Refs(more) => push_ids(more.as_slice(), ids),
        Value::Int(_) => Ok(()),
        Value::Text(_) => Ok(()),
        Value::Bytes(_) => Ok(()),
    }
}

/// Puts what a value names other than lazily at the end of a list, without 0.
fn push_eager_refs(value: &Value, ids: &mut Vec<u64>) -> Result<(), NoMemory>
    ensures { OnOk result (ids.new.items ≡ ids.old.items ++ without_none (eager_refs_of value.now)) }
{
    match value {
        Value::Lazy(_) => Ok(()),
        _ => push_refs(value, ids),
    }
}

/// Puts what values name at the end of a list, without 0.
pub fn push_all_refs(values: &[Value], ids: &mut Vec<u64>) -> Result<(), NoMemory>
    ensures { OnOk result (ids.new.items ≡ ids.old.items ++ without_none (flat_map refs_of values.now)) }
{
    for value in values {
        push_refs(value, ids)?;
    }
    Ok(())
}

/// Puts what values name other than lazily at the end of a list, without 0.
pub fn push_all_eager_refs(values: &[Value], ids: &mut Vec<u64>) -> Result<(), NoMemory>
    ensures { OnOk result (ids.new.items ≡ ids.old.items ++ without_none (flat_map eager_refs_of values.now)) }
{
    for value in values {
        push_eager_refs(value, ids)?;
    }
    Ok(())
}
