//! The ids that an object names, and that are to be loaded with it.

ghost use Rattle.std.specs.Prelude.{◌≡◌, ◌++◌, ◌∷◌, [], OnOk};
ghost use Rattle.std.specs.List.{flat_map};
ghost use Rattle.session_model.specs.Instances.{eager_refs_of};
ghost use Rattle.lazy_refs.specs.Walks.{wanted};

use entity_form::Value;
use graph_model::NoMemory;
use object_registry::Registry;

/// Puts an id at the end of a list, unless it is 0 or has an instance.
fn push_id(registry: &Registry, id: u64, ids: &mut Vec<u64>) -> Result<(), NoMemory>
    ensures { OnOk result (ids.new.items ≡ ids.old.items ++ wanted registry.now.instances (id ∷ [])) }
{
    if id != 0 && registry.copy(id).is_none() {
        ids.push(id)?;
    }
    Ok(())
}

fn push_ids(registry: &Registry, more: &[u64], ids: &mut Vec<u64>) -> Result<(), NoMemory>
    ensures { OnOk result (ids.new.items ≡ ids.old.items ++ wanted registry.now.instances more.now) }
{
    for id in more {
        push_id(registry, *id, ids)?;
    }
    Ok(())
}

/// Puts what a value names along `ref` and `refs` at the end of a list.
fn push_value(registry: &Registry, value: &Value, ids: &mut Vec<u64>) -> Result<(), NoMemory>
    ensures { OnOk result (ids.new.items ≡ ids.old.items ++ wanted registry.now.instances (eager_refs_of value.now)) }
{
    match value {
        Value::Ref(id) => push_id(registry, *id, ids),
        Value::Refs(more) => push_ids(registry, more.as_slice(), ids),
        Value::Lazy(_) => Ok(()),
        Value::Int(_) => Ok(()),
        Value::Text(_) => Ok(()),
        Value::Bytes(_) => Ok(()),
    }
}

/// Puts what values name along `ref` and `refs`, and what has no instance, at the end of a list.
pub fn push_values(
    registry: &Registry,
    values: &[Value],
    ids: &mut Vec<u64>,
) -> Result<(), NoMemory>
    ensures { OnOk result (ids.new.items ≡ ids.old.items ++ wanted registry.now.instances (flat_map eager_refs_of values.now)) }
{
    for value in values {
        push_value(registry, value, ids)?;
    }
    Ok(())
}
