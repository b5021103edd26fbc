//! The ids of a `refs` member, changed in place.

ghost use Rattle.std.specs.Prelude.{◌≡◌, ◌<◌, ◌++◌, ◌∷◌, [], Some, length, IfSome, IsSome, IsSomeAnd, OnOk, OnErr};
ghost use Rattle.entity_form.specs.declared.value.Value.TheVariants.{Refs};
ghost use Rattle.session_model.specs.Answer.{refs_in, without_at};

use entity_form::Value;
use graph_model::{Ids, NoMemory};
use std::alloc::Global;

fn push(alloc: Global, ids: &mut Ids, target: u64) -> Result<(), NoMemory>
    ensures ok { OnOk result (ids.new ≡ ids.old ++ target ∷ []) }
    ensures err { OnErr result (ids.new ≡ ids.old) }
{
    let mut items = std::mem::replace(ids, Ids::new(Vec::new(alloc))).into_vec();
    let pushed = items.push(target);
    *ids = Ids::new(items);
    pushed?;
    Ok(())
}

fn take(alloc: Global, ids: &mut Ids, at: usize)
    requires { at < length ids.old }
    ensures { ids.new ≡ without_at ids.old at }
{
    let mut items = std::mem::replace(ids, Ids::new(Vec::new(alloc))).into_vec();
    items.remove(at);
    *ids = Ids::new(items);
}

/// Puts an id behind the last of a list.
pub fn push_to(alloc: Global, value: &mut Value, target: u64) -> Result<(), NoMemory>
    requires { IsSome (refs_in (Some value.old)) }
    ensures ok { OnOk result (IfSome (refs_in (Some value.old)) (λ ids. value.new ≡ Refs (ids ++ target ∷ []))) }
    ensures err { OnErr result (value.new ≡ value.old) }
{
    match value {
        Value::Refs(ids) => push(alloc, ids, target),
        _ => unreachable!(),
    }
}

/// Takes the id with this index out of a list, and the rest close up.
pub fn take_from(alloc: Global, value: &mut Value, at: usize)
    requires { IsSomeAnd (refs_in (Some value.old)) (λ ids. at < length ids) }
    ensures { IfSome (refs_in (Some value.old)) (λ ids. value.new ≡ Refs (without_at ids at)) }
{
    match value {
        Value::Refs(ids) => take(alloc, ids, at),
        _ => unreachable!(),
    }
}
