//! Whether a graph is sound.

ghost use Rattle.std.specs.Prelude.{◌≡◌, ◌||◌, nat_eq, ℕ, List, Some, IfOk, IsTrue, IsFalse};
ghost use Rattle.std.specs.List.{list_all};
ghost use Rattle.graph_model.specs.Graph.{ids, lists};
ghost use Rattle.graph_model.specs.Ids.{rises};
ghost use Rattle.entity_form.specs.Form.{Holds};
ghost use Rattle.entity_form.specs.Values.{kinds_of};
ghost use Rattle.entity_form.specs.declared.value.Value.{Value as AnyValue};
ghost use Rattle.session_model.specs.WellFormed.{IsWellFormed};
ghost use Rattle.plain_storage.specs.Held.{IsSoundGraph};
ghost use Rattle.plain_storage.specs.Reading.{IsSoundEntity};

use crate::tree::Tree;
use entity_form::{DecodeFault, decode};
use graph_model::{Entity, NoMemory, ROOT_ID};
use std::alloc::Global;
use type_desc::TypeDesc;
use type_dictionary::{Dictionary, ROOT_TYPE_ID};

/// Whether the entity has the form of the type.
fn is_formed(alloc: Global, entity: &Entity, desc: &TypeDesc) -> Result<bool, NoMemory>
    ensures yes { IfOk result (λ formed. IsTrue formed → (values : List AnyValue) × Holds (kinds_of desc.now) entity.now.refs entity.now.plain values) }
    ensures no { IfOk result (λ formed. IsFalse formed → (values : List AnyValue) → ¬ (Holds (kinds_of desc.now) entity.now.refs entity.now.plain values)) }
{
    match decode(alloc, entity, desc) {
        Ok(_) => Ok(true),
        Err(DecodeFault::BadForm { at: _ }) => Ok(false),
        Err(DecodeFault::NoMemory) => Err(NoMemory),
    }
}

/// Whether the entity of this id has the form of a known type, and the root's type just where it is the root.
fn has_known_form(
    alloc: Global,
    types: &Dictionary,
    id: u64,
    entity: &Entity,
) -> Result<bool, NoMemory>
    ensures yes { IfOk result (λ formed. IsTrue formed → IsWellFormed types.now id entity.now) }
    ensures no { IfOk result (λ formed. IsFalse formed → ¬ (IsWellFormed types.now id entity.now)) }
{
    if (entity.type_id == ROOT_TYPE_ID) != (id == ROOT_ID) {
        return Ok(false);
    }
    match types.by_id(entity.type_id) {
        Some(desc) => is_formed(alloc, entity, desc),
        None => Ok(false),
    }
}

/// Whether the reference is none, or its entity is there.
fn is_there(graph: &Tree, id: u64) -> bool
    ensures { result ≡ (nat_eq id 0 || lists graph.now id) }
{
    id == 0 || graph.get(id).is_some()
}

/// Whether each reference is none, or its entity is there.
fn are_there(graph: &Tree, refs: &[u64]) -> bool
    ensures { result ≡ list_all (λ x. nat_eq x 0 || lists graph.now x) refs.now }
{
    refs.iter().all(|id| is_there(graph, *id))
}

/// Whether the entity of this id has its form, and what its edges name is there.
fn is_sound_entity(
    alloc: Global,
    types: &Dictionary,
    graph: &Tree,
    id: u64,
    entity: &Entity,
) -> Result<bool, NoMemory>
    ensures yes { IfOk result (λ sound. IsTrue sound → IsSoundEntity types.now graph.now id entity.now) }
    ensures no { IfOk result (λ sound. IsFalse sound → ¬ (IsSoundEntity types.now graph.now id entity.now)) }
{
    if !has_known_form(alloc, types, id, entity)? {
        return Ok(false);
    }
    Ok(are_there(graph, entity.refs.as_slice()))
}

/// Whether each entity has the form of its type, and what an edge names is there. Each entity is looked at once.
pub fn is_sound(alloc: Global, types: &Dictionary, graph: &Tree) -> Result<bool, NoMemory>
    ensures yes { IfOk result (λ sound. IsTrue sound → IsSoundGraph types.now graph.now) }
    ensures no { IfOk result (λ sound. IsFalse sound → ¬ (IsSoundGraph types.now graph.now)) }
    ensures order { IfOk result (λ _. IsTrue (rises (ids graph.now))) }
{
    'entities: for (id, entity) in &graph.entities {
        if !is_sound_entity(alloc, types, graph, *id, entity)? {
            return Ok(false);
        }
    }
    Ok(true)
}
