//! Objects in memory, and names.

ghost use Rattle.std.specs.Prelude.{◌≡◌, ◌∷◌, [], Some, IfSome, IsSomeAnd};
ghost use Rattle.session_model.specs.Instances.{instance_at};
ghost use Rattle.object_registry.specs.Registered.{refs_at};

use entity_form::{Object, Value, Values};
use graph_model::{Ids, NoMemory};
use object_registry::{BindFault, Edges, Forgotten, Instance, Loaded, Registry, walk};
use std::alloc::{AllocError, Global};
use std::test::Fail;
use type_desc::Text;

/// An object with one member.
fn object(alloc: Global, value: Value) -> Result<Object, AllocError> {
    let values = Values::new(vec![in alloc; value]?);
    Ok(Object {
        type_id: 16,
        values,
    })
}

/// Whether an instance with a member was there, whose first member now has the value.
fn set_first(registry: &mut Registry, id: u64, value: Value) -> bool {
    let has_member = match registry.copy(id) {
        Some(instance) => !instance.object().values.is_empty(),
        None => false,
    };
    if has_member {
        registry.set(id, 0, value);
    }
    has_member
}

/// The list that an instance has as its first member.
fn first_list(registry: &Registry, id: u64) -> Option<&Ids>
    ensures { IfSome result (λ ids. IsSomeAnd (instance_at registry.now.instances id) (λ i. refs_at i 0 ≡ Some ids.now)) }
{
    let instance = registry.copy(id)?;
    match instance.object().values.as_slice().first() {
        Some(Value::Refs(ids)) => Some(ids),
        _ => None,
    }
}

/// Whether there was a list, which now has the id at its end.
fn push_first(registry: &mut Registry, id: u64, target: u64) -> Result<bool, NoMemory> {
    let has_list = first_list(registry, id).is_some();
    if has_list {
        registry.push_ref(id, 0, target)?;
    }
    Ok(has_list)
}

/// Whether there was a list with an id at this index, which was taken out.
fn take_first(registry: &mut Registry, id: u64, at: usize) -> bool {
    let has_id = match first_list(registry, id) {
        Some(ids) => at < ids.len(),
        None => false,
    };
    if has_id {
        registry.take_ref(id, 0, at);
    }
    has_id
}

fn is_first_list(registry: &Registry, id: u64, ids: &[u64]) -> bool {
    match first_list(registry, id) {
        Some(list) => list.as_slice() == ids,
        None => false,
    }
}

fn is_released(forgotten: &Forgotten, count: u64, ids: &[u64]) -> bool {
    forgotten.count == count && forgotten.released.as_slice() == ids
}

/// Two objects that name one another, bound to `a` and `b`, all stored with the root.
fn cycle(alloc: Global) -> Result<Registry, Fail> {
    let mut registry = Registry::new(alloc)?;
    for (id, name) in [(1024, "a"), (1025, "b")] {
        registry.put_new(id, object(alloc, Value::Ref(0))?)?;
        registry.bind(&Text::new(alloc, name)?, id)?;
    }
    registry.put_new(1, object(alloc, Value::Ref(0))?)?;
    set_first(&mut registry, 1024, Value::Ref(1025));
    set_first(&mut registry, 1025, Value::Ref(1024));
    registry.stored(&Ids::new(vec![in alloc; 1, 1024, 1025]?));
    Ok(registry)
}

#[test]
fn a_cycle_is_given_up_with_its_last_name(rt: HostRuntime) -> Result<(), Fail> {
    let alloc = rt.alloc();
    let mut registry = cycle(alloc)?;
    let (a, b) = (Text::new(alloc, "a")?, Text::new(alloc, "b")?);
    assert!(rt; registry.unbind(&a) == Some(1024));
    assert!(rt; is_released(&registry.forget()?, 0, &[]));
    assert!(rt; registry.unbind(&b) == Some(1025));
    assert!(rt; is_released(&registry.forget()?, 2, &[1024, 1025]));
    assert!(rt; registry.copy(1024).is_none() && registry.copy(1).is_some());
    Ok(())
}

#[test]
fn a_change_keeps_what_is_named_lazily(rt: HostRuntime) -> Result<(), Fail> {
    let alloc = rt.alloc();
    let mut registry = Registry::new(alloc)?;
    let (a, b) = (
        object(alloc, Value::Lazy(1025))?,
        object(alloc, Value::Lazy(0))?,
    );
    let all = Loaded::new(vec![in alloc; (1024, a), (1025, b)]?);
    assert!(rt; all.as_slice().len() == 2);
    registry.put_loaded(Loaded::new(all.into_vec()))?;
    registry.bind(&Text::new(alloc, "a")?, 1024)?;
    assert!(rt; set_first(&mut registry, 1024, Value::Lazy(1025)));
    assert!(rt; is_released(&registry.forget()?, 0, &[]));
    registry.stored(&Ids::new(vec![in alloc; 1024]?));
    assert!(rt; is_released(&registry.forget()?, 1, &[1025]));
    Ok(())
}

#[test]
fn a_name_is_taken_once(rt: HostRuntime) -> Result<(), Fail> {
    let alloc = rt.alloc();
    let mut registry = Registry::new(alloc)?;
    let root = Text::new(alloc, "root")?;
    assert!(rt; registry.bind(&root, 7) == Err(BindFault::Taken { id: 1 }));
    assert!(rt; registry.id_of(&root) == Some(1));
    assert!(rt; registry.id_of(&Text::new(alloc, "a")?).is_none());
    Ok(())
}

#[test]
fn an_instance_tells_what_became_of_it(rt: HostRuntime) -> Result<(), Fail> {
    let alloc = rt.alloc();
    let fresh = Instance::unsaved(object(alloc, Value::Int(5))?);
    let loaded = Instance::loaded(object(alloc, Value::Int(5))?);
    assert!(rt; !fresh.is_saved() && loaded.is_saved());
    assert!(rt; !fresh.is_changed() && fresh.object().type_id == 16);
    Ok(())
}

#[test]
fn a_list_changes_in_place(rt: HostRuntime) -> Result<(), Fail> {
    let alloc = rt.alloc();
    let mut registry = Registry::new(alloc)?;
    let all = Loaded::new(vec![in alloc;
        (1024, object(alloc, Value::Refs(Ids::new(Vec::new(alloc))))?),
    ]?);
    registry.put_loaded(all)?;
    for target in [1025, 0, 1026] {
        assert!(rt; push_first(&mut registry, 1024, target)?);
    }
    assert!(rt; take_first(&mut registry, 1024, 1));
    assert!(rt; is_first_list(&registry, 1024, &[1025, 1026]));
    Ok(())
}

/// The graph of 1 with an edge to 2.
#[derive(Drop)]
struct OneEdge;

impl Edges for OneEdge {
    ghost graph = { λ _. record { id = 1; entity = record { type_id = 16; refs = 2 ∷ []; plain = [] } } ∷ [] };

    fn push_edges(&self, id: u64, ids: &mut Vec<u64>) -> Result<(), NoMemory> {
        if id == 1 {
            ids.push(2)?;
        }
        Ok(())
    }
}

#[test]
fn a_walk_finds_starts_and_edges(rt: HostRuntime) -> Result<(), Fail> {
    let mut found = walk(rt.alloc(), &OneEdge, &[7, 1, 7])?;
    assert!(rt; found.pop_first() == Some(1) && found.pop_first() == Some(2));
    assert!(rt; found.pop_first() == Some(7) && found.is_empty());
    Ok(())
}
