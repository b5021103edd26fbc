//! Examples of stores that are gathered.

ghost use Rattle.std.specs.Prelude.{[], IfOk, OnOk};
ghost use Rattle.storer.specs.Gathered.{AreKnown};

use entity_form::{Object, Value, Values};
use graph_model::{Ids, NoMemory, StoreOp};
use object_registry::Registry;
use std::alloc::Global;
use std::test::Fail;
use storer::{GatherFault, Gathering, gather};
use type_dictionary::Dictionary;

/// Puts an object of the built-in type in, which refers to the target.
fn put(alloc: Global, registry: &mut Registry, id: u64, target: u64) -> Result<(), NoMemory>
    requires { AreKnown [] registry.old.instances }
    ensures { OnOk result (AreKnown [] registry.new.instances) }
{
    let values = Values::new(vec![in alloc; Value::Ref(target)]?);
    registry.put_new(id, Object { type_id: 1, values })
}

/// The root, an object that it refers to, and one that this one refers to, which is stored already.
fn chain(alloc: Global) -> Result<Registry, NoMemory>
    ensures { IfOk result (λ registry. AreKnown [] registry.instances) }
{
    let mut registry = Registry::new(alloc)?;
    put(alloc, &mut registry, 1, 1024)?;
    put(alloc, &mut registry, 1024, 1025)?;
    put(alloc, &mut registry, 1025, 0)?;
    registry.stored(&Ids::new(vec![in alloc; 1025]?));
    Ok(registry)
}

fn ids_are(op: &StoreOp, ids: &[u64]) -> bool {
    let records = op.records.as_slice();
    records.len() == ids.len() && records.iter().zip(ids).all(|(record, id)| record.id == *id)
}

#[test]
fn the_lazy_walk_leaves_out_what_is_stored(rt: HostRuntime) -> Result<(), Fail> {
    let alloc = rt.alloc();
    let registry = chain(alloc)?;
    let types = Dictionary::new(alloc);
    let op = gather(alloc, &registry, 1, &types, 1026, 80, Gathering::Lazy)?;
    assert!(rt; ids_are(&op, &[1, 1024]) && op.next_id == 1026);
    let op = gather(alloc, &registry, 1, &types, 1026, 120, Gathering::Eager)?;
    assert!(rt; ids_are(&op, &[1, 1024, 1025]));
    // Three entities of 32 bytes and one reference each.
    let fault = gather(alloc, &registry, 1, &types, 1026, 119, Gathering::Eager).err();
    assert_eq!(rt; fault, Some(GatherFault::StoreTooBig { length: 120 }));
    Ok(())
}
