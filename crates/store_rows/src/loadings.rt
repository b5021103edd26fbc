//! Loadings with the objects that they must give.

ghost use Rattle.std.specs.Prelude.{IfOk, IsSome, OnOk};
ghost use Rattle.lazy_refs.specs.Mappings.{AreMappings, AreTypedIn};

use entity_form::{Object, Value};
use graph_model::{Bytes, Entity, Ids, NoMemory};
use lazy_refs::{LoadStep, Loading};
use object_registry::Registry;
use refactor_table::{AddFault, RefName, RefactorTable};
use std::alloc::Global;
use std::test::Fail;
use type_desc::Text;
use type_dictionary::{Dictionary, RecordFault};

/// Eight bytes of the number 5.
const FIVE: [u8; 8] = [5, 0, 0, 0, 0, 0, 0, 0];

/// `Old` is to become `New`.
fn types(alloc: Global) -> Result<Dictionary, RecordFault> {
    let mut types = Dictionary::new(alloc);
    types.add_record(b"16 Old{ref next,int x}")?;
    types.add_record(b"17 New{int y,int x,ref next}")?;
    Ok(types)
}

/// One type's name became another.
fn renamed(alloc: Global, old: &str, new: &str) -> Result<RefactorTable, AddFault> {
    let old = RefName::OfType(Text::new(alloc, old)?);
    let new = RefName::OfType(Text::new(alloc, new)?);
    let mut table = RefactorTable::new(alloc);
    table.add(old, new)?;
    Ok(table)
}

fn entity(alloc: Global, type_id: u64, refs: &[u64], plain: &[u8]) -> Result<Entity, NoMemory> {
    let refs = Ids::new(Vec::from_slice(alloc, refs)?);
    let plain = Bytes::new(Vec::from_slice(alloc, plain)?);
    Ok(Entity {
        type_id,
        refs,
        plain,
    })
}

/// The id that the loading asks for when it is given this entity.
fn asked(
    loading: &mut Loading,
    registry: &Registry,
    types: &Dictionary,
    table: &RefactorTable,
    given: Entity,
) -> Result<Option<u64>, NoMemory>
    requires mappings { AreMappings types.now table.now loading.old.mappings }
    requires typed { AreTypedIn types.now loading.old.loaded }
    ensures mappings { OnOk result (AreMappings types.now table.now loading.new.mappings) }
    ensures typed { IfOk result (λ asked. IsSome asked → AreTypedIn types.now loading.new.loaded) }
{
    match loading.next(registry, types, table, Some(given)) {
        Ok(LoadStep::Want(id)) => Ok(Some(id)),
        Ok(_) => Ok(None),
        Err(NoMemory) => Err(NoMemory),
    }
}

/// Whether the object is one of `New` with these numbers that names this id.
fn is_new(object: &Object, numbers: (i64, i64), id: u64) -> bool {
    match object.values.as_slice() {
        [Value::Int(y), Value::Int(x), Value::Ref(next)] => {
            object.type_id == 17 && *y == numbers.0 && *x == numbers.1 && *next == id
        }
        _ => false,
    }
}

/// Whether these are 1024 and 1025, which name one another.
fn are_two(all: &[(u64, Object)]) -> bool {
    match all {
        [first, second] => {
            first.0 == 1024
                && second.0 == 1025
                && is_new(&first.1, (0, 5), 1025)
                && is_new(&second.1, (0, 5), 1024)
        }
        _ => false,
    }
}

/// Whether 1024 and 1025, of `Old`, which name one another, are loaded.
fn loads_two(
    alloc: Global,
    registry: &Registry,
    types: &Dictionary,
    table: &RefactorTable,
) -> Result<bool, NoMemory> {
    let first = entity(alloc, 16, &[1025], &FIVE)?;
    let second = entity(alloc, 16, &[1024], &FIVE)?;
    let mut loading = Loading::start(alloc, 1024);
    let Some(1025) = asked(&mut loading, registry, types, table, first)? else {
        return Ok(false);
    };
    match loading.next(registry, types, table, Some(second)) {
        Ok(LoadStep::Ready(all)) => Ok(are_two(all.as_slice())),
        Ok(_) => Ok(false),
        Err(NoMemory) => Err(NoMemory),
    }
}

#[test]
fn loads_two_objects_of_an_old_type(rt: HostRuntime) -> Result<(), Fail> {
    let alloc = rt.alloc();
    let types = types(alloc)?;
    let table = renamed(alloc, "Old", "New")?;
    let registry = Registry::new(alloc)?;
    assert!(rt; loads_two(alloc, &registry, &types, &table)?);
    Ok(())
}

#[test]
fn an_entity_without_its_form_is_broken(rt: HostRuntime) -> Result<(), Fail> {
    let alloc = rt.alloc();
    let types = types(alloc)?;
    let registry = Registry::new(alloc)?;
    let table = RefactorTable::new(alloc);
    let mut loading = Loading::start(alloc, 1024);
    let short = entity(alloc, 16, &[0], &[5])?;
    let step = loading.next(&registry, &types, &table, Some(short))?;
    assert!(rt; matches!(&step, LoadStep::Broken { id: 1024 }));
    Ok(())
}
