//! Entities that a storage finds, whoever stored them.

use crate::answering::{Row, asked};
use crate::mem_storage::{Halt, MemStorage};
use graph_model::{Bytes, Entity, Ids, Record};
use std::alloc::Global;
use std::test::Fail;

/// Eight bytes of the number 5.
const FIVE: &[u8] = &[5, 0, 0, 0, 0, 0, 0, 0];

fn put(
    storage: &mut MemStorage,
    id: u64,
    type_id: u64,
    refs: &[u64],
    plain: &[u8],
) -> Result<(), Halt> {
    let refs = Ids::new(Vec::from_slice(storage.alloc, refs)?);
    let plain = Bytes::new(Vec::from_slice(storage.alloc, plain)?);
    let entity = Entity {
        type_id,
        refs,
        plain,
    };
    storage.entities.put(Record { id, entity })?;
    Ok(())
}

/// A storage whose root refers to an object, which may refer to the one of the given type, references and bytes.
fn storage_with(
    alloc: Global,
    type_id: u64,
    refs: &[u64],
    plain: &[u8],
) -> Result<MemStorage, Halt> {
    let mut storage = MemStorage::new(alloc);
    let record = Vec::from_slice(alloc, b"16 Link{int v,lazy far}")?;
    storage.types.push(Bytes::new(record))?;
    storage.next_id = 1026;
    put(&mut storage, 1, 1, &[1024], &[])?;
    put(&mut storage, 1024, 16, &[1025], FIVE)?;
    put(&mut storage, 1025, type_id, refs, plain)?;
    Ok(storage)
}

/// Lines that look at an object that was not loaded, with what is asked for the first one.
const FOLLOWED: [Row; 2] = [
    ("home a", "look 1\nlook 1024\nhold 1 1024\n"),
    ("follow a far b", ""),
];

const EXPORTED: [Row; 2] = [
    ("home a", "look 1\nlook 1024\nhold 1 1024\n"),
    ("export", ""),
];

#[test]
fn an_entity_that_has_not_its_types_form(rt: HostRuntime) -> Result<(), Fail> {
    // An unknown type; a reference less, and one more; bytes that are missing, and one more.
    for (type_id, refs, plain) in [
        (17, [0].as_slice(), FIVE),
        (16, [].as_slice(), FIVE),
        (16, [0, 0].as_slice(), FIVE),
        (16, [0].as_slice(), [5].as_slice()),
        (16, [0].as_slice(), [5, 0, 0, 0, 0, 0, 0, 0, 0].as_slice()),
    ] {
        for rows in [&FOLLOWED, &EXPORTED] {
            let mut storage = storage_with(rt.alloc(), type_id, refs, plain)?;
            assert_eq!(rt; asked(&mut storage, rows), Err(Halt::Broken { id: 1025 }));
        }
    }
    Ok(())
}
