use graph_model::{
    Ask, Bytes, Entity, Graph, Ids, NoMemory, Record, Records, Reply, StorageFault, StoreOp, after,
    reach,
};
use std::alloc::{AllocError, Global};

/// The record of an id, with references and a type to tell it by.
fn record(alloc: Global, id: u64, type_id: u64, refs: &[u64]) -> Result<Record, AllocError> {
    let refs = Ids::new(Vec::from_slice(alloc, refs)?);
    let plain = Bytes::new(Vec::new(alloc));
    let entity = Entity {
        type_id,
        refs,
        plain,
    };
    Ok(Record { id, entity })
}

fn records(alloc: Global, items: &[(u64, u64, &[u64])]) -> Result<Records, NoMemory> {
    let mut records = Vec::new(alloc);
    for (id, type_id, refs) in items {
        records.push(record(alloc, *id, *type_id, refs)?)?;
    }
    Ok(Records::new(records))
}

#[test]
fn reach_follows_edges_from_the_starts(rt: HostRuntime) {
    let alloc = rt.alloc();
    let records = records(
        alloc,
        &[
            (1, 16, &[1024, 0]),
            (1024, 16, &[1026, 1025, 1024]),
            (1025, 16, &[1]),
            (1026, 16, &[2000]),
            (1027, 16, &[1028]),
        ],
    )
    .expect(&rt, "memory");
    let graph = Graph { records };
    let cases: [(&[u64], &[u64]); 4] = [
        (&[], &[]),
        (&[1], &[1, 1024, 1025, 1026, 2000]),
        (&[1028, 1027], &[1027, 1028]),
        (&[3000, 1026, 3000], &[1026, 2000, 3000]),
    ];
    for (starts, want) in cases {
        let starts = Ids::new(Vec::from_slice(alloc, starts).expect(&rt, "memory"));
        let reached = reach(alloc, &graph, &starts).expect(&rt, "memory");
        assert!(rt; reached.as_slice() == want);
    }
}

/// A store of two ids, both of the type.
fn store(alloc: Global, type_id: u64, ids: [u64; 2]) -> Result<StoreOp, NoMemory> {
    let records = records(alloc, &[(ids[0], type_id, &[]), (ids[1], type_id, &[])])?;
    Ok(StoreOp {
        records,
        next_id: 1027,
    })
}

fn type_of(graph: &Graph, id: u64) -> Option<u64> {
    match graph.get(id) {
        Some(entity) => Some(entity.type_id),
        None => None,
    }
}

fn graph_after_two_stores(alloc: Global) -> Result<Graph, NoMemory> {
    let graph = Graph {
        records: records(alloc, &[(1, 16, &[]), (1025, 16, &[])])?,
    };
    let mut stores = Vec::new(alloc);
    stores.push(store(alloc, 17, [1, 1024])?)?;
    stores.push(store(alloc, 18, [1024, 1026])?)?;
    after(alloc, &graph, &stores)
}

#[test]
fn the_last_store_gives_the_entity(rt: HostRuntime) {
    let graph = graph_after_two_stores(rt.alloc()).expect(&rt, "memory");
    for (id, want) in [
        (1, Some(17)),
        (2, None),
        (1024, Some(18)),
        (1025, Some(16)),
        (1026, Some(18)),
    ] {
        assert!(rt; type_of(&graph, id) == want);
    }
}

#[test]
fn records_are_copied_and_removed(rt: HostRuntime) {
    let graph = graph_after_two_stores(rt.alloc()).expect(&rt, "memory");
    let mut copy = graph.clone().expect(&rt, "memory");
    copy.records.remove(1025);
    assert!(rt; copy.records.len() == 3 && !copy.records.is_empty());
    assert!(rt; copy.records.get(1025).is_none());
    assert!(rt; copy.records.into_vec().len() == 3);
}

#[test]
fn ids_keep_their_order(rt: HostRuntime) {
    let alloc = rt.alloc();
    let mut ids = Ids::new(Vec::new(alloc));
    for id in [1025, 1, 1024, 1025] {
        ids.add(id).expect(&rt, "memory");
    }
    ids.insert(1024).expect(&rt, "memory");
    assert!(rt; ids.as_slice() == [1, 1024, 1024, 1025].as_slice());
    ids.remove(1024);
    assert!(rt; ids.contains(1024) && ids.len() == 3 && !ids.is_empty());
    let copy = ids.clone().expect(&rt, "memory");
    assert!(rt; copy.into_vec().len() == 3);
}

#[test]
fn bytes_are_copied(rt: HostRuntime) {
    let bytes = Bytes::new(Vec::from_slice(rt.alloc(), b"ab").expect(&rt, "memory"));
    assert!(rt; bytes.len() == 2 && !bytes.is_empty());
    let copy = bytes.clone().expect(&rt, "memory");
    assert!(rt; copy.as_slice() == b"ab".as_slice());
    assert!(rt; copy.into_vec().len() == 2);
}

#[test]
fn asks_and_replies_print(rt: HostRuntime) {
    let ask = Ask::Hold(Ids::new(Vec::new(rt.alloc())));
    let reply = Reply::Stored(3);
    let fault = StorageFault::Full { number: 4 };
    println!(rt; "{ask:?} {reply:?} {fault:?} {NoMemory}").expect(&rt, "output");
    assert!(rt; fault != StorageFault::Broken { id: 4 });
}
