//! Examples of an index.
use entity_form::Header;
use entity_index::{EntityIndex, Row, State};
use std::test::Fail;

const FREE: State = State {
    pinned: false,
    marked: false,
    grey: false,
    swept_odd: false,
    next: 0,
};

fn row(id: u64, file: u64, length: u64) -> Row {
    Row {
        file,
        at: 0,
        header: Header {
            length,
            type_id: 16,
            id,
            count: 0,
        },
        state: FREE,
    }
}

#[test]
fn counts_the_bytes_of_each_file(rt: HostRuntime) -> Result<(), Fail> {
    let mut index = EntityIndex::new(rt.alloc());
    assert_eq!(rt; index.used(2), 0);
    index.reserve(2)?;
    index.put(1024, row(1024, 2, 40));
    index.reserve(1)?;
    index.put(1026, row(1026, 2, 56));
    assert_eq!(rt; index.used(2), 96);
    index.reserve(1)?;
    index.put(1024, row(1024, 3, 48));
    assert_eq!(rt; (index.used(2), index.used(3)), (56, 48));
    assert_eq!(rt; index.take_out(1026), Some(row(1026, 2, 56)));
    assert_eq!(rt; index.take_out(1026), None);
    assert_eq!(rt; (index.used(2), index.used(3)), (0, 48));
    Ok(())
}

#[test]
fn names_the_least_sparse_file(rt: HostRuntime) -> Result<(), Fail> {
    let mut index = EntityIndex::new(rt.alloc());
    index.reserve(1)?;
    index.put(1, row(1, 2, 40));
    assert_eq!(rt; index.sparse_file(64, 750, 3, &[(2, 80), (3, 40)]), Some(2));
    assert_eq!(rt; index.sparse_file(64, 500, 3, &[(2, 80), (3, 40)]), None);
    assert_eq!(rt; index.sparse_file(64, 750, 2, &[(2, 80)]), None);
    assert_eq!(rt; index.sparse_file(81, 0, 3, &[(2, 80), (3, 40)]), Some(2));
    assert_eq!(rt;
        index.sparse_file(80, 0, 3, &[(2, 80), (4, 9), (5, 9)]),
        Some(4)
    );
    Ok(())
}

#[test]
fn keeps_the_state_of_a_row(rt: HostRuntime) -> Result<(), Fail> {
    let mut index = EntityIndex::new(rt.alloc());
    index.reserve(1)?;
    index.put(7, row(7, 2, 32));
    assert!(rt; index.row(7).is_some());
    index.pin(7);
    let pinned = State {
        pinned: true,
        ..FREE
    };
    assert_eq!(rt; index.row(7).map(|row| row.state), Some(pinned));
    assert!(rt; index.row(7).is_some());
    index.unpin(7);
    assert_eq!(rt; index.row(7).map(|row| row.state), Some(FREE));
    let grey = State {
        grey: true,
        next: 9,
        ..FREE
    };
    assert!(rt; index.row(7).is_some());
    index.set_state(7, grey);
    assert_eq!(rt; index.row(7).map(|row| row.state), Some(grey));
    assert!(rt; index.row(8).is_none());
    Ok(())
}

#[test]
fn shows_each_id_at_one_place(rt: HostRuntime) -> Result<(), Fail> {
    let mut index = EntityIndex::new(rt.alloc());
    for id in [3, 5, 3] {
        index.reserve(1)?;
        index.put(id, row(id, 2, 32));
    }
    let mut sum = 0u64;
    for place in 0..index.places() {
        sum = sum.wrapping_add(index.id_at(place).unwrap_or(0));
    }
    assert_eq!(rt; sum, 8);
    assert_eq!(rt; index.id_at(index.places()), None);
    Ok(())
}
