//! Examples of a table.
use oid_table::{NoMemory, OidTable};
use std::test::Fail;

#[test]
fn answers_the_value_that_a_key_had(rt: HostRuntime) -> Result<(), Fail> {
    let mut table = OidTable::new(rt.alloc());
    table.reserve(3)?;
    assert_eq!(rt; table.insert(1024, 10), None);
    assert_eq!(rt; table.insert(1026, 20), None);
    assert_eq!(rt; table.insert(1024, 30), Some(10));
    assert_eq!(rt; table.len(), 2);
    assert_eq!(rt; table.get(1024).copied(), Some(30));
    assert_eq!(rt; table.get(1025).copied(), None);
    Ok(())
}

#[test]
fn changes_and_takes_out_values(rt: HostRuntime) -> Result<(), Fail> {
    let mut table = OidTable::new(rt.alloc());
    assert_eq!(rt; table.get(7).copied(), None);
    assert_eq!(rt; table.remove(7), None);
    table.reserve(1)?;
    assert_eq!(rt; table.insert(7, 1u8), None);
    if let Some(value) = table.get_mut(7) {
        *value = 2;
    }
    assert!(rt; table.get_mut(8).is_none());
    assert_eq!(rt; table.remove(7), Some(2));
    assert_eq!(rt; table.len(), 0);
    Ok(())
}

#[test]
fn shows_each_key_at_one_place(rt: HostRuntime) -> Result<(), Fail> {
    let mut table = OidTable::new(rt.alloc());
    for key in [3, 1, 4, 1, 5] {
        table.reserve(1)?;
        table.insert(key, 10 * key);
    }
    let mut seen = [0u8; 8];
    for place in 0..table.places() {
        if let Some((key, value)) = table.entry_at(place) {
            assert!(rt; key < 8 && *value == 10 * key);
            seen[key as usize] = seen[key as usize].saturating_add(1);
        }
    }
    assert_eq!(rt; seen, [0, 1, 0, 1, 1, 1, 0, 0]);
    assert!(rt; table.entry_at(table.places()).is_none());
    Ok(())
}

#[test]
fn has_no_room_for_more_keys_than_there_is_memory(rt: HostRuntime) -> Result<(), Fail> {
    let mut table = OidTable::new(rt.alloc());
    table.reserve(1)?;
    assert_eq!(rt; table.insert(1, 2), None);
    assert_eq!(rt; table.reserve(u64::MAX), Err(NoMemory));
    assert_eq!(rt; table.reserve(1 << 62), Err(NoMemory));
    assert_eq!(rt; table.get(1).copied(), Some(2));
    Ok(())
}
