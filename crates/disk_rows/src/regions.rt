//! Regions whose holes were worked out by hand.
use crate::holes::{find_no_hole, give_beside, pack_around, take_beside};
use entity_region::Region;

#[test]
fn holes_are_found_first_to_last(rt: HostRuntime) -> Result<(), std::test::Fail> {
    let mut region = Region::new(rt.alloc(), 64, 8)?;
    assert!(rt; region.free() == 64);
    assert!(rt; region.live() == 0);
    let first = region.take(20).ok_or("no hole")?;
    assert!(rt; region.live() == 1);
    let second = take_beside(&mut region, 20, &first)?;
    assert!(rt; region.free() == 0);
    assert!(rt; region.live() == 2);
    find_no_hole(&mut region, 1)?;
    region.bytes_mut(&first).fill(7);
    region.bytes_mut(&second).fill(9);
    assert!(rt; region.bytes(&first) == [7; 20].as_slice());
    assert!(rt; region.bytes(&second) == [9; 20].as_slice());
    region.give(first);
    assert!(rt; region.free() == 32);
    assert!(rt; region.live() == 1);
    find_no_hole(&mut region, 33)?;
    let third = region.take(32).ok_or("no hole")?;
    assert!(rt; region.bytes(&third).len() == 32);
    Ok(())
}

#[test]
fn packed_blocks_keep_their_bytes(rt: HostRuntime) -> Result<(), std::test::Fail> {
    let mut region = Region::new(rt.alloc(), 128, 8)?;
    let first = region.take(48).ok_or("no hole")?;
    assert!(rt; region.live() == 1);
    let middle = take_beside(&mut region, 32, &first)?;
    let bytes = b"the middle block keeps its bytes".as_slice();
    let place = region.bytes_mut(&middle);
    assert!(rt; place.len() == bytes.len());
    place.copy_from_slice(bytes);
    give_beside(&mut region, first, &middle);
    assert!(rt; region.free() == 96);
    assert!(rt; region.live() == 1);
    find_no_hole(&mut region, 96)?;
    pack_around(&mut region, &middle);
    assert!(rt; region.free() == 96);
    assert!(rt; region.bytes(&middle) == bytes);
    assert!(rt; region.live() == 1);
    let whole = take_beside(&mut region, 96, &middle)?;
    region.bytes_mut(&whole).fill(1);
    assert!(rt; region.bytes(&middle) == bytes);
    Ok(())
}
