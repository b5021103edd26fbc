use super::*;
use std::test::Fail;

const BYTES: [u8; 9] = [0x01, 0x02, 0x03, 0x04, 0x05, 0x06, 0x07, 0x08, 0xff];

#[test]
fn reads_the_lowest_byte_first(rt: HostRuntime) {
    assert_eq!(rt; read_u32_at(&BYTES, 0), Some(0x0403_0201));
    assert_eq!(rt; read_u32_at(&BYTES, 5), Some(0xff08_0706));
    assert_eq!(rt; read_u64_at(&BYTES, 1), Some(0xff08_0706_0504_0302));
    for at in [6, 7, 9, 10, usize::MAX] {
        assert_eq!(rt; read_u32_at(&BYTES, at), None, "at {at}");
    }
    for at in [2, 3, 9, 10, usize::MAX] {
        assert_eq!(rt; read_u64_at(&BYTES, at), None, "at {at}");
    }
}

#[test]
fn writes_the_lowest_byte_first(rt: HostRuntime) {
    let mut bytes = [7; 14];
    write_u32_at(&mut bytes, 1, 0x0403_0201);
    write_u64_at(&mut bytes, 5, 0x0807_0605_0403_02ff);
    let want: [u8; 14] = [7, 1, 2, 3, 4, 0xff, 2, 3, 4, 5, 6, 7, 8, 7];
    assert_eq!(rt; bytes.as_slice(), want.as_slice());
}

#[test]
fn pushes_the_lowest_byte_first(rt: HostRuntime) -> Result<(), Fail> {
    let mut bytes = Vec::from_slice(rt.alloc(), &[7])?;
    push_u32(&mut bytes, 0x0403_0201)?;
    push_u64(&mut bytes, 0x0807_0605_0403_02ff)?;
    let want: [u8; 13] = [7, 1, 2, 3, 4, 0xff, 2, 3, 4, 5, 6, 7, 8];
    assert_eq!(rt; bytes.as_slice(), want.as_slice());
    Ok(())
}
