use data_file::{ChunkWalk, ReadFault, append_chunk, next_header, read_entity};
use entity_form::Header;
use std::test::Fail;
use store_io::{Disk, MemDisk};

/// The entity 1024 of type 16, with one null reference and two numbers.
const ENTITY: [u8; 56] =
    *b"\x38\0\0\0\0\0\0\0\x10\0\0\0\0\0\0\0\0\x04\0\0\0\0\0\0\x01\0\0\0\0\0\0\0\0\0\0\0\0\0\0\0\x05\0\0\0\0\0\0\0\0\0\0\0\0\0\0\0";

const HEADER: Header = Header {
    length: 56,
    type_id: 16,
    id: 1024,
    count: 1,
};

#[test]
fn an_entity_is_appended_walked_and_read(rt: HostRuntime) -> Result<(), Fail> {
    let alloc = rt.alloc();
    let mut disk = MemDisk::new(alloc, Vec::new(alloc), None);
    append_chunk(&mut disk, 2, 0, &ENTITY)?;
    let file_length = disk.len(2)?;
    assert_eq!(rt; file_length, 56);
    let start = ChunkWalk {
        file: 2,
        at: 0,
        end: 56,
        file_length,
        channel: 0,
        count: 2,
        next_id: 1025,
    };
    let mut walk = start;
    assert_eq!(rt; next_header(&mut disk, &mut walk), Ok(Some(HEADER)));
    assert_eq!(rt; walk.at, 56);
    assert_eq!(rt; disk.len(2)?, 56);
    let mut out = [0; 56];
    read_entity(&mut disk, 2, 0, HEADER, &mut out)?;
    assert_eq!(rt; out, ENTITY);
    let other = Header { id: 1026, ..HEADER };
    assert_eq!(rt; disk.len(2)?, 56);
    let read = read_entity(&mut disk, 2, 0, other, &mut out);
    assert_eq!(rt; read, Err(ReadFault::Changed));
    Ok(())
}
