//! The logs of a channel, and its chunks, as they are read when a disk is opened.

use crate::silent_disk::SilentDisk;
use crate::windows::window;
use data_file::ChunkWalk;
use disk_opening::{
    ChannelLogFault, ChunkFault, ChunkRange, DictionaryFault, read_chunks, read_dictionary,
    read_log, take_in,
};
use entity_index::EntityIndex;
use std::alloc::Global;
use std::test::Fail;
use store_io::{Disk, MemDisk};

/// The log of channel 0 of 2 after one store: file 2 is created, and the store's chunk stands in it.
const LOG: &[u8; 69] =
    b"ESC1\x01\0\x02\0\x01\x09\0\0\0\x01\x02\0\0\0\0\0\0\0\x01\x29\0\0\0\x02\x01\0\0\0\0\0\0\0\x02\0\0\0\0\0\0\0\0\0\0\0\0\0\0\0\x38\0\0\0\0\0\0\0\x01\x04\0\0\0\0\0\0\0";

/// One entity of 56 bytes, with the id 1024.
const CHUNK: &[u8; 56] =
    b"\x38\0\0\0\0\0\0\0\x10\0\0\0\0\0\0\0\0\x04\0\0\0\0\0\0\x01\0\0\0\0\0\0\0\0\0\0\0\0\0\0\0\x05\0\0\0\0\0\0\0\0\0\0\0\0\0\0\0";

/// The dictionary log of 2 channels after one type.
const TYPES: &[u8; 44] = b"ESD1\x01\0\x02\0\x01\x1e\0\0\x0016 Point{int x,int y,ref next}\0";

/// A disk with these bytes in a file.
fn disk_with(alloc: Global, file: u32, bytes: &[u8]) -> Result<SilentDisk, Fail> {
    let mut disk = SilentDisk::new(MemDisk::new(alloc, Vec::new(alloc), None));
    disk.write(file, 0, bytes)?;
    Ok(disk)
}

/// What is wrong with a log of channel 0 of 2.
fn fault_of(alloc: Global, log: &[u8]) -> Result<Option<ChannelLogFault>, Fail> {
    let mut disk = disk_with(alloc, 0, log)?;
    match read_log(alloc, &mut disk, 0, 2, &mut window(alloc)?) {
        Ok(_) => Ok(None),
        Err(fault) => Ok(Some(fault)),
    }
}

#[test]
fn a_log_is_read(rt: HostRuntime) -> Result<(), Fail> {
    let alloc = rt.alloc();
    let mut disk = disk_with(alloc, 0, LOG)?;
    let log = read_log(alloc, &mut disk, 0, 2, &mut window(alloc)?)?;
    assert_eq!(rt;
        (log.inventory.last_store(), log.inventory.next_id()),
        (1, 1025)
    );
    let range = ChunkRange {
        number: 1,
        file: 2,
        at: 0,
        length: 56,
    };
    assert_eq!(rt; log.ranges.as_slice(), [range].as_slice());
    Ok(())
}

#[test]
fn the_first_fault_of_a_log_is_told(rt: HostRuntime) -> Result<(), Fail> {
    let alloc = rt.alloc();
    // A byte of the log, what is written there, and the fault.
    let changes = [
        (3, b'D', ChannelLogFault::Header),
        (5, 1, ChannelLogFault::Header),
        (13, 9, ChannelLogFault::Entry { record: 1 }),
        (14, 3, ChannelLogFault::Order { record: 1 }),
        (23, 40, ChannelLogFault::Entry { record: 2 }),
        (28, 2, ChannelLogFault::Order { record: 2 }),
        (24, 1, ChannelLogFault::Log { at: 22 }),
    ];
    for (at, byte, fault) in changes {
        let mut log = *LOG;
        log[at] = byte;
        assert_eq!(rt; fault_of(alloc, &log)?, Some(fault));
    }
    assert_eq!(rt; fault_of(alloc, LOG)?, None);
    assert_eq!(rt;
        fault_of(alloc, &LOG[..60])?,
        Some(ChannelLogFault::Log { at: 22 })
    );
    assert_eq!(rt; fault_of(alloc, &LOG[..9])?, None);
    Ok(())
}

#[test]
fn a_chunk_is_taken_in(rt: HostRuntime) -> Result<(), Fail> {
    let alloc = rt.alloc();
    let mut disk = disk_with(alloc, 2, CHUNK)?;
    let mut index = EntityIndex::new(alloc);
    let walk = ChunkWalk {
        file: 2,
        at: 0,
        end: 56,
        file_length: 56,
        channel: 0,
        count: 2,
        next_id: 1025,
    };
    take_in(&mut disk, walk, &mut index)?;
    assert_eq!(rt; index.len(), 1);
    let row = index.row(1024).ok_or("no row")?;
    assert_eq!(rt; (row.file, row.at, row.header.length), (2, 0, 56));
    Ok(())
}

/// What is wrong with a dictionary log of 2 channels, or how many types it has.
fn types_of(alloc: Global, log: &[u8]) -> Result<Result<u64, DictionaryFault>, Fail> {
    let mut disk = disk_with(alloc, 1, log)?;
    match read_dictionary(alloc, &mut disk, 2, &mut window(alloc)?) {
        Ok(log) => Ok(Ok(log.dictionary.count())),
        Err(fault) => Ok(Err(fault)),
    }
}

#[test]
fn a_dictionary_is_read(rt: HostRuntime) -> Result<(), Fail> {
    let alloc = rt.alloc();
    assert_eq!(rt; types_of(alloc, TYPES)?, Ok(1));
    assert_eq!(rt; types_of(alloc, &TYPES[..9])?, Ok(0));
    assert_eq!(rt;
        types_of(alloc, &TYPES[..43])?,
        Err(DictionaryFault::Log { at: 8 })
    );
    // A byte of the log, what is written there, and the fault.
    let changes = [
        (3, b'C', DictionaryFault::Header),
        (6, 1, DictionaryFault::Header),
        (9, 31, DictionaryFault::Log { at: 8 }),
        (14, b'7', DictionaryFault::Record { record: 1 }),
        (16, b'p', DictionaryFault::Record { record: 1 }),
        (32, b'x', DictionaryFault::Record { record: 1 }),
        (43, 1, DictionaryFault::Log { at: 43 }),
    ];
    for (at, byte, fault) in changes {
        let mut log = *TYPES;
        log[at] = byte;
        assert_eq!(rt; types_of(alloc, &log)?, Err(fault));
    }
    Ok(())
}

/// How many ids channel 0 of 2 has at a store, with the bytes of a chunk of 56 in its file, or what is wrong.
fn ids_at(
    alloc: Global,
    number: u64,
    next_id: u64,
    chunk: &[u8],
) -> Result<Result<u64, ChunkFault>, Fail> {
    let mut disk = disk_with(alloc, 0, LOG)?;
    disk.write(2, 0, chunk)?;
    let log = read_log(alloc, &mut disk, 0, 2, &mut window(alloc)?)?;
    match read_chunks(alloc, &mut disk, &log, 0, 2, number, next_id) {
        Ok(index) => Ok(Ok(index.len())),
        Err(fault) => Ok(Err(fault)),
    }
}

#[test]
fn the_chunks_of_a_channel_are_read(rt: HostRuntime) -> Result<(), Fail> {
    let alloc = rt.alloc();
    let bad = Err(ChunkFault::BadChunk { file: 2, at: 0 });
    // A store's number, the next id, how many bytes of the chunk are there, and what is found.
    let rows = [
        (1, 1025, 56, Ok(1)),
        (2, 1025, 56, Ok(1)),
        (0, 1025, 56, Ok(0)),
        (1, 1024, 56, bad),
        (1, 1025, 55, bad),
        (0, 1025, 55, Ok(0)),
    ];
    for (number, next_id, length, found) in rows {
        assert_eq!(rt; ids_at(alloc, number, next_id, &CHUNK[..length])?, found);
    }
    Ok(())
}
