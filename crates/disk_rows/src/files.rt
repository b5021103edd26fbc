//! A chunk that is stored, dropped or read, and a record that is kept.

ghost use Rattle.std.specs.Prelude.{◌≡◌, ◌≤◌, [], IsTrue, length, IfOk};
ghost use Rattle.transactions_file.specs.Inventory.{start};
ghost use Rattle.channel_files.specs.Channel.{IsOfDisk};

use crate::silent_disk::SilentDisk;
use crate::windows::window;
use channel_files::{ChannelFiles, Place, Sizes};
use entity_form::Header;
use gated_log::{GatedLog, LogFault, begin};
use std::alloc::Global;
use std::test::Fail;
use store_io::{Disk, MemDisk};
use transactions_file::{Inventory, TransactionsFile};

/// The entity 1024 of type 16, with one null reference and two numbers.
const CHUNK: [u8; 56] =
    *b"\x38\0\0\0\0\0\0\0\x10\0\0\0\0\0\0\0\0\x04\0\0\0\0\0\0\x01\0\0\0\0\0\0\0\0\0\0\0\0\0\0\0\x05\0\0\0\0\0\0\0\0\0\0\0\0\0\0\0";

/// The log of channel 0 of 2 once that chunk was stored.
const LOG: [u8; 69] =
    *b"ESC1\x01\0\x02\0\x01\x09\0\0\0\x01\x02\0\0\0\0\0\0\0\x01\x29\0\0\0\x02\x01\0\0\0\0\0\0\0\x02\0\0\0\0\0\0\0\0\0\0\0\0\0\0\0\x38\0\0\0\0\0\0\0\x01\x04\0\0\0\0\0\0\0";

/// The files of channel 0 of 2 on a disk without files.
fn open<D: Disk + Drop>(
    alloc: Global,
    mut disk: D,
    window: &mut [u8],
) -> Result<ChannelFiles<D>, LogFault>
    requires window { 1048576 ≤ length window.old }
    requires empty { IsTrue D.tells → D.reads disk 0 ≡ [] }
    ensures state { IfOk result (λ files. files.transactions.inventory.state ≡ start) }
    ensures confirmed { IfOk result (λ files. files.confirmed ≡ 0) }
    ensures of_disk { IsTrue D.tells → IfOk result (λ files. IsOfDisk files.transactions (D.reads files.disk)) }
{
    let mut opening = begin(&mut disk, 0, *b"ESC1\x01\x00\x02\x00")?;
    match opening.next(&mut disk, window)? {
        Some(_) => Err(LogFault::Header),
        None => {
            let log = opening.finish(&mut disk)?;
            let transactions = TransactionsFile::join(log, Inventory::new(alloc));
            let sizes = Sizes {
                minimum: 0,
                maximum: 1 << 20,
                use_rate: 500,
            };
            Ok(ChannelFiles::new(disk, transactions, sizes))
        }
    }
}

/// An empty log in file 1.
fn begin_log(disk: &mut SilentDisk, window: &mut [u8]) -> Result<GatedLog, LogFault>
    requires window { 1048576 ≤ length window.old }
    ensures file { IfOk result (λ log. log.file ≡ 1) }
{
    let mut opening = begin(disk, 1, *b"ESD1\x01\x00\x01\x00")?;
    match opening.next(disk, window)? {
        Some(_) => Err(LogFault::Header),
        None => Ok(opening.finish(disk)?),
    }
}

#[test]
fn a_chunk_is_stored(rt: HostRuntime) -> Result<(), Fail> {
    let alloc = rt.alloc();
    let mut window = window(alloc)?;
    let disk = MemDisk::new(alloc, Vec::new(alloc), None);
    let mut files = open(alloc, disk, &mut window)?;
    files.prepare()?;
    let place = files.store_chunk(1, &CHUNK, 1025)?;
    assert_eq!(rt; place, Place { file: 2, at: 0 });
    files.confirm(1);
    assert_eq!(rt; files.confirmed(), 1);
    assert_eq!(rt; files.inventory().next_id(), 1025);
    let mut disk = files.into_disk();
    assert_eq!(rt; disk.len(0)?, 69);
    let mut log = [0; 69];
    disk.read(0, 0, &mut log)?;
    assert_eq!(rt; log, LOG);
    assert_eq!(rt; disk.len(2)?, 56);
    let mut chunk = [0; 56];
    disk.read(2, 0, &mut chunk)?;
    assert_eq!(rt; chunk, CHUNK);
    Ok(())
}

#[test]
fn a_store_is_dropped(rt: HostRuntime) -> Result<(), Fail> {
    let alloc = rt.alloc();
    let mut window = window(alloc)?;
    let disk = MemDisk::new(alloc, Vec::new(alloc), None);
    let mut files = open(alloc, disk, &mut window)?;
    files.prepare()?;
    let place = files.store_chunk(1, &[], 1030)?;
    assert_eq!(rt; place, Place { file: 0, at: 0 });
    files.drop_store()?;
    assert_eq!(rt; files.inventory().last_store(), 0);
    assert_eq!(rt; files.inventory().next_id(), 1024);
    Ok(())
}

#[test]
fn an_entity_is_read(rt: HostRuntime) -> Result<(), Fail> {
    let alloc = rt.alloc();
    let mut window = window(alloc)?;
    let disk = SilentDisk::new(MemDisk::new(alloc, Vec::new(alloc), None));
    let mut files = open(alloc, disk, &mut window)?;
    files.prepare()?;
    let place = files.store_chunk(1, &CHUNK, 1025)?;
    let header = Header {
        length: 56,
        type_id: 16,
        id: 1024,
        count: 1,
    };
    let mut entity = [0; 56];
    files.read_entity(place.file, place.at, header, &mut entity)?;
    assert_eq!(rt; entity, CHUNK);
    Ok(())
}

#[test]
fn a_record_is_kept(rt: HostRuntime) -> Result<(), Fail> {
    let alloc = rt.alloc();
    let mut window = window(alloc)?;
    let mut disk = SilentDisk::new(MemDisk::new(alloc, Vec::new(alloc), None));
    let mut log = begin_log(&mut disk, &mut window)?;
    let mut files = open(alloc, disk, &mut window)?;
    files.keep_record(&mut log, b"record")?;
    assert_eq!(rt; log.count(), 1);
    Ok(())
}
