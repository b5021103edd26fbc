ghost use Rattle.std.specs.Prelude.{◌≡◌, ◌≤◌, length, IfOk};
ghost use Rattle.store_io.specs.MemDisk.{disk_reads};
ghost use Rattle.gated_log.specs.Of.{IsOf};

use crate::windows::window;
use gated_log::laws::{no_record_begins_another, payloads_of_log};
use gated_log::{GatedLog, LogFault, begin};
use std::test::Fail;
use store_io::{Disk, MemDisk, Pick};

const HEADER: [u8; 8] = [0x45, 0x53, 0x50, 0x31, 1, 0, 1, 0];

/// The log in file 0.
fn open(disk: &mut MemDisk, window: &mut [u8]) -> Result<GatedLog, LogFault>
    requires { 1048576 ≤ length window.old }
    ensures { IfOk result (λ log. (log.file ≡ 0) × IsOf log (disk_reads disk.new 0)) }
{
    let mut opening = begin(disk, 0, HEADER)?;
    'records: while let Some(_) = opening.next(disk, window)? {}
    Ok(opening.finish(disk)?)
}

/// Adds two payloads, and says how many were added.
fn add_two(disk: &mut MemDisk, window: &mut [u8]) -> u64
    requires { 1048576 ≤ length window.old }
    ensures { result ≤ 2 }
{
    match open(disk, window) {
        Ok(mut log) => {
            if log.append(disk, b"one").is_err() {
                0
            } else if log.append(disk, b"two").is_err() {
                1
            } else {
                2
            }
        }
        Err(_) => 0,
    }
}

#[test]
fn one_record(rt: HostRuntime) -> Result<(), Fail> {
    let alloc = rt.alloc();
    let mut window = window(alloc)?;
    let mut disk = MemDisk::new(alloc, Vec::new(alloc), None);
    let mut log = open(&mut disk, &mut window)?;
    assert_eq!(rt; disk.len(0)?, 9);
    let mut bytes = [0u8; 17];
    disk.read(0, 0, &mut bytes[..9])?;
    assert_eq!(rt; &bytes[..9], b"ESP1\x01\x00\x01\x00\x00".as_slice());
    log.append(&mut disk, &[7, 8, 9])?;
    assert_eq!(rt; (log.length(), log.count()), (17, 1));
    assert_eq!(rt; disk.len(0)?, 17);
    disk.read(0, 0, &mut bytes)?;
    assert_eq!(rt;
        bytes.as_slice(),
        b"ESP1\x01\x00\x01\x00\x01\x03\x00\x00\x00\x07\x08\x09\x00".as_slice()
    );
    payloads_of_log();
    no_record_begins_another(b"one", b"two");
    Ok(())
}

#[test]
fn files(rt: HostRuntime) -> Result<(), Fail> {
    let alloc = rt.alloc();
    let mut window = window(alloc)?;
    for (bytes, want) in [
        (b"any 9 byt".as_slice(), Ok(0)),
        (
            b"ESP1\x01\x00\x02\x00\x00\x00".as_slice(),
            Err(LogFault::Header),
        ),
        (b"ESP1\x01\x00\x01\x00\x00\x00".as_slice(), Ok(0)),
        (
            b"ESP1\x01\x00\x01\x00\x02\x01\x00\x00\x00\x07\x00".as_slice(),
            Ok(0),
        ),
        (
            b"ESP1\x01\x00\x01\x00\x01\x01".as_slice(),
            Err(LogFault::Cut { at: 8 }),
        ),
        (
            b"ESP1\x01\x00\x01\x00\x01\x00\x00\x00\x00\x00".as_slice(),
            Err(LogFault::Cut { at: 8 }),
        ),
        (
            b"ESP1\x01\x00\x01\x00\x01\x01\x00\x10\x00\x07\x00".as_slice(),
            Err(LogFault::Cut { at: 8 }),
        ),
        (
            b"ESP1\x01\x00\x01\x00\x01\x01\x00\x00\x00\x07".as_slice(),
            Err(LogFault::Cut { at: 8 }),
        ),
        (
            b"ESP1\x01\x00\x01\x00\x01\x01\x00\x00\x00\x07\x00".as_slice(),
            Ok(1),
        ),
        (
            b"ESP1\x01\x00\x01\x00\x01\x01\x00\x00\x00\x07\x01".as_slice(),
            Err(LogFault::Cut { at: 14 }),
        ),
    ] {
        let mut disk = MemDisk::new(alloc, Vec::new(alloc), None);
        disk.write(0, 0, bytes)?;
        let count = open(&mut disk, &mut window).map(|log| log.count());
        assert_eq!(rt; count, want, "{bytes:?}");
    }
    Ok(())
}

#[test]
fn stops(rt: HostRuntime) -> Result<(), Fail> {
    let alloc = rt.alloc();
    let mut window = window(alloc)?;
    // Three calls open the log and six add a payload, so the last run is not stopped.
    for stop in 0..16u64 {
        for pick in [Pick::Synced, Pick::Written, Pick::Filled(7)] {
            let mut disk = MemDisk::new(alloc, Vec::new(alloc), Some(stop));
            let added = add_two(&mut disk, &mut window);
            assert_eq!(rt; added == 2, stop == 15);
            let mut again = disk.restart(pick, Vec::new(alloc), None)?;
            let log = open(&mut again, &mut window)?;
            assert!(rt;
                log.count() == added || log.count() == added + 1,
                "{stop} {pick:?}"
            );
        }
    }
    Ok(())
}
