use std::alloc::Global;
use std::test::Fail;
use store_io::{Disk, DiskFailed, MemDisk, MemSink, MemSource, Pick, Sink, Source};

/// Whether the file reads as these bytes, of which there are at most 8.
fn holds<D: Disk>(disk: &mut D, file: u32, want: &[u8]) -> bool {
    let mut buf = [0u8; 8];
    let n = want.len().min(8);
    disk.len(file) == Ok(n as u64) && disk.read(file, 0, &mut buf[..n]).is_ok() && &buf[..n] == want
}

#[test]
fn sources_and_sinks(rt: HostRuntime) -> Result<(), Fail> {
    let alloc = rt.alloc();
    let fails = Vec::from_slice(alloc, &[2])?;
    let mut source = MemSource::new(Vec::from_slice(alloc, b"abcde")?, 2, fails);
    let mut sink = MemSink::new(alloc, Vec::from_slice(alloc, &[3])?);
    let mut buf = [0u8; 4];
    for (want, put) in [
        (Some(2), true),
        (None, true),
        (Some(2), false),
        (Some(1), true),
        (Some(0), true),
    ] {
        let read = source.read(&mut buf).ok();
        assert_eq!(rt; read, want);
        let n = read.unwrap_or(0).min(4);
        assert_eq!(rt; sink.put(&buf[..n]).is_ok(), put);
    }
    assert_eq!(rt; sink.written().as_slice(), b"abe".as_slice());
    Ok(())
}

/// A disk whose file 5 was synced with three bytes, and then written over and cut.
fn cut_disk(alloc: Global) -> Result<MemDisk, Fail> {
    let mut disk = MemDisk::new(alloc, Vec::new(alloc), None);
    disk.write(5, 0, b"abc")?;
    disk.sync(5)?;
    if disk.len(5)? >= 2 {
        disk.write(5, 2, b"xy")?;
    }
    if disk.len(5)? >= 1 {
        disk.cut(5, 1)?;
    }
    Ok(disk)
}

#[test]
fn picks(rt: HostRuntime) -> Result<(), Fail> {
    let alloc = rt.alloc();
    let mut disk = cut_disk(alloc)?;
    assert_eq!(rt; disk.calls(), 6);
    assert!(rt; holds(&mut disk, 5, b"a"));
    assert_eq!(rt; disk.len(6)?, 0);
    for (pick, want) in [
        (Pick::Synced, b"abc".as_slice()),
        (Pick::Written, b"a".as_slice()),
        (Pick::Filled(7), b"a\x07\x07\x07".as_slice()),
    ] {
        let mut again = cut_disk(alloc)?.restart(pick, Vec::new(alloc), None)?;
        assert_eq!(rt; again.calls(), 0);
        assert!(rt; holds(&mut again, 5, want), "{pick:?}");
    }
    Ok(())
}

#[test]
fn failures_and_stops(rt: HostRuntime) -> Result<(), Fail> {
    let alloc = rt.alloc();
    let mut disk = MemDisk::new(alloc, Vec::from_slice(alloc, &[2])?, Some(4));
    // The second call is listed: it fails, and is made as far as reads go.
    for (bytes, want) in [(b"abc", Ok(())), (b"def", Err(DiskFailed))] {
        assert_eq!(rt; disk.write(0, 0, bytes), want);
    }
    assert!(rt; holds(&mut disk, 0, b"def"));
    // The stop comes after four calls: the fifth is made all the same, the sixth is not.
    for bytes in [b"ghi", b"jkl"] {
        assert_eq!(rt; disk.write(0, 0, bytes), Err(DiskFailed));
    }
    assert_eq!(rt; disk.sync(0), Err(DiskFailed));
    let mut again = disk.restart(Pick::Written, Vec::new(alloc), None)?;
    assert!(rt; holds(&mut again, 0, b"ghi"));
    let mut none = again.restart(Pick::Filled(1), Vec::new(alloc), Some(0))?;
    assert_eq!(rt; none.len(0), Err(DiskFailed));
    Ok(())
}
