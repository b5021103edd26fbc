//! One test an adapter of the host.
use std::alloc::AllocError;
use std::io::{ErrorKind, Read, Write};
use std::{env, fs, io, process};
use store_host::{FirstRefusal, HostFault, StdSink, StdSource, StoreFolder};
use store_io::{Disk, DiskFailed, Sink, SinkFailed, Source, SourceFailed};

#[derive(Debug, Drop)]
enum Fail {
    Host(HostFault),
    Io(io::Error),
    Call,
}

impl From<HostFault> for Fail {
    fn from(fault: HostFault) -> Fail {
        Fail::Host(fault)
    }
}

impl From<io::Error> for Fail {
    fn from(error: io::Error) -> Fail {
        Fail::Io(error)
    }
}

impl From<AllocError> for Fail {
    fn from(_: AllocError) -> Fail {
        Fail::Call
    }
}

impl From<DiskFailed> for Fail {
    fn from(_: DiskFailed) -> Fail {
        Fail::Call
    }
}

impl From<SinkFailed> for Fail {
    fn from(_: SinkFailed) -> Fail {
        Fail::Call
    }
}

impl From<SourceFailed> for Fail {
    fn from(_: SourceFailed) -> Fail {
        Fail::Call
    }
}

/// A stream that takes and gives a byte a call, is interrupted at every second one, and fails once it ends.
#[derive(Drop)]
struct Slow {
    bytes: Vec<u8>,
    given: usize,
    calls: u64,
}

impl Slow {
    fn new(bytes: Vec<u8>) -> Slow {
        Slow {
            bytes,
            given: 0,
            calls: 0,
        }
    }

    fn turn(&mut self) -> io::Result<()> {
        self.calls = self.calls.wrapping_add(1);
        if self.calls % 2 == 1 {
            return Err(io::Error::from(ErrorKind::Interrupted));
        }
        Ok(())
    }
}

impl Read for Slow {
    fn read(&mut self, buf: &mut [u8]) -> io::Result<usize> {
        self.turn()?;
        match (self.bytes.get(self.given), buf.first_mut()) {
            (Some(byte), Some(place)) => {
                *place = *byte;
                self.given = self.given.saturating_add(1);
                Ok(1)
            }
            (_, None) => Ok(0),
            (None, _) => Err(io::Error::from(ErrorKind::TimedOut)),
        }
    }
}

impl Write for Slow {
    fn write(&mut self, buf: &[u8]) -> io::Result<usize> {
        self.turn()?;
        match buf.first() {
            Some(byte) if self.bytes.len() < 20 => {
                self.bytes.push(*byte)?;
                Ok(1)
            }
            _ => Ok(0),
        }
    }

    fn flush(&mut self) -> io::Result<()> {
        Ok(())
    }
}

#[test]
fn a_source(rt: HostRuntime) -> Result<(), Fail> {
    let alloc = rt.alloc();
    let first = FirstRefusal::new();
    let script = Slow::new(Vec::from_slice(alloc, b"ab\nc\n")?);
    let mut source = StdSource::new(alloc, script, &first);
    let mut sink = StdSink::new(alloc, Slow::new(Vec::new(alloc)), &first);
    let mut buf = [0u8; 8];
    for (byte, answer) in [
        (b'a', ""),
        (b'b', ""),
        (b'\n', "ok\n"),
        (b'c', ""),
        (b'\n', "refused x\n"),
    ] {
        assert_eq!(rt; source.read(&mut buf)?, 1);
        assert_eq!(rt; buf[0], byte);
        if !answer.is_empty() {
            sink.put(answer.as_bytes())?;
        }
    }
    assert!(rt; source.failure().is_none());
    assert!(rt; source.read(&mut buf).is_err());
    assert!(rt; source.failure().is_some());
    assert!(rt; source.first_refused() == Some((b"c".as_slice(), true)));
    Ok(())
}

#[test]
fn a_sink(rt: HostRuntime) -> Result<(), Fail> {
    let alloc = rt.alloc();
    let first = FirstRefusal::new();
    let mut sink = StdSink::new(alloc, Slow::new(Vec::new(alloc)), &first);
    // Two objects and their number are the answer to one line.
    for answer in ["{}\n", "{}\n", "end 2\n"] {
        sink.put(answer.as_bytes())?;
    }
    assert_eq!(rt; first.line(), None);
    assert!(rt; sink.failure().is_none());
    // Of this one only eight bytes go in.
    assert!(rt; sink.put(b"refused x\n").is_err());
    assert!(rt; sink.failure().is_some());
    assert_eq!(rt; sink.refused(), 0);

    let mut sink = StdSink::new(alloc, Slow::new(Vec::new(alloc)), &first);
    sink.put(b"{}\n")?;
    sink.put(b"end 1\n")?;
    sink.put(b"refused x\n")?;
    assert_eq!(rt; sink.refused(), 1);
    assert_eq!(rt; sink.first_refused(), Some(2));
    assert!(rt; sink.first_code() == b"x".as_slice());
    Ok(())
}

/// How many files this process has open.
fn open_files(rt: HostRuntime) -> io::Result<usize> {
    let mut count = 0usize;
    for entry in fs::read_dir(&rt, "/proc/self/fd")? {
        let _ = entry?;
        count = count.saturating_add(1);
    }
    Ok(count)
}

#[test]
fn a_disk(rt: HostRuntime) -> Result<(), Fail> {
    let alloc = rt.alloc();
    let base = env::temp_dir(&rt)?;
    let around = format!(in alloc;
        "{}/store_host_{}",
        base.display(),
        process::id(rt.process())
    )?;
    let dir = format!(in alloc; "{around}/shop")?;
    let folder = StoreFolder::open(rt, alloc, &dir)?;
    assert!(rt; matches!(StoreFolder::open(rt, alloc, &dir), Err(HostFault::InUse)));
    // One of 128 channels keeps four of its files open.
    let mut disk = folder.channel(3, 128)?;
    let before = open_files(rt)?;
    for file in 0..40u32 {
        assert_eq!(rt; disk.len(file)?, 0);
        disk.write(file, 0, b"one two")?;
        disk.write(file, 4, b"six")?;
        disk.cut(file, 6)?;
    }
    assert!(rt; open_files(rt)? <= before.saturating_add(4));
    let mut buf = [0u8; 2];
    for file in 0..40u32 {
        disk.sync(file)?;
        assert_eq!(rt; disk.len(file)?, 6);
        disk.read(file, 4, &mut buf)?;
        assert!(rt; buf == *b"si");
        disk.cut(file, 0)?;
        assert_eq!(rt; disk.len(file)?, 0);
    }
    assert!(rt; disk.first_failure().is_none());
    assert!(rt; disk.read(0, 0, &mut buf).is_err());
    assert!(rt; disk.first_failure().is_some());
    fs::remove_dir_all(&rt, around.as_str())?;
    Ok(())
}
