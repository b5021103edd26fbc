//! Whole runs over devices in memory that stop or fail.

use crate::runs::{Fail, alone, fresh, run, words};
use store_io::{Disk, MemSink, MemSource, Pick};
use store_run::{Status, run_alone};

/// A script of two stores.
const SCRIPT: &[u8] = b"type Node int:v\nnew a Node\nnew b Node\nstore a\nshow a\nstore b\n";

/// Its answers.
const ANSWERS: &[u8] =
    b"type 16\nnew 1024\nnew 1025\nstored 1 1\n{\"id\":1024,\"m\":{\"v\":0},\"type\":\"Node\"}\nstored 2 1\n";

#[test]
fn a_run(rt: HostRuntime) -> Result<(), Fail> {
    let alloc = rt.alloc();
    let mut disks = fresh(alloc, Vec::new(alloc), None)?;
    let mut sink = MemSink::new(alloc, Vec::new(alloc));
    let status = run(alloc, SCRIPT, &mut sink, &mut disks)?;
    assert_eq!(rt; status, Status::Done);
    assert_eq!(rt; sink.written().as_slice(), ANSWERS);
    assert_eq!(rt; (disks[0].len(0)?, disks[0].len(1)?), (131, 28));
    Ok(())
}

/// How many lines of an output say that a store was kept.
fn stored_lines(output: &[u8]) -> usize {
    output
        .windows(7)
        .filter(|part| *part == b"stored ".as_slice())
        .count()
}

#[test]
fn stops(rt: HostRuntime) -> Result<(), Fail> {
    let alloc = rt.alloc();
    for stop in 0..27u64 {
        for pick in [Pick::Synced, Pick::Written, Pick::Filled(7)] {
            let mut disks = fresh(alloc, Vec::new(alloc), Some(stop))?;
            let mut sink = MemSink::new(alloc, Vec::new(alloc));
            let status = run(alloc, SCRIPT, &mut sink, &mut disks)?;
            // Three calls open each log, and the type and each store make six.
            assert_eq!(rt; status == Status::Done, stop >= 24, "{stop} {pick:?}");
            let told = stored_lines(sink.written());
            let Some(disk) = disks.pop() else {
                return Err(Fail);
            };
            let mut disks = alone(alloc, disk.restart(pick, Vec::new(alloc), None)?)?;
            let mut sink = MemSink::new(alloc, Vec::new(alloc));
            let status = run(
                alloc,
                b"type Node int:v\nnew c Node\nstore c",
                &mut sink,
                &mut disks,
            )?;
            assert_eq!(rt; status, Status::Done);
            let next = format!(in alloc;
                "type 16\nnew {}\nstored {} 1\n",
                if told == 0 { 1024 } else { 1026 },
                told.saturating_add(1)
            )?;
            let more = format!(in alloc;
                "type 16\nnew 1026\nstored {} 1\n",
                told.saturating_add(2)
            )?;
            let answers = sink.written().as_slice();
            assert!(rt;
                answers == next.as_bytes() || answers == more.as_bytes(),
                "{stop} {pick:?}"
            );
        }
    }
    Ok(())
}

/// A run whose devices fail once: the length of a piece that is read, the calls of the source, the sink and the disk that fail, the
/// status, and what is answered at least.
const FAULTS: [(usize, u64, u64, u64, Status, &[u8]); 4] = [
    (65_536, 9, 3, 99, Status::WriteFault, b"type 16\nnew 1024\n"),
    (65_536, 1, 99, 99, Status::ReadFault, b""),
    // The first piece is the first line, which is answered before the next one is read.
    (16, 2, 99, 99, Status::ReadFault, b"type 16\n"),
    (65_536, 9, 99, 1, Status::StorageFault, b""),
];

#[test]
fn faults(rt: HostRuntime) -> Result<(), Fail> {
    let alloc = rt.alloc();
    let words = words(alloc, &["run", "d", "1"])?;
    for (piece, read, put, call, status, answers) in FAULTS {
        let mut disks = fresh(alloc, vec![in alloc; call]?, None)?;
        let script = Vec::from_slice(alloc, SCRIPT)?;
        let mut source = MemSource::new(script, piece, vec![in alloc; read]?);
        let mut sink = MemSink::new(alloc, vec![in alloc; put]?);
        let ended = run_alone(alloc, &words, &mut source, &mut sink, &mut disks);
        assert_eq!(rt; ended, status);
        assert!(rt; sink.written().starts_with(answers));
        assert!(rt; sink.written().len() < answers.len() + 11);
    }
    Ok(())
}
