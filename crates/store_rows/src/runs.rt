//! Runs over devices in memory.
ghost use Rattle.std.specs.Prelude.{◌≡◌, length, IfOk};

use std::alloc::{AllocError, AllocFailed, Global};
use store_io::{DiskFailed, MemDisk, MemSink, MemSource};
use store_run::{Status, run_alone};

/// Why a test could not be made.
#[derive(Debug, Drop)]
pub struct Fail;

impl From<AllocError> for Fail {
    fn from(_: AllocError) -> Self {
        Fail
    }
}

impl<T: Drop> From<AllocFailed<T>> for Fail {
    fn from(_: AllocFailed<T>) -> Self {
        Fail
    }
}

impl From<DiskFailed> for Fail {
    fn from(_: DiskFailed) -> Self {
        Fail
    }
}

pub fn words(alloc: Global, texts: &[&str]) -> Result<Vec<String>, Fail> {
    let mut words = Vec::new(alloc);
    for text in texts {
        words.push(format!(in alloc; "{text}")?)?;
    }
    Ok(words)
}

pub fn alone(alloc: Global, disk: MemDisk) -> Result<Vec<MemDisk>, Fail>
    ensures { IfOk result (λ disks. length disks.items ≡ 1) }
{
    let mut disks = Vec::new(alloc);
    disks.push(disk)?;
    Ok(disks)
}

pub fn fresh(alloc: Global, fails: Vec<u64>, stop_after: Option<u64>) -> Result<Vec<MemDisk>, Fail>
    ensures { IfOk result (λ disks. length disks.items ≡ 1) }
{
    alone(alloc, MemDisk::new(alloc, fails, stop_after))
}

/// Runs a script, read in pieces of seven bytes.
pub fn run(
    alloc: Global,
    script: &[u8],
    sink: &mut MemSink,
    disks: &mut Vec<MemDisk>,
) -> Result<Status, Fail>
    requires { length disks.old.items ≡ 1 }
    ensures { length disks.new.items ≡ length disks.old.items }
{
    let words = words(alloc, &["run", "d", "1"])?;
    let mut source = MemSource::new(Vec::from_slice(alloc, script)?, 7, Vec::new(alloc));
    Ok(run_alone(alloc, &words, &mut source, sink, disks))
}
