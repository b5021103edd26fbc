// A folder of the host as a disk.
use crate::failure::{Action, Failure, HostFault};
use crate::handles::Handles;
use crate::tally::Tally;
use call_counts::raised;
use std::alloc::Global;
use std::num::NonZeroUsize;
use store_io::{Disk, DiskFailed};

/// A folder whose file `fk` is file k of the disk. What the files hold is not told; each call that fails is counted, and
/// so is one for which there is no memory. After a sync that failed every call fails.
#[derive(Drop)]
pub struct FolderDisk {
    handles: Handles,
    tally: Tally,
    read_calls: u64,
}

impl FolderDisk {
    /// A folder that is there. At most so many of its files are kept open.
    pub(crate) fn open(
        rt: HostRuntime,
        alloc: Global,
        dir: &str,
        most: NonZeroUsize,
    ) -> Result<FolderDisk, HostFault> {
        match Handles::open(rt, alloc, dir, most) {
            Ok(handles) => Ok(FolderDisk {
                handles,
                tally: Tally::new(),
                read_calls: 0,
            }),
            Err(reason) => {
                let failure = Failure::on_folder(Action::Open, reason);
                Err(HostFault::at(alloc, dir, failure))
            }
        }
    }

    /// The folder's path.
    pub fn path(&self) -> &str {
        self.handles.dir()
    }

    /// The first call that failed.
    pub fn first_failure(&self) -> Option<Failure> {
        self.tally.first
    }
}

impl Disk for FolderDisk {
    ghost use Rattle.std.specs.Prelude.{false, []};

    ghost tells = { false };

    ghost reads = { λ _ _. [] };

    ghost leaves = { λ _ _ _. false };

    ghost faults = { λ d. d.tally.faults };

    ghost read_calls = { λ d. d.read_calls };

    ghost reads_left = { λ _ _ told. told };

    fn len(&mut self, file: u32) -> Result<u64, DiskFailed> {
        self.tally.check()?;
        self.tally.count(self.handles.len(file))
    }

    fn read(&mut self, file: u32, at: u64, buf: &mut [u8]) -> Result<(), DiskFailed> {
        self.read_calls = raised(self.read_calls);
        self.tally.check()?;
        self.tally.count(self.handles.read(file, at, buf))
    }

    fn write(&mut self, file: u32, at: u64, bytes: &[u8]) -> Result<(), DiskFailed> {
        self.tally.check()?;
        self.tally.count(self.handles.write(file, at, bytes))
    }

    fn cut(&mut self, file: u32, len: u64) -> Result<(), DiskFailed> {
        self.tally.check()?;
        self.tally.count(self.handles.cut(file, len))
    }

    fn sync(&mut self, file: u32) -> Result<(), DiskFailed> {
        self.tally.check()?;
        self.tally.count(self.handles.sync(file))
    }
}
