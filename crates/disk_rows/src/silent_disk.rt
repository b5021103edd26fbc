//! A disk for tests that need no condition on bytes.
use store_io::{Disk, DiskFailed, MemDisk};

/// A disk in memory that does not tell what its files hold. The counts of its faults and of its reads stand at their greatest.
#[derive(Drop)]
pub struct SilentDisk {
    disk: MemDisk,
}

impl SilentDisk {
    pub fn new(disk: MemDisk) -> SilentDisk {
        SilentDisk { disk }
    }

    /// How many calls of the disk in memory there were.
    pub fn calls(&self) -> u64 {
        self.disk.calls()
    }
}

impl Disk for SilentDisk {
    ghost use Rattle.std.specs.Prelude.{◌-◌, ◌^◌, false, []};

    ghost tells = { false };

    ghost reads = { λ _ _. [] };

    ghost leaves = { λ _ _ _. false };

    ghost faults = { λ _. 2 ^ 64 - 1 };

    ghost read_calls = { λ _. 2 ^ 64 - 1 };

    ghost reads_left = { λ _ _ told. told };

    fn len(&mut self, file: u32) -> Result<u64, DiskFailed> {
        self.disk.len(file)
    }

    fn read(&mut self, file: u32, at: u64, buf: &mut [u8]) -> Result<(), DiskFailed> {
        let len = self.disk.len(file)?;
        if len < at || len - at < buf.len() as u64 {
            return Err(DiskFailed);
        }
        self.disk.read(file, at, buf)
    }

    fn write(&mut self, file: u32, at: u64, bytes: &[u8]) -> Result<(), DiskFailed> {
        if self.disk.len(file)? < at {
            return Err(DiskFailed);
        }
        self.disk.write(file, at, bytes)
    }

    fn cut(&mut self, file: u32, len: u64) -> Result<(), DiskFailed> {
        if self.disk.len(file)? < len {
            return Err(DiskFailed);
        }
        self.disk.cut(file, len)
    }

    fn sync(&mut self, file: u32) -> Result<(), DiskFailed> {
        self.disk.sync(file)
    }
}
