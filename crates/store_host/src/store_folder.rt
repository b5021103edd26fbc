// The folder of a store, which one run has at a time.
use crate::failure::{Action, Failure, HostFault};
use crate::folder_disk::FolderDisk;
use crate::folders::enter_all;
use crate::streams::HeldStreams;
use std::alloc::Global;
use std::fs;
use std::fs::{File, TryLockError};
use std::num::NonZeroUsize;

/// The most data files that all channels of a store together keep open.
const MOST_OPEN: usize = 512;

/// The folder of a store, locked as long as this lives. The lock ends with the process, however it ends.
#[derive(Drop)]
pub struct StoreFolder {
    rt: HostRuntime,
    alloc: Global,
    dir: String,
    /// The folder itself, with the lock on it.
    folder: File,
    streams: HeldStreams,
}

/// Opens the folder and locks it for this process.
fn lock(rt: HostRuntime, alloc: Global, dir: &str) -> Result<File, HostFault> {
    let folder = match File::open(&rt, dir) {
        Ok(folder) => folder,
        Err(reason) => {
            let failure = Failure::on_folder(Action::Open, reason);
            return Err(HostFault::at(alloc, dir, failure));
        }
    };
    match folder.try_lock() {
        Ok(()) => Ok(folder),
        Err(TryLockError::WouldBlock) => Err(HostFault::InUse),
        Err(TryLockError::Error(reason)) => {
            let failure = Failure::on_folder(Action::Lock, reason);
            Err(HostFault::at(alloc, dir, failure))
        }
    }
}

/// How many files each of so many channels keeps open.
fn share_of(channels: usize) -> NonZeroUsize {
    let share = MOST_OPEN.checked_div(channels).unwrap_or(MOST_OPEN);
    NonZeroUsize::new(share).unwrap_or(NonZeroUsize::MIN)
}

impl StoreFolder {
    /// Locks the folder, before a byte in it is read. It is made where it is missing, and so is each one around it. The
    /// numbers of standard streams that are closed are held first, so no file gets one of them.
    pub fn open(rt: HostRuntime, alloc: Global, dir: &str) -> Result<StoreFolder, HostFault> {
        let streams = match HeldStreams::hold(rt) {
            Ok(streams) => streams,
            Err(reason) => {
                let failure = Failure::on_folder(Action::Open, reason);
                return Err(HostFault::at(alloc, "/", failure));
            }
        };
        enter_all(rt, alloc, dir)?;
        let folder = lock(rt, alloc, dir)?;
        let dir = String::from_str(alloc, dir)?;
        Ok(StoreFolder {
            rt,
            alloc,
            dir,
            folder,
            streams,
        })
    }

    /// The folder of a channel is made where it is missing, and this one is synced either way: a run before may have
    /// made it and been stopped before the sync.
    fn enter(&self, dir: &str) -> Result<(), Failure> {
        let entered = match fs::exists(&self.rt, dir) {
            Ok(true) => Ok(()),
            Ok(false) => fs::create_dir(&self.rt, dir),
            Err(reason) => Err(reason),
        };
        entered.map_err(|reason| Failure::on_folder(Action::Make, reason))?;
        let synced = self.folder.sync_all();
        synced.map_err(|reason| Failure::on_folder(Action::Sync, reason))
    }

    /// The disk of channel k of so many: the folder `channel_k`.
    pub fn channel(&self, number: u32, channels: usize) -> Result<FolderDisk, HostFault> {
        let dir = format!(in self.alloc; "{}/channel_{number}", self.dir)?;
        if let Err(failure) = self.enter(dir.as_str()) {
            return Err(HostFault::at(self.alloc, dir.as_str(), failure));
        }
        FolderDisk::open(self.rt, self.alloc, dir.as_str(), share_of(channels))
    }
}
