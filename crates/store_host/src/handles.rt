// The files of a folder, as the host keeps them.
use crate::failure::{Action, Failure};
use lru::LruCache;
use std::alloc::{AllocError, Global};
use std::collections::BTreeSet;
use std::fs::{File, OpenOptions};
use std::io::ErrorKind;
use std::num::NonZeroUsize;
use std::os::unix::fs::FileExt;
use std::{fs, io};

/// The system's number for 'this process has too many files open'.
const TOO_MANY_OF_PROCESS: i32 = 24;

/// The system's number for 'all processes together have too many files open'.
const TOO_MANY_OF_ALL: i32 = 23;

/// An open file.
#[derive(Drop)]
struct Handle {
    file: File,
    /// Whether it was written or cut since its last sync.
    changed: bool,
}

/// The files of a folder. The last used ones are kept open, at most so many. One that is not there reads as empty.
#[derive(Drop)]
pub(crate) struct Handles {
    rt: HostRuntime,
    alloc: Global,
    dir: String,
    /// The folder itself, for its sync.
    folder: File,
    open: LruCache<u32, Handle>,
    /// The files that this process has had open. One that it found was synced first.
    settled: BTreeSet<u32>,
    /// Whether a file may have been made or removed since the folder was last synced, by this process or by one before
    /// that was stopped.
    changed: bool,
}

fn out_of_memory() -> io::Error {
    io::Error::from(ErrorKind::OutOfMemory)
}

/// Whether too many files are open.
fn is_too_many(reason: &io::Error) -> bool {
    matches!(
        reason.raw_os_error(),
        Some(TOO_MANY_OF_PROCESS | TOO_MANY_OF_ALL)
    )
}

impl Handles {
    pub(crate) fn open(
        rt: HostRuntime,
        alloc: Global,
        dir: &str,
        most: NonZeroUsize,
    ) -> io::Result<Handles> {
        let folder = File::open(&rt, dir)?;
        Ok(Handles {
            rt,
            alloc,
            dir: String::from_str(alloc, dir)?,
            folder,
            open: LruCache::sparse(alloc, most)?,
            settled: BTreeSet::new(alloc),
            changed: true,
        })
    }

    pub(crate) fn dir(&self) -> &str {
        self.dir.as_str()
    }

    fn path(&self, file: u32) -> Result<String, AllocError> {
        format!(in self.alloc; "{}/f{file}", self.dir)
    }

    /// Closes the file that was used least lately. It is synced before, if it was changed.
    fn give_up_one(&mut self) -> Result<(), Failure> {
        match self.open.pop_lru() {
            Some((number, handle)) if handle.changed => {
                let synced = handle.file.sync_all();
                synced.map_err(|reason| Failure::on_file(Action::Sync, number, reason))
            }
            _ => Ok(()),
        }
    }

    fn open_once(&self, anew: bool, path: &str) -> io::Result<File> {
        OpenOptions::new()
            .read(true)
            .write(true)
            .create_new(anew)
            .open(&self.rt, path)
    }

    /// Opens a file, or makes it anew; none where it is not there. Where too many are open, one after another is given up.
    fn open_by(&mut self, anew: bool, number: u32) -> Result<Option<File>, Failure> {
        let action = if anew { Action::Make } else { Action::Open };
        let Ok(path) = self.path(number) else {
            return Err(Failure::on_file(action, number, out_of_memory()));
        };
        for _ in 0..u64::MAX {
            match self.open_once(anew, path.as_str()) {
                Ok(file) => return Ok(Some(file)),
                Err(e) if e.kind() == ErrorKind::NotFound => return Ok(None),
                Err(e) if is_too_many(&e) && !self.open.is_empty() => self.give_up_one()?,
                Err(reason) => return Err(Failure::on_file(action, number, reason)),
            }
        }
        Err(Failure::on_file(action, number, out_of_memory()))
    }

    fn keep(&mut self, number: u32, file: File) -> Result<(), Failure> {
        if self.open.len() >= self.open.cap().get() {
            self.give_up_one()?;
        }
        let handle = Handle {
            file,
            changed: false,
        };
        match self.open.put(number, handle) {
            Ok(_) => Ok(()),
            Err(_) => Err(Failure::on_file(Action::Open, number, out_of_memory())),
        }
    }

    /// Takes note that this process has had the file open.
    fn settle(&mut self, number: u32) -> Result<(), Failure> {
        match self.settled.insert(number) {
            Ok(_) => Ok(()),
            Err(_) => Err(Failure::on_file(Action::Open, number, out_of_memory())),
        }
    }

    /// Syncs a file that this process has not had open before: a process before may have been stopped between a write
    /// and its sync.
    fn sync_found(&mut self, number: u32, file: &File) -> Result<(), Failure> {
        if self.settled.contains(&number) {
            return Ok(());
        }
        let synced = file.sync_all();
        synced.map_err(|reason| Failure::on_file(Action::Sync, number, reason))?;
        self.settle(number)
    }

    /// Opens the file if it is there, and says whether it is.
    fn find(&mut self, number: u32) -> Result<bool, Failure> {
        if self.open.contains(&number) {
            return Ok(true);
        }
        let Some(file) = self.open_by(false, number)? else {
            return Ok(false);
        };
        self.sync_found(number, &file)?;
        self.keep(number, file)?;
        Ok(true)
    }

    /// Makes a file, and syncs the folder.
    fn make(&mut self, number: u32) -> Result<(), Failure> {
        let Some(file) = self.open_by(true, number)? else {
            let reason = io::Error::from(ErrorKind::NotFound);
            return Err(Failure::on_file(Action::Make, number, reason));
        };
        self.changed = true;
        self.settle(number)?;
        self.keep(number, file)?;
        self.sync_folder()
    }

    fn remove(&mut self, number: u32) -> Result<(), Failure> {
        let failed = |reason| Failure::on_file(Action::Remove, number, reason);
        let path = self.path(number).map_err(|_| failed(out_of_memory()))?;
        fs::remove_file(&self.rt, path.as_str()).map_err(failed)?;
        self.changed = true;
        let _ = self.open.pop(&number);
        self.sync_folder()
    }

    fn sync_folder(&mut self) -> Result<(), Failure> {
        if self.changed {
            let synced = self.folder.sync_all();
            synced.map_err(|reason| Failure::on_folder(Action::Sync, reason))?;
            self.changed = false;
        }
        Ok(())
    }

    pub(crate) fn len(&mut self, number: u32) -> Result<u64, Failure> {
        let _ = self.find(number)?;
        match self.open.get(&number) {
            Some(handle) => match handle.file.metadata() {
                Ok(metadata) => Ok(metadata.len()),
                Err(reason) => Err(Failure::on_file(Action::Measure, number, reason)),
            },
            None => Ok(0),
        }
    }

    /// Fills the buffer, in as many reads as it takes. A file that ends before is a failure.
    pub(crate) fn read(&mut self, number: u32, at: u64, buf: &mut [u8]) -> Result<(), Failure> {
        let _ = self.find(number)?;
        let read = match self.open.get(&number) {
            Some(handle) => handle.file.read_exact_at(buf, at),
            None if buf.is_empty() => Ok(()),
            None => Err(io::Error::from(ErrorKind::UnexpectedEof)),
        };
        read.map_err(|reason| Failure::on_file(Action::Read, number, reason))
    }

    /// Writes all of the bytes, in as many writes as it takes, into a new file where it is missing.
    pub(crate) fn write(&mut self, number: u32, at: u64, bytes: &[u8]) -> Result<(), Failure> {
        if !self.find(number)? {
            self.make(number)?;
        }
        let written = match self.open.get_mut(&number) {
            Some(handle) => {
                handle.changed = true;
                handle.file.write_all_at(bytes, at)
            }
            None => Err(io::Error::from(ErrorKind::NotFound)),
        };
        written.map_err(|reason| Failure::on_file(Action::Write, number, reason))
    }

    /// Cuts the file to this length, and removes it at 0.
    pub(crate) fn cut(&mut self, number: u32, len: u64) -> Result<(), Failure> {
        let is_there = self.find(number)?;
        if is_there && len == 0 {
            return self.remove(number);
        }
        let cut = match self.open.get_mut(&number) {
            Some(handle) => {
                handle.changed = true;
                handle.file.set_len(len)
            }
            None if len == 0 => Ok(()),
            None => Err(io::Error::from(ErrorKind::NotFound)),
        };
        cut.map_err(|reason| Failure::on_file(Action::Cut, number, reason))
    }

    /// Syncs the file, and before it the folder where a file may have been made or removed in it.
    pub(crate) fn sync(&mut self, number: u32) -> Result<(), Failure> {
        let _ = self.find(number)?;
        self.sync_folder()?;
        if let Some(handle) = self.open.get_mut(&number) {
            let synced = handle.file.sync_all();
            synced.map_err(|reason| Failure::on_file(Action::Sync, number, reason))?;
            handle.changed = false;
        }
        Ok(())
    }
}
