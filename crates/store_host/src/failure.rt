// What failed on the host, in words.
use std::alloc::{AllocError, AllocFailed};
use std::io::ErrorKind;
use std::{fmt, io};
use thiserror::Error;

/// What was to be done.
#[derive(Clone, Copy, Debug, PartialEq, Eq, Drop)]
pub(crate) enum Action {
    Make,
    Open,
    Lock,
    Measure,
    Read,
    Write,
    Cut,
    Remove,
    Sync,
}

/// A call on the host that failed: what was to be done, to which file of a folder or to the folder itself, and the
/// system's reason.
#[derive(Clone, Copy)]
pub struct Failure {
    action: Action,
    file: Option<u32>,
    reason: io::Error,
}

impl Failure {
    pub(crate) fn on_file(action: Action, file: u32, reason: io::Error) -> Failure {
        Failure {
            action,
            file: Some(file),
            reason,
        }
    }

    pub(crate) fn on_folder(action: Action, reason: io::Error) -> Failure {
        Failure {
            action,
            file: None,
            reason,
        }
    }

    /// Whether a sync failed.
    pub(crate) fn is_of_sync(&self) -> bool {
        self.action == Action::Sync
    }

    /// Whether memory was wanting.
    pub(crate) fn is_of_memory(&self) -> bool {
        self.reason.kind() == ErrorKind::OutOfMemory
    }
}

/// The participle for a message.
fn done(action: Action) -> &'static str {
    match action {
        Action::Make => "made",
        Action::Open => "opened",
        Action::Lock => "locked",
        Action::Measure => "measured",
        Action::Read => "read",
        Action::Write => "written",
        Action::Cut => "cut",
        Action::Remove => "removed",
        Action::Sync => "synced",
    }
}

/// Plain words for the reasons that a user can mend.
fn plain_words(kind: ErrorKind) -> &'static str {
    match kind {
        ErrorKind::PermissionDenied => "no permission: ",
        ErrorKind::NotADirectory | ErrorKind::AlreadyExists => "a file is in the way: ",
        ErrorKind::IsADirectory => "a folder is in the way: ",
        ErrorKind::StorageFull => "the disk is full: ",
        ErrorKind::QuotaExceeded => "the quota is used up: ",
        ErrorKind::ReadOnlyFilesystem => "the disk cannot be written: ",
        ErrorKind::UnexpectedEof => "the file ends early: ",
        _ => "",
    }
}

impl fmt::Display for Failure {
    fn fmt<W: fmt::Write>(&self, f: &mut fmt::Formatter<W>) -> fmt::Result {
        let action = done(self.action);
        let words = plain_words(self.reason.kind());
        match self.file {
            Some(file) => write!(
                f,
                "its file f{file} could not be {action}: {words}{}",
                self.reason
            ),
            None => write!(
                f,
                "the folder could not be {action}: {words}{}",
                self.reason
            ),
        }
    }
}

/// Why a standard stream failed.
#[derive(Clone, Copy)]
pub struct StreamFailure {
    reason: io::Error,
}

impl StreamFailure {
    pub(crate) fn new(reason: io::Error) -> StreamFailure {
        StreamFailure { reason }
    }
}

/// The system's number for a call on a number without a file.
const NO_FILE: i32 = 9;

impl fmt::Display for StreamFailure {
    fn fmt<W: fmt::Write>(&self, f: &mut fmt::Formatter<W>) -> fmt::Result {
        let words = match (self.reason.kind(), self.reason.raw_os_error()) {
            (_, Some(NO_FILE)) => "it is closed: ",
            // A closed standard input is held as a folder.
            (ErrorKind::IsADirectory, _) => "it is closed, or a folder: ",
            (ErrorKind::BrokenPipe, _) => "nobody reads it: ",
            (kind, _) => plain_words(kind),
        };
        write!(f, "{words}{}", self.reason)
    }
}

impl fmt::Debug for Failure {
    fn fmt<W: fmt::Write>(&self, f: &mut fmt::Formatter<W>) -> fmt::Result {
        fmt::Display::fmt(self, f)
    }
}

/// Why a folder is not opened.
#[derive(Debug, Drop, Error)]
pub enum HostFault {
    #[error("there is not enough memory")]
    NoMemory,
    /// A folder on the path cannot be made, read, locked or synced.
    #[error("{failure}")]
    Folder { path: String, failure: Failure },
    /// Another run has the folder.
    #[error("the folder is in use by another run")]
    InUse,
}

impl From<AllocError> for HostFault {
    fn from(_: AllocError) -> Self {
        HostFault::NoMemory
    }
}

impl<T: Drop> From<AllocFailed<T>> for HostFault {
    fn from(_: AllocFailed<T>) -> Self {
        HostFault::NoMemory
    }
}

impl HostFault {
    /// The folder that failed, where it is another than the one that was to be opened.
    pub fn path(&self) -> Option<&str> {
        match self {
            HostFault::Folder { path, .. } => Some(path.as_str()),
            HostFault::NoMemory | HostFault::InUse => None,
        }
    }

    /// The failure at this path.
    pub(crate) fn at(alloc: std::alloc::Global, path: &str, failure: Failure) -> HostFault {
        if failure.is_of_memory() {
            return HostFault::NoMemory;
        }
        match String::from_str(alloc, path) {
            Ok(path) => HostFault::Folder { path, failure },
            Err(_) => HostFault::NoMemory,
        }
    }
}
