// The folders on a path.
use crate::failure::{Action, Failure, HostFault};
use std::alloc::Global;
use std::fs::File;
use std::io::ErrorKind;
use std::path::{Path, PathBuf};
use std::{fs, io};

/// The folder in which this path is; the one at the top is in none.
fn parent_of(path: &str) -> Option<Path<'_>> {
    match Path::new(path).parent() {
        Some(parent) if parent.as_os_str().is_empty() => Some(Path::new(".")),
        parent => parent,
    }
}

/// Whether it is a folder that nobody can sync, or one that this run may not open: no run made another in it.
fn is_closed_to_runs(reason: &io::Error) -> bool {
    matches!(
        reason.kind(),
        ErrorKind::PermissionDenied | ErrorKind::InvalidInput
    )
}

/// Syncs the folder around one that was found. A run before may have made that one and been stopped before its sync.
fn sync_around_found(rt: HostRuntime, path: &str) -> Result<(), Failure> {
    let Some(parent) = parent_of(path) else {
        return Ok(());
    };
    let synced = match File::open(&rt, parent) {
        Ok(around) => around.sync_all(),
        Err(reason) => Err(reason),
    };
    match synced {
        Err(reason) if !is_closed_to_runs(&reason) => Err(Failure::on_folder(Action::Sync, reason)),
        _ => Ok(()),
    }
}

/// Makes a folder, and syncs the one around it, which is opened before: where it can't be, none is made in it.
fn make(rt: HostRuntime, path: &str) -> Result<(), Failure> {
    let parent = parent_of(path).unwrap_or(Path::new("."));
    let opened = File::open(&rt, parent);
    let around = opened.map_err(|reason| Failure::on_folder(Action::Make, reason))?;
    let made = fs::create_dir(&rt, path);
    made.map_err(|reason| Failure::on_folder(Action::Make, reason))?;
    let synced = around.sync_all();
    synced.map_err(|reason| Failure::on_folder(Action::Sync, reason))
}

/// Makes the folder where it is missing, and has it synced into the one around it.
pub(crate) fn enter(rt: HostRuntime, path: &str) -> Result<(), Failure> {
    match fs::exists(&rt, path) {
        Ok(true) => sync_around_found(rt, path),
        Ok(false) => make(rt, path),
        Err(reason) => Err(Failure::on_folder(Action::Open, reason)),
    }
}

/// Makes the folders on the path that are missing, from the outermost to the innermost. Each, also one that is there,
/// is synced into the one around it before the next is made.
pub(crate) fn enter_all(rt: HostRuntime, alloc: Global, dir: &str) -> Result<(), HostFault> {
    let mut path = PathBuf::new(alloc);
    for part in Path::new(dir).components() {
        path.push(part)?;
        if let Err(failure) = enter(rt, path.as_str()) {
            return Err(HostFault::at(alloc, path.as_str(), failure));
        }
    }
    Ok(())
}
