// The files of a disk in memory.
ghost use Rattle.std.specs.Prelude.{◌≡◌, ◌≢◌, ◌≤◌, ◌<◌, ◌+◌, List, ℕ, IsTrue, length, take, drop, IfSome, IfNone, OnOk, OnErr, IfOk};
ghost use Rattle.store_io.specs.Disk.{Holds, Torn, CutShort, Follows, Only, OthersStay};
ghost use Rattle.store_io.specs.Files.{place_of, reads_of, leaves_of};
ghost use Rattle.store_io.specs.Restart.{synced_of};

use crate::mem_file::MemFile;
use std::alloc::{AllocError, Global};

/// The place of the file of this number.
pub fn find(files: &[MemFile], file: u32) -> Option<usize>
    ensures some { IfSome result (λ place. (place ≡ place_of files.now file) × (place < length files.now)) }
    ensures none { IfNone result (place_of files.now file ≡ length files.now) }
{
    for (place, m) in files.iter().enumerate() {
        if m.number == file {
            return Some(place);
        }
    }
    None
}

/// The place of the file of this number, which is put there if need be.
pub fn find_or_make(alloc: Global, files: &mut Vec<MemFile>, file: u32) -> Result<usize, AllocError>
    ensures place { IfOk result (λ place. (place ≡ place_of files.new.items file) × (place < length files.new.items)) }
    ensures reads { reads_of files.new.items ≡ reads_of files.old.items }
    ensures leaves { leaves_of files.new.items ≡ leaves_of files.old.items }
    ensures synced { synced_of files.new.items ≡ synced_of files.old.items }
{
    match find(files, file) {
        Some(place) => Ok(place),
        None => {
            files.push(MemFile::new(alloc, file))?;
            Ok(files.len() - 1)
        }
    }
}

pub fn file_len(files: &[MemFile], file: u32) -> usize
    ensures { result ≡ length (reads_of files.now file) }
{
    match find(files, file) {
        Some(place) => files[place].bytes.len(),
        None => 0,
    }
}

fn copy_part(bytes: &[u8], at: usize, buf: &mut [u8])
    requires { at + length buf.old ≤ length bytes.now }
    ensures { buf.new ≡ take (length buf.old) (drop at bytes.now) }
{
    buf.copy_from_slice(&bytes[at..at + buf.len()]);
}

pub fn read_in(files: &[MemFile], file: u32, at: usize, buf: &mut [u8])
    requires { at + length buf.old ≤ length (reads_of files.now file) }
    ensures { buf.new ≡ take (length buf.old) (drop at (reads_of files.now file)) }
{
    match find(files, file) {
        Some(place) => copy_part(&files[place].bytes, at, buf),
        None => {}
    }
}

pub fn write_in(
    alloc: Global,
    files: &mut Vec<MemFile>,
    file: u32,
    at: usize,
    bytes: &[u8],
) -> Result<(), AllocError>
    requires { at ≤ length (reads_of files.old.items file) }
    ensures written { OnOk result (Holds (reads_of files.old.items file) at bytes.now (reads_of files.new.items file)) }
    ensures stop { Follows (Torn at (length bytes.now)) (leaves_of files.old.items file) (leaves_of files.new.items file) }
    ensures others { OthersStay file (reads_of files.old.items) (reads_of files.new.items) (leaves_of files.old.items) (leaves_of files.new.items) }
    ensures synced { synced_of files.new.items ≡ synced_of files.old.items }
{
    let place = find_or_make(alloc, files, file)?;
    files[place].write(alloc, at, bytes)
}

pub fn cut_in(files: &mut Vec<MemFile>, file: u32, len: usize)
    requires { len ≤ length (reads_of files.old.items file) }
    ensures cut { reads_of files.new.items file ≡ take len (reads_of files.old.items file) }
    ensures stop { Follows (CutShort len) (leaves_of files.old.items file) (leaves_of files.new.items file) }
    ensures others { OthersStay file (reads_of files.old.items) (reads_of files.new.items) (leaves_of files.old.items) (leaves_of files.new.items) }
    ensures synced { synced_of files.new.items ≡ synced_of files.old.items }
{
    match find(files, file) {
        Some(place) => files[place].cut(len),
        None => {}
    }
}

pub fn sync_in(alloc: Global, files: &mut Vec<MemFile>, file: u32) -> Result<(), AllocError>
    ensures unsynced { OnErr result (leaves_of files.new.items ≡ leaves_of files.old.items) }
    ensures durable { OnOk result (Only (reads_of files.old.items file) (leaves_of files.new.items file)) }
    ensures reads { reads_of files.new.items ≡ reads_of files.old.items }
    ensures stop { (c : List ℕ) → IsTrue (leaves_of files.new.items file c) → IsTrue (leaves_of files.old.items file c) }
    ensures others { OthersStay file (reads_of files.old.items) (reads_of files.new.items) (leaves_of files.old.items) (leaves_of files.new.items) }
    ensures synced { OnOk result (synced_of files.new.items file ≡ reads_of files.old.items file) }
    ensures not_synced { OnErr result (synced_of files.new.items ≡ synced_of files.old.items) }
    ensures others_synced { (f : ℕ) → f ≢ file → synced_of files.new.items f ≡ synced_of files.old.items f }
{
    match find(files, file) {
        Some(place) => files[place].sync(alloc),
        None => Ok(()),
    }
}
