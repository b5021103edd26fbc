// A call on the files of a disk in memory that may fail.
ghost use Rattle.std.specs.Prelude.{◌≡◌, ◌≢◌, ◌≤◌, ◌↔◌, false, List, ℕ, IsTrue, length, take};
ghost use Rattle.store_io.specs.Disk.{Holds, Torn, CutShort, Follows, Only, OthersStay};
ghost use Rattle.store_io.specs.Files.{reads_of, leaves_of};
ghost use Rattle.store_io.specs.Restart.{synced_of};

use crate::files::{cut_in, sync_in, write_in};
use crate::mem_file::MemFile;
use std::alloc::Global;

/// How a call goes.
#[derive(Clone, Copy, PartialEq, Eq, Drop)]
pub enum Outcome {
    /// It is made.
    Done,
    /// It is made as far as reads go, and fails.
    Made,
    /// It is not made, and fails.
    Stopped,
}

/// Whether the call succeeds.
pub fn write_by(
    outcome: Outcome,
    alloc: Global,
    files: &mut Vec<MemFile>,
    file: u32,
    at: usize,
    bytes: &[u8],
) -> bool
    requires { at ≤ length (reads_of files.old.items file) }
    ensures done { IsTrue result → outcome ≡ Outcome.Done }
    ensures stopped { outcome ≡ Outcome.Stopped → files.new.items ≡ files.old.items }
    ensures written { IsTrue result → Holds (reads_of files.old.items file) at bytes.now (reads_of files.new.items file) }
    ensures stop { Follows (Torn at (length bytes.now)) (leaves_of files.old.items file) (leaves_of files.new.items file) }
    ensures others { OthersStay file (reads_of files.old.items) (reads_of files.new.items) (leaves_of files.old.items) (leaves_of files.new.items) }
    ensures synced { synced_of files.new.items ≡ synced_of files.old.items }
{
    match outcome {
        Outcome::Done => write_in(alloc, files, file, at, bytes).is_ok(),
        Outcome::Made => {
            let _ = write_in(alloc, files, file, at, bytes);
            false
        }
        Outcome::Stopped => false,
    }
}

/// Whether the call succeeds.
pub fn cut_by(outcome: Outcome, files: &mut Vec<MemFile>, file: u32, len: usize) -> bool
    requires { len ≤ length (reads_of files.old.items file) }
    ensures done { IsTrue result ↔ (outcome ≡ Outcome.Done) }
    ensures made { outcome ≢ Outcome.Stopped → reads_of files.new.items file ≡ take len (reads_of files.old.items file) }
    ensures stopped { outcome ≡ Outcome.Stopped → files.new.items ≡ files.old.items }
    ensures cut { IsTrue result → reads_of files.new.items file ≡ take len (reads_of files.old.items file) }
    ensures stop { Follows (CutShort len) (leaves_of files.old.items file) (leaves_of files.new.items file) }
    ensures others { OthersStay file (reads_of files.old.items) (reads_of files.new.items) (leaves_of files.old.items) (leaves_of files.new.items) }
    ensures synced { synced_of files.new.items ≡ synced_of files.old.items }
{
    match outcome {
        Outcome::Done => {
            cut_in(files, file, len);
            true
        }
        Outcome::Made => {
            cut_in(files, file, len);
            false
        }
        Outcome::Stopped => false,
    }
}

/// Whether the call succeeds.
pub fn sync_by(outcome: Outcome, alloc: Global, files: &mut Vec<MemFile>, file: u32) -> bool
    ensures done { IsTrue result → outcome ≡ Outcome.Done }
    ensures unsynced { result ≡ false → leaves_of files.new.items ≡ leaves_of files.old.items }
    ensures durable { IsTrue result → Only (reads_of files.old.items file) (leaves_of files.new.items file) }
    ensures reads { reads_of files.new.items ≡ reads_of files.old.items }
    ensures stop { (c : List ℕ) → IsTrue (leaves_of files.new.items file c) → IsTrue (leaves_of files.old.items file c) }
    ensures others { OthersStay file (reads_of files.old.items) (reads_of files.new.items) (leaves_of files.old.items) (leaves_of files.new.items) }
    ensures synced { IsTrue result → synced_of files.new.items file ≡ reads_of files.old.items file }
    ensures not_synced { result ≡ false → synced_of files.new.items ≡ synced_of files.old.items }
    ensures others_synced { (f : ℕ) → f ≢ file → synced_of files.new.items f ≡ synced_of files.old.items f }
{
    match outcome {
        Outcome::Done => sync_in(alloc, files, file).is_ok(),
        Outcome::Made | Outcome::Stopped => false,
    }
}
