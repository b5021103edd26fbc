//! A chunk is written.
ghost use Rattle.std.specs.Prelude.{◌≡◌, ◌≤◌, IsTrue, length, OnOk, OnErr};
ghost use Rattle.store_io.specs.Disk.{Follows, Holds, Only, OthersStay, Torn};
ghost use Rattle.call_counts.specs.Counts.{Rose};

use store_io::{Disk, DiskFailed};

/// Writes the bytes at this place of a file, and syncs the file.
pub fn append_chunk<D: Disk>(
    disk: &mut D,
    file: u32,
    at: u64,
    bytes: &[u8],
) -> Result<(), DiskFailed>
    requires { IsTrue D.tells → at ≤ length (D.reads disk.old file) }

    // At `Ok` the bytes are what is read, and are in every image.
    ensures written { IsTrue D.tells → OnOk result (Holds (D.reads disk.old file) at bytes.now (D.reads disk.new file)) }
    ensures durable { IsTrue D.tells → OnOk result (Only (D.reads disk.new file) (D.leaves disk.new file)) }
    ensures stop { IsTrue D.tells → Follows (Torn at (length bytes.now)) (D.leaves disk.old file) (D.leaves disk.new file) }
    ensures others { IsTrue D.tells → OthersStay file (D.reads disk.old) (D.reads disk.new) (D.leaves disk.old) (D.leaves disk.new) }
    ensures faults { D.faults disk.old ≤ D.faults disk.new }
    ensures cause { OnErr result (Rose (D.faults disk.old) (D.faults disk.new)) }
    ensures calm { OnOk result (D.faults disk.new ≡ D.faults disk.old) }
    ensures read_calls { D.read_calls disk.new ≡ D.read_calls disk.old }
{
    disk.write(file, at, bytes)?;
    disk.sync(file)?;
    Ok(())
}
