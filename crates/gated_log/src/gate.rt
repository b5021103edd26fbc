// A gate, read and opened.
ghost use Rattle.std.specs.Prelude.{◌≡◌, ◌≤◌, ◌<◌, [], ◌∷◌, ℕ, List, IsTrue, length, slice_index, IfOk, OnOk, OnErr};
ghost use Rattle.store_io.specs.Disk.{Holds, Torn, Follows, Only, OthersStay};
ghost use Rattle.call_counts.specs.Counts.{Rose};

use store_io::{Disk, DiskFailed};

/// A gate behind which the next record is part of the log. Any other byte ends the log.
pub const OPEN: u8 = 1;

/// The gate behind a record that is written.
pub const CLOSED: u8 = 0;

/// The gate at this place.
pub fn gate_at<D: Disk>(disk: &mut D, file: u32, at: u64) -> Result<u8, DiskFailed>
    requires { IsTrue D.tells → at < length (D.reads disk.old file) }
    ensures value { IsTrue D.tells → IfOk result (λ gate. gate ≡ slice_index (D.reads disk.old file) at) }
    ensures reads { IsTrue D.tells → D.reads disk.new ≡ D.reads disk.old }
    ensures leaves { IsTrue D.tells → D.leaves disk.new ≡ D.leaves disk.old }
    ensures faults { D.faults disk.old ≤ D.faults disk.new }
    ensures cause { OnErr result (Rose (D.faults disk.old) (D.faults disk.new)) }
    ensures calm { OnOk result (D.faults disk.new ≡ D.faults disk.old) }
{
    let mut gate = [0u8; 1];
    disk.read(file, at, &mut gate)?;
    Ok(gate[0])
}

/// Opens the gate at this place, on the disk too.
pub fn open_gate<D: Disk>(disk: &mut D, file: u32, at: u64) -> Result<(), DiskFailed>
    requires { IsTrue D.tells → at < length (D.reads disk.old file) }
    ensures opened { IsTrue D.tells → OnOk result (Holds (D.reads disk.old file) at (1 ∷ []) (D.reads disk.new file)) }
    ensures durable { IsTrue D.tells → OnOk result (Only (D.reads disk.new file) (D.leaves disk.new file)) }
    ensures stop { IsTrue D.tells → Follows (Torn at 1) (D.leaves disk.old file) (D.leaves disk.new file) }
    ensures others { IsTrue D.tells → OthersStay file (D.reads disk.old) (D.reads disk.new) (D.leaves disk.old) (D.leaves disk.new) }
    ensures faults { D.faults disk.old ≤ D.faults disk.new }
    ensures cause { OnErr result (Rose (D.faults disk.old) (D.faults disk.new)) }
    ensures calm { OnOk result (D.faults disk.new ≡ D.faults disk.old) }
    ensures read_calls { D.read_calls disk.new ≡ D.read_calls disk.old }
{
    disk.write(file, at, &[OPEN])?;
    disk.sync(file)?;
    Ok(())
}
