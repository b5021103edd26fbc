// One record, written behind the last gate.
ghost use Rattle.std.specs.Prelude.{◌≡◌, ◌≤◌, ◌+◌, ◌^◌, ◌++◌, [], ◌∷◌, ℕ, List, IsTrue, length, OnOk, OnErr};
ghost use Rattle.store_io.specs.Disk.{Follows, Only, OthersStay};
ghost use Rattle.call_counts.specs.Counts.{Rose};
ghost use Rattle.gated_log.specs.Log.{payloads_of, length_of, record_of, IsLogOf, IsBeforeOrAfter, Each, Keeps, StandsAt};

use crate::gate::{CLOSED, open_gate};
use field_bytes::write_u32_at;
use store_io::{Disk, DiskFailed};

/// Writes the record with a closed gate.
fn write_record<D: Disk>(disk: &mut D, file: u32, at: u64, payload: &[u8]) -> Result<(), DiskFailed>
    requires size { length payload.now ≤ 1048576 }
    requires small { at ≤ 2 ^ 40 }
    requires within { IsTrue D.tells → at ≤ length (D.reads disk.old file) }
    ensures written { IsTrue D.tells → OnOk result (StandsAt at (record_of payload.now) (D.reads disk.old file) (D.reads disk.new file)) }
    ensures stop { IsTrue D.tells → Follows (Keeps at) (D.leaves disk.old file) (D.leaves disk.new file) }
    ensures others { IsTrue D.tells → OthersStay file (D.reads disk.old) (D.reads disk.new) (D.leaves disk.old) (D.leaves disk.new) }
    ensures faults { D.faults disk.old ≤ D.faults disk.new }
    ensures cause { OnErr result (Rose (D.faults disk.old) (D.faults disk.new)) }
    ensures calm { OnOk result (D.faults disk.new ≡ D.faults disk.old) }
    ensures read_calls { D.read_calls disk.new ≡ D.read_calls disk.old }
{
    let mut size = [0u8; 4];
    write_u32_at(&mut size, 0, payload.len() as u32);
    disk.write(file, at, &size)?;
    disk.write(file, at + 4, payload)?;
    disk.write(file, at + 4 + payload.len() as u64, &[CLOSED])?;
    Ok(())
}

/// Writes the record behind the last gate of a log, and opens that gate once the record is on the disk.
pub fn add_record<D: Disk>(
    disk: &mut D,
    file: u32,
    end: u64,
    payload: &[u8],
) -> Result<(), DiskFailed>
    requires some { 1 ≤ length payload.now }
    requires size { length payload.now ≤ 1048576 }
    requires begun { 9 ≤ end }
    requires small { end ≤ 2 ^ 40 }
    requires end { IsTrue D.tells → end ≡ length_of (payloads_of (D.reads disk.old file)) }
    requires within { IsTrue D.tells → end ≤ length (D.reads disk.old file) }
    ensures added { IsTrue D.tells → (header : List ℕ) → IsLogOf header (payloads_of (D.reads disk.old file)) (D.reads disk.old file)
        → OnOk result (IsLogOf header (payloads_of (D.reads disk.old file) ++ payload.now ∷ []) (D.reads disk.new file)) }
    ensures durable { IsTrue D.tells → OnOk result (Only (D.reads disk.new file) (D.leaves disk.new file)) }
    ensures stop { IsTrue D.tells → (header : List ℕ) → IsLogOf header (payloads_of (D.reads disk.old file)) (D.reads disk.old file)
        → Each (D.leaves disk.old file) (IsLogOf header (payloads_of (D.reads disk.old file)))
        → Each (D.leaves disk.new file) (IsBeforeOrAfter header (payloads_of (D.reads disk.old file)) payload.now) }
    ensures others { IsTrue D.tells → OthersStay file (D.reads disk.old) (D.reads disk.new) (D.leaves disk.old) (D.leaves disk.new) }
    ensures faults { D.faults disk.old ≤ D.faults disk.new }
    ensures cause { OnErr result (Rose (D.faults disk.old) (D.faults disk.new)) }
    ensures calm { OnOk result (D.faults disk.new ≡ D.faults disk.old) }
    ensures read_calls { D.read_calls disk.new ≡ D.read_calls disk.old }
{
    write_record(disk, file, end, payload)?;
    disk.sync(file)?;
    open_gate(disk, file, end - 1)?;
    Ok(())
}
