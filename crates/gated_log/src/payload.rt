// A payload that is read.
ghost use Rattle.std.specs.Prelude.{◌≡◌, ◌≤◌, ◌<◌, ◌+◌, ◌-◌, ◌++◌, ℕ, IsTrue, false, length, take, drop, slice_index, IfOk, IfSome, IfNone, OnErr, OnOk};
ghost use Rattle.call_counts.specs.Counts.{Rose};
ghost use Rattle.gated_log.specs.Log.{is_whole, sized};

use crate::size::size_at;
use store_io::{Disk, DiskFailed};

/// Puts the payload of the record at this place at the front of the window, if a whole record and its
/// gate stand there, and answers the payload's length.
pub fn payload_at<D: Disk>(
    disk: &mut D,
    file: u32,
    at: u64,
    len: u64,
    window: &mut [u8],
) -> Result<Option<usize>, DiskFailed>
    requires window { 1048576 ≤ length window.old }
    requires within { at ≤ len }
    requires length { IsTrue D.tells → len ≡ length (D.reads disk.old file) }
    ensures fits { IfOk result (λ o. IfSome o (λ size. (1 ≤ size) × (size ≤ 1048576) × (at + 5 + size ≤ len))) }
    ensures long { IfOk result (λ o. IfSome o (λ size. length (take size window.new) ≡ size)) }
    ensures some { IsTrue D.tells → IfOk result (λ o. IfSome o (λ size. drop at (D.reads disk.old file) ≡ sized (take size window.new) ++ drop (at + (4 + size)) (D.reads disk.old file))) }
    ensures none { IsTrue D.tells → IfOk result (λ o. IfNone o (is_whole (drop at (D.reads disk.old file)) ≡ false)) }
    ensures reads { IsTrue D.tells → D.reads disk.new ≡ D.reads disk.old }
    ensures leaves { IsTrue D.tells → D.leaves disk.new ≡ D.leaves disk.old }
    ensures faults { D.faults disk.old ≤ D.faults disk.new }
    ensures cause { OnErr result (Rose (D.faults disk.old) (D.faults disk.new)) }
    ensures calm { OnOk result (D.faults disk.new ≡ D.faults disk.old) }
{
    match size_at(disk, file, at, len)? {
        Some(size) => {
            disk.read(file, at + 4, &mut window[..size])?;
            Ok(Some(size))
        }
        None => Ok(None),
    }
}
