//! The transactions logs of all channels are read.

ghost use Rattle.std.specs.Prelude.{◌≡◌, ◌≤◌, ◌<◌, ℕ, IsTrue, length, map, IfOk, OnOk, IsErrOf};
ghost use Rattle.call_counts.specs.Counts.{Rose};
ghost use Rattle.store_io.specs.Disk.{Only};
ghost use Rattle.recovery.specs.Images.{image_at};
ghost use Rattle.disk_opening.specs.ManyDisks.{NoneFell, OneRose};
ghost use Rattle.store_opening.specs.Damage.{IsFirstWrongLog};
ghost use Rattle.store_opening.specs.Left.{AreSyncedBelow, LeaveNoMore, LeavesNoMore, leaves_at};
ghost use Rattle.store_opening.specs.LogsRead.{AreLogsOpen, AreLogsRead, IsLogOpen, IsLogRead};
ghost use Rattle.store_opening.specs.WrongFiles.{IsWrongLog};
ghost use Rattle.store_opening.specs.declared.fault.Cause.{Cause as AnyCause};

use crate::fault::{OpenFault, of_log};
use disk_opening::{ChannelLog, read_log};
use std::alloc::Global;
use store_io::Disk;

/// The file of the transactions log.
pub(crate) const LOG_FILE: u32 = 0;

/// Reads the transactions log of a channel, of so many. Its file is synced before.
fn read_file<D: Disk>(
    alloc: Global,
    disk: &mut D,
    channel: u32,
    channels: u32,
    window: &mut [u8],
) -> Result<ChannelLog, OpenFault>
    requires number { channel < channels }
    requires channels { channels ≤ 64 }
    requires window { 1048576 ≤ length window.old }
    ensures open_ { IfOk result (IsLogOpen channels channel) }
    ensures read { IsTrue D.tells → IfOk result (IsLogRead channels channel (D.reads disk.old)) }
    ensures synced { IsTrue D.tells → OnOk result (Only (D.reads disk.old 0) (D.leaves disk.new 0)) }
    ensures damaged { IsTrue D.tells → (j : ℕ) (cause : AnyCause) → IsErrOf result (OpenFault.Damaged j cause) → (j ≡ channel) × IsWrongLog channels channel (D.reads disk.old 0) cause }
    ensures not_full { (bytes : ℕ) → IsErrOf result (OpenFault.Full bytes) → ⊥ }
    ensures reads { IsTrue D.tells → D.reads disk.new ≡ D.reads disk.old }
    ensures leaves { IsTrue D.tells → LeavesNoMore (D.leaves disk.old) (D.leaves disk.new) }
    ensures faults { D.faults disk.old ≤ D.faults disk.new }
    ensures cause { IsErrOf result OpenFault.Fault → Rose (D.faults disk.old) (D.faults disk.new) }
    ensures calm { OnOk result (D.faults disk.new ≡ D.faults disk.old) }
{
    disk.sync(LOG_FILE)?;
    match read_log(alloc, disk, channel, channels, window) {
        Ok(log) => Ok(log),
        Err(fault) => Err(of_log(channel, fault)),
    }
}

/// Reads the transactions log of the channel at this place.
fn read_at<D: Disk>(
    alloc: Global,
    disks: &mut [D],
    place: usize,
    window: &mut [u8],
) -> Result<ChannelLog, OpenFault>
    requires within { place < length disks.old }
    requires channels { length disks.old ≤ 64 }
    requires window { 1048576 ≤ length window.old }
    ensures open_ { IfOk result (IsLogOpen (length disks.old) place) }
    ensures read { IsTrue D.tells → IfOk result (IsLogRead (length disks.old) place (image_at (map D.reads disks.old) place)) }
    ensures synced { IsTrue D.tells → OnOk result (Only (image_at (map D.reads disks.old) place 0) (leaves_at (map D.leaves disks.new) place 0)) }
    ensures damaged { IsTrue D.tells → (j : ℕ) (cause : AnyCause) → IsErrOf result (OpenFault.Damaged j cause)
        → (j ≡ place) × IsWrongLog (length disks.old) place (image_at (map D.reads disks.old) place 0) cause }
    ensures not_full { (bytes : ℕ) → IsErrOf result (OpenFault.Full bytes) → ⊥ }
    ensures many { length disks.new ≡ length disks.old }
    ensures reads { IsTrue D.tells → map D.reads disks.new ≡ map D.reads disks.old }
    ensures leaves { IsTrue D.tells → LeaveNoMore (map D.leaves disks.old) (map D.leaves disks.new) }
    ensures faults { NoneFell (map D.faults disks.old) (map D.faults disks.new) }
    ensures cause { IsErrOf result OpenFault.Fault → OneRose (map D.faults disks.old) (map D.faults disks.new) }
    ensures calm { OnOk result (map D.faults disks.new ≡ map D.faults disks.old) }
{
    let channels = disks.len() as u32;
    read_file(alloc, &mut disks[place], place as u32, channels, window)
}

/// Reads the transactions logs of all channels, whose disks these are, to their ends. Each file is synced before; nothing is written. Of what is wrong the
/// first is told, by rising channel. The window has at least 1,048,576 bytes.
pub fn read_logs<D: Disk>(
    alloc: Global,
    disks: &mut [D],
    window: &mut [u8],
) -> Result<Vec<ChannelLog>, OpenFault>
    requires channels { length disks.old ≤ 64 }
    requires window { 1048576 ≤ length window.old }
    ensures count { IfOk result (λ logs. length logs.items ≡ length disks.old) }
    ensures open_ { IfOk result (λ logs. AreLogsOpen (length disks.old) logs.items) }
    ensures read { IsTrue D.tells → IfOk result (λ logs. AreLogsRead (length disks.old) (map D.reads disks.old) logs.items) }
    ensures synced { IsTrue D.tells → OnOk result (AreSyncedBelow (length disks.old) 0 (map D.reads disks.old) (map D.leaves disks.new)) }
    ensures damaged { IsTrue D.tells → (j : ℕ) (cause : AnyCause) → IsErrOf result (OpenFault.Damaged j cause) → IsFirstWrongLog (map D.reads disks.old) j cause }
    ensures not_full { (bytes : ℕ) → IsErrOf result (OpenFault.Full bytes) → ⊥ }
    ensures many { length disks.new ≡ length disks.old }
    ensures reads { IsTrue D.tells → map D.reads disks.new ≡ map D.reads disks.old }
    ensures leaves { IsTrue D.tells → LeaveNoMore (map D.leaves disks.old) (map D.leaves disks.new) }
    ensures faults { NoneFell (map D.faults disks.old) (map D.faults disks.new) }
    ensures cause { IsErrOf result OpenFault.Fault → OneRose (map D.faults disks.old) (map D.faults disks.new) }
    ensures calm { OnOk result (map D.faults disks.new ≡ map D.faults disks.old) }
{
    let mut logs = Vec::new(alloc);
    'logs: for place in 0..disks.len() {
        let log = read_at(alloc, disks, place, window)?;
        logs.push(log)?;
    }
    Ok(logs)
}
