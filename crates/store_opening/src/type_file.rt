//! The dictionary log is read, which stands on the disk of channel 0.

ghost use Rattle.std.specs.Prelude.{◌≡◌, ◌≤◌, ◌<◌, ℕ, IsTrue, length, map, IfOk, OnOk, IsErrOf};
ghost use Rattle.call_counts.specs.Counts.{Rose};
ghost use Rattle.gated_log.specs.Reading.{IsReading};
ghost use Rattle.store_io.specs.Disk.{Only};
ghost use Rattle.recovery.specs.Images.{image_at, types_header};
ghost use Rattle.recovery.specs.Stored.{HasTypes};
ghost use Rattle.disk_opening.specs.ManyDisks.{NoneFell, OneRose};
ghost use Rattle.store_opening.specs.Left.{LeaveNoMore, LeavesNoMore, leaves_at};
ghost use Rattle.store_opening.specs.WrongFiles.{IsWrongDictionary};
ghost use Rattle.store_opening.specs.declared.fault.Cause.{Cause as AnyCause};

use crate::fault::{OpenFault, of_dictionary};
use disk_opening::{DictionaryLog, read_dictionary};
use std::alloc::Global;
use store_io::Disk;

/// The file of the dictionary log.
const TYPES_FILE: u32 = 1;

/// Reads the dictionary log of so many channels on its disk. Its file is synced before.
fn read_file<D: Disk>(
    alloc: Global,
    disk: &mut D,
    channels: u32,
    window: &mut [u8],
) -> Result<DictionaryLog, OpenFault>
    requires channels { channels ≤ 64 }
    requires window { 1048576 ≤ length window.old }
    ensures opening { IfOk result (λ l. (l.opening.file ≡ 1) × (l.opening.header ≡ types_header channels) × IsTrue l.opening.ended) }
    ensures reading { IsTrue D.tells → IfOk result (λ l. IsReading l.opening (D.reads disk.old 1)) }
    ensures has { IsTrue D.tells → IfOk result (λ l. HasTypes channels (D.reads disk.old) l.dictionary) }
    ensures synced { IsTrue D.tells → OnOk result (Only (D.reads disk.old 1) (D.leaves disk.new 1)) }
    ensures damaged { IsTrue D.tells → (j : ℕ) (cause : AnyCause) → IsErrOf result (OpenFault.Damaged j cause) → (j ≡ 0) × IsWrongDictionary channels (D.reads disk.old 1) cause }
    ensures not_full { (bytes : ℕ) → IsErrOf result (OpenFault.Full bytes) → ⊥ }
    ensures reads { IsTrue D.tells → D.reads disk.new ≡ D.reads disk.old }
    ensures leaves { IsTrue D.tells → LeavesNoMore (D.leaves disk.old) (D.leaves disk.new) }
    ensures faults { D.faults disk.old ≤ D.faults disk.new }
    ensures cause { IsErrOf result OpenFault.Fault → Rose (D.faults disk.old) (D.faults disk.new) }
    ensures calm { OnOk result (D.faults disk.new ≡ D.faults disk.old) }
{
    disk.sync(TYPES_FILE)?;
    match read_dictionary(alloc, disk, channels, window) {
        Ok(log) => Ok(log),
        Err(fault) => Err(of_dictionary(fault)),
    }
}

/// Reads the dictionary log to its end, on the first of the disks of all channels. Its file is synced before; nothing is written. Of what is wrong the
/// first in the order of the records is told. The window has at least 1,048,576 bytes.
pub fn read_types<D: Disk>(
    alloc: Global,
    disks: &mut [D],
    window: &mut [u8],
) -> Result<DictionaryLog, OpenFault>
    requires some { 0 < length disks.old }
    requires channels { length disks.old ≤ 64 }
    requires window { 1048576 ≤ length window.old }
    ensures opening { IfOk result (λ l. (l.opening.file ≡ 1) × (l.opening.header ≡ types_header (length disks.old)) × IsTrue l.opening.ended) }
    ensures reading { IsTrue D.tells → IfOk result (λ l. IsReading l.opening (image_at (map D.reads disks.old) 0 1)) }
    ensures has { IsTrue D.tells → IfOk result (λ l. HasTypes (length disks.old) (image_at (map D.reads disks.old) 0) l.dictionary) }
    ensures synced { IsTrue D.tells → OnOk result (Only (image_at (map D.reads disks.old) 0 1) (leaves_at (map D.leaves disks.new) 0 1)) }
    ensures damaged { IsTrue D.tells → (j : ℕ) (cause : AnyCause) → IsErrOf result (OpenFault.Damaged j cause)
        → (j ≡ 0) × IsWrongDictionary (length disks.old) (image_at (map D.reads disks.old) 0 1) cause }
    ensures not_full { (bytes : ℕ) → IsErrOf result (OpenFault.Full bytes) → ⊥ }
    ensures many { length disks.new ≡ length disks.old }
    ensures reads { IsTrue D.tells → map D.reads disks.new ≡ map D.reads disks.old }
    ensures leaves { IsTrue D.tells → LeaveNoMore (map D.leaves disks.old) (map D.leaves disks.new) }
    ensures faults { NoneFell (map D.faults disks.old) (map D.faults disks.new) }
    ensures cause { IsErrOf result OpenFault.Fault → OneRose (map D.faults disks.old) (map D.faults disks.new) }
    ensures calm { OnOk result (map D.faults disks.new ≡ map D.faults disks.old) }
{
    let channels = disks.len() as u32;
    read_file(alloc, &mut disks[0], channels, window)
}
