//! The dictionary log gets its header, where a stop left it without.

ghost use Rattle.std.specs.Prelude.{◌≡◌, ◌≤◌, ◌<◌, ℕ, IsTrue, List, length, map, IfErr, IfOk, OnOk, IsOk, IsErrOf};
ghost use Rattle.call_counts.specs.Counts.{Rose};
ghost use Rattle.store_io.specs.Disk.{Only, OthersStay};
ghost use Rattle.gated_log.specs.Log.{Each, payloads_of};
ghost use Rattle.gated_log.specs.Of.{IsOf};
ghost use Rattle.gated_log.specs.Reading.{IsReading};
ghost use Rattle.channel.specs.Images.{IsLogFile};
ghost use Rattle.recovery.specs.Images.{image_at, types_header};
ghost use Rattle.recovery.specs.Stored.{Stored};
ghost use Rattle.disk_opening.specs.ManyDisks.{NoneFell, OneRose};
ghost use Rattle.store_opening.specs.Left.{leaves_at};
ghost use Rattle.log_rollback.specs.Finished.{AllOthersStay, AreUntouchedFrom, HasSamePayloads};
ghost use Rattle.log_rollback.specs.Held.{Hold};

use gated_log::{GatedLog, Opening};
use store_io::Disk;
use store_opening::{OpenFault, taking_back_keeps_what_is_held};

/// Opens a dictionary log that was read to its end, on its disk.
fn finish_file<D: Disk>(disk: &mut D, opening: Opening) -> Result<GatedLog, OpenFault>
    requires file { opening.file ≡ 1 }
    requires ended { IsTrue opening.ended }
    requires read { IsTrue D.tells → IsReading opening (D.reads disk.old 1) }
    requires log { IsTrue D.tells → IsLogFile opening.header (D.reads disk.old 1) }
    requires synced { IsTrue D.tells → Only (D.reads disk.old 1) (D.leaves disk.old 1) }
    ensures header { IfOk result (λ log. (log.file ≡ 1) × (log.header ≡ opening.header)) }
    ensures of_disk { IsTrue D.tells → IfOk result (λ log. IsOf log (D.reads disk.new 1)) }
    ensures same { IsTrue D.tells → OnOk result (payloads_of (D.reads disk.new 1) ≡ payloads_of (D.reads disk.old 1)) }
    ensures synced { IsTrue D.tells → OnOk result (Only (D.reads disk.new 1) (D.leaves disk.new 1)) }
    ensures left { IsTrue D.tells → Each (D.leaves disk.new 1) (HasSamePayloads opening.header (D.reads disk.old 1)) }
    ensures untouched { 9 < opening.len → (disk.new ≡ disk.old) × IsOk result }
    ensures only_fault { IfErr result (λ e. e ≡ OpenFault.Fault) }
    ensures others { IsTrue D.tells → OthersStay 1 (D.reads disk.old) (D.reads disk.new) (D.leaves disk.old) (D.leaves disk.new) }
    ensures faults { D.faults disk.old ≤ D.faults disk.new }
    ensures cause { IsErrOf result OpenFault.Fault → Rose (D.faults disk.old) (D.faults disk.new) }
    ensures calm { OnOk result (D.faults disk.new ≡ D.faults disk.old) }
{
    match opening.finish(disk) {
        Ok(log) => Ok(log),
        Err(fault) => Err(fault.into()),
    }
}

/// Opens the dictionary log, which was read to its end, on the first of the disks of all channels. A file of at most 9 bytes gets its header; over a
/// longer one no disk is called.
pub fn finish_types<D: Disk>(disks: &mut [D], opening: Opening) -> Result<GatedLog, OpenFault>
    requires some { 0 < length disks.old }
    requires file { opening.file ≡ 1 }
    requires header { opening.header ≡ types_header (length disks.old) }
    requires ended { IsTrue opening.ended }
    requires read { IsTrue D.tells → IsReading opening (image_at (map D.reads disks.old) 0 1) }
    requires log { IsTrue D.tells → IsLogFile (types_header (length disks.old)) (image_at (map D.reads disks.old) 0 1) }
    requires synced { IsTrue D.tells → Only (image_at (map D.reads disks.old) 0 1) (leaves_at (map D.leaves disks.old) 0 1) }
    ensures header { IfOk result (λ log. (log.file ≡ 1) × (log.header ≡ types_header (length disks.old))) }
    ensures of_disk { IsTrue D.tells → IfOk result (λ log. IsOf log (image_at (map D.reads disks.new) 0 1)) }
    ensures same { IsTrue D.tells → OnOk result (payloads_of (image_at (map D.reads disks.new) 0 1) ≡ payloads_of (image_at (map D.reads disks.old) 0 1)) }
    ensures synced { IsTrue D.tells → OnOk result (Only (image_at (map D.reads disks.new) 0 1) (leaves_at (map D.leaves disks.new) 0 1)) }
    // Whatever it answers, what may be left of the file has the records of before; and what the disks held they hold.
    ensures left { IsTrue D.tells → Each (leaves_at (map D.leaves disks.new) 0 1) (HasSamePayloads (types_header (length disks.old)) (image_at (map D.reads disks.old) 0 1)) }
    ensures kept { IsTrue D.tells → (what : Stored) → Hold (map D.leaves disks.old) what → Hold (map D.leaves disks.new) what }
    ensures untouched { 9 < opening.len → (disks.new ≡ disks.old) × IsOk result }
    ensures only_fault { IfErr result (λ e. e ≡ OpenFault.Fault) }
    ensures others { IsTrue D.tells → AllOthersStay 1 (map D.reads disks.old) (map D.reads disks.new) (map D.leaves disks.old) (map D.leaves disks.new) }
    ensures elsewhere { AreUntouchedFrom 1 disks.old disks.new }
    ensures many { length disks.new ≡ length disks.old }
    ensures faults { NoneFell (map D.faults disks.old) (map D.faults disks.new) }
    ensures cause { IsErrOf result OpenFault.Fault → OneRose (map D.faults disks.old) (map D.faults disks.new) }
    ensures calm { OnOk result (map D.faults disks.new ≡ map D.faults disks.old) }
{
    taking_back_keeps_what_is_held();
    finish_file(&mut disks[0], opening)
}
