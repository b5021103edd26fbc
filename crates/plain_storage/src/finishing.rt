//! Both logs of a disk are finished.

ghost use Rattle.std.specs.Prelude.{◌≡◌, ◌≤◌, ℕ, IsTrue, IfOk, OnOk, OnErr};
ghost use Rattle.store_io.specs.Disk.{Only, OthersStay};
ghost use Rattle.call_counts.specs.Counts.{Rose};
ghost use Rattle.gated_log.specs.Log.{payloads_of, Each};
ghost use Rattle.gated_log.specs.Reading.{IsReading};
ghost use Rattle.plain_storage.specs.Finishing.{AreSameLogs, IsSameLog};
ghost use Rattle.plain_storage.specs.Images.{AreClean, EachPair, OtherFilesStay};
ghost use Rattle.plain_storage.specs.Logs.{IsLogFile, IsOpen};
ghost use Rattle.plain_storage.specs.Stores.{plain_header};
ghost use Rattle.plain_storage.specs.Types.{types_header};

use gated_log::{GatedLog, Opening};
use store_io::{Disk, DiskFailed};

/// Finishes a log that was read to its end.
fn finish_log<D: Disk>(opening: Opening, disk: &mut D) -> Result<GatedLog, DiskFailed>
    requires ended { IsTrue opening.ended }
    requires reading { IsTrue D.tells → IsReading opening (D.reads disk.old opening.file) }
    requires log { IsTrue D.tells → IsLogFile opening.header (payloads_of (D.reads disk.old opening.file)) (D.reads disk.old opening.file) }
    ensures open_log { IsTrue D.tells → (file : ℕ) → opening.file ≡ file → IfOk result (λ log. IsOpen file opening.header log (D.reads disk.new file)) }
    ensures same { IsTrue D.tells → (file : ℕ) → opening.file ≡ file → OnOk result (IsSameLog opening.header (D.reads disk.old file) (D.reads disk.new file)) }
    ensures clean { IsTrue D.tells → (file : ℕ) → opening.file ≡ file → Only (D.reads disk.old file) (D.leaves disk.old file) → OnOk result (Only (D.reads disk.new file) (D.leaves disk.new file)) }
    ensures stop { IsTrue D.tells → (file : ℕ) → opening.file ≡ file → Only (D.reads disk.old file) (D.leaves disk.old file)
        → Each (D.leaves disk.new file) (IsSameLog opening.header (D.reads disk.old file)) }
    ensures others { IsTrue D.tells → (file : ℕ) → opening.file ≡ file → OthersStay file (D.reads disk.old) (D.reads disk.new) (D.leaves disk.old) (D.leaves disk.new) }
    ensures faults { D.faults disk.old ≤ D.faults disk.new }
    ensures cause { OnErr result (Rose (D.faults disk.old) (D.faults disk.new)) }
{
    let log = opening.finish(disk)?;
    Ok(log)
}

/// Finishes both logs. A short file gets a header, and is synced; a longer one is left as it is.
pub fn finish_logs<D: Disk>(
    stores: Opening,
    types: Opening,
    disk: &mut D,
) -> Result<(GatedLog, GatedLog), DiskFailed>
    requires stores { (stores.file ≡ 0) × (stores.header ≡ plain_header) × IsTrue stores.ended }
    requires types { (types.file ≡ 1) × (types.header ≡ types_header) × IsTrue types.ended }
    requires reading { IsTrue D.tells → IsReading stores (D.reads disk.old 0) × IsReading types (D.reads disk.old 1) }
    requires logs { IsTrue D.tells → AreSameLogs (D.reads disk.old) (D.reads disk.old 0) (D.reads disk.old 1) }
    ensures open_logs { IsTrue D.tells → IfOk result (λ p. IsOpen 0 plain_header p.0 (D.reads disk.new 0) × IsOpen 1 types_header p.1 (D.reads disk.new 1)) }
    ensures same { IsTrue D.tells → OnOk result (AreSameLogs (D.reads disk.old) (D.reads disk.new 0) (D.reads disk.new 1)) }
    ensures clean { IsTrue D.tells → AreClean (D.reads disk.old) (D.leaves disk.old) → OnOk result (AreClean (D.reads disk.new) (D.leaves disk.new)) }

    // Whatever is answered, each image has the payloads that the files had.
    ensures stop { IsTrue D.tells → AreClean (D.reads disk.old) (D.leaves disk.old) → EachPair (D.leaves disk.new) (AreSameLogs (D.reads disk.old)) }
    ensures others { IsTrue D.tells → OtherFilesStay (D.reads disk.old) (D.reads disk.new) (D.leaves disk.old) (D.leaves disk.new) }
    ensures faults { D.faults disk.old ≤ D.faults disk.new }
    ensures cause { OnErr result (Rose (D.faults disk.old) (D.faults disk.new)) }
{
    let stores_log = finish_log(stores, disk)?;
    let types_log = finish_log(types, disk)?;
    Ok((stores_log, types_log))
}
