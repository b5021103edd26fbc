//! A type is kept in the log of types.

ghost use Rattle.std.specs.Prelude.{◌≡◌, ◌≤◌, ◌<◌, ◌-◌, ◌^◌, ◌++◌, [], ◌∷◌, List, IsTrue, length, OnOk, OnErr, IfErr, IsErrOf, ◌⊎◌};
ghost use Rattle.store_io.specs.Disk.{Only, OthersStay};
ghost use Rattle.call_counts.specs.Counts.{Rose};
ghost use Rattle.gated_log.specs.Log.{Each};
ghost use Rattle.type_desc.specs.declared.desc.TypeDesc.{TypeDesc};
ghost use Rattle.type_dictionary.specs.Records.{IsNextRecord};
ghost use Rattle.plain_storage.specs.Logs.{IsOpen};
ghost use Rattle.plain_storage.specs.Types.{types_header, AreTypesHeld};

use gated_log::{AppendFault, GatedLog};
use store_io::Disk;

/// Adds the record of a type, of 1 to 1,048,576 bytes, to the log of types, and syncs it. The log is
/// to be given up after `Fault`. At `Full` nothing was written.
pub fn keep_type<D: Disk>(log: &mut GatedLog, disk: &mut D, text: &[u8]) -> Result<(), AppendFault>
    requires some { 1 ≤ length text.now }
    requires size { length text.now ≤ 1048576 }
    requires open_log { IsTrue D.tells → IsOpen 1 types_header log.old (D.reads disk.old 1) }
    ensures open_log { IsTrue D.tells → OnOk result (IsOpen 1 types_header log.new (D.reads disk.new 1)) }
    ensures clean { IsTrue D.tells → OnOk result (Only (D.reads disk.new 1) (D.leaves disk.new 1)) }

    // After `Ok` the file holds the type behind those before.
    ensures kept { IsTrue D.tells → (types : List TypeDesc) (desc : TypeDesc) → AreTypesHeld (D.reads disk.old 1) types → IsNextRecord types text.now desc
        → OnOk result (AreTypesHeld (D.reads disk.new 1) (types ++ desc ∷ [])) }

    // Whatever is answered, each image holds the types from before, or these and the new one.
    ensures stop { IsTrue D.tells → Only (D.reads disk.old 1) (D.leaves disk.old 1) → (types : List TypeDesc) (desc : TypeDesc) → AreTypesHeld (D.reads disk.old 1) types → IsNextRecord types text.now desc
        → Each (D.leaves disk.new 1) (λ image. AreTypesHeld image types ⊎ AreTypesHeld image (types ++ desc ∷ [])) }
    ensures others { IsTrue D.tells → OthersStay 1 (D.reads disk.old) (D.reads disk.new) (D.leaves disk.old) (D.leaves disk.new) }

    // `Full` exactly where the log is over its limit, and then the disk is not called.
    ensures full { 2 ^ 40 - 64 < log.old.length → IsErrOf result (AppendFault.Full log.old.length) × (disk.new ≡ disk.old) }
    ensures not_full { log.old.length ≤ 2 ^ 40 - 64 → IfErr result (λ e. e ≡ AppendFault.Fault) }
    ensures err { OnErr result (log.new ≡ log.old) }
    ensures faults { D.faults disk.old ≤ D.faults disk.new }
    ensures cause { IsErrOf result AppendFault.Fault → Rose (D.faults disk.old) (D.faults disk.new) }
{
    log.append(disk, text)?;
    Ok(())
}
