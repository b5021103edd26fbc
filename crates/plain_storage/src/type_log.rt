//! The log of type records on a disk.

ghost use Rattle.std.specs.Prelude.{◌≡◌, ◌≤◌, ◌<◌, ◌++◌, [], ◌∷◌, ℕ, List, IsTrue, length, IfOk, OnOk, IsErrOf, ◌⊎◌};
ghost use Rattle.std.specs.List.{AllByRecursion};
ghost use Rattle.call_counts.specs.Counts.{Rose};
ghost use Rattle.gated_log.specs.Log.{payloads_of, IsNoLog};
ghost use Rattle.gated_log.specs.Reading.{IsReading, rest_of};
ghost use Rattle.type_desc.specs.declared.desc.TypeDesc.{TypeDesc};
ghost use Rattle.type_dictionary.specs.Records.{IsNextRecord, IsRecorded, GainsRecord};
ghost use Rattle.plain_storage.specs.Logs.{IsLogFile};
ghost use Rattle.plain_storage.specs.Types.{types_header, AreTypesHeld, IsTypesFault, AreRecords};

use crate::fault::OpenFault;
use gated_log::{Opening, begin};
use std::alloc::Global;
use store_io::Disk;
use type_dictionary::Dictionary;

/// The file of the log of types.
pub const TYPES_FILE: u32 = 1;

/// A file with the log of types begins with this.
pub const TYPES_HEADER: [u8; 8] = [69, 83, 68, 49, 1, 0, 1, 0];

/// Adds the type of which the text is the next record.
fn add(types: &mut Dictionary, text: &[u8]) -> Result<(), OpenFault>
    ensures added { OnOk result (GainsRecord types.old types.new text.now) }
    ensures only { (desc : TypeDesc) → IsNextRecord types.old text.now desc → OnOk result (types.new ≡ types.old ++ desc ∷ []) }
    ensures damaged { IsErrOf result OpenFault.Damaged → (desc : TypeDesc) → ¬ (IsNextRecord types.old text.now desc) }
    ensures not_fault { IsErrOf result OpenFault.Fault → ⊥ }
{
    types.add_record(text)?;
    Ok(())
}

/// The types of which the payloads that are still to come are the records.
fn read_types<D: Disk>(
    alloc: Global,
    opening: &mut Opening,
    disk: &mut D,
    window: &mut [u8],
) -> Result<Dictionary, OpenFault>
    requires window { 1048576 ≤ length window.old }
    requires file { opening.old.file ≡ 1 }
    requires first { opening.old.count ≡ 0 }
    requires reading { IsTrue D.tells → IsReading opening.old (D.reads disk.old 1) }
    ensures file { opening.new.file ≡ 1 }
    ensures header { opening.new.header ≡ opening.old.header }
    ensures ended { IfOk result (λ _. IsTrue opening.new.ended) }
    ensures reading { IsTrue D.tells → IsReading opening.new (D.reads disk.old 1) }
    ensures log { IsTrue D.tells → OnOk result (IsLogFile opening.old.header (payloads_of (D.reads disk.old 1)) (D.reads disk.old 1)) }
    ensures right { IfOk result (λ types. (length types ≤ 65536) × AllByRecursion IsRecorded types) }
    ensures read { IsTrue D.tells → IfOk result (AreRecords [] (rest_of opening.old (D.reads disk.old 1))) }

    // `Damaged` exactly where the file is no log, or its payloads are no records of types.
    ensures damaged { IsTrue D.tells → IsErrOf result OpenFault.Damaged → ((9 < length (D.reads disk.old 1)) × IsNoLog opening.old.header (D.reads disk.old 1))
        ⊎ ((all : List TypeDesc) → ¬ (AreRecords [] (rest_of opening.old (D.reads disk.old 1)) all)) }
    ensures reads { IsTrue D.tells → D.reads disk.new ≡ D.reads disk.old }
    ensures leaves { IsTrue D.tells → D.leaves disk.new ≡ D.leaves disk.old }
    ensures faults { D.faults disk.old ≤ D.faults disk.new }
    ensures cause { IsErrOf result OpenFault.Fault → Rose (D.faults disk.old) (D.faults disk.new) }
{
    let mut types = Dictionary::new(alloc);
    'types: while let Some(n) = opening.next(disk, window)? {
        add(&mut types, &window[..n])?;
    }
    Ok(types)
}

/// Reads the log of types to its end, and gives its types. Nothing is written.
pub fn read_types_log<D: Disk>(
    alloc: Global,
    disk: &mut D,
    window: &mut [u8],
) -> Result<(Opening, Dictionary), OpenFault>
    requires { 1048576 ≤ length window.old }
    ensures opening { IfOk result (λ p. (p.0.file ≡ 1) × (p.0.header ≡ types_header) × IsTrue p.0.ended) }
    ensures reading { IsTrue D.tells → IfOk result (λ p. IsReading p.0 (D.reads disk.old 1)) }
    ensures right { IfOk result (λ p. (length p.1 ≤ 65536) × AllByRecursion IsRecorded p.1) }
    ensures held { IsTrue D.tells → IfOk result (λ p. AreTypesHeld (D.reads disk.old 1) p.1) }
    ensures damaged { IsTrue D.tells → IsErrOf result OpenFault.Damaged → IsTypesFault (D.reads disk.old 1) }
    ensures reads { IsTrue D.tells → D.reads disk.new ≡ D.reads disk.old }
    ensures leaves { IsTrue D.tells → D.leaves disk.new ≡ D.leaves disk.old }
    ensures faults { D.faults disk.old ≤ D.faults disk.new }
    ensures cause { IsErrOf result OpenFault.Fault → Rose (D.faults disk.old) (D.faults disk.new) }
{
    let mut opening = begin(disk, TYPES_FILE, TYPES_HEADER)?;
    let types = read_types(alloc, &mut opening, disk, window)?;
    Ok((opening, types))
}
