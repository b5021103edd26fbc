//! What the root reaches over all channels is searched.

ghost use Rattle.std.specs.Prelude.{◌≡◌, ◌≤◌, ◌<◌, ℕ, IsTrue, length, map, IfOk, OnOk, IsErrOf};
ghost use Rattle.recovery.specs.Stored.{tables_at};
ghost use Rattle.disk_opening.specs.ManyDisks.{NoneFell, OneRose};
ghost use Rattle.disk_opening.specs.SearchFaults.{IsSearchedWhole};
ghost use Rattle.store_opening.specs.Damage.{IsSearchDamage};
ghost use Rattle.store_opening.specs.IndexesRead.{AreIndexed, HaveRowsOfIds};
ghost use Rattle.store_opening.specs.declared.fault.Cause.{Cause as AnyCause};

use crate::fault::{OpenFault, of_search};
use disk_opening::search;
use entity_index::EntityIndex;
use std::alloc::Global;
use std::collections::BTreeSet;
use store_io::Disk;
use type_dictionary::Dictionary;

/// The ids that the root reaches, over the disks of all channels and their indexes. Nothing is written. Each entity that is reached is read once. Told is
/// the first id that is met and is missing, or whose entity has not the form of a known type. The window has at least 1,048,576 bytes.
pub fn search_reached<D: Disk>(
    alloc: Global,
    disks: &mut [D],
    indexes: &[EntityIndex],
    types: &Dictionary,
    window: &mut [u8],
) -> Result<BTreeSet<u64>, OpenFault>
    requires some { 0 < length disks.old }
    requires channels { length disks.old ≤ 64 }
    requires many { length indexes.now ≡ length disks.old }
    requires window { 1048576 ≤ length window.old }
    requires rows { HaveRowsOfIds indexes.now }
    requires read { IsTrue D.tells → (m : ℕ) × (next : ℕ) × AreIndexed (map D.reads disks.old) indexes.now m next }
    ensures found { IsTrue D.tells → (m next : ℕ) → AreIndexed (map D.reads disks.old) indexes.now m next
        → IfOk result (λ found. IsSearchedWhole types.now (tables_at m (map D.reads disks.old)) found.keys) }
    ensures damaged { IsTrue D.tells → (m next : ℕ) → AreIndexed (map D.reads disks.old) indexes.now m next
        → (j : ℕ) (cause : AnyCause) → IsErrOf result (OpenFault.Damaged j cause) → IsSearchDamage (map D.reads disks.old) m types.now j cause }
    ensures not_full { (bytes : ℕ) → IsErrOf result (OpenFault.Full bytes) → ⊥ }
    ensures many { length disks.new ≡ length disks.old }
    ensures reads { IsTrue D.tells → map D.reads disks.new ≡ map D.reads disks.old }
    ensures leaves { IsTrue D.tells → map D.leaves disks.new ≡ map D.leaves disks.old }
    ensures faults { NoneFell (map D.faults disks.old) (map D.faults disks.new) }
    ensures cause { IsErrOf result OpenFault.Fault → OneRose (map D.faults disks.old) (map D.faults disks.new) }
    ensures calm { OnOk result (map D.faults disks.new ≡ map D.faults disks.old) }
{
    let channels = disks.len() as u32;
    match search(alloc, disks, indexes, types, window) {
        Ok(found) => Ok(found),
        Err(fault) => Err(of_search(channels, fault)),
    }
}
