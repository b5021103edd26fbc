//! A store is kept in the log of stores.

ghost use Rattle.std.specs.Prelude.{◌≡◌, ◌≤◌, ◌<◌, ◌-◌, ◌+◌, ◌^◌, ◌++◌, [], ◌∷◌, ℕ, List, IsTrue, length, OnOk, IsErrOf, ◌⊎◌};
ghost use Rattle.store_io.specs.Disk.{Only, OthersStay};
ghost use Rattle.call_counts.specs.Counts.{Rose};
ghost use Rattle.gated_log.specs.Log.{Each};
ghost use Rattle.graph_model.specs.declared.ask.StorageFault.{StorageFault as AnyFault};
ghost use Rattle.graph_model.specs.declared.entity.StoreOp.{StoreOp as AnyStore};
ghost use Rattle.plain_storage.specs.Logs.{IsOpen, IsOverLimit};
ghost use Rattle.plain_storage.specs.Serving.{IsGoodStore, IsNextStore, asked_fault};
ghost use Rattle.plain_storage.specs.Stores.{HoldsStores, plain_header};
ghost use Rattle.graph_model.specs.Stores.{next_after};

use crate::payload::spell_store;
use gated_log::{AppendFault, GatedLog};
use graph_model::{StorageFault, StoreOp};
use std::alloc::Global;
use store_io::Disk;

/// Adds a payload, of 1 to 1,048,576 bytes, to the log of stores, and syncs it. The log is to be given up after `Fault`. At `Full` nothing was written.
fn keep_payload<D: Disk>(
    log: &mut GatedLog,
    disk: &mut D,
    payload: &[u8],
) -> Result<(), AppendFault>
    requires some { 1 ≤ length payload.now }
    requires size { length payload.now ≤ 1048576 }
    requires open_log { IsTrue D.tells → IsOpen 0 plain_header log.old (D.reads disk.old 0) }
    ensures open_log { IsTrue D.tells → OnOk result (IsOpen 0 plain_header log.new (D.reads disk.new 0)) }
    ensures clean { IsTrue D.tells → OnOk result (Only (D.reads disk.new 0) (D.leaves disk.new 0)) }

    // After `Ok` the file holds the store behind those before.
    ensures kept { IsTrue D.tells → (stores : List AnyStore) (op : AnyStore) → HoldsStores (D.reads disk.old 0) stores → IsNextStore stores payload.now op
        → OnOk result (HoldsStores (D.reads disk.new 0) (stores ++ op ∷ [])) }

    // Whatever is answered, each image holds the stores from before, or these and the new one.
    ensures stop { IsTrue D.tells → Only (D.reads disk.old 0) (D.leaves disk.old 0) → (stores : List AnyStore) (op : AnyStore) → HoldsStores (D.reads disk.old 0) stores → IsNextStore stores payload.now op
        → Each (D.leaves disk.new 0) (λ image. HoldsStores image stores ⊎ HoldsStores image (stores ++ op ∷ [])) }
    ensures others { IsTrue D.tells → OthersStay 0 (D.reads disk.old) (D.reads disk.new) (D.leaves disk.old) (D.leaves disk.new) }
    ensures count { OnOk result (log.new.count ≡ log.old.count + 1) }

    // `Full` only where the log is over its limit, and then the disk is not called.
    ensures full { IsTrue D.tells → (at : ℕ) → IsErrOf result (AppendFault.Full at) → IsOverLimit (D.reads disk.new 0) }
    ensures full_stays { (at : ℕ) → IsErrOf result (AppendFault.Full at) → disk.new ≡ disk.old }
    ensures faults { D.faults disk.old ≤ D.faults disk.new }
    ensures cause { IsErrOf result AppendFault.Fault → Rose (D.faults disk.old) (D.faults disk.new) }
{
    log.append(disk, payload)?;
    Ok(())
}

/// The number of the store that is due.
pub fn number_due(log: &GatedLog) -> u64
    ensures { log.now.count < log.now.length → result ≡ log.now.count + 1 }
{
    // No log has more payloads than bytes.
    log.length().min(log.count().saturating_add(1))
}

/// What a fault of a log is to who asks, where the store of this number is due.
pub fn storage_fault(fault: AppendFault, number: u64) -> StorageFault
    ensures { result ≡ asked_fault number fault }
{
    match fault {
        AppendFault::Fault => StorageFault::Fault,
        AppendFault::Full { .. } => StorageFault::Full { number },
    }
}

/// Adds a store to the log of stores, and syncs it. The log is to be given up after `Fault`. At `Full` nothing was written.
pub fn keep_store<D: Disk>(
    alloc: Global,
    log: &mut GatedLog,
    disk: &mut D,
    op: &StoreOp,
) -> Result<(), StorageFault>
    requires good { IsGoodStore op.now }
    requires open_log { IsTrue D.tells → IsOpen 0 plain_header log.old (D.reads disk.old 0) }
    ensures open_log { IsTrue D.tells → OnOk result (IsOpen 0 plain_header log.new (D.reads disk.new 0)) }
    ensures clean { IsTrue D.tells → OnOk result (Only (D.reads disk.new 0) (D.leaves disk.new 0)) }

    // After `Ok` the file holds the store behind those before.
    ensures kept { IsTrue D.tells → (stores : List AnyStore) → HoldsStores (D.reads disk.old 0) stores → next_after 1024 stores ≤ op.now.next_id
        → OnOk result (HoldsStores (D.reads disk.new 0) (stores ++ op.now ∷ [])) }

    // Whatever is answered, each image holds the stores from before, or these and the new one.
    ensures stop { IsTrue D.tells → Only (D.reads disk.old 0) (D.leaves disk.old 0) → (stores : List AnyStore) → HoldsStores (D.reads disk.old 0) stores → next_after 1024 stores ≤ op.now.next_id
        → Each (D.leaves disk.new 0) (λ image. HoldsStores image stores ⊎ HoldsStores image (stores ++ op.now ∷ [])) }
    ensures others { IsTrue D.tells → OthersStay 0 (D.reads disk.old) (D.reads disk.new) (D.leaves disk.old) (D.leaves disk.new) }
    ensures count { OnOk result (log.new.count ≡ log.old.count + 1) }

    // `Full` only where the log is over its limit; it tells the number that is due, and the disk is not called.
    ensures full { IsTrue D.tells → (number : ℕ) → IsErrOf result (AnyFault.Full number) → IsOverLimit (D.reads disk.new 0) }
    ensures full_stays { (number : ℕ) → IsErrOf result (AnyFault.Full number) → disk.new ≡ disk.old }
    ensures full_number { IsTrue D.tells → (number : ℕ) → IsErrOf result (AnyFault.Full number) → number ≡ log.old.count + 1 }
    ensures not_broken { (id : ℕ) → IsErrOf result (AnyFault.Broken id) → ⊥ }
    ensures faults { D.faults disk.old ≤ D.faults disk.new }
    ensures cause { IsErrOf result AnyFault.Fault → Rose (D.faults disk.old) (D.faults disk.new) }
{
    let number = number_due(log);
    let Ok(payload) = spell_store(alloc, number, op) else {
        return Err(StorageFault::NoMemory);
    };
    match keep_payload(log, disk, &payload) {
        Ok(()) => Ok(()),
        Err(fault) => Err(storage_fault(fault, number)),
    }
}
