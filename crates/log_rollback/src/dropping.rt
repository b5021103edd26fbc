//! The last store of a channel is dropped where not all channels have it.

ghost use Rattle.std.specs.Prelude.{◌≡◌, ◌≤◌, ◌<◌, ◌+◌, ◌-◌, ◌^◌, ℕ, true, IsTrue, OnOk, OnErr, IsErrOf, IfOk};
ghost use Rattle.call_counts.specs.Counts.{Rose};
ghost use Rattle.store_io.specs.Disk.{Only, OthersStay};
ghost use Rattle.gated_log.specs.Log.{Each, IsLogOf, payloads_of};
ghost use Rattle.transactions_file.specs.Transactions.{IsKept};
ghost use Rattle.store_agreement.specs.Agreement.{IsStoreOf};
ghost use Rattle.store_opening.specs.TakenBack.{IsTakenBack};
ghost use Rattle.log_rollback.specs.Finished.{HasHeader, IsFinished, IsOpenAt, IsTruncationOf};
ghost use Rattle.store_opening.specs.declared.fault.Cause.{Cause as AnyCause};
ghost use Rattle.log_rollback.specs.Faults.{of_append};

use gated_log::AppendFault;
use store_io::Disk;
use store_opening::OpenFault;
use transactions_file::{Inventory, TransactionsFile};
use tx_entry::Entry;

/// Why a Truncation is not appended.
fn of_append(fault: AppendFault) -> OpenFault
    ensures { result ≡ of_append fault }
{
    match fault {
        AppendFault::Fault => OpenFault::Fault,
        AppendFault::Full { length } => OpenFault::Full { number: length },
    }
}

/// The Truncation of the last store, which is the last entry.
fn truncation_of(inventory: &Inventory) -> Entry
    requires { IsStoreOf inventory.now.state.last inventory.now.state.entry }
    ensures { IsTruncationOf inventory.now.state result }
{
    let Some(Entry::Store { file, at, .. }) = inventory.last_entry() else {
        unreachable!()
    };
    Entry::Truncation {
        file,
        new_length: at,
        dropped: inventory.last_store(),
    }
}

/// Appends the Truncation of the last store, which is the last entry.
pub(crate) fn drop_last<D: Disk>(
    disk: &mut D,
    transactions: &mut TransactionsFile,
) -> Result<(), OpenFault>
    requires kept { IsTrue D.tells → IsKept transactions.old (D.reads disk.old 0) }
    requires file { transactions.old.log.file ≡ 0 }
    requires last { IsStoreOf transactions.old.inventory.state.last transactions.old.inventory.state.entry }
    requires synced { IsTrue D.tells → Only (D.reads disk.old 0) (D.leaves disk.old 0) }
    ensures header { OnOk result (HasHeader transactions.old.log.header transactions.new) }
    ensures open_ { IsTrue D.tells → (m : ℕ) → transactions.old.inventory.state.last ≡ m + 1 → OnOk result (IsOpenAt m (D.reads disk.new 0) transactions.new) }
    ensures finished { IsTrue D.tells → (m : ℕ) → transactions.old.inventory.state.last ≡ m + 1
        → OnOk result (IsFinished transactions.old.log.header m transactions.old.inventory.state (payloads_of (D.reads disk.old 0)) (D.reads disk.new 0)) }
    ensures synced { IsTrue D.tells → OnOk result (Only (D.reads disk.new 0) (D.leaves disk.new 0)) }
    // Whatever it answers, what may be left of the file is the log of before, or this with that Truncation.
    ensures left { IsTrue D.tells → (m : ℕ) → transactions.old.inventory.state.last ≡ m + 1
        → Each (D.leaves disk.new 0) (IsTakenBack transactions.old.log.header m transactions.old.inventory.state (payloads_of (D.reads disk.old 0))) }
    ensures full { (bytes : ℕ) → IsErrOf result (OpenFault.Full bytes) → (bytes ≡ transactions.old.log.length) × (2 ^ 40 - 64 < bytes) × (disk.new ≡ disk.old) }
    ensures over { 2 ^ 40 - 64 < transactions.old.log.length → IsErrOf result (OpenFault.Full transactions.old.log.length) }
    ensures not_damaged { (j : ℕ) (cause : AnyCause) → IsErrOf result (OpenFault.Damaged j cause) → ⊥ }
    ensures others { IsTrue D.tells → OthersStay 0 (D.reads disk.old) (D.reads disk.new) (D.leaves disk.old) (D.leaves disk.new) }
    ensures faults { D.faults disk.old ≤ D.faults disk.new }
    ensures cause { IsErrOf result OpenFault.Fault → Rose (D.faults disk.old) (D.faults disk.new) }
    ensures calm { OnOk result (D.faults disk.new ≡ D.faults disk.old) }
{
    let entry = truncation_of(transactions.inventory());
    match transactions.append(disk, &entry) {
        Ok(()) => Ok(()),
        Err(fault) => Err(of_append(fault)),
    }
}
