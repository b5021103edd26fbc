//! What a stop left unfinished in the transactions log of one channel is taken back.

ghost use Rattle.std.specs.Prelude.{◌≡◌, ◌≤◌, ◌<◌, ◌+◌, ◌-◌, ◌^◌, ℕ, true, IsTrue, IfOk, OnOk, IsOk, IsErrOf};
ghost use Rattle.call_counts.specs.Counts.{Rose};
ghost use Rattle.store_io.specs.Disk.{Only, OthersStay};
ghost use Rattle.gated_log.specs.Log.{Each, length_of, payloads_of};
ghost use Rattle.transactions_file.specs.Transactions.{IsKept};
ghost use Rattle.store_agreement.specs.Agreement.{Agrees};
ghost use Rattle.store_opening.specs.LogsRead.{last_in};
ghost use Rattle.store_opening.specs.TakenBack.{IsTakenBack};
ghost use Rattle.store_opening.specs.declared.fault.Cause.{Cause as AnyCause};
ghost use Rattle.log_rollback.specs.Finished.{HasHeader, IsFinished, IsOpenAt, IsReadFrom};

use crate::dropping::drop_last;
use disk_opening::ChannelLog;
use store_io::Disk;
use store_opening::OpenFault;
use transactions_file::TransactionsFile;

/// Takes the last store of a channel back, where it is not the one that all have in common.
fn take_back<D: Disk>(
    disk: &mut D,
    transactions: TransactionsFile,
    common: u64,
) -> Result<TransactionsFile, OpenFault>
    requires kept { IsTrue D.tells → IsKept transactions (D.reads disk.old 0) }
    requires file { transactions.log.file ≡ 0 }
    requires agrees { Agrees common (record { number = transactions.inventory.state.last; last_entry = transactions.inventory.state.entry }) }
    requires synced { IsTrue D.tells → Only (D.reads disk.old 0) (D.leaves disk.old 0) }
    ensures header { IfOk result (HasHeader transactions.log.header) }
    ensures open_ { IsTrue D.tells → IfOk result (IsOpenAt common (D.reads disk.new 0)) }
    ensures finished { IsTrue D.tells → OnOk result (IsFinished transactions.log.header common transactions.inventory.state (payloads_of (D.reads disk.old 0)) (D.reads disk.new 0)) }
    ensures synced { IsTrue D.tells → OnOk result (Only (D.reads disk.new 0) (D.leaves disk.new 0)) }
    ensures left { IsTrue D.tells → Each (D.leaves disk.new 0) (IsTakenBack transactions.log.header common transactions.inventory.state (payloads_of (D.reads disk.old 0))) }
    ensures untouched { transactions.inventory.state.last ≡ common → (disk.new ≡ disk.old) × IsOk result }
    ensures full { (bytes : ℕ) → IsErrOf result (OpenFault.Full bytes)
        → (bytes ≡ transactions.log.length) × (2 ^ 40 - 64 < bytes) × (transactions.inventory.state.last ≡ common + 1) × (disk.new ≡ disk.old) }
    ensures over { transactions.inventory.state.last ≡ common + 1 → 2 ^ 40 - 64 < transactions.log.length → IsErrOf result (OpenFault.Full transactions.log.length) }
    ensures not_damaged { (j : ℕ) (cause : AnyCause) → IsErrOf result (OpenFault.Damaged j cause) → ⊥ }
    ensures others { IsTrue D.tells → OthersStay 0 (D.reads disk.old) (D.reads disk.new) (D.leaves disk.old) (D.leaves disk.new) }
    ensures faults { D.faults disk.old ≤ D.faults disk.new }
    ensures cause { IsErrOf result OpenFault.Fault → Rose (D.faults disk.old) (D.faults disk.new) }
    ensures calm { OnOk result (D.faults disk.new ≡ D.faults disk.old) }
{
    if transactions.inventory().last_store() == common {
        return Ok(transactions);
    }
    let mut transactions = transactions;
    drop_last(disk, &mut transactions)?;
    Ok(transactions)
}

/// Takes back what a stop left unfinished in the transactions log of a channel, which was read to its end: a file of at most 9 bytes gets its header, and a
/// store behind `common`, which not all channels have, its Truncation. `Full` exactly where that is due and the log is over its limit.
pub fn finish_log<D: Disk>(
    disk: &mut D,
    log: ChannelLog,
    common: u64,
) -> Result<TransactionsFile, OpenFault>
    requires file { log.opening.file ≡ 0 }
    requires ended { IsTrue log.opening.ended }
    requires read { IsTrue D.tells → IsReadFrom log (D.reads disk.old 0) }
    requires agrees { Agrees common (last_in log) }
    requires synced { IsTrue D.tells → Only (D.reads disk.old 0) (D.leaves disk.old 0) }
    ensures header { IfOk result (HasHeader log.opening.header) }
    ensures open_ { IsTrue D.tells → IfOk result (IsOpenAt common (D.reads disk.new 0)) }
    // At `Ok` the file has its header, and no store behind the one that all have.
    ensures finished { IsTrue D.tells → OnOk result (IsFinished log.opening.header common log.inventory.state (payloads_of (D.reads disk.old 0)) (D.reads disk.new 0)) }
    ensures synced { IsTrue D.tells → OnOk result (Only (D.reads disk.new 0) (D.leaves disk.new 0)) }
    // Whatever it answers, what may be left of the file is the log of before, or this with that Truncation.
    ensures left { IsTrue D.tells → Each (D.leaves disk.new 0) (IsTakenBack log.opening.header common log.inventory.state (payloads_of (D.reads disk.old 0))) }
    // Where neither is due, the disk is not called.
    ensures untouched { 9 < log.opening.len → log.inventory.state.last ≡ common → (disk.new ≡ disk.old) × IsOk result }
    ensures full { (bytes : ℕ) → IsErrOf result (OpenFault.Full bytes) → (2 ^ 40 - 64 < bytes) × (log.inventory.state.last ≡ common + 1) × (disk.new ≡ disk.old) }
    ensures long { IsTrue D.tells → (bytes : ℕ) → IsErrOf result (OpenFault.Full bytes) → bytes ≡ length_of (payloads_of (D.reads disk.old 0)) }
    ensures over { IsTrue D.tells → log.inventory.state.last ≡ common + 1 → 2 ^ 40 - 64 < length_of (payloads_of (D.reads disk.old 0))
        → IsErrOf result (OpenFault.Full (length_of (payloads_of (D.reads disk.old 0)))) }
    ensures not_damaged { (j : ℕ) (cause : AnyCause) → IsErrOf result (OpenFault.Damaged j cause) → ⊥ }
    ensures others { IsTrue D.tells → OthersStay 0 (D.reads disk.old) (D.reads disk.new) (D.leaves disk.old) (D.leaves disk.new) }
    ensures faults { D.faults disk.old ≤ D.faults disk.new }
    ensures cause { IsErrOf result OpenFault.Fault → Rose (D.faults disk.old) (D.faults disk.new) }
    ensures calm { OnOk result (D.faults disk.new ≡ D.faults disk.old) }
{
    let ChannelLog {
        opening,
        inventory,
        ranges: _,
    } = log;
    let log = opening.finish(disk)?;
    take_back(disk, TransactionsFile::join(log, inventory), common)
}
