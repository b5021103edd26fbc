//! What a stop left unfinished in the transactions logs of all channels is taken back.

ghost use Rattle.std.specs.Prelude.{◌≡◌, ◌≢◌, ◌≤◌, ◌<◌, ◌+◌, ◌-◌, ◌^◌, ℕ, IsTrue, List, length, map, slice_get, IfOk, IfErr, OnOk, IsErrOf};
ghost use Rattle.store_io.specs.Disk.{Only, OthersStay};
ghost use Rattle.gated_log.specs.Log.{Each, payloads_of};
ghost use Rattle.store_agreement.specs.Agreement.{Agrees, AllAgree};
ghost use Rattle.channel.specs.Images.{log_header, state_of};
ghost use Rattle.recovery.specs.Images.{image_at};
ghost use Rattle.recovery.specs.Stored.{Stored};
ghost use Rattle.disk_opening.specs.ManyDisks.{NoneFell, OneRose};
ghost use Rattle.store_opening.specs.Left.{AreSyncedBelow, leaves_at};
ghost use Rattle.store_opening.specs.LogsRead.{AreLogsOpen, AreLogsRead, IsLogOpen, IsLogRead, last_in};
ghost use Rattle.store_opening.specs.TakenBack.{IsTakenBack};
ghost use Rattle.store_opening.specs.declared.fault.Cause.{Cause as AnyCause};
ghost use Rattle.log_rollback.specs.Finished.{AllOthersStay, AreFinishedBelow, AreOpenAt, AreTakenBackOrNot, AreUntouchedFrom, HasHeader, HaveHeaders, IsFinished, IsOpenAt};
ghost use Rattle.log_rollback.specs.Full.{IsFirstFull, IsFullAt};
ghost use Rattle.log_rollback.specs.Held.{Hold};

use crate::finishing::finish_log;
use disk_opening::ChannelLog;
use std::alloc::Global;
use store_io::Disk;
use store_opening::{OpenFault, taking_back_keeps_what_is_held};
use transactions_file::TransactionsFile;

/// Takes back what a stop left unfinished in the transactions log of the channel at this place.
fn finish_at<D: Disk>(
    disks: &mut [D],
    place: usize,
    log: ChannelLog,
    common: u64,
) -> Result<TransactionsFile, OpenFault>
    requires within { place < length disks.old }
    requires open_ { IsLogOpen (length disks.old) place log }
    requires read { IsTrue D.tells → IsLogRead (length disks.old) place (image_at (map D.reads disks.old) place) log }
    requires agrees { Agrees common (last_in log) }
    requires synced { IsTrue D.tells → Only (image_at (map D.reads disks.old) place 0) (leaves_at (map D.leaves disks.old) place 0) }
    ensures header { IfOk result (HasHeader (log_header (length disks.old) place)) }
    ensures open_ { IsTrue D.tells → IfOk result (IsOpenAt common (image_at (map D.reads disks.new) place 0)) }
    ensures finished { IsTrue D.tells → OnOk result (IsFinished (log_header (length disks.old) place) common (state_of (image_at (map D.reads disks.old) place))
        (payloads_of (image_at (map D.reads disks.old) place 0)) (image_at (map D.reads disks.new) place 0)) }
    ensures synced { IsTrue D.tells → OnOk result (Only (image_at (map D.reads disks.new) place 0) (leaves_at (map D.leaves disks.new) place 0)) }
    ensures left { IsTrue D.tells → Each (leaves_at (map D.leaves disks.new) place 0) (IsTakenBack (log_header (length disks.old) place) common (state_of (image_at (map D.reads disks.old) place))
        (payloads_of (image_at (map D.reads disks.old) place 0))) }
    ensures full { IsTrue D.tells → (bytes : ℕ) → IsErrOf result (OpenFault.Full bytes) → IsFullAt common (map D.reads disks.old) place bytes }
    ensures full_over { (bytes : ℕ) → IsErrOf result (OpenFault.Full bytes) → 2 ^ 40 - 64 < bytes }
    ensures full_stays { (bytes : ℕ) → IsErrOf result (OpenFault.Full bytes) → disks.new ≡ disks.old }
    ensures not_full { IsTrue D.tells → OnOk result ((bytes : ℕ) → ¬ (IsFullAt common (map D.reads disks.old) place bytes)) }
    ensures not_damaged { (j : ℕ) (cause : AnyCause) → IsErrOf result (OpenFault.Damaged j cause) → ⊥ }
    ensures others { IsTrue D.tells → OthersStay 0 (image_at (map D.reads disks.old) place) (image_at (map D.reads disks.new) place) (leaves_at (map D.leaves disks.old) place) (leaves_at (map D.leaves disks.new) place) }
    ensures elsewhere { (i : ℕ) → i ≢ place → slice_get disks.new i ≡ slice_get disks.old i }
    ensures kept { IsTrue D.tells → (what : Stored) → what.number ≡ common → Hold (map D.leaves disks.old) what → Hold (map D.leaves disks.new) what }
    ensures many { length disks.new ≡ length disks.old }
    ensures faults { NoneFell (map D.faults disks.old) (map D.faults disks.new) }
    ensures cause { IsErrOf result OpenFault.Fault → OneRose (map D.faults disks.old) (map D.faults disks.new) }
    ensures calm { OnOk result (map D.faults disks.new ≡ map D.faults disks.old) }
{
    taking_back_keeps_what_is_held();
    finish_log(&mut disks[place], log, common)
}

/// Takes back, by rising channel, what a stop left unfinished in the transactions logs of all channels, whose disks and logs these are: a file of at most 9
/// bytes gets its header, and a store behind `common`, the last one that all have, its Truncation. It stops at the first channel of which a call fails, or
/// whose Truncation is due and whose log is over its limit.
pub fn finish_logs<D: Disk>(
    alloc: Global,
    disks: &mut [D],
    logs: Vec<ChannelLog>,
    common: u64,
) -> Result<Vec<TransactionsFile>, OpenFault>
    requires many { length logs.items ≡ length disks.old }
    requires open_ { AreLogsOpen (length disks.old) logs.items }
    requires read { IsTrue D.tells → AreLogsRead (length disks.old) (map D.reads disks.old) logs.items }
    requires agreed { AllAgree common (map last_in logs.items) }
    requires synced { IsTrue D.tells → AreSyncedBelow (length disks.old) 0 (map D.reads disks.old) (map D.leaves disks.old) }
    ensures count { IfOk result (λ logs. length logs.items ≡ length disks.old) }
    ensures header { IfOk result (λ logs. HaveHeaders (length disks.old) logs.items) }
    ensures open_ { IsTrue D.tells → IfOk result (λ logs. AreOpenAt common (map D.reads disks.new) logs.items) }
    // At `Ok` each file has its header, and no store behind the one that all have.
    ensures finished { IsTrue D.tells → OnOk result (AreFinishedBelow (length disks.old) common (length disks.old) (map D.reads disks.old) (map D.reads disks.new)) }
    ensures synced { IsTrue D.tells → OnOk result (AreSyncedBelow (length disks.old) 0 (map D.reads disks.new) (map D.leaves disks.new)) }
    // Whatever it answers, what may be left of each log is that of before, or this with that Truncation; and what the disks held they hold.
    ensures left { IsTrue D.tells → AreTakenBackOrNot (length disks.old) common (map D.reads disks.old) (map D.leaves disks.new) }
    ensures kept { IsTrue D.tells → (what : Stored) → Hold (map D.leaves disks.old) what → Hold (map D.leaves disks.new) what }
    ensures others { IsTrue D.tells → AllOthersStay 0 (map D.reads disks.old) (map D.reads disks.new) (map D.leaves disks.old) (map D.leaves disks.new) }
    // Where it stops at a channel, those in front are finished, and those behind untouched.
    ensures stops { IfErr result (λ _. (k : ℕ) × (k < length disks.old) × AreUntouchedFrom (k + 1) disks.old disks.new
        × (IsTrue D.tells → AreFinishedBelow (length disks.old) common k (map D.reads disks.old) (map D.reads disks.new))) }
    ensures full { IsTrue D.tells → (bytes : ℕ) → IsErrOf result (OpenFault.Full bytes) → IsFirstFull common (map D.reads disks.old) bytes }
    ensures full_over { (bytes : ℕ) → IsErrOf result (OpenFault.Full bytes) → 2 ^ 40 - 64 < bytes }
    ensures full_calm { (bytes : ℕ) → IsErrOf result (OpenFault.Full bytes) → map D.faults disks.new ≡ map D.faults disks.old }
    ensures not_full { IsTrue D.tells → OnOk result ((j bytes : ℕ) → ¬ (IsFullAt common (map D.reads disks.old) j bytes)) }
    ensures not_damaged { (j : ℕ) (cause : AnyCause) → IsErrOf result (OpenFault.Damaged j cause) → ⊥ }
    ensures many { length disks.new ≡ length disks.old }
    ensures faults { NoneFell (map D.faults disks.old) (map D.faults disks.new) }
    ensures cause { IsErrOf result OpenFault.Fault → OneRose (map D.faults disks.old) (map D.faults disks.new) }
    ensures calm { OnOk result (map D.faults disks.new ≡ map D.faults disks.old) }
{
    let mut finished = Vec::new(alloc);
    let mut rest = logs.into_iter();
    'logs: for place in 0..disks.len() {
        let Some(log) = rest.next() else {
            unreachable!()
        };
        let transactions = finish_at(disks, place, log, common)?;
        finished.push(transactions)?;
    }
    Ok(finished)
}
