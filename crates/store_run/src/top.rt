// The top call.
ghost use Rattle.std.specs.Prelude.{◌≡◌, ◌<◌, ◌≤◌, ◌⊎◌, ◌∷◌, [], ◌++◌, ℕ, List, false, IsTrue, length, drop, codes, ◌↔◌};
ghost use Rattle.call_counts.specs.Counts.{Rose};
ghost use Rattle.plain_storage.specs.Held.{IsPlainFault, IsPlainStored, PlainHeld};
ghost use Rattle.plain_storage.specs.Images.{EachPair, OtherFilesStay};
ghost use Rattle.plain_storage.specs.Logs.{HasFullLog};
ghost use Rattle.store_run.specs.Acknowledged.{acknowledged};
ghost use Rattle.store_run.specs.Answer.{answer, held_after};
ghost use Rattle.store_run.specs.Lines.{lines_of};
ghost use Rattle.store_run.specs.Words.{are_run_words};
ghost use Rattle.store_run.specs.Run.{IsAnswered, IsCleanWith, HoldsAcknowledged, HoldsPrefix, IsDue, Puts, IsFrontOf};
ghost use Rattle.store_run.specs.Top.{OfOneDisk};
ghost use Rattle.store_run.specs.declared.status.Cause.{Cause};

use crate::run::run_on;
use crate::status::Status;
use crate::words::are_run_words;
use std::alloc::Global;
use store_io::{Disk, Sink, Source};

/// Serves the words `run DIR 1`: answers the script of the source line by line, and keeps its
/// stores and its types in two logs, which are files 0 and 1 of the one disk.
///
/// Each line is answered when its line feed or the end of input is read, by one call of `put` for each line of the answer.
/// What a source, a sink or a disk does not tell, no clause speaks of; the causes hold over all.
pub fn run_alone<S: Source, K: Sink, D: Disk>(
    alloc: Global,
    words: &Vec<String>,
    source: &mut S,
    sink: &mut K,
    disks: &mut Vec<D>,
) -> Status
    requires one_disk { IsTrue (are_run_words words.now.items) → length disks.old.items ≡ 1 }

    // Same answers: over a clean disk that holds `start`, the sink gets what the model answers to the script.
    ensures same_answers { IsTrue S.tells → IsTrue K.tells → IsTrue D.tells → (start : PlainHeld) → OfOneDisk disks.old.items disks.new.items (λ old new.
        IsCleanWith start (D.reads old) (D.leaves old)
        → IsAnswered result (answer start (S.left source.old)).bytes (K.written sink.old) (K.written sink.new) (S.left source.new)) }

    // Crash prefix: whatever the status, the images that a stop may leave hold what the answered lines made, types and stores, and of the line behind them all or nothing.
    ensures crash_prefix { IsTrue S.tells → IsTrue K.tells → IsTrue D.tells → (start : PlainHeld) → OfOneDisk disks.old.items disks.new.items (λ old new.
        IsCleanWith start (D.reads old) (D.leaves old)
        → EachPair (D.leaves new) (HoldsPrefix start (S.left source.old) (K.written sink.old) (K.written sink.new))) }
    // Of the script's stores they hold the first ones, every acknowledged one and at most one more.
    ensures acknowledged { IsTrue S.tells → IsTrue K.tells → IsTrue D.tells → (start : PlainHeld) → OfOneDisk disks.old.items disks.new.items (λ old new.
        IsCleanWith start (D.reads old) (D.leaves old)
        → EachPair (D.leaves new) (HoldsAcknowledged start (answer start (S.left source.old)).stores (acknowledged (K.written sink.old) (K.written sink.new)))) }
    ensures all_stored { IsTrue S.tells → IsTrue K.tells → IsTrue D.tells → (start : PlainHeld) → OfOneDisk disks.old.items disks.new.items (λ old new.
        IsCleanWith start (D.reads old) (D.leaves old) → result ≡ Status.Done
        → EachPair (D.leaves new) (λ image0 image1. IsPlainStored image0 image1 (held_after start (lines_of (S.left source.old))))) }
    ensures same_disk { length disks.new.items ≡ length disks.old.items }
    ensures other_files { IsTrue D.tells → OfOneDisk disks.old.items disks.new.items (λ old new. OtherFilesStay (D.reads old) (D.reads new) (D.leaves old) (D.leaves new)) }

    // Other words touch nothing.
    ensures words { (result ≡ Status.Words) ↔ (are_run_words words.now.items ≡ false) }
    ensures untouched { are_run_words words.now.items ≡ false → (source.new ≡ source.old) × (sink.new ≡ sink.old) × (disks.new.items ≡ disks.old.items) }

    // `Damaged` exactly where the disk holds no logs of a session; one line says so, and all else stays.
    ensures damaged { IsTrue D.tells → (channel : ℕ) (cause : Cause) → result ≡ Status.Damaged channel cause
        → (channel ≡ 0) × (cause ≡ Cause.Header) × OfOneDisk disks.old.items disks.new.items (λ old new. IsPlainFault (D.reads old 0) (D.reads old 1)) }
    ensures fault_is_damaged { IsTrue D.tells → IsTrue (are_run_words words.now.items) → OfOneDisk disks.old.items disks.new.items (λ old new.
        IsPlainFault (D.reads old 0) (D.reads old 1) → ¬ Rose (D.faults old) (D.faults new) → ¬ Rose (K.faults sink.old) (K.faults sink.new)
        → (result ≡ Status.Damaged 0 Cause.Header) ⊎ (result ≡ Status.NoMemory)) }
    ensures damaged_line { IsTrue K.tells → (channel : ℕ) (cause : Cause) → result ≡ Status.Damaged channel cause → K.written sink.new ≡ K.written sink.old ++ codes "damaged 0 header\n" }
    ensures fault_line { IsTrue K.tells → IsTrue D.tells → OfOneDisk disks.old.items disks.new.items (λ old new.
        IsPlainFault (D.reads old 0) (D.reads old 1) → Puts (IsFrontOf (codes "damaged 0 header\n")) (K.written sink.old) (K.written sink.new)) }
    ensures fault_stays { IsTrue D.tells → OfOneDisk disks.old.items disks.new.items (λ old new.
        IsPlainFault (D.reads old 0) (D.reads old 1) → (source.new ≡ source.old) × (D.reads new ≡ D.reads old) × (D.leaves new ≡ D.leaves old)) }

    // A fault comes only where the count of the object rose.
    ensures read_fault { result ≡ Status.ReadFault → Rose (S.faults source.old) (S.faults source.new) }
    ensures write_fault { result ≡ Status.WriteFault → Rose (K.faults sink.old) (K.faults sink.new) }
    ensures storage_fault { result ≡ Status.StorageFault → OfOneDisk disks.old.items disks.new.items (λ old new. Rose (D.faults old) (D.faults new)) }

    // `InputTooLong` comes only once 268,435,456 bytes were read; `refused` says that it comes then.
    ensures too_long { IsTrue S.tells → result ≡ Status.InputTooLong → (268435456 ≤ length (S.left source.old)) × (S.left source.new ≡ drop 268435456 (S.left source.old)) }

    // `Full` comes only where a log is over its limit; over a clean disk it is the log for what the line behind the answered ones is to keep, a store or a type.
    ensures full { IsTrue D.tells → result ≡ Status.Full → OfOneDisk disks.old.items disks.new.items (λ old new. HasFullLog (D.reads new)) }
    ensures store_due { IsTrue S.tells → IsTrue K.tells → IsTrue D.tells → (start : PlainHeld) → OfOneDisk disks.old.items disks.new.items (λ old new.
        IsCleanWith start (D.reads old) (D.leaves old) → result ≡ Status.Full → IsDue start (S.left source.old) (K.written sink.old) (K.written sink.new) (D.reads new)) }

    // Where no count rises and no log is full, a script is answered whole if it is not too long, and is refused if it is.
    ensures complete { IsTrue S.tells → IsTrue D.tells → IsTrue (are_run_words words.now.items) → (start : PlainHeld) → OfOneDisk disks.old.items disks.new.items (λ old new.
        IsPlainStored (D.reads old 0) (D.reads old 1) start → length (S.left source.old) < 268435456 → ¬ HasFullLog (D.reads new)
        → ¬ Rose (S.faults source.old) (S.faults source.new) → ¬ Rose (K.faults sink.old) (K.faults sink.new) → ¬ Rose (D.faults old) (D.faults new)
        → (result ≡ Status.Done) ⊎ (result ≡ Status.NoMemory)) }
    ensures refused { IsTrue S.tells → IsTrue D.tells → IsTrue (are_run_words words.now.items) → (start : PlainHeld) → OfOneDisk disks.old.items disks.new.items (λ old new.
        IsPlainStored (D.reads old 0) (D.reads old 1) start → 268435456 ≤ length (S.left source.old) → ¬ HasFullLog (D.reads new)
        → ¬ Rose (S.faults source.old) (S.faults source.new) → ¬ Rose (K.faults sink.old) (K.faults sink.new) → ¬ Rose (D.faults old) (D.faults new)
        → (result ≡ Status.InputTooLong) ⊎ (result ≡ Status.NoMemory)) }
{
    if !are_run_words(words) {
        return Status::Words;
    }
    run_on(alloc, source, sink, &mut disks[0])
}
