// A whole run.
ghost use Rattle.std.specs.Prelude.{◌≡◌, ◌<◌, ◌≤◌, ◌++◌, ◌⊎◌, [], ℕ, IsTrue, IfOk, length, drop, codes};
ghost use Rattle.call_counts.specs.Counts.{Rose};
ghost use Rattle.session_model.specs.Answer.{State};
ghost use Rattle.plain_storage.specs.Held.{IsPlainFault, PlainHeld};
ghost use Rattle.plain_storage.specs.Images.{AreClean, OtherFilesStay};
ghost use Rattle.plain_storage.specs.Keeping.{AreOpen, IsStart, Keeps, held_in};
ghost use Rattle.store_run.specs.declared.status.Cause.{Cause};
ghost use Rattle.store_run.specs.Answer.{opened_on};
ghost use Rattle.store_run.specs.Progress.{StandsBehind};
ghost use Rattle.store_run.specs.Run.{IsCleanWith, IsFrontOf, IsRun, Puts};
ghost use Rattle.store_run.specs.Causes.{HasCauses};
ghost use Rattle.store_run.specs.Serving.{IsAt};
ghost use Rattle.store_run.specs.Statuses.{status_of};

use crate::input::serve_source;
use crate::status::{Cause, Status};
use crate::stop::Stop;
use graph_model::NoMemory;
use plain_storage::{OpenFault, PlainStorage, open};
use session::Session;
use std::alloc::Global;
use store_io::{Disk, Sink, Source};
use type_dictionary::Dictionary;

fn status_of(stop: Stop) -> Status
    ensures { result ≡ status_of stop }
{
    match stop {
        Stop::ReadFault => Status::ReadFault,
        Stop::WriteFault => Status::WriteFault,
        Stop::StorageFault => Status::StorageFault,
        Stop::NoMemory => Status::NoMemory,
        Stop::InputTooLong => Status::InputTooLong,
        Stop::Full => Status::Full,
    }
}

/// Says that the disk is damaged.
fn put_damage<K: Sink>(sink: &mut K) -> Status
    ensures status { (result ≡ Status.Damaged 0 Cause.Header) ⊎ (result ≡ Status.WriteFault) }
    ensures faults { K.faults sink.old ≤ K.faults sink.new }
    ensures cause { result ≡ Status.WriteFault → Rose (K.faults sink.old) (K.faults sink.new) }
    ensures written { IsTrue K.tells → result ≡ Status.Damaged 0 Cause.Header → K.written sink.new ≡ K.written sink.old ++ codes "damaged 0 header\n" }
    ensures front { IsTrue K.tells → Puts (IsFrontOf (codes "damaged 0 header\n")) (K.written sink.old) (K.written sink.new) }
{
    match sink.put(b"damaged 0 header\n") {
        Ok(()) => Status::Damaged {
            channel: 0,
            cause: Cause::Header,
        },
        Err(_) => Status::WriteFault,
    }
}

/// The session of a script that has not begun.
fn first_session(
    alloc: Global,
    plain: &PlainStorage,
    types: Dictionary,
) -> Result<Session, NoMemory>
    requires start { IsStart plain.now types }
    ensures at { IfOk result (λ session. IsAt session plain.now (opened_on (held_in plain.now types))) }
{
    let next_id = plain.next_id();
    let rooted = plain.is_rooted();
    Session::new(alloc, types, next_id, rooted)
}

/// Serves the script from where the session stands.
fn serve_script<S: Source, K: Sink, D: Disk>(
    alloc: Global,
    session: &mut Session,
    plain: &mut PlainStorage,
    source: &mut S,
    sink: &mut K,
    disk: &mut D,
) -> Status
    requires at { (now : State) × IsAt session.old plain.old now }
    requires logs { IsTrue D.tells → AreOpen plain.old (D.reads disk.old) }
    ensures run { IsTrue S.tells → IsTrue K.tells → IsTrue D.tells → AreClean (D.reads disk.old) (D.leaves disk.old) → (start : PlainHeld) → StandsBehind start [] session.old plain.old (D.reads disk.old)
        → IsRun start result (S.left source.old) (S.left source.new) (K.written sink.old) (K.written sink.new) (D.reads disk.new) (D.leaves disk.new) }
    ensures others { IsTrue D.tells → OtherFilesStay (D.reads disk.old) (D.reads disk.new) (D.leaves disk.old) (D.leaves disk.new) }
    ensures causes { HasCauses (λ stop. result ≡ status_of stop) D.tells (D.reads disk.new)
        (S.faults source.old) (S.faults source.new) (K.faults sink.old) (K.faults sink.new) (D.faults disk.old) (D.faults disk.new) }
    ensures not_words { result ≡ Status.Words → ⊥ }
    ensures not_damaged { (channel : ℕ) (cause : Cause) → result ≡ Status.Damaged channel cause → ⊥ }
    ensures too_long { IsTrue S.tells → result ≡ Status.InputTooLong → (268435456 ≤ length (S.left source.old)) × (S.left source.new ≡ drop 268435456 (S.left source.old)) }
    ensures not_too_long { IsTrue S.tells → result ≡ Status.Done → length (S.left source.old) < 268435456 }
{
    match serve_source(alloc, session, plain, disk, source, sink) {
        Ok(()) => Status::Done,
        Err(stop) => status_of(stop),
    }
}

/// Serves the script over a storage that was opened.
fn serve_opened<S: Source, K: Sink, D: Disk>(
    alloc: Global,
    plain: &mut PlainStorage,
    types: Dictionary,
    source: &mut S,
    sink: &mut K,
    disk: &mut D,
) -> Status
    requires start { IsStart plain.old types }
    requires keeps { IsTrue D.tells → Keeps plain.old types (D.reads disk.old) }
    ensures run { IsTrue S.tells → IsTrue K.tells → IsTrue D.tells → AreClean (D.reads disk.old) (D.leaves disk.old)
        → IsRun (held_in plain.old types) result (S.left source.old) (S.left source.new) (K.written sink.old) (K.written sink.new) (D.reads disk.new) (D.leaves disk.new) }
    ensures others { IsTrue D.tells → OtherFilesStay (D.reads disk.old) (D.reads disk.new) (D.leaves disk.old) (D.leaves disk.new) }
    ensures causes { HasCauses (λ stop. result ≡ status_of stop) D.tells (D.reads disk.new)
        (S.faults source.old) (S.faults source.new) (K.faults sink.old) (K.faults sink.new) (D.faults disk.old) (D.faults disk.new) }
    ensures not_words { result ≡ Status.Words → ⊥ }
    ensures not_damaged { (channel : ℕ) (cause : Cause) → result ≡ Status.Damaged channel cause → ⊥ }
    ensures too_long { IsTrue S.tells → result ≡ Status.InputTooLong → (268435456 ≤ length (S.left source.old)) × (S.left source.new ≡ drop 268435456 (S.left source.old)) }
    ensures not_too_long { IsTrue S.tells → result ≡ Status.Done → length (S.left source.old) < 268435456 }
{
    match first_session(alloc, plain, types) {
        Ok(mut session) => serve_script(alloc, &mut session, plain, source, sink, disk),
        Err(_) => Status::NoMemory,
    }
}

/// Serves the script of the source on one disk.
pub fn run_on<S: Source, K: Sink, D: Disk>(
    alloc: Global,
    source: &mut S,
    sink: &mut K,
    disk: &mut D,
) -> Status
    ensures run { IsTrue S.tells → IsTrue K.tells → IsTrue D.tells → (start : PlainHeld) → IsCleanWith start (D.reads disk.old) (D.leaves disk.old)
        → IsRun start result (S.left source.old) (S.left source.new) (K.written sink.old) (K.written sink.new) (D.reads disk.new) (D.leaves disk.new) }
    ensures others { IsTrue D.tells → OtherFilesStay (D.reads disk.old) (D.reads disk.new) (D.leaves disk.old) (D.leaves disk.new) }

    ensures damaged { IsTrue D.tells → (channel : ℕ) (cause : Cause) → result ≡ Status.Damaged channel cause
        → (channel ≡ 0) × (cause ≡ Cause.Header) × IsPlainFault (D.reads disk.old 0) (D.reads disk.old 1) }
    ensures fault { IsTrue D.tells → IsPlainFault (D.reads disk.old 0) (D.reads disk.old 1)
        → (result ≡ Status.Damaged 0 Cause.Header) ⊎ ((result ≡ Status.NoMemory) ⊎ ((result ≡ Status.StorageFault) ⊎ (result ≡ Status.WriteFault))) }
    ensures damaged_line { IsTrue K.tells → (channel : ℕ) (cause : Cause) → result ≡ Status.Damaged channel cause → K.written sink.new ≡ K.written sink.old ++ codes "damaged 0 header\n" }
    ensures fault_line { IsTrue K.tells → IsTrue D.tells → IsPlainFault (D.reads disk.old 0) (D.reads disk.old 1)
        → Puts (IsFrontOf (codes "damaged 0 header\n")) (K.written sink.old) (K.written sink.new) }
    ensures fault_stays { IsTrue D.tells → IsPlainFault (D.reads disk.old 0) (D.reads disk.old 1)
        → (source.new ≡ source.old) × (D.reads disk.new ≡ D.reads disk.old) × (D.leaves disk.new ≡ D.leaves disk.old) }
    ensures causes { HasCauses (λ stop. result ≡ status_of stop) D.tells (D.reads disk.new)
        (S.faults source.old) (S.faults source.new) (K.faults sink.old) (K.faults sink.new) (D.faults disk.old) (D.faults disk.new) }
    ensures not_words { result ≡ Status.Words → ⊥ }
    ensures too_long { IsTrue S.tells → result ≡ Status.InputTooLong → (268435456 ≤ length (S.left source.old)) × (S.left source.new ≡ drop 268435456 (S.left source.old)) }
    ensures not_too_long { IsTrue S.tells → result ≡ Status.Done → length (S.left source.old) < 268435456 }
{
    match open(alloc, disk) {
        Ok((mut plain, types)) => serve_opened(alloc, &mut plain, types, source, sink, disk),
        Err(OpenFault::NoMemory) => Status::NoMemory,
        Err(OpenFault::Fault) => Status::StorageFault,
        Err(OpenFault::Damaged) => put_damage(sink),
    }
}
