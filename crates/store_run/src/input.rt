// The lines of a source are answered.
ghost use Rattle.std.specs.Prelude.{◌≡◌, ◌<◌, ◌≤◌, ◌++◌, [], IsTrue, length, take, drop, OnOk, IfErr, IfOk, OnErr, IsErrOf};
ghost use Rattle.call_counts.specs.Counts.{Rose};
ghost use Rattle.session_model.specs.Answer.{State};
ghost use Rattle.plain_storage.specs.Held.{PlainHeld};
ghost use Rattle.plain_storage.specs.Images.{AreClean, OtherFilesStay};
ghost use Rattle.plain_storage.specs.Keeping.{AreOpen};
ghost use Rattle.store_run.specs.Causes.{HasCauses};
ghost use Rattle.store_run.specs.Serving.{IsAt};
ghost use Rattle.store_run.specs.Progress.{IsFinished, IsPartAnswered, StandsBehind};

use crate::serve::{serve_end, serve_piece};
use crate::stop::Stop;
use plain_storage::PlainStorage;
use session::Session;
use std::alloc::{AllocError, Global};
use store_io::{Disk, Sink, Source, SourceFailed};

/// The bytes that are read at once.
pub const PIECE: usize = 65_536;

/// A script is shorter than this.
pub const LIMIT: usize = 268_435_456;

fn buffer(alloc: Global) -> Result<Vec<u8>, AllocError>
    ensures { IfOk result (λ buf. length buf.items ≡ 65536) }
{
    Ok(vec![in alloc; 0u8; PIECE]?)
}

/// Reads at most so many bytes; none only at the end.
fn read_piece<S: Source>(source: &mut S, buf: &mut [u8], room: usize) -> Result<usize, SourceFailed>
    requires some { 0 < length buf.old }
    requires room { 0 < room }
    ensures count { IfOk result (λ n. n ≤ length buf.old) }
    ensures room { IfOk result (λ n. n ≤ room) }
    ensures given { IsTrue S.tells → IfOk result (λ n. S.left source.old ≡ take n buf.new ++ S.left source.new) }
    ensures end { IsTrue S.tells → IfOk result (λ n. n ≡ 0 → S.left source.old ≡ []) }
    ensures faults { S.faults source.old ≤ S.faults source.new }
    ensures cause { OnErr result (Rose (S.faults source.old) (S.faults source.new)) }
{
    let size = buf.len().min(room);
    source.read(&mut buf[..size])
}

/// Answers each line of the source.
pub fn serve_source<S: Source, K: Sink, D: Disk>(
    alloc: Global,
    session: &mut Session,
    plain: &mut PlainStorage,
    disk: &mut D,
    source: &mut S,
    sink: &mut K,
) -> Result<(), Stop>
    requires at { (now : State) × IsAt session.old plain.old now }
    requires logs { IsTrue D.tells → AreOpen plain.old (D.reads disk.old) }
    ensures clean { IsTrue D.tells → AreClean (D.reads disk.old) (D.leaves disk.old) → OnOk result (AreClean (D.reads disk.new) (D.leaves disk.new)) }
    ensures others { IsTrue D.tells → OtherFilesStay (D.reads disk.old) (D.reads disk.new) (D.leaves disk.old) (D.leaves disk.new) }
    ensures at_end { IsTrue S.tells → OnOk result (S.left source.new ≡ []) }
    ensures finished { IsTrue S.tells → IsTrue K.tells → IsTrue D.tells → (start : PlainHeld) → StandsBehind start [] session.old plain.old (D.reads disk.old)
        → OnOk result (IsFinished start session.new plain.new (D.reads disk.new) (S.left source.old) (K.written sink.old) (K.written sink.new)) }
    ensures stop { IsTrue S.tells → IsTrue K.tells → IsTrue D.tells → AreClean (D.reads disk.old) (D.leaves disk.old) → (start : PlainHeld) → StandsBehind start [] session.old plain.old (D.reads disk.old)
        → IfErr result (λ e. IsPartAnswered start (S.left source.old) e (K.written sink.old) (K.written sink.new) (D.reads disk.new) (D.leaves disk.new)) }

    ensures causes { HasCauses (λ stop. IsErrOf result stop) D.tells (D.reads disk.new)
        (S.faults source.old) (S.faults source.new) (K.faults sink.old) (K.faults sink.new) (D.faults disk.old) (D.faults disk.new) }
    ensures too_long { IsTrue S.tells → IsErrOf result Stop.InputTooLong → (268435456 ≤ length (S.left source.old)) × (S.left source.new ≡ drop 268435456 (S.left source.old)) }
    ensures not_too_long { IsTrue S.tells → OnOk result (length (S.left source.old) < 268435456) }
{
    let mut buf = buffer(alloc)?;
    serve_pieces(alloc, session, plain, disk, source, sink, &mut buf)?;
    Ok(())
}

/// Answers each line of the source, a buffer at a time.
fn serve_pieces<S: Source, K: Sink, D: Disk>(
    alloc: Global,
    session: &mut Session,
    plain: &mut PlainStorage,
    disk: &mut D,
    source: &mut S,
    sink: &mut K,
    buf: &mut [u8],
) -> Result<(), Stop>
    requires some { 0 < length buf.old }
    requires at { (now : State) × IsAt session.old plain.old now }
    requires logs { IsTrue D.tells → AreOpen plain.old (D.reads disk.old) }
    ensures clean { IsTrue D.tells → AreClean (D.reads disk.old) (D.leaves disk.old) → OnOk result (AreClean (D.reads disk.new) (D.leaves disk.new)) }
    ensures others { IsTrue D.tells → OtherFilesStay (D.reads disk.old) (D.reads disk.new) (D.leaves disk.old) (D.leaves disk.new) }
    ensures at_end { IsTrue S.tells → OnOk result (S.left source.new ≡ []) }
    ensures finished { IsTrue S.tells → IsTrue K.tells → IsTrue D.tells → (start : PlainHeld) → StandsBehind start [] session.old plain.old (D.reads disk.old)
        → OnOk result (IsFinished start session.new plain.new (D.reads disk.new) (S.left source.old) (K.written sink.old) (K.written sink.new)) }
    ensures stop { IsTrue S.tells → IsTrue K.tells → IsTrue D.tells → AreClean (D.reads disk.old) (D.leaves disk.old) → (start : PlainHeld) → StandsBehind start [] session.old plain.old (D.reads disk.old)
        → IfErr result (λ e. IsPartAnswered start (S.left source.old) e (K.written sink.old) (K.written sink.new) (D.reads disk.new) (D.leaves disk.new)) }

    ensures causes { HasCauses (λ stop. IsErrOf result stop) D.tells (D.reads disk.new)
        (S.faults source.old) (S.faults source.new) (K.faults sink.old) (K.faults sink.new) (D.faults disk.old) (D.faults disk.new) }
    ensures too_long { IsTrue S.tells → IsErrOf result Stop.InputTooLong → (268435456 ≤ length (S.left source.old)) × (S.left source.new ≡ drop 268435456 (S.left source.old)) }
    ensures not_too_long { IsTrue S.tells → OnOk result (length (S.left source.old) < 268435456) }
{
    let mut unended = Vec::new(alloc);
    let mut taken = 0;
    while taken < LIMIT {
        let n = read_piece(source, buf, LIMIT - taken)?;
        if n == 0 {
            serve_end(alloc, session, plain, disk, sink, &unended)?;
            return Ok(());
        }
        serve_piece(alloc, session, plain, disk, sink, &mut unended, &buf[..n])?;
        taken += n;
    }
    Err(Stop::InputTooLong)
}
