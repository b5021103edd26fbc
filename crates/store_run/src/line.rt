// One line is answered.
ghost use Rattle.std.specs.Prelude.{◌≡◌, ◌++◌, Bool, IsTrue, IfOk, OnOk, IfErr, IsErrOf};
ghost use Rattle.session.specs.Dealing.{IsDueStep};
ghost use Rattle.session_lines.specs.Limits.{most_bytes};
ghost use Rattle.session.specs.Sessions.{SessionView as AnySession};
ghost use Rattle.session_model.specs.Answer.{State, turn};
ghost use Rattle.plain_storage.specs.Images.{AreClean, OtherFilesStay};
ghost use Rattle.plain_storage.specs.Keeping.{AreOpen, Keeps, held_in};
ghost use Rattle.store_run.specs.Answer.{held_behind};
ghost use Rattle.store_run.specs.Causes.{HasLineCauses};
ghost use Rattle.store_run.specs.Serving.{IsAt, IsTurnCut};
ghost use Rattle.store_run.specs.Within.{IsNoLine, IsWithin, LineBegun, MayCarry, StandsFor, any_record};

use crate::stop::Stop;
use graph_model::Bytes;
use plain_storage::PlainStorage;
use session::{Given, Session, SessionStep};
use std::alloc::Global;
use store_io::{Disk, Sink};

/// Carries out what comes next, and tells what the session is given then; `None` where the line is answered.
fn carry_on<K: Sink, D: Disk>(
    step: SessionStep,
    plain: &mut PlainStorage,
    disk: &mut D,
    sink: &mut K,
) -> Result<Option<Given>, Stop>
    requires may { MayCarry plain.old step }
    requires logs { IsTrue D.tells → AreOpen plain.old (D.reads disk.old) }
    ensures carried { (session : AnySession) (kept : Bool) (line : LineBegun) → (IsTrue kept → IsTrue D.tells)
        → IsWithin K.tells kept line (IsDueStep any_record step session) plain.old (D.reads disk.old) (K.written sink.old)
        → IfOk result (λ next. IsWithin K.tells kept line (StandsFor next session) plain.new (D.reads disk.new) (K.written sink.new)) }
    ensures no_line { IfOk result IsNoLine }
    ensures logs { IsTrue D.tells → OnOk result (AreOpen plain.new (D.reads disk.new)) }
    ensures clean { IsTrue D.tells → AreClean (D.reads disk.old) (D.leaves disk.old) → OnOk result (AreClean (D.reads disk.new) (D.leaves disk.new)) }
    ensures others { IsTrue D.tells → OtherFilesStay (D.reads disk.old) (D.reads disk.new) (D.leaves disk.old) (D.leaves disk.new) }
    ensures stop { IsTrue K.tells → IsTrue D.tells → AreClean (D.reads disk.old) (D.leaves disk.old) → (session : AnySession) (kept : Bool) (line : LineBegun) → IsTrue kept
        → IsWithin K.tells kept line (IsDueStep any_record step session) plain.old (D.reads disk.old) (K.written sink.old)
        → IfErr result (λ e. IsTurnCut line.turn line.held e line.written (K.written sink.new) (D.reads disk.new) (D.leaves disk.new)) }
    ensures causes { HasLineCauses (λ stop. IsErrOf result stop) D.tells (D.reads disk.new) (K.faults sink.old) (K.faults sink.new) (D.faults disk.old) (D.faults disk.new) }
{
    match step {
        SessionStep::Ask(ask) => {
            let reply = plain.serve(disk, ask)?;
            Ok(Some(Given::Reply(reply)))
        }
        SessionStep::Print(line) => {
            sink.put(line.as_slice())?;
            Ok(Some(Given::Printed))
        }
        SessionStep::Done => Ok(None),
        SessionStep::Broken { .. } => unreachable!(),
    }
}

/// Answers a line: asks the storage what the session asks, and puts each line of the answer by one call of `put`.
pub fn serve_line<K: Sink, D: Disk>(
    alloc: Global,
    session: &mut Session,
    plain: &mut PlainStorage,
    disk: &mut D,
    sink: &mut K,
    line: &[u8],
) -> Result<(), Stop>
    requires at { (now : State) × IsAt session.old plain.old now }
    requires logs { IsTrue D.tells → AreOpen plain.old (D.reads disk.old) }
    ensures at { (now : State) → IsAt session.old plain.old now → OnOk result (IsAt session.new plain.new (turn most_bytes now line.now).state) }
    ensures logs { IsTrue D.tells → OnOk result (AreOpen plain.new (D.reads disk.new)) }
    ensures clean { IsTrue D.tells → AreClean (D.reads disk.old) (D.leaves disk.old) → OnOk result (AreClean (D.reads disk.new) (D.leaves disk.new)) }
    ensures others { IsTrue D.tells → OtherFilesStay (D.reads disk.old) (D.reads disk.new) (D.leaves disk.old) (D.leaves disk.new) }
    ensures answered { IsTrue K.tells → (now : State) → IsAt session.old plain.old now → OnOk result (K.written sink.new ≡ K.written sink.old ++ (turn most_bytes now line.now).text) }

    // Behind the line the disk holds what its turn leaves.
    ensures keeps { IsTrue D.tells → (now : State) → IsAt session.old plain.old now → Keeps plain.old now.types (D.reads disk.old)
        → OnOk result (Keeps plain.new (turn most_bytes now line.now).state.types (D.reads disk.new)) }
    ensures behind { (now : State) → IsAt session.old plain.old now
        → OnOk result (held_in plain.new (turn most_bytes now line.now).state.types ≡ held_behind (held_in plain.old now.types) (turn most_bytes now line.now)) }

    // What is written and kept where the run ends within the line.
    ensures stop { IsTrue K.tells → IsTrue D.tells → AreClean (D.reads disk.old) (D.leaves disk.old) → (now : State) → IsAt session.old plain.old now → Keeps plain.old now.types (D.reads disk.old)
        → IfErr result (λ e. IsTurnCut (turn most_bytes now line.now) (held_in plain.old now.types) e (K.written sink.old) (K.written sink.new) (D.reads disk.new) (D.leaves disk.new)) }

    ensures causes { HasLineCauses (λ stop. IsErrOf result stop) D.tells (D.reads disk.new) (K.faults sink.old) (K.faults sink.new) (D.faults disk.old) (D.faults disk.new) }
{
    let text = Bytes::new(Vec::from_slice(alloc, line)?);
    let mut step = session.next(Given::Line(text))?;
    'steps: while let Some(given) = carry_on(step, plain, disk, sink)? {
        step = session.next(given)?;
    }
    Ok(())
}
