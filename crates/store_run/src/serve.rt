// The bytes of a script are taken, and each line that they end is answered.
ghost use Rattle.std.specs.Prelude.{[], ◌∷◌, ℕ, List, IsTrue, OnOk, IfErr, IsErrOf};
ghost use Rattle.session_model.specs.Answer.{State};
ghost use Rattle.plain_storage.specs.Held.{PlainHeld};
ghost use Rattle.plain_storage.specs.Images.{AreClean, OtherFilesStay};
ghost use Rattle.plain_storage.specs.Keeping.{AreOpen};
ghost use Rattle.store_run.specs.Causes.{HasLineCauses};
ghost use Rattle.store_run.specs.Serving.{IsAt};
ghost use Rattle.store_run.specs.Progress.{IsFinished, IsPartAnswered, IsServed, Serves, Stops};

use crate::line::serve_line;
use crate::stop::Stop;
use plain_storage::PlainStorage;
use session::Session;
use std::alloc::Global;
use store_io::{Disk, Sink};

/// Takes one byte of the script.
fn serve_byte<K: Sink, D: Disk>(
    alloc: Global,
    session: &mut Session,
    plain: &mut PlainStorage,
    disk: &mut D,
    sink: &mut K,
    unended: &mut Vec<u8>,
    byte: u8,
) -> Result<(), Stop>
    requires at { (now : State) × IsAt session.old plain.old now }
    requires logs { IsTrue D.tells → AreOpen plain.old (D.reads disk.old) }
    ensures at { OnOk result ((now : State) × IsAt session.new plain.new now) }
    ensures logs { IsTrue D.tells → OnOk result (AreOpen plain.new (D.reads disk.new)) }
    ensures clean { IsTrue D.tells → AreClean (D.reads disk.old) (D.leaves disk.old) → OnOk result (AreClean (D.reads disk.new) (D.leaves disk.new)) }
    ensures others { IsTrue D.tells → OtherFilesStay (D.reads disk.old) (D.reads disk.new) (D.leaves disk.old) (D.leaves disk.new) }
    ensures served { IsTrue K.tells → IsTrue D.tells → OnOk result (Serves session.old session.new plain.old plain.new (D.reads disk.old) (D.reads disk.new)
        unended.old.items unended.new.items (byte ∷ []) (K.written sink.old) (K.written sink.new)) }
    ensures stop { IsTrue K.tells → IsTrue D.tells → AreClean (D.reads disk.old) (D.leaves disk.old) → IfErr result (λ e. Stops session.old plain.old (D.reads disk.old)
        unended.old.items (byte ∷ []) e (K.written sink.old) (K.written sink.new) (D.reads disk.new) (D.leaves disk.new)) }

    ensures causes { HasLineCauses (λ stop. IsErrOf result stop) D.tells (D.reads disk.new) (K.faults sink.old) (K.faults sink.new) (D.faults disk.old) (D.faults disk.new) }
{
    if byte != b'\n' {
        unended.push(byte)?;
        return Ok(());
    }
    serve_line(alloc, session, plain, disk, sink, unended)?;
    unended.clear();
    Ok(())
}

/// Takes a piece of the script.
pub fn serve_piece<K: Sink, D: Disk>(
    alloc: Global,
    session: &mut Session,
    plain: &mut PlainStorage,
    disk: &mut D,
    sink: &mut K,
    unended: &mut Vec<u8>,
    piece: &[u8],
) -> Result<(), Stop>
    requires at { (now : State) × IsAt session.old plain.old now }
    requires logs { IsTrue D.tells → AreOpen plain.old (D.reads disk.old) }
    ensures at { OnOk result ((now : State) × IsAt session.new plain.new now) }
    ensures logs { IsTrue D.tells → OnOk result (AreOpen plain.new (D.reads disk.new)) }
    ensures clean { IsTrue D.tells → AreClean (D.reads disk.old) (D.leaves disk.old) → OnOk result (AreClean (D.reads disk.new) (D.leaves disk.new)) }
    ensures others { IsTrue D.tells → OtherFilesStay (D.reads disk.old) (D.reads disk.new) (D.leaves disk.old) (D.leaves disk.new) }
    ensures served { IsTrue K.tells → IsTrue D.tells → OnOk result (Serves session.old session.new plain.old plain.new (D.reads disk.old) (D.reads disk.new)
        unended.old.items unended.new.items piece.now (K.written sink.old) (K.written sink.new)) }
    ensures stop { IsTrue K.tells → IsTrue D.tells → AreClean (D.reads disk.old) (D.leaves disk.old) → IfErr result (λ e. Stops session.old plain.old (D.reads disk.old)
        unended.old.items piece.now e (K.written sink.old) (K.written sink.new) (D.reads disk.new) (D.leaves disk.new)) }

    ensures causes { HasLineCauses (λ stop. IsErrOf result stop) D.tells (D.reads disk.new) (K.faults sink.old) (K.faults sink.new) (D.faults disk.old) (D.faults disk.new) }
{
    for byte in piece {
        serve_byte(alloc, session, plain, disk, sink, unended, *byte)?;
    }
    Ok(())
}

/// Takes the end of the script: a last line that has not ended counts where it has a byte.
pub fn serve_end<K: Sink, D: Disk>(
    alloc: Global,
    session: &mut Session,
    plain: &mut PlainStorage,
    disk: &mut D,
    sink: &mut K,
    unended: &[u8],
) -> Result<(), Stop>
    requires at { (now : State) × IsAt session.old plain.old now }
    requires logs { IsTrue D.tells → AreOpen plain.old (D.reads disk.old) }
    ensures logs { IsTrue D.tells → OnOk result (AreOpen plain.new (D.reads disk.new)) }
    ensures clean { IsTrue D.tells → AreClean (D.reads disk.old) (D.leaves disk.old) → OnOk result (AreClean (D.reads disk.new) (D.leaves disk.new)) }
    ensures others { IsTrue D.tells → OtherFilesStay (D.reads disk.old) (D.reads disk.new) (D.leaves disk.old) (D.leaves disk.new) }
    ensures finished { IsTrue K.tells → IsTrue D.tells → OnOk result ((start : PlainHeld) (script written0 : List ℕ)
        → IsServed start session.old plain.old (D.reads disk.old) script unended.now written0 (K.written sink.old)
        → IsFinished start session.new plain.new (D.reads disk.new) script written0 (K.written sink.new)) }
    ensures stop { IsTrue K.tells → IsTrue D.tells → AreClean (D.reads disk.old) (D.leaves disk.old) → IfErr result (λ e. (start : PlainHeld) (script written0 : List ℕ)
        → IsServed start session.old plain.old (D.reads disk.old) script unended.now written0 (K.written sink.old)
        → IsPartAnswered start script e written0 (K.written sink.new) (D.reads disk.new) (D.leaves disk.new)) }

    ensures causes { HasLineCauses (λ stop. IsErrOf result stop) D.tells (D.reads disk.new) (K.faults sink.old) (K.faults sink.new) (D.faults disk.old) (D.faults disk.new) }
{
    if unended.is_empty() {
        return Ok(());
    }
    serve_line(alloc, session, plain, disk, sink, unended)?;
    Ok(())
}
