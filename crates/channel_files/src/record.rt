//! A record of another log on the channel's disk.
ghost use Rattle.std.specs.Prelude.{◌≡◌, ◌≤◌, ◌<◌, ◌+◌, ◌-◌, ◌^◌, ◌++◌, [], ◌∷◌, IsTrue, length, OnOk, OnErr, IfErr, IfSome, IsErrOf, None};
ghost use Rattle.store_io.specs.Disk.{Only, OthersStay};
ghost use Rattle.call_counts.specs.Counts.{Rose};
ghost use Rattle.gated_log.specs.Log.{payloads_of, IsLogOf, IsBeforeOrAfter, Each};
ghost use Rattle.gated_log.specs.Of.{IsOf};
ghost use Rattle.channel_files.specs.Heads.{full_record};

use crate::fault::FilesFault;
use gated_log::GatedLog;
use store_io::Disk;

/// Adds a payload to the log of file 1.
pub(crate) fn append_record<D: Disk>(
    disk: &mut D,
    log: &mut GatedLog,
    text: &[u8],
) -> Result<(), FilesFault>
    requires some { 1 ≤ length text.now }
    requires size { length text.now ≤ 1048576 }
    requires file { log.old.file ≡ 1 }
    requires of_log { IsTrue D.tells → IsOf log.old (D.reads disk.old 1) }

    ensures ok { OnOk result (log.new ≡ record log.old { length = log.old.length + 5 + length text.now; count = log.old.count + 1 }) }
    ensures err { OnErr result (log.new ≡ log.old) }
    ensures of_log { IsTrue D.tells → OnOk result (IsOf log.new (D.reads disk.new 1)) }
    ensures added { IsTrue D.tells → OnOk result (payloads_of (D.reads disk.new 1) ≡ payloads_of (D.reads disk.old 1) ++ text.now ∷ []) }
    ensures synced { IsTrue D.tells → OnOk result (Only (D.reads disk.new 1) (D.leaves disk.new 1)) }
    ensures stop { IsTrue D.tells → Each (D.leaves disk.old 1) (IsLogOf log.old.header (payloads_of (D.reads disk.old 1)))
        → Each (D.leaves disk.new 1) (IsBeforeOrAfter log.old.header (payloads_of (D.reads disk.old 1)) text.now) }
    ensures others { IsTrue D.tells → OthersStay 1 (D.reads disk.old) (D.reads disk.new) (D.leaves disk.old) (D.leaves disk.new) }
    ensures full { IfSome (full_record log.old.length) (λ n. IsErrOf result (FilesFault.Full n) × (disk.new ≡ disk.old)) }
    ensures not_full { full_record log.old.length ≡ None → IfErr result (λ e. e ≡ FilesFault.Fault) }
    ensures faults { D.faults disk.old ≤ D.faults disk.new }
    ensures cause { IsErrOf result FilesFault.Fault → Rose (D.faults disk.old) (D.faults disk.new) }
    ensures calm { OnOk result (D.faults disk.new ≡ D.faults disk.old) }
    ensures read_calls { D.read_calls disk.new ≡ D.read_calls disk.old }
{
    log.append(disk, text)?;
    Ok(())
}
