//! An entry in a log.
ghost use Rattle.std.specs.Prelude.{◌≡◌, ◌⊎◌, ◌≤◌, ◌<◌, ◌+◌, ◌-◌, ◌^◌, ◌++◌, [], ◌∷◌, Ok, IsTrue, length, OnOk, OnErr, IfErr, IsErrOf};
ghost use Rattle.store_io.specs.Disk.{Only, OthersStay};
ghost use Rattle.call_counts.specs.Counts.{Rose};
ghost use Rattle.gated_log.specs.Log.{payloads_of, IsLogOf, IsBeforeOrAfter, Each};
ghost use Rattle.gated_log.specs.Of.{IsOf};
ghost use Rattle.tx_entry.specs.Entries.{spelling, entry_of};

use gated_log::{AppendFault, GatedLog};
use store_io::Disk;
use tx_entry::{Entry, write_entry};

/// Appends the entry's payload.
pub fn append_entry<D: Disk>(
    log: &mut GatedLog,
    disk: &mut D,
    entry: &Entry,
) -> Result<(), AppendFault>
    requires of_disk { IsTrue D.tells → IsOf log.old (D.reads disk.old log.old.file) }

    ensures read_again { entry_of (spelling entry.now) ≡ Ok entry.now }
    ensures ok { OnOk result (log.new ≡ record log.old { length = log.old.length + 5 + length (spelling entry.now); count = log.old.count + 1 }) }
    ensures err { OnErr result (log.new ≡ log.old) }
    ensures of_disk { IsTrue D.tells → OnOk result (IsOf log.new (D.reads disk.new log.old.file)) }
    ensures added { IsTrue D.tells → OnOk result (payloads_of (D.reads disk.new log.old.file) ≡ payloads_of (D.reads disk.old log.old.file) ++ spelling entry.now ∷ []) }
    ensures durable { IsTrue D.tells → OnOk result (Only (D.reads disk.new log.old.file) (D.leaves disk.new log.old.file)) }
    ensures stop { IsTrue D.tells → Each (D.leaves disk.old log.old.file) (IsLogOf log.old.header (payloads_of (D.reads disk.old log.old.file)))
        → Each (D.leaves disk.new log.old.file) (IsBeforeOrAfter log.old.header (payloads_of (D.reads disk.old log.old.file)) (spelling entry.now)) }
    ensures others { IsTrue D.tells → OthersStay log.old.file (D.reads disk.old) (D.reads disk.new) (D.leaves disk.old) (D.leaves disk.new) }
    ensures full { 2 ^ 40 - 64 < log.old.length → IsErrOf result (AppendFault.Full log.old.length) × (disk.new ≡ disk.old) }
    ensures not_full { log.old.length ≤ 2 ^ 40 - 64 → IfErr result (λ e. e ≡ AppendFault.Fault) }
    ensures faults { D.faults disk.old ≤ D.faults disk.new }
    ensures cause { IsErrOf result AppendFault.Fault → Rose (D.faults disk.old) (D.faults disk.new) }
    ensures calm { OnOk result (D.faults disk.new ≡ D.faults disk.old) }
    ensures read_calls { D.read_calls disk.new ≡ D.read_calls disk.old }
{
    let mut out = [0u8; 41];
    let length = write_entry(entry, &mut out);
    log.append(disk, &out[..length])
}
