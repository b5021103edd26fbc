//! An entry is appended, of whatever kind.
ghost use Rattle.std.specs.Prelude.{◌≡◌, ◌⊎◌, ◌≤◌, ◌<◌, ◌-◌, ◌+◌, ◌^◌, ℕ, IsTrue, length, OnOk, OnErr, IfErr, IsErrOf, Some};
ghost use Rattle.store_io.specs.Disk.{OthersStay};
ghost use Rattle.call_counts.specs.Counts.{Rose};
ghost use Rattle.store_io.specs.Whole.{EachImage};
ghost use Rattle.transactions_file.specs.Files.{length_in};
ghost use Rattle.transactions_file.specs.Inventory.{allowed, after, files_after, last_after, next_id_after, creations};
ghost use Rattle.tx_entry.specs.Entries.{spelling};
ghost use Rattle.channel_files.specs.Chunks.{content_of};
ghost use Rattle.channel_files.specs.Channel.{IsOfDisk};
ghost use Rattle.channel_files.specs.Images.{AgreesBelow, EachAsRead, content_after};
ghost use Rattle.channel_files.specs.Shows.{Shows, newest_of};
ghost use Rattle.channel_files.specs.Outcomes.{FileStays};

use gated_log::AppendFault;
use store_io::Disk;
use transactions_file::TransactionsFile;
use tx_entry::Entry;

/// Appends an entry that is allowed. Each file is already as long as it says, and there each image has what is read.
pub(crate) fn append_entry<D: Disk>(
    disk: &mut D,
    transactions: &mut TransactionsFile,
    entry: &Entry,
) -> Result<(), AppendFault>
    requires of_disk { IsTrue D.tells → IsOfDisk transactions.old (D.reads disk.old) }
    requires allowed { IsTrue (allowed transactions.old.inventory.state entry.now) }
    requires room { creations entry.now ≤ transactions.old.inventory.spare }
    requires long { IsTrue D.tells → (f : ℕ) → length_in (files_after transactions.old.inventory.state entry.now) f ≤ length (D.reads disk.old f) }

    ensures log { OnOk result (transactions.new.log ≡ record transactions.old.log { length = transactions.old.log.length + 5 + length (spelling entry.now); count = transactions.old.log.count + 1 }) }
    ensures state { OnOk result (transactions.new.inventory.state ≡ after transactions.old.inventory.state entry.now) }
    ensures spare { OnOk result (transactions.new.inventory.spare + creations entry.now ≡ transactions.old.inventory.spare) }
    ensures err { OnErr result (transactions.new ≡ transactions.old) }
    ensures of_disk { IsTrue D.tells → OnOk result (IsOfDisk transactions.new (D.reads disk.new)) }
    ensures content { IsTrue D.tells → OnOk result (content_of (D.reads disk.new) ≡ content_after (D.reads disk.old) entry.now) }
    ensures as_read { IsTrue D.tells → EachAsRead transactions.old (D.reads disk.old) (D.leaves disk.old)
        → EachImage (D.leaves disk.old) (AgreesBelow (files_after transactions.old.inventory.state entry.now) (D.reads disk.old))
        → OnOk result (EachAsRead transactions.new (D.reads disk.new) (D.leaves disk.new)) }

    // Whatever was answered, each image shows what was read, or this after the entry.
    ensures shows { let header = transactions.old.log.header in
        let s = transactions.old.inventory.state in
        IsTrue D.tells → EachAsRead transactions.old (D.reads disk.old) (D.leaves disk.old)
        → EachImage (D.leaves disk.old) (AgreesBelow (files_after s entry.now) (D.reads disk.old))
        → EachImage (D.leaves disk.new) (λ image. Shows header s.last s.next_id (newest_of s.entry) s.next_id_before (content_of (D.reads disk.old)) image
        ⊎ Shows header (last_after s entry.now) (next_id_after s entry.now) (newest_of (Some entry.now)) s.next_id (content_after (D.reads disk.old) entry.now) image) }
    ensures full { 2 ^ 40 - 64 < transactions.old.log.length → IsErrOf result (AppendFault.Full transactions.old.log.length) × (disk.new ≡ disk.old) }
    ensures not_full { transactions.old.log.length ≤ 2 ^ 40 - 64 → IfErr result (λ e. e ≡ AppendFault.Fault) }
    // File 1 is as it was.
    ensures types { IsTrue D.tells → FileStays 1 (D.reads disk.old) (D.reads disk.new) (D.leaves disk.old) (D.leaves disk.new) }
    ensures faults { D.faults disk.old ≤ D.faults disk.new }
    ensures cause { IsErrOf result AppendFault.Fault → Rose (D.faults disk.old) (D.faults disk.new) }
    ensures calm { OnOk result (D.faults disk.new ≡ D.faults disk.old) }
    ensures read_calls { D.read_calls disk.new ≡ D.read_calls disk.old }
{
    transactions.append(disk, entry)?;
    Ok(())
}
