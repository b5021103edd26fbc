//! The last store is dropped.
ghost use Rattle.std.specs.Prelude.{◌≡◌, ◌⊎◌, ◌≤◌, ◌<◌, ◌-◌, ◌+◌, ◌^◌, ℕ, true, IsTrue, length, take, OnOk, OnErr, IfErr, IfSome, IsErrOf, None};
ghost use Rattle.call_counts.specs.Counts.{Rose};
ghost use Rattle.store_io.specs.Whole.{EachImage};
ghost use Rattle.tx_entry.specs.declared.entry.Entry.TheVariants.{Truncation};
ghost use Rattle.transactions_file.specs.Files.{is_live};
ghost use Rattle.transactions_file.specs.Inventory.{after, is_store_at};
ghost use Rattle.channel_files.specs.Chunks.{content_of};
ghost use Rattle.channel_files.specs.Channel.{IsOfDisk};
ghost use Rattle.channel_files.specs.Images.{EachAsRead};
ghost use Rattle.channel_files.specs.Shows.{newest_of, Shows};
ghost use Rattle.channel_files.specs.Heads.{full_record};
ghost use Rattle.channel_files.specs.Stores.{IsStore, drops_to};
ghost use Rattle.channel_files.specs.Outcomes.{FileStays};

use crate::append::append_entry;
use crate::fault::FilesFault;
use store_io::Disk;
use transactions_file::TransactionsFile;
use tx_entry::Entry;

/// Appends the Truncation of the last entry, which is the store of this number at this place.
pub(crate) fn truncate<D: Disk>(
    disk: &mut D,
    transactions: &mut TransactionsFile,
    file: u64,
    at: u64,
    number: u64,
) -> Result<(), FilesFault>
    requires of_disk { IsTrue D.tells → IsOfDisk transactions.old (D.reads disk.old) }
    requires last { IsTrue (is_store_at transactions.old.inventory.state.entry file at number) }

    ensures state { OnOk result (transactions.new.inventory.state ≡ after transactions.old.inventory.state (Truncation file at number)) }
    ensures spare { transactions.new.inventory.spare ≡ transactions.old.inventory.spare }
    ensures err { OnErr result (transactions.new ≡ transactions.old) }
    ensures live { (file : ℕ) → is_live transactions.old.inventory.state.files file ≡ true → is_live transactions.new.inventory.state.files file ≡ true }
    ensures of_disk { IsTrue D.tells → OnOk result (IsOfDisk transactions.new (D.reads disk.new)) }
    ensures content { IsTrue D.tells → OnOk result (content_of (D.reads disk.new) ≡ take (length (content_of (D.reads disk.old)) - 1) (content_of (D.reads disk.old))) }
    ensures as_read { IsTrue D.tells → EachAsRead transactions.old (D.reads disk.old) (D.leaves disk.old) → OnOk result (EachAsRead transactions.new (D.reads disk.new) (D.leaves disk.new)) }

    // Whatever was answered, each image shows what was there, or this without the last store.
    ensures shows { let header = transactions.old.log.header in
        let s = transactions.old.inventory.state in
        let content = content_of (D.reads disk.old) in
        IsTrue D.tells → EachAsRead transactions.old (D.reads disk.old) (D.leaves disk.old)
        → EachImage (D.leaves disk.new) (λ image. Shows header s.last s.next_id (newest_of s.entry) s.next_id_before content image ⊎ Shows header s.last_before s.next_id_before 0 0 (take (length content - 1) content) image) }
    ensures full { IfSome (full_record transactions.old.log.length) (λ n. IsErrOf result (FilesFault.Full n) × (disk.new ≡ disk.old)) }
    ensures not_full { full_record transactions.old.log.length ≡ None → IfErr result (λ e. e ≡ FilesFault.Fault) }
    ensures header { transactions.new.log.header ≡ transactions.old.log.header }
    // File 1 is as it was.
    ensures types { IsTrue D.tells → FileStays 1 (D.reads disk.old) (D.reads disk.new) (D.leaves disk.old) (D.leaves disk.new) }
    ensures faults { D.faults disk.old ≤ D.faults disk.new }
    ensures cause { IsErrOf result FilesFault.Fault → Rose (D.faults disk.old) (D.faults disk.new) }
    ensures calm { OnOk result (D.faults disk.new ≡ D.faults disk.old) }
    ensures read_calls { D.read_calls disk.new ≡ D.read_calls disk.old }
{
    let entry = Entry::Truncation {
        file,
        new_length: at,
        dropped: number,
    };
    append_entry(disk, transactions, &entry)?;
    Ok(())
}

/// Drops the store that is the last entry. The one before it is then the last that is confirmed.
pub(crate) fn drop_last<D: Disk>(
    disk: &mut D,
    transactions: &mut TransactionsFile,
    confirmed: &mut u64,
) -> Result<(), FilesFault>
    requires of_disk { IsTrue D.tells → IsOfDisk transactions.old (D.reads disk.old) }
    requires last { IsStore transactions.old.inventory.state.entry }

    ensures state { OnOk result (transactions.new.inventory.state ≡ drops_to transactions.old.inventory.state) }
    ensures spare { transactions.new.inventory.spare ≡ transactions.old.inventory.spare }
    ensures err { OnErr result (transactions.new ≡ transactions.old) }
    ensures confirmed { OnOk result (confirmed.new ≡ transactions.old.inventory.state.last_before) }
    ensures not_confirmed { OnErr result (confirmed.new ≡ confirmed.old) }
    ensures live { (file : ℕ) → is_live transactions.old.inventory.state.files file ≡ true → is_live transactions.new.inventory.state.files file ≡ true }
    ensures of_disk { IsTrue D.tells → OnOk result (IsOfDisk transactions.new (D.reads disk.new)) }
    ensures content { IsTrue D.tells → OnOk result (content_of (D.reads disk.new) ≡ take (length (content_of (D.reads disk.old)) - 1) (content_of (D.reads disk.old))) }
    ensures as_read { IsTrue D.tells → EachAsRead transactions.old (D.reads disk.old) (D.leaves disk.old) → OnOk result (EachAsRead transactions.new (D.reads disk.new) (D.leaves disk.new)) }
    ensures shows { let header = transactions.old.log.header in
        let s = transactions.old.inventory.state in
        let content = content_of (D.reads disk.old) in
        IsTrue D.tells → EachAsRead transactions.old (D.reads disk.old) (D.leaves disk.old)
        → EachImage (D.leaves disk.new) (λ image. Shows header s.last s.next_id (newest_of s.entry) s.next_id_before content image ⊎ Shows header s.last_before s.next_id_before 0 0 (take (length content - 1) content) image) }
    ensures full { IfSome (full_record transactions.old.log.length) (λ n. IsErrOf result (FilesFault.Full n) × (disk.new ≡ disk.old)) }
    ensures not_full { full_record transactions.old.log.length ≡ None → IfErr result (λ e. e ≡ FilesFault.Fault) }
    ensures header { transactions.new.log.header ≡ transactions.old.log.header }
    // File 1 is as it was.
    ensures types { IsTrue D.tells → FileStays 1 (D.reads disk.old) (D.reads disk.new) (D.leaves disk.old) (D.leaves disk.new) }
    ensures faults { D.faults disk.old ≤ D.faults disk.new }
    ensures cause { IsErrOf result FilesFault.Fault → Rose (D.faults disk.old) (D.faults disk.new) }
    ensures calm { OnOk result (D.faults disk.new ≡ D.faults disk.old) }
    ensures read_calls { D.read_calls disk.new ≡ D.read_calls disk.old }
{
    let last = transactions.inventory().last_entry();
    let Some(
        Entry::Store {
            number,
            file,
            at,
            length: _,
            next_id: _,
        },
    ) = last
    else {
        unreachable!()
    };
    truncate(disk, transactions, file, at, number)?;
    *confirmed = transactions.inventory().last_store();
    Ok(())
}
