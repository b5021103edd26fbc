//! A store's chunk and its entry.
ghost use Rattle.std.specs.Prelude.{◌≡◌, ◌≢◌, ◌⊎◌, ◌≤◌, ◌<◌, ◌-◌, ◌+◌, ◌^◌, ◌++◌, [], ◌∷◌, true, ℕ, IsTrue, length, OnOk, OnErr, IfOk, IfErr, IfSome, IsErrOf, None};
ghost use Rattle.call_counts.specs.Counts.{Rose};
ghost use Rattle.store_io.specs.Whole.{EachImage};
ghost use Rattle.transactions_file.specs.Files.{is_live};
ghost use Rattle.transactions_file.specs.Inventory.{after, allowed};
ghost use Rattle.channel_files.specs.Chunks.{content_of};
ghost use Rattle.channel_files.specs.Channel.{IsOfDisk};
ghost use Rattle.channel_files.specs.Images.{EachAsRead};
ghost use Rattle.channel_files.specs.Shows.{Shows};
ghost use Rattle.channel_files.specs.Heads.{chunk_of, full_record};
ghost use Rattle.channel_files.specs.Outcomes.{FileStays};

use crate::append::append_entry;
use crate::fault::FilesFault;
use crate::place::Place;
use crate::write::write_behind;
use gated_log::log::FULL;
use store_io::Disk;
use transactions_file::TransactionsFile;
use tx_entry::Entry;

/// Appends the entry of a store that has no chunk in this channel.
pub(crate) fn store_nothing<D: Disk>(
    disk: &mut D,
    transactions: &mut TransactionsFile,
    number: u64,
    next_id: u64,
) -> Result<(), FilesFault>
    requires of_disk { IsTrue D.tells → IsOfDisk transactions.old (D.reads disk.old) }
    requires allowed { IsTrue (allowed transactions.old.inventory.state (Entry.Store number 0 0 0 next_id)) }

    ensures state { OnOk result (transactions.new.inventory.state ≡ after transactions.old.inventory.state (Entry.Store number 0 0 0 next_id)) }
    ensures spare { transactions.new.inventory.spare ≡ transactions.old.inventory.spare }
    ensures log { OnOk result (transactions.new.log ≡ record transactions.old.log { length = transactions.old.log.length + 46; count = transactions.old.log.count + 1 }) }
    ensures err { OnErr result (transactions.new ≡ transactions.old) }
    ensures live { (file : ℕ) → is_live transactions.old.inventory.state.files file ≡ true → is_live transactions.new.inventory.state.files file ≡ true }
    ensures of_disk { IsTrue D.tells → OnOk result (IsOfDisk transactions.new (D.reads disk.new)) }
    ensures content { IsTrue D.tells → OnOk result (content_of (D.reads disk.new) ≡ content_of (D.reads disk.old) ++ chunk_of number (record { file = 0; at = 0 }) [] ∷ []) }
    ensures as_read { IsTrue D.tells → EachAsRead transactions.old (D.reads disk.old) (D.leaves disk.old) → OnOk result (EachAsRead transactions.new (D.reads disk.new) (D.leaves disk.new)) }

    // Whatever was answered, each image shows what was there, or this and the empty chunk.
    ensures shows { let header = transactions.old.log.header in
        let s = transactions.old.inventory.state in
        IsTrue D.tells → EachAsRead transactions.old (D.reads disk.old) (D.leaves disk.old)
        → EachImage (D.leaves disk.new) (λ image. Shows header s.last s.next_id 0 0 (content_of (D.reads disk.old)) image
        ⊎ Shows header number next_id number s.next_id (content_of (D.reads disk.old) ++ chunk_of number (record { file = 0; at = 0 }) [] ∷ []) image) }
    ensures full { IfSome (full_record transactions.old.log.length) (λ n. IsErrOf result (FilesFault.Full n) × (disk.new ≡ disk.old)) }
    ensures not_full { full_record transactions.old.log.length ≡ None → IfErr result (λ e. e ≡ FilesFault.Fault) }
    ensures header { transactions.new.log.header ≡ transactions.old.log.header }
    // File 1 is as it was.
    ensures types { IsTrue D.tells → FileStays 1 (D.reads disk.old) (D.reads disk.new) (D.leaves disk.old) (D.leaves disk.new) }
    ensures faults { D.faults disk.old ≤ D.faults disk.new }
    ensures cause { IsErrOf result FilesFault.Fault → Rose (D.faults disk.old) (D.faults disk.new) }
    ensures calm { OnOk result (D.faults disk.new ≡ D.faults disk.old) }
    ensures read_calls { D.read_calls disk.new ≡ D.read_calls disk.old }
{
    let nothing = Entry::Store {
        number,
        file: 0,
        at: 0,
        length: 0,
        next_id,
    };
    append_entry(disk, transactions, &nothing)?;
    Ok(())
}

/// Syncs a chunk behind the head before its entry is appended.
pub(crate) fn store_some<D: Disk>(
    disk: &mut D,
    transactions: &mut TransactionsFile,
    number: u64,
    place: Place,
    chunk: &[u8],
    next_id: u64,
) -> Result<(), FilesFault>
    requires of_disk { IsTrue D.tells → IsOfDisk transactions.old (D.reads disk.old) }
    requires some { length chunk.now ≢ 0 }
    requires allowed { IsTrue (allowed transactions.old.inventory.state (Entry.Store number place.file place.at (length chunk.now) next_id)) }

    ensures state { OnOk result (transactions.new.inventory.state ≡ after transactions.old.inventory.state (Entry.Store number place.file place.at (length chunk.now) next_id)) }
    ensures spare { transactions.new.inventory.spare ≡ transactions.old.inventory.spare }
    ensures log { OnOk result (transactions.new.log ≡ record transactions.old.log { length = transactions.old.log.length + 46; count = transactions.old.log.count + 1 }) }
    ensures err { OnErr result (transactions.new ≡ transactions.old) }
    ensures live { (file : ℕ) → is_live transactions.old.inventory.state.files file ≡ true → is_live transactions.new.inventory.state.files file ≡ true }
    ensures of_disk { IsTrue D.tells → OnOk result (IsOfDisk transactions.new (D.reads disk.new)) }
    ensures content { IsTrue D.tells → OnOk result (content_of (D.reads disk.new) ≡ content_of (D.reads disk.old) ++ chunk_of number place chunk.now ∷ []) }
    ensures as_read { IsTrue D.tells → EachAsRead transactions.old (D.reads disk.old) (D.leaves disk.old) → OnOk result (EachAsRead transactions.new (D.reads disk.new) (D.leaves disk.new)) }

    // Whatever was answered, each image shows what was there, or this and the new chunk.
    ensures shows { let header = transactions.old.log.header in
        let s = transactions.old.inventory.state in
        IsTrue D.tells → EachAsRead transactions.old (D.reads disk.old) (D.leaves disk.old)
        → EachImage (D.leaves disk.new) (λ image. Shows header s.last s.next_id 0 0 (content_of (D.reads disk.old)) image
        ⊎ Shows header number next_id number s.next_id (content_of (D.reads disk.old) ++ chunk_of number place chunk.now ∷ []) image) }
    ensures full { IfSome (full_record transactions.old.log.length) (λ n. IsErrOf result (FilesFault.Full n) × (disk.new ≡ disk.old)) }
    ensures not_full { full_record transactions.old.log.length ≡ None → IfErr result (λ e. e ≡ FilesFault.Fault) }
    ensures header { transactions.new.log.header ≡ transactions.old.log.header }
    // File 1 is as it was.
    ensures types { IsTrue D.tells → FileStays 1 (D.reads disk.old) (D.reads disk.new) (D.leaves disk.old) (D.leaves disk.new) }
    ensures faults { D.faults disk.old ≤ D.faults disk.new }
    ensures cause { IsErrOf result FilesFault.Fault → Rose (D.faults disk.old) (D.faults disk.new) }
    ensures calm { OnOk result (D.faults disk.new ≡ D.faults disk.old) }
    ensures read_calls { D.read_calls disk.new ≡ D.read_calls disk.old }
{
    let length = transactions.length();
    if length > FULL {
        return Err(FilesFault::Full { number: length });
    }
    let _inventory = transactions.inventory();
    write_behind(disk, transactions, place.file as u32, place.at, chunk)?;
    let entry = Entry::Store {
        number,
        file: place.file,
        at: place.at,
        length: chunk.len() as u64,
        next_id,
    };
    append_entry(disk, transactions, &entry)?;
    Ok(())
}
