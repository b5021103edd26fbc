//! The file behind which chunks are written.
ghost use Rattle.std.specs.Prelude.{◌≡◌, ◌≤◌, ◌<◌, ◌-◌, ◌+◌, ◌^◌, ℕ, not, true, false, if◌then◌else◌, IsTrue, length, OnOk, OnErr, IfErr, IfSome, IsErrOf, None};
ghost use Rattle.call_counts.specs.Counts.{Rose};
ghost use Rattle.store_io.specs.Whole.{EachImage};
ghost use Rattle.transactions_file.specs.Files.{length_of, is_live};
ghost use Rattle.transactions_file.specs.Inventory.{after};
ghost use Rattle.channel_files.specs.Chunks.{content_of};
ghost use Rattle.channel_files.specs.Channel.{IsOfDisk};
ghost use Rattle.channel_files.specs.Images.{EachAsRead};
ghost use Rattle.channel_files.specs.Shows.{Shows};
ghost use Rattle.channel_files.specs.Heads.{has_room, head_end, full_creation};
ghost use Rattle.channel_files.specs.Outcomes.{FileStays};

use crate::append::append_entry;
use crate::fault::FilesFault;
use crate::place::Place;
use gated_log::log::FULL;
use store_io::Disk;
use transactions_file::{Inventory, TransactionsFile};
use tx_entry::Entry;

/// The greatest number of a file so far; 1 before the first.
pub(crate) fn last_created(inventory: &Inventory) -> u64
    ensures value { result ≡ inventory.now.state.created }
    ensures small { result < 2 ^ 31 }
{
    let _files = inventory.files();
    inventory.head().unwrap_or(1)
}

/// Whether there is a head with room for a chunk.
pub(crate) fn head_has_room(inventory: &Inventory, maximum: u64) -> bool
    ensures { result ≡ has_room (length_of inventory.now.state.files inventory.now.state.created) maximum }
{
    let head = last_created(inventory);
    match inventory.files().length_of(head) {
        Some(length) => length < maximum,
        None => false,
    }
}

/// Makes the next file the head.
pub(crate) fn create_head<D: Disk>(
    disk: &mut D,
    transactions: &mut TransactionsFile,
) -> Result<(), FilesFault>
    requires of_disk { IsTrue D.tells → IsOfDisk transactions.old (D.reads disk.old) }
    requires room { 1 ≤ transactions.old.inventory.spare }

    ensures log { OnOk result (transactions.new.log ≡ record transactions.old.log { length = transactions.old.log.length + 14; count = transactions.old.log.count + 1 }) }
    ensures state { OnOk result (transactions.new.inventory.state ≡ after transactions.old.inventory.state (Entry.Creation (transactions.old.inventory.state.created + 1))) }
    ensures spare { OnOk result (transactions.new.inventory.spare + 1 ≡ transactions.old.inventory.spare) }
    ensures err { OnErr result (transactions.new ≡ transactions.old) }
    ensures live { (file : ℕ) → is_live transactions.old.inventory.state.files file ≡ true → is_live transactions.new.inventory.state.files file ≡ true }
    ensures of_disk { IsTrue D.tells → OnOk result (IsOfDisk transactions.new (D.reads disk.new)) }
    ensures content { IsTrue D.tells → OnOk result (content_of (D.reads disk.new) ≡ content_of (D.reads disk.old)) }
    ensures as_read { IsTrue D.tells → EachAsRead transactions.old (D.reads disk.old) (D.leaves disk.old) → OnOk result (EachAsRead transactions.new (D.reads disk.new) (D.leaves disk.new)) }

    // Whatever was answered, each image shows the same store and the same chunks.
    ensures shows { let s = transactions.old.inventory.state in
        IsTrue D.tells → EachAsRead transactions.old (D.reads disk.old) (D.leaves disk.old)
        → EachImage (D.leaves disk.new) (Shows transactions.old.log.header s.last s.next_id 0 0 (content_of (D.reads disk.old))) }
    ensures full { IfSome (full_creation transactions.old.inventory.state transactions.old.log.length) (λ n. IsErrOf result (FilesFault.Full n) × (disk.new ≡ disk.old)) }
    ensures not_full { full_creation transactions.old.inventory.state transactions.old.log.length ≡ None → IfErr result (λ e. e ≡ FilesFault.Fault) }
    ensures header { transactions.new.log.header ≡ transactions.old.log.header }
    // File 1 is as it was.
    ensures types { IsTrue D.tells → FileStays 1 (D.reads disk.old) (D.reads disk.new) (D.leaves disk.old) (D.leaves disk.new) }
    ensures faults { D.faults disk.old ≤ D.faults disk.new }
    ensures cause { IsErrOf result FilesFault.Fault → Rose (D.faults disk.old) (D.faults disk.new) }
    ensures calm { OnOk result (D.faults disk.new ≡ D.faults disk.old) }
    ensures read_calls { D.read_calls disk.new ≡ D.read_calls disk.old }
{
    let length = transactions.length();
    if length > FULL {
        return Err(FilesFault::Full { number: length });
    }
    let file = last_created(transactions.inventory()) + 1;
    if file >= 1 << 31 {
        return Err(FilesFault::Full { number: 1 << 31 });
    }
    append_entry(disk, transactions, &Entry::Creation { file })?;
    Ok(())
}

/// The place behind the head, or behind what would be one.
pub(crate) fn head_end(inventory: &Inventory) -> Place
    ensures { result ≡ head_end inventory.now.state }
{
    let file = last_created(inventory);
    let at = inventory.files().length_of(file).unwrap_or(0);
    Place { file, at }
}
