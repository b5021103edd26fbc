//! A store of a channel.
ghost use Rattle.std.specs.Prelude.{◌≡◌, ◌≢◌, ◌⊎◌, ◌≤◌, ◌<◌, ◌-◌, ◌+◌, ◌^◌, ◌++◌, [], ◌∷◌, true, false, ℕ, IsTrue, IsErr, length, OnOk, OnErr, IfOk, IfErr, IfSome, IsErrOf, None};
ghost use Rattle.call_counts.specs.Counts.{Rose};
ghost use Rattle.store_io.specs.Whole.{EachImage};
ghost use Rattle.tx_entry.specs.declared.entry.Entry.TheVariants.{Store};
ghost use Rattle.transactions_file.specs.Files.{is_live, length_in};
ghost use Rattle.transactions_file.specs.Inventory.{after};
ghost use Rattle.data_file.specs.Chunks.{IsChunk};
ghost use Rattle.channel_files.specs.Chunks.{content_of};
ghost use Rattle.channel_files.specs.Channel.{IsOfDisk};
ghost use Rattle.channel_files.specs.Images.{EachAsRead};
ghost use Rattle.channel_files.specs.Shows.{Shows};
ghost use Rattle.channel_files.specs.Heads.{lacks_room, with_new_head, with_head, heads_made, head_end, place_of, chunk_of, full_record, full_creation, full_at_first, full_behind_creation};
ghost use Rattle.channel_files.specs.Faults.{IsFaultOrFull, UnlessFault};
ghost use Rattle.channel_files.specs.Outcomes.{FileStays};

use crate::fault::FilesFault;
use crate::head::{create_head, head_end, head_has_room};
use crate::place::Place;
use crate::store::{store_nothing, store_some};
use store_io::Disk;
use transactions_file::TransactionsFile;

/// Stores a chunk behind the head, which has room.
fn store_behind_head<D: Disk>(
    disk: &mut D,
    transactions: &mut TransactionsFile,
    number: u64,
    chunk: &[u8],
    next_id: u64,
) -> Result<Place, FilesFault>
    requires of_disk { IsTrue D.tells → IsOfDisk transactions.old (D.reads disk.old) }
    requires live { is_live transactions.old.inventory.state.files transactions.old.inventory.state.created ≡ true }
    requires room { length_in transactions.old.inventory.state.files transactions.old.inventory.state.created < 2 ^ 30 }
    requires number { number ≡ transactions.old.inventory.state.last + 1 }
    requires number_limit { number ≤ 2 ^ 63 }
    requires next_id { transactions.old.inventory.state.next_id ≤ next_id }
    requires next_id_limit { next_id ≤ 2 ^ 48 }
    requires some { 32 ≤ length chunk.now }
    requires most { length chunk.now ≤ 16777216 }

    ensures place { IfOk result (λ place. place ≡ head_end transactions.old.inventory.state) }
    ensures state { IfOk result (λ place. transactions.new.inventory.state ≡ after transactions.old.inventory.state (Store number place.file place.at (length chunk.now) next_id)) }
    ensures spare { transactions.new.inventory.spare ≡ transactions.old.inventory.spare }
    ensures err { OnErr result (transactions.new ≡ transactions.old) }
    ensures live { (file : ℕ) → is_live transactions.old.inventory.state.files file ≡ true → is_live transactions.new.inventory.state.files file ≡ true }
    ensures place_live { IfOk result (λ place. is_live transactions.new.inventory.state.files place.file ≡ true) }
    ensures of_disk { IsTrue D.tells → OnOk result (IsOfDisk transactions.new (D.reads disk.new)) }
    ensures content { IsTrue D.tells → OnOk result (content_of (D.reads disk.new) ≡ content_of (D.reads disk.old) ++ chunk_of number (head_end transactions.old.inventory.state) chunk.now ∷ []) }
    ensures as_read { IsTrue D.tells → EachAsRead transactions.old (D.reads disk.old) (D.leaves disk.old) → OnOk result (EachAsRead transactions.new (D.reads disk.new) (D.leaves disk.new)) }
    ensures shows { let header = transactions.old.log.header in
        let s = transactions.old.inventory.state in
        IsTrue D.tells → EachAsRead transactions.old (D.reads disk.old) (D.leaves disk.old)
        → EachImage (D.leaves disk.new) (λ image. Shows header s.last s.next_id 0 0 (content_of (D.reads disk.old)) image
        ⊎ Shows header number next_id number s.next_id (content_of (D.reads disk.old) ++ chunk_of number (head_end s) chunk.now ∷ []) image) }
    ensures full { IfSome (full_record transactions.old.log.length) (λ n. IsErrOf result (FilesFault.Full n) × (disk.new ≡ disk.old)) }
    ensures not_full { full_record transactions.old.log.length ≡ None → IfErr result (λ e. e ≡ FilesFault.Fault) }
    ensures header { transactions.new.log.header ≡ transactions.old.log.header }
    ensures grows { transactions.old.log.length ≤ transactions.new.log.length }
    ensures created { transactions.old.inventory.state.created ≤ transactions.new.inventory.state.created }
    // File 1 is as it was.
    ensures types { IsTrue D.tells → FileStays 1 (D.reads disk.old) (D.reads disk.new) (D.leaves disk.old) (D.leaves disk.new) }
    ensures faults { D.faults disk.old ≤ D.faults disk.new }
    ensures cause { IsErrOf result FilesFault.Fault → Rose (D.faults disk.old) (D.faults disk.new) }
    ensures calm { OnOk result (D.faults disk.new ≡ D.faults disk.old) }
    ensures read_calls { D.read_calls disk.new ≡ D.read_calls disk.old }
{
    let place = head_end(transactions.inventory());
    store_some(disk, transactions, number, place, chunk, next_id)?;
    Ok(place)
}

/// Stores a chunk in a new head.
fn store_in_new_head<D: Disk>(
    disk: &mut D,
    transactions: &mut TransactionsFile,
    number: u64,
    chunk: &[u8],
    next_id: u64,
) -> Result<Place, FilesFault>
    requires of_disk { IsTrue D.tells → IsOfDisk transactions.old (D.reads disk.old) }
    requires spare { 1 ≤ transactions.old.inventory.spare }
    requires number { number ≡ transactions.old.inventory.state.last + 1 }
    requires number_limit { number ≤ 2 ^ 63 }
    requires next_id { transactions.old.inventory.state.next_id ≤ next_id }
    requires next_id_limit { next_id ≤ 2 ^ 48 }
    requires some { 32 ≤ length chunk.now }
    requires most { length chunk.now ≤ 16777216 }

    ensures place { IfOk result (λ place. place ≡ head_end (with_new_head transactions.old.inventory.state)) }
    ensures state { IfOk result (λ place. transactions.new.inventory.state ≡ after (with_new_head transactions.old.inventory.state) (Store number place.file place.at (length chunk.now) next_id)) }
    ensures spare { OnOk result (transactions.new.inventory.spare + 1 ≡ transactions.old.inventory.spare) }
    ensures live { (file : ℕ) → is_live transactions.old.inventory.state.files file ≡ true → is_live transactions.new.inventory.state.files file ≡ true }
    ensures place_live { IfOk result (λ place. is_live transactions.new.inventory.state.files place.file ≡ true) }
    ensures numbers { OnErr result ((transactions.new.inventory.state.last ≡ transactions.old.inventory.state.last)
        × (transactions.new.inventory.state.next_id ≡ transactions.old.inventory.state.next_id)) }
    ensures of_disk { IsTrue D.tells → UnlessFault result (IsOfDisk transactions.new (D.reads disk.new)) }
    ensures content { IsTrue D.tells → OnOk result (content_of (D.reads disk.new) ≡ content_of (D.reads disk.old) ++ chunk_of number (head_end (with_new_head transactions.old.inventory.state)) chunk.now ∷ []) }
    ensures content_kept { IsTrue D.tells → IfErr result (IsFaultOrFull (λ n. content_of (D.reads disk.new) ≡ content_of (D.reads disk.old))) }
    ensures as_read { IsTrue D.tells → EachAsRead transactions.old (D.reads disk.old) (D.leaves disk.old) → UnlessFault result (EachAsRead transactions.new (D.reads disk.new) (D.leaves disk.new)) }
    ensures shows { let header = transactions.old.log.header in
        let s = transactions.old.inventory.state in
        IsTrue D.tells → EachAsRead transactions.old (D.reads disk.old) (D.leaves disk.old)
        → EachImage (D.leaves disk.new) (λ image. Shows header s.last s.next_id 0 0 (content_of (D.reads disk.old)) image
        ⊎ Shows header number next_id number s.next_id (content_of (D.reads disk.old) ++ chunk_of number (head_end (with_new_head s)) chunk.now ∷ []) image) }
    ensures full { IfSome (full_creation transactions.old.inventory.state transactions.old.log.length) (λ n. IsErrOf result (FilesFault.Full n) × ((disk.new ≡ disk.old) × (transactions.new ≡ transactions.old))) }
    ensures full_behind { full_creation transactions.old.inventory.state transactions.old.log.length ≡ None
        → IfSome (full_record (transactions.old.log.length + 14)) (λ n. IsErr result × IfErr result (IsFaultOrFull (λ m. (m ≡ n) × (transactions.new.inventory.state ≡ with_new_head transactions.old.inventory.state)))) }
    ensures not_full { full_creation transactions.old.inventory.state transactions.old.log.length ≡ None → full_record (transactions.old.log.length + 14) ≡ None → IfErr result (λ e. e ≡ FilesFault.Fault) }
    ensures header { transactions.new.log.header ≡ transactions.old.log.header }
    ensures grows { transactions.old.log.length ≤ transactions.new.log.length }
    ensures created { transactions.old.inventory.state.created ≤ transactions.new.inventory.state.created }
    ensures full_log { full_creation transactions.old.inventory.state transactions.old.log.length ≡ None → IfSome (full_record (transactions.old.log.length + 14)) (λ n. IfErr result (IsFaultOrFull (λ m. transactions.new.log.length ≡ n))) }
    // File 1 is as it was.
    ensures types { IsTrue D.tells → FileStays 1 (D.reads disk.old) (D.reads disk.new) (D.leaves disk.old) (D.leaves disk.new) }
    ensures faults { D.faults disk.old ≤ D.faults disk.new }
    ensures cause { IsErrOf result FilesFault.Fault → Rose (D.faults disk.old) (D.faults disk.new) }
    ensures calm { OnOk result (D.faults disk.new ≡ D.faults disk.old) }
    ensures read_calls { D.read_calls disk.new ≡ D.read_calls disk.old }
{
    let _inventory = transactions.inventory();
    create_head(disk, transactions)?;
    store_behind_head(disk, transactions, number, chunk, next_id)
}

/// Stores the channel's part of a store.
pub(crate) fn store<D: Disk>(
    disk: &mut D,
    transactions: &mut TransactionsFile,
    maximum: u64,
    number: u64,
    chunk: &[u8],
    next_id: u64,
) -> Result<Place, FilesFault>
    requires of_disk { IsTrue D.tells → IsOfDisk transactions.old (D.reads disk.old) }
    requires maximum { maximum ≤ 2 ^ 30 }
    requires spare { heads_made transactions.old.inventory.state maximum (length chunk.now) ≤ transactions.old.inventory.spare }
    requires number { number ≡ transactions.old.inventory.state.last + 1 }
    requires next_id { transactions.old.inventory.state.next_id ≤ next_id }
    requires next_id_limit { next_id ≤ 2 ^ 48 }
    requires whole { IsChunk chunk.now }
    requires most { length chunk.now ≤ 16777216 }

    ensures place { IfOk result (λ place. place ≡ place_of (with_head transactions.old.inventory.state maximum (length chunk.now)) (length chunk.now)) }
    ensures state { IfOk result (λ place. transactions.new.inventory.state ≡ after (with_head transactions.old.inventory.state maximum (length chunk.now)) (Store number place.file place.at (length chunk.now) next_id)) }
    ensures spare { OnOk result (transactions.new.inventory.spare + heads_made transactions.old.inventory.state maximum (length chunk.now) ≡ transactions.old.inventory.spare) }
    ensures live { (file : ℕ) → is_live transactions.old.inventory.state.files file ≡ true → is_live transactions.new.inventory.state.files file ≡ true }
    ensures place_live { 0 < length chunk.now → IfOk result (λ place. is_live transactions.new.inventory.state.files place.file ≡ true) }
    ensures numbers { OnErr result ((transactions.new.inventory.state.last ≡ transactions.old.inventory.state.last)
        × (transactions.new.inventory.state.next_id ≡ transactions.old.inventory.state.next_id)) }
    ensures of_disk { IsTrue D.tells → UnlessFault result (IsOfDisk transactions.new (D.reads disk.new)) }
    ensures content { let place = place_of (with_head transactions.old.inventory.state maximum (length chunk.now)) (length chunk.now) in
        IsTrue D.tells → OnOk result (content_of (D.reads disk.new) ≡ content_of (D.reads disk.old) ++ chunk_of number place chunk.now ∷ []) }
    ensures content_kept { IsTrue D.tells → IfErr result (IsFaultOrFull (λ n. content_of (D.reads disk.new) ≡ content_of (D.reads disk.old))) }
    ensures as_read { IsTrue D.tells → EachAsRead transactions.old (D.reads disk.old) (D.leaves disk.old) → UnlessFault result (EachAsRead transactions.new (D.reads disk.new) (D.leaves disk.new)) }
    ensures shows { let header = transactions.old.log.header in
        let s = transactions.old.inventory.state in
        let place = place_of (with_head s maximum (length chunk.now)) (length chunk.now) in
        IsTrue D.tells → EachAsRead transactions.old (D.reads disk.old) (D.leaves disk.old)
        → EachImage (D.leaves disk.new) (λ image. Shows header s.last s.next_id 0 0 (content_of (D.reads disk.old)) image
        ⊎ Shows header number next_id number s.next_id (content_of (D.reads disk.old) ++ chunk_of number place chunk.now ∷ []) image) }
    ensures full { IfSome (full_at_first transactions.old.inventory.state transactions.old.log.length maximum number (length chunk.now)) (λ n. IsErrOf result (FilesFault.Full n) × ((disk.new ≡ disk.old) × (transactions.new ≡ transactions.old))) }
    ensures full_behind { full_at_first transactions.old.inventory.state transactions.old.log.length maximum number (length chunk.now) ≡ None
        → IfSome (full_behind_creation transactions.old.inventory.state transactions.old.log.length maximum (length chunk.now))
        (λ n. IsErr result × IfErr result (IsFaultOrFull (λ m. (m ≡ n) × (transactions.new.inventory.state ≡ with_new_head transactions.old.inventory.state)))) }
    ensures not_full { full_at_first transactions.old.inventory.state transactions.old.log.length maximum number (length chunk.now) ≡ None
        → full_behind_creation transactions.old.inventory.state transactions.old.log.length maximum (length chunk.now) ≡ None → IfErr result (λ e. e ≡ FilesFault.Fault) }
    ensures header { transactions.new.log.header ≡ transactions.old.log.header }
    ensures grows { transactions.old.log.length ≤ transactions.new.log.length }
    ensures created { transactions.old.inventory.state.created ≤ transactions.new.inventory.state.created }
    ensures full_log { full_at_first transactions.old.inventory.state transactions.old.log.length maximum number (length chunk.now) ≡ None
        → IfSome (full_behind_creation transactions.old.inventory.state transactions.old.log.length maximum (length chunk.now)) (λ n. IfErr result (IsFaultOrFull (λ m. transactions.new.log.length ≡ n))) }
    // File 1 is as it was.
    ensures types { IsTrue D.tells → FileStays 1 (D.reads disk.old) (D.reads disk.new) (D.leaves disk.old) (D.leaves disk.new) }
    ensures faults { D.faults disk.old ≤ D.faults disk.new }
    ensures cause { IsErrOf result FilesFault.Fault → Rose (D.faults disk.old) (D.faults disk.new) }
    ensures calm { OnOk result (D.faults disk.new ≡ D.faults disk.old) }
    ensures read_calls { D.read_calls disk.new ≡ D.read_calls disk.old }
{
    if number > 1 << 63 {
        return Err(FilesFault::Full { number: 1 << 63 });
    }
    if chunk.is_empty() {
        store_nothing(disk, transactions, number, next_id)?;
        return Ok(Place { file: 0, at: 0 });
    }
    if head_has_room(transactions.inventory(), maximum) {
        store_behind_head(disk, transactions, number, chunk, next_id)
    } else {
        store_in_new_head(disk, transactions, number, chunk, next_id)
    }
}
