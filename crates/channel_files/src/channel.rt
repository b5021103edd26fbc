//! The files of one channel.
use crate::chunk::store;
use crate::fault::FilesFault;
use crate::place::Place;
use crate::record::append_record;
use crate::sizes::Sizes;
use crate::truncate::drop_last;
use data_file::ReadFault;
use entity_form::Header;
use gated_log::GatedLog;
use std::alloc::AllocError;
use std::marker::Model;
use store_io::Disk;
use transactions_file::{Inventory, TransactionsFile};

/// A channel's disk: its transactions log is file 0 there, and its data files are those from 2 on.
///
/// After `Fault` of a call that writes, what the log says is not known to be what the disk has: the channel is to be given up.
#[derive(Drop)]
pub struct ChannelFiles<D> {
    disk: D,
    transactions: TransactionsFile,
    sizes: Sizes,
    /// The number of the last store that is confirmed.
    confirmed: u64,
}

impl<D> Model for ChannelFiles<D> {
    ghost use Rattle.channel_files.specs.Channel.{Channel, IsInRange};

    ghost Value = { Channel D };

    ghost view = { λ c. record { disk = c.disk; transactions = c.transactions; sizes = c.sizes; confirmed = c.confirmed } };

    ghost invariant = { λ c. IsInRange c.sizes };
}

impl<D: Disk> ChannelFiles<D> {
    ghost use Rattle.std.specs.Prelude.{◌≡◌, ◌≢◌, ◌⊎◌, ◌≤◌, ◌<◌, ◌-◌, ◌+◌, ◌^◌, ◌++◌, [], ◌∷◌, true, ℕ, List, IsTrue, IsErr, length, take, drop, OnOk, OnErr, IfOk, IfErr, IfSome, IsErrOf, Some, None};
    ghost use Rattle.store_io.specs.Disk.{Only, OthersStay};
    ghost use Rattle.call_counts.specs.Counts.{Rose, raised};
    ghost use Rattle.store_io.specs.Whole.{EachImage, IsClean};
    ghost use Rattle.gated_log.specs.Log.{payloads_of, IsLogOf, IsBeforeOrAfter, Each};
    ghost use Rattle.gated_log.specs.Of.{IsOf};
    ghost use Rattle.tx_entry.specs.declared.entry.Entry.TheVariants.{Store, Truncation};
    ghost use Rattle.transactions_file.specs.Files.{is_live};
    ghost use Rattle.transactions_file.specs.Inventory.{after};
    ghost use Rattle.data_file.specs.Chunks.{IsChunk};
    ghost use Rattle.data_file.specs.Headers.{BeginsWith, IsHeaderAt};
    ghost use Rattle.channel_files.specs.Chunks.{content_of};
    ghost use Rattle.channel_files.specs.Table.{table_of, with_chunk, IsSameTable};
    ghost use Rattle.channel_files.specs.Channel.{IsInRange, IsOfDisk};
    ghost use Rattle.channel_files.specs.Images.{EachAsRead};
    ghost use Rattle.channel_files.specs.Shows.{Shows, HasTables, HasTable, HasStored};
    ghost use Rattle.channel_files.specs.Heads.{with_new_head, with_head, heads_made, place_of, chunk_of, full_record, full_at_first, full_behind_creation};
    ghost use Rattle.channel_files.specs.Stores.{IsStore};
    ghost use Rattle.channel_files.specs.Faults.{IsFaultOrChanged, IsFaultOrFull, UnlessFault};
    ghost use Rattle.channel_files.specs.Whole.{HasWholeChunks};
    ghost use Rattle.channel_files.specs.Outcomes.{IsStored, IsDropped, IsAppended, Stays, FileStays};

    /// The files of a disk whose log was opened. The last store counts as confirmed.
    pub fn new(disk: D, log: TransactionsFile, sizes: Sizes) -> ChannelFiles<D>
        requires sizes { IsInRange sizes }
        requires of_disk { IsTrue D.tells → IsOfDisk log (D.reads disk) }
        ensures value { result ≡ record { disk = disk; transactions = log; sizes = sizes; confirmed = log.inventory.state.last } }
        ensures clean { IsTrue D.tells → IsClean (D.reads disk) (D.leaves disk) → EachAsRead log (D.reads disk) (D.leaves disk) }
    {
        let confirmed = log.inventory().last_store();
        ChannelFiles {
            disk,
            transactions: log,
            sizes,
            confirmed,
        }
    }

    /// What the log says of the channel's files.
    pub fn inventory(&self) -> &Inventory
        ensures { result.now ≡ self.now.transactions.inventory }
    {
        self.transactions.inventory()
    }

    /// The number of the last store that is confirmed.
    pub fn confirmed(&self) -> u64
        ensures { result ≡ self.now.confirmed }
    {
        self.confirmed
    }

    pub fn into_disk(self) -> D
        ensures { result ≡ self.disk }
    {
        self.disk
    }

    /// Makes room for at least two more files, and changes nothing else. A store that needs a new head needs room for one.
    pub fn prepare(&mut self) -> Result<(), AllocError>
        ensures room { OnOk result (2 ≤ self.new.transactions.inventory.spare) }
        ensures kept { self.old.transactions.inventory.spare ≤ self.new.transactions.inventory.spare }
        ensures state { self.new.transactions.inventory.state ≡ self.old.transactions.inventory.state }
        ensures log { self.new.transactions.log ≡ self.old.transactions.log }
        ensures disk { self.new.disk ≡ self.old.disk }
        ensures sizes { self.new.sizes ≡ self.old.sizes }
        ensures confirmed { self.new.confirmed ≡ self.old.confirmed }
    {
        self.transactions.reserve_files()
    }

    /// Stores the channel's part of a store: whole entities one after another, of at most 16,777,216 bytes, or none.
    ///
    /// The chunk goes behind the head, or into a new file where the head has `maximum` bytes or more. The store then counts as not confirmed.
    pub fn store_chunk(
        &mut self,
        number: u64,
        chunk: &[u8],
        next_id: u64,
    ) -> Result<Place, FilesFault>
        requires of_disk { IsTrue D.tells → IsOfDisk self.old.transactions (D.reads self.old.disk) }
        requires confirmed { self.old.confirmed ≡ self.old.transactions.inventory.state.last }
        requires spare { heads_made self.old.transactions.inventory.state self.old.sizes.maximum (length chunk.now) ≤ self.old.transactions.inventory.spare }
        requires number { number ≡ self.old.transactions.inventory.state.last + 1 }
        requires next_id { self.old.transactions.inventory.state.next_id ≤ next_id }
        requires next_id_limit { next_id ≤ 2 ^ 48 }
        requires whole { IsChunk chunk.now }
        requires most { length chunk.now ≤ 16777216 }

        // The chunk and the table in what is read and in each image, whatever was answered, and the three cases of `Full`.
        ensures stored { IsStored D.tells D.reads D.leaves self.old self.new number chunk.now next_id result }
        ensures whole_chunks { IsTrue D.tells → HasWholeChunks (D.reads self.old.disk) → UnlessFault result (HasWholeChunks (D.reads self.new.disk)) }
        ensures header { self.new.transactions.log.header ≡ self.old.transactions.log.header }
        // The log and the number of its last file do not fall; `Full` behind a new file comes with the log as it is then.
        ensures grows { self.old.transactions.log.length ≤ self.new.transactions.log.length }
        ensures created { self.old.transactions.inventory.state.created ≤ self.new.transactions.inventory.state.created }
        ensures full_log { full_at_first self.old.transactions.inventory.state self.old.transactions.log.length self.old.sizes.maximum number (length chunk.now) ≡ None
            → IfSome (full_behind_creation self.old.transactions.inventory.state self.old.transactions.log.length self.old.sizes.maximum (length chunk.now)) (λ n. IfErr result (IsFaultOrFull (λ m. self.new.transactions.log.length ≡ n))) }
        // File 1, which has no chunk and no entry, is as it was.
        ensures types { IsTrue D.tells → FileStays 1 (D.reads self.old.disk) (D.reads self.new.disk) (D.leaves self.old.disk) (D.leaves self.new.disk) }
        ensures numbers { OnErr result ((self.new.transactions.inventory.state.last ≡ self.old.transactions.inventory.state.last)
            × (self.new.transactions.inventory.state.next_id ≡ self.old.transactions.inventory.state.next_id)) }
        ensures live { (file : ℕ) → is_live self.old.transactions.inventory.state.files file ≡ true → is_live self.new.transactions.inventory.state.files file ≡ true }
        ensures place_live { 0 < length chunk.now → IfOk result (λ p. is_live self.new.transactions.inventory.state.files p.file ≡ true) }
        ensures sizes { self.new.sizes ≡ self.old.sizes }
        ensures unconfirmed { self.new.confirmed ≡ self.old.confirmed }
        ensures faults { D.faults self.old.disk ≤ D.faults self.new.disk }
        ensures cause { IsErrOf result FilesFault.Fault → Rose (D.faults self.old.disk) (D.faults self.new.disk) }
        ensures calm { OnOk result (D.faults self.new.disk ≡ D.faults self.old.disk) }
        ensures read_calls { D.read_calls self.new.disk ≡ D.read_calls self.old.disk }
    {
        store(
            &mut self.disk,
            &mut self.transactions,
            self.sizes.maximum,
            number,
            chunk,
            next_id,
        )
    }

    /// The last store counts as confirmed from now on.
    pub fn confirm(&mut self, number: u64)
        requires { number ≡ self.old.transactions.inventory.state.last }
        ensures { self.new ≡ record self.old { confirmed = number } }
    {
        self.confirmed = number;
    }

    /// Drops the last store, whose entry is the last one of the log. The store before it then counts as confirmed.
    pub fn drop_store(&mut self) -> Result<(), FilesFault>
        requires of_disk { IsTrue D.tells → IsOfDisk self.old.transactions (D.reads self.old.disk) }
        requires last { IsStore self.old.transactions.inventory.state.entry }

        // The inventory and the tables with or without that store, and `Full` exactly where the log takes no record.
        ensures dropped { IsDropped D.tells D.reads D.leaves self.old self.new result }
        ensures whole_chunks { IsTrue D.tells → HasWholeChunks (D.reads self.old.disk) → OnOk result (HasWholeChunks (D.reads self.new.disk)) }
        ensures header { self.new.transactions.log.header ≡ self.old.transactions.log.header }
        // File 1, which has no chunk and no entry, is as it was.
        ensures types { IsTrue D.tells → FileStays 1 (D.reads self.old.disk) (D.reads self.new.disk) (D.leaves self.old.disk) (D.leaves self.new.disk) }
        ensures err { OnErr result (self.new.transactions ≡ self.old.transactions) }
        ensures live { (file : ℕ) → is_live self.old.transactions.inventory.state.files file ≡ true → is_live self.new.transactions.inventory.state.files file ≡ true }
        ensures room { self.new.transactions.inventory.spare ≡ self.old.transactions.inventory.spare }
        ensures confirmed { OnOk result (self.new.confirmed ≡ self.old.transactions.inventory.state.last_before) }
        ensures sizes { self.new.sizes ≡ self.old.sizes }
        ensures faults { D.faults self.old.disk ≤ D.faults self.new.disk }
        ensures cause { IsErrOf result FilesFault.Fault → Rose (D.faults self.old.disk) (D.faults self.new.disk) }
        ensures calm { OnOk result (D.faults self.new.disk ≡ D.faults self.old.disk) }
        ensures read_calls { D.read_calls self.new.disk ≡ D.read_calls self.old.disk }
    {
        drop_last(&mut self.disk, &mut self.transactions, &mut self.confirmed)
    }

    /// Reads the entity with this header from its place in a live file to the front of `out`.
    ///
    /// `Changed` comes exactly where the 32 bytes that were read are not the header.
    pub fn read_entity(
        &mut self,
        file: u64,
        at: u64,
        header: Header,
        out: &mut [u8],
    ) -> Result<(), FilesFault>
        requires live { is_live self.old.transactions.inventory.state.files file ≡ true }
        requires whole { 32 ≤ header.length }
        requires room { header.length ≤ length out.old }
        requires within { IsTrue D.tells → at + header.length ≤ length (D.reads self.old.disk file) }
        requires stands { IsTrue D.tells → IsHeaderAt (D.reads self.old.disk file) at header }

        ensures entity { IsTrue D.tells → OnOk result (take header.length out.new ≡ take header.length (drop at (D.reads self.old.disk file))) }
        ensures behind { drop header.length out.new ≡ drop header.length out.old }
        ensures same { OnOk result (BeginsWith (take 32 out.new) header) }
        ensures changed { IfErr result (IsFaultOrChanged (λ place. (place ≡ at) × (¬ BeginsWith (take 32 out.new) header))) }
        ensures never_changed { IsTrue D.tells → IfErr result (λ e. e ≡ FilesFault.Fault) }

        ensures transactions { self.new.transactions ≡ self.old.transactions }
        ensures sizes { self.new.sizes ≡ self.old.sizes }
        ensures confirmed { self.new.confirmed ≡ self.old.confirmed }
        ensures reads { IsTrue D.tells → D.reads self.new.disk ≡ D.reads self.old.disk }
        ensures leaves { IsTrue D.tells → D.leaves self.new.disk ≡ D.leaves self.old.disk }
        ensures faults { D.faults self.old.disk ≤ D.faults self.new.disk }
        ensures cause { IsErrOf result FilesFault.Fault → Rose (D.faults self.old.disk) (D.faults self.new.disk) }
        ensures calm { OnOk result (D.faults self.new.disk ≡ D.faults self.old.disk) }
        ensures read_calls { D.read_calls self.new.disk ≡ raised (D.read_calls self.old.disk) }
    {
        let _inventory = self.transactions.inventory();
        match data_file::read_entity(&mut self.disk, file as u32, at, header, out) {
            Ok(()) => Ok(()),
            Err(ReadFault::Fault) => Err(FilesFault::Fault),
            Err(ReadFault::Changed) => Err(FilesFault::Changed { at }),
        }
    }

    /// Adds a payload of 1 to 1,048,576 bytes to the log of this disk's file 1. The channel's own files, log and tables stay.
    pub fn keep_record(&mut self, log: &mut GatedLog, text: &[u8]) -> Result<(), FilesFault>
        requires of_disk { IsTrue D.tells → IsOfDisk self.old.transactions (D.reads self.old.disk) }
        requires some { 1 ≤ length text.now }
        requires size { length text.now ≤ 1048576 }
        requires file { log.old.file ≡ 1 }
        requires of_log { IsTrue D.tells → IsOf log.old (D.reads self.old.disk 1) }

        ensures ok { OnOk result (log.new ≡ record log.old { length = log.old.length + 5 + length text.now; count = log.old.count + 1 }) }
        ensures err { OnErr result (log.new ≡ log.old) }
        ensures of_log { IsTrue D.tells → OnOk result (IsOf log.new (D.reads self.new.disk 1)) }
        // The payload in what is read and in each image of file 1, and `Full` exactly where that log takes no record.
        ensures appended { IsAppended D.tells D.reads D.leaves self.old.disk self.new.disk log.old text.now result }

        // Whatever was answered, what the channel has on the disk is as it was.
        ensures stays { Stays D.tells D.reads D.leaves self.old self.new }
        ensures faults { D.faults self.old.disk ≤ D.faults self.new.disk }
        ensures cause { IsErrOf result FilesFault.Fault → Rose (D.faults self.old.disk) (D.faults self.new.disk) }
        ensures calm { OnOk result (D.faults self.new.disk ≡ D.faults self.old.disk) }
        ensures read_calls { D.read_calls self.new.disk ≡ D.read_calls self.old.disk }
    {
        append_record(&mut self.disk, log, text)
    }
}
