//! A transactions log together with its inventory.
use crate::entries::append_entry;
use crate::inventory::Inventory;
use gated_log::{AppendFault, GatedLog};
use std::alloc::AllocError;
use std::marker::Model;
use store_io::Disk;
use tx_entry::Entry;

/// The transactions log of a channel, and what its entries say of the channel's files.
#[derive(Drop)]
pub struct TransactionsFile {
    log: GatedLog,
    inventory: Inventory,
}

impl Model for TransactionsFile {
    ghost use Rattle.transactions_file.specs.Transactions.{Transactions};

    ghost Value = { Transactions };

    ghost view = { λ t. record { log = t.log; inventory = t.inventory } };
}

impl TransactionsFile {
    ghost use Rattle.std.specs.Prelude.{◌≡◌, ◌≤◌, ◌<◌, ◌+◌, ◌-◌, ◌^◌, ◌++◌, [], ◌∷◌, IsTrue, length, OnOk, OnErr, IfErr, IsErrOf, Ok, Some};
    ghost use Rattle.store_io.specs.Disk.{Only, OthersStay};
    ghost use Rattle.call_counts.specs.Counts.{Rose};
    ghost use Rattle.gated_log.specs.Log.{payloads_of, IsLogOf, IsBeforeOrAfter, Each};
    ghost use Rattle.tx_entry.specs.Entries.{spelling, entry_of};
    ghost use Rattle.transactions_file.specs.Inventory.{allowed, after, creations, inventory_of, IsSound};
    ghost use Rattle.transactions_file.specs.Transactions.{IsKept};

    /// A log that was opened and the inventory of its entries.
    pub fn join(log: GatedLog, inventory: Inventory) -> TransactionsFile
        ensures log { result.log ≡ log }
        ensures inventory { result.inventory ≡ inventory }
    {
        TransactionsFile { log, inventory }
    }

    pub fn inventory(&self) -> &Inventory
        ensures inventory { result.now ≡ self.now.inventory }
        ensures sound { IsSound self.now.inventory.state }
    {
        let _files = self.inventory.files();
        &self.inventory
    }

    /// The number of bytes of the log.
    pub fn length(&self) -> u64
        ensures { result ≡ self.now.log.length }
    {
        self.log.length()
    }

    /// Makes room for at least two more files.
    pub fn reserve_files(&mut self) -> Result<(), AllocError>
        ensures room { OnOk result (2 ≤ self.new.inventory.spare) }
        ensures kept { self.old.inventory.spare ≤ self.new.inventory.spare }
        ensures state { self.new.inventory.state ≡ self.old.inventory.state }
        ensures log { self.new.log ≡ self.old.log }
    {
        self.inventory.reserve(2)
    }

    /// Appends an entry that is allowed. After `Fault` the log is to be given up.
    pub fn append<D: Disk>(&mut self, disk: &mut D, entry: &Entry) -> Result<(), AppendFault>
        requires kept { IsTrue D.tells → IsKept self.old (D.reads disk.old self.old.log.file) }
        requires allowed { IsTrue (allowed self.old.inventory.state entry.now) }
        requires room { creations entry.now ≤ self.old.inventory.spare }

        // At `Ok` the entry is in the inventory, in what is read and in every image.
        ensures state { OnOk result (self.new.inventory.state ≡ after self.old.inventory.state entry.now) }
        ensures spare { OnOk result (self.new.inventory.spare + creations entry.now ≡ self.old.inventory.spare) }
        ensures kept { IsTrue D.tells → OnOk result (IsKept self.new (D.reads disk.new self.old.log.file)) }
        ensures added { IsTrue D.tells → OnOk result (payloads_of (D.reads disk.new self.old.log.file) ≡ payloads_of (D.reads disk.old self.old.log.file) ++ spelling entry.now ∷ []) }
        ensures durable { IsTrue D.tells → OnOk result (Only (D.reads disk.new self.old.log.file) (D.leaves disk.new self.old.log.file)) }
        ensures log { OnOk result (self.new.log ≡ record self.old.log { length = self.old.log.length + 5 + length (spelling entry.now); count = self.old.log.count + 1 }) }

        // Whatever was answered, each image has the old entries, or these and the new one; the inventory of these is as stated.
        ensures stop { IsTrue D.tells → Each (D.leaves disk.old self.old.log.file) (IsLogOf self.old.log.header (payloads_of (D.reads disk.old self.old.log.file)))
            → Each (D.leaves disk.new self.old.log.file) (IsBeforeOrAfter self.old.log.header (payloads_of (D.reads disk.old self.old.log.file)) (spelling entry.now)) }
        ensures inventory { IsTrue D.tells → inventory_of (payloads_of (D.reads disk.old self.old.log.file) ++ spelling entry.now ∷ []) ≡ Some (after self.old.inventory.state entry.now) }
        ensures others { IsTrue D.tells → OthersStay self.old.log.file (D.reads disk.old) (D.reads disk.new) (D.leaves disk.old) (D.leaves disk.new) }
        ensures read_again { entry_of (spelling entry.now) ≡ Ok entry.now }

        ensures full { 2 ^ 40 - 64 < self.old.log.length → IsErrOf result (AppendFault.Full self.old.log.length) × (disk.new ≡ disk.old) }
        ensures not_full { self.old.log.length ≤ 2 ^ 40 - 64 → IfErr result (λ e. e ≡ AppendFault.Fault) }
        ensures err { OnErr result (self.new ≡ self.old) }
        ensures cause { IsErrOf result AppendFault.Fault → Rose (D.faults disk.old) (D.faults disk.new) }
        ensures calm { OnOk result (D.faults disk.new ≡ D.faults disk.old) }
        ensures faults { D.faults disk.old ≤ D.faults disk.new }
        ensures read_calls { D.read_calls disk.new ≡ D.read_calls disk.old }
    {
        append_entry(&mut self.log, disk, entry)?;
        self.inventory.take_up(entry);
        Ok(())
    }
}
