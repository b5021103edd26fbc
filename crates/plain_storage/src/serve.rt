//! What a session asks is served.

ghost use Rattle.std.specs.Prelude.{◌≡◌, ◌≤◌, ◌<◌, ◌+◌, ◌++◌, [], ◌∷◌, true, ℕ, List, IsTrue, length, IfOk, OnOk, IfErr, IsErrOf};
ghost use Rattle.call_counts.specs.Counts.{Rose};
ghost use Rattle.graph_model.specs.Graph.{lists};
ghost use Rattle.graph_model.specs.Served.{Collects, Holds, KeepsType, Looks, Releases, Served, Stores};
ghost use Rattle.graph_model.specs.declared.ask.StorageFault.{StorageFault as AnyFault};
ghost use Rattle.type_desc.specs.declared.desc.TypeDesc.{TypeDesc as AnyDesc};
ghost use Rattle.plain_storage.specs.Held.{IsPlainStored, PlainHeld};
ghost use Rattle.plain_storage.specs.Images.{AreClean, EachPair, OtherFilesStay};
ghost use Rattle.plain_storage.specs.Keeping.{AreOpen, HoldsEither, IsNext, IsOverFull, IsWithStore, IsWithType, Keeps, MayKeep, MayServe, held_in, storage_of, types_with};
ghost use Rattle.plain_storage.specs.Logs.{IsOverLimit};
ghost use Rattle.plain_storage.specs.Serving.{OnlyHeldChanges};

use crate::counting::count_kept;
use crate::holding::{hold_all, release_all, take_all};
use crate::keep::keep_type;
use crate::storage::PlainStorage;
use crate::store_keeping::{keep_store, number_due, storage_fault};
use graph_model::{Ask, ROOT_ID, Reply, StorageFault, StoreOp};
use store_io::Disk;

impl PlainStorage {
    /// Whether the graph has the root.
    pub fn is_rooted(&self) -> bool
        ensures { result ≡ lists self.now.graph 1 }
    {
        self.graph.get(ROOT_ID).is_some()
    }

    /// The next id of the last store.
    pub fn next_id(&self) -> u64
        ensures { result ≡ self.now.next_id }
    {
        self.next_id
    }

    /// The entity of an id that the graph has.
    fn look(&self, id: u64) -> Result<Reply, StorageFault>
        requires { lists self.now.graph id ≡ true }
        ensures served { (types : List (List ℕ)) → IfOk result (λ reply. Looks (storage_of self.now types) id reply (storage_of self.now types)) }
        ensures fault { IfErr result (λ e. e ≡ AnyFault.NoMemory) }
    {
        let Some(entity) = self.graph.get(id) else {
            unreachable!()
        };
        match entity.clone() {
            Ok(copy) => Ok(Reply::Found(copy)),
            Err(_) => Err(StorageFault::NoMemory),
        }
    }

    /// Holds ids too.
    fn hold(&mut self, ids: &[u64]) -> Result<Reply, StorageFault>
        ensures served { (types : List (List ℕ)) → IfOk result (λ reply. Holds (storage_of self.old types) ids.now reply (storage_of self.new types)) }
        ensures others { OnlyHeldChanges self.old self.new }
        ensures fault { IfErr result (λ e. e ≡ AnyFault.NoMemory) }
    {
        match hold_all(&mut self.held, ids) {
            Ok(()) => Ok(Reply::Held),
            Err(_) => Err(StorageFault::NoMemory),
        }
    }

    /// Holds ids no longer.
    fn release(&mut self, ids: &[u64]) -> Reply
        ensures served { (types : List (List ℕ)) → Releases (storage_of self.old types) ids.now result (storage_of self.new types) }
        ensures others { OnlyHeldChanges self.old self.new }
    {
        release_all(&mut self.held, ids);
        Reply::Released
    }

    /// How many entities are reached from the root and the held ids. All entities stay.
    fn collect(&self) -> Result<Reply, StorageFault>
        ensures served { (types : List (List ℕ)) → IfOk result (λ reply. Collects (storage_of self.now types) reply (storage_of self.now types)) }
        ensures fault { IfErr result (λ e. e ≡ AnyFault.NoMemory) }
    {
        match count_kept(self.alloc, &self.graph, &self.held) {
            Ok(count) => Ok(Reply::Count(count)),
            Err(_) => Err(StorageFault::NoMemory),
        }
    }

    /// Keeps a store in its log, and then takes it into memory.
    fn store<D: Disk>(&mut self, disk: &mut D, op: StoreOp) -> Result<Reply, StorageFault>
        requires may { MayKeep self.old op }
        requires logs { IsTrue D.tells → AreOpen self.old (D.reads disk.old) }
        ensures served { (types : List (List ℕ)) → IfOk result (λ reply. Stores (storage_of self.old types) op reply (storage_of self.new types)) }
        ensures logs { IsTrue D.tells → OnOk result (AreOpen self.new (D.reads disk.new)) }
        ensures clean { IsTrue D.tells → AreClean (D.reads disk.old) (D.leaves disk.old) → OnOk result (AreClean (D.reads disk.new) (D.leaves disk.new)) }
        ensures keeps { IsTrue D.tells → (types next_types : List AnyDesc) → Keeps self.old types (D.reads disk.old) → IsWithStore op (held_in self.old types) (held_in self.new next_types)
            → OnOk result (Keeps self.new next_types (D.reads disk.new)) }
        ensures stop { IsTrue D.tells → AreClean (D.reads disk.old) (D.leaves disk.old) → (held next : PlainHeld) → IsPlainStored (D.reads disk.old 0) (D.reads disk.old 1) held
            → held.next_id ≡ self.old.next_id → IsWithStore op held next → EachPair (D.leaves disk.new) (HoldsEither held next) }
        ensures others { IsTrue D.tells → OtherFilesStay (D.reads disk.old) (D.reads disk.new) (D.leaves disk.old) (D.leaves disk.new) }
        ensures full { IsTrue D.tells → (number : ℕ) → IsErrOf result (AnyFault.Full number) → IsOverLimit (D.reads disk.new 0) }
        ensures full_stays { (number : ℕ) → IsErrOf result (AnyFault.Full number) → disk.new ≡ disk.old }
        ensures full_number { IsTrue D.tells → (number : ℕ) → IsErrOf result (AnyFault.Full number) → number ≡ self.old.stores_log.count + 1 }
        ensures not_broken { (id : ℕ) → IsErrOf result (AnyFault.Broken id) → ⊥ }
        ensures faults { D.faults disk.old ≤ D.faults disk.new }
        ensures cause { IsErrOf result AnyFault.Fault → Rose (D.faults disk.old) (D.faults disk.new) }
    {
        keep_store(self.alloc, &mut self.stores_log, disk, &op)?;
        let Ok(()) = take_all(&mut self.graph, &mut self.held, op.records) else {
            return Err(StorageFault::NoMemory);
        };
        self.next_id = op.next_id;
        Ok(Reply::Stored(self.stores_log.count()))
    }

    /// Keeps a type in its log.
    fn keep<D: Disk>(&mut self, disk: &mut D, text: &[u8]) -> Result<Reply, StorageFault>
        requires some { 1 ≤ length text.now }
        requires size { length text.now ≤ 1048576 }
        requires logs { IsTrue D.tells → AreOpen self.old (D.reads disk.old) }
        ensures served { (types : List (List ℕ)) → IfOk result (λ reply. KeepsType (storage_of self.old types) text.now reply (storage_of self.new (types ++ text.now ∷ []))) }
        ensures logs { IsTrue D.tells → OnOk result (AreOpen self.new (D.reads disk.new)) }
        ensures clean { IsTrue D.tells → AreClean (D.reads disk.old) (D.leaves disk.old) → OnOk result (AreClean (D.reads disk.new) (D.leaves disk.new)) }
        ensures keeps { IsTrue D.tells → (types next_types : List AnyDesc) → Keeps self.old types (D.reads disk.old) → IsWithType text.now (held_in self.old types) (held_in self.new next_types)
            → OnOk result (Keeps self.new next_types (D.reads disk.new)) }
        ensures stop { IsTrue D.tells → AreClean (D.reads disk.old) (D.leaves disk.old) → (held next : PlainHeld) → IsPlainStored (D.reads disk.old 0) (D.reads disk.old 1) held
            → IsWithType text.now held next → EachPair (D.leaves disk.new) (HoldsEither held next) }
        ensures others { IsTrue D.tells → OtherFilesStay (D.reads disk.old) (D.reads disk.new) (D.leaves disk.old) (D.leaves disk.new) }
        ensures full { IsTrue D.tells → (number : ℕ) → IsErrOf result (AnyFault.Full number) → IsOverLimit (D.reads disk.new 1) }
        ensures full_stays { (number : ℕ) → IsErrOf result (AnyFault.Full number) → disk.new ≡ disk.old }
        ensures full_number { IsTrue D.tells → (number : ℕ) → IsErrOf result (AnyFault.Full number) → number ≡ self.old.stores_log.count + 1 }
        ensures not_broken { (id : ℕ) → IsErrOf result (AnyFault.Broken id) → ⊥ }
        ensures faults { D.faults disk.old ≤ D.faults disk.new }
        ensures cause { IsErrOf result AnyFault.Fault → Rose (D.faults disk.old) (D.faults disk.new) }
    {
        match keep_type(&mut self.types_log, disk, text) {
            Ok(()) => Ok(Reply::TypeKept),
            Err(fault) => Err(storage_fault(fault, number_due(&self.stores_log))),
        }
    }

    /// Serves what is asked. A store and a type are kept in their log, synced, before it answers. After a fault the storage is to be given up.
    pub fn serve<D: Disk>(&mut self, disk: &mut D, ask: Ask) -> Result<Reply, StorageFault>
        requires may { MayServe self.old ask }
        requires logs { IsTrue D.tells → AreOpen self.old (D.reads disk.old) }
        ensures served { (types : List (List ℕ)) → IfOk result (λ reply. Served (storage_of self.old types) ask reply (storage_of self.new (types_with ask types))) }
        ensures logs { IsTrue D.tells → OnOk result (AreOpen self.new (D.reads disk.new)) }
        ensures clean { IsTrue D.tells → AreClean (D.reads disk.old) (D.leaves disk.old) → OnOk result (AreClean (D.reads disk.new) (D.leaves disk.new)) }

        // Over a disk that holds what is in memory, the disk holds behind it what is there then.
        ensures keeps { IsTrue D.tells → (types next_types : List AnyDesc) → Keeps self.old types (D.reads disk.old) → IsNext ask (held_in self.old types) (held_in self.new next_types)
            → OnOk result (Keeps self.new next_types (D.reads disk.new)) }

        // Whatever is answered, each image holds what was there before, or what is there behind.
        ensures stop { IsTrue D.tells → AreClean (D.reads disk.old) (D.leaves disk.old) → (held next : PlainHeld) → IsPlainStored (D.reads disk.old 0) (D.reads disk.old 1) held
            → held.number ≡ self.old.stores_log.count → held.next_id ≡ self.old.next_id → IsNext ask held next
            → EachPair (D.leaves disk.new) (HoldsEither held next) }
        ensures others { IsTrue D.tells → OtherFilesStay (D.reads disk.old) (D.reads disk.new) (D.leaves disk.old) (D.leaves disk.new) }

        // `Full` only where the log is over its limit in which the store or the type is to be kept. The disk is not called then, and the number is that of the next store.
        ensures full { IsTrue D.tells → (number : ℕ) → IsErrOf result (AnyFault.Full number) → IsOverFull ask (D.reads disk.new) }
        ensures full_stays { (number : ℕ) → IsErrOf result (AnyFault.Full number) → disk.new ≡ disk.old }
        ensures full_number { IsTrue D.tells → (number : ℕ) → IsErrOf result (AnyFault.Full number) → number ≡ self.old.stores_log.count + 1 }
        ensures not_broken { (id : ℕ) → IsErrOf result (AnyFault.Broken id) → ⊥ }
        ensures faults { D.faults disk.old ≤ D.faults disk.new }
        ensures cause { IsErrOf result AnyFault.Fault → Rose (D.faults disk.old) (D.faults disk.new) }
    {
        match ask {
            Ask::Look(id) => self.look(id),
            Ask::Hold(ids) => self.hold(ids.as_slice()),
            Ask::Release(ids) => Ok(self.release(ids.as_slice())),
            Ask::Store(op) => self.store(disk, op),
            Ask::KeepType(text) => self.keep(disk, text.as_slice()),
            Ask::Collect => self.collect(),
            Ask::Tidy => Ok(Reply::Tidied),
        }
    }
}
