//! An entity is looked up.
ghost use Rattle.std.specs.Prelude.{◌≡◌, ◌%◌, ◌<◌, ℕ, List, IsTrue, IfErr, IsErrOf, MatchResult, length};
ghost use Rattle.graph_model.specs.Served.{IsKept};
ghost use Rattle.graph_model.specs.declared.ask.Ask.TheVariants as asks;
ghost use Rattle.graph_model.specs.declared.ask.StorageFault.{StorageFault as AnyFault};
ghost use Rattle.graph_model.specs.declared.entity.Entity.{Entity};
ghost use Rattle.core_steps.specs.Core.{graph};
ghost use Rattle.core_steps.specs.declared.state.Book.{Book};
ghost use Rattle.type_desc.specs.declared.desc.TypeDesc.{TypeDesc};
ghost use Rattle.entity_form.specs.Spelling.{IsEntity, entity_bytes};
ghost use Rattle.channel.specs.Entities.{IsSpelling};
ghost use Rattle.channel.specs.Shown.{DiskTable};
ghost use Rattle.recovery.specs.Alone.{Serves};
ghost use Rattle.storage_alone.specs.Asks.{Answers, held_by};
ghost use Rattle.storage_alone.specs.Faults.{EndsSo, IsCalm, NoneFell, OnServed, SomeRose, fault_of};
ghost use Rattle.storage_alone.specs.Steady.{IsSteady};

use crate::storage::StorageAlone;
use channel::ChannelFault;
use entity_form::{FormFault, read_entity};
use graph_model::{Reply, StorageFault};
use std::alloc::Global;
use store_io::Disk;

/// How a channel's refusal is told to who asks.
pub(crate) fn storage_fault(fault: ChannelFault) -> StorageFault
    ensures { result ≡ fault_of fault }
{
    match fault {
        ChannelFault::Fault => StorageFault::Fault,
        ChannelFault::Full { number } => StorageFault::Full { number },
        ChannelFault::Gone { id } | ChannelFault::Changed { id } => StorageFault::Broken { id },
    }
}

/// The entity that bytes spell.
fn entity_in(alloc: Global, bytes: &[u8], id: u64) -> Result<Reply, StorageFault>
    requires spelled { IsSpelling id bytes.now }
    ensures found { (e : Entity) → IsEntity (id, e) → bytes.now ≡ entity_bytes (id, e) → MatchResult result (λ reply. reply ≡ Reply.Found e) (λ f. f ≡ AnyFault.NoMemory) }
    ensures fault { IfErr result (λ f. f ≡ AnyFault.NoMemory) }
{
    let _id = id;
    match read_entity(alloc, bytes) {
        Ok((_, entity)) => Ok(Reply::Found(entity)),
        Err(FormFault::NoMemory) => Err(StorageFault::NoMemory),
        Err(FormFault::Bad) => unreachable!(),
    }
}

impl<D: Disk> StorageAlone<D> {
    /// The number of the channel that an id belongs to.
    pub(crate) fn home(&self, id: u64) -> usize
        requires some { 0 < length self.now.channels }
        ensures within { result < length self.now.channels }
        ensures home { result ≡ id % length self.now.channels }
    {
        (id % self.channels.len() as u64) as usize
    }

    /// The entity of an id that is reached.
    pub fn look(&mut self, id: u64) -> Result<Reply, StorageFault>
        requires steady { IsSteady self.old }
        ensures answers { IsTrue D.tells → (b : Book) (disks : ℕ → DiskTable) (kept : List TypeDesc) → Serves D.reads D.leaves self.old b disks kept
            → IsKept (graph b) (held_by D.reads self.old) id → Answers D.reads D.leaves self.old b disks kept kept (asks.Look id) result self.new }
        ensures steady { OnServed result (IsSteady self.new) }
        ensures ends { IfErr result (λ fault. EndsSo fault self.new) }
        ensures faults { NoneFell D.faults self.old self.new }
        ensures cause { IsErrOf result AnyFault.Fault → SomeRose D.faults self.old self.new }
        ensures calm { OnServed result (IsCalm D.faults self.old self.new) }
    {
        let home = self.home(id);
        let Some(channel) = self.channels.get_mut(home) else {
            unreachable!()
        };
        match channel.lookup(id, &mut self.window) {
            Ok(length) => entity_in(self.alloc, &self.window[..length], id),
            Err(fault) => Err(storage_fault(fault)),
        }
    }
}
