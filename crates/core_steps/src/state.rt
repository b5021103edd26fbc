ghost use Rattle.std.specs.Prelude.{◌≡◌, ◌++◌, [], ◌∷◌, set, slice_get, option_copied, OnOk, OnErr};

use crate::flags::Flags;
use graph_model::{Graph, Ids, NoMemory, Records, StoreOp};
use std::alloc::Global;
use std::marker::Model;

/// Where a channel stands in the collection cycles: it is done with that cycle, or marks in it, or sweeps in it, with the ids left to visit.
#[derive(Clone, Debug, Drop)]
pub enum Phase {
    Idle(u64),
    Marking(u64),
    Sweeping(u64, Ids),
}

/// A channel: its table of entities, the ids of it that this cycle has marked, those of them whose edges are still to be followed, the
/// pinned ids, the phase, the number of the last store that has its part here, and the last such number that was confirmed.
#[derive(Clone, Debug, Drop)]
pub struct CoreChannel {
    pub table: Records,
    pub marked: Ids,
    pub grey: Ids,
    pub pins: Ids,
    pub phase: Phase,
    pub last_part: u64,
    pub confirmed: u64,
}

/// The monitor: the format, 1 or 2, which never changes; the cycle, and whether it is closed; by channel, whether it was reported to have
/// begun marking in this cycle and to have swept in it; the number of grey ids, ids in transit and credits that are out; and how many
/// stores began and ended.
#[derive(Clone, Debug, Drop)]
pub struct CoreMonitor {
    pub format: u8,
    pub cycle: u64,
    pub closed: bool,
    pub begun: Flags,
    pub swept: Flags,
    pub pending: u64,
    pub stores_begun: u64,
    pub stores_ended: u64,
}

/// The open store in a hand: its number, its channels, and those of them that have their part.
#[derive(Clone, Debug, Drop)]
pub struct OpenStore {
    pub number: u64,
    pub channels: Ids,
    pub written: Ids,
}

/// What an actor holds: ids in transit to other channels, which may repeat; credit; the cycle, closing and number of ended stores that it
/// saw at its last event on the monitor; the channels that it has still to report as begun and as swept; and the open store.
#[derive(Clone, Debug, Drop)]
pub struct HandState {
    pub transit: Ids,
    pub credit: u64,
    pub cycle_seen: u64,
    pub closed_seen: bool,
    pub ended_seen: u64,
    pub begun_reports: Ids,
    pub swept_reports: Ids,
    pub opened: Option<OpenStore>,
}

/// The channels by number, which contracts see as a list.
#[derive(Debug, Drop)]
pub struct Channels {
    items: Vec<CoreChannel>,
}

impl Model for Channels {
    ghost use Rattle.std.specs.Prelude.{List};
    ghost use Rattle.core_steps.specs.declared.state.CoreChannel.{CoreChannel};

    ghost Value = { List CoreChannel };

    ghost view = { λ parts. parts.items.items };
}

impl Channels {
    pub fn new(items: Vec<CoreChannel>) -> Channels
        ensures { result ≡ items.items }
    {
        Channels { items }
    }

    pub fn as_slice(&self) -> &[CoreChannel]
        ensures { result.now ≡ self.now }
    {
        self.items.as_slice()
    }

    /// The channel of a number.
    pub fn get(&self, place: usize) -> Option<&CoreChannel>
        ensures { option_copied result ≡ slice_get self.now place }
    {
        self.items.get(place)
    }

    /// Puts a value in the stead of the one at the place. Past the last nothing changes.
    pub fn set(&mut self, place: usize, value: CoreChannel)
        ensures { self.new ≡ set self.old place value }
    {
        if let Some(item) = self.items.get_mut(place) {
            *item = value;
        }
    }

    /// What the channels are allocated with.
    pub fn allocator(&self) -> Global {
        *self.items.allocator()
    }
}

/// The hands by actor, which contracts see as a list.
#[derive(Debug, Drop)]
pub struct Hands {
    items: Vec<HandState>,
}

impl Model for Hands {
    ghost use Rattle.std.specs.Prelude.{List};
    ghost use Rattle.core_steps.specs.declared.state.HandState.{HandState};

    ghost Value = { List HandState };

    ghost view = { λ parts. parts.items.items };
}

impl Hands {
    pub fn new(items: Vec<HandState>) -> Hands
        ensures { result ≡ items.items }
    {
        Hands { items }
    }

    pub fn as_slice(&self) -> &[HandState]
        ensures { result.now ≡ self.now }
    {
        self.items.as_slice()
    }

    /// The hand of an actor.
    pub fn get(&self, place: usize) -> Option<&HandState>
        ensures { option_copied result ≡ slice_get self.now place }
    {
        self.items.get(place)
    }

    /// Puts a value in the stead of the one at the place. Past the last nothing changes.
    pub fn set(&mut self, place: usize, value: HandState)
        ensures { self.new ≡ set self.old place value }
    {
        if let Some(item) = self.items.get_mut(place) {
            *item = value;
        }
    }
}

/// Stores in order, which contracts see as a list.
#[derive(Debug, Drop)]
pub struct Stores {
    items: Vec<StoreOp>,
}

impl Model for Stores {
    ghost use Rattle.std.specs.Prelude.{List};
    ghost use Rattle.graph_model.specs.declared.entity.StoreOp.{StoreOp};

    ghost Value = { List StoreOp };

    ghost view = { λ parts. parts.items.items };
}

impl Stores {
    pub fn new(items: Vec<StoreOp>) -> Stores
        ensures { result ≡ items.items }
    {
        Stores { items }
    }

    pub fn as_slice(&self) -> &[StoreOp]
        ensures { result.now ≡ self.now }
    {
        self.items.as_slice()
    }

    pub fn as_vec(&self) -> &Vec<StoreOp>
        ensures { result.now.items ≡ self.now }
    {
        &self.items
    }

    /// Puts a store behind the last. With no memory nothing changes.
    pub fn push(&mut self, op: StoreOp) -> Result<(), NoMemory>
        ensures ok { OnOk result (self.new ≡ self.old ++ op ∷ []) }
        ensures err { OnErr result (self.new ≡ self.old) }
    {
        self.items.push(op)?;
        Ok(())
    }
}

/// The graph at the start and its next id, the stores that ended since, in order, and the open store.
#[derive(Debug, Drop)]
pub struct Book {
    pub start: Graph,
    pub start_next: u64,
    pub ended: Stores,
    pub opened: Option<StoreOp>,
}

/// All channels, the monitor, the hands of all actors, and the book.
#[derive(Debug, Drop)]
pub struct CoreState {
    pub channels: Channels,
    pub monitor: CoreMonitor,
    pub hands: Hands,
    pub book: Book,
}

/// Where a shard stands: its number, the number of channels, and the open store's records of its own ids.
#[derive(Debug, Drop)]
pub struct Place {
    pub number: u64,
    pub channels: u64,
    pub records: Records,
}
