// What was done to the units, as one history.
ghost use Rattle.std.specs.Prelude.{◌≡◌, ◌≤◌, length, IfOk};
ghost use Rattle.core_steps.specs.Good.{IsGood};

use crate::units::MemoryUnit;
use core_machine::{RunFault, check_run, start};
use core_steps::{CoreState, Event, Step};
use graph_model::{Graph, NoMemory, Records};
use std::alloc::Global;
use std::marker::Model;
use std::sync::atomic::{AtomicU64, Ordering};

/// A step, and its number among the steps on all units.
#[derive(Drop)]
pub struct Entry {
    pub number: u64,
    pub step: Step,
}

/// The steps that were made on a unit, in order, and whether one is missing for want of memory. No contract speaks of them.
#[derive(Drop)]
pub struct Log {
    entries: Vec<Entry>,
    is_cut: bool,
}

impl Model for Log {
    ghost Value = { Unit {0} };

    ghost view = { λ _. tt };
}

/// Gives each step its number while the turn is held, so numbers rise on each unit and with each actor. Counts the turns without a step.
#[derive(Drop)]
pub struct Order {
    next: AtomicU64,
    rests: AtomicU64,
}

impl Order {
    pub fn new() -> Order {
        Order {
            next: AtomicU64::new(0),
            rests: AtomicU64::new(0),
        }
    }

    /// Counts a turn without a step.
    pub fn rest(&self) {
        self.rests.fetch_add(1, Ordering::SeqCst);
    }

    /// How many turns there were, and how many of them had a step.
    pub fn counts(&self) -> (u64, u64) {
        let steps = self.next.load(Ordering::SeqCst);
        let rests = self.rests.load(Ordering::SeqCst);
        (steps.wrapping_add(rests), steps)
    }
}

impl Log {
    pub fn new(alloc: Global) -> Log {
        Log {
            entries: Vec::new(alloc),
            is_cut: false,
        }
    }

    /// What the log is allocated with.
    pub fn allocator(&self) -> Global {
        *self.entries.allocator()
    }

    /// Writes a step down, which is made in the turn that is held.
    pub fn note(&mut self, order: &Order, actor: u32, shard: u32, event: Event) {
        let number = order.next.fetch_add(1, Ordering::SeqCst);
        let step = Step {
            actor,
            shard,
            event,
        };
        if self.entries.push(Entry { number, step }).is_err() {
            self.is_cut = true;
        }
    }
}

/// The steps of all units by their number.
fn steps_of(alloc: Global, units: Vec<MemoryUnit>) -> Result<Vec<Step>, NoMemory> {
    let mut entries = Vec::new(alloc);
    for unit in units {
        let log = match unit {
            MemoryUnit::Channel(_channel, log) => log,
            MemoryUnit::Monitor(_monitor, log) => log,
        };
        if log.is_cut {
            return Err(NoMemory);
        }
        for entry in log.entries {
            entries.push(entry)?;
        }
    }
    entries.sort_by_key(|entry: &Entry| entry.number)?;
    let mut steps = Vec::new(alloc);
    for entry in entries {
        steps.push(entry.step)?;
    }
    Ok(steps)
}

/// The start that the units are of, with that many actors.
fn started(alloc: Global, actors: u32) -> Result<CoreState, NoMemory>
    requires actors { actors ≤ 3 }
    ensures good { IfOk result (λ core. IsGood core) }
    ensures channels { IfOk result (λ core. length core.channels ≡ 2) }
    ensures actors { IfOk result (λ core. length core.hands ≡ actors) }
{
    let graph = Graph {
        records: Records::new(Vec::new(alloc)),
    };
    start(alloc, &graph, 1024, 0, 2, actors, 1)
}

/// The core that the history of the units leads to, and how many steps it has.
pub fn check_history(
    alloc: Global,
    units: Vec<MemoryUnit>,
    actors: u32,
) -> Result<(CoreState, usize), RunFault>
    requires actors { actors ≤ 3 }
{
    let steps = steps_of(alloc, units)?;
    let core = check_run(started(alloc, actors)?, &steps)?;
    Ok((core, steps.len()))
}
