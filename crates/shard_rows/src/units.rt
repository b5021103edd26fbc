// Units in memory.
ghost use Rattle.std.specs.Prelude.{◌≡◌, IfOk, map};
ghost use Rattle.shards.specs.Known.{session_pass};
ghost use Rattle.shard_rows.specs.Units.{first_channel, first_units, told_of};

use crate::history::Log;
use core_hands::Hand;
use core_steps::CoreUnit;
use graph_model::NoMemory;
use mark_monitor::Monitor;
use shards::{BackedUnit, MakeFault, Pass, Shards, make};
use std::alloc::Global;

/// Where a channel without an id stands: done with that cycle, or marking in it. It sweeps at once.
#[derive(Clone, Copy, Drop)]
pub enum Stage {
    Idle(u64),
    Marking(u64),
}

/// A channel of the core that has no id: its stage, the number of the last store that has its part here, and the last that was confirmed.
#[derive(Clone, Copy, Drop)]
pub struct EmptyChannel {
    pub stage: Stage,
    pub last_part: u64,
    pub confirmed: u64,
}

/// A channel or the monitor, with nothing below it, and what was done to it.
#[derive(Drop)]
pub enum MemoryUnit {
    Channel(EmptyChannel, Log),
    Monitor(Monitor, Log),
}

impl CoreUnit for MemoryUnit {
    ghost use Rattle.shard_rows.specs.Units.{told_of};

    ghost told = { told_of };
}

impl BackedUnit for MemoryUnit {
    ghost backs = { λ _ _. Unit {0} };

    ghost turns = { λ _ _ _. Unit {0} };

    ghost events_keep = { λ _ _ _ _ _ _ _ _ _ _ _ _ _ _. tt };

    ghost rests_keep = { λ _ _ _ _ _ _ _ _ _ _ _ _. tt };

    ghost actors_keep = { λ _ _ _ _. tt };
}

/// A channel at its start.
fn first_channel(alloc: Global) -> MemoryUnit
    ensures { result ≡ first_channel }
{
    let channel = EmptyChannel {
        stage: Stage::Idle(0),
        last_part: 0,
        confirmed: 0,
    };
    MemoryUnit::Channel(channel, Log::new(alloc))
}

/// Two channels and a monitor, at their start.
pub fn first_units(alloc: Global) -> Result<Vec<MemoryUnit>, NoMemory>
    ensures { IfOk result (λ units. units.items ≡ first_units) }
{
    let monitor = MemoryUnit::Monitor(Monitor::new(2, 0), Log::new(alloc));
    Ok(vec![in alloc; first_channel(alloc), first_channel(alloc), monitor]?)
}

/// These units as shards, and the session's pass.
pub fn memory_shards(alloc: Global) -> Result<(Shards<MemoryUnit>, Pass<MemoryUnit>), NoMemory>
    ensures table { IfOk result (λ made. made.1.table ≡ made.0.table) }
    ensures channels { IfOk result (λ made. made.0.channels ≡ 2) }
    ensures pass { IfOk result (λ made. made.1.known ≡ session_pass (map told_of first_units) 1024) }
{
    let units = first_units(alloc)?;
    let hand = Hand::new(alloc)?;
    match make(alloc, units, hand, 1024) {
        Ok(made) => Ok(made),
        Err(MakeFault { units: _, hand: _ }) => Err(NoMemory),
    }
}
