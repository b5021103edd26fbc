// The unit whose turns are timed, and shards of two such units.
ghost use Rattle.std.specs.Prelude.{◌≡◌, IfOk};
ghost use Rattle.shard_speed.specs.Passes.{IsSession};

use core_hands::Hand;
use core_steps::CoreUnit;
use graph_model::NoMemory;
use shards::{BackedUnit, MakeFault, Pass, Shards, make};
use std::alloc::Global;

/// A unit that counts its turns and tells nothing, so that a turn of it costs what taking it and giving it back cost.
#[derive(Drop)]
pub struct CountedUnit {
    pub turns: u64,
}

impl CoreUnit for CountedUnit {
    ghost use Rattle.shard_speed.specs.Passes.{untold};

    ghost told = { λ _. untold };
}

impl BackedUnit for CountedUnit {
    ghost backs = { λ _ _. Unit {0} };

    ghost turns = { λ _ _ _. Unit {0} };

    ghost events_keep = { λ _ _ _ _ _ _ _ _ _ _ _ _ _ _. tt };

    ghost rests_keep = { λ _ _ _ _ _ _ _ _ _ _ _ _. tt };

    ghost actors_keep = { λ _ _ _ _. tt };
}

/// Two units in memory as shards, and the session's pass.
pub fn counted_shards(alloc: Global) -> Result<(Shards<CountedUnit>, Pass<CountedUnit>), NoMemory>
    ensures table { IfOk result (λ made. made.1.table ≡ made.0.table) }
    ensures channels { IfOk result (λ made. made.0.channels ≡ 1) }
    ensures pass { IfOk result (λ made. IsSession 1 made.1.known) }
{
    let units = vec![in alloc; CountedUnit { turns: 0 }, CountedUnit { turns: 0 }]?;
    let hand = Hand::new(alloc)?;
    match make(alloc, units, hand, 1) {
        Ok(made) => Ok(made),
        Err(MakeFault { units: _, hand: _ }) => Err(NoMemory),
    }
}

/// How many turns the units counted.
pub fn total(units: Vec<CountedUnit>) -> u64 {
    let mut total: u64 = 0;
    for unit in units {
        total = total.wrapping_add(unit.turns);
    }
    total
}
