// Turns by one thread, and by two beside one another.
ghost use Rattle.std.specs.Prelude.{◌≡◌, ◌≢◌, ◌≤◌, false, []};
ghost use Rattle.shards.specs.Closing.{HasAll};
ghost use Rattle.shard_speed.specs.Passes.{IsAlike, IsSession};

use crate::unit::{CountedUnit, counted_shards, total};
use core_hands::Hand;
use graph_model::NoMemory;
use shards::{Pass, Shards};
use std::alloc::Global;
use std::sync::Wait;
use std::thread::{Threads, join};

/// So many turns of a shard.
fn turn_often<R: Wait>(
    rt: &R,
    shards: &Shards<CountedUnit>,
    pass: Pass<CountedUnit>,
    shard: u32,
    turns: u64,
) -> Pass<CountedUnit>
    requires table { pass.table ≡ shards.now.table }
    requires shard { shard ≤ shards.now.channels }
    requires tells { pass.known.tells ≡ false }
    ensures table { result.table ≡ shards.now.table }
    ensures alike { IsAlike pass.known result.known }
{
    let mut pass = pass;
    for _ in 0..turns {
        let mut held = shards.enter(rt, pass, shard);
        held.unit.turns = held.unit.turns.wrapping_add(1);
        pass = held.back(shards);
    }
    pass
}

/// So many turns of shard 0 by one thread. Returns how many the units counted.
pub fn turn_alone<R: Wait>(rt: &R, alloc: Global, turns: u64) -> Result<u64, NoMemory> {
    let (shards, pass) = counted_shards(alloc)?;
    let pass = turn_often(rt, &shards, pass, 0, turns);
    let (units, _hand) = shards.close(pass);
    Ok(total(units))
}

/// The session on shard 0, and a worker on that shard.
fn turn_both<R: Wait + Threads + Sync>(
    rt: &R,
    shards: &Shards<CountedUnit>,
    session: Pass<CountedUnit>,
    worker: Pass<CountedUnit>,
    shard: u32,
    turns: u64,
) -> Pass<CountedUnit>
    requires table { (session.table ≡ shards.now.table) × (worker.table ≡ shards.now.table) }
    requires shard { shard ≤ shards.now.channels }
    requires session { IsSession 2 session.known }
    requires worker { (worker.known.own.actor ≡ 1) × (worker.known.tells ≡ false) }
    ensures table { result.table ≡ shards.now.table }
    ensures actor { result.known.own.actor ≡ 0 }
    ensures joined { HasAll result.known }
{
    let (session, worker) = join(
        rt,
        move || -> Pass<CountedUnit>
            requires { (session.table ≡ shards.now.table) × IsSession 2 session.known }
            ensures { (result.table ≡ shards.entry.now.table) × IsAlike session.known result.known }
        { turn_often(rt, shards, session, 0, turns) },
        move || -> Pass<CountedUnit>
            requires { (worker.table ≡ shards.now.table) × (shard ≤ shards.now.channels) × (worker.known.tells ≡ false) }
            ensures { (result.table ≡ shards.entry.now.table) × IsAlike worker.known result.known }
        { turn_often(rt, shards, worker, shard, turns) },
    );
    shards.join(session, worker)
}

/// So many turns of shard 0 by one thread beside as many of this shard by another. Returns how many the units counted.
pub fn turn_beside<R: Wait + Threads + Sync>(
    rt: &R,
    alloc: Global,
    shard: u32,
    turns: u64,
) -> Result<u64, NoMemory>
    requires shard { shard ≤ 1 }
{
    let hand = Hand::new(alloc)?;
    let (shards, mut session) = counted_shards(alloc)?;
    let worker = shards.split(&mut session, hand);
    let pass = turn_both(rt, &shards, session, worker, shard, turns);
    let (units, _hand) = shards.close(pass);
    Ok(total(units))
}
