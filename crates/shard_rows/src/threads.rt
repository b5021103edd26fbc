// Two workers and the session, in threads.
ghost use Rattle.std.specs.Prelude.{◌≡◌, ◌∷◌, [], true, map};
ghost use Rattle.shards.specs.Closing.{HasAll};
ghost use Rattle.shards.specs.Known.{Own};
ghost use Rattle.shard_rows.specs.Units.{IsAlike, IsSession};

use crate::history::Order;
use crate::session::serve;
use crate::units::MemoryUnit;
use crate::working::work;
use core_hands::Hand;
use shards::{Pass, Shards};
use std::sync::Wait;
use std::thread::{Threads, join};

/// Two workers work beside one another, and the second's pass joins the first's.
fn work_both<R: Wait + Threads + Sync>(
    rt: &R,
    shards: &Shards<MemoryUnit>,
    order: &Order,
    first: Pass<MemoryUnit>,
    second: Pass<MemoryUnit>,
    turns: u32,
) -> Pass<MemoryUnit>
    requires table { (first.table ≡ shards.now.table) × (second.table ≡ shards.now.table) }
    requires channels { shards.now.channels ≡ 2 }
    requires first { (first.known.own.actor ≡ 1) × (first.known.joined ≡ []) }
    requires second { (second.known.own.actor ≡ 2) × (second.known.joined ≡ []) }
    ensures table { result.table ≡ shards.now.table }
    ensures workers { map (λ (o : Own). o.actor) (result.known.own ∷ result.known.joined) ≡ 1 ∷ 2 ∷ [] }
{
    let (first, second) = join(
        rt,
        move || -> Pass<MemoryUnit>
            requires { (first.table ≡ shards.now.table) × (shards.now.channels ≡ 2) }
            ensures { (result.table ≡ shards.entry.now.table) × IsAlike first.known result.known }
        { work(rt, shards, order, first, turns) },
        move || -> Pass<MemoryUnit>
            requires { (second.table ≡ shards.now.table) × (shards.now.channels ≡ 2) }
            ensures { (result.table ≡ shards.entry.now.table) × IsAlike second.known result.known }
        { work(rt, shards, order, second, turns) },
    );
    shards.join(first, second)
}

/// The session serves for so many turns while two workers work for so many each. All passes join the session's.
pub fn run_all<R: Wait + Threads + Sync>(
    rt: &R,
    shards: &Shards<MemoryUnit>,
    order: &Order,
    session: Pass<MemoryUnit>,
    first: Pass<MemoryUnit>,
    second: Pass<MemoryUnit>,
    turns: (u32, u32),
) -> Pass<MemoryUnit>
    requires table { (session.table ≡ shards.now.table) × (first.table ≡ shards.now.table) × (second.table ≡ shards.now.table) }
    requires channels { shards.now.channels ≡ 2 }
    requires session { IsSession 3 session.known }
    requires first { (first.known.own.actor ≡ 1) × (first.known.joined ≡ []) }
    requires second { (second.known.own.actor ≡ 2) × (second.known.joined ≡ []) }
    ensures table { result.table ≡ shards.now.table }
    ensures actor { result.known.own.actor ≡ 0 }
    ensures joined { HasAll result.known }
{
    let (session, workers) = join(
        rt,
        move || -> Pass<MemoryUnit>
            requires { (session.table ≡ shards.now.table) × (shards.now.channels ≡ 2) × IsSession 3 session.known }
            ensures { (result.table ≡ shards.entry.now.table) × IsAlike session.known result.known }
        { serve(rt, shards, order, session, turns.0) },
        move || -> Pass<MemoryUnit>
            requires { (first.table ≡ shards.now.table) × (second.table ≡ shards.now.table) × (shards.now.channels ≡ 2) × (first.known.own.actor ≡ 1) × (first.known.joined ≡ []) × (second.known.own.actor ≡ 2) × (second.known.joined ≡ []) }
            ensures { (result.table ≡ shards.entry.now.table) × (map (λ (o : Own). o.actor) (result.known.own ∷ result.known.joined) ≡ 1 ∷ 2 ∷ []) }
        { work_both(rt, shards, order, first, second, turns.1) },
    );
    shards.join(session, workers)
}

/// The same, and then the shards are closed: the units, and the session's hand.
pub fn run_and_close<R: Wait + Threads + Sync>(
    rt: &R,
    shards: Shards<MemoryUnit>,
    order: &Order,
    session: Pass<MemoryUnit>,
    first: Pass<MemoryUnit>,
    second: Pass<MemoryUnit>,
    turns: (u32, u32),
) -> (Vec<MemoryUnit>, Hand)
    requires table { (session.table ≡ shards.table) × (first.table ≡ shards.table) × (second.table ≡ shards.table) }
    requires channels { shards.channels ≡ 2 }
    requires session { IsSession 3 session.known }
    requires first { (first.known.own.actor ≡ 1) × (first.known.joined ≡ []) }
    requires second { (second.known.own.actor ≡ 2) × (second.known.joined ≡ []) }
{
    let session = run_all(rt, &shards, order, session, first, second, turns);
    shards.close(session)
}

/// The one worker's pass joins the session's, and the shards are closed.
pub fn join_and_close(
    shards: Shards<MemoryUnit>,
    session: Pass<MemoryUnit>,
    worker: Pass<MemoryUnit>,
) -> (Vec<MemoryUnit>, Hand)
    requires table { (session.table ≡ shards.table) × (worker.table ≡ shards.table) }
    requires session { (session.known.own.actor ≡ 0) × (session.known.joined ≡ []) × (session.known.desk.made ≡ 2) }
    requires worker { (worker.known.own.actor ≡ 1) × (worker.known.joined ≡ []) }
{
    let session = shards.join(session, worker);
    shards.close(session)
}
