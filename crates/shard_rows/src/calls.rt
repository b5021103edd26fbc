// Each call of the shards once, with what it must answer.
ghost use Rattle.std.specs.Prelude.{◌≡◌, ◌≤◌, []};
ghost use Rattle.shards.specs.Known.{refused, took};
ghost use Rattle.shard_rows.specs.Units.{IsAlike, IsSession};

use crate::history::{Order, check_history};
use crate::leaving::rest;
use crate::session::serve_once;
use crate::threads::{join_and_close, run_and_close};
use crate::units::{MemoryUnit, memory_shards};
use crate::working::act;
use core_hands::Hand;
use core_steps::CoreState;
use shards::{Held, Pass, Shards};
use std::process::Abort;

/// A turn that is free.
fn take(
    rt: &impl Abort,
    shards: &Shards<MemoryUnit>,
    pass: Pass<MemoryUnit>,
    shard: u32,
) -> Held<MemoryUnit>
    requires table { pass.table ≡ shards.now.table }
    requires shard { shard ≤ shards.now.channels }
    ensures table { result.turn.table ≡ shards.now.table }
    ensures known { result.turn.known ≡ took pass.known shard result.unit }
    ensures shard { result.turn.shard ≡ shard }
    ensures was { result.turn.was ≡ result.unit }
    ensures hand { result.hand ≡ pass.known.own.hand }
{
    match shards.try_enter(pass, shard) {
        Ok(held) => held,
        Err(_busy) => panic!(rt; "shard {shard} is free"),
    }
}

/// A turn that another pass has.
fn find_taken(
    rt: &impl Abort,
    shards: &Shards<MemoryUnit>,
    pass: Pass<MemoryUnit>,
    shard: u32,
) -> Pass<MemoryUnit>
    requires table { pass.table ≡ shards.now.table }
    requires shard { shard ≤ shards.now.channels }
    ensures table { result.table ≡ shards.now.table }
    ensures known { result.known ≡ refused pass.known shard }
{
    match shards.try_enter(pass, shard) {
        Ok(_held) => panic!(rt; "shard {shard} is taken"),
        Err(busy) => {
            assert_eq!(rt; busy.word, 1);
            busy.pass
        }
    }
}

/// The turn goes back as it came.
fn give_back(shards: &Shards<MemoryUnit>, held: Held<MemoryUnit>) -> Pass<MemoryUnit>
    requires table { held.turn.table ≡ shards.now.table }
    requires was { held.turn.was ≡ held.unit }
    requires hand { held.turn.known.own.hand ≡ held.hand }
    requires actor { held.turn.known.own.actor ≡ 0 }
    ensures table { result.table ≡ shards.now.table }
    ensures alike { IsAlike held.turn.known result.known }
{
    let Held { unit, hand, turn } = held;
    rest(shards, turn, unit, hand)
}

/// The worker has the monitor, so the session finds that taken, and a channel free. Then the worker begins a cycle.
fn turns_of_two(
    rt: &impl Abort,
    shards: &Shards<MemoryUnit>,
    order: &Order,
    session: Pass<MemoryUnit>,
    worker: Pass<MemoryUnit>,
) -> (Pass<MemoryUnit>, Pass<MemoryUnit>)
    requires table { (session.table ≡ shards.now.table) × (worker.table ≡ shards.now.table) }
    requires channels { shards.now.channels ≡ 2 }
    requires session { IsSession 2 session.known }
    requires worker { (worker.known.own.actor ≡ 1) × (worker.known.joined ≡ []) }
    ensures table { (result.0.table ≡ shards.now.table) × (result.1.table ≡ shards.now.table) }
    ensures session { IsSession 2 result.0.known }
    ensures worker { (result.1.known.own.actor ≡ 1) × (result.1.known.joined ≡ []) }
{
    let monitor = take(rt, shards, worker, 2);
    let session = find_taken(rt, shards, session, 2);
    let channel = take(rt, shards, session, 0);
    let session = give_back(shards, channel);
    let worker = act(shards, order, monitor);
    (session, worker)
}

/// Of the monitor: its cycle, whether that is closed, what is pending, and how many stores began and ended.
fn tally(rt: &impl Abort, units: &[MemoryUnit]) -> (u64, bool, u64, u64, u64) {
    match units.last() {
        Some(MemoryUnit::Monitor(monitor, _log)) => (
            monitor.cycle(),
            monitor.is_closed(),
            monitor.pending(),
            monitor.stores_begun(),
            monitor.stores_ended(),
        ),
        _ => panic!(rt; "the monitor comes last"),
    }
}

/// The same of a core's monitor.
fn tally_of(core: &CoreState) -> (u64, bool, u64, u64, u64) {
    let monitor = &core.monitor;
    (
        monitor.cycle,
        monitor.closed,
        monitor.pending,
        monitor.stores_begun,
        monitor.stores_ended,
    )
}

#[test]
fn each_call_answers_as_it_must(rt: HostRuntime) {
    let alloc = rt.alloc();
    let order = Order::new();
    let (shards, mut session) = memory_shards(alloc).expect(&rt, "memory");
    assert_eq!(rt; (shards.channels(), session.actor()), (2, 0));
    let hand = Hand::new(alloc).expect(&rt, "memory");
    let worker = shards.split(&mut session, hand);
    assert_eq!(rt; (session.actor(), worker.actor()), (0, 1));
    let (session, worker) = turns_of_two(&rt, &shards, &order, session, worker);
    let (session, is_stopped) = shards.stopped(session);
    assert!(rt; !is_stopped);
    let worker = shards.stop(worker);
    let (session, is_stopped) = shards.stopped(session);
    assert!(rt; is_stopped);
    let held = shards.enter(&rt, session, 2);
    let session = serve_once(&shards, &order, held);
    let (units, hand) = join_and_close(shards, session, worker);
    assert_eq!(rt; (units.len(), hand.open_number()), (3, Some(1)));
    let (core, steps) = check_history(alloc, units, 2).expect(&rt, "a run");
    assert_eq!(rt;
        (steps, core.monitor.cycle, core.monitor.stores_begun),
        (2, 1, 1)
    );
}

#[test]
fn the_history_of_three_threads_is_a_run(rt: HostRuntime) {
    let alloc = rt.alloc();
    let order = Order::new();
    let (shards, mut session) = memory_shards(alloc).expect(&rt, "memory");
    let hand = Hand::new(alloc).expect(&rt, "memory");
    let first = shards.split(&mut session, hand);
    let hand = Hand::new(alloc).expect(&rt, "memory");
    let second = shards.split(&mut session, hand);
    let turns = (20_000, 40_000);
    let (units, _hand) = run_and_close(&rt, shards, &order, session, first, second, turns);
    let (all, with_step) = order.counts();
    let last = tally(&rt, units.as_slice());
    let (core, steps) = check_history(alloc, units, 3).expect(&rt, "a run");
    assert_eq!(rt; (all, with_step), (100_000, steps as u64));
    assert!(rt; last == tally_of(&core));
}
