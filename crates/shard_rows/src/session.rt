// What the session does: stores that list no id, one after another.
ghost use Rattle.std.specs.Prelude.{◌≡◌, ◌≤◌, ◌<◌, ◌^◌, true};
ghost use Rattle.shard_rows.specs.declared.units.MemoryUnit.TheVariants.{Channel as AsChannel, Monitor as AsMonitor};
ghost use Rattle.shard_rows.specs.Units.{IsAlike, IsPlain, IsPlainOp};

use crate::channel_events::session_part;
use crate::history::{Log, Order};
use crate::leaving::{kind_of, leave_as, leave_store, rest};
use crate::monitor_events::session_event;
use crate::units::{EmptyChannel, MemoryUnit};
use core_hands::Hand;
use core_steps::Event;
use graph_model::{Records, StoreOp};
use mark_monitor::Monitor;
use shards::{Held, Pass, Shards, Turn};
use std::alloc::Global;
use std::sync::Wait;

/// No store is begun after that of this number.
const LAST_STORE: u64 = 1_000_000_000;

/// A store that lists no id.
fn plain_store(alloc: Global) -> StoreOp
    ensures { IsPlainOp result }
{
    StoreOp {
        records: Records::new(Vec::new(alloc)),
        next_id: 1024,
    }
}

/// Begins a store.
fn begin_store(
    shards: &Shards<MemoryUnit>,
    order: &Order,
    turn: Turn<MemoryUnit>,
    mut hand: Hand,
    mut monitor: Monitor,
    mut log: Log,
) -> Pass<MemoryUnit>
    requires table { turn.table ≡ shards.now.table }
    requires was { turn.was ≡ AsMonitor monitor log }
    requires hand { turn.known.own.hand ≡ hand }
    requires actor { turn.known.own.actor ≡ 0 }
    requires plain { IsPlain turn.known.desk.book }
    requires none_open { monitor.stores_begun ≡ monitor.stores_ended }
    requires few { monitor.stores_begun ≤ 2 ^ 63 }
    ensures table { result.table ≡ shards.now.table }
    ensures alike { IsAlike turn.known result.known }
{
    monitor.store_begin(&mut hand);
    let alloc = log.allocator();
    log.note(
        order,
        0,
        turn.shard(),
        Event::StoreBegin(plain_store(alloc)),
    );
    let unit = MemoryUnit::Monitor(monitor, log);
    leave_store(shards, turn, unit, hand, &plain_store(alloc))
}

/// The session's turn on the monitor: it begins a store where none is open.
fn serve_on_monitor(
    shards: &Shards<MemoryUnit>,
    order: &Order,
    turn: Turn<MemoryUnit>,
    mut hand: Hand,
    mut monitor: Monitor,
    mut log: Log,
) -> Pass<MemoryUnit>
    requires table { turn.table ≡ shards.now.table }
    requires was { turn.was ≡ AsMonitor monitor log }
    requires hand { turn.known.own.hand ≡ hand }
    requires actor { turn.known.own.actor ≡ 0 }
    requires plain { IsPlain turn.known.desk.book }
    ensures table { result.table ≡ shards.now.table }
    ensures alike { IsAlike turn.known result.known }
{
    let none_open = monitor.stores_begun() == monitor.stores_ended();
    if none_open && monitor.stores_begun() < LAST_STORE {
        return begin_store(shards, order, turn, hand, monitor, log);
    }
    let event = session_event(&mut monitor, &mut hand);
    let kind = kind_of(&event);
    log.note(order, 0, turn.shard(), event);
    leave_as(shards, turn, MemoryUnit::Monitor(monitor, log), hand, kind)
}

/// The session's turn on a channel.
fn serve_on_channel(
    shards: &Shards<MemoryUnit>,
    order: &Order,
    turn: Turn<MemoryUnit>,
    mut hand: Hand,
    mut channel: EmptyChannel,
    mut log: Log,
) -> Pass<MemoryUnit>
    requires table { turn.table ≡ shards.now.table }
    requires was { turn.was ≡ AsChannel channel log }
    requires hand { turn.known.own.hand ≡ hand }
    requires actor { turn.known.own.actor ≡ 0 }
    requires plain { IsPlain turn.known.desk.book }
    requires shard { turn.shard < 64 }
    ensures table { result.table ≡ shards.now.table }
    ensures alike { IsAlike turn.known result.known }
{
    let shard = turn.shard();
    match session_part(&mut channel, &mut hand, shard) {
        Some(event) => {
            let kind = kind_of(&event);
            log.note(order, 0, shard, event);
            leave_as(shards, turn, MemoryUnit::Channel(channel, log), hand, kind)
        }
        None => {
            order.rest();
            rest(shards, turn, MemoryUnit::Channel(channel, log), hand)
        }
    }
}

/// One turn of the session.
pub fn serve_once(
    shards: &Shards<MemoryUnit>,
    order: &Order,
    held: Held<MemoryUnit>,
) -> Pass<MemoryUnit>
    requires table { held.turn.table ≡ shards.now.table }
    requires was { held.turn.was ≡ held.unit }
    requires hand { held.turn.known.own.hand ≡ held.hand }
    requires actor { held.turn.known.own.actor ≡ 0 }
    requires plain { IsPlain held.turn.known.desk.book }
    requires shard { held.turn.shard < 64 }
    ensures table { result.table ≡ shards.now.table }
    ensures alike { IsAlike held.turn.known result.known }
{
    let Held { unit, hand, turn } = held;
    match unit {
        MemoryUnit::Monitor(monitor, log) => {
            serve_on_monitor(shards, order, turn, hand, monitor, log)
        }
        MemoryUnit::Channel(channel, log) => {
            serve_on_channel(shards, order, turn, hand, channel, log)
        }
    }
}

/// So many turns of the session, on the monitor and then on one channel after the other.
pub fn serve<R: Wait>(
    rt: &R,
    shards: &Shards<MemoryUnit>,
    order: &Order,
    pass: Pass<MemoryUnit>,
    count: u32,
) -> Pass<MemoryUnit>
    requires table { pass.table ≡ shards.now.table }
    requires channels { shards.now.channels ≡ 2 }
    requires actor { pass.known.own.actor ≡ 0 }
    requires tells { pass.known.tells ≡ true }
    requires plain { IsPlain pass.known.desk.book }
    ensures table { result.table ≡ shards.now.table }
    ensures alike { IsAlike pass.known result.known }
{
    let mut pass = pass;
    for turn in 0..count {
        let held = shards.enter(rt, pass, 2 - turn % 3);
        pass = serve_once(shards, order, held);
    }
    pass
}
