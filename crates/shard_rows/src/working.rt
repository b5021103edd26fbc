// What workers do.
ghost use Rattle.std.specs.Prelude.{◌≡◌, ◌<◌};
ghost use Rattle.shard_rows.specs.declared.units.MemoryUnit.TheVariants.{Channel as AsChannel, Monitor as AsMonitor};
ghost use Rattle.shard_rows.specs.Units.{IsAlike};

use crate::channel_events::channel_event;
use crate::history::{Log, Order};
use crate::leaving::{kind_of, leave_as, rest};
use crate::monitor_events::monitor_event;
use crate::units::{EmptyChannel, MemoryUnit};
use core_hands::Hand;
use mark_monitor::Monitor;
use shards::{Held, Pass, Shards, Turn};
use std::sync::Wait;

/// A worker's turn on the monitor.
fn work_on_monitor(
    shards: &Shards<MemoryUnit>,
    order: &Order,
    turn: Turn<MemoryUnit>,
    mut hand: Hand,
    mut monitor: Monitor,
    mut log: Log,
) -> Pass<MemoryUnit>
    requires table { turn.table ≡ shards.now.table }
    requires was { turn.was ≡ AsMonitor monitor log }
    requires hand { turn.known.own.hand ≡ hand }
    ensures table { result.table ≡ shards.now.table }
    ensures alike { IsAlike turn.known result.known }
{
    let event = monitor_event(&mut monitor, &mut hand);
    let kind = kind_of(&event);
    log.note(order, turn.actor(), turn.shard(), event);
    leave_as(shards, turn, MemoryUnit::Monitor(monitor, log), hand, kind)
}

/// A worker's turn on a channel.
fn work_on_channel(
    shards: &Shards<MemoryUnit>,
    order: &Order,
    turn: Turn<MemoryUnit>,
    mut hand: Hand,
    mut channel: EmptyChannel,
    mut log: Log,
) -> Pass<MemoryUnit>
    requires table { turn.table ≡ shards.now.table }
    requires was { turn.was ≡ AsChannel channel log }
    requires hand { turn.known.own.hand ≡ hand }
    requires shard { turn.shard < 64 }
    ensures table { result.table ≡ shards.now.table }
    ensures alike { IsAlike turn.known result.known }
{
    let shard = turn.shard();
    match channel_event(log.allocator(), &mut channel, &mut hand, shard) {
        Some(event) => {
            let kind = kind_of(&event);
            log.note(order, turn.actor(), shard, event);
            leave_as(shards, turn, MemoryUnit::Channel(channel, log), hand, kind)
        }
        None => {
            order.rest();
            rest(shards, turn, MemoryUnit::Channel(channel, log), hand)
        }
    }
}

/// One turn of a worker: one event, or none where nothing is due.
pub fn act(shards: &Shards<MemoryUnit>, order: &Order, held: Held<MemoryUnit>) -> Pass<MemoryUnit>
    requires table { held.turn.table ≡ shards.now.table }
    requires was { held.turn.was ≡ held.unit }
    requires hand { held.turn.known.own.hand ≡ held.hand }
    requires shard { held.turn.shard < 64 }
    ensures table { result.table ≡ shards.now.table }
    ensures alike { IsAlike held.turn.known result.known }
{
    let Held { unit, hand, turn } = held;
    match unit {
        MemoryUnit::Monitor(monitor, log) => {
            work_on_monitor(shards, order, turn, hand, monitor, log)
        }
        MemoryUnit::Channel(channel, log) => {
            work_on_channel(shards, order, turn, hand, channel, log)
        }
    }
}

/// So many turns, on one shard after another.
pub fn work<R: Wait>(
    rt: &R,
    shards: &Shards<MemoryUnit>,
    order: &Order,
    pass: Pass<MemoryUnit>,
    count: u32,
) -> Pass<MemoryUnit>
    requires table { pass.table ≡ shards.now.table }
    requires channels { shards.now.channels ≡ 2 }
    ensures table { result.table ≡ shards.now.table }
    ensures alike { IsAlike pass.known result.known }
{
    let mut pass = pass;
    for turn in 0..count {
        let held = shards.enter(rt, pass, turn % 3);
        pass = act(shards, order, held);
    }
    pass
}
