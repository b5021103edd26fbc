// What an event makes of a shard and a hand, as one call for each kind of shard.
ghost use Rattle.std.specs.Prelude.{◌≡◌, ◌<◌, ◌≤◌, ◌^◌, is_some, true, IfOk};
ghost use Rattle.core_steps.specs.Rows.{channel_step, monitor_step};

use crate::counting::{
    begin_cycle, close_cycle, report_begun, report_swept, reserve, return_credit,
};
use crate::marking::{Pair, begin_mark, deliver, mark_some};
use crate::storing::{confirm, pin, store_begin, store_end, store_part, tidy, unpin};
use crate::sweeping::sweep_some;
use core_steps::{CoreMonitor, Event, HandState, Place};
use graph_model::NoMemory;
use std::alloc::Global;

/// What an event makes of a channel and a hand, where these two allow it.
pub fn channel_step(
    alloc: Global,
    place: &Place,
    pair: Pair,
    event: &Event,
) -> Result<Option<Pair>, NoMemory>
    requires channels { 0 < place.now.channels }
    requires credit { pair.1.credit ≤ 2 ^ 33 }
    ensures exact { IfOk result (λ made. made ≡ channel_step place.now pair.0 pair.1 event.now) }
{
    match event {
        Event::BeginMark => begin_mark(alloc, place, pair),
        Event::MarkSome(ids) => mark_some(alloc, place, pair, ids),
        Event::Deliver(ids) => deliver(place, pair, ids),
        Event::SweepSome(ids) => sweep_some(alloc, place, pair, ids),
        Event::StorePart => store_part(alloc, place, pair),
        Event::Confirm => Ok(confirm(pair)),
        Event::Pin(id) => pin(pair, *id),
        Event::Unpin(id) => Ok(Some(unpin(pair, *id))),
        Event::Tidy => Ok(tidy(pair)),
        Event::Reserve(_)
        | Event::Return(_)
        | Event::BeginCycle
        | Event::ReportBegun(_)
        | Event::CloseCycle
        | Event::ReportSwept(_)
        | Event::StoreBegin(_)
        | Event::StoreEnd => Ok(None),
    }
}

/// What an event makes of the monitor and a hand, where these two allow it.
/// Where the hand has a store open, the monitor began more stores than ended.
pub fn monitor_step(
    alloc: Global,
    monitor: CoreMonitor,
    hand: HandState,
    event: &Event,
) -> Result<Option<(CoreMonitor, HandState)>, NoMemory>
    requires pending { monitor.pending < 2 ^ 63 }
    requires opened { is_some hand.opened ≡ true → monitor.stores_ended < monitor.stores_begun }
    ensures exact { IfOk result (λ made. made ≡ monitor_step monitor hand event.now) }
{
    match event {
        Event::Reserve(count) => Ok(reserve(monitor, hand, *count)),
        Event::Return(count) => Ok(return_credit(monitor, hand, *count)),
        Event::BeginCycle => Ok(begin_cycle(monitor, hand)),
        Event::ReportBegun(channel) => Ok(report_begun(monitor, hand, *channel)),
        Event::CloseCycle => Ok(close_cycle(monitor, hand)),
        Event::ReportSwept(channel) => Ok(report_swept(monitor, hand, *channel)),
        Event::StoreBegin(op) => store_begin(alloc, monitor, hand, op),
        Event::StoreEnd => Ok(store_end(monitor, hand)),
        Event::BeginMark
        | Event::MarkSome(_)
        | Event::Deliver(_)
        | Event::SweepSome(_)
        | Event::StorePart
        | Event::Confirm
        | Event::Pin(_)
        | Event::Unpin(_)
        | Event::Tidy => Ok(None),
    }
}
