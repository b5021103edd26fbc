// Events of stores and pins: a store begins and ends on the monitor, and each of its channels takes and confirms its part.
ghost use Rattle.std.specs.Prelude.{◌≡◌, ◌<◌, ◌||◌, Some, is_some, true, nat_eq, IfOk};
ghost use Rattle.graph_model.specs.Graph.{ids};
ghost use Rattle.core_steps.specs.Rows.{has_part, store_channels, is_complete, may_begin, marks_pin, may_take, marked_all, greyed_all, part_marked, part_taken, part_given, channel_step, monitor_step};
ghost use Rattle.core_steps.specs.declared.state.Place.{Place};

use crate::counting::seen;
use crate::marking::{Pair, greyed};
use crate::sets::{add_all, ids_of, no_ids, remove_all};
use core_steps::{CoreChannel, CoreMonitor, Event, HandState, OpenStore, Phase, Place};
use graph_model::{Ids, NoMemory, Record, Records, StoreOp};
use std::alloc::Global;

/// The greatest number of begun stores after which one more may begin.
const STORE_COUNT_LIMIT: u64 = 1 << 63;

/// Whether some record's id belongs to the channel.
fn has_part(channels: u64, records: &[Record], channel: u64) -> bool
    requires { 0 < channels }
    ensures { result ≡ has_part channels records.now channel }
{
    records.iter().any(|record| record.id % channels == channel)
}

/// Whether a store with these records is on the channel.
fn is_on(format: u8, channels: u64, records: &[Record], channel: u64) -> bool
    requires { 0 < channels }
    ensures { result ≡ (nat_eq format 1 || has_part channels records.now channel) }
{
    format == 1 || has_part(channels, records, channel)
}

/// The channels of a store, by number.
fn store_channels(
    alloc: Global,
    format: u8,
    channels: u64,
    records: &Records,
) -> Result<Ids, NoMemory>
    ensures { IfOk result (λ found. found ≡ store_channels format channels records.now) }
{
    let mut found = Vec::new(alloc);
    for channel in 0..channels {
        if is_on(format, channels, records.as_slice(), channel) {
            found.push(channel)?;
        }
    }
    Ok(Ids::new(found))
}

fn may_begin(monitor: &CoreMonitor, op: &StoreOp) -> bool
    ensures { result ≡ may_begin monitor.now op.now }
{
    monitor.stores_begun == monitor.stores_ended
        && monitor.stores_begun <= STORE_COUNT_LIMIT
        && (monitor.format == 1 || !op.records.is_empty())
}

/// The event StoreBegin on the monitor. Its clause says where it is allowed, and what it makes of monitor and hand.
pub fn store_begin(
    alloc: Global,
    mut monitor: CoreMonitor,
    mut hand: HandState,
    op: &StoreOp,
) -> Result<Option<(CoreMonitor, HandState)>, NoMemory>
    ensures { IfOk result (λ made. made ≡ monitor_step monitor hand (Event.StoreBegin op.now)) }
{
    if !may_begin(&monitor, op) {
        return Ok(None);
    }
    let count = monitor.begun.as_slice().len() as u64;
    let channels = store_channels(alloc, monitor.format, count, &op.records)?;
    monitor.stores_begun += 1;
    hand.opened = Some(OpenStore {
        number: monitor.stores_begun,
        channels,
        written: no_ids(alloc),
    });
    Ok(Some(seen(monitor, hand)))
}

/// Whether each channel of the store has its part.
fn is_complete(store: &OpenStore) -> bool
    ensures { result ≡ is_complete store.now }
{
    store
        .channels
        .as_slice()
        .iter()
        .all(|channel| store.written.contains(*channel))
}

/// The event StoreEnd on the monitor. Its clause says where it is allowed, and what it makes of monitor and hand.
/// Where the hand has a store open, the monitor began more stores than ended.
pub fn store_end(mut monitor: CoreMonitor, mut hand: HandState) -> Option<(CoreMonitor, HandState)>
    requires { is_some hand.opened ≡ true → monitor.stores_ended < monitor.stores_begun }
    ensures { result ≡ monitor_step monitor hand Event.StoreEnd }
{
    let Some(store) = &hand.opened else {
        return None;
    };
    if !is_complete(store) {
        return None;
    }
    monitor.stores_ended += 1;
    hand.opened = None;
    Some(seen(monitor, hand))
}

/// Whether the store has a part for the channel that may be taken now.
fn may_take(place: &Place, store: &OpenStore, channel: &CoreChannel, hand: &HandState) -> bool
    ensures { result ≡ may_take place.now store.now channel.now hand.now }
{
    store.channels.contains(place.number)
        && !store.written.contains(place.number)
        && channel.last_part < store.number
        && channel.confirmed == channel.last_part
        && place.records.len() as u64 <= hand.credit
}

/// Marks the ids.
fn marked_all(ids: &Ids, pair: Pair) -> Result<Pair, NoMemory>
    ensures { IfOk result (λ made. made ≡ marked_all ids.now pair) }
{
    let (mut channel, hand) = pair;
    add_all(&mut channel.marked, ids)?;
    Ok((channel, hand))
}

/// Marks and greys the ids, for one credit each that was not grey.
fn greyed_all(ids: &Ids, pair: Pair) -> Result<Pair, NoMemory>
    ensures { IfOk result (λ made. made ≡ greyed_all ids.now pair) }
{
    let (mut channel, mut hand) = pair;
    let before = channel.grey.len();
    add_all(&mut channel.marked, ids)?;
    add_all(&mut channel.grey, ids)?;
    let greyed = channel.grey.len().saturating_sub(before);
    hand.credit = hand.credit.saturating_sub(greyed as u64);
    Ok((channel, hand))
}

/// Marks the ids, and leaves none of them to visit.
fn kept_all(ids: &Ids, cycle: u64, mut left: Ids, pair: Pair) -> Result<Pair, NoMemory>
    ensures { IfOk result (λ made. made ≡ part_marked ids.now (Phase.Sweeping cycle left) pair) }
{
    let (mut channel, hand) = pair;
    add_all(&mut channel.marked, ids)?;
    remove_all(&mut left, ids);
    channel.phase = Phase::Sweeping(cycle, left);
    Ok((channel, hand))
}

/// What the ids of a part do to marks and credit.
fn part_marked(ids: &Ids, pair: Pair) -> Result<Pair, NoMemory>
    ensures { IfOk result (λ made. made ≡ part_marked ids.now pair.0.phase pair) }
{
    match &pair.0.phase {
        Phase::Idle(_) => Ok(pair),
        Phase::Marking(cycle) => {
            if pair.1.closed_seen && pair.1.cycle_seen == *cycle {
                marked_all(ids, pair)
            } else {
                greyed_all(ids, pair)
            }
        }
        Phase::Sweeping(cycle, left) => {
            let cycle = *cycle;
            let left = left.clone()?;
            kept_all(ids, cycle, left, pair)
        }
    }
}

/// Puts the records into the table, and pins their ids.
fn part_taken(
    place: &Place,
    part_ids: &Ids,
    number: u64,
    mut channel: CoreChannel,
) -> Result<CoreChannel, NoMemory>
    requires { part_ids.now ≡ ids place.now.records }
    ensures { IfOk result (λ made. made ≡ part_taken place.now number channel) }
{
    channel.table.put_all(&place.records)?;
    add_all(&mut channel.pins, part_ids)?;
    channel.last_part = number;
    Ok(channel)
}

/// Notes in the hand that the channel has its part.
fn part_given(
    place: &Place,
    mut store: OpenStore,
    mut hand: HandState,
) -> Result<HandState, NoMemory>
    ensures { IfOk result (λ made. made ≡ part_given place.now store hand) }
{
    store.written.add(place.number)?;
    hand.opened = Some(store);
    Ok(hand)
}

/// The event StorePart on a channel. Its clause says where it is allowed, and what it makes of channel and hand.
pub fn store_part(alloc: Global, place: &Place, pair: Pair) -> Result<Option<Pair>, NoMemory>
    ensures { IfOk result (λ made. made ≡ channel_step place.now pair.0 pair.1 Event.StorePart) }
{
    let (channel, hand) = pair;
    let Some(store) = &hand.opened else {
        return Ok(None);
    };
    if !may_take(place, store, &channel, &hand) {
        return Ok(None);
    }
    let store = store.clone()?;
    let ids = ids_of(alloc, &place.records)?;
    let channel = part_taken(place, &ids, store.number, channel)?;
    let hand = part_given(place, store, hand)?;
    let made = part_marked(&ids, (channel, hand))?;
    Ok(Some(made))
}

/// The event Confirm on a channel. Its clause says where it is allowed, and what it makes of channel and hand.
pub fn confirm(pair: Pair) -> Option<Pair>
    ensures { (place : Place) → result ≡ channel_step place pair.0 pair.1 Event.Confirm }
{
    let (mut channel, hand) = pair;
    if channel.last_part > hand.ended_seen {
        return None;
    }
    channel.confirmed = channel.last_part;
    Some((channel, hand))
}

/// Whether a pin marks and greys the id.
fn marks_pin(channel: &CoreChannel, id: u64) -> bool
    ensures { result ≡ marks_pin id channel.now.phase channel.now }
{
    matches!(channel.phase, Phase::Marking(_)) && !channel.marked.contains(id)
}

/// The event Pin on a channel. Its clause says where it is allowed, and what it makes of channel and hand.
pub fn pin(pair: Pair, id: u64) -> Result<Option<Pair>, NoMemory>
    ensures { (place : Place) → IfOk result (λ made. made ≡ channel_step place pair.0 pair.1 (Event.Pin id)) }
{
    let (mut channel, hand) = pair;
    if channel.table.get(id).is_none() || hand.credit == 0 {
        return Ok(None);
    }
    channel.pins.add(id)?;
    if marks_pin(&channel, id) {
        let made = greyed((channel, hand), id)?;
        return Ok(Some(made));
    }
    Ok(Some((channel, hand)))
}

/// The event Unpin on a channel, which is always allowed. Its clause says what it makes of channel and hand.
pub fn unpin(pair: Pair, id: u64) -> Pair
    ensures { (place : Place) → Some result ≡ channel_step place pair.0 pair.1 (Event.Unpin id) }
{
    let (mut channel, hand) = pair;
    channel.pins.remove(id);
    (channel, hand)
}

/// The event Tidy on a channel. Its clause says where it is allowed; it leaves channel and hand as they are.
pub fn tidy(pair: Pair) -> Option<Pair>
    ensures { (place : Place) → result ≡ channel_step place pair.0 pair.1 Event.Tidy }
{
    if pair.0.confirmed != pair.0.last_part {
        return None;
    }
    Some(pair)
}
