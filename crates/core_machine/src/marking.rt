// Events that mark: a channel begins, follows edges, and takes ids from other channels.
ghost use Rattle.std.specs.Prelude.{◌≡◌, ◌≤◌, ◌<◌, ◌+◌, ◌^◌, IfOk, IfSome};
ghost use Rattle.core_steps.specs.Core.{is_marking};
ghost use Rattle.core_steps.specs.Rows.{is_white, greyed, roots, mark_edge, mark_edges, may_mark, mark_one, deliver_one, channel_step};

use crate::sets::edges_of;
use core_steps::{CREDIT_LIMIT, CoreChannel, Event, HandState, Phase, Place, TRANSIT_LIMIT};
use graph_model::{Ids, NoMemory};
use std::alloc::Global;

/// A channel and the hand that works on it.
pub type Pair = (CoreChannel, HandState);

fn is_white(channel: &CoreChannel, id: u64) -> bool
    ensures { result ≡ is_white id channel.now }
{
    channel.table.get(id).is_some() && !channel.marked.contains(id)
}

/// Marks and greys an id for one credit.
pub(crate) fn greyed(pair: Pair, id: u64) -> Result<Pair, NoMemory>
    ensures { IfOk result (λ made. made ≡ greyed id pair) }
{
    let (mut channel, mut hand) = pair;
    channel.marked.insert(id)?;
    channel.grey.insert(id)?;
    hand.credit = hand.credit.saturating_sub(1);
    Ok((channel, hand))
}

/// The root and the pins, as far as they are in the table.
fn roots(alloc: Global, channel: &CoreChannel) -> Result<Ids, NoMemory>
    ensures { IfOk result (λ found. found ≡ roots channel.now) }
{
    let mut wanted = channel.pins.clone()?;
    wanted.add(1)?;
    let mut found = Vec::new(alloc);
    for id in wanted.as_slice() {
        if channel.table.get(*id).is_some() {
            found.push(*id)?;
        }
    }
    Ok(Ids::new(found))
}

/// The event BeginMark on a channel. Its clause says where it is allowed, and what it makes of channel and hand.
pub fn begin_mark(alloc: Global, place: &Place, pair: Pair) -> Result<Option<Pair>, NoMemory>
    ensures { IfOk result (λ made. made ≡ channel_step place.now pair.0 pair.1 Event.BeginMark) }
{
    let (mut channel, mut hand) = pair;
    let Phase::Idle(cycle) = &channel.phase else {
        return Ok(None);
    };
    let next = *cycle;
    let roots = roots(alloc, &channel)?;
    let count = roots.len() as u64;
    if hand.cycle_seen == 0 || hand.cycle_seen - 1 != next || count > hand.credit {
        return Ok(None);
    }
    channel.phase = Phase::Marking(hand.cycle_seen);
    channel.marked = roots.clone()?;
    channel.grey = roots;
    hand.credit -= count;
    hand.begun_reports.add(place.number)?;
    Ok(Some((channel, hand)))
}

/// Follows one edge.
fn mark_edge(place: &Place, pair: Pair, id: u64) -> Result<Pair, NoMemory>
    requires { 0 < place.now.channels }
    ensures { IfOk result (λ made. made ≡ mark_edge place.now id pair) }
{
    let (channel, mut hand) = pair;
    if id % place.channels != place.number {
        hand.transit.insert(id)?;
        hand.credit = hand.credit.saturating_sub(1);
        return Ok((channel, hand));
    }
    if is_white(&channel, id) {
        return greyed((channel, hand), id);
    }
    Ok((channel, hand))
}

fn mark_edges(place: &Place, pair: Pair, edges: &Ids) -> Result<Pair, NoMemory>
    requires { 0 < place.now.channels }
    ensures { IfOk result (λ made. made ≡ mark_edges place.now edges.now pair) }
{
    let mut made = pair;
    for id in edges.as_slice() {
        made = mark_edge(place, made, *id)?;
    }
    Ok(made)
}

/// Whether the id is grey, and credit and batch have room for its edges.
fn may_mark(channel: &CoreChannel, hand: &HandState, id: u64, edges: usize) -> bool
    ensures { result ≡ may_mark id edges channel.now hand.now }
{
    channel.grey.contains(id)
        && hand.credit < CREDIT_LIMIT
        && edges as u64 <= hand.credit
        && hand.transit.len() <= TRANSIT_LIMIT
        && edges <= TRANSIT_LIMIT - hand.transit.len()
}

fn mark_one(alloc: Global, place: &Place, pair: Pair, id: u64) -> Result<Option<Pair>, NoMemory>
    requires { 0 < place.now.channels }
    ensures { IfOk result (λ made. made ≡ mark_one place.now id pair) }
{
    let (mut channel, mut hand) = pair;
    let edges = edges_of(alloc, &channel.table, id)?;
    if !may_mark(&channel, &hand, id, edges.len()) {
        return Ok(None);
    }
    channel.grey.remove(id);
    hand.credit += 1;
    let made = mark_edges(place, (channel, hand), &edges)?;
    Ok(Some(made))
}

fn is_marking(channel: &CoreChannel) -> bool
    ensures { result ≡ is_marking channel.now.phase }
{
    matches!(channel.phase, Phase::Marking(_))
}

/// The event MarkSome on a channel. Its clause says where it is allowed, and what it makes of channel and hand.
pub fn mark_some(
    alloc: Global,
    place: &Place,
    pair: Pair,
    ids: &Ids,
) -> Result<Option<Pair>, NoMemory>
    requires { 0 < place.now.channels }
    ensures { IfOk result (λ made. made ≡ channel_step place.now pair.0 pair.1 (Event.MarkSome ids.now)) }
{
    if !is_marking(&pair.0) {
        return Ok(None);
    }
    let mut made = pair;
    for id in ids.as_slice() {
        let Some(next) = mark_one(alloc, place, made, *id)? else {
            return Ok(None);
        };
        made = next;
    }
    Ok(Some(made))
}

fn deliver_one(place: &Place, pair: Pair, id: u64) -> Result<Option<Pair>, NoMemory>
    requires channels { 0 < place.now.channels }
    requires credit { pair.1.credit < 2 ^ 63 }
    ensures exact { IfOk result (λ made. made ≡ deliver_one place.now id pair) }
    ensures credit { IfOk result (λ made. IfSome made (λ p. p.1.credit ≤ pair.1.credit + 1)) }
{
    let (mut channel, mut hand) = pair;
    if !hand.transit.contains(id) || id % place.channels != place.number {
        return Ok(None);
    }
    hand.transit.remove(id);
    if is_white(&channel, id) {
        channel.marked.insert(id)?;
        channel.grey.insert(id)?;
    } else {
        hand.credit += 1;
    }
    Ok(Some((channel, hand)))
}

/// The event Deliver on a channel. Its clause says where it is allowed, and what it makes of channel and hand.
pub fn deliver(place: &Place, pair: Pair, ids: &Ids) -> Result<Option<Pair>, NoMemory>
    requires channels { 0 < place.now.channels }
    requires credit { pair.1.credit ≤ 2 ^ 33 }
    ensures { IfOk result (λ made. made ≡ channel_step place.now pair.0 pair.1 (Event.Deliver ids.now)) }
{
    if !is_marking(&pair.0) {
        return Ok(None);
    }
    let mut made = pair;
    for id in ids.as_slice() {
        let Some(next) = deliver_one(place, made, *id)? else {
            return Ok(None);
        };
        made = next;
    }
    Ok(Some(made))
}
