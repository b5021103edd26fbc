// Events that sweep: ids are visited, and those that are not marked leave the table.
ghost use Rattle.std.specs.Prelude.{◌≡◌, IfOk};
ghost use Rattle.core_steps.specs.Rows.{visited, visit, swept_to, sweep_from, channel_step};

use crate::marking::Pair;
use crate::sets::{ids_of, no_ids};
use core_steps::{CoreChannel, Event, HandState, Phase, Place};
use graph_model::{Ids, NoMemory};
use std::alloc::Global;

/// Takes an unmarked id out of the table.
fn visited(mut channel: CoreChannel, id: u64) -> CoreChannel
    ensures { result ≡ visited id channel }
{
    if !channel.marked.contains(id) {
        channel.table.remove(id);
    }
    channel
}

/// Visits the ids, and takes them out of those that are left.
fn visit(channel: CoreChannel, left: Ids, ids: &Ids) -> (CoreChannel, Ids)
    ensures { result ≡ visit ids.now (channel, left) }
{
    let mut channel = channel;
    let mut left = left;
    for id in ids.as_slice() {
        channel = visited(channel, *id);
        left.remove(*id);
    }
    (channel, left)
}

/// The channel and the hand, once only some ids are left to visit.
fn swept_to(
    alloc: Global,
    place: &Place,
    cycle: u64,
    pair: Pair,
    left: Ids,
) -> Result<Pair, NoMemory>
    ensures { IfOk result (λ swept. swept ≡ swept_to place.now cycle pair.0 pair.1 left) }
{
    let (mut channel, mut hand) = pair;
    if !left.is_empty() {
        channel.phase = Phase::Sweeping(cycle, left);
        return Ok((channel, hand));
    }
    channel.phase = Phase::Idle(cycle);
    channel.marked = no_ids(alloc);
    channel.grey = no_ids(alloc);
    hand.swept_reports.add(place.number)?;
    Ok((channel, hand))
}

fn sweep_from(
    alloc: Global,
    place: &Place,
    cycle: u64,
    left: Ids,
    ids: &Ids,
    pair: Pair,
) -> Result<Option<Pair>, NoMemory>
    ensures { IfOk result (λ made. made ≡ sweep_from place.now cycle left ids.now pair.0 pair.1) }
{
    let (channel, hand) = pair;
    if !hand.closed_seen || hand.cycle_seen != cycle {
        return Ok(None);
    }
    let (channel, left) = visit(channel, left, ids);
    let made = swept_to(alloc, place, cycle, (channel, hand), left)?;
    Ok(Some(made))
}

/// The event SweepSome. Its clause says where it is allowed, and what it makes of channel and hand.
pub fn sweep_some(
    alloc: Global,
    place: &Place,
    pair: Pair,
    ids: &Ids,
) -> Result<Option<Pair>, NoMemory>
    ensures { IfOk result (λ made. made ≡ channel_step place.now pair.0 pair.1 (Event.SweepSome ids.now)) }
{
    match &pair.0.phase {
        Phase::Idle(_) => Ok(None),
        Phase::Marking(cycle) => {
            let cycle = *cycle;
            let left = ids_of(alloc, &pair.0.table)?;
            sweep_from(alloc, place, cycle, left, ids, pair)
        }
        Phase::Sweeping(cycle, left) => {
            let cycle = *cycle;
            let left = left.clone()?;
            sweep_from(alloc, place, cycle, left, ids, pair)
        }
    }
}
