// The core at its start.
ghost use Rattle.std.specs.Prelude.{◌≡◌, ◌<◌, true, IfOk, map, replicate};
ghost use Rattle.std.specs.List.{filter, range_with_len};
ghost use Rattle.graph_model.specs.declared.entity.Record.{Record};
ghost use Rattle.core_steps.specs.Core.{is_home, new_hand};
ghost use Rattle.core_steps.specs.Steps.{start, start_channel, start_monitor};

use crate::sets::no_ids;
use core_steps::{
    Book, Channels, CoreChannel, CoreMonitor, CoreState, Flags, HandState, Hands, Phase, Stores,
};
use graph_model::{Graph, NoMemory, Record, Records};
use std::alloc::Global;

/// The records of the ids that belong to a channel.
pub(crate) fn own_records(
    alloc: Global,
    channels: u64,
    number: u64,
    records: &[Record],
) -> Result<Records, NoMemory>
    requires { 0 < channels }
    ensures { IfOk result (λ own. own ≡ filter (λ (r : Record). is_home channels number r.id) records.now) }
{
    let mut own = Vec::new(alloc);
    for record in records {
        if record.id % channels == number {
            own.push(record.clone()?)?;
        }
    }
    Ok(Records::new(own))
}

/// A hand that holds nothing and has seen nothing.
pub fn new_hand(alloc: Global) -> Result<HandState, NoMemory>
    ensures { IfOk result (λ hand. hand ≡ new_hand) }
{
    Ok(HandState {
        transit: no_ids(alloc),
        credit: 0,
        cycle_seen: 0,
        closed_seen: false,
        ended_seen: 0,
        begun_reports: no_ids(alloc),
        swept_reports: no_ids(alloc),
        opened: None,
    })
}

fn start_channel(
    alloc: Global,
    graph: &Graph,
    stores: u64,
    channels: u64,
    number: u64,
) -> Result<CoreChannel, NoMemory>
    requires { 0 < channels }
    ensures { IfOk result (λ channel. channel ≡ start_channel graph.now stores channels number) }
{
    let table = own_records(alloc, channels, number, graph.records.as_slice())?;
    Ok(CoreChannel {
        table,
        marked: no_ids(alloc),
        grey: no_ids(alloc),
        pins: no_ids(alloc),
        phase: Phase::Idle(0),
        last_part: stores,
        confirmed: stores,
    })
}

fn start_channels(
    alloc: Global,
    graph: &Graph,
    stores: u64,
    channels: u64,
) -> Result<Channels, NoMemory>
    ensures { IfOk result (λ made. made ≡ map (start_channel graph.now stores channels) (range_with_len 0 channels)) }
{
    let mut made = Vec::new(alloc);
    for number in 0..channels {
        made.push(start_channel(alloc, graph, stores, channels, number)?)?;
    }
    Ok(Channels::new(made))
}

fn start_hands(alloc: Global, actors: u64) -> Result<Hands, NoMemory>
    ensures { IfOk result (λ hands. hands ≡ replicate actors new_hand) }
{
    let mut hands = Vec::new(alloc);
    for _actor in 0..actors {
        hands.push(new_hand(alloc)?)?;
    }
    Ok(Hands::new(hands))
}

/// As many set flags.
fn set_flags(alloc: Global, count: usize) -> Result<Flags, NoMemory>
    ensures { IfOk result (λ flags. flags ≡ replicate count true) }
{
    Ok(Flags::new(vec![in alloc; true; count]?))
}

fn start_monitor(
    alloc: Global,
    stores: u64,
    channels: u32,
    format: u8,
) -> Result<CoreMonitor, NoMemory>
    ensures { IfOk result (λ monitor. monitor ≡ start_monitor stores channels format) }
{
    Ok(CoreMonitor {
        format,
        cycle: 0,
        closed: true,
        begun: set_flags(alloc, channels as usize)?,
        swept: set_flags(alloc, channels as usize)?,
        pending: 0,
        stores_begun: stores,
        stores_ended: stores,
    })
}

/// The start with this graph, where `number` stores ended before: cycle 0 is closed, and each actor has a new hand.
/// The format is 1 or 2. From one channel on, and from a graph that is empty or has just what its root reaches, it is a good core.
pub fn start(
    alloc: Global,
    graph: &Graph,
    next_id: u64,
    number: u64,
    channels: u32,
    actors: u32,
    format: u8,
) -> Result<CoreState, NoMemory>
    ensures { IfOk result (λ core. core ≡ start graph.now next_id number channels actors format) }
{
    let book = Book {
        start: graph.clone()?,
        start_next: next_id,
        ended: Stores::new(Vec::new(alloc)),
        opened: None,
    };
    Ok(CoreState {
        channels: start_channels(alloc, graph, number, u64::from(channels))?,
        monitor: start_monitor(alloc, number, channels, format)?,
        hands: start_hands(alloc, u64::from(actors))?,
        book,
    })
}
