// The machine: steps and runs of the whole core.
ghost use Rattle.std.specs.Prelude.{◌≡◌, ◌<◌, ◌≤◌, Some, None, true, false, length, IfOk, OnOk, OnErr};
ghost use Rattle.std.specs.List.{filter};
ghost use Rattle.graph_model.specs.declared.entity.Record.{Record};
ghost use Rattle.core_steps.specs.Core.{is_home, open_records};
ghost use Rattle.core_steps.specs.Good.{IsGood};
ghost use Rattle.core_steps.specs.Rows.{as_channel, as_monitor};
ghost use Rattle.core_steps.specs.Steps.{book_after, end_in, finish, place_of, step};

use crate::marking::Pair;
use crate::permission::permits;
use crate::shard::{channel_step, monitor_step};
use crate::starting::own_records;
use core_steps::{Book, CoreChannel, CoreMonitor, CoreState, Event, HandState, Place, Step};
use graph_model::{NoMemory, Records};
use std::alloc::Global;

/// The open store's records of the ids that belong to a shard.
fn part_records(alloc: Global, book: &Book, channels: u64, number: u64) -> Result<Records, NoMemory>
    requires { 0 < channels }
    ensures { IfOk result (λ own. own ≡ filter (λ (r : Record). is_home channels number r.id) (open_records book.now)) }
{
    match &book.opened {
        Some(op) => own_records(alloc, channels, number, op.records.as_slice()),
        None => Ok(Records::new(Vec::new(alloc))),
    }
}

fn place_of(alloc: Global, core: &CoreState, shard: u32) -> Result<Place, NoMemory>
    requires { 0 < length core.now.channels }
    ensures { IfOk result (λ place. place ≡ place_of core.now shard) }
{
    let channels = core.channels.as_slice().len() as u64;
    let number = u64::from(shard);
    let records = part_records(alloc, &core.book, channels, number)?;
    Ok(Place {
        number,
        channels,
        records,
    })
}

fn copies(channel: &CoreChannel, hand: &HandState) -> Result<Pair, NoMemory>
    ensures of_channel { IfOk result (λ pair. pair.0 ≡ channel.now) }
    ensures of_hand { IfOk result (λ pair. pair.1 ≡ hand.now) }
{
    Ok((channel.clone()?, hand.clone()?))
}

fn monitor_copies(
    monitor: &CoreMonitor,
    hand: &HandState,
) -> Result<(CoreMonitor, HandState), NoMemory>
    ensures of_monitor { IfOk result (λ pair. pair.0 ≡ monitor.now) }
    ensures of_hand { IfOk result (λ pair. pair.1 ≡ hand.now) }
{
    Ok((monitor.clone()?, hand.clone()?))
}

/// What a step makes of the channel that it is on and of its hand, where it is allowed.
fn channel_made(alloc: Global, core: &CoreState, wanted: &Step) -> Result<Option<Pair>, NoMemory>
    requires good { IsGood core.now }
    requires here { wanted.now.shard < length core.now.channels }
    ensures { IfOk result (λ made. finish core.now wanted.now (as_channel made) ≡ step core.now wanted.now) }
{
    let Some(channel) = core.channels.get(wanted.shard as usize) else {
        return Ok(None);
    };
    let Some(hand) = core.hands.get(wanted.actor as usize) else {
        return Ok(None);
    };
    if !permits(alloc, core, wanted)? {
        return Ok(None);
    }
    let place = place_of(alloc, core, wanted.shard)?;
    let pair = copies(channel, hand)?;
    channel_step(alloc, &place, pair, &wanted.event)
}

/// What a step makes of the monitor, which it is on, and of its hand, where it is allowed.
fn monitor_made(
    alloc: Global,
    core: &CoreState,
    wanted: &Step,
) -> Result<Option<(CoreMonitor, HandState)>, NoMemory>
    requires good { IsGood core.now }
    requires channels { length core.now.channels ≤ 64 }
    requires actors { length core.now.hands ≤ 65536 }
    requires here { wanted.now.shard ≡ length core.now.channels }
    ensures { IfOk result (λ made. finish core.now wanted.now (as_monitor made) ≡ step core.now wanted.now) }
{
    let Some(hand) = core.hands.get(wanted.actor as usize) else {
        return Ok(None);
    };
    if !permits(alloc, core, wanted)? {
        return Ok(None);
    }
    let (monitor, hand) = monitor_copies(&core.monitor, hand)?;
    monitor_step(alloc, monitor, hand, &wanted.event)
}

/// Notes in the book what the event began or ended. With no memory nothing changes.
fn note_in_book(book: &mut Book, event: &Event) -> Result<(), NoMemory>
    ensures ok { OnOk result (book.new ≡ book_after book.old event.now) }
    ensures err { OnErr result (book.new ≡ book.old) }
{
    match event {
        Event::StoreBegin(op) => {
            book.opened = Some(op.clone()?);
            Ok(())
        }
        Event::StoreEnd => end_store(book),
        _ => Ok(()),
    }
}

/// Makes the open store of the book an ended one. With no memory nothing changes.
fn end_store(book: &mut Book) -> Result<(), NoMemory>
    ensures ok { OnOk result (book.new ≡ end_in book.old book.old.opened) }
    ensures err { OnErr result (book.new ≡ book.old) }
{
    let Some(op) = &book.opened else {
        return Ok(());
    };
    let op = op.clone()?;
    book.ended.push(op)?;
    book.opened = None;
    Ok(())
}

/// A step on a channel. Where it is not allowed, and with no memory, nothing changes.
fn step_channel(core: &mut CoreState, wanted: &Step) -> Result<bool, NoMemory>
    requires good { IsGood core.old }
    requires here { wanted.now.shard < length core.old.channels }
    ensures yes { result ≡ Ok true → step core.old wanted.now ≡ Some core.new }
    ensures no { result ≡ Ok false → step core.old wanted.now ≡ None }
    ensures stays { result ≡ Ok false → core.new ≡ core.old }
    ensures err { OnErr result (core.new ≡ core.old) }
{
    let alloc = core.channels.allocator();
    let Some((channel, hand)) = channel_made(alloc, core, wanted)? else {
        return Ok(false);
    };
    note_in_book(&mut core.book, &wanted.event)?;
    core.channels.set(wanted.shard as usize, channel);
    core.hands.set(wanted.actor as usize, hand);
    Ok(true)
}

/// A step on the monitor. Where it is not allowed, and with no memory, nothing changes.
fn step_monitor(core: &mut CoreState, wanted: &Step) -> Result<bool, NoMemory>
    requires good { IsGood core.old }
    requires channels { length core.old.channels ≤ 64 }
    requires actors { length core.old.hands ≤ 65536 }
    requires here { wanted.now.shard ≡ length core.old.channels }
    ensures yes { result ≡ Ok true → step core.old wanted.now ≡ Some core.new }
    ensures no { result ≡ Ok false → step core.old wanted.now ≡ None }
    ensures stays { result ≡ Ok false → core.new ≡ core.old }
    ensures err { OnErr result (core.new ≡ core.old) }
{
    let alloc = core.channels.allocator();
    let Some((monitor, hand)) = monitor_made(alloc, core, wanted)? else {
        return Ok(false);
    };
    note_in_book(&mut core.book, &wanted.event)?;
    core.monitor = monitor;
    core.hands.set(wanted.actor as usize, hand);
    Ok(true)
}

/// A step on the shard that it names. Where it is not allowed, and with no memory, nothing changes.
fn step_shard(core: &mut CoreState, wanted: &Step) -> Result<bool, NoMemory>
    requires good { IsGood core.old }
    requires channels { length core.old.channels ≤ 64 }
    requires actors { length core.old.hands ≤ 65536 }
    ensures yes { result ≡ Ok true → step core.old wanted.now ≡ Some core.new }
    ensures no { result ≡ Ok false → step core.old wanted.now ≡ None }
    ensures stays { result ≡ Ok false → core.new ≡ core.old }
    ensures err { OnErr result (core.new ≡ core.old) }
{
    let count = core.channels.as_slice().len();
    let shard = wanted.shard as usize;
    if shard < count {
        return step_channel(core, wanted);
    }
    if shard == count {
        return step_monitor(core, wanted);
    }
    Ok(false)
}

/// Makes a step, and answers whether it is allowed. Where it is not, and with no memory, the core stays as it was.
/// The core is a good one, as each core of a run from a start is, of at most 64 channels and 65,536 actors: so is the core after it.
pub fn step(core: &mut CoreState, wanted: &Step) -> Result<bool, NoMemory>
    requires good { IsGood core.old }
    requires channels { length core.old.channels ≤ 64 }
    requires actors { length core.old.hands ≤ 65536 }
    ensures yes { result ≡ Ok true → step core.old wanted.now ≡ Some core.new }
    ensures no { result ≡ Ok false → step core.old wanted.now ≡ None }
    ensures stays { result ≡ Ok false → core.new ≡ core.old }
    ensures err { OnErr result (core.new ≡ core.old) }
    ensures good { IsGood core.new }
    ensures channels { length core.new.channels ≡ length core.old.channels }
    ensures actors { length core.new.hands ≡ length core.old.hands }
{
    step_shard(core, wanted)
}
