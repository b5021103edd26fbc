// Events on a channel in memory.
ghost use Rattle.std.specs.Prelude.{◌≡◌, ◌<◌, [], true, false, None, Some, IfSome};
ghost use Rattle.graph_model.specs.Ids.{has};
ghost use Rattle.core_steps.specs.declared.state.Place.{Place};
ghost use Rattle.core_steps.specs.Core.{written_of};
ghost use Rattle.core_steps.specs.Events.{is_worker};
ghost use Rattle.core_steps.specs.Rows.{channel_step};
ghost use Rattle.core_hands.specs.OpenStores.{channels_of, number_of};
ghost use Rattle.shard_rows.specs.Units.{core_of, is_free, is_idle, is_next};

use crate::units::{EmptyChannel, Stage};
use core_hands::Hand;
use core_steps::Event;
use graph_model::Ids;
use std::alloc::Global;

/// Whether the channel is to begin marking in the cycle that the hand saw.
fn is_next(channel: &EmptyChannel, hand: &Hand) -> bool
    ensures { result ≡ is_next channel.now.stage hand.now }
{
    match channel.stage {
        Stage::Idle(cycle) => hand.cycle_seen() != 0 && hand.cycle_seen() - 1 == cycle,
        Stage::Marking(_) => false,
    }
}

/// Begins to mark.
fn begin_mark(channel: &mut EmptyChannel, hand: &mut Hand, number: u32)
    requires number { number < 64 }
    requires next { is_next channel.old.stage hand.old ≡ true }
    ensures step { (p : Place) → p.number ≡ number → channel_step p (core_of channel.old) hand.old Event.BeginMark ≡ Some (core_of channel.new, hand.new) }
{
    channel.stage = Stage::Marking(hand.cycle_seen());
    hand.note_begun(number);
}

/// Sweeps, from marking on.
fn sweep(channel: &mut EmptyChannel, hand: &mut Hand, number: u32, cycle: u64)
    requires number { number < 64 }
    requires marking { channel.old.stage ≡ Stage.Marking cycle }
    requires closed { hand.old.closed_seen ≡ true }
    requires seen { hand.old.cycle_seen ≡ cycle }
    ensures step { (p : Place) → p.number ≡ number → channel_step p (core_of channel.old) hand.old (Event.SweepSome []) ≡ Some (core_of channel.new, hand.new) }
{
    channel.stage = Stage::Idle(cycle);
    hand.note_swept(number);
}

/// What a worker does on a channel that is idle: it begins to mark, or tidies. `None` where nothing is due.
fn idle_event(channel: &mut EmptyChannel, hand: &mut Hand, number: u32) -> Option<Event>
    requires number { number < 64 }
    ensures step { IfSome result (λ e. (p : Place) → p.number ≡ number → channel_step p (core_of channel.old) hand.old e ≡ Some (core_of channel.new, hand.new)) }
    ensures worker { IfSome result (λ e. is_worker e ≡ true) }
    ensures none { result ≡ None → (channel.new ≡ channel.old) × (hand.new ≡ hand.old) × (is_next channel.old.stage hand.old ≡ false) }
{
    if is_next(channel, hand) {
        begin_mark(channel, hand, number);
        return Some(Event::BeginMark);
    }
    if channel.confirmed == channel.last_part {
        return Some(Event::Tidy);
    }
    None
}

/// What a worker does on a channel that marks: it sweeps once the cycle is closed, and marks nothing before.
fn marking_event(
    alloc: Global,
    channel: &mut EmptyChannel,
    hand: &mut Hand,
    number: u32,
    cycle: u64,
) -> Event
    requires number { number < 64 }
    requires marking { channel.old.stage ≡ Stage.Marking cycle }
    ensures step { (p : Place) → p.number ≡ number → channel_step p (core_of channel.old) hand.old result ≡ Some (core_of channel.new, hand.new) }
    ensures worker { is_worker result ≡ true }
{
    let none = Ids::new(Vec::new(alloc));
    if hand.closed_seen() && hand.cycle_seen() == cycle {
        sweep(channel, hand, number, cycle);
        return Event::SweepSome(none);
    }
    Event::MarkSome(none)
}

/// What a worker does on a channel. `None` where nothing is due.
pub fn channel_event(
    alloc: Global,
    channel: &mut EmptyChannel,
    hand: &mut Hand,
    number: u32,
) -> Option<Event>
    requires number { number < 64 }
    ensures step { IfSome result (λ e. (p : Place) → p.number ≡ number → channel_step p (core_of channel.old) hand.old e ≡ Some (core_of channel.new, hand.new)) }
    ensures worker { IfSome result (λ e. is_worker e ≡ true) }
    ensures none { result ≡ None → (channel.new ≡ channel.old) × (hand.new ≡ hand.old) × (is_next channel.old.stage hand.old ≡ false) × (is_idle channel.old.stage ≡ true) }
{
    match channel.stage {
        Stage::Idle(_) => idle_event(channel, hand, number),
        Stage::Marking(cycle) => Some(marking_event(alloc, channel, hand, number, cycle)),
    }
}

/// Takes the channel's part of a store that lists no id.
fn store_part(channel: &mut EmptyChannel, hand: &mut Hand, number: u32, store: u64)
    requires number { number < 64 }
    requires open { number_of hand.old.opened ≡ Some store }
    requires in_store { has number (channels_of hand.old.opened) ≡ true }
    requires not_yet { has number (written_of hand.old.opened) ≡ false }
    requires older { channel.old.last_part < store }
    requires confirmed { channel.old.confirmed ≡ channel.old.last_part }
    ensures step { (p : Place) → p.number ≡ number → p.records ≡ [] → channel_step p (core_of channel.old) hand.old Event.StorePart ≡ Some (core_of channel.new, hand.new) }
{
    channel.last_part = store;
    hand.give_part(number);
}

/// Takes the channel's part where it has none of the open store yet.
fn part_event(channel: &mut EmptyChannel, hand: &mut Hand, number: u32) -> Option<Event>
    requires number { number < 64 }
    requires confirmed { channel.old.confirmed ≡ channel.old.last_part }
    ensures step { IfSome result (λ e. (p : Place) → p.number ≡ number → p.records ≡ [] → channel_step p (core_of channel.old) hand.old e ≡ Some (core_of channel.new, hand.new)) }
    ensures free { IfSome result (λ e. is_free e ≡ true) }
    ensures none { result ≡ None → (channel.new ≡ channel.old) × (hand.new ≡ hand.old) }
{
    match hand.open_number() {
        Some(store) => {
            let takes = hand.is_in_store(number) && !hand.has_part(number);
            if takes && channel.last_part < store {
                store_part(channel, hand, number, store);
                return Some(Event::StorePart);
            }
            None
        }
        None => None,
    }
}

/// What the session does on a channel: it gives it its part of the open store, or confirms that. `None` where neither may be.
pub fn session_part(channel: &mut EmptyChannel, hand: &mut Hand, number: u32) -> Option<Event>
    requires number { number < 64 }
    ensures step { IfSome result (λ e. (p : Place) → p.number ≡ number → p.records ≡ [] → channel_step p (core_of channel.old) hand.old e ≡ Some (core_of channel.new, hand.new)) }
    ensures free { IfSome result (λ e. is_free e ≡ true) }
    ensures none { result ≡ None → (channel.new ≡ channel.old) × (hand.new ≡ hand.old) }
{
    if channel.confirmed == channel.last_part {
        return part_event(channel, hand, number);
    }
    if channel.last_part <= hand.ended_seen() {
        channel.confirmed = channel.last_part;
        return Some(Event::Confirm);
    }
    None
}
