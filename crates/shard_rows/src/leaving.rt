// How turns on units in memory go back.
ghost use Rattle.std.specs.Prelude.{◌≡◌, ◌≢◌, true, Some};
ghost use Rattle.core_steps.specs.declared.event.Event.{Event as CoreEvent};
ghost use Rattle.core_steps.specs.declared.event.Event.TheVariants.{StoreBegin};
ghost use Rattle.core_steps.specs.Events.{kind_of};
ghost use Rattle.shards.specs.Plays.{Makes, Rests};
ghost use Rattle.shard_rows.specs.Units.{IsAlike, IsPlainOp, told_of};

use crate::units::MemoryUnit;
use core_hands::Hand;
use core_steps::{Event, EventKind};
use graph_model::StoreOp;
use shards::{Held, Pass, Shards, Turn};

/// The kind of an event.
pub fn kind_of(event: &Event) -> EventKind
    ensures { result ≡ kind_of event.now }
{
    match event {
        Event::Reserve(_) => EventKind::Reserve,
        Event::Return(_) => EventKind::Return,
        Event::BeginCycle => EventKind::BeginCycle,
        Event::BeginMark => EventKind::BeginMark,
        Event::MarkSome(_) => EventKind::MarkSome,
        Event::Deliver(_) => EventKind::Deliver,
        Event::ReportBegun(_) => EventKind::ReportBegun,
        Event::CloseCycle => EventKind::CloseCycle,
        Event::SweepSome(_) => EventKind::SweepSome,
        Event::ReportSwept(_) => EventKind::ReportSwept,
        Event::StoreBegin(_) => EventKind::StoreBegin,
        Event::StorePart => EventKind::StorePart,
        Event::StoreEnd => EventKind::StoreEnd,
        Event::Confirm => EventKind::Confirm,
        Event::Pin(_) => EventKind::Pin,
        Event::Unpin(_) => EventKind::Unpin,
        Event::Tidy => EventKind::Tidy,
    }
}

/// Gives the turn back as an event of that kind.
pub fn leave_as(
    shards: &Shards<MemoryUnit>,
    turn: Turn<MemoryUnit>,
    unit: MemoryUnit,
    hand: Hand,
    kind: EventKind,
) -> Pass<MemoryUnit>
    requires table { turn.table ≡ shards.now.table }
    requires kind { kind ≢ EventKind.StoreBegin }
    requires event { turn.known.tells ≡ true → (e : CoreEvent) × (kind_of e ≡ kind) × Makes turn.known turn.shard (told_of turn.was) (told_of unit) hand e }
    ensures table { result.table ≡ shards.now.table }
    ensures alike { IsAlike turn.known result.known }
{
    Held { unit, hand, turn }.leave(shards, kind)
}

/// Gives the turn back as the event that begins a plain store.
pub fn leave_store(
    shards: &Shards<MemoryUnit>,
    turn: Turn<MemoryUnit>,
    unit: MemoryUnit,
    hand: Hand,
    op: &StoreOp,
) -> Pass<MemoryUnit>
    requires table { turn.table ≡ shards.now.table }
    requires actor { turn.known.own.actor ≡ 0 }
    requires plain { IsPlainOp op.now }
    requires event { turn.known.tells ≡ true → Makes turn.known turn.shard (told_of turn.was) (told_of unit) hand (StoreBegin op.now) }
    ensures table { result.table ≡ shards.now.table }
    ensures alike { IsAlike turn.known result.known }
{
    Held { unit, hand, turn }.leave_store(shards, op)
}

/// Gives the turn back by no event.
pub fn rest(
    shards: &Shards<MemoryUnit>,
    turn: Turn<MemoryUnit>,
    unit: MemoryUnit,
    hand: Hand,
) -> Pass<MemoryUnit>
    requires table { turn.table ≡ shards.now.table }
    requires same { turn.known.tells ≡ true → Rests turn.known turn.shard (told_of turn.was) (told_of unit) hand }
    ensures table { result.table ≡ shards.now.table }
    ensures alike { IsAlike turn.known result.known }
{
    Held { unit, hand, turn }.back(shards)
}
