ghost use Rattle.std.specs.Prelude.{◌≡◌, ◌≢◌, ◌≤◌, true, None, Option, Some};
ghost use Rattle.core_steps.specs.declared.event.Event.{Event};
ghost use Rattle.core_steps.specs.declared.event.Event.TheVariants.{StoreBegin};
ghost use Rattle.core_steps.specs.Events.{kind_of};
ghost use Rattle.shards.specs.Known.{gave};
ghost use Rattle.shards.specs.Plays.{Goes, Makes, Rests, Returns, Steps};

use crate::layout::{exchange, word_of};
use crate::passes::{Held, Pass, Turn};
use crate::plays::{Given, Leave};
use crate::shards::Shards;
use crate::unit::BackedUnit;
use core_hands::Hand;
use core_steps::EventKind;
use graph_model::StoreOp;
use std::marker::Brand;

/// Gives the turn back. What is given back is picked.
fn give<C: BackedUnit, G: Given>(
    shards: &Shards<C>,
    turn: Turn<C>,
    unit: C,
    hand: Hand,
    _kind: Option<EventKind>,
    _op: Option<&StoreOp>,
) -> Pass<C>
    requires table { turn.table ≡ shards.now.table }
    requires hand { G.hand ≡ hand }
    requires returns { Returns turn.known (C.told turn.was) (C.told unit) G.hand }
    requires event { (o : Option Event) × Goes C.told C.turns turn.known turn.shard turn.was unit G.hand G.moves G.asks o }
    ensures table { result.table ≡ shards.now.table }
    ensures event { (o : Option Event) × Goes C.told C.turns turn.known turn.shard turn.was unit G.hand G.moves G.asks o × (result.known ≡ gave turn.known turn.shard (C.told turn.was) (C.told unit) G.hand o)
        × (turn.known.tells ≡ true → (e : Event) → o ≡ Some e → Steps turn.known turn.shard (C.told turn.was) (C.told unit) G.hand e) }
{
    let Turn {
        mut seat,
        shard,
        actor,
        made,
        was: _,
    } = turn;
    let old = exchange(&shards.table.shared, &mut seat, shard, Some(unit));
    let None = old else { unreachable!() };
    shards
        .table
        .shared
        .swap::<Leave<G>>(&mut seat, word_of(shard), 0);
    Pass {
        badge: seat.into_badge(),
        hand,
        actor,
        made,
    }
}

impl<C: BackedUnit> Held<C> {
    /// Gives the turn back as one event of that kind, which is not `StoreBegin`.
    pub fn leave(self, shards: &Shards<C>, kind: EventKind) -> Pass<C>
        requires table { self.turn.table ≡ shards.now.table }
        requires kind { kind ≢ EventKind.StoreBegin }
        requires returns { Returns self.turn.known (C.told self.turn.was) (C.told self.unit) self.hand }
        requires event { self.turn.known.tells ≡ true → (e : Event) × (kind_of e ≡ kind) × Makes self.turn.known self.turn.shard (C.told self.turn.was) (C.told self.unit) self.hand e × C.turns (Some e) self.turn.was self.unit }
        ensures table { result.table ≡ shards.now.table }
        ensures event { (o : Option Event) × (result.known ≡ gave self.turn.known self.turn.shard (C.told self.turn.was) (C.told self.unit) self.hand o)
            × (self.turn.known.tells ≡ true → (e : Event) × (o ≡ Some e) × (kind_of e ≡ kind) × Makes self.turn.known self.turn.shard (C.told self.turn.was) (C.told self.unit) self.hand e
            × Steps self.turn.known self.turn.shard (C.told self.turn.was) (C.told self.unit) self.hand e) }
    {
        let Held { unit, hand, turn } = self;
        give::<C, Brand>(shards, turn, unit, hand, Some(kind), None)
    }

    /// Gives the turn back as the event that begins this store.
    pub fn leave_store(self, shards: &Shards<C>, op: &StoreOp) -> Pass<C>
        requires table { self.turn.table ≡ shards.now.table }
        requires actor { self.turn.known.own.actor ≡ 0 }
        requires returns { Returns self.turn.known (C.told self.turn.was) (C.told self.unit) self.hand }
        requires event { self.turn.known.tells ≡ true → Makes self.turn.known self.turn.shard (C.told self.turn.was) (C.told self.unit) self.hand (StoreBegin op.now) × C.turns (Some (StoreBegin op.now)) self.turn.was self.unit }
        ensures table { result.table ≡ shards.now.table }
        ensures known { (o : Option Event) × (result.known ≡ gave self.turn.known self.turn.shard (C.told self.turn.was) (C.told self.unit) self.hand o) × (self.turn.known.tells ≡ true → (o ≡ Some (StoreBegin op.now)) × Steps self.turn.known self.turn.shard (C.told self.turn.was) (C.told self.unit) self.hand (StoreBegin op.now)) }
    {
        let Held { unit, hand, turn } = self;
        give::<C, Brand>(shards, turn, unit, hand, None, Some(op))
    }

    /// Gives the turn back with unit and hand as they were. A worker does so only where nothing is due.
    pub fn back(self, shards: &Shards<C>) -> Pass<C>
        requires table { self.turn.table ≡ shards.now.table }
        requires returns { Returns self.turn.known (C.told self.turn.was) (C.told self.unit) self.hand }
        requires same { self.turn.known.tells ≡ true → Rests self.turn.known self.turn.shard (C.told self.turn.was) (C.told self.unit) self.hand × C.turns None self.turn.was self.unit }
        ensures table { result.table ≡ shards.now.table }
        ensures known { result.known ≡ gave self.turn.known self.turn.shard (C.told self.turn.was) (C.told self.unit) self.hand None }
    {
        let Held { unit, hand, turn } = self;
        give::<C, Brand>(shards, turn, unit, hand, None, None)
    }
}
