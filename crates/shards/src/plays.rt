// What each step on the table tells.
ghost use Rattle.shards.specs.Plays.{left, looked, stopped, tried};

use crate::layout::UnitSlot;
use crate::passes::View;
use crate::unit::BackedUnit;
use atomic_table::Play;
use std::marker::{Brand, PhantomData};

pub(crate) struct Try;

impl<C: BackedUnit> Play<UnitSlot<C>, View<C>> for Try {
    ghost then = { tried C.told };
}

/// What a call gives back. Each call picks it.
pub trait Given {
    ghost use Rattle.std.specs.Prelude.{Bool};
    ghost use Rattle.core_steps.specs.declared.event.Event.{Event};
    ghost use Rattle.core_steps.specs.Core.{Hand};

    ghost hand: { Hand };

    ghost moves: { Bool };

    ghost asks: { Event → Type 0 };
}

impl Given for Brand {
    ghost use Rattle.std.specs.Prelude.{false};
    ghost use Rattle.core_steps.specs.Core.{new_hand};

    ghost hand = { new_hand };

    ghost moves = { false };

    ghost asks = { λ _. Unit {0} };
}

pub(crate) struct Leave<G> {
    given: PhantomData<G>,
}

impl<C: BackedUnit, G: Given> Play<UnitSlot<C>, View<C>> for Leave<G> {
    ghost then = { left C.told C.turns G.hand G.moves G.asks };
}

pub(crate) struct SetStop;

impl<C> Play<UnitSlot<C>, View<C>> for SetStop {
    ghost then = { stopped };
}

pub(crate) struct ReadStop;

impl<C> Play<UnitSlot<C>, View<C>> for ReadStop {
    ghost then = { looked };
}
