ghost use Rattle.std.specs.Prelude.{◌≡◌};

use crate::layout::UnitSlot;
use atomic_table::{Badge, Seat};
use core_hands::Hand;
use std::marker::{Model, PhantomData};
use std::snapshot::Snapshot;

/// What a pass knows. No value of it is made.
pub struct View<C> {
    marker: PhantomData<C>,
}

impl<C> Model for View<C> {
    ghost use Rattle.shards.specs.Known.{Known, spent};

    ghost Value = { Known C };

    ghost view = { λ _. spent };
}

/// The right of one actor to ask for turns, and its hand. Actor 0 is the session.
#[derive(Drop)]
pub struct Pass<C> {
    pub(crate) badge: Badge<View<C>>,
    pub(crate) hand: Hand,
    pub(crate) actor: u32,
    pub(crate) made: u32,
}

impl<C> Model for Pass<C> {
    ghost use Rattle.std.specs.Prelude.{◌≡◌, true, [], ◌∷◌, None};
    ghost use Rattle.shards.specs.Known.{PassState, known_in};

    ghost Value = { PassState C };

    ghost view = { λ pass. record { table = pass.badge.table_id; known = known_in pass.badge.views } };

    ghost invariant = { λ pass. (pass.badge.views ≡ known_in pass.badge.views ∷ []) × ((known_in pass.badge.views).live ≡ true) × ((known_in pass.badge.views).taken ≡ None)
        × ((known_in pass.badge.views).own.hand ≡ pass.hand) × ((known_in pass.badge.views).own.actor ≡ pass.actor) × ((known_in pass.badge.views).own.actor ≡ 0 → (known_in pass.badge.views).desk.made ≡ pass.made) };
}

/// The turn of a shard.
pub struct Turn<C> {
    pub(crate) seat: Seat<UnitSlot<C>, View<C>>,
    pub(crate) shard: u32,
    pub(crate) actor: u32,
    pub(crate) made: u32,
    pub(crate) was: Snapshot<C>,
}

impl<C> Model for Turn<C> {
    ghost use Rattle.std.specs.Prelude.{◌≡◌, ◌<◌, true, [], ◌∷◌, Some, None};
    ghost use Rattle.shards.specs.Known.{TurnState};

    ghost Value = { TurnState C };

    ghost view = { λ turn. record { table = turn.seat.table_id; known = turn.seat.me.0; shard = turn.shard; was = turn.was.value } };

    ghost invariant = { λ turn. (turn.seat.me.0.live ≡ true) × (turn.seat.me.1 ≡ (turn.shard, None) ∷ []) × (turn.seat.me.0.taken ≡ Some (turn.shard, turn.was.value))
        × (turn.seat.me.0.own.actor ≡ turn.actor) × (turn.seat.me.0.own.actor ≡ 0 → turn.seat.me.0.desk.made ≡ turn.made) × (turn.shard < turn.seat.table_id.slots) };
}

/// A shard's unit and the actor's hand, with the turn. It goes back by `leave`, `leave_store` or `back` of it.
pub struct Held<C> {
    pub unit: C,
    pub hand: Hand,
    pub turn: Turn<C>,
}

/// The shard was taken: its word read 1.
#[derive(Drop)]
pub struct Busy<C> {
    pub pass: Pass<C>,
    pub word: u64,
}

impl<C> Pass<C> {
    /// The number of the pass's actor; 0 is the session.
    pub fn actor(&self) -> u32
        ensures { result ≡ self.now.known.own.actor }
    {
        self.actor
    }
}

impl<C> Turn<C> {
    /// The number of the shard whose turn it is.
    pub fn shard(&self) -> u32
        ensures { result ≡ self.now.shard }
    {
        self.shard
    }

    /// The number of the actor that has it.
    pub fn actor(&self) -> u32
        ensures { result ≡ self.now.known.own.actor }
    {
        self.actor
    }
}
