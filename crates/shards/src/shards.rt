ghost use Rattle.std.specs.Prelude.{◌≡◌, ◌≢◌, ◌≤◌, [], ◌∷◌, None, Some, true, vec_capacity, MatchResult};
ghost use Rattle.shards.specs.Known.{IsLater, Known, refused, took};
ghost use Rattle.shards.specs.Plays.{Glimpse};

use crate::layout::{UnitSlot, exchange, word_of};
use crate::passes::{Busy, Held, Pass, Turn, View};
use crate::plays::Try;
use crate::unit::BackedUnit;
use atomic_table::{Seat, Table, TableRule};
use core_hands::Hand;
use std::alloc::Global;
use std::marker::Model;
use std::snapshot::Snapshot;
use std::sync::{Mutex, Wait};
use std::thread;

/// The rule of the shards.
pub struct Assembled {}

/// What the table is told when it is made.
#[derive(Drop)]
pub struct Start<C> {
    pub units: Snapshot<Vec<C>>,
    pub next_id: u64,
}

impl<C: BackedUnit> TableRule<UnitSlot<C>, View<C>, Start<C>> for Assembled {
    ghost use Rattle.std.specs.Prelude.{map};
    ghost use Rattle.shards.specs.Kept.{Kept};
    ghost use Rattle.shards.specs.Known.{session_pass};

    ghost holds = { λ _. Kept C.told C.backs };

    ghost first = { λ key. session_pass (map C.told key.units.value.items) key.next_id };
}

/// The vector of the units while they are shards: empty, with room for as many as there may be.
pub struct Spare<C> {
    pub(crate) units: Vec<C>,
    ghost empty: { units.items ≡ [] },
    ghost room: { 65 ≤ vec_capacity units },
}

/// The units of a core, channels and then the monitor, as shards: a unit and a turn word each, and one word for the stop.
pub struct Shards<C: BackedUnit> {
    pub(crate) table: Table<UnitSlot<C>, View<C>, Start<C>, Assembled, Global>,
    pub(crate) channels: u32,
    pub(crate) spare: Mutex<Spare<C>>,
}

impl<C: BackedUnit> Model for Shards<C> {
    ghost use Rattle.std.specs.Prelude.{◌≡◌, ◌≤◌, ◌+◌};
    ghost use Rattle.shards.specs.Known.{ShardsState};
    ghost use Rattle.shards.specs.Words.{word_of};

    ghost Value = { ShardsState };

    ghost view = { λ shards. record { table = shards.table.shared.table_id; channels = shards.channels } };

    ghost invariant = { λ shards. (shards.table.shared.table_id.words ≡ word_of shards.table.shared.table_id.slots + 1) × (shards.table.shared.table_id.slots ≡ shards.channels + 1) × (shards.channels ≤ 64) };
}

/// Tries the turn of a shard: the word read 0, and the unit is the seat's; or it read 1.
fn try_word<C: BackedUnit>(
    shards: &Shards<C>,
    seat: &mut Seat<UnitSlot<C>, View<C>>,
    shard: u32,
) -> u64
    requires table { seat.old.table_id ≡ shards.now.table }
    requires shard { shard ≤ shards.now.channels }
    requires live { seat.old.me.0.live ≡ true }
    requires free { seat.old.me.0.taken ≡ None }
    ensures table { seat.new.table_id ≡ seat.old.table_id }
    ensures free { result ≡ 0 → (unit : C) × (seat.new.me ≡ (took seat.old.me.0 shard unit, (shard, Some unit) ∷ seat.old.me.1)) × (seat.old.me.0.tells ≡ true → Glimpse seat.old.me.0 shard (C.told unit)) }
    ensures taken { result ≢ 0 → (result ≡ 1) × (seat.new.me ≡ (refused seat.old.me.0 shard, seat.old.me.1)) }
{
    shards
        .table
        .shared
        .compare_exchange::<Try>(seat, word_of(shard), 0, 1)
}

impl<C: BackedUnit> Shards<C> {
    /// The number of channels. The shards are these by number, and then the monitor.
    pub fn channels(&self) -> u32
        ensures { result ≡ self.now.channels }
    {
        self.channels
    }

    /// Takes the turn of a shard by one try. `Busy` where that shard's own word read 1.
    pub fn try_enter(&self, pass: Pass<C>, shard: u32) -> Result<Held<C>, Busy<C>>
        requires pass { pass.table ≡ self.now.table }
        requires shard { shard ≤ self.now.channels }
        ensures table { MatchResult result (λ held. held.turn.table ≡ self.now.table) (λ busy. busy.pass.table ≡ self.now.table) }
        ensures taken { MatchResult result
            (λ held. (held.turn.known ≡ took pass.known shard held.unit) × (held.turn.shard ≡ shard) × (held.turn.was ≡ held.unit) × (held.hand ≡ pass.known.own.hand))
            (λ busy. (busy.pass.known ≡ refused pass.known shard) × (busy.word ≡ 1)) }
        ensures core { MatchResult result (λ held. pass.known.tells ≡ true → Glimpse pass.known shard (C.told held.unit)) (λ busy. Unit {0}) }
    {
        let Pass {
            badge,
            hand,
            actor,
            made,
        } = pass;
        let mut seat = badge.into_seat();
        let word = try_word(self, &mut seat, shard);
        if word == 0 {
            let unit = exchange(&self.table.shared, &mut seat, shard, None).unwrap();
            let was = Snapshot::of(&unit);
            Ok(Held {
                unit,
                hand,
                turn: Turn {
                    seat,
                    shard,
                    actor,
                    made,
                    was,
                },
            })
        } else {
            Err(Busy {
                pass: Pass {
                    badge: seat.into_badge(),
                    hand,
                    actor,
                    made,
                },
                word,
            })
        }
    }

    /// Tries until the turn of the shard is got.
    pub fn enter<R: Wait>(&self, rt: &R, pass: Pass<C>, shard: u32) -> Held<C>
        requires pass { pass.table ≡ self.now.table }
        requires shard { shard ≤ self.now.channels }
        ensures table { result.turn.table ≡ self.now.table }
        ensures taken { (w : Known C) × IsLater pass.known w × (result.turn.known ≡ took w shard result.unit) × (result.turn.shard ≡ shard) × (result.turn.was ≡ result.unit) × (result.hand ≡ pass.known.own.hand) }
        ensures core { pass.known.tells ≡ true → Glimpse pass.known shard (C.told result.unit) }
    {
        let mut pass = pass;
        for _ in rt.forever() {
            match self.try_enter(pass, shard) {
                Ok(held) => return held,
                Err(busy) => {
                    thread::yield_now();
                    pass = busy.pass;
                }
            }
        }
        unreachable!()
    }
}
