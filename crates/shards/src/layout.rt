// Where the words and the units of the table lie: each on cache lines of its own, so that turns of two shards do not hinder each other.
ghost use Rattle.std.specs.Prelude.{◌≡◌, ◌≤◌, ◌∷◌, Option};
ghost use Rattle.atomic_table.specs.Table.{rest};
ghost use Rattle.shards.specs.Words.{word_of};

use crate::passes::View;
use crate::shards::{Assembled, Start};
use crate::unit::BackedUnit;
use atomic_table::{Seat, Shared};
use crossbeam_utils::CachePadded;
use std::marker::Model;
use std::mem;

/// How many words lie between those of two shards, and one: 128 bytes.
const STRIDE: usize = 16;

/// The number of a shard's word. The stop word is that of the shard behind the last.
pub(crate) fn word_of(shard: u32) -> usize
    requires { shard ≤ 65 }
    ensures { result ≡ word_of shard }
{
    shard as usize * STRIDE
}

/// A unit at home, or none where it is out.
pub struct UnitSlot<C> {
    unit: CachePadded<Option<C>>,
}

impl<C> Model for UnitSlot<C> {
    ghost use Rattle.std.specs.Prelude.{Option};
    ghost use Rattle.crossbeam_utils.specs.Padded.{padded_value};

    ghost Value = { Option C };

    ghost view = { λ slot. padded_value slot.unit };
}

impl<C> UnitSlot<C> {
    pub(crate) fn new(unit: Option<C>) -> UnitSlot<C>
        ensures { result ≡ unit }
    {
        UnitSlot {
            unit: CachePadded::new(unit),
        }
    }

    pub(crate) fn into_unit(self) -> Option<C>
        ensures { result ≡ self }
    {
        let UnitSlot { unit } = self;
        unit.into_inner()
    }

    /// Puts this in, and gives back what was there.
    fn replace(&mut self, unit: Option<C>) -> Option<C>
        ensures was { result ≡ self.old }
        ensures now { self.new ≡ unit }
    {
        mem::replace(&mut *self.unit, unit)
    }
}

/// A plain read and write of the slot that the seat took last.
pub(crate) fn exchange<C: BackedUnit>(
    table: &Shared<UnitSlot<C>, View<C>, Start<C>, Assembled>,
    seat: &mut Seat<UnitSlot<C>, View<C>>,
    shard: u32,
    unit: Option<C>,
) -> Option<C>
    requires { (seat.old.table_id ≡ table.now.table_id) × ((old : Option C) × (seat.old.me.1 ≡ (shard, old) ∷ rest seat.old.me.1)) }
    ensures { (seat.new.table_id ≡ seat.old.table_id) × (seat.new.id ≡ seat.old.id) × (seat.old.me.1 ≡ (shard, result) ∷ rest seat.old.me.1) × (seat.new.me ≡ (seat.old.me.0, (shard, unit) ∷ rest seat.old.me.1)) }
{
    seat.slot_mut(table, shard as usize).replace(unit)
}
