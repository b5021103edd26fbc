ghost use Rattle.std.specs.Prelude.{◌≡◌, ◌≤◌, ◌<◌, List, [], map, vec_capacity, Some};
ghost use Rattle.std.specs.Mem.Slots.{IsFull, slots_items, slots_len};
ghost use Rattle.shards.specs.Closing.{AreClosed, HasAll};

use crate::layout::UnitSlot;
use crate::passes::Pass;
use crate::shards::{Shards, Spare};
use crate::unit::BackedUnit;
use atomic_table::Closed;
use core_hands::Hand;
use std::alloc::Global;

/// Moves the units out of a closed table.
fn take_units<C>(closed: Closed<UnitSlot<C>, Global>, units: &mut Vec<C>)
    requires full { IsFull closed.slots × ((us : List C) × (slots_items closed.slots ≡ map Some us)) }
    requires empty { units.old.items ≡ [] }
    requires room { slots_len closed.slots ≤ vec_capacity units.old }
    ensures units { map Some units.new.items ≡ slots_items closed.slots }
{
    let mut closed = closed;
    for place in 0..closed.slot_count() {
        let Some(unit) = closed.take(place).into_unit() else {
            unreachable!()
        };
        units.push_reserved(unit);
    }
    closed.free();
}

impl<C: BackedUnit> Shards<C> {
    /// Gives the units back in the vector that they came in, and the session's hand. Each other pass was joined before.
    pub fn close(self, pass: Pass<C>) -> (Vec<C>, Hand)
        requires pass { pass.table ≡ self.table }
        requires actor { pass.known.own.actor ≡ 0 }
        requires joined { HasAll pass.known }
        ensures units { AreClosed C.told C.backs pass.known result.0.items }
        ensures hand { result.1 ≡ pass.known.own.hand }
    {
        let Pass { badge, hand, .. } = pass;
        let Shards {
            table,
            channels: _,
            spare,
        } = self;
        let Spare { units } = spare.into_inner();
        let mut units = units;
        let closed = table.close_with(badge.into_seat());
        take_units(closed, &mut units);
        (units, hand)
    }
}
