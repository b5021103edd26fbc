ghost use Rattle.std.specs.Prelude.{◌≡◌, ◌≢◌, ◌<◌};
ghost use Rattle.core_steps.specs.Core.{new_hand};
ghost use Rattle.shards.specs.Known.{dealt, joined_with, newcomer};

use crate::passes::{Pass, View};
use crate::shards::Shards;
use crate::unit::BackedUnit;
use atomic_table::{Badge, Join, Split};
use core_hands::Hand;
use std::mem;

/// How a pass is split off.
pub(crate) struct Deal {}

impl<C> Split<View<C>> for Deal {
    ghost use Rattle.shards.specs.Known.{dealt, newcomer};

    ghost left = { dealt };

    ghost right = { λ v. newcomer v.tells v.channels v.desk.made };
}

/// How a pass is joined into another.
pub(crate) struct Merge {}

impl<C> Join<View<C>> for Merge {
    ghost use Rattle.shards.specs.Known.{joined_with, spent};

    ghost both = { joined_with };

    ghost spent = { spent };
}

impl<C: BackedUnit> Shards<C> {
    /// A pass of one more actor, the least that has none yet, with this hand.
    pub fn split(&self, pass: &mut Pass<C>, hand: Hand) -> Pass<C>
        requires pass { pass.old.table ≡ self.now.table }
        requires actor { (pass.old.known.own.actor ≡ 0) × (pass.old.known.desk.made < 65536) }
        requires hand { hand ≡ new_hand }
        ensures table { (pass.new.table ≡ self.now.table) × (result.table ≡ self.now.table) }
        ensures old { pass.new.known ≡ dealt pass.old.known }
        ensures new { result.known ≡ newcomer pass.old.known.tells pass.old.known.channels pass.old.known.desk.made }
    {
        let mut seat = mem::replace(&mut pass.badge, Badge::blank()).into_seat();
        let other = self.table.shared.split_seat::<Deal>(&mut seat);
        pass.badge = seat.into_badge();
        let actor = pass.made;
        pass.made += 1;
        Pass {
            badge: other.into_badge(),
            hand,
            actor,
            made: 0,
        }
    }

    /// The first pass, with the other's actors; the other's hand stays with them.
    pub fn join(&self, pass: Pass<C>, other: Pass<C>) -> Pass<C>
        requires pass { (pass.table ≡ self.now.table) × (other.table ≡ self.now.table) }
        requires other { other.known.own.actor ≢ 0 }
        ensures table { result.table ≡ self.now.table }
        ensures known { result.known ≡ joined_with pass.known other.known }
    {
        let Pass {
            badge,
            hand,
            actor,
            made,
        } = pass;
        let Pass { badge: theirs, .. } = other;
        let mut seat = badge.into_seat();
        self.table
            .shared
            .join_seat::<Merge>(&mut seat, theirs.into_seat());
        Pass {
            badge: seat.into_badge(),
            hand,
            actor,
            made,
        }
    }
}
