//! Which slots are bound.

ghost use Rattle.std.specs.Prelude.{◌≡◌, ◌<◌, ◌&&◌, not, set, true, false, ◌∷◌, replicate};
ghost use Rattle.workload.specs.Draws.{drops as drops_at, is_bound};

use crate::draw::{Draw, SLOTS};
use std::marker::Model;

/// The slots, which contracts see as a flag for each.
#[derive(Debug, Drop)]
pub(crate) struct Slots {
    flags: [bool; 64],
}

impl Model for Slots {
    ghost use Rattle.std.specs.Prelude.{List, Bool};

    ghost Value = { List Bool };

    ghost view = { λ slots. slots.flags };
}

impl Slots {
    /// Slot 0 alone is bound.
    pub(crate) fn new() -> Slots
        ensures { result ≡ true ∷ replicate 63 false }
    {
        let mut flags = [false; SLOTS];
        flags[0] = true;
        Slots { flags }
    }

    /// Whether the slot is bound.
    pub(crate) fn contains(&self, slot: u64) -> bool
        requires { slot < 64 }
        ensures { result ≡ is_bound self.now slot }
    {
        self.flags[slot as usize]
    }

    /// What the line of a draw leaves bound.
    pub(crate) fn note(&mut self, draw: &Draw)
        requires { draw.now.slot < 64 }
        ensures { self.new ≡ set self.old draw.now.slot (not (is_bound self.old draw.now.slot && drops_at draw.now)) }
    {
        let was_bound = self.contains(draw.slot);
        self.flags[draw.slot as usize] = !(was_bound && draw.drops());
    }
}
