ghost use Rattle.std.specs.Prelude.{◌≡◌, ◌⊎◌, true, cond};
ghost use Rattle.shards.specs.Known.{saw_stop, stopping};

use crate::layout::word_of;
use crate::passes::Pass;
use crate::plays::{ReadStop, SetStop};
use crate::shards::Shards;
use crate::unit::BackedUnit;

impl<C: BackedUnit> Shards<C> {
    /// Sets the stop, which stays set.
    pub fn stop(&self, pass: Pass<C>) -> Pass<C>
        requires pass { pass.table ≡ self.now.table }
        ensures table { result.table ≡ self.now.table }
        ensures known { result.known ≡ stopping pass.known }
    {
        let Pass {
            badge,
            hand,
            actor,
            made,
        } = pass;
        let mut seat = badge.into_seat();
        let word = word_of(self.channels + 1);
        self.table.shared.swap::<SetStop>(&mut seat, word, 1);
        Pass {
            badge: seat.into_badge(),
            hand,
            actor,
            made,
        }
    }

    /// Whether the stop is set. A pass that set it or has seen it sees it.
    pub fn stopped(&self, pass: Pass<C>) -> (Pass<C>, bool)
        requires pass { pass.table ≡ self.now.table }
        ensures table { result.0.table ≡ self.now.table }
        ensures known { result.0.known ≡ cond result.1 (saw_stop pass.known) pass.known }
        ensures stays { (pass.known.stop.has_set ≡ true) ⊎ (pass.known.stop.has_seen ≡ true) → result.1 ≡ true }
    {
        let Pass {
            badge,
            hand,
            actor,
            made,
        } = pass;
        let mut seat = badge.into_seat();
        let word = word_of(self.channels + 1);
        let read = self.table.shared.load::<ReadStop>(&mut seat, word);
        let pass = Pass {
            badge: seat.into_badge(),
            hand,
            actor,
            made,
        };
        (pass, read == 1)
    }
}
