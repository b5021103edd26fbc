//! Ids are pinned and unpinned.
ghost use Rattle.std.specs.Prelude.{◌≡◌, ◌≤◌, true, Some, List};
ghost use Rattle.graph_model.specs.Graph.{lists};
ghost use Rattle.core_steps.specs.Core.{is_idle};
ghost use Rattle.core_steps.specs.Rows.{channel_step};
ghost use Rattle.graph_model.specs.declared.entity.Record.{Record};
ghost use Rattle.channel.specs.Core.{core_of, place_with, told_of};
ghost use Rattle.channel.specs.Turns.{IsTurn};
ghost use Rattle.channel.specs.Holding.{holding};

use crate::channel::Channel;
use core_hands::Hand;
use core_steps::Event;
use store_io::Disk;

impl<D: Disk> Channel<D> {
    /// Pins an id of the table.
    pub fn pin(&mut self, hand: &mut Hand, id: u64)
        requires listed { lists (core_of D.reads self.old).table id ≡ true }
        // On a channel that marks a pin greys the id, by what a later stage adds.
        requires idle { is_idle (core_of D.reads self.old).phase ≡ true }
        requires credit { 1 ≤ hand.old.credit }
        ensures event { (part : List Record) → channel_step (place_with self.old part) (core_of D.reads self.old) hand.old (Event.Pin id) ≡ Some (core_of D.reads self.new, hand.new) }
        ensures rest { self.new ≡ record self.old { rows = self.new.rows } }
        ensures turn { IsTurn (told_of D.tells D.reads D.faults self.old) (told_of D.tells D.reads D.faults self.new) }
        ensures holding { holding D.reads self.new ≡ holding D.reads self.old }
    {
        // No cycle marks, so that the pin takes no credit.
        let _credit = hand.credit();
        self.index.pin(id);
    }

    /// Takes the pin of an id away, if it has one.
    pub fn unpin(&mut self, hand: &mut Hand, id: u64)
        ensures event { (part : List Record) → channel_step (place_with self.old part) (core_of D.reads self.old) hand.old (Event.Unpin id) ≡ Some (core_of D.reads self.new, hand.new) }
        ensures rest { self.new ≡ record self.old { rows = self.new.rows } }
        ensures turn { IsTurn (told_of D.tells D.reads D.faults self.old) (told_of D.tells D.reads D.faults self.new) }
        ensures holding { holding D.reads self.new ≡ holding D.reads self.old }
    {
        let _credit = hand.credit();
        if self.index.row(id).is_some() {
            self.index.unpin(id);
        }
    }
}
