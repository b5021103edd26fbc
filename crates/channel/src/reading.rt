//! An entity of the table is read.
ghost use Rattle.std.specs.Prelude.{◌≡◌, ◌≤◌, ◌⊎◌, ◌↔◌, true, false, IsTrue, length, take, IfOk, IfErr, OnOk, IsErrOf, IsSomeAnd};
ghost use Rattle.call_counts.specs.Counts.{Rose, raised};
ghost use Rattle.graph_model.specs.Graph.{entity_of, lists};
ghost use Rattle.channel.specs.Core.{core_of, told_of};
ghost use Rattle.channel.specs.Entities.{AreBytesOf, IsSpelling};
ghost use Rattle.channel.specs.Turns.{IsTurn};
ghost use Rattle.channel.specs.Holding.{holding};
ghost use Rattle.channel.specs.Faults.{IsFaultOf, IsGoneOrFault, ending_after, failed_after};
ghost use Rattle.channel.specs.OnDisk.{SameDisk};

use crate::channel::Channel;
use crate::fault::{ChannelFault, note};
use channel_files::FilesFault;
use store_io::Disk;

impl<D: Disk> Channel<D> {
    /// Reads the entity of an id to the front of `out`, which has at least 1,048,576 bytes, and answers how many bytes it has.
    ///
    /// `Gone` comes exactly where the table lacks the id.
    pub fn lookup(&mut self, id: u64, out: &mut [u8]) -> Result<usize, ChannelFault>
        requires room { 1048576 ≤ length out.old }

        ensures entity { IsTrue D.tells → IfOk result (λ n. IsSomeAnd (entity_of (core_of D.reads self.old).table id) (λ e. AreBytesOf id e (take n out.new))) }
        // On any disk it is an entity of that id in its bytes, which can be read from them.
        ensures spelled { IfOk result (λ n. IsSpelling id (take n out.new)) }
        ensures within { IfOk result (λ n. n ≤ length out.new) }
        ensures gone { IsErrOf result (ChannelFault.Gone id) ↔ (lists (core_of D.reads self.old).table id ≡ false) }
        ensures fault { IfErr result (IsFaultOf id) }
        // Where the disk tells, the id is one of the table.
        ensures turn { (IsTrue D.tells → lists (core_of D.reads self.old).table id ≡ true) → IsTurn (told_of D.tells D.reads D.faults self.old) (told_of D.tells D.reads D.faults self.new) }
        ensures never_changed { IsTrue D.tells → IfErr result (IsGoneOrFault id) }
        ensures rest { self.new ≡ record self.old {
          files = record self.old.files { disk = self.new.files.disk };
          cached = self.new.cached;
          ending = ending_after result self.old.ending;
          failed = failed_after result self.old.failed;
        } }
        ensures disk { IsTrue D.tells → SameDisk D.reads D.leaves self.old self.new }
        ensures holding { IsTrue D.tells → holding D.reads self.new ≡ holding D.reads self.old }
        ensures no_call { self.old.failed ≡ true → self.new.files ≡ self.old.files }
        ensures faults { D.faults self.old.files.disk ≤ D.faults self.new.files.disk }
        ensures cause { self.old.failed ≡ false → IsErrOf result ChannelFault.Fault → Rose (D.faults self.old.files.disk) (D.faults self.new.files.disk) }
        ensures calm { OnOk result (D.faults self.new.files.disk ≡ D.faults self.old.files.disk) }
        // It reads once at most.
        ensures one_read { (D.read_calls self.new.files.disk ≡ D.read_calls self.old.files.disk) ⊎ (D.read_calls self.new.files.disk ≡ raised (D.read_calls self.old.files.disk)) }
    {
        let Some(&row) = self.index.row(id) else {
            return Err(note(
                &mut self.ending,
                &mut self.failed,
                ChannelFault::Gone { id },
            ));
        };
        if self.failed {
            return Err(note(&mut self.ending, &mut self.failed, ChannelFault::Fault));
        }
        match self.files.read_entity(row.file, row.at, row.header, out) {
            Ok(()) => Ok(row.header.length as usize),
            Err(FilesFault::Fault) => Err(note(
                &mut self.ending,
                &mut self.failed,
                ChannelFault::Fault,
            )),
            Err(FilesFault::Changed { at: _ }) => Err(note(
                &mut self.ending,
                &mut self.failed,
                ChannelFault::Changed { id },
            )),
            Err(_) => unreachable!(),
        }
    }
}
