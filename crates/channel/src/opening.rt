//! What a channel's table is filled with when it is opened.
ghost use Rattle.std.specs.Prelude.{◌≡◌, true, false, length, None, IsTrue, OnOk, OnErr, IfSome};
ghost use Rattle.std.specs.FinMap as finite;
ghost use Rattle.entity_form.specs.Spelling.{IsHeaderOf};
ghost use Rattle.transactions_file.specs.Files.{is_live};
ghost use Rattle.channel.specs.Core.{last_part, told_of};
ghost use Rattle.channel.specs.Turns.{IsTurn};
ghost use Rattle.channel.specs.Holding.{holding};
ghost use Rattle.channel.specs.OnDisk.{Stands};
ghost use Rattle.channel.specs.Rows.{opened_row};

use crate::channel::Channel;
use crate::part::Part;
use crate::phase::Stage;
use entity_form::Header;
use entity_index::{Row, State};
use graph_model::NoMemory;
use store_io::Disk;

/// The row of an entity that stands on the disk, which is not pinned.
fn opened_at(file: u64, at: u64, header: Header) -> Row
    ensures { result ≡ opened_row file at header }
{
    Row {
        file,
        at,
        header,
        state: State {
            pinned: false,
            marked: false,
            grey: false,
            swept_odd: false,
            next: 0,
        },
    }
}

/// How many records are ready to be stored.
fn ready(prepared: &Option<Part>) -> u64
    ensures { IfSome prepared.now (λ part. result ≡ length part) }
{
    match prepared {
        Some(part) => part.len() as u64,
        None => 0,
    }
}

impl<D: Disk> Channel<D> {
    /// The table gains the entity of this header, which is the last one of its id there and stands at this place of a live file.
    /// Without memory nothing changes.
    pub fn found(&mut self, id: u64, file: u64, at: u64, header: Header) -> Result<(), NoMemory>
        requires new { finite.get self.old.rows id ≡ None }
        requires idle { self.old.phase ≡ Stage.Idle 0 }
        requires sound { self.old.failed ≡ false }
        requires confirmed { self.old.files.confirmed ≡ last_part self.old }
        requires live { is_live self.old.files.transactions.inventory.state.files file ≡ true }
        requires id_is { header.id ≡ id }
        requires right { IsHeaderOf header header.length }
        requires stands { IsTrue D.tells → Stands (D.reads self.old.files.disk) (last_part self.old) id (opened_row file at header) }

        ensures ok { OnOk result (self.new ≡ record self.old { rows = finite.insert self.old.rows id (opened_row file at header) }) }
        ensures err { OnErr result (self.new ≡ self.old) }
        ensures turn { IsTurn (told_of D.tells D.reads D.faults self.old) (told_of D.tells D.reads D.faults self.new) }
        ensures holding { holding D.reads self.new ≡ holding D.reads self.old }
    {
        let due = ready(&self.prepared).checked_add(1).ok_or(NoMemory)?;
        if self.index.reserve(due).is_err() {
            return Err(NoMemory);
        }
        self.index.put(id, opened_at(file, at, header));
        Ok(())
    }
}
