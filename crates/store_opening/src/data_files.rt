//! The data files of a channel are synced before they are read.

ghost use Rattle.std.specs.Prelude.{◌≡◌, ◌≤◌, ℕ, true, IsTrue, OnOk, OnErr};
ghost use Rattle.call_counts.specs.Counts.{Rose};
ghost use Rattle.store_io.specs.Disk.{Only};
ghost use Rattle.transactions_file.specs.Files.{is_live};
ghost use Rattle.store_opening.specs.Left.{LeavesNoMore};

use store_io::{Disk, DiskFailed};
use transactions_file::Inventory;

/// Syncs each live file.
pub fn sync_live_files<D: Disk>(disk: &mut D, inventory: &Inventory) -> Result<(), DiskFailed>
    ensures synced { IsTrue D.tells → OnOk result ((file : ℕ) → is_live inventory.now.state.files file ≡ true → Only (D.reads disk.old file) (D.leaves disk.new file)) }
    ensures reads { IsTrue D.tells → D.reads disk.new ≡ D.reads disk.old }
    ensures leaves { IsTrue D.tells → LeavesNoMore (D.leaves disk.old) (D.leaves disk.new) }
    ensures faults { D.faults disk.old ≤ D.faults disk.new }
    ensures cause { OnErr result (Rose (D.faults disk.old) (D.faults disk.new)) }
    ensures calm { OnOk result (D.faults disk.new ≡ D.faults disk.old) }
{
    'files: for &(file, _) in inventory.files().as_slice() {
        disk.sync(file as u32)?;
    }
    Ok(())
}
