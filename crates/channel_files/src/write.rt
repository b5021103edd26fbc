//! Bytes are written behind what the inventory knows of a file.
ghost use Rattle.std.specs.Prelude.{◌≡◌, ◌≤◌, IsTrue, length, OnOk, OnErr};
ghost use Rattle.store_io.specs.Disk.{Holds, Only, OthersStay};
ghost use Rattle.call_counts.specs.Counts.{Rose};
ghost use Rattle.store_io.specs.Whole.{EachImage};
ghost use Rattle.transactions_file.specs.Files.{length_in};
ghost use Rattle.channel_files.specs.Chunks.{content_of};
ghost use Rattle.channel_files.specs.Channel.{IsOfDisk};
ghost use Rattle.channel_files.specs.Images.{IsAsRead, EachAsRead};
ghost use Rattle.channel_files.specs.Outcomes.{FileStays};

use data_file::append_chunk;
use store_io::{Disk, DiskFailed};
use transactions_file::TransactionsFile;

/// Writes the bytes at this place and syncs the file. The log, the inventory and the chunks stay.
pub(crate) fn write_behind<D: Disk>(
    disk: &mut D,
    transactions: &TransactionsFile,
    file: u32,
    at: u64,
    bytes: &[u8],
) -> Result<(), DiskFailed>
    requires of_disk { IsTrue D.tells → IsOfDisk transactions.now (D.reads disk.old) }
    requires behind { length_in transactions.now.inventory.state.files file ≤ at }
    requires apart { 2 ≤ file }
    requires within { IsTrue D.tells → at ≤ length (D.reads disk.old file) }

    ensures written { IsTrue D.tells → OnOk result (Holds (D.reads disk.old file) at bytes.now (D.reads disk.new file)) }
    ensures durable { IsTrue D.tells → OnOk result (Only (D.reads disk.new file) (D.leaves disk.new file)) }
    ensures of_disk { IsTrue D.tells → OnOk result (IsOfDisk transactions.now (D.reads disk.new)) }
    ensures content { IsTrue D.tells → OnOk result (content_of (D.reads disk.new) ≡ content_of (D.reads disk.old)) }
    ensures as_read { IsTrue D.tells → EachAsRead transactions.now (D.reads disk.old) (D.leaves disk.old) → OnOk result (EachAsRead transactions.now (D.reads disk.new) (D.leaves disk.new)) }
    ensures stop { IsTrue D.tells → EachAsRead transactions.now (D.reads disk.old) (D.leaves disk.old) → EachImage (D.leaves disk.new) (IsAsRead transactions.now (D.reads disk.old)) }
    // File 1 is as it was.
    ensures types { IsTrue D.tells → FileStays 1 (D.reads disk.old) (D.reads disk.new) (D.leaves disk.old) (D.leaves disk.new) }

    ensures faults { D.faults disk.old ≤ D.faults disk.new }
    ensures cause { OnErr result (Rose (D.faults disk.old) (D.faults disk.new)) }
    ensures calm { OnOk result (D.faults disk.new ≡ D.faults disk.old) }
    ensures read_calls { D.read_calls disk.new ≡ D.read_calls disk.old }
{
    append_chunk(disk, file, at, bytes)?;
    Ok(())
}
