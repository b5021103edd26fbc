//! The chunks of all channels are read into an index each.

ghost use Rattle.std.specs.Prelude.{◌≡◌, ◌≤◌, ◌<◌, ℕ, true, IsTrue, length, map, IfOk, OnOk, IsErrOf};
ghost use Rattle.call_counts.specs.Counts.{Rose};
ghost use Rattle.store_io.specs.Disk.{Only};
ghost use Rattle.gated_log.specs.Log.{payloads_of};
ghost use Rattle.transactions_file.specs.Files.{is_live};
ghost use Rattle.channel_files.specs.Chunks.{ranges_of};
ghost use Rattle.channel.specs.ChunkRule.{HasRightChunks};
ghost use Rattle.recovery.specs.Images.{image_at};
ghost use Rattle.disk_opening.specs.Indexes.{HasRowsOfIds, IsIndexAt};
ghost use Rattle.disk_opening.specs.ManyDisks.{NoneFell, OneRose};
ghost use Rattle.store_opening.specs.Damage.{HaveChunksBelow, IsFirstWrongChunk};
ghost use Rattle.store_opening.specs.IndexesRead.{AreIndexed, AreLiveFilesSynced, HaveLiveFilesSynced, HaveRowsOfIds};
ghost use Rattle.store_opening.specs.Left.{LeaveNoMore, LeavesNoMore, leaves_at};
ghost use Rattle.store_opening.specs.LogsRead.{AreLogsRead};
ghost use Rattle.store_opening.specs.declared.fault.Cause.{Cause as AnyCause};
ghost use Rattle.store_opening.specs.declared.fault.Cause.TheVariants.{Chunk};

use crate::data_files::sync_live_files;
use crate::fault::{OpenFault, of_chunk};
use disk_opening::{ChannelLog, read_chunks};
use entity_index::EntityIndex;
use std::alloc::Global;
use store_io::Disk;

/// Reads the chunks of a channel, of so many, up to a store. Its live files are synced before.
fn read_file<D: Disk>(
    alloc: Global,
    disk: &mut D,
    log: &ChannelLog,
    channel: u32,
    channels: u32,
    number: u64,
    next_id: u64,
) -> Result<EntityIndex, OpenFault>
    requires channels { 1 ≤ channels }
    requires log { IsTrue D.tells → log.now.ranges ≡ ranges_of (payloads_of (D.reads disk.old 0)) }
    ensures right { IsTrue D.tells → OnOk result (HasRightChunks channels channel next_id number (D.reads disk.old)) }
    ensures index { IsTrue D.tells → IfOk result (λ index. IsIndexAt number (D.reads disk.old) index.contents) }
    ensures rows { IfOk result (λ index. HasRowsOfIds index.contents) }
    ensures synced { IsTrue D.tells → OnOk result ((file : ℕ) → is_live log.now.inventory.state.files file ≡ true → Only (D.reads disk.old file) (D.leaves disk.new file)) }
    ensures damaged { IsTrue D.tells → (j : ℕ) (cause : AnyCause) → IsErrOf result (OpenFault.Damaged j cause)
        → (j ≡ channel) × ((file : ℕ) × (at : ℕ) × (cause ≡ Chunk file at)) × ¬ (HasRightChunks channels channel next_id number (D.reads disk.old)) }
    ensures not_full { (bytes : ℕ) → IsErrOf result (OpenFault.Full bytes) → ⊥ }
    ensures reads { IsTrue D.tells → D.reads disk.new ≡ D.reads disk.old }
    ensures leaves { IsTrue D.tells → LeavesNoMore (D.leaves disk.old) (D.leaves disk.new) }
    ensures faults { D.faults disk.old ≤ D.faults disk.new }
    ensures cause { IsErrOf result OpenFault.Fault → Rose (D.faults disk.old) (D.faults disk.new) }
    ensures calm { OnOk result (D.faults disk.new ≡ D.faults disk.old) }
{
    sync_live_files(disk, &log.inventory)?;
    match read_chunks(alloc, disk, log, channel, channels, number, next_id) {
        Ok(index) => Ok(index),
        Err(fault) => Err(of_chunk(channel, fault)),
    }
}

/// Reads the chunks of the channel at this place.
fn read_at<D: Disk>(
    alloc: Global,
    disks: &mut [D],
    logs: &[ChannelLog],
    place: usize,
    number: u64,
    next_id: u64,
) -> Result<EntityIndex, OpenFault>
    requires within { place < length disks.old }
    requires channels { length disks.old ≤ 64 }
    requires many { length logs.now ≡ length disks.old }
    requires logs { IsTrue D.tells → AreLogsRead (length disks.old) (map D.reads disks.old) logs.now }
    ensures right { IsTrue D.tells → OnOk result (HasRightChunks (length disks.old) place next_id number (image_at (map D.reads disks.old) place)) }
    ensures index { IsTrue D.tells → IfOk result (λ index. IsIndexAt number (image_at (map D.reads disks.old) place) index.contents) }
    ensures rows { IfOk result (λ index. HasRowsOfIds index.contents) }
    ensures synced { IsTrue D.tells → OnOk result (AreLiveFilesSynced (image_at (map D.reads disks.old) place) (leaves_at (map D.leaves disks.new) place)) }
    ensures damaged { IsTrue D.tells → (j : ℕ) (cause : AnyCause) → IsErrOf result (OpenFault.Damaged j cause)
        → (j ≡ place) × ((file : ℕ) × (at : ℕ) × (cause ≡ Chunk file at)) × ¬ (HasRightChunks (length disks.old) place next_id number (image_at (map D.reads disks.old) place)) }
    ensures not_full { (bytes : ℕ) → IsErrOf result (OpenFault.Full bytes) → ⊥ }
    ensures many { length disks.new ≡ length disks.old }
    ensures reads { IsTrue D.tells → map D.reads disks.new ≡ map D.reads disks.old }
    ensures leaves { IsTrue D.tells → LeaveNoMore (map D.leaves disks.old) (map D.leaves disks.new) }
    ensures faults { NoneFell (map D.faults disks.old) (map D.faults disks.new) }
    ensures cause { IsErrOf result OpenFault.Fault → OneRose (map D.faults disks.old) (map D.faults disks.new) }
    ensures calm { OnOk result (map D.faults disks.new ≡ map D.faults disks.old) }
{
    let channels = disks.len() as u32;
    read_file(
        alloc,
        &mut disks[place],
        &logs[place],
        place as u32,
        channels,
        number,
        next_id,
    )
}

/// Reads the chunks of all channels, whose disks and logs these are, up to the store `number`, into an index each. The live files of each are synced before;
/// nothing is written. An entity has a good id below `next_id`. Of what is wrong the first is told, by rising channel.
pub fn read_indexes<D: Disk>(
    alloc: Global,
    disks: &mut [D],
    logs: &[ChannelLog],
    number: u64,
    next_id: u64,
) -> Result<Vec<EntityIndex>, OpenFault>
    requires channels { length disks.old ≤ 64 }
    requires many { length logs.now ≡ length disks.old }
    requires logs { IsTrue D.tells → AreLogsRead (length disks.old) (map D.reads disks.old) logs.now }
    ensures count { IfOk result (λ indexes. length indexes.items ≡ length disks.old) }
    ensures read { IsTrue D.tells → IfOk result (λ indexes. AreIndexed (map D.reads disks.old) indexes.items number next_id) }
    // On any disk a row has a header that an entity of its id may have.
    ensures rows { IfOk result (λ indexes. HaveRowsOfIds indexes.items) }
    ensures synced { IsTrue D.tells → OnOk result (HaveLiveFilesSynced (length disks.old) (map D.reads disks.old) (map D.leaves disks.new)) }
    ensures damaged { IsTrue D.tells → (j : ℕ) (cause : AnyCause) → IsErrOf result (OpenFault.Damaged j cause)
        → ((file : ℕ) × (at : ℕ) × (cause ≡ Chunk file at)) × IsFirstWrongChunk (map D.reads disks.old) number next_id j }
    ensures not_full { (bytes : ℕ) → IsErrOf result (OpenFault.Full bytes) → ⊥ }
    ensures many { length disks.new ≡ length disks.old }
    ensures reads { IsTrue D.tells → map D.reads disks.new ≡ map D.reads disks.old }
    ensures leaves { IsTrue D.tells → LeaveNoMore (map D.leaves disks.old) (map D.leaves disks.new) }
    ensures faults { NoneFell (map D.faults disks.old) (map D.faults disks.new) }
    ensures cause { IsErrOf result OpenFault.Fault → OneRose (map D.faults disks.old) (map D.faults disks.new) }
    ensures calm { OnOk result (map D.faults disks.new ≡ map D.faults disks.old) }
{
    let mut indexes = Vec::new(alloc);
    'chunks: for place in 0..disks.len() {
        let index = read_at(alloc, disks, logs, place, number, next_id)?;
        indexes.push(index)?;
    }
    Ok(indexes)
}
