// The disks that a run serves.
ghost use Rattle.std.specs.Prelude.{◌≡◌, IsTrue, IfOk, length};
ghost use Rattle.store_run.specs.Words.{are_run_words};

use std::alloc::Global;
use store_host::{FolderDisk, HostFault, StoreFolder};
use store_run::are_run_words;

/// The folder that the words ask for, locked, and the disk of each of its channels. Other words ask for none.
pub(crate) fn open_disks(
    rt: HostRuntime,
    alloc: Global,
    words: &[String],
) -> Result<(Option<StoreFolder>, Vec<FolderDisk>), HostFault>
    ensures { IfOk result (λ opened. IsTrue (are_run_words words.now) → length opened.1.items ≡ 1) }
{
    let mut disks = Vec::new(alloc);
    if !are_run_words(words) {
        return Ok((None, disks));
    }
    let folder = StoreFolder::open(rt, alloc, words[1].as_str())?;
    disks.push(folder.channel(0, 1)?)?;
    Ok((Some(folder), disks))
}
