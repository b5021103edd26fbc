// The files of a disk in memory after a stop.
ghost use Rattle.std.specs.Prelude.{◌≡◌, IfOk, map, unwrap_or};
ghost use Rattle.store_io.specs.Restart.{picked, IsRestart, AllRestart};

use crate::mem_file::MemFile;
use crate::pick::Pick;
use crate::places::closed_places;
use std::alloc::{AllocError, Global};

fn picked_bytes(alloc: Global, m: &MemFile, pick: Pick) -> Result<Vec<u8>, AllocError>
    ensures { IfOk result (λ bytes. bytes.items ≡ picked pick m.now) }
{
    match pick {
        Pick::Synced => Vec::from_slice(alloc, &m.synced),
        Pick::Written => Vec::from_slice(alloc, &m.bytes),
        Pick::Filled(fill) => filled(alloc, &m.kept, fill),
    }
}

fn filled(alloc: Global, kept: &[Option<u8>], fill: u8) -> Result<Vec<u8>, AllocError>
    ensures { IfOk result (λ bytes. bytes.items ≡ map (λ k. unwrap_or k fill) kept.now) }
{
    let mut bytes = Vec::new(alloc);
    for k in kept {
        bytes.push(k.unwrap_or(fill))?;
    }
    Ok(bytes)
}

fn restarted(alloc: Global, m: &MemFile, pick: Pick) -> Result<MemFile, AllocError>
    ensures { IfOk result (λ n. IsRestart pick m.now n) }
{
    let bytes = picked_bytes(alloc, m, pick)?;
    let synced = Vec::from_slice(alloc, &bytes)?;
    let kept = closed_places(alloc, &bytes)?;
    let least = bytes.len();
    Ok(MemFile {
        number: m.number,
        bytes,
        synced,
        kept,
        least,
    })
}

/// Each file with the picked image, clean.
pub fn restarted_files(
    alloc: Global,
    files: &[MemFile],
    pick: Pick,
) -> Result<Vec<MemFile>, AllocError>
    ensures { IfOk result (λ new. AllRestart pick files.now new.items) }
{
    let mut new = Vec::new(alloc);
    for m in files {
        new.push(restarted(alloc, m, pick)?)?;
    }
    Ok(new)
}
