//! Whether member names differ.

ghost use Rattle.std.specs.Prelude.{◌↔◌, IfOk, IsTrue};
ghost use Rattle.type_desc.specs.OwnNames.{HaveOwnNames};

use graph_model::NoMemory;
use std::alloc::{AllocError, Global};
use std::collections::BTreeSet;
use type_desc::{Member, TypeDesc};

/// Whether no two of the members have one name, in the time of a search tree.
fn all_differ(alloc: Global, members: &[Member]) -> Result<bool, AllocError>
    ensures { IfOk result (λ differ. IsTrue differ ↔ HaveOwnNames members.now) }
{
    let mut names = BTreeSet::new(alloc);
    for member in members {
        if !names.insert(member.name.as_str())? {
            return Ok(false);
        }
    }
    Ok(true)
}

/// Whether no two members of the type have one name. It takes the time and the memory of a search
/// tree of the names.
pub fn have_no_repeat(alloc: Global, desc: &TypeDesc) -> Result<bool, NoMemory>
    ensures { IfOk result (λ differ. IsTrue differ ↔ HaveOwnNames desc.now.members) }
{
    Ok(all_differ(alloc, desc.members.as_slice())?)
}
