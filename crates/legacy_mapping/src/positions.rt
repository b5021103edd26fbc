//! Members by their names.

ghost use Rattle.std.specs.Prelude.{IfOk};
ghost use Rattle.type_desc.specs.OwnNames.{HaveOwnNames};
ghost use Rattle.legacy_mapping.specs.Positions.{ArePositions};

use std::alloc::{AllocError, Global};
use std::collections::BTreeMap;
use type_desc::Member;

/// The index of each member by its name.
pub fn positions<'a>(
    alloc: Global,
    members: &'a [Member],
) -> Result<BTreeMap<&'a str, usize>, AllocError>
    requires { HaveOwnNames members.now }
    ensures { IfOk result (ArePositions members.now) }
{
    let mut positions = BTreeMap::new(alloc);
    for (i, member) in members.iter().enumerate() {
        positions.insert(member.name.as_str(), i)?;
    }
    Ok(positions)
}
