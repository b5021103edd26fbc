//! The newer name of a type.

ghost use Rattle.std.specs.Prelude.{IfOk};
ghost use Rattle.legacy_mapping.specs.Sources.{IsTarget};

use refactor_table::RefactorTable;
use std::alloc::Global;
use type_desc::{NoMemory, Text};

/// The new name of the type's row, else the name itself. It is looked up once: a row of the new name
/// is not followed.
pub fn target(alloc: Global, name: &Text, table: &RefactorTable) -> Result<Text, NoMemory>
    ensures { IfOk result (IsTarget table.now name.now) }
{
    let new = table.new_type(name).unwrap_or(name);
    Ok(Text::new(alloc, new.as_str())?)
}
