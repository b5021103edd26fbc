//! How much of each data file the rows use, kept row by row.

ghost use Rattle.std.specs.Prelude.{◌≡◌, ◌+◌, ◌-◌, ◌^◌, ◌<◌, ◌≤◌, IsNone, IsSome};
ghost use Rattle.std.specs.FinMap.{len};
ghost use Rattle.oid_table.specs.Table.{value_at};
ghost use Rattle.entity_index.specs.Tally.{bytes_of, rows_of, counted_in, counted_out};

use crate::row::Row;
use oid_table::OidTable;

/// What the rows use of one data file, of which there is at least one.
#[derive(Clone, Copy, Debug)]
pub struct FileUse {
    pub bytes: u128,
    pub rows: u64,
}

/// Adds a row to its file.
pub(crate) fn count_in(used: &mut OidTable<FileUse>, row: &Row)
    requires room { IsNone (value_at used.old row.now.file) → 0 < used.old.spare }
    requires bytes { bytes_of used.old.contents row.now.file + 2 ^ 64 ≤ 2 ^ 128 }
    requires rows { rows_of used.old.contents row.now.file + 1 < 2 ^ 64 }
    ensures counted { used.new.contents ≡ counted_in used.old.contents row.now.file row.now.header.length }
    ensures places { len used.new.contents + used.new.spare ≡ len used.old.contents + used.old.spare }
    ensures fits { row.now.header.length < 2 ^ 64 }
{
    let kept = used
        .get(row.file)
        .copied()
        .unwrap_or(FileUse { bytes: 0, rows: 0 });
    used.insert(
        row.file,
        FileUse {
            bytes: kept.bytes + u128::from(row.header.length),
            rows: kept.rows + 1,
        },
    );
}

/// Takes a row away from its file, which is given up with its last row.
pub(crate) fn count_out(used: &mut OidTable<FileUse>, row: &Row)
    requires bytes { row.now.header.length ≤ bytes_of used.old.contents row.now.file }
    requires rows { 0 < rows_of used.old.contents row.now.file }
    ensures counted { used.new.contents ≡ counted_out used.old.contents row.now.file row.now.header.length }
    ensures places { len used.new.contents + used.new.spare ≡ len used.old.contents + used.old.spare }
{
    let Some(&kept) = used.get(row.file) else {
        unreachable!();
    };
    if kept.rows == 1 {
        used.remove(row.file);
    } else {
        used.insert(
            row.file,
            FileUse {
                bytes: kept.bytes - u128::from(row.header.length),
                rows: kept.rows - 1,
            },
        );
    }
}
