//! Reading an entry.
ghost use Rattle.std.specs.Prelude.{◌≡◌, ◌+◌, ◌*◌, ◌≤◌, length, IfOk};
ghost use Rattle.tx_entry.specs.Kinds.{count_of};
ghost use Rattle.tx_entry.specs.Entries.{field, entry_at, entry_of, spelling};

use crate::entry::{BadEntry, Entry};
use crate::kind::{Kind, count_of, kind_of_byte};
use field_bytes::read_u64_at;

/// The number with this index behind the kind's byte.
fn field(payload: &[u8], index: usize) -> u64
    requires { 9 + 8 * index ≤ length payload.now }
    ensures { result ≡ field payload.now index }
{
    let Some(number) = read_u64_at(&payload[1 + 8 * index..], 0) else {
        unreachable!()
    };
    number
}

fn entry_at(kind: Kind, payload: &[u8]) -> Entry
    requires { length payload.now ≡ 1 + 8 * count_of kind }
    ensures { result ≡ entry_at kind payload.now }
{
    match kind {
        Kind::Creation => Entry::Creation {
            file: field(payload, 0),
        },
        Kind::Store => Entry::Store {
            number: field(payload, 0),
            file: field(payload, 1),
            at: field(payload, 2),
            length: field(payload, 3),
            next_id: field(payload, 4),
        },
        Kind::Transfer => Entry::Transfer {
            source: field(payload, 0),
            file: field(payload, 1),
            at: field(payload, 2),
            length: field(payload, 3),
        },
        Kind::Truncation => Entry::Truncation {
            file: field(payload, 0),
            new_length: field(payload, 1),
            dropped: field(payload, 2),
        },
        Kind::Deletion => Entry::Deletion {
            file: field(payload, 0),
        },
    }
}

/// The entry that the payload spells.
pub fn read_entry(payload: &[u8]) -> Result<Entry, BadEntry>
    ensures exact { result ≡ entry_of payload.now }
    ensures spelled { IfOk result (λ entry. spelling entry ≡ payload.now) }
{
    if payload.is_empty() {
        return Err(BadEntry { at: 0 });
    }
    let Some(kind) = kind_of_byte(payload[0]) else {
        return Err(BadEntry { at: 0 });
    };
    if payload.len() != 1 + 8 * count_of(kind) {
        return Err(BadEntry {
            at: payload.len() as u64,
        });
    }
    Ok(entry_at(kind, payload))
}
