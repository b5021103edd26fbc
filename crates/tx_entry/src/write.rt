//! Writing an entry.
ghost use Rattle.std.specs.Prelude.{◌≡◌, ℕ, ◌+◌, ◌*◌, ◌^◌, ◌<◌, ◌≤◌, ◌∷◌, Ok, length, take, slice_index};
ghost use Rattle.std.specs.List.{flat_map};
ghost use Rattle.field_bytes.specs.Fields.{bytes_of};
ghost use Rattle.tx_entry.specs.Kinds.{byte_of};
ghost use Rattle.tx_entry.specs.Entries.{spelling, entry_of};

use crate::entry::Entry;
use crate::kind::{Kind, byte_of};
use field_bytes::write_u64_at;

/// Writes a kind's byte and the numbers behind it to the front, and answers the place after them.
fn put(out: &mut [u8; 41], kind: Kind, fields: &[u64]) -> usize
    requires { length fields.now ≤ 5 }
    ensures end { result ≡ 1 + 8 * length fields.now }
    ensures spelled { take result out.new ≡ byte_of kind ∷ flat_map (bytes_of 8) fields.now }
    ensures fit { (index : ℕ) → slice_index fields.now index < 2 ^ 64 }
{
    out[0] = byte_of(kind);
    let mut at = 1;
    for number in fields {
        write_u64_at(out, at, *number);
        at += 8;
    }
    at
}

/// Writes the entry's one spelling to the front, and answers its length in bytes.
pub fn write_entry(entry: &Entry, out: &mut [u8; 41]) -> usize
    ensures some { 9 ≤ result }
    ensures most { result ≤ 41 }
    ensures spelled { take result out.new ≡ spelling entry.now }
    ensures read_again { entry_of (spelling entry.now) ≡ Ok entry.now }
{
    match *entry {
        Entry::Creation { file } => put(out, Kind::Creation, &[file]),
        Entry::Store {
            number,
            file,
            at,
            length,
            next_id,
        } => put(out, Kind::Store, &[number, file, at, length, next_id]),
        Entry::Transfer {
            source,
            file,
            at,
            length,
        } => put(out, Kind::Transfer, &[source, file, at, length]),
        Entry::Truncation {
            file,
            new_length,
            dropped,
        } => put(out, Kind::Truncation, &[file, new_length, dropped]),
        Entry::Deletion { file } => put(out, Kind::Deletion, &[file]),
    }
}
