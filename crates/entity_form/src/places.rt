//! The fields of an entity in its bytes.

ghost use Rattle.std.specs.Prelude.{◌≡◌, ◌+◌, ◌*◌, ◌<◌, ◌↔◌, ◌^◌, length, IfSome, IsNone, Some};
ghost use Rattle.field_bytes.specs.Fields.{number_at};

use field_bytes::read_u64_at;

/// How many bytes an entity has before its references.
pub const HEADER_BYTES: usize = 32;

/// The bytes of a reference.
pub const REF_BYTES: usize = 8;

/// The numbers that an entity begins with.
#[derive(Clone, Copy, Debug, PartialEq, Eq)]
pub struct Header {
    pub length: u64,
    pub type_id: u64,
    pub id: u64,
    pub count: u64,
}

/// The header at this place. `None` exactly where fewer than 32 bytes follow.
pub fn header_at(bytes: &[u8], at: usize) -> Option<Header>
    ensures length { IfSome result (λ h. number_at 8 bytes.now at ≡ Some h.length) }
    ensures type_id { IfSome result (λ h. number_at 8 bytes.now (at + 8) ≡ Some h.type_id) }
    ensures id { IfSome result (λ h. number_at 8 bytes.now (at + 16) ≡ Some h.id) }
    ensures count { IfSome result (λ h. number_at 8 bytes.now (at + 24) ≡ Some h.count) }
    ensures none { IsNone result ↔ (length bytes.now < at + 32) }
{
    let header = bytes.get(at..)?;
    if header.len() < HEADER_BYTES {
        return None;
    }
    Some(Header {
        length: read_u64_at(bytes, at)?,
        type_id: read_u64_at(bytes, at + 8)?,
        id: read_u64_at(bytes, at + 16)?,
        count: read_u64_at(bytes, at + 24)?,
    })
}

/// The reference with this index of the entity at this place. `None` exactly where it does not end
/// within the bytes.
pub fn ref_at(bytes: &[u8], at: usize, i: u64) -> Option<u64>
    ensures { result ≡ number_at 8 bytes.now ((at + 32) + 8 * i) }
{
    let index = usize::try_from(i).ok()?;
    let place = index
        .checked_mul(8)?
        .checked_add(at)?
        .checked_add(HEADER_BYTES)?;
    read_u64_at(bytes, place)
}
