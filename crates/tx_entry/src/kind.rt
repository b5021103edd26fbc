//! The kinds of entries.
ghost use Rattle.std.specs.Prelude.{◌≡◌, ◌≤◌, IfSome};
ghost use Rattle.tx_entry.specs.Kinds.{kind_of_byte, byte_of, count_of};

#[derive(Clone, Copy, Debug, PartialEq, Eq)]
pub enum Kind {
    Creation,
    Store,
    Transfer,
    Truncation,
    Deletion,
}

/// The kind that a payload with this first byte has.
pub fn kind_of_byte(byte: u8) -> Option<Kind>
    ensures kind { result ≡ kind_of_byte byte }
    ensures byte { IfSome result (λ kind. byte ≡ byte_of kind) }
{
    match byte {
        1 => Some(Kind::Creation),
        2 => Some(Kind::Store),
        3 => Some(Kind::Transfer),
        4 => Some(Kind::Truncation),
        5 => Some(Kind::Deletion),
        _ => None,
    }
}

pub fn byte_of(kind: Kind) -> u8
    ensures { result ≡ byte_of kind }
{
    match kind {
        Kind::Creation => 1,
        Kind::Store => 2,
        Kind::Transfer => 3,
        Kind::Truncation => 4,
        Kind::Deletion => 5,
    }
}

/// How many numbers stand behind the kind's byte.
pub fn count_of(kind: Kind) -> usize
    ensures count { result ≡ count_of kind }
    ensures small { result ≤ 5 }
{
    match kind {
        Kind::Creation | Kind::Deletion => 1,
        Kind::Store => 5,
        Kind::Transfer => 4,
        Kind::Truncation => 3,
    }
}
