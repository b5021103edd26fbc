//! The words behind a keyword.

ghost use Rattle.script_text.specs.Fields.{IsDigits, bound_name_at, digits_at, field_at, spaced_at};
ghost use Rattle.script_text.specs.declared.fields.Field.TheVariants as fields;
ghost use Rattle.std.specs.Char.{is_ascii_digit};
ghost use Rattle.std.specs.List.{prefix_len};
ghost use Rattle.std.specs.Prelude.{◌≡◌, IfOk, IsAscii};
ghost use Rattle.type_desc.specs.Gives.{Gives};

use type_desc::fields::{byte, name, stuck};
use type_desc::{NameKind, ReadFault};

/// What a word is to be.
#[derive(Clone, Copy, Debug, PartialEq, Eq)]
pub enum Field {
    /// A name to which an id is bound; not `null`.
    Name,
    TypeName,
    Member,
    /// A name or `null`.
    Target,
    /// One or more digits.
    Index,
}

/// Takes a name that is not `null`.
#[tactic(auto, unfolding(crate::specs::Fields::bound_name_at))]
fn bound_name(bytes: &[u8]) -> Result<(&[u8], &[u8]), ReadFault>
    ensures ascii { IfOk result (λ x. IsAscii x.0.now) }
    ensures read { Gives (λ x. (x.0.now, x.1.now)) result (bound_name_at bytes.now) }
{
    let (word, rest) = name(NameKind::OfMember, bytes)?;
    if word == b"null".as_slice() {
        return Err(stuck(rest));
    }
    Ok((word, rest))
}

/// How many digits stand at the front.
fn digits_len(bytes: &[u8]) -> usize
    ensures { result ≡ prefix_len is_ascii_digit bytes.now }
{
    bytes.iter().take_while(|b| b.is_ascii_digit()).count()
}

/// Takes one or more digits.
#[tactic(auto, unfolding(crate::specs::Fields::digits_at, type_desc::specs::Reader::word_at))]
fn digits(bytes: &[u8]) -> Result<(&[u8], &[u8]), ReadFault>
    ensures ascii { IfOk result (λ x. IsAscii x.0.now) }
    ensures digits { IfOk result (λ x. IsDigits x.0.now) }
    ensures read { Gives (λ x. (x.0.now, x.1.now)) result (digits_at bytes.now) }
{
    match bytes {
        [first, rest @ ..] if first.is_ascii_digit() => { Ok(bytes.split_at(1 + digits_len(rest))) }
        _ => Err(stuck(bytes)),
    }
}

/// Takes a word.
fn take_word(field: Field, bytes: &[u8]) -> Result<(&[u8], &[u8]), ReadFault>
    ensures ascii { IfOk result (λ x. IsAscii x.0.now) }
    ensures read { Gives (λ x. (x.0.now, x.1.now)) result (field_at field bytes.now) }
{
    match field {
        Field::Name => bound_name(bytes),
        Field::TypeName => name(NameKind::OfType, bytes),
        Field::Member | Field::Target => name(NameKind::OfMember, bytes),
        Field::Index => digits(bytes),
    }
}

/// Takes a space and a word.
#[tactic(auto, unfolding(crate::specs::Fields::spaced_at))]
pub fn spaced_word(field: Field, bytes: &[u8]) -> Result<(&[u8], &[u8]), ReadFault>
    ensures ascii { IfOk result (λ x. IsAscii x.0.now) }
    ensures read { Gives (λ x. (x.0.now, x.1.now)) result (spaced_at field bytes.now) }
{
    let rest = byte(b' ', bytes)?;
    take_word(field, rest)
}

/// Takes a space and one or more digits.
#[tactic(auto, unfolding(crate::specs::Fields::spaced_at))]
pub fn spaced_index(bytes: &[u8]) -> Result<(&[u8], &[u8]), ReadFault>
    ensures ascii { IfOk result (λ x. IsAscii x.0.now) }
    ensures digits { IfOk result (λ x. IsDigits x.0.now) }
    ensures read { Gives (λ x. (x.0.now, x.1.now)) result (spaced_at fields.Index bytes.now) }
{
    let rest = byte(b' ', bytes)?;
    digits(rest)
}
