//! What the rest of a `set` line is for a member of each kind.

ghost use Rattle.script_text.specs.Fields.{IsDigits};
ghost use Rattle.script_text.specs.Given.{TellsInteger};
ghost use Rattle.script_text.specs.Meaning.{target_meant};
ghost use Rattle.session_model.specs.Answer.{hex_byte, hex_bytes, hex_digit};
ghost use Rattle.session_model.specs.Commands.{integer_of, number_of, target_of};
ghost use Rattle.std.specs.Char.{is_ascii_digit};
ghost use Rattle.std.specs.List.{list_all};
ghost use Rattle.std.specs.Prelude.{◌≡◌, ◌↔◌, IfOk, IsAscii, IsTrue, neg_ℤ, option_map, pos};

use crate::command::{Target, below};
use std::alloc::{AllocError, Global};
use type_desc::fields::name;
use type_desc::{NameKind, NoMemory, ReadFault, Text};

/// The least number that is too great for an `int` member.
const TOO_GREAT: usize = 1 << 63;

/// What a text is as the value of an `int` member.
#[derive(Clone, Copy, Debug, PartialEq, Eq)]
pub enum GivenInteger {
    Fits(i64),
    /// It is no number: an optional minus and one or more digits.
    Misfits,
    /// It is a number outside of `i64`.
    OutOfRange,
}

/// Whether all of the bytes are digits.
fn all_digits(bytes: &[u8]) -> bool
    ensures { result ≡ list_all is_ascii_digit bytes.now }
{
    bytes.iter().all(|b| b.is_ascii_digit())
}

/// Whether the bytes are one or more digits.
fn is_digits(bytes: &[u8]) -> bool
    ensures { IsTrue result ↔ IsDigits bytes.now }
{
    !bytes.is_empty() && all_digits(bytes)
}

/// The number that digits say.
fn positive(digits: &[u8]) -> GivenInteger
    ensures { TellsInteger result (option_map pos (number_of digits.now)) }
{
    if !is_digits(digits) {
        return GivenInteger::Misfits;
    }
    match below(digits, TOO_GREAT) {
        Some(number) => GivenInteger::Fits((number as u64).cast_signed()),
        None => GivenInteger::OutOfRange,
    }
}

/// The number that digits behind a minus say.
fn negative(digits: &[u8]) -> GivenInteger
    ensures { TellsInteger result (option_map (λ n. neg_ℤ (pos n)) (number_of digits.now)) }
{
    if !is_digits(digits) {
        return GivenInteger::Misfits;
    }
    match below(digits, TOO_GREAT + 1) {
        Some(TOO_GREAT) => GivenInteger::Fits(i64::MIN),
        Some(number) => GivenInteger::Fits(-(number as u64).cast_signed()),
        None => GivenInteger::OutOfRange,
    }
}

/// What the text is as the value of an `int` member: an optional minus and one or more digits.
pub fn integer_in(rest: &Text) -> GivenInteger
    ensures { TellsInteger result (integer_of rest.now) }
{
    match rest.as_str().as_bytes() {
        [b'-', digits @ ..] => negative(digits),
        digits => positive(digits),
    }
}

/// The value of a small hexadecimal digit.
fn digit_of(byte: u8) -> Option<u8>
    ensures { result ≡ hex_digit byte }
{
    match byte {
        b'0'..=b'9' => Some(byte - b'0'),
        b'a'..=b'f' => Some(byte - b'a' + 10),
        _ => None,
    }
}

/// The byte that two digits say.
fn byte_of(high: u8, low: u8) -> Option<u8>
    ensures { result ≡ hex_byte (hex_digit high) (hex_digit low) }
{
    let high = digit_of(high)?;
    let low = digit_of(low)?;
    Some(16 * high + low)
}

/// The text as the value of a `bytes` member: pairs of small hexadecimal digits. None where it is
/// something else.
pub fn bytes_in(alloc: Global, rest: &Text) -> Result<Option<Vec<u8>>, AllocError>
    ensures { IfOk result (λ found. option_map (λ v. v.items) found ≡ hex_bytes rest.now) }
{
    let mut bytes = Vec::new(alloc);
    let mut left = rest.as_str().as_bytes();
    while let [high, low, after @ ..] = left {
        let Some(byte) = byte_of(*high, *low) else {
            return Ok(None);
        };
        bytes.push(byte)?;
        left = after;
    }
    if !left.is_empty() {
        return Ok(None);
    }
    Ok(Some(bytes))
}

/// The text as the value of a `ref` or `lazy` member: a name or `null`. None where it is neither.
pub fn target_in(alloc: Global, rest: &Text) -> Result<Option<Target>, NoMemory>
    ensures { IfOk result (λ found. option_map target_meant found ≡ target_of rest.now) }
{
    match name(NameKind::OfMember, rest.as_str().as_bytes()) {
        Ok((word, behind)) => {
            if !behind.is_empty() {
                return Ok(None);
            }
            Ok(Some(Target::from_word(alloc, word)?))
        }
        Err(ReadFault::Stuck { .. }) => Ok(None),
        Err(ReadFault::Memory) => Err(NoMemory),
    }
}
