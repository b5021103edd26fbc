//! The rest of a line, which is UTF-8.

ghost use Rattle.script_text.specs.Utf8.{cut_len, is_cut_char, may_follow, rest_at};
ghost use Rattle.std.specs.Prelude.{◌≡◌, ◌≤◌, [], length, take};
ghost use Rattle.type_desc.specs.Gives.{Gives};

use std::alloc::Global;
use type_desc::{ReadFault, Text};

/// Whether the second byte may follow the first, in a character of three or four bytes.
fn may_follow(first: u8, second: u8) -> bool
    ensures { result ≡ may_follow first second }
{
    match first {
        0xE0 => matches!(second, 0xA0..=0xBF),
        0xED => matches!(second, 0x80..=0x9F),
        0xF0 => matches!(second, 0x90..=0xBF),
        0xF4 => matches!(second, 0x80..=0x8F),
        _ => matches!(second, 0x80..=0xBF),
    }
}

/// Whether the bytes begin a character and do not finish it.
fn is_cut_char(bytes: &[u8]) -> bool
    ensures { result ≡ is_cut_char bytes.now }
{
    match bytes {
        [first] => matches!(*first, 0xC2..=0xF4),
        [first, second] => matches!(*first, 0xE0..=0xF4) && may_follow(*first, *second),
        [first, second, third] => {
            matches!(*first, 0xF0..=0xF4)
                && matches!(*third, 0x80..=0xBF)
                && may_follow(*first, *second)
        }
        _ => false,
    }
}

/// The first bytes, at most so many.
fn front(bytes: &[u8], most: usize) -> &[u8]
    ensures { result.now ≡ take most bytes.now }
{
    &bytes[..bytes.len().min(most)]
}

/// How many bytes at the front are a cut character. It is not std's `error_len`, which tells one
/// byte too where that byte begins no character.
#[tactic(auto, unfolding(crate::specs::Utf8::cut_len))]
fn cut_len(bytes: &[u8]) -> usize
    ensures { result ≡ cut_len bytes.now }
{
    let three = front(bytes, 3);
    if is_cut_char(three) {
        return three.len();
    }
    let two = front(bytes, 2);
    if is_cut_char(two) {
        return two.len();
    }
    let one = front(bytes, 1);
    if is_cut_char(one) { one.len() } else { 0 }
}

/// Takes all of the text.
#[tactic(auto, unfolding(crate::specs::Utf8::rest_at))]
pub fn rest_of_line(alloc: Global, bytes: &[u8]) -> Result<Text, ReadFault>
    ensures { Gives (λ t. (t, [])) result (rest_at bytes.now) }
{
    match std::str::from_utf8(bytes) {
        Ok(text) => Ok(Text::new(alloc, text)?),
        Err(fault) => {
            let tail = &bytes[fault.valid_up_to()..];
            let left = tail.len() - cut_len(tail);
            Err(ReadFault::Stuck { left })
        }
    }
}
