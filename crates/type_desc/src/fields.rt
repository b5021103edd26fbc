//! Readers of the fields of a text: each takes its field from the front of the bytes and answers
//! what is left, or where it is stuck.

ghost use Rattle.std.specs.Prelude.{◌≡◌, [], length, IfOk, IsAscii};
ghost use Rattle.type_desc.specs.Grammar.{continues_name};
ghost use Rattle.type_desc.specs.Reader.{byte_at, end_at, literal_at, run_len};
ghost use Rattle.type_desc.specs.Reading.{kind_at, name_at};
ghost use Rattle.type_desc.specs.Gives.{Gives};

use crate::desc::{Kind, NameKind};
use crate::fault::ReadFault;

/// The most bytes of a name behind its first.
const MAX_MORE: usize = 63;

/// The fault of a reader that these bytes stop.
pub fn stuck(bytes: &[u8]) -> ReadFault
    ensures { result ≡ ReadFault.Stuck (length bytes.now) }
{
    ReadFault::Stuck { left: bytes.len() }
}

/// Takes one given byte.
pub fn byte(byte: u8, bytes: &[u8]) -> Result<&[u8], ReadFault>
    ensures { Gives (λ rest. (byte, rest.now)) result (byte_at byte bytes.now) }
{
    match bytes {
        [first, rest @ ..] if *first == byte => Ok(rest),
        _ => Err(stuck(bytes)),
    }
}

/// Takes a given text.
pub fn literal<'a>(word: &[u8], bytes: &'a [u8]) -> Result<&'a [u8], ReadFault>
    ensures { Gives (λ rest. (tt, rest.now)) result (literal_at word.now bytes.now) }
{
    let mut rest = bytes;
    for b in word {
        rest = byte(*b, rest)?;
    }
    Ok(rest)
}

/// Takes the end of the text.
pub fn end(bytes: &[u8]) -> Result<(), ReadFault>
    ensures { Gives (λ u. (u, [])) result (end_at bytes.now) }
{
    if bytes.is_empty() {
        Ok(())
    } else {
        Err(stuck(bytes))
    }
}

/// How many bytes at the front a name of this kind may go on with.
fn name_len(kind: NameKind, bytes: &[u8]) -> usize
    ensures { result ≡ run_len (continues_name kind) 63 bytes.now }
{
    bytes
        .iter()
        .take(MAX_MORE)
        .take_while(|b| kind.continues_with(**b))
        .count()
}

/// Takes a name.
#[tactic(auto, unfolding(crate::specs::Reading::name_at, crate::specs::Reader::word_at))]
pub fn name(kind: NameKind, bytes: &[u8]) -> Result<(&[u8], &[u8]), ReadFault>
    ensures ascii { IfOk result (λ x. IsAscii x.0.now) }
    ensures read { Gives (λ x. (x.0.now, x.1.now)) result (name_at kind bytes.now) }
{
    match bytes {
        [first, rest @ ..] if kind.begins_with(*first) => {
            Ok(bytes.split_at(1 + name_len(kind, rest)))
        }
        _ => Err(stuck(bytes)),
    }
}

/// Takes the word of a kind.
#[tactic(auto, unfolding(crate::specs::Reading::kind_at))]
pub fn kind(bytes: &[u8]) -> Result<(Kind, &[u8]), ReadFault>
    ensures { Gives (λ x. (x.0, x.1.now)) result (kind_at bytes.now) }
{
    match bytes {
        [b'i', ..] => Ok((Kind::Int, literal(b"int", bytes)?)),
        [b't', ..] => Ok((Kind::Text, literal(b"text", bytes)?)),
        [b'b', ..] => Ok((Kind::Bytes, literal(b"bytes", bytes)?)),
        [b'l', ..] => Ok((Kind::Lazy, literal(b"lazy", bytes)?)),
        _ => {
            let rest = literal(b"ref", bytes)?;
            match rest {
                [b's', ..] => Ok((Kind::Refs, literal(b"s", rest)?)),
                _ => Ok((Kind::Ref, rest)),
            }
        }
    }
}
