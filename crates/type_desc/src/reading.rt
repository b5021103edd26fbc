//! Reading a dictionary record.

ghost use Rattle.std.specs.Prelude.{◌≡◌, [], ◌∷◌, ◌<◌, ◌≤◌, length, IfOk, IfErr, ℕ};
ghost use Rattle.type_desc.specs.Grammar.{IsRecord, record_text};
ghost use Rattle.type_desc.specs.Reading.{id_at, more_digits_at, member_at, more_at, members_at, with_front, record_at};
ghost use Rattle.type_desc.specs.Gives.{Gives, IsReadAs, StandsAt};
ghost use Rattle.type_desc.specs.Prefixes.{Spells};

use crate::desc::{Member, NameKind, TypeDesc};
use crate::fault::{DescFault, ReadFault};
use crate::fields::{byte, end, kind, name, stuck};
use crate::limits::{FIRST_RECORD_ID, LAST_RECORD_ID, MAX_MEMBERS};
use crate::lists::Members;
use crate::text::Text;
use std::alloc::Global;

/// Takes further digits of an id, as long as it does not become too large.
#[tactic(auto, unfolding(crate::specs::Reading::more_digits_at))]
fn more_digits(first: u64, bytes: &[u8]) -> Result<(u64, &[u8]), ReadFault>
    requires { first ≤ 65551 }
    ensures { Gives (λ x. (x.0, x.1.now)) result (more_digits_at first bytes.now) }
{
    let mut id = first;
    let mut rest = bytes;
    while let [digit, after @ ..] = rest {
        if !digit.is_ascii_digit() {
            break;
        }
        let longer = id * 10 + u64::from(*digit - b'0');
        if longer > LAST_RECORD_ID {
            break;
        }
        id = longer;
        rest = after;
    }
    if id < FIRST_RECORD_ID {
        return Err(stuck(rest));
    }
    Ok((id, rest))
}

/// Takes the id of a record.
#[tactic(auto, unfolding(crate::specs::Reading::id_at))]
fn id(bytes: &[u8]) -> Result<(u64, &[u8]), ReadFault>
    ensures { Gives (λ x. (x.0, x.1.now)) result (id_at bytes.now) }
{
    match bytes {
        [digit @ b'1'..=b'9', rest @ ..] => more_digits(u64::from(*digit - b'0'), rest),
        _ => Err(stuck(bytes)),
    }
}

/// Takes a member.
#[tactic(auto, unfolding(crate::specs::Reading::member_at))]
fn member(alloc: Global, bytes: &[u8]) -> Result<(Member, &[u8]), ReadFault>
    ensures { Gives (λ x. (x.0, x.1.now)) result (member_at bytes.now) }
{
    let (kind, rest) = kind(bytes)?;
    let rest = byte(b' ', rest)?;
    let (name, rest) = name(NameKind::OfMember, rest)?;
    let member = Member {
        kind,
        name: Text::from_ascii(alloc, name)?,
    };
    Ok((member, rest))
}

/// Takes further members, each behind a comma.
#[tactic(auto, unfolding(crate::specs::Reading::more_at))]
fn more_members(alloc: Global, first: Member, bytes: &[u8]) -> Result<(Members, &[u8]), ReadFault>
    ensures { Gives (λ x. (x.0, x.1.now)) result (with_front (first ∷ []) (more_at 1023 bytes.now)) }
{
    let mut members = Vec::new(alloc);
    members.push(first)?;
    let mut rest = bytes;
    'commas: for _ in 1..MAX_MEMBERS {
        let [b',', after @ ..] = rest else {
            break;
        };
        let (next, after) = member(alloc, after)?;
        members.push(next)?;
        rest = after;
    }
    Ok((Members::new(members), rest))
}

/// Takes the members of a type, as far as the brace behind them.
#[tactic(auto, unfolding(crate::specs::Reading::members_at))]
fn members(alloc: Global, bytes: &[u8]) -> Result<(Members, &[u8]), ReadFault>
    ensures { Gives (λ x. (x.0, x.1.now)) result (members_at bytes.now) }
{
    match bytes {
        [b'}', ..] => Ok((Members::new(Vec::new(alloc)), bytes)),
        _ => {
            let (first, rest) = member(alloc, bytes)?;
            more_members(alloc, first, rest)
        }
    }
}

/// Takes a record, and the end of the text behind it.
#[tactic(auto, unfolding(crate::specs::Reading::record_at))]
fn record(alloc: Global, bytes: &[u8]) -> Result<(u64, TypeDesc), ReadFault>
    ensures { Gives (λ x. (x, [])) result (record_at bytes.now) }
{
    let (id, rest) = id(bytes)?;
    let rest = byte(b' ', rest)?;
    let (name, rest) = name(NameKind::OfType, rest)?;
    let rest = byte(b'{', rest)?;
    let (members, rest) = members(alloc, rest)?;
    let rest = byte(b'}', rest)?;
    end(rest)?;
    let desc = TypeDesc {
        name: Text::from_ascii(alloc, name)?,
        members,
    };
    Ok((id, desc))
}

/// The id and the description that a dictionary record gives.
pub fn read_desc(alloc: Global, text: &[u8]) -> Result<(u64, TypeDesc), DescFault>
    // What is read is spelled so.
    ensures found { IfOk result (λ r. IsRecord r × (text.now ≡ record_text r)) }
    // What is spelled so is read, unless memory runs out.
    ensures only { (r : ℕ × TypeDesc) → IsRecord r → text.now ≡ record_text r → IsReadAs result r }
    // The fault is at the end of the longest prefix that begins a record, and the text is none.
    ensures fault { IfErr result (λ f. StandsAt (Spells record_text IsRecord) text.now f) }
{
    match record(alloc, text) {
        Ok(found) => Ok(found),
        Err(ReadFault::Memory) => Err(DescFault::NoMemory),
        Err(ReadFault::Stuck { left }) => Err(DescFault::At {
            at: (text.len() - left) as u64,
        }),
    }
}
