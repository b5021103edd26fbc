//! Reading the name of a type or of a member.

ghost use Rattle.std.specs.Prelude.{◌≡◌, [], IfOk, IfErr, IsAscii};
ghost use Rattle.type_desc.specs.Prefixes.{Spells};
ghost use Rattle.type_desc.specs.Gives.{Gives};
ghost use Rattle.refactor_table.specs.Faults.{IsReadAs, StandsAt};
ghost use Rattle.refactor_table.specs.Names.{IsRefName, name_text};
ghost use Rattle.refactor_table.specs.Reading.{member_end_at, ref_name_at, type_end_at};
ghost use Rattle.refactor_table.specs.declared.name.RefName.{RefName as AnyName};

use crate::fault::NameFault;
use crate::name::RefName;
use std::alloc::Global;
use type_desc::fields::{byte, end, name};
use type_desc::{NameKind, ReadFault, Text};

/// Takes a dot, the name of a member and the end.
#[tactic(auto, unfolding(crate::specs::Reading::member_end_at))]
fn member_end(alloc: Global, type_name: &[u8], bytes: &[u8]) -> Result<RefName, ReadFault>
    requires { IsAscii type_name.now }
    ensures { Gives (λ n. (n, [])) result (member_end_at type_name.now bytes.now) }
{
    let rest = byte(b'.', bytes)?;
    let (member, rest) = name(NameKind::OfMember, rest)?;
    end(rest)?;
    let type_name = Text::from_ascii(alloc, type_name)?;
    let member = Text::from_ascii(alloc, member)?;
    Ok(RefName::OfMember(type_name, member))
}

/// Takes the end.
#[tactic(auto, unfolding(crate::specs::Reading::type_end_at))]
fn type_end(alloc: Global, type_name: &[u8], bytes: &[u8]) -> Result<RefName, ReadFault>
    requires { IsAscii type_name.now }
    ensures { Gives (λ n. (n, [])) result (type_end_at type_name.now bytes.now) }
{
    end(bytes)?;
    Ok(RefName::OfType(Text::from_ascii(alloc, type_name)?))
}

/// Takes a name, and the end of the word behind it.
#[tactic(auto, unfolding(crate::specs::Reading::ref_name_at))]
fn ref_name(alloc: Global, bytes: &[u8]) -> Result<RefName, ReadFault>
    ensures { Gives (λ n. (n, [])) result (ref_name_at bytes.now) }
{
    let (type_name, rest) = name(NameKind::OfType, bytes)?;
    match rest {
        [b'.', ..] => member_end(alloc, type_name, rest),
        _ => type_end(alloc, type_name, rest),
    }
}

/// The name that the word spells: `TYPE`, or `TYPE.MEMBER`.
pub fn read_name(alloc: Global, word: &[u8]) -> Result<RefName, NameFault>
    // What is read is spelled so.
    ensures found { IfOk result (λ n. IsRefName n × (word.now ≡ name_text n)) }
    // What is spelled so is read, unless memory runs out.
    ensures only { (n : AnyName) → IsRefName n → word.now ≡ name_text n → IsReadAs result n }
    // The fault is at the end of the longest front that begins a name, and the word is none.
    ensures fault { IfErr result (λ f. StandsAt (Spells name_text IsRefName) word.now f) }
{
    match ref_name(alloc, word) {
        Ok(found) => Ok(found),
        Err(ReadFault::Memory) => Err(NameFault::NoMemory),
        Err(ReadFault::Stuck { left }) => Err(NameFault::Bad {
            at: (word.len() - left) as u64,
        }),
    }
}
