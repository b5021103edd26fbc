//! What follows a keyword: each function takes it to the end of the line and makes the command.

ghost use Rattle.script_text.specs.Arguments.{
  arguments_at,
  description_at,
  dotted_at,
  member_at,
  members_at,
  pair_at,
  type_members_at,
  types_at,
  value_at,
};
ghost use Rattle.script_text.specs.Fields.{words_at};
ghost use Rattle.script_text.specs.Lines.{command_at, made_of};
ghost use Rattle.script_text.specs.Meaning.{meant};
ghost use Rattle.script_text.specs.declared.fields.Field.TheVariants as fields;
ghost use Rattle.script_text.specs.declared.keywords.Keyword.TheVariants as keys;
ghost use Rattle.std.specs.Prelude.{◌≡◌, [], ◌∷◌, IfOk, IsAscii};
ghost use Rattle.type_desc.specs.Gives.{Gives};
ghost use Rattle.type_desc.specs.Reading.{with_front};

use crate::command::{Command, Index, Target};
use crate::fields::{Field, spaced_index, spaced_word};
use crate::keywords::Keyword;
use crate::utf8::rest_of_line;
use refactor_table::RefName;
use std::alloc::Global;
use type_desc::fields::{byte, end, kind, name};
use type_desc::{MAX_MEMBERS, Member, Members, NameKind, ReadFault, Text, TypeDesc};

/// Takes `KIND:MEMBER`.
#[tactic(auto, unfolding(crate::specs::Arguments::member_at))]
fn member(alloc: Global, bytes: &[u8]) -> Result<(Member, &[u8]), ReadFault>
    ensures { Gives (λ x. (x.0, x.1.now)) result (member_at bytes.now) }
{
    let (kind, rest) = kind(bytes)?;
    let rest = byte(b':', rest)?;
    let (name, rest) = name(NameKind::OfMember, rest)?;
    let member = Member {
        kind,
        name: Text::from_ascii(alloc, name)?,
    };
    Ok((member, rest))
}

/// Takes members, each behind a space.
#[tactic(auto, unfolding(crate::specs::Arguments::members_at))]
fn members(alloc: Global, bytes: &[u8]) -> Result<(Members, &[u8]), ReadFault>
    ensures { Gives (λ x. (x.0, x.1.now)) result (members_at 1024 bytes.now) }
{
    let mut members = Vec::new(alloc);
    let mut rest = bytes;
    'spaces: for _ in 0..MAX_MEMBERS {
        let [b' ', after @ ..] = rest else {
            break;
        };
        let (next, after) = member(alloc, after)?;
        members.push(next)?;
        rest = after;
    }
    Ok((Members::new(members), rest))
}

/// `type TYPE KIND:MEMBER ..`
#[tactic(auto, unfolding(crate::specs::Arguments::description_at, crate::specs::Lines::command_at))]
fn declare_type(alloc: Global, bytes: &[u8]) -> Result<Command, ReadFault>
    ensures { Gives (λ c. (meant c, [])) result (command_at keys.DeclareType bytes.now) }
{
    let (name, rest) = spaced_word(Field::TypeName, bytes)?;
    let (members, rest) = members(alloc, rest)?;
    end(rest)?;
    let name = Text::from_ascii(alloc, name)?;
    Ok(Command::DeclareType(TypeDesc { name, members }))
}

/// Takes a dot and the name of a member.
#[tactic(auto, unfolding(crate::specs::Arguments::dotted_at))]
fn dotted(bytes: &[u8]) -> Result<(&[u8], &[u8]), ReadFault>
    ensures ascii { IfOk result (λ x. IsAscii x.0.now) }
    ensures read { Gives (λ x. (x.0.now, x.1.now)) result (dotted_at bytes.now) }
{
    let rest = byte(b'.', bytes)?;
    name(NameKind::OfMember, rest)
}

/// Takes the second of two types.
#[tactic(auto, unfolding(crate::specs::Arguments::types_at))]
fn two_types(alloc: Global, old: &[u8], bytes: &[u8]) -> Result<Command, ReadFault>
    requires { IsAscii old.now }
    ensures { Gives (λ c. (meant c, [])) result (made_of keys.Refactor (types_at old.now bytes.now)) }
{
    let (new, rest) = spaced_word(Field::TypeName, bytes)?;
    end(rest)?;
    let old = RefName::OfType(Text::from_ascii(alloc, old)?);
    let new = RefName::OfType(Text::from_ascii(alloc, new)?);
    Ok(Command::Refactor(old, new))
}

/// Takes the member of the first type, and a member of a second.
#[tactic(auto, unfolding(crate::specs::Arguments::type_members_at))]
fn two_members(alloc: Global, old: &[u8], bytes: &[u8]) -> Result<Command, ReadFault>
    requires { IsAscii old.now }
    ensures { Gives (λ c. (meant c, [])) result (made_of keys.Refactor (type_members_at old.now bytes.now)) }
{
    let (old_member, rest) = dotted(bytes)?;
    let (new, rest) = spaced_word(Field::TypeName, rest)?;
    let (new_member, rest) = dotted(rest)?;
    end(rest)?;
    let old = Text::from_ascii(alloc, old)?;
    let new = Text::from_ascii(alloc, new)?;
    let old = RefName::OfMember(old, Text::from_ascii(alloc, old_member)?);
    let new = RefName::OfMember(new, Text::from_ascii(alloc, new_member)?);
    Ok(Command::Refactor(old, new))
}

/// `refactor OLD NEW`
#[tactic(auto, unfolding(crate::specs::Arguments::pair_at, crate::specs::Lines::command_at))]
fn refactor(alloc: Global, bytes: &[u8]) -> Result<Command, ReadFault>
    ensures { Gives (λ c. (meant c, [])) result (command_at keys.Refactor bytes.now) }
{
    let (old, rest) = spaced_word(Field::TypeName, bytes)?;
    match rest {
        [b'.', ..] => two_members(alloc, old, rest),
        _ => two_types(alloc, old, rest),
    }
}

/// `new NAME TYPE`
#[tactic(auto, unfolding(crate::specs::Fields::words_at, crate::specs::Lines::command_at))]
fn new(alloc: Global, bytes: &[u8]) -> Result<Command, ReadFault>
    ensures { Gives (λ c. (meant c, [])) result (command_at keys.New bytes.now) }
{
    let (name, rest) = spaced_word(Field::Name, bytes)?;
    let (type_name, rest) = spaced_word(Field::TypeName, rest)?;
    end(rest)?;
    let name = Text::from_ascii(alloc, name)?;
    let type_name = Text::from_ascii(alloc, type_name)?;
    Ok(Command::New { name, type_name })
}

/// `set NAME MEMBER REST`
#[tactic(auto, unfolding(crate::specs::Arguments::value_at, crate::specs::Lines::command_at))]
fn set_member(alloc: Global, bytes: &[u8]) -> Result<Command, ReadFault>
    ensures { Gives (λ c. (meant c, [])) result (command_at keys.SetMember bytes.now) }
{
    let (name, rest) = spaced_word(Field::Name, bytes)?;
    let (member, rest) = spaced_word(Field::Member, rest)?;
    let rest = rest_of_line(alloc, byte(b' ', rest)?)?;
    let name = Text::from_ascii(alloc, name)?;
    let member = Text::from_ascii(alloc, member)?;
    Ok(Command::SetMember { name, member, rest })
}

/// `add NAME MEMBER TARGET`
#[tactic(auto, unfolding(crate::specs::Fields::words_at, crate::specs::Lines::command_at))]
fn add_to(alloc: Global, bytes: &[u8]) -> Result<Command, ReadFault>
    ensures { Gives (λ c. (meant c, [])) result (command_at keys.AddTo bytes.now) }
{
    let (name, rest) = spaced_word(Field::Name, bytes)?;
    let (member, rest) = spaced_word(Field::Member, rest)?;
    let (word, rest) = spaced_word(Field::Target, rest)?;
    end(rest)?;
    let name = Text::from_ascii(alloc, name)?;
    let member = Text::from_ascii(alloc, member)?;
    let target = Target::from_word(alloc, word)?;
    Ok(Command::AddTo {
        name,
        member,
        target,
    })
}

/// `cut NAME MEMBER INDEX`
#[tactic(auto, unfolding(crate::specs::Fields::words_at, crate::specs::Lines::command_at))]
fn cut_from(alloc: Global, bytes: &[u8]) -> Result<Command, ReadFault>
    ensures { Gives (λ c. (meant c, [])) result (command_at keys.CutFrom bytes.now) }
{
    let (name, rest) = spaced_word(Field::Name, bytes)?;
    let (member, rest) = spaced_word(Field::Member, rest)?;
    let (index, rest) = spaced_index(rest)?;
    end(rest)?;
    let name = Text::from_ascii(alloc, name)?;
    let member = Text::from_ascii(alloc, member)?;
    let index = Index::from_digits(alloc, index)?;
    Ok(Command::CutFrom {
        name,
        member,
        index,
    })
}

/// `follow NAME MEMBER NEW`
#[tactic(auto, unfolding(crate::specs::Fields::words_at, crate::specs::Lines::command_at))]
fn follow(alloc: Global, bytes: &[u8]) -> Result<Command, ReadFault>
    ensures { Gives (λ c. (meant c, [])) result (command_at keys.Follow bytes.now) }
{
    let (name, rest) = spaced_word(Field::Name, bytes)?;
    let (member, rest) = spaced_word(Field::Member, rest)?;
    let (new, rest) = spaced_word(Field::Name, rest)?;
    end(rest)?;
    let name = Text::from_ascii(alloc, name)?;
    let member = Text::from_ascii(alloc, member)?;
    let new = Text::from_ascii(alloc, new)?;
    Ok(Command::Follow { name, member, new })
}

/// `pick NAME MEMBER INDEX NEW`
#[tactic(auto, unfolding(crate::specs::Fields::words_at, crate::specs::Lines::command_at))]
fn pick(alloc: Global, bytes: &[u8]) -> Result<Command, ReadFault>
    ensures { Gives (λ c. (meant c, [])) result (command_at keys.Pick bytes.now) }
{
    let (name, rest) = spaced_word(Field::Name, bytes)?;
    let (member, rest) = spaced_word(Field::Member, rest)?;
    let (index, rest) = spaced_index(rest)?;
    let (new, rest) = spaced_word(Field::Name, rest)?;
    end(rest)?;
    let name = Text::from_ascii(alloc, name)?;
    let member = Text::from_ascii(alloc, member)?;
    let index = Index::from_digits(alloc, index)?;
    let new = Text::from_ascii(alloc, new)?;
    Ok(Command::Pick {
        name,
        member,
        index,
        new,
    })
}

/// Takes the one name of a line.
#[tactic(auto, unfolding(crate::specs::Fields::words_at))]
fn one_name(alloc: Global, bytes: &[u8]) -> Result<Text, ReadFault>
    ensures { Gives (λ name. (name ∷ [], [])) result (words_at (fields.Name ∷ []) bytes.now) }
{
    let (name, rest) = spaced_word(Field::Name, bytes)?;
    end(rest)?;
    Ok(Text::from_ascii(alloc, name)?)
}

/// Takes the end of a line without further words.
#[tactic(auto, unfolding(crate::specs::Fields::words_at))]
fn no_words(bytes: &[u8]) -> Result<(), ReadFault>
    ensures { Gives (λ _. ([], [])) result (words_at [] bytes.now) }
{
    end(bytes)
}

/// What follows this keyword.
#[tactic(auto, unfolding(crate::specs::Lines::command_at))]
pub fn take_arguments(alloc: Global, keyword: Keyword, bytes: &[u8]) -> Result<Command, ReadFault>
    ensures { Gives (λ c. (meant c, [])) result (command_at keyword bytes.now) }
{
    match keyword {
        Keyword::DeclareType => declare_type(alloc, bytes),
        Keyword::Refactor => refactor(alloc, bytes),
        Keyword::New => new(alloc, bytes),
        Keyword::SetMember => set_member(alloc, bytes),
        Keyword::AddTo => add_to(alloc, bytes),
        Keyword::CutFrom => cut_from(alloc, bytes),
        Keyword::SetRoot => Ok(Command::SetRoot(one_name(alloc, bytes)?)),
        Keyword::Store => Ok(Command::Store(one_name(alloc, bytes)?)),
        Keyword::StoreAll => Ok(Command::StoreAll(one_name(alloc, bytes)?)),
        Keyword::Show => Ok(Command::Show(one_name(alloc, bytes)?)),
        Keyword::Home => Ok(Command::Home(one_name(alloc, bytes)?)),
        Keyword::Follow => follow(alloc, bytes),
        Keyword::Pick => pick(alloc, bytes),
        Keyword::DropName => Ok(Command::DropName(one_name(alloc, bytes)?)),
        Keyword::Forget => {
            no_words(bytes)?;
            Ok(Command::Forget)
        }
        Keyword::Collect => {
            no_words(bytes)?;
            Ok(Command::Collect)
        }
        Keyword::Tidy => {
            no_words(bytes)?;
            Ok(Command::Tidy)
        }
        Keyword::Export => {
            no_words(bytes)?;
            Ok(Command::Export)
        }
    }
}
