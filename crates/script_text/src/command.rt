//! The commands of a script.

ghost use Rattle.std.specs.Prelude.{◌≡◌, ◌<◌, ◌≤◌, ◌↔◌, IfSome, IfNone, IfOk, IsAscii};
ghost use Rattle.script_text.specs.Fields.{IsDigits};
ghost use Rattle.script_text.specs.Lines.{target_named};
ghost use Rattle.script_text.specs.Meaning.{target_meant};
ghost use Rattle.session_model.specs.Commands.{digits_value};

use refactor_table::RefName;
use std::alloc::{AllocError, Global};
use std::marker::Model;
use type_desc::{Text, TypeDesc};

/// A name or `null`.
#[derive(Debug, Drop)]
pub enum Target {
    Null,
    Named(Text),
}

impl Target {
    /// The target that a word names.
    pub fn from_word(alloc: Global, word: &[u8]) -> Result<Target, AllocError>
        requires { IsAscii word.now }
        ensures { IfOk result (λ target. target_meant target ≡ target_named word.now) }
    {
        if word == b"null".as_slice() {
            return Ok(Target::Null);
        }
        Ok(Target::Named(Text::from_ascii(alloc, word)?))
    }
}

/// A place in a list, counted from 0. Its digits may be more than any list is long, so it is kept
/// as they are written; contracts see the number that they say.
#[derive(Debug, Drop)]
pub struct Index {
    digits: Text,
}

impl Model for Index {
    ghost use Rattle.std.specs.Prelude.{ℕ};
    ghost use Rattle.script_text.specs.Fields.{IsDigits};
    ghost use Rattle.session_model.specs.Commands.{digits_value};

    ghost Value = { ℕ };

    ghost view = { λ index. digits_value index.digits };

    ghost invariant = { λ index. IsDigits index.digits };
}

impl Index {
    /// The number that the digits say.
    pub fn from_digits(alloc: Global, digits: &[u8]) -> Result<Index, AllocError>
        requires digits { IsDigits digits.now }
        requires ascii { IsAscii digits.now }
        ensures { IfOk result (λ index. index ≡ digits_value digits.now) }
    {
        Ok(Index {
            digits: Text::from_ascii(alloc, digits)?,
        })
    }

    /// The place in a list of this length, or None where the list ends before it.
    pub fn below(&self, length: usize) -> Option<usize>
        ensures found { IfSome result (λ place. (place ≡ self.now) × (place < length)) }
        ensures none { IfNone result (length ≤ self.now) }
    {
        below(self.digits.as_str().as_bytes(), length)
    }
}

/// What the digits say, where that is below the length.
pub fn below(digits: &[u8], length: usize) -> Option<usize>
    requires { IsDigits digits.now }
    ensures found { IfSome result (λ place. (place ≡ digits_value digits.now) × (place < length)) }
    ensures none { IfNone result (length ≤ digits_value digits.now) }
{
    let mut value: u128 = 0;
    for digit in digits {
        value = value * 10 + u128::from(*digit - b'0');
        if value >= length as u128 {
            return None;
        }
    }
    Some(value as usize)
}

/// A line of a script: one variant a form, with the words of the line as its fields.
#[derive(Debug, Drop)]
pub enum Command {
    /// `type TYPE KIND:MEMBER ..`
    DeclareType(TypeDesc),
    /// `refactor OLD NEW`, both types or both members.
    Refactor(RefName, RefName),
    /// `new NAME TYPE`
    New {
        name: Text,
        type_name: Text,
    },
    /// `set NAME MEMBER REST`, where the rest is all behind the space and may be empty.
    SetMember {
        name: Text,
        member: Text,
        rest: Text,
    },
    /// `add NAME MEMBER TARGET`
    AddTo {
        name: Text,
        member: Text,
        target: Target,
    },
    /// `cut NAME MEMBER INDEX`
    CutFrom {
        name: Text,
        member: Text,
        index: Index,
    },
    /// `root NAME`
    SetRoot(Text),
    /// `store NAME`
    Store(Text),
    /// `store-all NAME`
    StoreAll(Text),
    /// `show NAME`
    Show(Text),
    /// `home NAME`
    Home(Text),
    /// `follow NAME MEMBER NEW`
    Follow {
        name: Text,
        member: Text,
        new: Text,
    },
    /// `pick NAME MEMBER INDEX NEW`
    Pick {
        name: Text,
        member: Text,
        index: Index,
        new: Text,
    },
    /// `drop NAME`
    DropName(Text),
    /// `forget`
    Forget,
    /// `collect`
    Collect,
    /// `tidy`
    Tidy,
    /// `export`
    Export,
}
