//! Why a line is refused.

ghost use Rattle.std.specs.Prelude.{◌≡◌};
ghost use Rattle.session_lines.specs.Refusals.{code_of};
ghost use Rattle.session_lines.specs.declared.refusal.Stop.TheVariants.{NoMemory as MemoryStop};

use graph_model::NoMemory;
use std::alloc::{AllocError, AllocFailed};

/// Why a line is refused.
#[derive(Clone, Copy, Debug, PartialEq, Eq)]
pub enum Refusal {
    /// `Root` as a type, or `root` as a name that is bound or dropped.
    Reserved,
    /// A member name stands twice, or a pair has an old or a new name that another has.
    Duplicate,
    /// There are as many types, or as many ids, as there may be.
    Full,
    NameTaken,
    NoType,
    NoName,
    NoMember,
    WrongKind,
    /// A number outside of `i64`, or an index that is not below the length of its list.
    Range,
    /// The root has no target.
    NoRoot,
    /// The reference is null.
    NoTarget,
    /// An entity, or a store, has more bytes than it may have.
    TooBig,
    BadLine,
}

impl Refusal {
    /// The word that the answer tells.
    pub fn code(self) -> &'static str
        ensures { result.now ≡ code_of self }
    {
        match self {
            Refusal::Reserved => "reserved",
            Refusal::Duplicate => "duplicate",
            Refusal::Full => "full",
            Refusal::NameTaken => "name-taken",
            Refusal::NoType => "no-type",
            Refusal::NoName => "no-name",
            Refusal::NoMember => "no-member",
            Refusal::WrongKind => "wrong-kind",
            Refusal::Range => "range",
            Refusal::NoRoot => "no-root",
            Refusal::NoTarget => "no-target",
            Refusal::TooBig => "too-big",
            Refusal::BadLine => "bad-line",
        }
    }
}

/// Why a line is not carried out.
#[derive(Clone, Copy, Debug, PartialEq, Eq)]
pub enum Stop {
    Refused(Refusal),
    NoMemory,
}

impl From<NoMemory> for Stop {
    ghost from_gives = { λ _ e. e ≡ MemoryStop };

    fn from(_e: NoMemory) -> Stop {
        Stop::NoMemory
    }
}

impl From<AllocError> for Stop {
    ghost from_gives = { λ _ e. e ≡ MemoryStop };

    fn from(_e: AllocError) -> Stop {
        Stop::NoMemory
    }
}

impl<T: Drop> From<AllocFailed<T>> for Stop {
    ghost from_gives = { λ _ e. e ≡ MemoryStop };

    fn from(_e: AllocFailed<T>) -> Stop {
        Stop::NoMemory
    }
}

impl From<type_desc::NoMemory> for Stop {
    ghost from_gives = { λ _ e. e ≡ MemoryStop };

    fn from(_e: type_desc::NoMemory) -> Stop {
        Stop::NoMemory
    }
}
