//! Why a record is not added, and why a type is not declared.

ghost use Rattle.std.specs.Prelude.{◌≡◌};
ghost use Rattle.type_dictionary.specs.declared.fault.DeclareFault.TheVariants.{NoMemory as DeclareNoMemory};
ghost use Rattle.type_dictionary.specs.declared.fault.RecordFault.TheVariants.{NoMemory as RecordNoMemory};

use std::alloc::AllocError;

/// Why a record is not added.
#[derive(Clone, Copy, Debug, PartialEq, Eq)]
pub enum RecordFault {
    /// The text is not the next record: it is no record, its id is not the next one, its name is
    /// that of the built-in type, a member name stands twice in it, or there are 65,536 records.
    Bad,
    NoMemory,
}

impl From<AllocError> for RecordFault {
    ghost from_gives = { λ _ e. e ≡ RecordNoMemory };

    fn from(_e: AllocError) -> RecordFault {
        RecordFault::NoMemory
    }
}

impl From<graph_model::NoMemory> for RecordFault {
    ghost from_gives = { λ _ e. e ≡ RecordNoMemory };

    fn from(_e: graph_model::NoMemory) -> RecordFault {
        RecordFault::NoMemory
    }
}

/// Why a type is not declared.
#[derive(Clone, Copy, Debug, PartialEq, Eq)]
pub enum DeclareFault {
    /// The type would be new, and there are 65,536 records.
    TooManyTypes,
    NoMemory,
}

impl From<type_desc::NoMemory> for DeclareFault {
    ghost from_gives = { λ _ e. e ≡ DeclareNoMemory };

    fn from(_e: type_desc::NoMemory) -> DeclareFault {
        DeclareFault::NoMemory
    }
}
