//! Why a name could not be read, or a pair not be added.

ghost use Rattle.refactor_table.specs.declared.fault.AddFault.TheVariants.{NoMemory as AddNoMemory};
ghost use Rattle.std.specs.Prelude.{◌≡◌};

use std::alloc::{AllocError, AllocFailed};

/// Why a name could not be read.
#[derive(Clone, Copy, Debug, PartialEq, Eq)]
pub enum NameFault {
    /// The word is no name, and this is the length of its longest front that begins one.
    Bad { at: u64 },
    NoMemory,
}

/// Why a pair could not be added.
#[derive(Clone, Copy, Debug, PartialEq, Eq)]
pub enum AddFault {
    /// The row with this index, from 0, is the first that has the same old name or the same new one.
    Duplicate { row: u64 },
    NoMemory,
}

impl From<AllocError> for AddFault {
    ghost from_gives = { λ _ e. e ≡ AddNoMemory };

    fn from(_e: AllocError) -> AddFault {
        AddFault::NoMemory
    }
}

impl<T: Drop> From<AllocFailed<T>> for AddFault {
    ghost from_gives = { λ _ e. e ≡ AddNoMemory };

    fn from(_e: AllocFailed<T>) -> AddFault {
        AddFault::NoMemory
    }
}
