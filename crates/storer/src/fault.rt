//! Why a store could not be gathered.

ghost use Rattle.storer.specs.declared.fault.GatherFault.TheVariants.{NoMemory as NoRoom};
ghost use Rattle.std.specs.Prelude.{◌≡◌};

use graph_model::NoMemory;
use std::alloc::{AllocError, AllocFailed};

/// Why a store could not be gathered.
#[derive(Clone, Copy, Debug, PartialEq, Eq)]
pub enum GatherFault {
    /// The entity of this id, the least of those that are too big, would have so many bytes, as far as a `u64` can say.
    EntityTooBig { id: u64, length: u64 },
    /// No entity is too big, and all together would have so many bytes, as far as a `u64` can say.
    StoreTooBig { length: u64 },
    NoMemory,
}

impl From<NoMemory> for GatherFault {
    ghost from_gives = { λ _ e. e ≡ NoRoom };

    fn from(_error: NoMemory) -> GatherFault {
        GatherFault::NoMemory
    }
}

impl From<AllocError> for GatherFault {
    ghost from_gives = { λ _ e. e ≡ NoRoom };

    fn from(_error: AllocError) -> GatherFault {
        GatherFault::NoMemory
    }
}

impl<T: Drop> From<AllocFailed<T>> for GatherFault {
    ghost from_gives = { λ _ e. e ≡ NoRoom };

    fn from(_error: AllocFailed<T>) -> GatherFault {
        GatherFault::NoMemory
    }
}
