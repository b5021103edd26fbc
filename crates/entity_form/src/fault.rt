//! Why an entity could not be decoded.

ghost use Rattle.std.specs.Prelude.{◌≡◌};
ghost use Rattle.entity_form.specs.declared.fault.DecodeFault.TheVariants.{NoMemory};
ghost use Rattle.entity_form.specs.declared.fault.EncodeFault.TheVariants.{NoMemory as EncodeNoMemory};
ghost use Rattle.entity_form.specs.declared.fault.FormFault.TheVariants.{NoMemory as FormNoMemory};
ghost use Rattle.entity_form.specs.declared.fault.ValueFault.TheVariants.{Memory};

use std::alloc::{AllocError, AllocFailed};

/// Why an entity could not be decoded.
#[derive(Clone, Copy, Debug, PartialEq, Eq)]
pub enum DecodeFault {
    /// The entity has not the form: the index of the first member that cannot be read, or the number
    /// of members where something is left over.
    BadForm { at: u64 },
    NoMemory,
}

/// Why a value could not be read.
#[derive(Clone, Copy, Debug, PartialEq, Eq)]
pub enum ValueFault {
    Unreadable,
    Memory,
}

impl From<AllocError> for ValueFault {
    ghost from_gives = { λ _ e. e ≡ Memory };

    fn from(_e: AllocError) -> ValueFault {
        ValueFault::Memory
    }
}

impl<T: Drop> From<AllocFailed<T>> for ValueFault {
    ghost from_gives = { λ _ e. e ≡ Memory };

    fn from(_e: AllocFailed<T>) -> ValueFault {
        ValueFault::Memory
    }
}

impl From<AllocError> for DecodeFault {
    ghost from_gives = { λ _ e. e ≡ NoMemory };

    fn from(_e: AllocError) -> DecodeFault {
        DecodeFault::NoMemory
    }
}

impl<T: Drop> From<AllocFailed<T>> for DecodeFault {
    ghost from_gives = { λ _ e. e ≡ NoMemory };

    fn from(_e: AllocFailed<T>) -> DecodeFault {
        DecodeFault::NoMemory
    }
}

/// Why an object could not be encoded.
#[derive(Clone, Copy, Debug, PartialEq, Eq)]
pub enum EncodeFault {
    /// The entity would have this many bytes.
    TooBig { length: u64 },
    NoMemory,
}

impl From<AllocError> for EncodeFault {
    ghost from_gives = { λ _ e. e ≡ EncodeNoMemory };

    fn from(_e: AllocError) -> EncodeFault {
        EncodeFault::NoMemory
    }
}

/// Why bytes could not be read as an entity.
#[derive(Clone, Copy, Debug, PartialEq, Eq)]
pub enum FormFault {
    /// The bytes are no one entity.
    Bad,
    NoMemory,
}

impl From<AllocError> for FormFault {
    ghost from_gives = { λ _ e. e ≡ FormNoMemory };

    fn from(_e: AllocError) -> FormFault {
        FormFault::NoMemory
    }
}

impl<T: Drop> From<AllocFailed<T>> for FormFault {
    ghost from_gives = { λ _ e. e ≡ FormNoMemory };

    fn from(_e: AllocFailed<T>) -> FormFault {
        FormFault::NoMemory
    }
}
