// Why words give no command.
ghost use Rattle.std.specs.Prelude.{◌≡◌};
ghost use Rattle.store_words.specs.declared.fault.WordsFault.TheVariants.{NoMemory};

use std::alloc::AllocError;
use thiserror::Error;

/// Why words give no command.
#[derive(Clone, Copy, Debug, PartialEq, Eq, Drop, Error)]
pub enum WordsFault {
    /// No command is spelled so.
    #[error("the words are no command")]
    Words,
    /// There was no memory.
    #[error("out of memory")]
    NoMemory,
}

impl From<AllocError> for WordsFault {
    ghost from_gives = { λ _ fault. fault ≡ NoMemory };

    fn from(_error: AllocError) -> WordsFault {
        WordsFault::NoMemory
    }
}
