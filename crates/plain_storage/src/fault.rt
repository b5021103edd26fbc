//! Why a disk is not opened.

use entity_form::FormFault;
use gated_log::LogFault;
use graph_model::NoMemory;
use std::alloc::AllocError;
use store_io::DiskFailed;
use type_dictionary::RecordFault;

/// Why a disk is not opened.
#[derive(Clone, Copy, Debug, PartialEq, Eq, Drop)]
pub enum OpenFault {
    NoMemory,
    /// A call of the disk failed.
    Fault,
    /// The disk holds something else than logs of a session.
    Damaged,
}

impl From<AllocError> for OpenFault {
    ghost use Rattle.std.specs.Prelude.{◌≡◌};
    ghost use Rattle.plain_storage.specs.declared.fault.OpenFault.TheVariants.{NoMemory};

    ghost from_gives = { λ _ e. e ≡ NoMemory };

    fn from(_: AllocError) -> Self {
        OpenFault::NoMemory
    }
}

impl From<DiskFailed> for OpenFault {
    ghost use Rattle.std.specs.Prelude.{◌≡◌};
    ghost use Rattle.plain_storage.specs.declared.fault.OpenFault.TheVariants.{Fault};

    ghost from_gives = { λ _ e. e ≡ Fault };

    fn from(_: DiskFailed) -> Self {
        OpenFault::Fault
    }
}

impl From<LogFault> for OpenFault {
    ghost use Rattle.std.specs.Prelude.{◌≡◌};
    ghost use Rattle.plain_storage.specs.Faults.{log_fault};

    ghost from_gives = { λ e f. f ≡ log_fault e };

    fn from(fault: LogFault) -> Self {
        match fault {
            LogFault::Fault => OpenFault::Fault,
            LogFault::Header | LogFault::Cut { .. } => OpenFault::Damaged,
        }
    }
}

impl From<RecordFault> for OpenFault {
    ghost use Rattle.std.specs.Prelude.{◌≡◌};
    ghost use Rattle.plain_storage.specs.Faults.{record_fault};

    ghost from_gives = { λ e f. f ≡ record_fault e };

    fn from(fault: RecordFault) -> Self {
        match fault {
            RecordFault::Bad => OpenFault::Damaged,
            RecordFault::NoMemory => OpenFault::NoMemory,
        }
    }
}

impl From<FormFault> for OpenFault {
    ghost use Rattle.std.specs.Prelude.{◌≡◌};
    ghost use Rattle.plain_storage.specs.Faults.{form_fault};

    ghost from_gives = { λ e f. f ≡ form_fault e };

    fn from(fault: FormFault) -> Self {
        match fault {
            FormFault::Bad => OpenFault::Damaged,
            FormFault::NoMemory => OpenFault::NoMemory,
        }
    }
}

impl From<NoMemory> for OpenFault {
    ghost use Rattle.std.specs.Prelude.{◌≡◌};
    ghost use Rattle.plain_storage.specs.declared.fault.OpenFault.TheVariants.{NoMemory as OutOfMemory};

    ghost from_gives = { λ _ e. e ≡ OutOfMemory };

    fn from(_: NoMemory) -> Self {
        OpenFault::NoMemory
    }
}
