//! How a call of the files is refused.
use gated_log::AppendFault;
use store_io::DiskFailed;

/// Why a call did not do what it is for.
#[derive(Clone, Copy, Debug, PartialEq, Eq, Drop)]
pub enum FilesFault {
    /// A call of the disk failed. The channel is to be given up.
    Fault,
    /// There is no room: the number of a store is above 2^63, the log has this many bytes, or this file number is too great.
    Full { number: u64 },
    /// The last store, which has this number, is not confirmed.
    Unconfirmed { number: u64 },
    /// What stands at this place of the file is not what was there.
    Changed { at: u64 },
}

impl From<AppendFault> for FilesFault {
    ghost use Rattle.std.specs.Prelude.{◌≡◌};
    ghost use Rattle.channel_files.specs.Faults.{fault_of};

    ghost from_gives = { λ a e. e ≡ fault_of a };

    fn from(fault: AppendFault) -> Self {
        match fault {
            AppendFault::Fault => FilesFault::Fault,
            AppendFault::Full { length } => FilesFault::Full { number: length },
        }
    }
}

impl From<DiskFailed> for FilesFault {
    ghost use Rattle.std.specs.Prelude.{◌≡◌};
    ghost use Rattle.channel_files.specs.declared.fault.FilesFault.TheVariants.{Fault};

    ghost from_gives = { λ _ e. e ≡ Fault };

    fn from(_: DiskFailed) -> Self {
        FilesFault::Fault
    }
}
