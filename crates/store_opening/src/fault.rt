//! Why disks are not opened.
ghost use Rattle.std.specs.Prelude.{◌≡◌, ◌≤◌};
ghost use Rattle.store_opening.specs.Faults.{of_chunk, of_dictionary, of_log, of_search};

use disk_opening::{ChannelLogFault, ChunkFault, DictionaryFault, SearchFault};
use std::alloc::AllocFailed;
use store_io::DiskFailed;

/// What is wrong with what the disks hold. Records are counted from 1.
#[derive(Clone, Copy, Debug, PartialEq, Eq, Drop)]
pub enum Cause {
    /// A transactions log of more than 9 bytes begins with another header.
    Header,
    /// The gate at this place of a transactions log is open, and no whole record follows.
    Log { at: u64 },
    /// This record of a transactions log is no entry.
    Entry { number: u64 },
    /// This record is an entry that is not allowed there.
    Order { number: u64 },
    /// The channel's last store, of this number, fits no agreement with the other channels.
    Disagree { number: u64 },
    /// The dictionary log begins with another header.
    TypesHeader,
    /// The gate at this place of the dictionary log is open, and no whole record follows.
    TypesLog { at: u64 },
    /// This record of the dictionary log is no text of a type that may follow those in front of it.
    TypesRecord { number: u64 },
    /// The entity at this place of a data file does not keep the rule.
    Chunk { file: u64, at: u64 },
    /// The root reaches this id, and no table has it.
    Missing { id: u64 },
    /// The entity of this id has a type that is not known.
    NoType { id: u64 },
    /// The entity of this id has not the form of its type.
    Form { id: u64 },
    /// What is read where the entity of this id stood is not what was read there before.
    Changed { id: u64 },
}

/// Why disks are not opened.
#[derive(Clone, Copy, Debug, PartialEq, Eq, Drop)]
pub enum OpenFault {
    NoMemory,
    /// A call of a disk failed.
    Fault,
    /// What the disks hold is damaged, on the disk of this channel.
    Damaged { channel: u32, cause: Cause },
    /// A Truncation is due on a log of this many bytes, which is over the limit.
    Full { number: u64 },
}

impl From<DiskFailed> for OpenFault {
    ghost use Rattle.std.specs.Prelude.{◌≡◌};
    ghost use Rattle.store_opening.specs.declared.fault.OpenFault.TheVariants.{Fault};

    ghost from_gives = { λ _ e. e ≡ Fault };

    fn from(_: DiskFailed) -> Self {
        OpenFault::Fault
    }
}

impl<T: Drop> From<AllocFailed<T>> for OpenFault {
    ghost use Rattle.std.specs.Prelude.{◌≡◌};
    ghost use Rattle.store_opening.specs.declared.fault.OpenFault.TheVariants.{NoMemory};

    ghost from_gives = { λ _ e. e ≡ NoMemory };

    fn from(_: AllocFailed<T>) -> Self {
        OpenFault::NoMemory
    }
}

/// What is wrong with the transactions log of a channel.
pub(crate) fn of_log(channel: u32, fault: ChannelLogFault) -> OpenFault
    ensures { result ≡ of_log channel fault }
{
    let cause = match fault {
        ChannelLogFault::NoMemory => return OpenFault::NoMemory,
        ChannelLogFault::Fault => return OpenFault::Fault,
        ChannelLogFault::Header => Cause::Header,
        ChannelLogFault::Log { at } => Cause::Log { at },
        ChannelLogFault::Entry { record } => Cause::Entry { number: record },
        ChannelLogFault::Order { record } => Cause::Order { number: record },
    };
    OpenFault::Damaged { channel, cause }
}

/// What is wrong with the dictionary log, on the disk of channel 0.
pub(crate) fn of_dictionary(fault: DictionaryFault) -> OpenFault
    ensures { result ≡ of_dictionary fault }
{
    let cause = match fault {
        DictionaryFault::NoMemory => return OpenFault::NoMemory,
        DictionaryFault::Fault => return OpenFault::Fault,
        DictionaryFault::Header => Cause::TypesHeader,
        DictionaryFault::Log { at } => Cause::TypesLog { at },
        DictionaryFault::Record { record } => Cause::TypesRecord { number: record },
    };
    OpenFault::Damaged { channel: 0, cause }
}

/// What is wrong with a chunk of a channel.
pub(crate) fn of_chunk(channel: u32, fault: ChunkFault) -> OpenFault
    ensures { result ≡ of_chunk channel fault }
{
    match fault {
        ChunkFault::NoMemory => OpenFault::NoMemory,
        ChunkFault::Fault => OpenFault::Fault,
        ChunkFault::BadChunk { file, at } => OpenFault::Damaged {
            channel,
            cause: Cause::Chunk { file, at },
        },
    }
}

/// What is wrong with an id that the root reaches, on the disk of its channel, of so many.
pub(crate) fn of_search(channels: u32, fault: SearchFault) -> OpenFault
    requires { 1 ≤ channels }
    ensures { result ≡ of_search channels fault }
{
    let (id, cause) = match fault {
        SearchFault::NoMemory => return OpenFault::NoMemory,
        SearchFault::Fault => return OpenFault::Fault,
        SearchFault::Missing { id } => (id, Cause::Missing { id }),
        SearchFault::NoType { id } => (id, Cause::NoType { id }),
        SearchFault::Form { id } => (id, Cause::Form { id }),
        SearchFault::Changed { id } => (id, Cause::Changed { id }),
    };
    let channel = (id % channels as u64) as u32;
    OpenFault::Damaged { channel, cause }
}
