//! How a call of a channel is refused.
ghost use Rattle.std.specs.Prelude.{◌≡◌};
ghost use Rattle.channel.specs.Faults.{ending_of, failed_with};

use core_steps::Ending;

/// Why a call of a channel did not do what it is for.
#[derive(Clone, Copy, Debug, PartialEq, Eq, Drop)]
pub enum ChannelFault {
    /// A call of the disk failed, now or before. The channel makes no further one.
    Fault,
    /// There is no room: the number of a store is above 2^63, a log has this many bytes, or this file number is too great.
    Full { number: u64 },
    /// The table lacks the id.
    Gone { id: u64 },
    /// What stands on the disk where the entity was written is not that entity.
    Changed { id: u64 },
}

/// Notes in a channel's ending, and in whether it is failed, how a call was refused, and answers that.
pub(crate) fn note(ending: &mut Ending, failed: &mut bool, fault: ChannelFault) -> ChannelFault
    ensures same { result ≡ fault }
    ensures ending { ending.new ≡ ending_of fault }
    ensures failed { failed.new ≡ failed_with fault failed.old }
{
    *ending = match fault {
        ChannelFault::Fault => Ending::Fault,
        ChannelFault::Full { number } => Ending::Full { number },
        ChannelFault::Gone { id } | ChannelFault::Changed { id } => Ending::Broken { id },
    };
    *failed = *failed || matches!(fault, ChannelFault::Fault);
    fault
}
