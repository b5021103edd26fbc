//! What the logs of all channels have in common.

ghost use Rattle.std.specs.Prelude.{◌≡◌, ◌≤◌, ℕ, length, map, IfOk, IfErr, IsErrOf};
ghost use Rattle.store_agreement.specs.Agreement.{AllAgree, IsFirstApart};
ghost use Rattle.store_opening.specs.LogsRead.{last_in};
ghost use Rattle.store_opening.specs.declared.fault.Cause.{Cause as AnyCause};

use crate::fault::{Cause, OpenFault};
use disk_opening::ChannelLog;
use std::alloc::Global;
use store_agreement::{Disagree, Last, agree};

/// How a log ends.
fn last_of(log: &ChannelLog) -> Last
    ensures { result ≡ last_in log.now }
{
    Last {
        number: log.inventory.last_store(),
        last_entry: log.inventory.last_entry(),
    }
}

/// How the log of each channel ends.
fn lasts_of(alloc: Global, logs: &[ChannelLog]) -> Result<Vec<Last>, OpenFault>
    ensures lasts { IfOk result (λ lasts. lasts.items ≡ map last_in logs.now) }
    ensures memory { IfErr result (λ e. e ≡ OpenFault.NoMemory) }
{
    let mut lasts = Vec::new(alloc);
    'logs: for log in logs {
        lasts.push(last_of(log))?;
    }
    Ok(lasts)
}

/// The number of the store that all channels have in common. `Damaged` exactly where there is none, with the first channel that does not agree.
pub fn common_store(alloc: Global, logs: &[ChannelLog]) -> Result<u64, OpenFault>
    requires some { 1 ≤ length logs.now }
    requires many { length logs.now ≤ 64 }
    ensures agreed { IfOk result (λ m. AllAgree m (map last_in logs.now)) }
    ensures damaged { (j : ℕ) (cause : AnyCause) → IsErrOf result (OpenFault.Damaged j cause) → (number : ℕ) × (cause ≡ Cause.Disagree number) × IsFirstApart (record { channel = j; number = number }) (map last_in logs.now) }
    ensures not_fault { IsErrOf result OpenFault.Fault → ⊥ }
    ensures not_full { (bytes : ℕ) → IsErrOf result (OpenFault.Full bytes) → ⊥ }
{
    let lasts = lasts_of(alloc, logs)?;
    match agree(&lasts) {
        Ok(common) => Ok(common),
        Err(Disagree { channel, number }) => Err(OpenFault::Damaged {
            channel,
            cause: Cause::Disagree { number },
        }),
    }
}
