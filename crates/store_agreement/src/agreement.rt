//! Which store all channels have in common.
ghost use Rattle.std.specs.Prelude.{◌≡◌, ◌≤◌, ◌<◌, ◌^◌, ◌↔◌, ℕ, Ok, Err, IsTrue, IfSome, IfNone, All, length};
ghost use Rattle.std.specs.List.{AllWithin, HoldsAt};
ghost use Rattle.tx_entry.specs.declared.entry.Entry.{Entry as EntryModel};
ghost use Rattle.store_agreement.specs.declared.agreement.Disagree.{Disagree as DisagreeModel};
ghost use Rattle.store_agreement.specs.Agreement.{IsLeast, IsStoreOf, Agrees, AllAgree, IsFirstApart, numbers_of};

use tx_entry::Entry;

/// How the transactions log of a channel ends.
#[derive(Clone, Copy, Debug, PartialEq, Eq)]
pub struct Last {
    /// The number of its last store that is not dropped; 0 where there is none.
    pub number: u64,
    /// `None` where the log has no entry.
    pub last_entry: Option<Entry>,
}

/// The channels have no store in common to go on from.
#[derive(Clone, Copy, Debug, PartialEq, Eq)]
pub struct Disagree {
    /// The first channel that does not agree, counted from 0.
    pub channel: u32,
    /// The number of that channel's last store.
    pub number: u64,
}

fn is_store_of(number: u64, entry: Option<Entry>) -> bool
    ensures { IsTrue result ↔ IsStoreOf number entry }
{
    match entry {
        Some(Entry::Store { number: stored, .. }) => stored == number,
        _ => false,
    }
}

fn agrees(common: u64, last: &Last) -> bool
    ensures { IsTrue result ↔ Agrees common last.now }
{
    last.number == common
        || (common.checked_add(1) == Some(last.number) && is_store_of(last.number, last.last_entry))
}

fn least_number(lasts: &[Last]) -> u64
    requires { 1 ≤ length lasts.now }
    ensures { IsLeast result (numbers_of lasts.now) }
{
    let Some(least) = lasts.iter().map(|last| last.number).min() else {
        unreachable!()
    };
    least
}

/// The first channel whose last number is not this one or the next with its entry.
fn first_apart(common: u64, lasts: &[Last]) -> Option<usize>
    ensures within { IfSome result (λ channel. channel < length lasts.now) }
    ensures apart { IfSome result (λ channel. HoldsAt (λ last. ¬ Agrees common last) lasts.now channel) }
    ensures before { IfSome result (λ channel. AllWithin (Agrees common) lasts.now 0 channel) }
    ensures none { IfNone result (All (Agrees common) lasts.now) }
{
    lasts.iter().position(|last| !agrees(common, last))
}

/// The number of the store that all channels have: the least last number, where a channel may have one store more, whose entry ends its log.
///
/// `lasts` has the channels in their order.
pub fn agree(lasts: &[Last]) -> Result<u64, Disagree>
    requires some { 1 ≤ length lasts.now }
    requires most { length lasts.now ≤ 2 ^ 32 }
    ensures ok { (m : ℕ) → (result ≡ Ok m) ↔ AllAgree m lasts.now }
    ensures err { (d : DisagreeModel) → (result ≡ Err d) ↔ IsFirstApart d lasts.now }
{
    let common = least_number(lasts);
    match first_apart(common, lasts) {
        None => Ok(common),
        Some(channel) => Err(Disagree {
            channel: channel as u32,
            number: lasts[channel].number,
        }),
    }
}
