ghost use Rattle.std.specs.Prelude.{◌≡◌, ◌<◌, ◌≤◌, [], Bool, ◌||◌, not};
ghost use Rattle.std.specs.List.{list_all, range_with_len, zip};
ghost use Rattle.graph_model.specs.Ids.{has, add, remove};

use graph_model::CHANNEL_LIMIT;
use std::marker::Model;

/// A set of channels by number, below 64, which contracts see as the list of its numbers, rising.
#[derive(Debug, Drop)]
pub struct ChannelSet {
    flags: [bool; 64],
}

impl Model for ChannelSet {
    ghost use Rattle.std.specs.Prelude.{List, ℕ};
    ghost use Rattle.core_hands.specs.Numbers.{numbers_from};

    ghost Value = { List ℕ };

    ghost view = { λ set. numbers_from 0 set.flags };
}

impl ChannelSet {
    /// No channel.
    pub fn new() -> ChannelSet
        ensures { result ≡ [] }
    {
        ChannelSet { flags: [false; 64] }
    }

    /// The channels below a number, which is at most 64.
    pub fn below(count: u32) -> ChannelSet
        requires { count ≤ 64 }
        ensures { result ≡ range_with_len 0 count }
    {
        let mut set = ChannelSet::new();
        for channel in 0..count {
            set.add(channel);
        }
        set
    }

    /// Whether the channel is in the set.
    pub fn contains(&self, channel: u32) -> bool
        ensures { result ≡ has channel self.now }
    {
        let place = channel as usize;
        place < CHANNEL_LIMIT && self.flags[place]
    }

    /// Puts the channel into the set.
    pub fn add(&mut self, channel: u32)
        requires { channel < 64 }
        ensures { self.new ≡ add channel self.old }
    {
        self.flags[channel as usize] = true;
    }

    /// Takes the channel out of the set, where it is there.
    pub fn remove(&mut self, channel: u32)
        ensures { self.new ≡ remove channel self.old }
    {
        let place = channel as usize;
        if place < CHANNEL_LIMIT {
            self.flags[place] = false;
        }
    }

    /// Whether each channel of the other set is in this one.
    pub fn includes(&self, other: &ChannelSet) -> bool
        ensures { result ≡ list_all (λ channel. has channel self.now) other.now }
    {
        are_set(&self.flags, &other.flags)
    }
}

/// Whether each wanted flag is set.
fn are_set(flags: &[bool], wanted: &[bool]) -> bool
    ensures { result ≡ list_all (λ (pair : Bool × Bool). pair.0 || not pair.1) (zip flags.now wanted.now) }
{
    flags
        .iter()
        .zip(wanted.iter())
        .all(|(flag, wanted)| *flag || !*wanted)
}
