ghost use Rattle.std.specs.Prelude.{◌≡◌, ◌<◌, ◌≤◌, length, replicate, set, true, IfSome, IfNone};
ghost use Rattle.core_steps.specs.Rows.{all_clear, all_set};
ghost use Rattle.mark_monitor.specs.Faults.{first_clear};

use graph_model::CHANNEL_LIMIT;
use std::marker::Model;

/// A flag for each of at most 64 channels, which contracts see as a list.
#[derive(Debug, Drop)]
pub(crate) struct ChannelFlags {
    count: usize,
    flags: [bool; 64],
}

impl Model for ChannelFlags {
    ghost use Rattle.std.specs.Prelude.{List, Bool, ◌≤◌, take};

    ghost Value = { List Bool };

    ghost view = { λ set. take set.count set.flags };

    ghost invariant = { λ set. set.count ≤ 64 };
}

impl ChannelFlags {
    /// As many set flags.
    pub(crate) fn new(count: u32) -> ChannelFlags
        requires { count ≤ 64 }
        ensures { result ≡ replicate count true }
    {
        ChannelFlags {
            count: count as usize,
            flags: [true; 64],
        }
    }

    /// How many flags there are.
    pub(crate) fn len(&self) -> u32
        ensures count { result ≡ length self.now }
        ensures within { result ≤ 64 }
    {
        self.count as u32
    }

    /// Sets one flag. Past the last nothing changes.
    pub(crate) fn set(&mut self, channel: u32)
        ensures { self.new ≡ set self.old channel true }
    {
        let place = channel as usize;
        if place < self.count {
            self.flags[place] = true;
        }
    }

    /// Clears each flag.
    pub(crate) fn clear(&mut self)
        ensures { self.new ≡ all_clear self.old }
    {
        self.flags = [false; 64];
    }

    /// The first flag that is not set.
    pub(crate) fn first_clear(&self) -> Option<u32>
        ensures first { result ≡ first_clear self.now }
        ensures all { IfNone result (all_set self.now ≡ true) }
    {
        match place_of_clear(&self.flags[..self.count]) {
            Some(place) => Some(place as u32),
            None => None,
        }
    }
}

/// Where the first flag stands that is not set.
fn place_of_clear(flags: &[bool]) -> Option<usize>
    ensures place { result ≡ first_clear flags.now }
    ensures within { IfSome result (λ place. place < length flags.now) }
{
    flags.iter().position(|flag| !*flag)
}
