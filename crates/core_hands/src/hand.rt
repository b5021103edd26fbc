ghost use Rattle.std.specs.Prelude.{◌≡◌, ◌+◌, ◌-◌, ◌^◌, ◌<◌, ◌≤◌, Some, None, [], length, IfOk};
ghost use Rattle.graph_model.specs.Ids.{has, add, remove};
ghost use Rattle.core_steps.specs.Core.{new_hand, written_of};
ghost use Rattle.core_hands.specs.OpenStores.{number_of, channels_of, is_whole, with_part};

use crate::channel_set::ChannelSet;
use core_steps::TRANSIT_LIMIT;
use graph_model::NoMemory;
use std::alloc::Global;
use std::marker::Model;

/// The open store: its number, its channels, and those of them that have their part.
#[derive(Debug, Drop)]
struct StoreParts {
    number: u64,
    channels: ChannelSet,
    written: ChannelSet,
}

/// What an actor holds, which contracts see as a hand of the core: ids in transit to other channels, at most 131,072, which may repeat;
/// credit; the cycle, closing and number of ended stores that it saw at its last event on the monitor; the channels that it has still to
/// report as begun and as swept; and the open store. Channels are numbers below 64. What it takes of memory it takes when it is made.
#[derive(Debug, Drop)]
pub struct Hand {
    transit: Vec<u64>,
    in_transit: usize,
    credit: u64,
    cycle_seen: u64,
    closed_seen: bool,
    ended_seen: u64,
    begun_reports: ChannelSet,
    swept_reports: ChannelSet,
    opened: Option<StoreParts>,
}

impl Model for Hand {
    ghost use Rattle.std.specs.Prelude.{◌≡◌, ◌≤◌, length, take};
    ghost use Rattle.core_steps.specs.declared.state.HandState.{HandState};

    ghost Value = { HandState };

    ghost use Rattle.core_hands.specs.Held.{sorted, open_store_of};

    ghost view = { λ hand. record {
      transit = sorted (take hand.in_transit hand.transit.items);
      credit = hand.credit;
      cycle_seen = hand.cycle_seen;
      closed_seen = hand.closed_seen;
      ended_seen = hand.ended_seen;
      begun_reports = hand.begun_reports;
      swept_reports = hand.swept_reports;
      opened = open_store_of hand.opened;
    } };

    ghost invariant = { λ hand. (length hand.transit.items ≡ 131072) × (hand.in_transit ≤ 131072) };
}

/// As many places for ids.
fn places(alloc: Global, count: usize) -> Result<Vec<u64>, NoMemory>
    ensures { IfOk result (λ made. length made.items ≡ count) }
{
    Ok(vec![in alloc; 0u64; count]?)
}

impl Hand {
    /// A hand that holds nothing, and has seen cycle 0, not closed, and no ended store.
    pub fn new(alloc: Global) -> Result<Hand, NoMemory>
        ensures { IfOk result (λ hand. hand ≡ new_hand) }
    {
        let transit = places(alloc, TRANSIT_LIMIT)?;
        Ok(Hand {
            transit,
            in_transit: 0,
            credit: 0,
            cycle_seen: 0,
            closed_seen: false,
            ended_seen: 0,
            begun_reports: ChannelSet::new(),
            swept_reports: ChannelSet::new(),
            opened: None,
        })
    }

    pub fn credit(&self) -> u64
        ensures { result ≡ self.now.credit }
    {
        self.credit
    }

    /// How many more ids may be in transit.
    pub fn room(&self) -> usize
        ensures rest { result ≡ 131072 - length self.now.transit }
        ensures within { length self.now.transit ≤ 131072 }
    {
        TRANSIT_LIMIT - self.in_transit
    }

    /// The cycle of the monitor at the last event on it.
    pub fn cycle_seen(&self) -> u64
        ensures { result ≡ self.now.cycle_seen }
    {
        self.cycle_seen
    }

    /// Whether that cycle was closed then.
    pub fn closed_seen(&self) -> bool
        ensures { result ≡ self.now.closed_seen }
    {
        self.closed_seen
    }

    /// How many stores had ended then.
    pub fn ended_seen(&self) -> u64
        ensures { result ≡ self.now.ended_seen }
    {
        self.ended_seen
    }

    /// Whether the channel is still to be reported as one that began to mark.
    pub fn has_begun(&self, channel: u32) -> bool
        ensures { result ≡ has channel self.now.begun_reports }
    {
        self.begun_reports.contains(channel)
    }

    /// Whether the channel is still to be reported as one that swept.
    pub fn has_swept(&self, channel: u32) -> bool
        ensures { result ≡ has channel self.now.swept_reports }
    {
        self.swept_reports.contains(channel)
    }

    /// The number of the open store.
    pub fn open_number(&self) -> Option<u64>
        ensures { result ≡ number_of self.now.opened }
    {
        self.opened.as_ref().map(|store| store.number)
    }

    /// Whether the open store has a part for the channel.
    pub fn is_in_store(&self, channel: u32) -> bool
        ensures { result ≡ has channel (channels_of self.now.opened) }
    {
        match &self.opened {
            Some(store) => store.channels.contains(channel),
            None => false,
        }
    }

    /// Whether the channel has its part of the open store.
    pub fn has_part(&self, channel: u32) -> bool
        ensures { result ≡ has channel (written_of self.now.opened) }
    {
        match &self.opened {
            Some(store) => store.written.contains(channel),
            None => false,
        }
    }

    /// Whether a store is open whose channels all have their part.
    pub fn is_complete(&self) -> bool
        ensures { result ≡ is_whole self.now.opened }
    {
        match &self.opened {
            Some(store) => store.written.includes(&store.channels),
            None => false,
        }
    }

    pub fn gain(&mut self, count: u64)
        requires { self.old.credit + count < 2 ^ 64 }
        ensures { self.new ≡ record self.old { credit = self.old.credit + count } }
    {
        self.credit += count;
    }

    pub fn spend(&mut self, count: u64)
        requires { count ≤ self.old.credit }
        ensures { self.new ≡ record self.old { credit = self.old.credit - count } }
    {
        self.credit -= count;
    }

    /// Notes the monitor's cycle, whether that is closed, and the number of ended stores.
    pub fn see(&mut self, cycle: u64, closed: bool, ended: u64)
        ensures { self.new ≡ record self.old { cycle_seen = cycle; closed_seen = closed; ended_seen = ended } }
    {
        self.cycle_seen = cycle;
        self.closed_seen = closed;
        self.ended_seen = ended;
    }

    /// Opens a store of that number on these channels, none of which has its part.
    pub fn open_store(&mut self, number: u64, channels: ChannelSet)
        ensures { self.new ≡ record self.old { opened = Some (record { number = number; channels = channels; written = [] }) } }
    {
        self.opened = Some(StoreParts {
            number,
            channels,
            written: ChannelSet::new(),
        });
    }

    /// Has no store open any more.
    pub fn end_store(&mut self)
        ensures { self.new ≡ record self.old { opened = None } }
    {
        self.opened = None;
    }

    /// Notes that the channel has its part of the open store. With none open nothing changes.
    pub fn give_part(&mut self, channel: u32)
        requires { channel < 64 }
        ensures { self.new ≡ record self.old { opened = with_part channel self.old.opened } }
    {
        if let Some(store) = &mut self.opened {
            store.written.add(channel);
        }
    }

    /// Notes that the channel began to mark, which is still to be reported.
    pub fn note_begun(&mut self, channel: u32)
        requires { channel < 64 }
        ensures { self.new ≡ record self.old { begun_reports = add channel self.old.begun_reports } }
    {
        self.begun_reports.add(channel);
    }

    /// Notes that the channel swept, which is still to be reported.
    pub fn note_swept(&mut self, channel: u32)
        requires { channel < 64 }
        ensures { self.new ≡ record self.old { swept_reports = add channel self.old.swept_reports } }
    {
        self.swept_reports.add(channel);
    }

    /// Gives up the report that the channel began to mark.
    pub fn give_begun(&mut self, channel: u32)
        ensures { self.new ≡ record self.old { begun_reports = remove channel self.old.begun_reports } }
    {
        self.begun_reports.remove(channel);
    }

    /// Gives up the report that the channel swept.
    pub fn give_swept(&mut self, channel: u32)
        ensures { self.new ≡ record self.old { swept_reports = remove channel self.old.swept_reports } }
    {
        self.swept_reports.remove(channel);
    }
}
