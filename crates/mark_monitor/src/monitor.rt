ghost use Rattle.std.specs.Prelude.{◌≡◌, ◌+◌, ◌-◌, ◌^◌, ◌<◌, ◌≤◌, Some, true, false, MatchOption, OnOk, OnErr, IfErr};
ghost use Rattle.graph_model.specs.Ids.{has};
ghost use Rattle.core_steps.specs.Rows.{monitor_step};
ghost use Rattle.core_steps.specs.Steps.{start_monitor};
ghost use Rattle.core_hands.specs.OpenStores.{is_whole};
ghost use Rattle.mark_monitor.specs.Faults.{IsBeginFault, IsCloseFault, may_close};

use crate::channel_flags::ChannelFlags;
use crate::fault::MonitorFault;
use core_hands::{ChannelSet, Hand};
use core_steps::Event;
use graph_model::StoreOp;
use std::marker::Model;

/// The monitor of a storage of format 1, which contracts see as the monitor of the core: the cycle and whether it is closed; which
/// channels, of at most 64, were reported to have begun marking and to have swept in it; the number of grey ids, ids in transit and
/// credits that are out; and how many stores began and ended. No call takes memory. Each event leaves in the hand what the monitor's
/// cycle, closing and number of ended stores are after it.
#[derive(Debug, Drop)]
pub struct Monitor {
    cycle: u64,
    closed: bool,
    begun: ChannelFlags,
    swept: ChannelFlags,
    pending: u64,
    stores_begun: u64,
    stores_ended: u64,
}

impl Model for Monitor {
    ghost use Rattle.core_steps.specs.declared.state.CoreMonitor.{CoreMonitor};

    ghost Value = { CoreMonitor };

    ghost view = { λ monitor. record {
      format = 1;
      cycle = monitor.cycle;
      closed = monitor.closed;
      begun = monitor.begun;
      swept = monitor.swept;
      pending = monitor.pending;
      stores_begun = monitor.stores_begun;
      stores_ended = monitor.stores_ended;
    } };
}

impl Monitor {
    /// The monitor at the start, with cycle 0 closed, of so many channels, where `stores` stores ended before.
    pub fn new(channels: u32, stores: u64) -> Monitor
        requires { channels ≤ 64 }
        ensures start { result ≡ start_monitor stores channels 1 }
    {
        Monitor {
            cycle: 0,
            closed: true,
            begun: ChannelFlags::new(channels),
            swept: ChannelFlags::new(channels),
            pending: 0,
            stores_begun: stores,
            stores_ended: stores,
        }
    }

    pub fn is_closed(&self) -> bool
        ensures { result ≡ self.now.closed }
    {
        self.closed
    }

    pub fn cycle(&self) -> u64
        ensures { result ≡ self.now.cycle }
    {
        self.cycle
    }

    /// How many grey ids, ids in transit and credits are out.
    pub fn pending(&self) -> u64
        ensures { result ≡ self.now.pending }
    {
        self.pending
    }

    pub fn stores_begun(&self) -> u64
        ensures { result ≡ self.now.stores_begun }
    {
        self.stores_begun
    }

    pub fn stores_ended(&self) -> u64
        ensures { result ≡ self.now.stores_ended }
    {
        self.stores_ended
    }

    /// The hand has n credits more. With n 0 it only looks.
    pub fn reserve(&mut self, hand: &mut Hand, n: u64)
        requires credit { hand.old.credit + n ≤ 2 ^ 32 }
        requires pending { self.old.pending + n ≤ 2 ^ 63 }
        ensures event { monitor_step self.old hand.old (Event.Reserve n) ≡ Some (self.new, hand.new) }
    {
        self.pending += n;
        hand.gain(n);
        hand.see(self.cycle, self.closed, self.stores_ended);
    }

    /// The hand gives n credits back. Pending becomes 0 where it is less than n.
    pub fn give_back(&mut self, hand: &mut Hand, n: u64)
        requires { n ≤ hand.old.credit }
        ensures event { monitor_step self.old hand.old (Event.Return n) ≡ Some (self.new, hand.new) }
    {
        self.pending = self.pending.saturating_sub(n);
        hand.spend(n);
        hand.see(self.cycle, self.closed, self.stores_ended);
    }

    /// Begins the next cycle, where each channel has swept in this one.
    pub fn begin_cycle(&mut self, hand: &mut Hand) -> Result<(), MonitorFault>
        requires closed { self.old.closed ≡ true }
        requires more { self.old.cycle < 2 ^ 64 - 1 }
        ensures event { OnOk result (monitor_step self.old hand.old Event.BeginCycle ≡ Some (self.new, hand.new)) }
        ensures fault { IfErr result (λ fault. IsBeginFault self.old fault) }
        ensures monitor_stays { OnErr result (self.new ≡ self.old) }
        ensures hand_stays { OnErr result (hand.new ≡ hand.old) }
    {
        if let Some(channel) = self.swept.first_clear() {
            return Err(MonitorFault::NotSwept { channel });
        }
        self.cycle += 1;
        self.closed = false;
        self.begun.clear();
        self.swept.clear();
        hand.see(self.cycle, self.closed, self.stores_ended);
        Ok(())
    }

    /// What stands in the way of closing the cycle.
    fn close_fault(&self) -> Option<MonitorFault>
        ensures { MatchOption result (may_close self.now ≡ true) (λ fault. IsCloseFault self.now fault) }
    {
        if self.pending != 0 {
            return Some(MonitorFault::Pending { n: self.pending });
        }
        if self.stores_begun != self.stores_ended {
            return Some(MonitorFault::StoreOpen {
                number: self.stores_begun,
            });
        }
        match self.begun.first_clear() {
            Some(channel) => Some(MonitorFault::NotBegun { channel }),
            None => None,
        }
    }

    /// Closes the cycle, where nothing is pending, no store is open, and each channel has begun to mark in it.
    pub fn close_cycle(&mut self, hand: &mut Hand) -> Result<(), MonitorFault>
        requires { self.old.closed ≡ false }
        ensures event { OnOk result (monitor_step self.old hand.old Event.CloseCycle ≡ Some (self.new, hand.new)) }
        ensures fault { IfErr result (λ fault. IsCloseFault self.old fault) }
        ensures monitor_stays { OnErr result (self.new ≡ self.old) }
        ensures hand_stays { OnErr result (hand.new ≡ hand.old) }
    {
        if let Some(fault) = self.close_fault() {
            return Err(fault);
        }
        self.closed = true;
        hand.see(self.cycle, self.closed, self.stores_ended);
        Ok(())
    }

    /// Takes the hand's report that a channel began to mark.
    pub fn report_begun(&mut self, hand: &mut Hand, channel: u32)
        requires { has channel hand.old.begun_reports ≡ true }
        ensures event { monitor_step self.old hand.old (Event.ReportBegun channel) ≡ Some (self.new, hand.new) }
    {
        self.begun.set(channel);
        hand.give_begun(channel);
        hand.see(self.cycle, self.closed, self.stores_ended);
    }

    /// Takes the hand's report that a channel swept.
    pub fn report_swept(&mut self, hand: &mut Hand, channel: u32)
        requires { has channel hand.old.swept_reports ≡ true }
        ensures event { monitor_step self.old hand.old (Event.ReportSwept channel) ≡ Some (self.new, hand.new) }
    {
        self.swept.set(channel);
        hand.give_swept(channel);
        hand.see(self.cycle, self.closed, self.stores_ended);
    }

    /// Opens the next store in the hand, on every channel, and answers its number.
    pub fn store_begin(&mut self, hand: &mut Hand) -> u64
        requires none_open { self.old.stores_begun ≡ self.old.stores_ended }
        requires room { self.old.stores_begun ≤ 2 ^ 63 }
        ensures number { result ≡ self.new.stores_begun }
        ensures event { (op : StoreOp) → monitor_step self.old hand.old (Event.StoreBegin op) ≡ Some (self.new, hand.new) }
    {
        self.stores_begun += 1;
        hand.open_store(self.stores_begun, ChannelSet::below(self.begun.len()));
        hand.see(self.cycle, self.closed, self.stores_ended);
        self.stores_begun
    }

    /// Ends the store that is open in the hand, whose channels all have their part.
    pub fn store_end(&mut self, hand: &mut Hand)
        requires complete { is_whole hand.old.opened ≡ true }
        requires open { self.old.stores_ended < self.old.stores_begun }
        ensures event { monitor_step self.old hand.old Event.StoreEnd ≡ Some (self.new, hand.new) }
    {
        self.stores_ended += 1;
        hand.end_store();
        hand.see(self.cycle, self.closed, self.stores_ended);
    }
}
