// A sink in memory, some of whose calls fail.
ghost use Rattle.std.specs.Prelude.{◌≡◌, ◌≤◌, ◌++◌, [], ℕ, length, take, IsTrue, IsErr, OnOk, OnErr};
ghost use Rattle.call_counts.specs.Counts.{Rose, raised};
ghost use Rattle.store_io.specs.Failing.{is_listed};

use crate::sink::{Sink, SinkFailed};
use call_counts::raised;
use std::alloc::Global;
use std::marker::Model;

/// A sink that keeps its bytes. The listed calls, by number from 1, fail and append nothing, and so
/// does a call for which there is no memory.
#[derive(Drop)]
pub struct MemSink {
    written: Vec<u8>,
    fails: Vec<u64>,
    calls: u64,
    faults: u64,
}

impl Model for MemSink {
    ghost use Rattle.store_io.specs.Memory.{SinkState};

    ghost Value = { SinkState };

    ghost view = { λ s. record { written = s.written.items; fails = s.fails.items; calls = s.calls; faults = s.faults } };
}

impl MemSink {
    /// A sink with no bytes.
    pub fn new(alloc: Global, fails: Vec<u64>) -> MemSink
        ensures { result ≡ record { written = []; fails = fails.items; calls = 0; faults = 0 } }
    {
        MemSink {
            written: Vec::new(alloc),
            fails,
            calls: 0,
            faults: 0,
        }
    }

    /// The bytes so far.
    pub fn written(&self) -> &Vec<u8>
        ensures { result.now.items ≡ self.now.written }
    {
        &self.written
    }
}

impl Sink for MemSink {
    ghost use Rattle.std.specs.Prelude.{true};

    ghost tells = { true };

    ghost written = { λ s. s.written };

    ghost faults = { λ s. s.faults };

    fn put(&mut self, bytes: &[u8]) -> Result<(), SinkFailed>
        ensures ok { OnOk result (self.new.written ≡ self.old.written ++ bytes.now) }
        ensures err { OnErr result ((n : ℕ) × (n ≤ length bytes.now) × (self.new.written ≡ self.old.written ++ take n bytes.now)) }
        ensures faults { self.old.faults ≤ self.new.faults }
        ensures cause { OnErr result (Rose self.old.faults self.new.faults) }

        // The listed calls fail, and no other while there is memory.
        ensures fails { IsTrue (is_listed self.old.fails (raised self.old.calls)) → IsErr result }
        ensures put { OnOk result (self.new ≡ record self.old { written = self.old.written ++ bytes.now; calls = raised self.old.calls }) }
        ensures kept { OnErr result (self.new ≡ record self.old { calls = raised self.old.calls; faults = raised self.old.faults }) }
    {
        self.calls = raised(self.calls);
        if !self.fails.contains(&self.calls) && self.written.extend_from_slice(bytes).is_ok() {
            return Ok(());
        }
        self.faults = raised(self.faults);
        Err(SinkFailed)
    }
}
