// A source in memory, some of whose calls fail.
ghost use Rattle.std.specs.Prelude.{◌≡◌, ◌<◌, ◌≤◌, ◌+◌, ◌++◌, ◌↔◌, [], length, take, drop, min, IsTrue, IfOk, IsErr, OnErr};
ghost use Rattle.call_counts.specs.Counts.{Rose, raised};
ghost use Rattle.store_io.specs.Failing.{is_listed};

use crate::source::{Source, SourceFailed};
use call_counts::raised;
use std::marker::Model;

/// Bytes in memory, given out in pieces. The listed calls, by number from 1, fail and move nothing.
#[derive(Drop)]
pub struct MemSource {
    bytes: Vec<u8>,
    at: usize,
    piece: usize,
    fails: Vec<u64>,
    calls: u64,
    faults: u64,
}

impl Model for MemSource {
    ghost use Rattle.std.specs.Prelude.{◌≤◌, length, drop};
    ghost use Rattle.store_io.specs.Memory.{SourceState};

    ghost Value = { SourceState };

    ghost view = { λ s. record { left = drop s.at s.bytes.items; piece = s.piece; fails = s.fails.items; calls = s.calls; faults = s.faults } };

    ghost invariant = { λ s. (1 ≤ s.piece) × (s.at ≤ length s.bytes.items) };
}

impl MemSource {
    /// A source of these bytes, at most `piece` of them a read.
    pub fn new(bytes: Vec<u8>, piece: usize, fails: Vec<u64>) -> MemSource
        requires { 1 ≤ piece }
        ensures { result ≡ record { left = bytes.items; piece = piece; fails = fails.items; calls = 0; faults = 0 } }
    {
        MemSource {
            bytes,
            at: 0,
            piece,
            fails,
            calls: 0,
            faults: 0,
        }
    }
}

/// Moves bytes to the front of the buffer.
fn hand_out(bytes: &[u8], from: usize, n: usize, buf: &mut [u8])
    requires room { n ≤ length buf.old }
    requires within { from + n ≤ length bytes.now }
    ensures { drop from bytes.now ≡ take n buf.new ++ drop (from + n) bytes.now }
{
    buf[..n].copy_from_slice(&bytes[from..from + n]);
}

impl Source for MemSource {
    ghost use Rattle.std.specs.Prelude.{true};

    ghost tells = { true };

    ghost left = { λ s. s.left };

    ghost faults = { λ s. s.faults };

    fn read(&mut self, buf: &mut [u8]) -> Result<usize, SourceFailed>
        requires { 0 < length buf.old }
        ensures count { IfOk result (λ n. n ≤ length buf.old) }
        ensures given { IfOk result (λ n. self.old.left ≡ take n buf.new ++ self.new.left) }
        ensures end { IfOk result (λ n. n ≡ 0 → self.old.left ≡ []) }
        ensures faults { self.old.faults ≤ self.new.faults }
        ensures cause { OnErr result (Rose self.old.faults self.new.faults) }

        // The listed calls fail, and no other.
        ensures fails { IsErr result ↔ IsTrue (is_listed self.old.fails (raised self.old.calls)) }
        ensures value { IfOk result (λ n. n ≡ min (length buf.old) (min self.old.piece (length self.old.left))) }
        ensures ok { IfOk result (λ n. self.new ≡ record self.old { left = drop n self.old.left; calls = raised self.old.calls }) }
        ensures err { OnErr result (self.new ≡ record self.old { calls = raised self.old.calls; faults = raised self.old.faults }) }
    {
        self.calls = raised(self.calls);
        if self.fails.contains(&self.calls) {
            self.faults = raised(self.faults);
            return Err(SourceFailed);
        }
        let n = buf.len().min(self.piece).min(self.bytes.len() - self.at);
        let from = self.at;
        hand_out(&self.bytes, from, n, buf);
        self.at = from + n;
        Ok(n)
    }
}
