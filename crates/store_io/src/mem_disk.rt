// A disk in memory, which fails and stops where it is told to.
ghost use Rattle.std.specs.Prelude.{◌≡◌, ◌≢◌, ◌+◌, ◌-◌, ◌^◌, ◌↔◌, min, true, false, ◌||◌, IsTrue};
ghost use Rattle.store_io.specs.Failing.{is_listed, is_stopped, is_past};

use crate::calls::{Outcome, cut_by, sync_by, write_by};
use crate::disk::{Disk, DiskFailed};
use crate::files::{file_len, read_in};
use crate::mem_file::MemFile;
use crate::pick::Pick;
use crate::restart::restarted_files;
use call_counts::raised;
use std::alloc::{AllocError, Global};
use std::marker::Model;

/// A disk in memory. Calls are numbered from 1. A listed call fails, and after `stop_after` calls every
/// call does. A write or cut that fails by the list, or as the first call after the stop, is made all
/// the same as far as reads go, and stays unsynced; every later call changes nothing. A write or sync
/// for which there is no memory fails too.
#[derive(Drop)]
pub struct MemDisk {
    alloc: Global,
    files: Vec<MemFile>,
    fails: Vec<u64>,
    stop_after: Option<u64>,
    calls: u64,
    faults: u64,
    read_calls: u64,
}

impl Model for MemDisk {
    ghost use Rattle.store_io.specs.MemDisk.{DiskState};

    ghost Value = { DiskState };

    ghost view = { λ d. record { files = d.files.items; fails = d.fails.items; stop_after = d.stop_after; calls = d.calls; faults = d.faults; read_calls = d.read_calls } };
}

/// How the call of this number goes.
fn outcome_of(fails: &[u64], stop_after: Option<u64>, call: u64) -> Outcome
    ensures done { result ≡ Outcome.Done → (is_listed fails.now call || is_stopped stop_after call) ≡ false }
    ensures stopped { (result ≡ Outcome.Stopped) ↔ IsTrue (is_past stop_after call) }
    ensures due { result ≢ Outcome.Done → (is_listed fails.now call || is_stopped stop_after call) ≡ true }
{
    match stop_after {
        Some(last) if last < call && 1 < call - last => Outcome::Stopped,
        Some(last) if last < call => Outcome::Made,
        _ if fails.contains(&call) => Outcome::Made,
        _ => Outcome::Done,
    }
}

impl MemDisk {
    ghost use Rattle.std.specs.Prelude.{[], ℕ, IsTrue, IfOk};
    ghost use Rattle.store_io.specs.Whole.{IsImage, IsClean};
    ghost use Rattle.store_io.specs.MemDisk.{disk_reads, disk_leaves};
    ghost use Rattle.store_io.specs.Restart.{disk_picked, disk_synced};

    /// A disk with no files.
    pub fn new(alloc: Global, fails: Vec<u64>, stop_after: Option<u64>) -> MemDisk
        ensures { result ≡ record { files = []; fails = fails.items; stop_after = stop_after; calls = 0; faults = 0; read_calls = 0 } }
    {
        MemDisk {
            alloc,
            files: Vec::new(alloc),
            fails,
            stop_after,
            calls: 0,
            faults: 0,
            read_calls: 0,
        }
    }

    /// How many calls there were.
    pub fn calls(&self) -> u64
        ensures { result ≡ self.now.calls }
    {
        self.calls
    }

    /// The disk after a stop, with one image of each file that the stop may leave.
    pub fn restart(
        self,
        pick: Pick,
        fails: Vec<u64>,
        stop_after: Option<u64>,
    ) -> Result<MemDisk, AllocError>
        ensures reads { IfOk result (λ disk. disk_reads disk ≡ disk_picked pick self) }
        ensures image { IfOk result (λ disk. IsImage (disk_leaves self) (disk_reads disk)) }
        ensures clean { IfOk result (λ disk. IsClean (disk_reads disk) (disk_leaves disk)) }
        ensures synced { IfOk result (λ disk. disk_synced disk ≡ disk_reads disk) }
        ensures calls { IfOk result (λ disk. (disk.fails ≡ fails.items) × (disk.stop_after ≡ stop_after)) }
        ensures counts { IfOk result (λ disk. (disk.calls ≡ 0) × (disk.faults ≡ 0) × (disk.read_calls ≡ 0)) }
    {
        let files = restarted_files(self.alloc, &self.files, pick)?;
        Ok(MemDisk {
            alloc: self.alloc,
            files,
            fails,
            stop_after,
            calls: 0,
            faults: 0,
            read_calls: 0,
        })
    }
}

impl Disk for MemDisk {
    ghost use Rattle.std.specs.Prelude.{◌≤◌, ◌↔◌, true, false, ℕ, List, IsTrue, length, take, drop, IsErr, IfOk, OnOk, OnErr};
    ghost use Rattle.store_io.specs.Disk.{Holds, Torn, CutShort, Follows, Only, OthersStay};
    ghost use Rattle.call_counts.specs.Counts.{Rose, raised};
    ghost use Rattle.store_io.specs.Files.{reads_left_of};
    ghost use Rattle.store_io.specs.MemDisk.{disk_reads, disk_leaves, is_due, is_dead, IsCounted};
    ghost use Rattle.store_io.specs.Restart.{disk_synced};

    ghost tells = { true };

    ghost reads = { disk_reads };

    ghost leaves = { disk_leaves };

    ghost faults = { λ d. d.faults };

    ghost read_calls = { λ d. d.read_calls };

    ghost reads_left = { λ d file told. reads_left_of d.files file };

    fn len(&mut self, file: u32) -> Result<u64, DiskFailed>
        ensures value { IfOk result (λ n. n ≡ length (disk_reads self.old file)) }
        ensures reads { disk_reads self.new ≡ disk_reads self.old }
        ensures leaves { disk_leaves self.new ≡ disk_leaves self.old }
        ensures faults { self.old.faults ≤ self.new.faults }
        ensures cause { OnErr result (Rose self.old.faults self.new.faults) }
        ensures calm { OnOk result (self.new.faults ≡ self.old.faults) }
        ensures read_calls { self.new.read_calls ≡ self.old.read_calls }

        ensures fails { IsErr result ↔ IsTrue (is_due self.old) }
        ensures ok { OnOk result (self.new ≡ record self.old { calls = raised self.old.calls }) }
        ensures err { OnErr result (self.new ≡ record self.old { calls = raised self.old.calls; faults = raised self.old.faults }) }
    {
        self.calls = raised(self.calls);
        if outcome_of(&self.fails, self.stop_after, self.calls) == Outcome::Done {
            return Ok(file_len(&self.files, file) as u64);
        }
        self.faults = raised(self.faults);
        Err(DiskFailed)
    }

    fn read(&mut self, file: u32, at: u64, buf: &mut [u8]) -> Result<(), DiskFailed>
        requires { at + length buf.old ≤ length (disk_reads self.old file) }
        ensures value { OnOk result (buf.new ≡ take (length buf.old) (drop at (disk_reads self.old file))) }
        ensures reads { disk_reads self.new ≡ disk_reads self.old }
        ensures leaves { disk_leaves self.new ≡ disk_leaves self.old }
        ensures faults { self.old.faults ≤ self.new.faults }
        ensures cause { OnErr result (Rose self.old.faults self.new.faults) }
        ensures calm { OnOk result (self.new.faults ≡ self.old.faults) }
        ensures read_calls { self.new.read_calls ≡ raised self.old.read_calls }

        ensures fails { IsErr result ↔ IsTrue (is_due self.old) }
        ensures ok { OnOk result (self.new ≡ record self.old { calls = raised self.old.calls; read_calls = raised self.old.read_calls }) }
        ensures err { OnErr result (self.new ≡ record self.old { calls = raised self.old.calls; read_calls = raised self.old.read_calls; faults = raised self.old.faults }) }
    {
        self.calls = raised(self.calls);
        self.read_calls = raised(self.read_calls);
        if outcome_of(&self.fails, self.stop_after, self.calls) == Outcome::Done {
            read_in(&self.files, file, at as usize, buf);
            return Ok(());
        }
        self.faults = raised(self.faults);
        Err(DiskFailed)
    }

    fn write(&mut self, file: u32, at: u64, bytes: &[u8]) -> Result<(), DiskFailed>
        requires { at ≤ length (disk_reads self.old file) }
        ensures written { OnOk result (Holds (disk_reads self.old file) at bytes.now (disk_reads self.new file)) }
        ensures stop { Follows (Torn at (length bytes.now)) (disk_leaves self.old file) (disk_leaves self.new file) }
        ensures others { OthersStay file (disk_reads self.old) (disk_reads self.new) (disk_leaves self.old) (disk_leaves self.new) }
        ensures faults { self.old.faults ≤ self.new.faults }
        ensures cause { OnErr result (Rose self.old.faults self.new.faults) }
        ensures calm { OnOk result (self.new.faults ≡ self.old.faults) }
        ensures read_calls { self.new.read_calls ≡ self.old.read_calls }

        ensures fails { IsTrue (is_due self.old) → IsErr result }
        ensures counted { IsCounted self.old self.new }
        ensures err { OnErr result (self.new.faults ≡ raised self.old.faults) }
        ensures dead { is_dead self.old ≡ true → self.new.files ≡ self.old.files }
        ensures synced { disk_synced self.new ≡ disk_synced self.old }
    {
        self.calls = raised(self.calls);
        let outcome = outcome_of(&self.fails, self.stop_after, self.calls);
        if write_by(
            outcome,
            self.alloc,
            &mut self.files,
            file,
            at as usize,
            bytes,
        ) {
            return Ok(());
        }
        self.faults = raised(self.faults);
        Err(DiskFailed)
    }

    fn cut(&mut self, file: u32, len: u64) -> Result<(), DiskFailed>
        requires { len ≤ length (disk_reads self.old file) }
        ensures cut { OnOk result (disk_reads self.new file ≡ take len (disk_reads self.old file)) }
        ensures stop { Follows (CutShort len) (disk_leaves self.old file) (disk_leaves self.new file) }
        ensures others { OthersStay file (disk_reads self.old) (disk_reads self.new) (disk_leaves self.old) (disk_leaves self.new) }
        ensures faults { self.old.faults ≤ self.new.faults }
        ensures cause { OnErr result (Rose self.old.faults self.new.faults) }
        ensures calm { OnOk result (self.new.faults ≡ self.old.faults) }
        ensures read_calls { self.new.read_calls ≡ self.old.read_calls }

        ensures fails { IsErr result ↔ IsTrue (is_due self.old) }
        ensures counted { IsCounted self.old self.new }
        ensures err { OnErr result (self.new.faults ≡ raised self.old.faults) }
        ensures made { is_dead self.old ≡ false → disk_reads self.new file ≡ take len (disk_reads self.old file) }
        ensures dead { is_dead self.old ≡ true → self.new.files ≡ self.old.files }
        ensures synced { disk_synced self.new ≡ disk_synced self.old }
    {
        self.calls = raised(self.calls);
        let outcome = outcome_of(&self.fails, self.stop_after, self.calls);
        if cut_by(outcome, &mut self.files, file, len as usize) {
            return Ok(());
        }
        self.faults = raised(self.faults);
        Err(DiskFailed)
    }

    fn sync(&mut self, file: u32) -> Result<(), DiskFailed>
        ensures durable { OnOk result (Only (disk_reads self.old file) (disk_leaves self.new file)) }
        ensures reads { disk_reads self.new ≡ disk_reads self.old }
        ensures stop { (c : List ℕ) → IsTrue (disk_leaves self.new file c) → IsTrue (disk_leaves self.old file c) }
        ensures others { OthersStay file (disk_reads self.old) (disk_reads self.new) (disk_leaves self.old) (disk_leaves self.new) }
        ensures faults { self.old.faults ≤ self.new.faults }
        ensures cause { OnErr result (Rose self.old.faults self.new.faults) }
        ensures calm { OnOk result (self.new.faults ≡ self.old.faults) }
        ensures read_calls { self.new.read_calls ≡ self.old.read_calls }

        ensures fails { IsTrue (is_due self.old) → IsErr result }
        ensures counted { IsCounted self.old self.new }
        ensures err { OnErr result (self.new.faults ≡ raised self.old.faults) }
        ensures unsynced { OnErr result (disk_leaves self.new ≡ disk_leaves self.old) }
        // What was synced of the file is what it reads; a failed sync, and one of another file, keeps what was synced.
        ensures synced { OnOk result (disk_synced self.new file ≡ disk_reads self.old file) }
        ensures not_synced { OnErr result (disk_synced self.new ≡ disk_synced self.old) }
        ensures others_synced { (f : ℕ) → f ≢ file → disk_synced self.new f ≡ disk_synced self.old f }
    {
        self.calls = raised(self.calls);
        let outcome = outcome_of(&self.fails, self.stop_after, self.calls);
        if sync_by(outcome, self.alloc, &mut self.files, file) {
            return Ok(());
        }
        self.faults = raised(self.faults);
        Err(DiskFailed)
    }
}
