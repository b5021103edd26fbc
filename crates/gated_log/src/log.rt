// A log that is open.
use crate::record::add_record;
use std::marker::Model;
use store_io::{Disk, DiskFailed};

/// A log of more bytes than this is full.
pub const FULL: u64 = (1 << 40) - 64;

/// Why a payload was not added.
#[derive(Clone, Copy, Debug, PartialEq, Eq, Drop)]
pub enum AppendFault {
    /// A call of the disk failed. The log is to be given up.
    Fault,
    /// The log has this many bytes, which is over the limit. Nothing was written.
    Full { length: u64 },
}

impl From<DiskFailed> for AppendFault {
    ghost use Rattle.std.specs.Prelude.{◌≡◌};
    ghost use Rattle.gated_log.specs.declared.log.AppendFault.TheVariants.{Fault};

    ghost from_gives = { λ _ e. e ≡ Fault };

    fn from(_: DiskFailed) -> Self {
        AppendFault::Fault
    }
}

/// A log in one file of a disk.
#[derive(Drop)]
pub struct GatedLog {
    pub(crate) file: u32,
    pub(crate) header: [u8; 8],
    /// The place behind the last gate.
    pub(crate) end: u64,
    pub(crate) count: u64,
}

impl Model for GatedLog {
    ghost use Rattle.std.specs.Prelude.{◌+◌, ◌≤◌};
    ghost use Rattle.gated_log.specs.State.{LogState};

    ghost Value = { LogState };

    ghost view = { λ l. record { file = l.file; header = l.header; length = l.end; count = l.count } };

    ghost invariant = { λ l. l.count + 9 ≤ l.end };
}

impl GatedLog {
    ghost use Rattle.std.specs.Prelude.{◌≡◌, ◌<◌, ◌≤◌, ◌+◌, ◌-◌, ◌^◌, ◌++◌, ◌⊎◌, [], ◌∷◌, ℕ, List, IsTrue, length, OnOk, OnErr, IfErr, IsErrOf};
    ghost use Rattle.store_io.specs.Disk.{Only, OthersStay};
    ghost use Rattle.call_counts.specs.Counts.{Rose};
    ghost use Rattle.gated_log.specs.Log.{payloads_of, IsLogOf, IsBeforeOrAfter, Each};
    ghost use Rattle.gated_log.specs.Of.{IsOf};

    /// The number of bytes up to the place behind the last gate.
    pub fn length(&self) -> u64
        ensures { result ≡ self.now.length }
    {
        self.end
    }

    /// The number of payloads.
    pub fn count(&self) -> u64
        ensures value { result ≡ self.now.count }
        ensures within { self.now.count < self.now.length }
    {
        self.count
    }

    /// Adds a payload of 1 to 1,048,576 bytes.
    pub fn append<D: Disk>(&mut self, disk: &mut D, payload: &[u8]) -> Result<(), AppendFault>
        requires some { 1 ≤ length payload.now }
        requires size { length payload.now ≤ 1048576 }
        requires of_disk { IsTrue D.tells → IsOf self.old (D.reads disk.old self.old.file) }

        // After `Ok` the log has the payload, in what is read and in every image.
        ensures ok { OnOk result (self.new ≡ record self.old { length = self.old.length + 5 + length payload.now; count = self.old.count + 1 }) }
        ensures of_disk { IsTrue D.tells → OnOk result (IsOf self.new (D.reads disk.new self.old.file)) }
        ensures added { IsTrue D.tells → OnOk result (payloads_of (D.reads disk.new self.old.file) ≡ payloads_of (D.reads disk.old self.old.file) ++ payload.now ∷ []) }
        ensures durable { IsTrue D.tells → OnOk result (Only (D.reads disk.new self.old.file) (D.leaves disk.new self.old.file)) }

        // Whatever was answered, each image has the old payloads, or these and the new one.
        ensures stop { IsTrue D.tells → Each (D.leaves disk.old self.old.file) (IsLogOf self.old.header (payloads_of (D.reads disk.old self.old.file)))
            → Each (D.leaves disk.new self.old.file) (IsBeforeOrAfter self.old.header (payloads_of (D.reads disk.old self.old.file)) payload.now) }
        ensures stop_payloads { IsTrue D.tells → Each (D.leaves disk.old self.old.file) (IsLogOf self.old.header (payloads_of (D.reads disk.old self.old.file)))
            → Each (D.leaves disk.new self.old.file) (λ image. (payloads_of image ≡ payloads_of (D.reads disk.old self.old.file)) ⊎ (payloads_of image ≡ payloads_of (D.reads disk.old self.old.file) ++ payload.now ∷ [])) }
        ensures others { IsTrue D.tells → OthersStay self.old.file (D.reads disk.old) (D.reads disk.new) (D.leaves disk.old) (D.leaves disk.new) }

        // `Full` exactly where the log is over its limit, and then the disk is not called.
        ensures full { 2 ^ 40 - 64 < self.old.length → IsErrOf result (AppendFault.Full self.old.length) × (disk.new ≡ disk.old) }
        ensures not_full { self.old.length ≤ 2 ^ 40 - 64 → IfErr result (λ e. e ≡ AppendFault.Fault) }
        ensures cause { IsErrOf result AppendFault.Fault → Rose (D.faults disk.old) (D.faults disk.new) }
        ensures calm { OnOk result (D.faults disk.new ≡ D.faults disk.old) }
        ensures err { OnErr result (self.new ≡ self.old) }

        ensures file { self.new.file ≡ self.old.file }
        ensures header { self.new.header ≡ self.old.header }
        ensures faults { D.faults disk.old ≤ D.faults disk.new }
        ensures read_calls { D.read_calls disk.new ≡ D.read_calls disk.old }
    {
        if self.end > FULL {
            return Err(AppendFault::Full { length: self.end });
        }
        add_record(disk, self.file, self.end, payload)?;
        self.end += 5 + payload.len() as u64;
        self.count += 1;
        Ok(())
    }
}
