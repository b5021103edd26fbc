// The end of an opening.
ghost use Rattle.std.specs.Prelude.{◌≡◌, ◌<◌, ◌≤◌, ◌+◌, ◌++◌, [], ◌∷◌, length, IsTrue, List, ℕ, OnOk, OnErr, IfOk, IsOkAnd};
ghost use Rattle.store_io.specs.Disk.{Only, OthersStay};
ghost use Rattle.call_counts.specs.Counts.{Rose};
ghost use Rattle.gated_log.specs.Log.{payloads_of, Each};
ghost use Rattle.gated_log.specs.Of.{IsOf};
ghost use Rattle.gated_log.specs.Reading.{IsReading};

use crate::log::GatedLog;
use crate::opening::Opening;
use store_io::{Disk, DiskFailed};

impl Opening {
    /// The log, whose end the last `next` found. A file of at most 9 bytes gets the header and a gate
    /// that is not open, and is synced; over a longer one the disk is not called.
    pub fn finish<D: Disk>(self, disk: &mut D) -> Result<GatedLog, DiskFailed>
        requires ended { IsTrue self.ended }
        requires reading { IsTrue D.tells → IsReading self (D.reads disk.old self.file) }

        ensures file { IfOk result (λ log. (log.file ≡ self.file) × (log.header ≡ self.header)) }
        ensures of_disk { IsTrue D.tells → IfOk result (λ log. IsOf log (D.reads disk.new self.file)) }
        ensures same { IsTrue D.tells → OnOk result (payloads_of (D.reads disk.new self.file) ≡ payloads_of (D.reads disk.old self.file)) }

        // A longer file is left as it is.
        ensures untouched { 9 < self.len → disk.new ≡ disk.old }
        ensures whole { 9 < self.len → IsOkAnd result (λ log. (log.length ≡ self.at + 1) × (log.count ≡ self.count)) }

        // A short one is written and synced, and whatever stops it, in each image it is still short.
        ensures fresh { self.len ≤ 9 → IfOk result (λ log. (log.length ≡ 9) × (log.count ≡ 0)) }
        ensures written { IsTrue D.tells → self.len ≤ 9 → OnOk result (D.reads disk.new self.file ≡ self.header ++ 0 ∷ []) }
        ensures synced { IsTrue D.tells → self.len ≤ 9 → OnOk result (Only (D.reads disk.new self.file) (D.leaves disk.new self.file)) }
        ensures short { IsTrue D.tells → Only (D.reads disk.old self.file) (D.leaves disk.old self.file) → self.len ≤ 9 → Each (D.leaves disk.new self.file) (λ image. length image ≤ 9) }

        ensures clean { IsTrue D.tells → Only (D.reads disk.old self.file) (D.leaves disk.old self.file) → OnOk result (Only (D.reads disk.new self.file) (D.leaves disk.new self.file)) }
        ensures stop { IsTrue D.tells → Only (D.reads disk.old self.file) (D.leaves disk.old self.file)
            → Each (D.leaves disk.new self.file) (λ image. payloads_of image ≡ payloads_of (D.reads disk.old self.file)) }
        ensures others { IsTrue D.tells → OthersStay self.file (D.reads disk.old) (D.reads disk.new) (D.leaves disk.old) (D.leaves disk.new) }
        ensures faults { D.faults disk.old ≤ D.faults disk.new }
        ensures cause { OnErr result (Rose (D.faults disk.old) (D.faults disk.new)) }
        ensures calm { OnOk result (D.faults disk.new ≡ D.faults disk.old) }
        ensures read_calls { D.read_calls disk.new ≡ D.read_calls disk.old }
    {
        let header = self.header;
        if self.len <= 9 {
            return begin_file(disk, self.file, header);
        }
        Ok(GatedLog {
            file: self.file,
            header,
            end: self.at + 1,
            count: self.count,
        })
    }
}

/// Writes an empty log over a short file.
fn begin_file<D: Disk>(disk: &mut D, file: u32, header: [u8; 8]) -> Result<GatedLog, DiskFailed>
    requires short { IsTrue D.tells → length (D.reads disk.old file) ≤ 9 }
    ensures file { IfOk result (λ log. (log.file ≡ file) × (log.header ≡ header)) }
    ensures fresh { IfOk result (λ log. (log.length ≡ 9) × (log.count ≡ 0)) }
    ensures written { IsTrue D.tells → OnOk result (D.reads disk.new file ≡ header ++ 0 ∷ []) }
    ensures of_disk { IsTrue D.tells → IfOk result (λ log. IsOf log (D.reads disk.new file)) }
    ensures same { IsTrue D.tells → OnOk result (payloads_of (D.reads disk.new file) ≡ payloads_of (D.reads disk.old file)) }
    ensures clean { IsTrue D.tells → OnOk result (Only (D.reads disk.new file) (D.leaves disk.new file)) }
    ensures stop { IsTrue D.tells → Only (D.reads disk.old file) (D.leaves disk.old file)
        → Each (D.leaves disk.new file) (λ image. payloads_of image ≡ payloads_of (D.reads disk.old file)) }
    ensures short { IsTrue D.tells → Only (D.reads disk.old file) (D.leaves disk.old file) → Each (D.leaves disk.new file) (λ image. length image ≤ 9) }
    ensures others { IsTrue D.tells → OthersStay file (D.reads disk.old) (D.reads disk.new) (D.leaves disk.old) (D.leaves disk.new) }
    ensures faults { D.faults disk.old ≤ D.faults disk.new }
    ensures cause { OnErr result (Rose (D.faults disk.old) (D.faults disk.new)) }
    ensures calm { OnOk result (D.faults disk.new ≡ D.faults disk.old) }
    ensures read_calls { D.read_calls disk.new ≡ D.read_calls disk.old }
{
    let mut first = [0u8; 9];
    first[..8].copy_from_slice(&header);
    disk.write(file, 0, &first)?;
    disk.sync(file)?;
    Ok(GatedLog {
        file,
        header,
        end: 9,
        count: 0,
    })
}
