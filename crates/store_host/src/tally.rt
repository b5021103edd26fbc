// The failures of a disk.
ghost use Rattle.std.specs.Prelude.{◌≡◌, ◌≤◌, true, false, IsTrue, IfOk, OnOk, OnErr, IsOk, IsErr};
ghost use Rattle.call_counts.specs.Counts.{Rose};

use crate::failure::Failure;
use call_counts::raised;
use store_io::DiskFailed;

/// How often a disk has failed, and why it did so first.
#[derive(Drop)]
pub(crate) struct Tally {
    pub(crate) faults: u64,
    /// Whether a sync has failed. What a later sync of the same bytes answers can't be believed, so every later call
    /// fails and none is made.
    pub(crate) ended: bool,
    pub(crate) first: Option<Failure>,
}

impl Tally {
    pub(crate) fn new() -> Tally
        ensures faults { result.faults ≡ 0 }
        ensures open { result.ended ≡ false }
    {
        Tally {
            faults: 0,
            ended: false,
            first: None,
        }
    }

    /// Refuses a call after a sync that failed.
    pub(crate) fn check(&mut self) -> Result<(), DiskFailed>
        ensures ended { self.old.ended ≡ true → IsErr result }
        ensures open { self.old.ended ≡ false → IsOk result }
        ensures stays { self.new.ended ≡ self.old.ended }
        ensures faults { self.old.faults ≤ self.new.faults }
        ensures cause { OnErr result (Rose self.old.faults self.new.faults) }
        ensures calm { OnOk result (self.new ≡ self.old) }
    {
        if self.ended {
            self.faults = raised(self.faults);
            return Err(DiskFailed);
        }
        Ok(())
    }

    /// The answer of a call, counted where it failed.
    pub(crate) fn count<T: Drop>(&mut self, answer: Result<T, Failure>) -> Result<T, DiskFailed>
        ensures ended { self.old.ended ≡ true → self.new.ended ≡ true }
        ensures faults { self.old.faults ≤ self.new.faults }
        ensures cause { OnErr result (Rose self.old.faults self.new.faults) }
        ensures calm { OnOk result (self.new ≡ self.old) }
    {
        match answer {
            Ok(value) => Ok(value),
            Err(failure) => {
                self.faults = raised(self.faults);
                self.ended = self.ended || failure.is_of_sync();
                self.first = self.first.or(Some(failure));
                Err(DiskFailed)
            }
        }
    }
}
