// A sink of bytes, as the program sees it.
ghost use Rattle.std.specs.Prelude.{◌≡◌, ◌≤◌, ◌++◌, List, ℕ, Bool, IsTrue, length, take, OnOk, OnErr};
ghost use Rattle.call_counts.specs.Counts.{Rose};

/// A put that failed.
#[derive(Clone, Copy, Debug, Drop, PartialEq, Eq)]
pub struct SinkFailed;

/// A sink of bytes, which are appended.
pub trait Sink {
    /// Whether such a sink tells its bytes.
    ghost tells: { Bool };

    /// The bytes so far.
    ghost written: { Self → List ℕ };

    /// How often the sink has failed.
    ghost faults: { Self → ℕ };

    /// Appends the bytes; where it fails, the first few of them.
    fn put(&mut self, bytes: &[u8]) -> Result<(), SinkFailed>
        ensures ok { IsTrue tells → OnOk result (written self.new ≡ written self.old ++ bytes.now) }
        ensures err { IsTrue tells → OnErr result ((n : ℕ) × (n ≤ length bytes.now) × (written self.new ≡ written self.old ++ take n bytes.now)) }
        ensures faults { faults self.old ≤ faults self.new }
        ensures cause { OnErr result (Rose (faults self.old) (faults self.new)) };
}
