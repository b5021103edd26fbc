// A source of bytes, as the program sees it.
ghost use Rattle.std.specs.Prelude.{◌≡◌, ◌<◌, ◌≤◌, ◌++◌, [], List, ℕ, Bool, IsTrue, length, take, IfOk, OnErr};
ghost use Rattle.call_counts.specs.Counts.{Rose};

/// A read that failed.
#[derive(Clone, Copy, Debug, Drop, PartialEq, Eq)]
pub struct SourceFailed;

/// A source of bytes, read from its front to its end.
pub trait Source {
    /// Whether such a source tells its bytes.
    ghost tells: { Bool };

    /// The bytes still to come.
    ghost left: { Self → List ℕ };

    /// How often the source has failed.
    ghost faults: { Self → ℕ };

    /// Moves the first bytes that are left to the front of the buffer, and says how many; none only
    /// at the end. After a failure nothing is said of what is left.
    fn read(&mut self, buf: &mut [u8]) -> Result<usize, SourceFailed>
        requires { 0 < length buf.old }
        ensures count { IfOk result (λ n. n ≤ length buf.old) }
        ensures given { IsTrue tells → IfOk result (λ n. left self.old ≡ take n buf.new ++ left self.new) }
        ensures end { IsTrue tells → IfOk result (λ n. n ≡ 0 → left self.old ≡ []) }
        ensures faults { faults self.old ≤ faults self.new }
        ensures cause { OnErr result (Rose (faults self.old) (faults self.new)) };
}
