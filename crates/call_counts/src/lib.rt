//! Counts of calls that failed or read. By a count a caller sees that something failed, whatever was answered.
#![tactic(auto)]

ghost use Rattle.std.specs.Prelude.{◌≡◌, ◌≤◌};
ghost use Rattle.call_counts.specs.Counts.{raised};

/// The count after one more. It stands still at its type's end.
pub fn raised(count: u64) -> u64
    ensures is { result ≡ raised count }
    ensures not_less { count ≤ result }
{
    count.saturating_add(1)
}
