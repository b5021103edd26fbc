//! Whether a content was kept.

/// Whether a content was kept.
#[derive(Clone, Copy, Debug, PartialEq, Eq)]
pub enum Kept {
    /// It was.
    Yes,
    /// The region has no hole for it, though all others were given up.
    NoHole,
    /// There was no memory for one more entry.
    NoMemory,
}
