//! The place of a chunk.

/// Where a chunk stands: the number of its file, and its first byte there. Both are 0 for an empty chunk.
#[derive(Clone, Copy, Debug, PartialEq, Eq)]
pub struct Place {
    pub file: u64,
    pub at: u64,
}
