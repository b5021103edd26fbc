//! The sizes that a channel keeps to.

/// When a file is replaced as head, and when it counts as sparse.
#[derive(Clone, Copy, Debug, PartialEq, Eq)]
pub struct Sizes {
    /// Bytes of a file below which it is sparse: 0 to 2^30, and at most `maximum`.
    pub minimum: u64,
    /// Bytes of the head from which on the next chunk goes into a new file: 1 to 2^30.
    pub maximum: u64,
    /// How many of 1,000 bytes of a file have to be in use, else it is sparse: 0 to 1,000.
    pub use_rate: u64,
}
