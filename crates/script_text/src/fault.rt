//! Why a line could not be read.

/// Why a line could not be read.
#[derive(Clone, Copy, Debug, PartialEq, Eq)]
pub enum LineFault {
    /// The line spells no command, and this is the length in bytes of its longest prefix that
    /// begins one.
    BadLine { at: u64 },
    NoMemory,
}
