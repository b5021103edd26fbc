//! An entry of a transactions log.

/// What happened to the files of a channel. Places and lengths count bytes.
#[derive(Clone, Copy, Debug, PartialEq, Eq)]
pub enum Entry {
    /// The file is created, empty, and becomes the head.
    Creation {
        file: u64,
    },
    /// A store wrote its chunk behind the head; with length 0 the channel has no part of it.
    Store {
        number: u64,
        file: u64,
        at: u64,
        length: u64,
        next_id: u64,
    },
    /// Entities of the source were copied behind the head.
    Transfer {
        source: u64,
        file: u64,
        at: u64,
        length: u64,
    },
    /// The store before it is dropped.
    Truncation {
        file: u64,
        new_length: u64,
        dropped: u64,
    },
    /// The file is no longer live.
    Deletion {
        file: u64,
    },
}

/// The payload is no entry.
#[derive(Clone, Copy, Debug, PartialEq, Eq)]
pub struct BadEntry {
    /// 0 where the payload begins with no kind, and its length where that is not the kind's.
    pub at: u64,
}
