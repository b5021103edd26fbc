use crate::entity::{Entity, StoreOp};
use crate::lists::{Bytes, Ids};

/// What a session asks of a storage.
#[derive(Debug, Drop)]
pub enum Ask {
    /// The entity of an id.
    Look(u64),
    /// Hold ids, so that they are kept although nothing refers to them.
    Hold(Ids),
    /// Hold ids no longer.
    Release(Ids),
    /// Store entities durably.
    Store(StoreOp),
    /// Record a type durably, by the bytes of its description.
    KeepType(Bytes),
    /// Remove what is not reached, and count what is.
    Collect,
    /// Dissolve files that are used too little.
    Tidy,
}

/// What a storage answers to the ask of the same place in the list of asks.
#[derive(Debug, Drop)]
pub enum Reply {
    Found(Entity),
    Held,
    Released,
    /// The number of the store.
    Stored(u64),
    TypeKept,
    /// The number of entities that are reached.
    Count(u64),
    Tidied,
}

/// Why a storage didn't do what it was asked.
#[derive(Clone, Copy, Debug, PartialEq, Eq)]
pub enum StorageFault {
    /// Memory ran out, and what was asked changed nothing.
    NoMemory,
    /// A disk failed.
    Fault,
    /// A log or a number is at its limit; `number` is the number of the store that was due.
    Full { number: u64 },
    /// The disk doesn't hold the entity that was written to it.
    Broken { id: u64 },
}
