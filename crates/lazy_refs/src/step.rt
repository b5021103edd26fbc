//! What a call of a loading gives.

use object_registry::Loaded;

/// What a call of a loading gives.
#[derive(Debug, Drop)]
pub enum LoadStep {
    /// The next call has to be given the entity of this id.
    Want(u64),
    /// All objects that are loaded, each with its id. The first is that of the start, and each other one is named
    /// by an earlier one.
    Ready(Loaded),
    /// This is the least of the ids that cannot be converted: the target name of its entity's type has no type.
    NoType { id: u64 },
    /// This is the least of the ids that cannot be converted: in its entity's type and the latest one, a member
    /// and its source are of two kinds.
    WrongKind { id: u64 },
    /// The entity that was given for this id is not well-formed: it has not its type's form, or the root's type and not the root's id, or the
    /// other way round.
    Broken { id: u64 },
}

/// Why an entity cannot be converted.
#[derive(Clone, Copy, Debug, PartialEq, Eq)]
pub enum Reason {
    NoType,
    WrongKind,
}

/// An id whose entity cannot be converted.
#[derive(Clone, Copy, Debug, PartialEq, Eq)]
pub struct Refused {
    pub id: u64,
    pub reason: Reason,
}
