//! Which ids there are, and how large entities, stores and the number of channels may be.

/// The id of the root.
pub const ROOT_ID: u64 = 1;

/// The first id that an object other than the root is given.
pub const FIRST_ID: u64 = 1024;

/// Every id is below this, and the next id is at most this.
pub const ID_LIMIT: u64 = 1 << 48;

/// The most bytes of an entity: 32 of its header, 8 a reference, and the plain ones.
pub const ENTITY_LIMIT: u64 = 1 << 20;

/// The most bytes that the entities of one store take together.
pub const STORE_LIMIT: u64 = 1 << 24;

/// The most channels that a storage has.
pub const CHANNEL_LIMIT: usize = 64;
