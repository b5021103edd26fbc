//! How many members a type has, and the ids of type records.

/// The most members of a type.
pub const MAX_MEMBERS: usize = 1024;

/// The id of the first type record.
pub const FIRST_RECORD_ID: u64 = 16;

/// The greatest id of a type record.
pub const LAST_RECORD_ID: u64 = 65_551;
