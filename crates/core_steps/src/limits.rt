//! How much credit there is, and how many ids are in transit.

/// The most credit that one hand has.
pub const CREDIT_LIMIT: u64 = 1 << 32;

/// The most ids that one hand has in transit.
pub const TRANSIT_LIMIT: usize = 131_072;
