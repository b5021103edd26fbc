//! The contents of entities that were read once, in blocks of a region, by id.
#![tactic(auto)]

mod by_id;
mod cache;
mod kept;

pub use by_id::MOST_ENTRIES;
pub use cache::EntityCache;
pub use entity_region::NoMemory;
pub use kept::Kept;
