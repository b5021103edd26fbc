//! Entities, stores and graphs, and what a storage is asked and answers.
#![tactic(auto)]

mod ask;
mod entity;
mod graph;
mod limits;
mod lists;
mod memory;

pub use ask::{Ask, Reply, StorageFault};
pub use entity::{Entity, Record, Records, StoreOp};
pub use graph::{Graph, after, reach};
pub use limits::{CHANNEL_LIMIT, ENTITY_LIMIT, FIRST_ID, ID_LIMIT, ROOT_ID, STORE_LIMIT};
pub use lists::{Bytes, Ids};
pub use memory::NoMemory;
