//! Data files: chunks, which are lists of whole entities.
#![tactic(auto)]

mod append;
mod entity;
mod walk;

pub use append::append_chunk;
pub use entity::{ReadFault, read_entity};
pub use walk::{ChunkWalk, WalkFault, next_header};
