//! A fixed region of bytes, out of which blocks are taken.
#![tactic(auto)]

mod block;
mod memory;
mod packing;
mod place;
mod region;
mod runs;
mod tree;

pub use block::Block;
pub use memory::NoMemory;
pub use place::UNIT;
pub use region::Region;
