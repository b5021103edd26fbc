//! What a store of a session takes: the objects that a walk gathers, as entities.
#![tactic(auto)]

mod edges;
mod fault;
mod gathering;
mod recording;

pub use fault::GatherFault;
pub use gathering::{Gathering, gather};
