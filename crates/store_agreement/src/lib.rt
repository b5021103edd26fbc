//! The store that all channels of a storage have in common after a stop.
#![tactic(auto)]

mod agreement;

pub use agreement::{Disagree, Last, agree};
