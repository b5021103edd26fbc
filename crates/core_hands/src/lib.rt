//! What an actor of the core holds, with changes that take no memory.
#![tactic(auto)]

mod channel_set;
mod hand;

pub use channel_set::ChannelSet;
pub use hand::Hand;
