//! One channel: its table of entities, on its files, with the events of the core that change it.
#![tactic(auto)]

mod channel;
mod fault;
mod holding;
mod laws;
mod opening;
mod part;
mod phase;
mod reading;
mod storing;
mod typing;

pub use channel::{Channel, NewChannel};
pub use fault::ChannelFault;
pub use laws::{images_follow_what_is_held, parts_keep_the_rule};
pub use phase::Stage;
