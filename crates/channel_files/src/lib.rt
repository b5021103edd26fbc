//! The files of one channel: its transactions log and its data files.
#![tactic(auto)]

mod append;
mod channel;
mod chunk;
mod fault;
mod head;
mod laws;
mod place;
mod record;
mod sizes;
mod store;
mod truncate;
mod write;

pub use channel::ChannelFiles;
pub use fault::FilesFault;
pub use laws::{
    chunks_stay_whole, entities_begin_with_their_headers, entities_stand_in_their_files,
};
pub use place::Place;
pub use sizes::Sizes;
