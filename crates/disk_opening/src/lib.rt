//! The disks of all channels are opened: their logs and chunks are read, and nothing is written before all is found right.
#![tactic(auto)]

mod channel_chunks;
mod chunks;
mod entities;
mod logs;
mod ranges;
mod searching;
mod type_log;

pub use channel_chunks::read_chunks;
pub use chunks::{ChunkFault, take_in};
pub use entities::SearchFault;
pub use logs::{ChannelLog, ChannelLogFault, header_of, read_log};
pub use ranges::{ChunkRange, Ranges};
pub use searching::search;
pub use type_log::{DictionaryFault, DictionaryLog, read_dictionary, types_header_of};
