//! What a stop left unfinished in the logs of all channels is taken back, once all that the disks hold was found right.
#![tactic(auto)]

mod all_logs;
mod dropping;
mod finishing;
mod laws;
mod types;

pub use all_logs::finish_logs;
pub use finishing::finish_log;
pub use laws::{finished_channels_are_ready, less_left_holds_the_same};
pub use types::finish_types;
