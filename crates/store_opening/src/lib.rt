//! The disks of all channels are looked at when they are opened, and laws on what they hold.
#![tactic(auto)]

mod agreeing;
mod chunk_files;
mod data_files;
mod fault;
mod laws;
mod log_files;
mod reached;
mod type_file;

pub use agreeing::common_store;
pub use chunk_files::read_indexes;
pub use data_files::sync_live_files;
pub use fault::{Cause, OpenFault};
pub use laws::{damages_hold_nothing, indexes_give_the_tables, taking_back_keeps_what_is_held};
pub use log_files::read_logs;
pub use reached::search_reached;
pub use type_file::read_types;
