//! A storage of a session on one disk: its graph in memory, and beside it a log of stores and a log of types.
#![tactic(auto)]

mod counting;
mod fault;
mod finishing;
mod holding;
mod keep;
mod laws;
mod payload;
mod serve;
mod session_disk;
mod sound;
mod storage;
mod store_keeping;
mod store_payload;
mod stores_log;
mod tree;
mod type_log;

pub use fault::OpenFault;
pub use keep::keep_type;
pub use laws::images_hold_one;
pub use session_disk::open;
pub use storage::PlainStorage;
pub use type_log::{TYPES_FILE, TYPES_HEADER};
