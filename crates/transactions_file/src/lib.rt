//! The transactions log of a channel, and what it says of the channel's files.
#![tactic(auto)]

mod entries;
mod file;
mod files;
mod inventory;

pub use file::TransactionsFile;
pub use files::FileList;
pub use inventory::{Inventory, InventoryFault};
