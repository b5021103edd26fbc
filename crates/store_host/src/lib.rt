//! Folders, files and streams of the host, as the store's disks, sources and sinks.
#![tactic(auto)]

mod answers;
mod failure;
mod folder_disk;
mod folders;
mod handles;
mod kept_lines;
mod std_sink;
mod std_source;
mod store_folder;
mod streams;
mod tally;

pub use answers::FirstRefusal;
pub use failure::{Failure, HostFault, StreamFailure};
pub use folder_disk::FolderDisk;
pub use std_sink::StdSink;
pub use std_source::StdSource;
pub use store_folder::StoreFolder;
pub use streams::HeldStreams;
