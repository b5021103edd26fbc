//! What the store stands on: sources of bytes, sinks and disks, and such in memory.
#![tactic(auto)]

mod calls;
pub mod disk;
mod files;
pub mod mem_disk;
mod mem_file;
pub mod mem_sink;
pub mod mem_source;
pub mod pick;
mod places;
mod restart;
pub mod sink;
pub mod source;

pub use disk::{Disk, DiskFailed};
pub use mem_disk::MemDisk;
pub use mem_sink::MemSink;
pub use mem_source::MemSource;
pub use pick::Pick;
pub use sink::{Sink, SinkFailed};
pub use source::{Source, SourceFailed};
