//! The names that a session has bound, and the objects that it holds in memory.
#![tactic(auto)]

mod fault;
mod forgetting;
mod instance;
mod loaded;
mod members;
mod names;
mod references;
mod registry;
mod table;
mod walking;

pub use fault::BindFault;
pub use forgetting::Forgotten;
pub use instance::Instance;
pub use loaded::Loaded;
pub use registry::Registry;
pub use walking::{Edges, walk};
