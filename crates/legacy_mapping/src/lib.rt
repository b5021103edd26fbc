//! Objects of an older type as objects of a newer one.
#![tactic(auto)]

mod conversion;
mod fault;
mod planning;
mod positions;
mod search;
mod sources;
mod targets;

pub use conversion::convert;
pub use fault::PlanFault;
pub use planning::plan;
pub use sources::Plan;
pub use targets::target;
