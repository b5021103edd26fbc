//! The objects that are loaded with an id: the entity of each is asked for, and becomes an object of the latest type.
#![tactic(auto)]

mod laws;
mod loading;
mod mapping;
mod references;
mod step;

pub use laws::conversions_are_by_the_table;
pub use loading::Loading;
pub use mapping::read;
pub use step::LoadStep;
