//! The types of a store: their ids, the latest of a name, and what one more adds to the list.
#![tactic(auto)]

mod declaration;
mod dictionary;
mod fault;
mod repeats;

pub use declaration::Declared;
pub use dictionary::{Dictionary, ROOT_TYPE_ID};
pub use fault::{DeclareFault, RecordFault};
pub use repeats::have_no_repeat;
