//! What a session keeps between two lines, what a line comes to, and the lines that a session carries out alone: those that change an object, bind a
//! name, declare a type, pair two names or tell of what is there; and `export`, as a machine that is given the entities that it asks for.
#![tactic(auto)]

mod answers;
mod changing;
mod declaring;
mod exporting;
mod laws;
mod memory;
mod naming;
mod outcome;
mod places;
mod refactoring;
mod refusal;
mod telling;

pub use answers::{line, numbered_line, outcome_of, refusal_line};
pub use changing::{add_to, cut_from, set_member, set_root};
pub use declaring::declare_type;
pub use exporting::{Export, ExportStep};
pub use laws::exports_tell_what_is_held;
pub use memory::Memory;
pub use naming::{bind_found, drop_name, home, new, pick};
pub use outcome::{Outcome, Phase, Purpose, Waiting};
pub use places::{Place, may_bind, place_of, ref_in};
pub use refactoring::refactor;
pub use refusal::{Refusal, Stop};
pub use telling::{collect, forget, show, tidy};
