//! The one-map model: what every script is answered, and what it stores.
//!
//! The definitions know no channel, file, mark or cache: the state is one graph, the types, the
//! bound names and the instances, and a line is one row of a table. The functions are laws of
//! these definitions: their bodies are empty, and each contract says what always holds.
#![tactic(auto)]

mod laws;

pub use laws::{
    asks_see_sets, counts_are_exact, held_ids_follow, loads_are_allowed, next_ids_never_fall,
    states_stay_sound, stores_are_valid, walks_are_exact,
};
