//! The words behind the program's name: the commands that they spell, and what is shown of them when it is asked for.
#![tactic(auto)]

mod command;
mod fault;
mod help;
mod number;
mod plan;
mod reading;
mod verb;
mod word;
pub mod words;

pub use fault::WordsFault;
pub use help::{Shown, asked};
pub use plan::{Plan, WordSizes};
pub use verb::Verb;
pub use word::Word;
