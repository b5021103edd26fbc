//! The lines of a script, read as commands.
#![tactic(auto)]

mod arguments;
mod command;
mod fault;
mod fields;
mod given;
mod keywords;
mod line;
mod utf8;

pub use command::{Command, Index, Target};
pub use fault::LineFault;
pub use given::{GivenInteger, bytes_in, integer_in, target_in};
pub use line::read_line;
