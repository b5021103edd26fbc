//! A script of lines, answered over two logs of one disk; and a script that is made up.
#![tactic(auto)]

mod generating;
mod input;
mod laws;
mod line;
mod run;
mod serve;
mod status;
mod stop;
mod top;
mod words;

pub use generating::generate;
pub use laws::answers_are_lines;
pub use status::{Cause, Status};
pub use top::run_alone;
pub use words::are_run_words;
