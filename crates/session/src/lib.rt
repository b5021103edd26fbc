//! The lines of a script over a storage that is asked: whatever storage answers, what is printed is what the model says, and each ask may be asked.
#![tactic(auto)]

mod commands;
mod export_line;
mod loading;
mod session;
mod storing;
mod taking;

pub use session::{Given, Session, SessionStep};
