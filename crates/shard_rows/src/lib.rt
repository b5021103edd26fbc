//! Units in memory as shards: what workers and the session do on them by turns, the history that the turns leave, and tests of it.
#![tactic(auto)]

#[cfg(test)]
mod calls;
mod channel_events;
mod history;
mod leaving;
mod monitor_events;
mod session;
mod threads;
mod units;
mod working;

pub use history::{Entry, Log, Order, check_history};
pub use session::{serve, serve_once};
pub use threads::{join_and_close, run_all, run_and_close};
pub use units::{EmptyChannel, MemoryUnit, Stage, first_units, memory_shards};
pub use working::{act, work};
