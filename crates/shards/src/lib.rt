//! Turns over shards: units that many threads share, each of which is taken for a turn and given back as one event of the core.
#![tactic(auto)]

mod closing;
mod layout;
mod making;
mod passes;
mod plays;
mod roster;
mod shards;
mod stop;
mod turns;
mod unit;

pub use layout::UnitSlot;
pub use making::{MakeFault, make};
pub use passes::{Busy, Held, Pass, Turn, View};
pub use shards::{Assembled, Shards, Start};
pub use unit::BackedUnit;
