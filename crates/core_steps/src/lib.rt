//! The core: what the steps of channels, monitor and hands are, without disks or threads, and what they keep.
#![tactic(auto)]

mod event;
mod flags;
mod laws;
mod limits;
mod state;
mod unit;

pub use event::{Event, Step};
pub use flags::Flags;
pub use laws::{
    cores_stay_good, cores_stay_settled, good_cores_tell, quiet_cycles_leave_the_reached,
    runs_go_on, steps_change_one_shard, workers_leave_stores,
};
pub use limits::{CREDIT_LIMIT, TRANSIT_LIMIT};
pub use state::{
    Book, Channels, CoreChannel, CoreMonitor, CoreState, HandState, Hands, OpenStore, Phase, Place,
    Stores,
};
pub use unit::{CoreUnit, Ending, EventKind};
