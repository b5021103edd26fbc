//! The core as a machine that runs: each event as a call, what the rest of the core permits, steps, and runs that are checked.
#![tactic(auto)]

mod counting;
mod machine;
mod marking;
mod permission;
mod runs;
mod sets;
mod shard;
mod starting;
mod storing;
mod sweeping;

pub use counting::{begin_cycle, close_cycle, report_begun, report_swept, reserve, return_credit};
pub use machine::step;
pub use marking::{Pair, begin_mark, deliver, mark_some};
pub use permission::{is_valid_store, may_hold, permits};
pub use runs::{RunFault, check_run};
pub use shard::{channel_step, monitor_step};
pub use starting::{new_hand, start};
pub use storing::{confirm, pin, store_begin, store_end, store_part, tidy, unpin};
pub use sweeping::sweep_some;
