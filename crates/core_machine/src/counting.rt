// Events on the monitor: credit, cycles and reports.
ghost use Rattle.std.specs.Prelude.{◌≡◌, ◌<◌, ◌^◌};
ghost use Rattle.core_steps.specs.Rows.{monitor_step, seeing};

use core_steps::{CREDIT_LIMIT, CoreMonitor, Event, HandState};

/// The hand sees the cycle, its closing and the ended stores.
pub(crate) fn seen(monitor: CoreMonitor, mut hand: HandState) -> (CoreMonitor, HandState)
    ensures { result ≡ seeing monitor hand }
{
    hand.cycle_seen = monitor.cycle;
    hand.closed_seen = monitor.closed;
    hand.ended_seen = monitor.stores_ended;
    (monitor, hand)
}

/// The event Reserve on the monitor. Its clause says where it is allowed, and what it makes of monitor and hand.
pub fn reserve(
    mut monitor: CoreMonitor,
    mut hand: HandState,
    count: u64,
) -> Option<(CoreMonitor, HandState)>
    requires { monitor.pending < 2 ^ 63 }
    ensures { result ≡ monitor_step monitor hand (Event.Reserve count) }
{
    if hand.credit > CREDIT_LIMIT || count > CREDIT_LIMIT - hand.credit {
        return None;
    }
    monitor.pending += count;
    hand.credit += count;
    Some(seen(monitor, hand))
}

/// The event Return on the monitor. Its clause says where it is allowed, and what it makes of monitor and hand.
pub fn return_credit(
    mut monitor: CoreMonitor,
    mut hand: HandState,
    count: u64,
) -> Option<(CoreMonitor, HandState)>
    ensures { result ≡ monitor_step monitor hand (Event.Return count) }
{
    if count > hand.credit {
        return None;
    }
    monitor.pending = monitor.pending.saturating_sub(count);
    hand.credit -= count;
    Some(seen(monitor, hand))
}

/// The event BeginCycle on the monitor. Its clause says where it is allowed, and what it makes of monitor and hand.
pub fn begin_cycle(mut monitor: CoreMonitor, hand: HandState) -> Option<(CoreMonitor, HandState)>
    ensures { result ≡ monitor_step monitor hand Event.BeginCycle }
{
    if !monitor.closed || !monitor.swept.all() || monitor.cycle == u64::MAX {
        return None;
    }
    monitor.cycle += 1;
    monitor.closed = false;
    monitor.begun.clear();
    monitor.swept.clear();
    Some(seen(monitor, hand))
}

/// The event CloseCycle on the monitor. Its clause says where it is allowed, and what it makes of monitor and hand.
pub fn close_cycle(mut monitor: CoreMonitor, hand: HandState) -> Option<(CoreMonitor, HandState)>
    ensures { result ≡ monitor_step monitor hand Event.CloseCycle }
{
    let is_quiet = monitor.pending == 0 && monitor.stores_begun == monitor.stores_ended;
    if monitor.closed || !is_quiet || !monitor.begun.all() {
        return None;
    }
    monitor.closed = true;
    Some(seen(monitor, hand))
}

/// The event ReportBegun on the monitor. Its clause says where it is allowed, and what it makes of monitor and hand.
pub fn report_begun(
    mut monitor: CoreMonitor,
    mut hand: HandState,
    channel: u32,
) -> Option<(CoreMonitor, HandState)>
    ensures { result ≡ monitor_step monitor hand (Event.ReportBegun channel) }
{
    if !hand.begun_reports.contains(u64::from(channel)) {
        return None;
    }
    monitor.begun.set(channel as usize);
    hand.begun_reports.remove(u64::from(channel));
    Some(seen(monitor, hand))
}

/// The event ReportSwept on the monitor. Its clause says where it is allowed, and what it makes of monitor and hand.
pub fn report_swept(
    mut monitor: CoreMonitor,
    mut hand: HandState,
    channel: u32,
) -> Option<(CoreMonitor, HandState)>
    ensures { result ≡ monitor_step monitor hand (Event.ReportSwept channel) }
{
    if !hand.swept_reports.contains(u64::from(channel)) {
        return None;
    }
    monitor.swept.set(channel as usize);
    hand.swept_reports.remove(u64::from(channel));
    Some(seen(monitor, hand))
}
