// Events on the monitor in memory.
ghost use Rattle.std.specs.Prelude.{◌≡◌, true, Some};
ghost use Rattle.core_steps.specs.Events.{is_worker};
ghost use Rattle.core_steps.specs.Rows.{Monitor as OfMonitor, monitor_step};
ghost use Rattle.shards.specs.Due.{IsEarly};
ghost use Rattle.shard_rows.specs.Units.{is_free};

use core_hands::Hand;
use core_steps::Event;
use mark_monitor::Monitor;

/// No credit is taken while so much is out.
const MOST_PENDING: u64 = 1000;

/// The last cycle.
const LAST_CYCLE: u64 = 1_000_000_000;

/// One credit more where the hand has none, else all of it goes back.
fn trade(monitor: &mut Monitor, hand: &mut Hand) -> Event
    ensures step { monitor_step monitor.old hand.old result ≡ Some (monitor.new, hand.new) }
    ensures worker { is_worker result ≡ true }
    ensures early { IsEarly (OfMonitor monitor.old) result }
{
    let credit = hand.credit();
    if credit == 0 && monitor.pending() < MOST_PENDING {
        monitor.reserve(hand, 1);
        return Event::Reserve(1);
    }
    monitor.give_back(hand, credit);
    Event::Return(credit)
}

/// A cycle is closed where it may be, or the next one begun.
fn turn_cycle(monitor: &mut Monitor, hand: &mut Hand) -> Event
    ensures step { monitor_step monitor.old hand.old result ≡ Some (monitor.new, hand.new) }
    ensures worker { is_worker result ≡ true }
    ensures early { IsEarly (OfMonitor monitor.old) result }
{
    if !monitor.is_closed() {
        return match monitor.close_cycle(hand) {
            Ok(()) => Event::CloseCycle,
            Err(_fault) => trade(monitor, hand),
        };
    }
    if monitor.cycle() >= LAST_CYCLE {
        return trade(monitor, hand);
    }
    match monitor.begin_cycle(hand) {
        Ok(()) => Event::BeginCycle,
        Err(_fault) => trade(monitor, hand),
    }
}

/// What a worker does on the monitor: it reports its channels, closes or begins a cycle, or trades credit.
pub fn monitor_event(monitor: &mut Monitor, hand: &mut Hand) -> Event
    ensures step { monitor_step monitor.old hand.old result ≡ Some (monitor.new, hand.new) }
    ensures worker { is_worker result ≡ true }
    ensures early { IsEarly (OfMonitor monitor.old) result }
{
    if hand.has_begun(0) {
        monitor.report_begun(hand, 0);
        return Event::ReportBegun(0);
    }
    if hand.has_begun(1) {
        monitor.report_begun(hand, 1);
        return Event::ReportBegun(1);
    }
    if hand.has_swept(0) {
        monitor.report_swept(hand, 0);
        return Event::ReportSwept(0);
    }
    if hand.has_swept(1) {
        monitor.report_swept(hand, 1);
        return Event::ReportSwept(1);
    }
    turn_cycle(monitor, hand)
}

/// What the session does on the monitor where it begins no store: it ends the open one where that is whole, or trades credit.
pub fn session_event(monitor: &mut Monitor, hand: &mut Hand) -> Event
    ensures step { monitor_step monitor.old hand.old result ≡ Some (monitor.new, hand.new) }
    ensures free { is_free result ≡ true }
{
    if hand.is_complete() && monitor.stores_ended() < monitor.stores_begun() {
        monitor.store_end(hand);
        return Event::StoreEnd;
    }
    trade(monitor, hand)
}
