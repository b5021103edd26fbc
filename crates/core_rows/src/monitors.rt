use core_hands::Hand;
use mark_monitor::{Monitor, MonitorFault};

#[test]
fn a_cycle_closes_once_nothing_is_out(rt: HostRuntime) {
    let mut hand = Hand::new(rt.alloc()).expect(&rt, "memory");
    let mut monitor = Monitor::new(2, 5);
    assert_eq!(rt; monitor.begin_cycle(&mut hand), Ok(()));
    assert_eq!(rt; (monitor.stores_begun(), monitor.stores_ended()), (5, 5));
    assert_eq!(rt; monitor.store_begin(&mut hand), 6);
    assert!(rt; !monitor.is_closed());
    let open = Err(MonitorFault::StoreOpen { number: 6 });
    assert_eq!(rt; monitor.close_cycle(&mut hand), open);
    assert_eq!(rt; (hand.credit(), monitor.pending()), (0, 0));
    monitor.reserve(&mut hand, 2);
    assert!(rt; !monitor.is_closed());
    let pending = Err(MonitorFault::Pending { n: 2 });
    assert_eq!(rt; monitor.close_cycle(&mut hand), pending);
    assert_eq!(rt; hand.credit(), 2);
    monitor.give_back(&mut hand, 2);
    assert_eq!(rt; monitor.pending(), 0);
    hand.give_part(0);
    hand.give_part(1);
    assert!(rt; hand.is_complete());
    assert!(rt; monitor.stores_ended() < monitor.stores_begun());
    monitor.store_end(&mut hand);
    assert_eq!(rt; (hand.ended_seen(), monitor.stores_ended()), (6, 6));
}

#[test]
fn cycles_wait_for_reports(rt: HostRuntime) {
    let mut hand = Hand::new(rt.alloc()).expect(&rt, "memory");
    let mut monitor = Monitor::new(2, 5);
    assert_eq!(rt; monitor.begin_cycle(&mut hand), Ok(()));
    assert!(rt; !monitor.is_closed());
    let not_begun = Err(MonitorFault::NotBegun { channel: 0 });
    assert_eq!(rt; monitor.close_cycle(&mut hand), not_begun);
    hand.note_begun(0);
    hand.note_begun(1);
    assert!(rt; hand.has_begun(0));
    monitor.report_begun(&mut hand, 0);
    assert!(rt; hand.has_begun(1));
    monitor.report_begun(&mut hand, 1);
    assert!(rt; !monitor.is_closed());
    assert_eq!(rt; monitor.close_cycle(&mut hand), Ok(()));
    assert_eq!(rt; (hand.cycle_seen(), hand.closed_seen()), (1, true));
    hand.note_swept(1);
    assert!(rt; hand.has_swept(1));
    monitor.report_swept(&mut hand, 1);
    assert!(rt; monitor.is_closed());
    assert_eq!(rt; monitor.cycle(), 1);
    let not_swept = Err(MonitorFault::NotSwept { channel: 0 });
    assert_eq!(rt; monitor.begin_cycle(&mut hand), not_swept);
}
