use core_hands::{ChannelSet, Hand};

#[test]
fn sets_have_what_was_put_in(rt: HostRuntime) {
    let mut set = ChannelSet::new();
    set.add(63);
    set.add(2);
    assert!(rt; set.contains(63));
    assert!(rt; !set.contains(0));
    assert!(rt; !ChannelSet::below(63).includes(&set));
    set.remove(63);
    assert!(rt; ChannelSet::below(3).includes(&set));
    assert!(rt; !set.includes(&ChannelSet::below(3)));
}

#[test]
fn hands_hold_what_they_are_given(rt: HostRuntime) {
    let mut hand = Hand::new(rt.alloc()).expect(&rt, "memory");
    hand.gain(5);
    hand.spend(2);
    assert_eq!(rt; (hand.credit(), hand.room()), (3, 131_072));
    hand.see(7, true, 9);
    assert_eq!(rt;
        (hand.cycle_seen(), hand.closed_seen(), hand.ended_seen()),
        (7, true, 9)
    );
    hand.note_begun(1);
    hand.note_swept(2);
    assert!(rt; hand.has_begun(1) && hand.has_swept(2));
    hand.give_begun(1);
    hand.give_swept(2);
    assert!(rt; !hand.has_begun(1) && !hand.has_swept(2));
}

#[test]
fn a_store_is_complete_with_all_its_parts(rt: HostRuntime) {
    let mut hand = Hand::new(rt.alloc()).expect(&rt, "memory");
    assert!(rt; !hand.is_complete());
    hand.open_store(6, ChannelSet::below(2));
    assert_eq!(rt; hand.open_number(), Some(6));
    hand.give_part(1);
    assert!(rt; hand.is_in_store(0) && !hand.is_in_store(2));
    assert!(rt; hand.has_part(1) && !hand.has_part(0) && !hand.is_complete());
    hand.give_part(0);
    assert!(rt; hand.is_complete());
    hand.end_store();
    assert_eq!(rt; hand.open_number(), None);
}
