use store_agreement::{Disagree, Last, agree};
use tx_entry::Entry;

/// A log whose last entry is the Store of its last store.
fn stored(number: u64) -> Last {
    Last {
        number,
        last_entry: Some(Entry::Store {
            number,
            file: 2,
            at: 0,
            length: 56,
            next_id: 1025,
        }),
    }
}

/// A log whose last entry is none.
fn without_entry(number: u64) -> Last {
    Last {
        number,
        last_entry: None,
    }
}

#[test]
fn the_store_of_all_channels_is_found(rt: HostRuntime) {
    let lasts = [stored(8), stored(7), without_entry(7)];
    assert_eq!(rt; agree(&lasts), Ok(7));
    let apart = [stored(7), without_entry(8)];
    let disagree = Disagree {
        channel: 1,
        number: 8,
    };
    assert_eq!(rt; agree(&apart), Err(disagree));
}
