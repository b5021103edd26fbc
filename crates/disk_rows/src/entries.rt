use tx_entry::{Entry, read_entry, write_entry};

/// The entries of a channel's first store, and one of each other kind, with their payloads.
const CREATION: [u8; 9] = [1, 2, 0, 0, 0, 0, 0, 0, 0];

const STORE: [u8; 41] = [
    2, 1, 0, 0, 0, 0, 0, 0, 0, 2, 0, 0, 0, 0, 0, 0, 0, 0, 0, 0, 0, 0, 0, 0, 0, 56, 0, 0, 0, 0, 0,
    0, 0, 1, 4, 0, 0, 0, 0, 0, 0,
];

const TRANSFER: [u8; 33] = [
    3, 2, 0, 0, 0, 0, 0, 0, 0, 3, 0, 0, 0, 0, 0, 0, 0, 40, 0, 0, 0, 0, 0, 0, 0, 40, 0, 0, 0, 0, 0,
    0, 0,
];

const TRUNCATION: [u8; 25] = [
    4, 3, 0, 0, 0, 0, 0, 0, 0, 0, 1, 0, 0, 0, 0, 0, 0, 255, 255, 255, 255, 255, 255, 255, 255,
];

const DELETION: [u8; 9] = [5, 2, 0, 0, 0, 0, 0, 0, 0];

#[test]
fn each_kind_is_written_and_read(rt: HostRuntime) {
    let cases: [(Entry, &[u8]); 5] = [
        (Entry::Creation { file: 2 }, &CREATION),
        (
            Entry::Store {
                number: 1,
                file: 2,
                at: 0,
                length: 56,
                next_id: 1025,
            },
            &STORE,
        ),
        (
            Entry::Transfer {
                source: 2,
                file: 3,
                at: 40,
                length: 40,
            },
            &TRANSFER,
        ),
        (
            Entry::Truncation {
                file: 3,
                new_length: 256,
                dropped: u64::MAX,
            },
            &TRUNCATION,
        ),
        (Entry::Deletion { file: 2 }, &DELETION),
    ];
    for (entry, payload) in &cases {
        let mut out = [7; 41];
        let length = write_entry(entry, &mut out);
        assert_eq!(rt; &out[..length], *payload);
        assert_eq!(rt; read_entry(payload), Ok(*entry));
    }
}
