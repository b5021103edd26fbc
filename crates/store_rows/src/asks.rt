//! Lines, and what is asked for them.

use crate::answering::{Row, asked};
use crate::mem_storage::MemStorage;
use std::test::Fail;

/// Over nothing.
const FIRST: [Row; 17] = [
    ("type Node int:v lazy:far", "type 16 Node{int v,lazy far}\n"),
    ("type Node int:v lazy:far", ""),
    ("new a Node", ""),
    ("root a", ""),
    ("store root", "store 1 1024\n"),
    ("store root", "store 1\n"),
    ("new b Node", ""),
    ("set a far b", ""),
    ("follow a far c", ""),
    ("store root", "store 1\n"),
    ("store a", "store 1024 1025\n"),
    ("store-all root", "store 1 1024 1025\n"),
    ("store d", ""),
    ("drop b", ""),
    ("collect", "collect\n"),
    ("tidy", "tidy\n"),
    ("show a", ""),
];

/// Over what that stored.
const AGAIN: [Row; 10] = [
    ("type Leaf", "type 17 Leaf{}\n"),
    ("refactor Node.v Node.w", ""),
    ("home a", "look 1\nlook 1024\nhold 1 1024\n"),
    ("show a", ""),
    ("follow a far b", "look 1025\nhold 1025\n"),
    ("follow a far c", ""),
    ("drop b", ""),
    ("drop c", ""),
    ("forget", "release 1025\n"),
    ("follow a far b", "look 1025\nhold 1025\n"),
];

#[test]
fn what_is_asked(rt: HostRuntime) -> Result<(), Fail> {
    let mut storage = MemStorage::new(rt.alloc());
    for rows in [FIRST.as_slice(), AGAIN.as_slice()] {
        assert_eq!(rt; asked(&mut storage, rows)?, rows.len());
    }
    Ok(())
}
