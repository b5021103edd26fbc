//! Where a key stands among slots: linear probing from a home place, over the end to the first place.

ghost use Rattle.std.specs.Prelude.{◌≡◌, ◌+◌, ◌<◌, ◌≤◌, length, Some, None, MatchResult, count_by, slice_get, replicate};
ghost use Rattle.std.specs.FinMap.{get, insert};
ghost use Rattle.oid_table.specs.declared.slot.Slot.TheVariants.{Empty};
ghost use Rattle.oid_table.specs.Distances.{distance, next_place, home_of};
ghost use Rattle.oid_table.specs.Slots.{HasEmpty, HasOtherEmpty, contents_of, is_full};
ghost use Rattle.oid_table.specs.Sound.{IsReached, IsReachedBut, IsSearched};

use crate::slot::Slot;
use std::mem;

/// The odd number next to 2^64 over the golden ratio.
const MULTIPLIER: u64 = 0x9E37_79B9_7F4A_7C15;

/// The place where a search for a key begins. The number of places is a power of two.
#[tactic(auto, unfolding(crate::specs::Distances::home_of))]
fn home(key: u64, places: usize) -> usize
    requires { 0 < places }
    ensures value { result ≡ home_of places key }
    ensures within { result < places }
{
    let scattered = key.wrapping_mul(MULTIPLIER);
    (scattered ^ (scattered >> 32)) as usize & (places - 1)
}

/// How many steps it is from one place to another.
fn distance(from: usize, to: usize, places: usize) -> usize
    requires from { from < places }
    requires to { to < places }
    ensures value { result ≡ distance places from to }
    ensures within { result < places }
{
    if from <= to {
        to - from
    } else {
        (places - from) + to
    }
}

/// The place one step on.
fn next(place: usize, places: usize) -> usize
    requires { place < places }
    ensures value { result ≡ next_place places place }
    ensures within { result < places }
{
    if place + 1 == places { 0 } else { place + 1 }
}

/// The place where a key stands, or else the empty one where it may be put.
pub(crate) fn search<V>(slots: &[Slot<V>], key: u64) -> Result<usize, usize>
    requires reached { IsReached slots.now }
    requires empty { HasEmpty slots.now }
    ensures searched { IsSearched slots.now key result }
    ensures inside { MatchResult result (λ place. place < length slots.now) (λ place. place < length slots.now) }
{
    let places = slots.len();
    let mut place = home(key, places);
    'probe: loop {
        match &slots[place] {
            Slot::Empty => return Err(place),
            Slot::Full(stored, _) if *stored == key => return Ok(place),
            Slot::Full(..) => place = next(place, places),
        }
    }
}

/// Moves keys back over a gap, so that a search for each of them is reached again.
pub(crate) fn close_gap<V: Drop>(slots: &mut [Slot<V>], gap: usize)
    requires gap { slice_get slots.old gap ≡ Some Empty }
    requires reached { IsReachedBut gap slots.old }
    requires other { HasOtherEmpty slots.old gap }
    ensures reached { IsReached slots.new }
    ensures contents { contents_of slots.new ≡ contents_of slots.old }
    ensures count { count_by is_full slots.new ≡ count_by is_full slots.old }
{
    let places = slots.len();
    let mut gap = gap;
    let mut place = next(gap, places);
    'scan: while let Slot::Full(key, _) = &slots[place] {
        let home = home(*key, places);
        if distance(home, gap, places) < distance(home, place, places) {
            slots.swap(gap, place);
            gap = place;
        }
        place = next(place, places);
    }
}

/// Puts a key that stands nowhere, with its value, where a search for it ends.
fn put_new<V: Drop>(slots: &mut [Slot<V>], key: u64, value: V)
    requires reached { IsReached slots.old }
    requires empty { HasEmpty slots.old }
    requires new { get (contents_of slots.old) key ≡ None }
    ensures reached { IsReached slots.new }
    ensures contents { contents_of slots.new ≡ insert (contents_of slots.old) key value }
    ensures count { count_by is_full slots.new ≡ count_by is_full slots.old + 1 }
    ensures len { length slots.new ≡ length slots.old }
{
    match search(slots, key) {
        Ok(_) => unreachable!(),
        Err(place) => slots[place] = Slot::Full(key, value),
    }
}

/// Puts the keys of old slots, with their values, into slots that are all empty.
pub(crate) fn refill<V: Drop>(slots: &mut [Slot<V>], old: Vec<Slot<V>>)
    requires empty { slots.old ≡ replicate (length slots.old) Empty }
    requires reached { IsReached old.items }
    requires room { count_by is_full old.items < length slots.old }
    ensures reached { IsReached slots.new }
    ensures contents { contents_of slots.new ≡ contents_of old.items }
    ensures count { count_by is_full slots.new ≡ count_by is_full old.items }
{
    let mut old = old;
    'keys: while let Some(slot) = old.pop() {
        if let Slot::Full(key, value) = slot {
            put_new(slots, key, value);
        }
    }
}
