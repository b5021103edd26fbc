//! The table.

ghost use Rattle.std.specs.Prelude.{◌≡◌, ◌+◌, ◌-◌, ◌/◌, ◌^◌, ◌<◌, ◌≤◌, [], length, replicate, IfOk, is_some, IsNone, IsSome, IfSome, IfNone, OnOk, OnErr, OnSome, IsOk, Some, option_copied, option_map, slice_index_or, if◌then◌else◌};
ghost use Rattle.std.specs.Option.{option_copied_mut};
ghost use Rattle.std.specs.Borrow.{sem};
ghost use Rattle.std.specs.FinMap as map;
ghost use Rattle.oid_table.specs.declared.slot.Slot.TheVariants.{Empty};
ghost use Rattle.oid_table.specs.Table.{value_at, key_at, value_at_place, IsPlaced, KeepsPlaces};

use crate::memory::NoMemory;
use crate::probing::{close_gap, refill, search};
use crate::slot::Slot;
use std::alloc::Global;
use std::marker::Model;
use std::mem;

/// The fewest places of a table that has any.
const FEWEST_PLACES: usize = 8;

/// Values by number, found in expected constant time.
///
/// An insertion takes no memory: `reserve` makes the room for it.
#[derive(Drop)]
pub struct OidTable<V> {
    alloc: Global,
    // None, or a power of two of them, of which at most three quarters are full.
    slots: Vec<Slot<V>>,
    len: usize,
    spare: usize,
}

impl<V> Model for OidTable<V> {
    ghost use Rattle.std.specs.Prelude.{map};
    ghost use Rattle.oid_table.specs.Table.{Table, table_code};

    ghost Value = { Table V };

    ghost coded = { table_code V.code };

    ghost use Rattle.oid_table.specs.Slots.{contents_of, key_of};
    ghost use Rattle.oid_table.specs.Sound.{IsSound};

    ghost view = { λ t. record {
      contents = contents_of t.slots.items;
      keys = map key_of t.slots.items;
      spare = t.spare;
    } };

    ghost invariant = { λ t. IsSound t.slots.items t.len t.spare };
}

impl<V: Drop> OidTable<V> {
    ghost use Rattle.oid_table.specs.Lends.{LendsGet, LendsPlace};

    /// An empty table, which takes no memory.
    pub fn new(alloc: Global) -> OidTable<V>
        ensures contents { result.contents ≡ map.empty }
        ensures places { result.keys ≡ [] }
        ensures spare { result.spare ≡ 0 }
    {
        OidTable {
            alloc,
            slots: Vec::new(alloc),
            len: 0,
            spare: 0,
        }
    }

    /// The number of keys.
    pub fn len(&self) -> u64
        ensures { result ≡ map.len self.now.contents }
    {
        self.len as u64
    }

    /// Makes room for so many new keys. Where there was room already, nothing changes and no memory is
    /// taken.
    pub fn reserve(&mut self, n: u64) -> Result<(), NoMemory>
        ensures room { OnOk result (n ≤ self.new.spare) }
        ensures contents { self.new.contents ≡ self.old.contents }
        ensures spare { self.old.spare ≤ self.new.spare }
        ensures ready { n ≤ self.old.spare → IsOk result }
        ensures unchanged { n ≤ self.old.spare → self.new ≡ self.old }
        ensures err { OnErr result (self.new ≡ self.old) }
    {
        if n <= self.spare as u64 {
            return Ok(());
        }
        let places = places_for(self.len, n as usize).ok_or(NoMemory)?;
        let slots = empty_slots(self.alloc, places)?;
        let old = mem::replace(&mut self.slots, slots);
        refill(&mut self.slots, old);
        self.spare = capacity(places) - self.len;
        Ok(())
    }

    /// Gives a key a value, and answers the one that it had. Takes no memory.
    pub fn insert(&mut self, key: u64, value: V) -> Option<V>
        requires { IsNone (value_at self.old key) → 0 < self.old.spare }
        ensures old { result ≡ value_at self.old key }
        ensures contents { self.new.contents ≡ map.insert self.old.contents key value }
        ensures spare { self.new.spare + (if is_some result then 0 else 1) ≡ self.old.spare }
        ensures places { KeepsPlaces self.old self.new }
        ensures fits { map.len self.new.contents < 2 ^ 64 }
    {
        match search(&self.slots, key) {
            Ok(place) => mem::replace(&mut self.slots[place], Slot::Full(key, value)).into_value(),
            Err(place) => {
                self.slots[place] = Slot::Full(key, value);
                self.len += 1;
                self.spare -= 1;
                None
            }
        }
    }

    fn place_of(&self, key: u64) -> Option<usize>
        ensures found { IfSome result (λ place. key_at self.now place ≡ Some key) }
        ensures absent { IfNone result (value_at self.now key ≡ None) }
    {
        if self.len == 0 {
            return None;
        }
        search(&self.slots, key).ok()
    }

    /// The value of a key.
    pub fn get(&self, key: u64) -> Option<&V>
        ensures { option_copied result ≡ value_at self.now key }
    {
        let place = self.place_of(key)?;
        self.slots[place].value()
    }

    fn value_mut(&mut self, place: usize) -> &mut V
        requires { IsSome (key_at self.old place) }
        ensures* writes_back { sem 𝓛 (LendsPlace V.row self.entry place result) }
        ensures value { value_at_place self.old place ≡ Some result.now }
    {
        self.slots[place].value_mut()
    }

    /// The value of a key, for writing.
    pub fn get_mut(&mut self, key: u64) -> Option<&mut V>
        ensures* writes_back { sem 𝓛 (LendsGet V.row self.entry key result) }
        ensures value { option_copied_mut result ≡ value_at self.old key }
    {
        match self.place_of(key) {
            Some(place) => Some(self.value_mut(place)),
            None => None,
        }
    }

    /// Takes a key out, and answers the value that it had. Other keys may go to other places.
    pub fn remove(&mut self, key: u64) -> Option<V>
        ensures removed { result ≡ value_at self.old key }
        ensures contents { self.new.contents ≡ map.remove self.old.contents key }
        ensures spare { self.new.spare ≡ self.old.spare + (if is_some result then 1 else 0) }
        ensures places { length self.new.keys ≡ length self.old.keys }
        ensures absent { IfNone result (self.new ≡ self.old) }
    {
        let place = self.place_of(key)?;
        let removed = mem::replace(&mut self.slots[place], Slot::Empty);
        close_gap(&mut self.slots, place);
        self.len -= 1;
        self.spare += 1;
        removed.into_value()
    }

    /// The number of places. Each key stands at one of them.
    pub fn places(&self) -> u64
        ensures count { result ≡ length self.now.keys }
        ensures placed { IsPlaced self.now }
    {
        self.slots.len() as u64
    }

    /// The key that stands at a place, with its value. `None` also past the last place.
    pub fn entry_at(&self, place: u64) -> Option<(u64, &V)>
        ensures key { option_map (λ entry. entry.0) result ≡ key_at self.now place }
        ensures value { IfSome result (λ entry. value_at self.now entry.0 ≡ Some entry.1.now) }
    {
        self.slots.get(place as usize)?.entry()
    }
}

/// How many keys so many places hold.
fn capacity(places: usize) -> usize
    ensures { result ≡ places - places / 4 }
{
    places - places / 4
}

/// The least power of two that holds so many keys and as many more, and else twice as many: then the
/// next time that there is no room is far off. `None` where no `usize` does.
fn places_for(keys: usize, more: usize) -> Option<usize>
    ensures enough { IfSome result (λ places. keys + more ≤ places - places / 4) }
    ensures several { IfSome result (λ places. 8 ≤ places) }
{
    let wanted = keys.checked_add(more)?.max(keys.saturating_mul(2));
    let mut places = FEWEST_PLACES;
    'double: while capacity(places) < wanted {
        places = places.checked_mul(2)?;
    }
    Some(places)
}

fn empty_slots<V: Drop>(alloc: Global, places: usize) -> Result<Vec<Slot<V>>, NoMemory>
    ensures { IfOk result (λ slots. slots.items ≡ replicate places Empty) }
{
    let mut slots = Vec::with_capacity(alloc, places)?;
    for _place in 0..places {
        slots.push(Slot::Empty)?;
    }
    Ok(slots)
}
