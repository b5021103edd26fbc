//! The rows of a channel's live entities.

ghost use Rattle.std.specs.Prelude.{◌≡◌, ◌+◌, ◌-◌, ◌^◌, ◌<◌, ◌≤◌, ℕ, [], length, map, min, is_some, IsTrue, ◌↔◌, IsNone, IsSome, IfSome, IfNone, OnOk, OnErr, Some, option_copied, if◌then◌else◌};
ghost use Rattle.std.specs.List.Sorted.{IsStrictlyIncreasing};
ghost use Rattle.std.specs.FinMap as finite;
ghost use Rattle.oid_table.specs.Table.{value_at, key_at, IsPlaced, KeepsPlaces};
ghost use Rattle.entity_index.specs.Rows.{used_in, with_state, pinned, unpinned, ChangesRow, IsSparse, IsTooEmpty};

use crate::row::{Row, State};
use crate::tally::{FileUse, count_in, count_out};
use oid_table::{NoMemory, OidTable};
use std::alloc::Global;
use std::marker::Model;

/// The rows of live entities by id. It takes memory in `reserve` alone.
#[derive(Drop)]
pub struct EntityIndex {
    rows: OidTable<Row>,
    // What the rows use of each file that has one.
    used: OidTable<FileUse>,
}

impl Model for EntityIndex {
    ghost use Rattle.std.specs.Prelude.{◌+◌, ◌-◌, ◌≤◌, min};
    ghost use Rattle.std.specs.FinMap.{len};
    ghost use Rattle.oid_table.specs.Table.{Table, table_code};
    ghost use Rattle.entity_index.specs.declared.row.Row.{Row};
    ghost use Rattle.entity_index.specs.contracts.row.Row.{the_row};

    ghost Value = { Table Row };

    ghost coded = { table_code the_row.coded };

    ghost use Rattle.entity_index.specs.Tally.{IsTally};

    ghost view = { λ a. record {
      contents = a.rows.contents;
      keys = a.rows.keys;
      spare = min a.rows.spare ((len a.used.contents + a.used.spare) - len a.rows.contents);
    } };

    ghost invariant = { λ a. IsTally a.rows.contents a.used.contents × (len a.rows.contents ≤ len a.used.contents + a.used.spare) };
}

impl EntityIndex {
    /// An empty index, which takes no memory.
    pub fn new(alloc: Global) -> EntityIndex
        ensures rows { result.contents ≡ finite.empty }
        ensures places { result.keys ≡ [] }
        ensures spare { result.spare ≡ 0 }
    {
        EntityIndex {
            rows: OidTable::new(alloc),
            used: OidTable::new(alloc),
        }
    }

    /// Makes room for so many new ids. The rows stay either way.
    pub fn reserve(&mut self, n: u64) -> Result<(), NoMemory>
        ensures room { OnOk result (n ≤ self.new.spare) }
        ensures rows { self.new.contents ≡ self.old.contents }
        ensures spare { self.old.spare ≤ self.new.spare }
        ensures err { OnErr result (self.new.keys ≡ self.old.keys) }
    {
        // Each row may be in a file of its own.
        let files = self.rows.len() - self.used.len();
        self.used.reserve(files.checked_add(n).ok_or(NoMemory)?)?;
        self.rows.reserve(n)
    }

    /// Gives an id a row, in place of the one that it may have. Takes no memory.
    pub fn put(&mut self, id: u64, row: Row)
        requires { IsNone (value_at self.old id) → 0 < self.old.spare }
        ensures rows { self.new.contents ≡ finite.insert self.old.contents id row }
        ensures spare { self.new.spare + (if is_some (value_at self.old id) then 0 else 1) ≡ self.old.spare }
        ensures places { KeepsPlaces self.old self.new }
    {
        match self.rows.insert(id, row) {
            Some(old) => {
                count_out(&mut self.used, &old);
                count_in(&mut self.used, &row);
            }
            None => count_in(&mut self.used, &row),
        }
    }

    /// The row of an id.
    pub fn row(&self, id: u64) -> Option<&Row>
        ensures { option_copied result ≡ value_at self.now id }
    {
        self.rows.get(id)
    }

    /// Takes the row of an id out. Other ids may go to other places.
    pub fn take_out(&mut self, id: u64) -> Option<Row>
        ensures removed { result ≡ value_at self.old id }
        ensures rows { self.new.contents ≡ finite.remove self.old.contents id }
        ensures spare { self.new.spare ≡ self.old.spare + (if is_some result then 1 else 0) }
        ensures places { length self.new.keys ≡ length self.old.keys }
        ensures absent { IfNone result (self.new ≡ self.old) }
    {
        let row = self.rows.remove(id)?;
        count_out(&mut self.used, &row);
        Some(row)
    }

    /// Gives the row of an id another state.
    pub fn set_state(&mut self, id: u64, state: State)
        requires { IsSome (value_at self.old id) }
        ensures { ChangesRow self.old self.new id (with_state state) }
    {
        match self.rows.get_mut(id) {
            Some(row) => row.state = state,
            None => unreachable!(),
        }
    }

    /// Holds the entity of an id.
    pub fn pin(&mut self, id: u64)
        requires { IsSome (value_at self.old id) }
        ensures { ChangesRow self.old self.new id pinned }
    {
        match self.rows.get_mut(id) {
            Some(row) => row.state.pinned = true,
            None => unreachable!(),
        }
    }

    /// Lets go of the entity of an id.
    pub fn unpin(&mut self, id: u64)
        requires { IsSome (value_at self.old id) }
        ensures { ChangesRow self.old self.new id unpinned }
    {
        match self.rows.get_mut(id) {
            Some(row) => row.state.pinned = false,
            None => unreachable!(),
        }
    }

    /// The number of rows.
    pub fn len(&self) -> u64
        ensures { result ≡ finite.len self.now.contents }
    {
        self.rows.len()
    }

    /// The number of places. Each id stands at one of them.
    pub fn places(&self) -> u64
        ensures count { result ≡ length self.now.keys }
        ensures placed { IsPlaced self.now }
    {
        self.rows.places()
    }

    /// The id that stands at a place. `None` also past the last place.
    pub fn id_at(&self, place: u64) -> Option<u64>
        ensures { result ≡ key_at self.now place }
    {
        self.rows.entry_at(place).map(|entry| entry.0)
    }

    fn bytes_in(&self, file: u64) -> u128
        ensures { result ≡ used_in self.now.contents file }
    {
        match self.used.get(file) {
            Some(kept) => kept.bytes,
            None => 0,
        }
    }

    /// The bytes of a data file that rows take, or 2^64 - 1 where they are more.
    pub fn used(&self, file: u64) -> u64
        ensures { result ≡ min (used_in self.now.contents file) (2 ^ 64 - 1) }
    {
        u64::try_from(self.bytes_in(file)).unwrap_or(u64::MAX)
    }

    /// The least data file other than the head that is shorter than `minimum`, or of which the rows use
    /// less than `use_rate` per thousand. Each file is given by its number and length.
    pub fn sparse_file(
        &self,
        minimum: u64,
        use_rate: u64,
        head: u64,
        files: &[(u64, u64)],
    ) -> Option<u64>
        requires { IsStrictlyIncreasing (map (λ file. file.0) files.now) }
        ensures sparse { IfSome result (IsSparse self.now.contents minimum use_rate head files.now) }
        ensures least { IfSome result (λ file. (other : ℕ) → IsSparse self.now.contents minimum use_rate head files.now other → file ≤ other) }
        ensures none { IfNone result ((file : ℕ) → IsSparse self.now.contents minimum use_rate head files.now file → ⊥) }
    {
        for &(file, length) in files {
            if file != head && self.is_too_empty(minimum, use_rate, file, length) {
                return Some(file);
            }
        }
        None
    }

    fn is_too_empty(&self, minimum: u64, use_rate: u64, file: u64, length: u64) -> bool
        ensures { IsTrue result ↔ IsTooEmpty self.now.contents minimum use_rate file length }
    {
        if length < minimum {
            return true;
        }
        let due = u128::from(length) * u128::from(use_rate);
        self.bytes_in(file)
            .checked_mul(1000)
            .is_some_and(|used| used < due)
    }
}
