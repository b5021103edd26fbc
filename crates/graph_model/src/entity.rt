ghost use Rattle.std.specs.Prelude.{◌≡◌, ◌≤◌, ◌++◌, ◌==◌, length, ◌↔◌, nat_lt, slice_get, option_copied, IsTrue, IsSomeAnd, IfOk, OnOk, OnErr};
ghost use Rattle.std.specs.List.{prefix_len};
ghost use Rattle.graph_model.specs.Graph.{entity_of, edges, put, put_all, without};

use crate::lists::{Bytes, Ids};
use crate::memory::NoMemory;
use std::alloc::{AllocError, Global};
use std::marker::Model;

/// An entity without its id: its type, its references in order, and its other bytes. The reference 0 is none.
#[derive(Clone, Debug, Drop)]
pub struct Entity {
    pub type_id: u64,
    pub refs: Ids,
    pub plain: Bytes,
}

impl Entity {
    /// Puts the edges at the end of a list. With no memory, some are there.
    pub fn push_edges(&self, ids: &mut Vec<u64>) -> Result<(), NoMemory>
        ensures { OnOk result (ids.new.items ≡ ids.old.items ++ edges self.now) }
    {
        for id in self.refs.as_slice() {
            if *id != 0 {
                ids.push(*id)?;
            }
        }
        Ok(())
    }
}

/// An entity with its id.
#[derive(Clone, Debug, Drop)]
pub struct Record {
    pub id: u64,
    pub entity: Entity,
}

/// Records in order, which contracts see as a list.
#[derive(Debug, Drop)]
pub struct Records {
    items: Vec<Record>,
}

impl Model for Records {
    ghost use Rattle.std.specs.Prelude.{List};
    ghost use Rattle.graph_model.specs.declared.entity.Record.{Record};

    ghost Value = { List Record };

    ghost view = { λ records. records.items.items };
}

impl Clone for Records {
    ghost is_clone = { λ records copy. copy ≡ records };

    fn clone(&self) -> Result<Records, AllocError> {
        Records::copy_of(*self.items.allocator(), self.items.as_slice())
    }
}

impl Records {
    pub fn new(items: Vec<Record>) -> Records
        ensures { result ≡ items.items }
    {
        Records { items }
    }

    /// A copy of the records.
    pub fn copy_of(alloc: Global, records: &[Record]) -> Result<Records, AllocError>
        ensures { IfOk result (λ copy. copy ≡ records.now) }
    {
        let mut items = Vec::with_capacity(alloc, records.len())?;
        for record in records {
            items.push(record.clone()?)?;
        }
        Ok(Records { items })
    }

    pub fn as_slice(&self) -> &[Record]
        ensures { result.now ≡ self.now }
    {
        self.items.as_slice()
    }

    pub fn into_vec(self) -> Vec<Record>
        ensures { result.items ≡ self }
    {
        self.items
    }

    pub fn len(&self) -> usize
        ensures { result ≡ length self.now }
    {
        self.items.len()
    }

    pub fn is_empty(&self) -> bool
        ensures { result ≡ (length self.now == 0) }
    {
        self.items.is_empty()
    }

    /// The entity of the first record of an id. It looks at one record after another.
    pub fn get(&self, id: u64) -> Option<&Entity>
        ensures { option_copied result ≡ entity_of self.now id }
    {
        for record in &self.items {
            if record.id == id {
                return Some(&record.entity);
            }
        }
        None
    }

    /// Puts a record in its place by id, in the stead of the one of the same id. It looks at one record after another.
    pub fn put(&mut self, record: Record) -> Result<(), NoMemory>
        ensures ok { OnOk result (self.new ≡ put «record» self.old) }
        ensures err { OnErr result (self.new ≡ self.old) }
    {
        let place = place_of(self.items.as_slice(), record.id);
        if has_at(self.items.as_slice(), place, record.id) {
            self.items[place] = record;
        } else {
            self.items.insert(place, record)?;
        }
        Ok(())
    }

    /// Puts each record in its place. Of records of one id the first stays. With no memory, some are in place.
    pub fn put_all(&mut self, records: &Records) -> Result<(), NoMemory>
        ensures { OnOk result (self.new ≡ put_all records.now self.old) }
    {
        let records = records.as_slice();
        let mut left = records.len();
        while left > 0 {
            left -= 1;
            self.put(records[left].clone()?)?;
        }
        Ok(())
    }

    /// Takes out the records of an id.
    pub fn remove(&mut self, id: u64)
        ensures { self.new ≡ without id self.old }
    {
        self.items.retain(|record| record.id != id);
    }
}

/// How many records at the front have an id below the given one.
fn place_of(records: &[Record], id: u64) -> usize
    ensures within { result ≤ length records.now }
    ensures exact { result ≡ prefix_len (λ r. nat_lt r.id id) records.now }
{
    records.iter().take_while(|record| record.id < id).count()
}

/// One store: entities by rising id, and the next id that is free after it.
#[derive(Clone, Debug, Drop)]
pub struct StoreOp {
    pub records: Records,
    pub next_id: u64,
}

/// Whether the record at the place has the id.
fn has_at(records: &[Record], place: usize, id: u64) -> bool
    ensures { IsTrue result ↔ IsSomeAnd (slice_get records.now place) (λ r. r.id ≡ id) }
{
    match records.get(place) {
        Some(record) => record.id == id,
        None => false,
    }
}
