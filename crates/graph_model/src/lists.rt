ghost use Rattle.std.specs.Prelude.{◌≡◌, ◌==◌, length, nat_lt, nat_eq, OnOk, OnErr};
ghost use Rattle.std.specs.List.{take_while, position};
ghost use Rattle.graph_model.specs.Ids.{has, insert, add, remove};

use crate::memory::NoMemory;
use std::alloc::AllocError;
use std::marker::Model;

/// Ids in order, which contracts see as a list.
#[derive(Debug, Drop)]
pub struct Ids {
    items: Vec<u64>,
}

impl Model for Ids {
    ghost use Rattle.std.specs.Prelude.{List, ℕ};

    ghost Value = { List ℕ };

    ghost view = { λ ids. ids.items.items };
}

impl Clone for Ids {
    ghost is_clone = { λ ids copy. copy ≡ ids };

    fn clone(&self) -> Result<Ids, AllocError> {
        let items = Vec::from_slice(*self.items.allocator(), self.items.as_slice())?;
        Ok(Ids { items })
    }
}

impl Ids {
    pub fn new(items: Vec<u64>) -> Ids
        ensures { result ≡ items.items }
    {
        Ids { items }
    }

    pub fn as_slice(&self) -> &[u64]
        ensures { result.now ≡ self.now }
    {
        self.items.as_slice()
    }

    pub fn into_vec(self) -> Vec<u64>
        ensures { result.items ≡ self }
    {
        self.items
    }

    pub fn len(&self) -> usize
        ensures { result ≡ length self.now }
    {
        self.items.len()
    }

    pub fn is_empty(&self) -> bool
        ensures { result ≡ (length self.now == 0) }
    {
        self.items.is_empty()
    }

    /// Whether the id is in the list.
    pub fn contains(&self, id: u64) -> bool
        ensures { result ≡ has id self.now }
    {
        self.items.contains(&id)
    }

    /// Puts the id in front of the first that is not below it.
    pub fn insert(&mut self, id: u64) -> Result<(), NoMemory>
        ensures ok { OnOk result (self.new ≡ insert id self.old) }
        ensures err { OnErr result (self.new ≡ self.old) }
    {
        let place = place_of(self.items.as_slice(), id);
        self.items.insert(place, id)?;
        Ok(())
    }

    /// Puts the id into the list where it isn't there.
    pub fn add(&mut self, id: u64) -> Result<(), NoMemory>
        ensures ok { OnOk result (self.new ≡ add id self.old) }
        ensures err { OnErr result (self.new ≡ self.old) }
    {
        if self.contains(id) {
            Ok(())
        } else {
            self.insert(id)
        }
    }

    /// Takes the id out of the list once, where it is there.
    pub fn remove(&mut self, id: u64)
        ensures { self.new ≡ remove id self.old }
    {
        if let Some(place) = index_of(self.items.as_slice(), id) {
            self.items.remove(place);
        }
    }
}

/// How many ids at the front are below the id.
fn place_of(items: &[u64], id: u64) -> usize
    ensures { result ≡ length (take_while (λ x. nat_lt x id) items.now) }
{
    items.iter().take_while(|x| **x < id).count()
}

/// Where the id stands first.
fn index_of(items: &[u64], id: u64) -> Option<usize>
    ensures { result ≡ position (λ x. nat_eq x id) items.now }
{
    items.iter().position(|x| *x == id)
}

/// Bytes, which contracts see as a list.
#[derive(Debug, Drop)]
pub struct Bytes {
    items: Vec<u8>,
}

impl Model for Bytes {
    ghost use Rattle.std.specs.Prelude.{List, ℕ};

    ghost Value = { List ℕ };

    ghost view = { λ bytes. bytes.items.items };
}

impl Clone for Bytes {
    ghost is_clone = { λ bytes copy. copy ≡ bytes };

    fn clone(&self) -> Result<Bytes, AllocError> {
        let items = Vec::from_slice(*self.items.allocator(), self.items.as_slice())?;
        Ok(Bytes { items })
    }
}

impl Bytes {
    pub fn new(items: Vec<u8>) -> Bytes
        ensures { result ≡ items.items }
    {
        Bytes { items }
    }

    pub fn as_slice(&self) -> &[u8]
        ensures { result.now ≡ self.now }
    {
        self.items.as_slice()
    }

    pub fn into_vec(self) -> Vec<u8>
        ensures { result.items ≡ self }
    {
        self.items
    }

    pub fn len(&self) -> usize
        ensures { result ≡ length self.now }
    {
        self.items.len()
    }

    pub fn is_empty(&self) -> bool
        ensures { result ≡ (length self.now == 0) }
    {
        self.items.is_empty()
    }
}
