//! A storage in memory, which writes down what it is asked.

ghost use Rattle.std.specs.Prelude.{IfOk};
ghost use Rattle.session.specs.Fitting.{IsReplyTo};

use graph_model::{Ask, Bytes, Entity, NoMemory, Record, Records, Reply, StoreOp};
use std::alloc::{AllocError, AllocFailed, Global};
use type_dictionary::Dictionary;

/// Why a line has no answer.
#[derive(Clone, Copy, Debug, PartialEq, Eq, Drop)]
pub enum Halt {
    NoMemory,
    /// An entity is asked for that was not stored.
    NotStored,
    /// A record of a type is none.
    NoType,
    /// The session says that the entity of this id has not its type's form.
    Broken { id: u64 },
    /// A line has more steps than any line here.
    TooManySteps,
}

impl From<AllocError> for Halt {
    fn from(_: AllocError) -> Self {
        Halt::NoMemory
    }
}

impl<T: Drop> From<AllocFailed<T>> for Halt {
    fn from(_: AllocFailed<T>) -> Self {
        Halt::NoMemory
    }
}

impl From<NoMemory> for Halt {
    fn from(_: NoMemory) -> Self {
        Halt::NoMemory
    }
}

/// How many entities it says that it keeps.
const KEPT: u64 = 7;

/// Keeps entities by id and records of types, and does nothing else for a session.
#[derive(Drop)]
pub struct MemStorage {
    pub alloc: Global,
    pub entities: Records,
    pub types: Vec<Bytes>,
    pub next_id: u64,
    /// The number of the last store.
    pub number: u64,
    /// What it was asked, a line each: a word and ids, or a word and a record.
    pub asked: Vec<u8>,
}

impl MemStorage {
    /// A storage with nothing in it.
    pub fn new(alloc: Global) -> MemStorage {
        MemStorage {
            alloc,
            entities: Records::new(Vec::new(alloc)),
            types: Vec::new(alloc),
            next_id: 1024,
            number: 0,
            asked: Vec::new(alloc),
        }
    }

    /// The dictionary of the types that it keeps.
    pub fn dictionary(&self) -> Result<Dictionary, Halt> {
        let mut dictionary = Dictionary::new(self.alloc);
        for record in &self.types {
            if dictionary.add_record(record.as_slice()).is_err() {
                return Err(Halt::NoType);
            }
        }
        Ok(dictionary)
    }

    fn note(&mut self, text: &[u8]) -> Result<(), Halt> {
        self.asked.extend_from_slice(text)?;
        Ok(())
    }

    fn note_id(&mut self, id: u64) -> Result<(), Halt> {
        let text = format!(in self.alloc; " {id}")?;
        self.note(text.as_bytes())
    }

    fn note_ids(&mut self, word: &[u8], ids: &[u64]) -> Result<(), Halt> {
        self.note(word)?;
        for id in ids {
            self.note_id(*id)?;
        }
        self.note(b"\n")
    }

    fn look(&mut self, id: u64) -> Result<Entity, Halt> {
        self.note_ids(b"look", &[id])?;
        match self.entities.get(id) {
            Some(entity) => Ok(entity.clone()?),
            None => Err(Halt::NotStored),
        }
    }

    fn store(&mut self, store: &StoreOp) -> Result<u64, Halt> {
        self.note(b"store")?;
        for record in store.records.as_slice() {
            self.note_id(record.id)?;
        }
        self.note(b"\n")?;
        self.entities.put_all(&store.records)?;
        self.next_id = store.next_id;
        self.number = self.number.saturating_add(1);
        Ok(self.number)
    }

    fn keep_type(&mut self, record: Bytes) -> Result<(), Halt> {
        self.note(b"type ")?;
        self.note(record.as_slice())?;
        self.note(b"\n")?;
        self.types.push(record)?;
        Ok(())
    }

    /// The reply to what is asked.
    pub fn reply(&mut self, ask: Ask) -> Result<Reply, Halt>
        ensures { IfOk result (IsReplyTo ask) }
    {
        match ask {
            Ask::Look(id) => Ok(Reply::Found(self.look(id)?)),
            Ask::Hold(ids) => {
                self.note_ids(b"hold", ids.as_slice())?;
                Ok(Reply::Held)
            }
            Ask::Release(ids) => {
                self.note_ids(b"release", ids.as_slice())?;
                Ok(Reply::Released)
            }
            Ask::Store(store) => Ok(Reply::Stored(self.store(&store)?)),
            Ask::KeepType(record) => {
                self.keep_type(record)?;
                Ok(Reply::TypeKept)
            }
            Ask::Collect => {
                self.note(b"collect\n")?;
                Ok(Reply::Count(KEPT))
            }
            Ask::Tidy => {
                self.note(b"tidy\n")?;
                Ok(Reply::Tidied)
            }
        }
    }
}
