//! The dictionary of types.

ghost use Rattle.std.specs.Prelude.{◌≡◌, ◌↔◌, ◌+◌, ◌++◌, ◌∷◌, [], ◌<◌, ◌≤◌, ℕ, All, length, slice_get, option_copied, IfSome, IfOk, IfErr, IsOkAnd, IsSomeAnd, IsTrue, OnOk, OnErr, MatchOption};
ghost use Rattle.type_desc.specs.Grammar.{IsDesc, IsRecord, record_text};
ghost use Rattle.type_dictionary.specs.Declaring.{IsKnownAs, IsNew, IsDeclaredAs, IsRecordable};
ghost use Rattle.type_dictionary.specs.Faults.{RefusesRecord, RefusesType};
ghost use Rattle.type_dictionary.specs.Latest.{desc_of, latest_from, latest_of};
ghost use Rattle.type_dictionary.specs.Records.{GainsRecord, IsNextRecord, IsRecorded, IsSound, MayFollow};

use crate::declaration::Declared;
use crate::fault::{DeclareFault, RecordFault};
use crate::repeats::have_no_repeat;
use graph_model::{Bytes, NoMemory};
use std::alloc::{AllocError, Global};
use std::collections::BTreeMap;
use std::marker::Model;
use type_desc::{DescFault, FIRST_RECORD_ID, Text, TypeDesc, read_desc, write_desc};

/// The id of the built-in type.
pub const ROOT_TYPE_ID: u64 = 1;

/// The most records of a dictionary.
const MAX_RECORDS: usize = 65_536;

/// The types of a store by the order of their records, which contracts see as the list of their
/// descriptions. The built-in type `Root` has the id 1 and no record. Record i, from 0, has the id
/// 16 + i. A look-up by name takes the time of a search tree.
#[derive(Debug, Drop)]
pub struct Dictionary {
    root: TypeDesc,
    records: Vec<TypeDesc>,
    /// The id of the latest record of each name.
    ids: BTreeMap<String, u64>,
    alloc: Global,
}

impl Model for Dictionary {
    ghost use Rattle.std.specs.Prelude.{List};
    ghost use Rattle.type_desc.specs.declared.desc.TypeDesc.{TypeDesc};

    ghost Value = { List TypeDesc };

    ghost use Rattle.type_dictionary.specs.Kept.{IsKept};

    ghost view = { λ d. d.records.items };

    ghost invariant = { λ d. IsKept d.root d.records.items d.ids };
}

impl Dictionary {
    /// The dictionary without records. It takes no memory.
    pub fn new(alloc: Global) -> Dictionary
        ensures { result ≡ [] }
    {
        Dictionary {
            root: TypeDesc::root(),
            records: Vec::new(alloc),
            ids: BTreeMap::new(alloc),
            alloc,
        }
    }

    /// How many records there are.
    pub fn count(&self) -> u64
        ensures count { result ≡ length self.now }
        ensures limit { result ≤ 65536 }
    {
        self.records.len() as u64
    }

    /// The descriptions of the records, in order.
    pub fn as_slice(&self) -> &[TypeDesc]
        ensures items { result.now ≡ self.now }
        ensures recorded { All IsRecorded result.now }
    {
        self.records.as_slice()
    }

    /// The description of the record with this number, from 0.
    pub fn get(&self, place: u64) -> Option<&TypeDesc>
        ensures value { option_copied result ≡ slice_get self.now place }
        ensures recorded { IfSome result (λ desc. IsRecorded desc.now) }
    {
        self.records.get(place as usize)
    }

    /// The description of the type with this id. That of id 1 is the built-in type.
    pub fn by_id(&self, id: u64) -> Option<&TypeDesc>
        ensures value { option_copied result ≡ desc_of self.now id }
        ensures sound { IfSome result (λ desc. IsSound desc.now) }
    {
        if id == ROOT_TYPE_ID {
            return Some(&self.root);
        }
        if id < FIRST_RECORD_ID {
            return None;
        }
        self.get(id - FIRST_RECORD_ID)
    }

    /// The id of the latest record of this name.
    fn latest_record(&self, name: &Text) -> Option<u64>
        ensures { result ≡ latest_from 16 self.now name.now }
    {
        self.ids.get(name.as_str()).copied()
    }

    /// The id of the latest type of this name. That of `Root` is 1.
    pub fn latest(&self, name: &Text) -> Option<u64>
        ensures value { result ≡ latest_of self.now name.now }
        ensures named { IfSome result (λ id. IsSomeAnd (desc_of self.now id) (λ desc. desc.name ≡ name.now)) }
    {
        if name.is_same(&self.root.name) {
            return Some(ROOT_TYPE_ID);
        }
        self.latest_record(name)
    }

    /// The id of the latest type of the name, where it is this type.
    fn known(&self, desc: &TypeDesc) -> Option<u64>
        ensures { MatchOption result (IsNew self.now desc.now) (IsKnownAs self.now desc.now) }
    {
        let id = self.latest(&desc.name)?;
        let latest = self.by_id(id)?;
        if latest.is_same(desc) { Some(id) } else { None }
    }

    /// The id of the next record.
    fn next_id(&self) -> u64
        ensures next { result ≡ 16 + length self.now }
        ensures small { result ≤ 65552 }
    {
        FIRST_RECORD_ID + self.count()
    }

    /// The next record, for a type that is new.
    fn new_type(&self, desc: &TypeDesc) -> Result<Declared, DeclareFault>
        requires grammar { IsDesc desc.now }
        requires absent { IsNew self.now desc.now }
        ensures answer { IfOk result (IsDeclaredAs self.now desc.now) }
        ensures fault { IfErr result (RefusesType self.now desc.now) }
    {
        if self.records.len() == MAX_RECORDS {
            return Err(DeclareFault::TooManyTypes);
        }
        let id = self.next_id();
        let record = write_desc(self.alloc, id, desc)?;
        let text = Bytes::new(record.into_vec());
        Ok(Declared::New { id, text })
    }

    /// The id of the type, or the record that makes it the latest of its name. The dictionary stays
    /// as it is.
    pub fn declare(&self, desc: &TypeDesc) -> Result<Declared, DeclareFault>
        requires { IsDesc desc.now }
        // The latest type of the name is this one, or it isn't and the record is the next one.
        ensures answer { IfOk result (IsDeclaredAs self.now desc.now) }
        ensures known { (id : ℕ) → IsKnownAs self.now desc.now id → IsOkAnd result (λ declared. declared ≡ Declared.Known id) }
        // There is no room for a type that is new.
        ensures fault { IfErr result (RefusesType self.now desc.now) }
        // The text of a new type may be added, if its name isn't `Root` and its member names differ.
        ensures recordable { IfOk result (IsRecordable self.now desc.now) }
    {
        match self.known(desc) {
            Some(id) => Ok(Declared::Known(id)),
            None => self.new_type(desc),
        }
    }

    /// Whether the description may stand in the next record, with this id.
    fn may_follow(&self, id: u64, desc: &TypeDesc) -> Result<bool, NoMemory>
        ensures { IfOk result (λ may. IsTrue may ↔ MayFollow self.now id desc.now) }
    {
        if id != self.next_id() {
            return Ok(false);
        }
        if desc.name.is_same(&self.root.name) {
            return Ok(false);
        }
        have_no_repeat(self.alloc, desc)
    }

    /// The id and the description of a record, which may not be the next one.
    fn read_record(&self, text: &[u8]) -> Result<(u64, TypeDesc), RecordFault>
        ensures found { IfOk result (λ read. IsRecord read) }
        ensures spelled { IfOk result (λ read. text.now ≡ record_text read) }
        ensures fault { IfErr result (RefusesRecord self.now text.now) }
    {
        match read_desc(self.alloc, text) {
            Ok(read) => Ok(read),
            Err(DescFault::At { at: _ }) => Err(RecordFault::Bad),
            Err(DescFault::NoMemory) => Err(RecordFault::NoMemory),
        }
    }

    /// The description of the next record.
    fn next_record(&self, text: &[u8]) -> Result<TypeDesc, RecordFault>
        ensures found { IfOk result (IsNextRecord self.now text.now) }
        ensures fault { IfErr result (RefusesRecord self.now text.now) }
    {
        let (id, desc) = self.read_record(text)?;
        if !self.may_follow(id, &desc)? {
            return Err(RecordFault::Bad);
        }
        Ok(desc)
    }

    /// Adds a description behind the others.
    fn push(&mut self, desc: TypeDesc) -> Result<(), AllocError>
        requires room { length self.old < 65536 }
        requires recorded { IsRecorded desc }
        ensures added { OnOk result (self.new ≡ self.old ++ desc ∷ []) }
        ensures kept { OnErr result (self.new ≡ self.old) }
    {
        self.records.reserve(1)?;
        let id = FIRST_RECORD_ID + self.records.len() as u64;
        let name = String::from_str(self.alloc, desc.name.as_str())?;
        self.ids.insert(name, id)?;
        self.records.push(desc)?;
        Ok(())
    }

    /// Adds the record that the text spells, where it is the next one.
    pub fn add_record(&mut self, text: &[u8]) -> Result<(), RecordFault>
        ensures added { OnOk result (GainsRecord self.old self.new text.now) }
        // What is added is the one description of which the text is the next record.
        ensures only { (desc : TypeDesc) → IsNextRecord self.old text.now desc → OnOk result (self.new ≡ self.old ++ desc ∷ []) }
        // The text is refused exactly where it is not the next record.
        ensures fault { IfErr result (RefusesRecord self.old text.now) }
        ensures kept { OnErr result (self.new ≡ self.old) }
    {
        let desc = self.next_record(text)?;
        self.push(desc)?;
        Ok(())
    }
}
