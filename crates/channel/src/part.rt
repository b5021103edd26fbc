//! A channel's part of a store, ready to be written.
ghost use Rattle.std.specs.Prelude.{◌≡◌, ◌≤◌, ◌<◌, ◌+◌, ◌^◌, length, map, sum_by, IfOk, true};
ghost use Rattle.std.specs.List.{AllByRecursion};
ghost use Rattle.field_bytes.specs.Fields.{with_bytes};
ghost use Rattle.graph_model.specs.Ids.{rises};
ghost use Rattle.graph_model.specs.Graph.{ids, entity_size};
ghost use Rattle.graph_model.specs.Stores.{total_size};
ghost use Rattle.data_file.specs.Chunks.{IsChunk};
ghost use Rattle.channel.specs.Entities.{header_for, chunk_for};
ghost use Rattle.channel.specs.Parts.{IsPart, IsRightRecord, IsStorable, headers_in};
ghost use Rattle.channel.specs.Taking.{row_at, rows_behind, with_before, slot_for};
ghost use Rattle.channel.specs.declared.part.Slot.{Slot as AnySlot};

use channel_files::Place;
use entity_form::{HEADER_BYTES, Header, REF_BYTES, write_entity};
use entity_index::{EntityIndex, Row, State};
use graph_model::{NoMemory, Record, Records};
use std::alloc::{AllocError, Global};
use std::marker::Model;

/// An entity of a part: the numbers that it begins with, and the row that it replaced, if it did.
#[derive(Clone, Copy, Debug)]
pub(crate) struct Slot {
    pub(crate) header: Header,
    pub(crate) before: Option<Row>,
}

/// Records by rising id, of at most 16 MiB together, with their bytes one after another. Contracts see the records.
#[derive(Debug, Drop)]
pub(crate) struct Part {
    slots: Vec<Slot>,
    chunk: Vec<u8>,
}

impl Model for Part {
    ghost use Rattle.std.specs.Prelude.{List};
    ghost use Rattle.graph_model.specs.declared.entity.Record.{Record};
    ghost use Rattle.channel.specs.Parts.{IsSpelled, headers_in, records_in};

    ghost Value = { List Record };

    ghost view = { λ p. records_in (headers_in p.slots.items) p.chunk.items };

    ghost invariant = { λ p. IsSpelled (headers_in p.slots.items) p.chunk.items (records_in (headers_in p.slots.items) p.chunk.items) };
}

impl Part {
    /// The part that has these records.
    pub(crate) fn new(alloc: Global, records: &Records) -> Result<Part, NoMemory>
        requires ordered { rises (ids records.now) ≡ true }
        requires storable { AllByRecursion IsStorable records.now }
        requires most { total_size records.now ≤ 16777216 }
        ensures { IfOk result (λ part. part ≡ records.now) }
    {
        let slots = slots_of(alloc, records.as_slice())?;
        let chunk = bytes_of(alloc, records.as_slice())?;
        Ok(Part { slots, chunk })
    }

    pub(crate) fn len(&self) -> usize
        ensures { result ≡ length self.now }
    {
        self.slots.len()
    }

    /// The bytes of the records.
    pub(crate) fn chunk(&self) -> &[u8]
        ensures bytes { result.now ≡ chunk_for self.now }
        ensures whole { IsChunk result.now }
        ensures part { IsPart self.now }
    {
        self.chunk.as_slice()
    }

    /// Gives the records their rows in the index, where their bytes stand from this place on, and answers what those replaced.
    pub(crate) fn put_rows(
        self,
        index: &mut EntityIndex,
        place: Place,
        swept_odd: bool,
    ) -> Vec<Slot>
        requires room { length self ≤ index.old.spare }
        requires low { place.at ≤ 2 ^ 30 }
        ensures rows { index.new.contents ≡ rows_behind swept_odd place.file place.at (map header_for self) index.old.contents }
        ensures slots { result.items ≡ map (slot_for index.old.contents) self }
    {
        let mut slots = self.slots;
        put_rows(index, &mut slots, place, swept_odd);
        slots
    }
}

/// Gives each of the headers its row, and keeps the row that it replaced.
fn put_rows(index: &mut EntityIndex, slots: &mut [Slot], place: Place, swept_odd: bool)
    requires ordered { rises (map (λ (s : AnySlot). s.header.id) slots.old) ≡ true }
    requires room { length slots.old ≤ index.old.spare }
    requires fits { place.at + sum_by (λ (s : AnySlot). s.header.length) slots.old < 2 ^ 64 }
    ensures rows { index.new.contents ≡ rows_behind swept_odd place.file place.at (headers_in slots.old) index.old.contents }
    ensures slots { slots.new ≡ map (with_before index.old.contents) slots.old }
{
    let mut at = place.at;
    for slot in slots.iter_mut() {
        let header = slot.header;
        slot.before = index.row(header.id).copied();
        index.put(header.id, stored_at(swept_odd, place.file, at, header));
        at += header.length;
    }
}

/// The row of an entity that was just stored, which is pinned.
fn stored_at(swept_odd: bool, file: u64, at: u64, header: Header) -> Row
    ensures { result ≡ row_at swept_odd file at header }
{
    Row {
        file,
        at,
        header,
        state: State {
            pinned: true,
            marked: false,
            grey: false,
            swept_odd,
            next: 0,
        },
    }
}

/// The header that a record's bytes begin with.
fn header_of(object: &Record) -> Header
    requires { IsStorable object.now }
    ensures header { result ≡ header_for object.now }
    ensures right { IsRightRecord object.now }
{
    // A number fits its type once it is read.
    let _id = object.id;
    let _type_id = object.entity.type_id;
    let refs = object.entity.refs.as_slice();
    let plain = object.entity.plain.as_slice();
    let length = HEADER_BYTES + REF_BYTES * refs.len() + plain.len();
    Header {
        length: length as u64,
        type_id: object.entity.type_id,
        id: object.id,
        count: refs.len() as u64,
    }
}

/// A slot for each record, which replaced nothing yet.
fn slots_of(alloc: Global, records: &[Record]) -> Result<Vec<Slot>, AllocError>
    requires { AllByRecursion IsStorable records.now }
    ensures headers { IfOk result (λ slots. headers_in slots.items ≡ map header_for records.now) }
    ensures right { IfOk result (λ slots. AllByRecursion IsRightRecord records.now) }
{
    let mut slots = Vec::with_capacity(alloc, records.len())?;
    for record in records {
        slots.push(Slot {
            header: header_of(record),
            before: None,
        })?;
    }
    Ok(slots)
}

/// How many bytes the records' entities take together.
fn total(records: &[Record]) -> usize
    requires storable { AllByRecursion IsStorable records.now }
    requires most { total_size records.now ≤ 16777216 }
    ensures { result ≡ total_size records.now }
{
    let mut total = 0;
    for record in records {
        total += header_of(record).length as usize;
    }
    total
}

/// Writes the entities one behind the other, from the front on.
fn put_records(out: &mut [u8], records: &[Record])
    requires storable { AllByRecursion IsStorable records.now }
    requires room { total_size records.now ≤ length out.old }
    ensures { out.new ≡ with_bytes out.old 0 (chunk_for records.now) }
{
    let mut place = 0;
    for record in records {
        place = write_entity(record.id, &record.entity, out, place);
    }
}

/// So many bytes, each 0.
pub(crate) fn zeros(alloc: Global, count: usize) -> Result<Vec<u8>, AllocError>
    ensures { IfOk result (λ bytes. length bytes.items ≡ count) }
{
    vec![in alloc; 0u8; count]
}

/// The entities' bytes one behind the other.
fn bytes_of(alloc: Global, records: &[Record]) -> Result<Vec<u8>, AllocError>
    requires storable { AllByRecursion IsStorable records.now }
    requires most { total_size records.now ≤ 16777216 }
    ensures { IfOk result (λ bytes. bytes.items ≡ chunk_for records.now) }
{
    let length = total(records);
    let mut bytes = zeros(alloc, length)?;
    put_records(&mut bytes, records);
    Ok(bytes)
}
