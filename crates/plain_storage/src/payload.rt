//! The bytes of a store.

ghost use Rattle.std.specs.Prelude.{◌≡◌, ◌≤◌, ◌+◌, length, IfOk, OnOk};
ghost use Rattle.std.specs.List.{flat_map, AllByRecursion};
ghost use Rattle.field_bytes.specs.Fields.{with_bytes};
ghost use Rattle.graph_model.specs.Graph.{entity_size};
ghost use Rattle.graph_model.specs.Stores.{total_size};
ghost use Rattle.plain_storage.specs.Serving.{HasSpelling, IsGoodRecord};
ghost use Rattle.plain_storage.specs.Stores.{payload_of, record_bytes};

use entity_form::write_entity;
use field_bytes::write_u64_at;
use graph_model::{Record, StoreOp};
use std::alloc::{AllocError, Global};

/// The bytes before the entities: the number and the next id.
const HEAD: usize = 16;

/// The place of the next id.
const NEXT_ID: usize = 8;

/// How many bytes a record's entity takes.
fn size_of(object: &Record) -> usize
    requires { IsGoodRecord object.now }
    ensures size { result ≡ entity_size object.now.entity }
    ensures spelling { HasSpelling object.now }
{
    // A number fits its type once it is read.
    let _id = object.id;
    let _type_id = object.entity.type_id;
    let refs = object.entity.refs.as_slice();
    let plain = object.entity.plain.as_slice();
    32 + 8 * refs.len() + plain.len()
}

/// How many bytes the entities take together.
fn total(records: &[Record]) -> usize
    requires good { AllByRecursion IsGoodRecord records.now }
    requires fits { total_size records.now ≤ 1048560 }
    ensures size { result ≡ total_size records.now }
    ensures spelling { AllByRecursion HasSpelling records.now }
{
    let mut total = 0;
    for record in records {
        total += size_of(record);
    }
    total
}

/// Writes the entities one behind the other, from a place on.
fn put_records(out: &mut [u8], at: usize, records: &[Record])
    requires good { AllByRecursion IsGoodRecord records.now }
    requires room { at + total_size records.now ≤ length out.old }
    ensures { out.new ≡ with_bytes out.old at (flat_map record_bytes records.now) }
{
    let mut place = at;
    for record in records {
        place = write_entity(record.id, &record.entity, out, place);
    }
}

/// So many bytes, each 0.
fn zeros(alloc: Global, count: usize) -> Result<Vec<u8>, AllocError>
    ensures { IfOk result (λ bytes. length bytes.items ≡ count) }
{
    vec![in alloc; 0u8; count]
}

/// Writes a store of this number over all the bytes.
fn put_store(out: &mut [u8], number: u64, op: &StoreOp)
    requires good { AllByRecursion IsGoodRecord op.now.records }
    requires room { length out.old ≡ 16 + total_size op.now.records }
    ensures { out.new ≡ payload_of number op.now }
{
    write_u64_at(out, 0, number);
    write_u64_at(out, NEXT_ID, op.next_id);
    put_records(out, HEAD, op.records.as_slice());
}

/// The bytes of a store of this number.
pub fn spell_store(alloc: Global, number: u64, op: &StoreOp) -> Result<Vec<u8>, AllocError>
    requires good { AllByRecursion IsGoodRecord op.now.records }
    requires fits { total_size op.now.records ≤ 1048560 }
    ensures bytes { IfOk result (λ bytes. bytes.items ≡ payload_of number op.now) }
    ensures size { IfOk result (λ bytes. length bytes.items ≡ 16 + total_size op.now.records) }
    ensures spelling { OnOk result (AllByRecursion HasSpelling op.now.records) }
{
    let length = HEAD + total(op.records.as_slice());
    let mut bytes = zeros(alloc, length)?;
    put_store(&mut bytes, number, op);
    Ok(bytes)
}
