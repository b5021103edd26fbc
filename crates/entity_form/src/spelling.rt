//! Entities as bytes.

ghost use Rattle.std.specs.Prelude.{◌≡◌, ◌+◌, ◌*◌, ◌%◌, ◌<◌, ◌≤◌, ◌^◌, ◌++◌, [], length, ℕ, List, IfOk, OnOk, IsTrue, IsFalse, MatchResult, Err};
ghost use Rattle.std.specs.List.{AllByRecursion};
ghost use Rattle.field_bytes.specs.Fields.{with_bytes};
ghost use Rattle.graph_model.specs.Graph.{entity_size};
ghost use Rattle.graph_model.specs.declared.entity.Entity.{Entity as EntityModel};
ghost use Rattle.type_desc.specs.Prefixes.{Spells};
ghost use Rattle.entity_form.specs.Spelling.{IsEntity, IsHeaderOf, numbers_bytes, entity_bytes};

use crate::fault::FormFault;
use crate::places::{HEADER_BYTES, Header, REF_BYTES, header_at};
use field_bytes::{read_u64_at, write_u64_at};
use graph_model::{Bytes, ENTITY_LIMIT, Entity, Ids};
use std::alloc::{AllocError, Global};

/// Writes numbers at a place, and answers the place behind them.
fn put_numbers(out: &mut [u8], at: usize, numbers: &[u64]) -> usize
    requires { at + 8 * length numbers.now ≤ length out.old }
    ensures place { result ≡ at + 8 * length numbers.now }
    ensures written { out.new ≡ with_bytes out.old at (numbers_bytes numbers.now) }
{
    let mut place = at;
    for number in numbers {
        write_u64_at(out, place, *number);
        place += REF_BYTES;
    }
    place
}

/// Writes bytes at a place, and answers the place behind them.
fn put_bytes(out: &mut [u8], at: usize, bytes: &[u8]) -> usize
    requires { at + length bytes.now ≤ length out.old }
    ensures place { result ≡ at + length bytes.now }
    ensures written { out.new ≡ with_bytes out.old at bytes.now }
{
    let end = at + bytes.len();
    out[at..end].copy_from_slice(bytes);
    end
}

/// Writes the entity of this id at a place, and answers the place behind it. All other bytes stay.
pub fn write_entity(id: u64, entity: &Entity, out: &mut [u8], at: usize) -> usize
    requires room { at + entity_size entity.now ≤ length out.old }
    requires some_id { 1 ≤ id }
    requires some_type { 1 ≤ entity.now.type_id }
    requires size { entity_size entity.now ≤ 1048576 }
    ensures place { result ≡ at + entity_size entity.now }
    ensures written { out.new ≡ with_bytes out.old at (entity_bytes (id, entity.now)) }
{
    let refs = entity.refs.as_slice();
    let plain = entity.plain.as_slice();
    let length = HEADER_BYTES + REF_BYTES * refs.len() + plain.len();
    let header = [length as u64, entity.type_id, id, refs.len() as u64];
    let behind_header = put_numbers(out, at, &header);
    let behind_refs = put_numbers(out, behind_header, refs);
    put_bytes(out, behind_refs, plain)
}

/// The numbers that bytes spell, eight bytes each.
fn numbers_in(alloc: Global, bytes: &[u8]) -> Result<Vec<u64>, AllocError>
    requires { length bytes.now % 8 ≡ 0 }
    ensures spelled { IfOk result (λ numbers. bytes.now ≡ numbers_bytes numbers.items) }
    ensures fit { IfOk result (λ numbers. AllByRecursion (λ x. x < 2 ^ 64) numbers.items) }
{
    let mut numbers = Vec::new(alloc);
    let mut place = 0;
    while let Some(number) = read_u64_at(bytes, place) {
        numbers.push(number)?;
        place += REF_BYTES;
    }
    Ok(numbers)
}

/// Whether the numbers are those of one entity of so many bytes.
fn is_header_of(header: &Header, length: usize) -> bool
    requires { 32 ≤ length }
    ensures yes { IsTrue result → IsHeaderOf header.now length }
    ensures no { IsFalse result → ¬ (IsHeaderOf header.now length) }
{
    header.length == length as u64
        && header.length <= ENTITY_LIMIT
        && header.type_id >= 1
        && header.id >= 1
        && header.count <= (header.length - HEADER_BYTES as u64) / REF_BYTES as u64
}

/// The one entity that the bytes spell, and its id.
pub fn read_entity(alloc: Global, bytes: &[u8]) -> Result<(u64, Entity), FormFault>
    // What is read is spelled so.
    ensures found { IfOk result (λ r. IsEntity r × (bytes.now ≡ entity_bytes r)) }
    // What is spelled so is read, unless memory runs out.
    ensures only { (r : ℕ × EntityModel) → IsEntity r → bytes.now ≡ entity_bytes r → MatchResult result (λ x. x ≡ r) (λ f. f ≡ FormFault.NoMemory) }
    // The bytes are no one entity.
    ensures bad { result ≡ Err FormFault.Bad → ¬ (Spells entity_bytes IsEntity bytes.now) }
{
    let Some(header) = header_at(bytes, 0) else {
        return Err(FormFault::Bad);
    };
    if !is_header_of(&header, bytes.len()) {
        return Err(FormFault::Bad);
    }
    let (refs, plain) = bytes[HEADER_BYTES..].split_at(REF_BYTES * header.count as usize);
    let entity = Entity {
        type_id: header.type_id,
        refs: Ids::new(numbers_in(alloc, refs)?),
        plain: Bytes::new(Vec::from_slice(alloc, plain)?),
    };
    Ok((header.id, entity))
}

/// No spelling of an entity is a proper prefix of another, and each spells one entity.
pub fn no_proper_prefix()
    ensures { (r s : ℕ × EntityModel) (more : List ℕ) → IsEntity r → IsEntity s → entity_bytes r ++ more ≡ entity_bytes s → (more ≡ []) × (r ≡ s) }
{}
