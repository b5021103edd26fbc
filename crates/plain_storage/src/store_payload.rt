//! One store of the log, put into a graph.

ghost use Rattle.std.specs.Prelude.{◌≡◌, ◌≤◌, ◌<◌, ◌++◌, ◌∷◌, [], ◌^◌, ℕ, List, length, drop, Some, IfOk, IfSome, OnOk, IsErrOf};
ghost use Rattle.graph_model.specs.Graph.{Graph};
ghost use Rattle.graph_model.specs.Stores.{is_good_id};
ghost use Rattle.graph_model.specs.declared.entity.Record.{Record as AnyRecord};
ghost use Rattle.graph_model.specs.declared.entity.StoreOp.{StoreOp};
ghost use Rattle.entity_form.specs.Spelling.{IsEntity, numbers_bytes};
ghost use Rattle.plain_storage.specs.Reading.{AreObjects, IsStorePayload};
ghost use Rattle.plain_storage.specs.Stores.{record_bytes, payload_of, MayFollow};

use crate::fault::OpenFault;
use crate::tree::Tree;
use entity_form::{header_at, read_entity};
use field_bytes::read_u64_at;
use graph_model::{FIRST_ID, ID_LIMIT, ROOT_ID, Record};
use std::alloc::Global;

/// The bytes in front of the entities.
const NUMBERS: usize = 16;

/// How many bytes the entity has with which the bytes begin, as far as its header says.
fn front_length(bytes: &[u8]) -> Option<usize>
    ensures within { IfSome result (λ n. n ≤ length bytes.now) }
    ensures only { (r : AnyRecord) (more : List ℕ) → IsEntity (r.id, r.entity) → bytes.now ≡ record_bytes r ++ more → result ≡ Some (length (record_bytes r)) }
{
    let header = header_at(bytes, 0)?;
    if header.length > bytes.len() as u64 {
        return None;
    }
    Some(header.length as usize)
}

/// The entity with which the bytes begin, and the bytes behind it.
fn first_entity(alloc: Global, bytes: &[u8]) -> Result<(Record, &[u8]), OpenFault>
    ensures fits { IfOk result (λ p. IsEntity (p.0.id, p.0.entity)) }
    ensures parts { IfOk result (λ p. bytes.now ≡ record_bytes p.0 ++ p.1.now) }
    ensures damaged { IsErrOf result OpenFault.Damaged → (r : AnyRecord) (more : List ℕ) → IsEntity (r.id, r.entity) → ¬ (bytes.now ≡ record_bytes r ++ more) }
    ensures not_fault { IsErrOf result OpenFault.Fault → ⊥ }
{
    let Some(length) = front_length(bytes) else {
        return Err(OpenFault::Damaged);
    };
    let (front, behind) = bytes.split_at(length);
    let (id, entity) = read_entity(alloc, front)?;
    Ok((Record { id, entity }, behind))
}

/// Whether the id is the root's, or one below the next id.
fn is_good(id: u64, next_id: u64) -> bool
    ensures { result ≡ is_good_id next_id id }
{
    id == ROOT_ID || (FIRST_ID <= id && id < next_id)
}

/// Puts the entities of a store into the graph, where the bytes are objects by rising id. After a fault some are there.
fn read_objects(
    alloc: Global,
    bytes: &[u8],
    next_id: u64,
    graph: &mut Tree,
) -> Result<(), OpenFault>
    ensures read { OnOk result (AreObjects 0 next_id bytes.now graph.old graph.new) }
    ensures damaged { IsErrOf result OpenFault.Damaged → (new : Graph) → ¬ (AreObjects 0 next_id bytes.now graph.old new) }
    ensures not_fault { IsErrOf result OpenFault.Fault → ⊥ }
{
    let mut rest = bytes;
    let mut last = 0;
    'objects: while !rest.is_empty() {
        let (object, behind) = first_entity(alloc, rest)?;
        if object.id <= last || !is_good(object.id, next_id) {
            return Err(OpenFault::Damaged);
        }
        last = object.id;
        graph.put(object.id, object.entity)?;
        rest = behind;
    }
    Ok(())
}

/// The next id of the store of which the payload has the numbers, where they may follow and something is behind them.
fn next_of(payload: &[u8], number: u64, before: u64) -> Option<u64>
    ensures some { IfSome result (λ next. payload.now ≡ numbers_bytes (number ∷ next ∷ []) ++ drop 16 payload.now) }
    ensures long { IfSome result (λ _. 16 < length payload.now) }
    ensures range { IfSome result (λ next. (before ≤ next) × (next ≤ 2 ^ 48)) }
    ensures only { (next : ℕ) (rest : List ℕ) → payload.now ≡ numbers_bytes (number ∷ next ∷ []) ++ rest → 0 < length rest → before ≤ next → next ≤ 2 ^ 48 → result ≡ Some next }
{
    if payload.len() <= NUMBERS || read_u64_at(payload, 0) != Some(number) {
        return None;
    }
    let next_id = read_u64_at(payload, 8)?;
    if next_id < before || next_id > ID_LIMIT {
        return None;
    }
    Some(next_id)
}

/// Puts the entities of a store into the graph, where the payload is a store of this number that may follow this next id. Gives its next id.
/// After a fault some entities are there.
pub fn read_store(
    alloc: Global,
    payload: &[u8],
    number: u64,
    before: u64,
    graph: &mut Tree,
) -> Result<u64, OpenFault>
    ensures read { IfOk result (λ next. IsStorePayload number before payload.now next graph.old graph.new) }
    ensures damaged { IsErrOf result OpenFault.Damaged → (op : StoreOp) → MayFollow before op → ¬ (payload.now ≡ payload_of number op) }
    ensures not_fault { IsErrOf result OpenFault.Fault → ⊥ }
{
    let Some(next_id) = next_of(payload, number, before) else {
        return Err(OpenFault::Damaged);
    };
    read_objects(alloc, &payload[NUMBERS..], next_id, graph)?;
    Ok(next_id)
}
