// What an event asks of the book, the held ids and the actor.
ghost use Rattle.std.specs.Prelude.{◌≡◌, ◌-◌, ◌^◌, ◌&&◌, ◌||◌, not, min, nat_le, IfOk};
ghost use Rattle.std.specs.List.{list_all};
ghost use Rattle.graph_model.specs.Graph.{lists, has_edge, entity_size};
ghost use Rattle.graph_model.specs.Ids.{rises};
ghost use Rattle.graph_model.specs.Stores.{is_good_id, is_held_or_root, is_old_edge, is_good_edge, is_good_record, total_size, is_valid_store, any_edge, may_hold};
ghost use Rattle.core_steps.specs.Core.{graph, next_before, held};
ghost use Rattle.core_steps.specs.Steps.{permits};

use crate::sets::{edges_of, ids_of};
use core_steps::{Book, Channels, CoreState, Event, Step};
use graph_model::{
    ENTITY_LIMIT, Entity, FIRST_ID, Graph, ID_LIMIT, Ids, NoMemory, ROOT_ID, Record, STORE_LIMIT,
    StoreOp, after,
};
use std::alloc::Global;

fn is_good_id(next: u64, id: u64) -> bool
    ensures { result ≡ is_good_id next id }
{
    id == ROOT_ID || (FIRST_ID <= id && id < next)
}

/// Whether the graph has an edge from `from` to `to`.
fn has_edge(alloc: Global, graph: &Graph, from: u64, to: u64) -> Result<bool, NoMemory>
    ensures { IfOk result (λ has. has ≡ has_edge graph.now from to) }
{
    let edges = edges_of(alloc, &graph.records, from)?;
    Ok(edges.contains(to))
}

fn is_held_or_root(held: &Ids, id: u64) -> bool
    ensures { result ≡ is_held_or_root held.now id }
{
    held.contains(id) || id == ROOT_ID
}

/// Whether the graph's entity of `from`, which is held or the root, has an edge to `to`.
fn is_old_edge(
    alloc: Global,
    graph: &Graph,
    held: &Ids,
    from: u64,
    to: u64,
) -> Result<bool, NoMemory>
    ensures { IfOk result (λ is_old. is_old ≡ is_old_edge graph.now held.now from to) }
{
    if is_held_or_root(held, from) {
        has_edge(alloc, graph, from, to)
    } else {
        Ok(false)
    }
}

/// Whether a store may have an edge between these ids.
fn is_good_edge(
    alloc: Global,
    graph: &Graph,
    held: &Ids,
    op: &StoreOp,
    from: u64,
    to: u64,
) -> Result<bool, NoMemory>
    ensures { IfOk result (λ is_good. is_good ≡ is_good_edge graph.now held.now op.now from to) }
{
    if op.records.get(to).is_some() || held.contains(to) {
        Ok(true)
    } else {
        is_old_edge(alloc, graph, held, from, to)
    }
}

/// Whether a store may have each of these edges from an id.
fn are_good_edges(
    alloc: Global,
    graph: &Graph,
    held: &Ids,
    op: &StoreOp,
    from: u64,
    edges: &[u64],
) -> Result<bool, NoMemory>
    ensures { IfOk result (λ are_good. are_good ≡ list_all (is_good_edge graph.now held.now op.now from) edges.now) }
{
    for to in edges {
        if !is_good_edge(alloc, graph, held, op, from, *to)? {
            return Ok(false);
        }
    }
    Ok(true)
}

/// How many bytes an entity takes. Past the end of the number's type it stands at that end.
fn entity_size(entity: &Entity) -> u64
    ensures { result ≡ min (entity_size entity.now) (2 ^ 64 - 1) }
{
    let refs = (entity.refs.len() as u64).saturating_mul(8);
    32u64
        .saturating_add(refs)
        .saturating_add(entity.plain.len() as u64)
}

/// Whether the entity has a type, and is not too large.
fn is_good_entity(entity: &Entity) -> bool
    ensures { result ≡ (nat_le 1 entity.now.type_id && nat_le (entity_size entity.now) 1048576) }
{
    entity.type_id >= 1 && entity_size(entity) <= ENTITY_LIMIT
}

/// Whether the record's id is good, and held or the root where the graph has it.
fn is_free(graph: &Graph, held: &Ids, next: u64, id: u64) -> bool
    ensures { result ≡ (is_good_id next id && (not (lists graph.now id) || is_held_or_root held.now id)) }
{
    is_good_id(next, id) && (graph.get(id).is_none() || is_held_or_root(held, id))
}

/// Whether a store may list the record.
fn is_good_record(
    alloc: Global,
    graph: &Graph,
    held: &Ids,
    op: &StoreOp,
    record: &Record,
) -> Result<bool, NoMemory>
    ensures { IfOk result (λ is_good. is_good ≡ is_good_record graph.now held.now op.now «record».now) }
{
    if !is_free(graph, held, op.next_id, record.id) || !is_good_entity(&record.entity) {
        return Ok(false);
    }
    let mut edges = Vec::new(alloc);
    record.entity.push_edges(&mut edges)?;
    are_good_edges(alloc, graph, held, op, record.id, edges.as_slice())
}

/// Whether a store may list each of the records.
fn are_good_records(
    alloc: Global,
    graph: &Graph,
    held: &Ids,
    op: &StoreOp,
) -> Result<bool, NoMemory>
    ensures { IfOk result (λ are_good. are_good ≡ list_all (is_good_record graph.now held.now op.now) op.now.records) }
{
    for record in op.records.as_slice() {
        if !is_good_record(alloc, graph, held, op, record)? {
            return Ok(false);
        }
    }
    Ok(true)
}

/// How many bytes the entities take together. Past the end of the number's type it stands at that end.
fn total_size(records: &[Record]) -> u64
    ensures { result ≡ min (total_size records.now) (2 ^ 64 - 1) }
{
    let mut total: u64 = 0;
    for record in records {
        total = total.saturating_add(entity_size(&record.entity));
    }
    total
}

/// Whether each id is above the one before it.
fn rises(ids: &[u64]) -> bool
    ensures { result ≡ rises ids.now }
{
    let Some((first, rest)) = ids.split_first() else {
        return true;
    };
    let mut last = *first;
    for id in rest {
        if *id <= last {
            return false;
        }
        last = *id;
    }
    true
}

/// Whether a store may be made in the graph by the held ids, where `next` is the next id before it.
pub fn is_valid_store(
    alloc: Global,
    graph: &Graph,
    held: &Ids,
    next: u64,
    op: &StoreOp,
) -> Result<bool, NoMemory>
    ensures { IfOk result (λ is_valid. is_valid ≡ is_valid_store graph.now held.now next op.now) }
{
    let ids = ids_of(alloc, &op.records)?;
    if next > op.next_id
        || op.next_id > ID_LIMIT
        || !rises(ids.as_slice())
        || total_size(op.records.as_slice()) > STORE_LIMIT
    {
        return Ok(false);
    }
    are_good_records(alloc, graph, held, op)
}

/// Whether some of the ids has an edge to `to`.
fn any_edge(alloc: Global, graph: &Graph, ids: &[u64], to: u64) -> Result<bool, NoMemory>
    ensures { IfOk result (λ any. any ≡ any_edge graph.now ids.now to) }
{
    for from in ids {
        if has_edge(alloc, graph, *from, to)? {
            return Ok(true);
        }
    }
    Ok(false)
}

/// Whether an id may be held: it is held already, or is the root, or is an edge of the graph's entity of one of these.
pub fn may_hold(alloc: Global, graph: &Graph, held: &Ids, id: u64) -> Result<bool, NoMemory>
    ensures { IfOk result (λ may. may ≡ may_hold graph.now held.now id) }
{
    if is_held_or_root(held, id) || has_edge(alloc, graph, 1, id)? {
        return Ok(true);
    }
    any_edge(alloc, graph, held.as_slice(), id)
}

/// The graph: that of the start after the ended stores.
fn graph_of(alloc: Global, book: &Book) -> Result<Graph, NoMemory>
    ensures { IfOk result (λ made. made ≡ graph book.now) }
{
    after(alloc, &book.start, book.ended.as_vec())
}

/// The next id before a store: that of the last ended store, or the start's.
fn next_before(book: &Book) -> u64
    ensures { result ≡ next_before book.now }
{
    let mut next = book.start_next;
    for op in book.ended.as_slice() {
        next = op.next_id;
    }
    next
}

/// The held ids: those pinned on any channel.
fn held_ids(alloc: Global, channels: &Channels) -> Result<Ids, NoMemory>
    ensures { IfOk result (λ ids. ids ≡ held channels.now) }
{
    let mut ids = Vec::new(alloc);
    for channel in channels.as_slice() {
        ids.extend_from_slice(channel.pins.as_slice())?;
    }
    Ok(Ids::new(ids))
}

/// Whether the book, the held ids and the actor allow the step.
pub fn permits(alloc: Global, core: &CoreState, wanted: &Step) -> Result<bool, NoMemory>
    ensures { IfOk result (λ may. may ≡ permits core.now.book (held core.now.channels) wanted.now.actor wanted.now.event) }
{
    match &wanted.event {
        Event::StoreBegin(op) => {
            if wanted.actor != 0 {
                return Ok(false);
            }
            let graph = graph_of(alloc, &core.book)?;
            let held = held_ids(alloc, &core.channels)?;
            is_valid_store(alloc, &graph, &held, next_before(&core.book), op)
        }
        Event::Pin(id) => {
            let graph = graph_of(alloc, &core.book)?;
            let held = held_ids(alloc, &core.channels)?;
            may_hold(alloc, &graph, &held, *id)
        }
        _ => Ok(true),
    }
}
