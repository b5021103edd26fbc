//! The walk that gathers a store.

ghost use Rattle.std.specs.Prelude.{◌≡◌, ◌≤◌, false, IfOk, IfErr};
ghost use Rattle.session_model.specs.Answer.{gathered_records, are_too_big};
ghost use Rattle.storer.specs.Gathered.{AreKnown, gathered_ids};
ghost use Rattle.storer.specs.Faults.{IsRefused};
ghost use Rattle.storer.specs.Valid.{IsValidStore};

use crate::edges::GatherEdges;
use crate::fault::GatherFault;
use crate::recording::{check_total, record_all};
use graph_model::{Records, StoreOp};
use object_registry::{Registry, walk};
use std::alloc::Global;
use type_dictionary::Dictionary;

/// Which of the objects that a gathered one names are gathered too.
#[derive(Clone, Copy, Debug)]
pub enum Gathering {
    /// Those that were never stored.
    Lazy,
    /// All that are in memory.
    Eager,
}

/// Gathers the start, and from each gathered object every one that it names by a reference of any kind and that the
/// gathering takes: their records by rising id, with the next id. At most so many bytes go into one store, the headers
/// of the entities included. `EntityTooBig` comes before `StoreTooBig`.
pub fn gather(
    alloc: Global,
    registry: &Registry,
    start: u64,
    types: &Dictionary,
    next_id: u64,
    most: u64,
    gathering: Gathering,
) -> Result<StoreOp, GatherFault>
    requires { AreKnown types.now registry.now.instances }
    ensures records { IfOk result (λ op. op.records ≡ gathered_records registry.now.instances (gathered_ids gathering registry.now.instances start)) }
    ensures next { IfOk result (λ op. op.next_id ≡ next_id) }
    ensures fits { IfOk result (λ op. are_too_big most op.records ≡ false) }
    ensures fault { IfErr result (IsRefused most (gathered_records registry.now.instances (gathered_ids gathering registry.now.instances start))) }
    ensures valid { IfOk result (λ op. most ≤ 16777216 → IsValidStore registry.now.instances (gathered_ids gathering registry.now.instances start) op) }
{
    let edges = GatherEdges {
        registry,
        gathering,
    };
    let ids = walk(alloc, &edges, &[start])?;
    let records = record_all(alloc, registry, types, &ids)?;
    check_total(records.as_slice(), most)?;
    Ok(StoreOp {
        records: Records::new(records),
        next_id,
    })
}
