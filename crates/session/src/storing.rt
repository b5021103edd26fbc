//! The lines that store: `store` and `store-all`.

ghost use Rattle.std.specs.Prelude.{◌≡◌, ℕ, Bool, List, true, false, IfErr, IfOk, OnOk};
ghost use Rattle.graph_model.specs.Graph.{ids};
ghost use Rattle.graph_model.specs.Served.{Storage};
ghost use Rattle.session_model.specs.Answer.{State, are_too_big, gathered_records, store_turn};
ghost use Rattle.session_model.specs.Instances.{gathered_eagerly, gathered_lazily};
ghost use Rattle.storer.specs.Faults.{IsRefused};
ghost use Rattle.session_lines.specs.Stands.{IsAtState};
ghost use Rattle.session_lines.specs.Due.{Meets};
ghost use Rattle.session_lines.specs.Steady.{IsSteadyOutcome, KnowsObjects};
ghost use Rattle.session_lines.specs.Steps.{IsShort};
ghost use Rattle.session_lines.specs.Limits.{most_bytes};
ghost use Rattle.session.specs.StoreAsks.{Gathers, IsGathered};
ghost use Rattle.storer.specs.Gathered.{gathered_ids};
ghost use Rattle.storer.specs.declared.gathering.Gathering.{Gathering as AnyGathering};

use graph_model::{Ask, Ids, NoMemory, Record, StoreOp};
use session_lines::{Memory, Outcome, Phase, Refusal, Stop, outcome_of};
use std::alloc::Global;
use storer::{GatherFault, Gathering, gather};
use type_desc::Text;

/// The most bytes that the entities of one store take.
const MOST_BYTES: u64 = 1_048_560;

/// What is to be stored with the object of the name: `NoName`, then `TooBig`.
fn gather_named(memory: &Memory, name: &Text, gathering: Gathering) -> Result<StoreOp, Stop>
    requires { KnowsObjects memory.now }
    ensures { IsGathered gathering memory.now name.now result }
{
    let Some(start) = memory.registry.id_of(name) else {
        return Err(Stop::Refused(Refusal::NoName));
    };
    match gather(
        memory.alloc,
        &memory.registry,
        start,
        &memory.types,
        memory.next_id,
        MOST_BYTES,
        gathering,
    ) {
        Ok(op) => Ok(op),
        Err(GatherFault::EntityTooBig { id: _, length: _ }) => Err(Stop::Refused(Refusal::TooBig)),
        Err(GatherFault::StoreTooBig { length: _ }) => Err(Stop::Refused(Refusal::TooBig)),
        Err(GatherFault::NoMemory) => Err(Stop::NoMemory),
    }
}

/// The ids of records, in their order.
fn ids_of(alloc: Global, records: &[Record]) -> Result<Ids, NoMemory>
    ensures { IfOk result (λ all. all ≡ ids records.now) }
{
    let all = records.iter().map(|record| record.id).collect(alloc)?;
    Ok(Ids::new(all))
}

/// Takes what was gathered as stored, and asks the storage to store it.
fn ask_to_store(memory: &mut Memory, op: StoreOp) -> Result<Outcome, NoMemory>
    ensures known { KnowsObjects memory.old → KnowsObjects memory.new }
    ensures steady { IfOk result (IsSteadyOutcome memory.new) }
    ensures meets { (is_next_type : List (List ℕ) → List ℕ → Bool) (gathering : AnyGathering) (name : List ℕ) (storage : Storage) (state : State) → Gathers gathering memory.old name op
        → IsAtState memory.old storage state → state.started ≡ true → IfOk result (λ outcome. Meets is_next_type outcome memory.new storage (store_turn most_bytes state name (gathered_ids gathering))) }
    ensures short { IfOk result IsShort }
{
    let all = ids_of(memory.alloc, op.records.as_slice())?;
    memory.registry.stored(&all);
    let count = op.records.len() as u64;
    Ok(Outcome::Ask(Ask::Store(op), Phase::Storing(count)))
}

fn store_by(memory: &mut Memory, name: &Text, gathering: Gathering) -> Result<Outcome, NoMemory>
    requires known { KnowsObjects memory.old }
    ensures known { OnOk result (KnowsObjects memory.new) }
    ensures steady { IfOk result (IsSteadyOutcome memory.new) }
    ensures meets { (is_next_type : List (List ℕ) → List ℕ → Bool) (storage : Storage) (state : State) → IsAtState memory.old storage state → state.started ≡ true
        → IfOk result (λ outcome. Meets is_next_type outcome memory.new storage (store_turn most_bytes state name.now (gathered_ids gathering))) }
    ensures short { IfOk result IsShort }
{
    match gather_named(memory, name, gathering) {
        Ok(op) => ask_to_store(memory, op),
        Err(stop) => outcome_of(memory.alloc, Err(stop)),
    }
}

/// `store NAME`: stores the object, and from each stored object every one that it names and that was never stored.
pub fn store(memory: &mut Memory, name: &Text) -> Result<Outcome, NoMemory>
    requires known { KnowsObjects memory.old }
    ensures known { OnOk result (KnowsObjects memory.new) }
    ensures steady { IfOk result (IsSteadyOutcome memory.new) }
    ensures meets { (is_next_type : List (List ℕ) → List ℕ → Bool) (storage : Storage) (state : State) → IsAtState memory.old storage state → state.started ≡ true
        → IfOk result (λ outcome. Meets is_next_type outcome memory.new storage (store_turn most_bytes state name.now gathered_lazily)) }
    ensures short { IfOk result IsShort }
{
    store_by(memory, name, Gathering::Lazy)
}

/// `store-all NAME`: stores the object, and from each stored object every one in memory that it names.
pub fn store_all(memory: &mut Memory, name: &Text) -> Result<Outcome, NoMemory>
    requires known { KnowsObjects memory.old }
    ensures known { OnOk result (KnowsObjects memory.new) }
    ensures steady { IfOk result (IsSteadyOutcome memory.new) }
    ensures meets { (is_next_type : List (List ℕ) → List ℕ → Bool) (storage : Storage) (state : State) → IsAtState memory.old storage state → state.started ≡ true
        → IfOk result (λ outcome. Meets is_next_type outcome memory.new storage (store_turn most_bytes state name.now gathered_eagerly)) }
    ensures short { IfOk result IsShort }
{
    store_by(memory, name, Gathering::Eager)
}
