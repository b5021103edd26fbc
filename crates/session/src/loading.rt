//! Objects that are loaded: where the script begins, and by the line `follow`.

ghost use Rattle.std.specs.Prelude.{◌≡◌, ◌≤◌, ◌<◌, ◌+◌, ℕ, Bool, List, Some, None, false, true, length, IfOk, OnOk};
ghost use Rattle.graph_model.specs.Graph.{Graph, lists};
ghost use Rattle.graph_model.specs.Served.{Storage};
ghost use Rattle.type_desc.specs.Root.{root_desc};
ghost use Rattle.lazy_refs.specs.Mappings.{AreTypedIn};
ghost use Rattle.lazy_refs.specs.Walks.{loaded_ids};
ghost use Rattle.object_registry.specs.Registered.{unsaved};
ghost use Rattle.session_model.specs.Answer.{State, Turn, command_turn, first_instances, follow_turn, fresh, started_turn};
ghost use Rattle.session_model.specs.Commands.{Command as AnyCommand};
ghost use Rattle.session_model.specs.Sound.{IsSound};
ghost use Rattle.script_text.specs.Meaning.{meant};
ghost use Rattle.storer.specs.Gathered.{IsKnown};
ghost use Rattle.session_lines.specs.Stands.{IsAtState};
ghost use Rattle.session_lines.specs.Broken.{IsBrokenAt, broken_by, broken_by_loading, taken_for};
ghost use Rattle.session_lines.specs.Due.{Meets};
ghost use Rattle.session_lines.specs.Limits.{most_bytes};
ghost use Rattle.session.specs.LoadSteps.{EndsBy, IsFailed, IsFailure, IsFollowed, IsFollowing, IsLast, IsTypedEnd, TakesAll, TakesStep, last_steps, step_steps};
ghost use Rattle.session_lines.specs.Loads.{ComesAfterFollow, IsRead, LoadsFor, TakesEntity};
ghost use Rattle.session_lines.specs.Namings.{IsUnbound};
ghost use Rattle.session_lines.specs.Steady.{IsSteadyLoading, IsSteadyOutcome, IsSteadyPurpose, IsSteadyStep, KnowsObjects};
ghost use Rattle.session_lines.specs.Steps.{outcome_steps, phase_steps, purpose_steps};
ghost use Rattle.session_lines.specs.declared.outcome.Phase.{Phase as AnyPhase};

use entity_form::{Object, default_object};
use graph_model::{Ask, Entity, Ids, NoMemory};
use lazy_refs::{LoadStep, Loading};
use object_registry::Loaded;
use script_text::Command;
use session_lines::{
    Memory, Outcome, Phase, Purpose, Refusal, Stop, bind_found, may_bind, outcome_of, place_of,
    ref_in,
};
use std::alloc::Global;
use type_desc::Text;

/// The ids of objects that were loaded, in their order.
fn ids_of(alloc: Global, all: &[(u64, Object)]) -> Result<Ids, NoMemory>
    ensures { IfOk result (λ ids. ids ≡ loaded_ids all.now) }
{
    let ids = all.iter().map(|loaded| loaded.0).collect(alloc)?;
    Ok(Ids::new(ids))
}

/// Puts the objects in memory, with which the script has begun, and asks the storage to hold their ids.
fn hold(memory: &mut Memory, all: Loaded, purpose: Purpose) -> Result<Outcome, NoMemory>
    requires known { KnowsObjects memory.old }
    requires typed { AreTypedIn memory.old.types all }
    requires steady { IsSteadyPurpose memory.old purpose }
    ensures known { OnOk result (KnowsObjects memory.new) }
    ensures steady { IfOk result (IsSteadyOutcome memory.new) }
    ensures whole { IfOk result (λ outcome. broken_by outcome ≡ None) }
    ensures meets { (is_next_type : List (List ℕ) → List ℕ → Bool) (storage : Storage) (due : Turn) → TakesAll purpose all memory.old storage due
        → IfOk result (λ outcome. Meets is_next_type outcome memory.new storage due) }
    ensures steps { (g : Graph) → IfOk result (λ outcome. outcome_steps outcome g ≡ purpose_steps purpose g) }
{
    let ids = ids_of(memory.alloc, all.as_slice())?;
    memory.registry.put_loaded(all)?;
    memory.started = true;
    Ok(Outcome::Ask(Ask::Hold(ids), Phase::Holding(purpose)))
}

/// The answer where an entity cannot be converted, or is broken.
fn refuse(alloc: Global, step: &LoadStep) -> Result<Outcome, NoMemory>
    requires { IsFailed step.now }
    ensures { IfOk result (IsFailure step.now) }
{
    match step {
        LoadStep::NoType { id: _ } => outcome_of(alloc, Err(Stop::Refused(Refusal::NoType))),
        LoadStep::WrongKind { id: _ } => outcome_of(alloc, Err(Stop::Refused(Refusal::WrongKind))),
        LoadStep::Broken { id } => Ok(Outcome::Broken(*id)),
        LoadStep::Want(_) | LoadStep::Ready(_) => unreachable!(),
    }
}

/// What the last step of a loading comes to.
fn end(memory: &mut Memory, step: LoadStep, purpose: Purpose) -> Result<Outcome, NoMemory>
    requires last { IsLast step }
    requires known { KnowsObjects memory.old }
    requires typed { IsTypedEnd memory.old.types step }
    requires steady { IsSteadyPurpose memory.old purpose }
    ensures known { OnOk result (KnowsObjects memory.new) }
    ensures steady { IfOk result (IsSteadyOutcome memory.new) }
    ensures broken { IfOk result (λ outcome. broken_by outcome ≡ broken_by_loading step) }
    ensures meets { (is_next_type : List (List ℕ) → List ℕ → Bool) (storage : Storage) (due : Turn) → EndsBy purpose step memory.old storage due
        → IfOk result (λ outcome. Meets is_next_type outcome memory.new storage due) }
    ensures steps { (g : Graph) → IfOk result (λ outcome. outcome_steps outcome g ≡ last_steps step purpose g) }
{
    match step {
        LoadStep::Ready(all) => hold(memory, all, purpose),
        step => refuse(memory.alloc, &step),
    }
}

/// What a step of the loading comes to.
fn take_step(
    memory: &mut Memory,
    loading: Loading,
    step: LoadStep,
    purpose: Purpose,
) -> Result<Outcome, NoMemory>
    requires known { KnowsObjects memory.old }
    requires steady { IsSteadyStep memory.old loading step purpose }
    ensures known { OnOk result (KnowsObjects memory.new) }
    ensures steady { IfOk result (IsSteadyOutcome memory.new) }
    ensures broken { IfOk result (λ outcome. broken_by outcome ≡ broken_by_loading step) }
    ensures meets { (is_next_type : List (List ℕ) → List ℕ → Bool) (storage : Storage) (due : Turn) → TakesStep purpose loading step memory.old storage due
        → IfOk result (λ outcome. Meets is_next_type outcome memory.new storage due) }
    ensures steps { (g : Graph) → IfOk result (λ outcome. outcome_steps outcome g ≡ step_steps step loading purpose g) }
{
    match step {
        LoadStep::Want(id) => Ok(Outcome::Ask(Ask::Look(id), Phase::Looking(loading, purpose))),
        step => end(memory, step, purpose),
    }
}

/// Begins to load the id for the purpose.
fn begin(memory: &mut Memory, id: u64, purpose: Purpose) -> Result<Outcome, NoMemory>
    requires known { KnowsObjects memory.old }
    requires steady { IsSteadyPurpose memory.old purpose }
    ensures known { OnOk result (KnowsObjects memory.new) }
    ensures steady { IfOk result (IsSteadyOutcome memory.new) }
    ensures whole { IfOk result (λ outcome. broken_by outcome ≡ None) }
    ensures meets { (is_next_type : List (List ℕ) → List ℕ → Bool) (storage : Storage) (state : State) (due : Turn) → IsAtState memory.old storage state → LoadsFor purpose state id due
        → IfOk result (λ outcome. Meets is_next_type outcome memory.new storage due) }
    ensures few { (g : Graph) → IfOk result (λ outcome. outcome_steps outcome g ≤ length g + purpose_steps purpose g + 1) }
{
    let mut loading = Loading::start(memory.alloc, id);
    let step = loading.next(&memory.registry, &memory.types, &memory.table, None)?;
    take_step(memory, loading, step, purpose)
}

/// Begins a script whose graph has the root: the root and what it leads to are loaded, and then the command comes.
pub fn load_root(memory: &mut Memory, command: Command) -> Result<Outcome, NoMemory>
    requires known { KnowsObjects memory.old }
    requires read { IsRead command }
    ensures known { OnOk result (KnowsObjects memory.new) }
    ensures steady { IfOk result (IsSteadyOutcome memory.new) }
    ensures whole { IfOk result (λ outcome. broken_by outcome ≡ None) }
    ensures meets { (is_next_type : List (List ℕ) → List ℕ → Bool) (storage : Storage) (state : State) → IsAtState memory.old storage state → state.started ≡ false
        → lists state.graph 1 ≡ true → IfOk result (λ outcome. Meets is_next_type outcome memory.new storage (started_turn most_bytes state (meant command) (first_instances state))) }
{
    begin(memory, 1, Purpose::Start(command))
}

/// A root without a target.
fn root_object(memory: &Memory) -> Result<Object, NoMemory>
    ensures fresh { IfOk result (λ root. unsaved root ≡ fresh 1 root_desc) }
    ensures known { IfOk result (IsKnown memory.now.types) }
{
    match memory.types.by_id(1) {
        Some(desc) => Ok(default_object(memory.alloc, 1, desc)?),
        None => unreachable!(),
    }
}

/// Begins a script whose graph has no root: an object of the root's type without a target is in memory then.
pub fn make_root(memory: &mut Memory) -> Result<(), NoMemory>
    requires { KnowsObjects memory.old }
    ensures known { OnOk result (KnowsObjects memory.new) }
    ensures stands { (storage : Storage) (state : State) → IsAtState memory.old storage state → state.started ≡ false → lists state.graph 1 ≡ false
        → OnOk result ((begun : State) × IsAtState memory.new storage begun × (begun.started ≡ true)
        × ((command : AnyCommand) → started_turn most_bytes state command (first_instances state) ≡ command_turn most_bytes begun command)) }
{
    let root = root_object(memory)?;
    memory.registry.put_new(1, root)?;
    memory.started = true;
    Ok(())
}

/// Takes the entity that the loading asked for.
pub fn load_on(
    memory: &mut Memory,
    mut loading: Loading,
    purpose: Purpose,
    entity: Entity,
) -> Result<Outcome, NoMemory>
    requires known { KnowsObjects memory.old }
    requires loading { IsSteadyLoading memory.old loading }
    requires purpose { IsSteadyPurpose memory.old purpose }
    ensures known { OnOk result (KnowsObjects memory.new) }
    ensures steady { IfOk result (IsSteadyOutcome memory.new) }
    ensures broken { IfOk result (λ outcome. IsBrokenAt memory.old.types (taken_for (Some loading.asked) (Some entity)) (broken_by outcome)) }
    ensures meets { (is_next_type : List (List ℕ) → List ℕ → Bool) (storage : Storage) (due : Turn) → TakesEntity purpose loading entity memory.old storage due
        → IfOk result (λ outcome. Meets is_next_type outcome memory.new storage due) }
    ensures nearer { (g : Graph) → lists g loading.asked ≡ true → IfOk result (λ outcome. outcome_steps outcome g < phase_steps (AnyPhase.Looking loading purpose) g) }
{
    let step = loading.next(&memory.registry, &memory.types, &memory.table, Some(entity))?;
    take_step(memory, loading, step, purpose)
}

/// The id that the member names, where the new name may be bound to it.
fn follow_id(memory: &Memory, name: &Text, member: &Text, new: &Text) -> Result<u64, Stop>
    ensures free { IfOk result (λ _. IsUnbound memory.now.registry new.now) }
    ensures judged { (storage : Storage) (state : State) → IsAtState memory.now storage state → state.started ≡ true
        → IsFollowing new.now result state (follow_turn state name.now member.now new.now) }
{
    let place = place_of(memory, name, member)?;
    let Some(id) = ref_in(place.value) else {
        return Err(Stop::Refused(Refusal::WrongKind));
    };
    may_bind(memory, new)?;
    match id {
        0 => Err(Stop::Refused(Refusal::NoTarget)),
        id => Ok(id),
    }
}

/// Binds the name to the id where it has an object, and loads it first where it has none.
fn bind_or_load(memory: &mut Memory, new: Text, id: u64) -> Result<Outcome, NoMemory>
    requires known { KnowsObjects memory.old }
    requires free { IsUnbound memory.old.registry new }
    ensures known { OnOk result (KnowsObjects memory.new) }
    ensures steady { IfOk result (IsSteadyOutcome memory.new) }
    ensures whole { IfOk result (λ outcome. broken_by outcome ≡ None) }
    ensures meets { (is_next_type : List (List ℕ) → List ℕ → Bool) (storage : Storage) (state : State) (due : Turn) → IsAtState memory.old storage state → state.started ≡ true
        → IsFollowed new id state due → IsSound due.state → IfOk result (λ outcome. Meets is_next_type outcome memory.new storage due) }
    ensures few { (g : Graph) → IfOk result (λ outcome. outcome_steps outcome g ≤ length g + 3) }
{
    match memory.registry.copy(id) {
        Some(_) => {
            let said = bind_found(memory, &new, Ok(id));
            outcome_of(memory.alloc, said)
        }
        None => begin(memory, id, Purpose::Follow { new, id }),
    }
}

/// `follow NAME MEMBER NEW`: binds the new name to what a `ref` or `lazy` member names, which is loaded where it is not in memory.
pub fn follow(
    memory: &mut Memory,
    name: &Text,
    member: &Text,
    new: Text,
) -> Result<Outcome, NoMemory>
    requires known { KnowsObjects memory.old }
    ensures known { OnOk result (KnowsObjects memory.new) }
    ensures steady { IfOk result (IsSteadyOutcome memory.new) }
    ensures whole { IfOk result (λ outcome. broken_by outcome ≡ None) }
    ensures meets { (is_next_type : List (List ℕ) → List ℕ → Bool) (storage : Storage) (state : State) → IsAtState memory.old storage state → state.started ≡ true
        → IfOk result (λ outcome. Meets is_next_type outcome memory.new storage (follow_turn state name.now member.now new)) }
    ensures few { (g : Graph) → IfOk result (λ outcome. outcome_steps outcome g ≤ length g + 3) }
{
    match follow_id(memory, name, member, &new) {
        Ok(id) => bind_or_load(memory, new, id),
        Err(stop) => outcome_of(memory.alloc, Err(stop)),
    }
}

/// Binds the name to the id, whose object was loaded.
pub fn bind_loaded(memory: &mut Memory, new: &Text, id: u64) -> Result<Outcome, NoMemory>
    requires known { KnowsObjects memory.old }
    requires free { IsUnbound memory.old.registry new.now }
    ensures known { OnOk result (KnowsObjects memory.new) }
    ensures steady { IfOk result (IsSteadyOutcome memory.new) }
    ensures whole { IfOk result (λ outcome. broken_by outcome ≡ None) }
    ensures meets { (is_next_type : List (List ℕ) → List ℕ → Bool) (storage : Storage) (due : Turn) → ComesAfterFollow new.now id memory.old storage due
        → IfOk result (λ outcome. Meets is_next_type outcome memory.new storage due) }
    ensures short { IfOk result (λ outcome. (g : Graph) → outcome_steps outcome g < 2) }
{
    let said = bind_found(memory, new, Ok(id));
    outcome_of(memory.alloc, said)
}
