//! The lines that bind names and leave them: `new`, `home`, `pick` and `drop`.

ghost use Rattle.std.specs.Prelude.{◌≡◌, ◌<◌, ◌^◌, ◌∷◌, ℕ, Bool, List, true, length, IfOk, IsSome, MatchResult, OnOk};
ghost use Rattle.graph_model.specs.Served.{Storage};
ghost use Rattle.type_dictionary.specs.Latest.{desc_of};
ghost use Rattle.session_model.specs.Answer.{State, Turn, drop_turn, home_turn, new_turn, pick_turn};
ghost use Rattle.session_model.specs.Sound.{IsSound};
ghost use Rattle.object_registry.specs.Bindings.{SameNames, binding};
ghost use Rattle.storer.specs.Gathered.{IsKnown};
ghost use Rattle.session_lines.specs.Stands.{IsAtState};
ghost use Rattle.session_lines.specs.Steady.{IsSteadyOutcome, KnowsObjects};
ghost use Rattle.session_lines.specs.Due.{Meets};
ghost use Rattle.session_lines.specs.Steps.{IsShort};
ghost use Rattle.session_lines.specs.Refusals.{Says};
ghost use Rattle.session_lines.specs.Namings.{IsFreshObject, IsMaking, IsNaming, IsNotOpen, IsOpen, IsTargetAt, IsUnbound, target_of_root};

use crate::answers::{line, numbered_line, outcome_of};
use crate::changing::root_value;
use crate::memory::Memory;
use crate::outcome::Outcome;
use crate::places::{is_root_name, is_root_type, may_bind, place_of, ref_in, refs_in};
use crate::refusal::{Refusal, Stop};
use entity_form::{Object, default_object};
use graph_model::{Bytes, ID_LIMIT, NoMemory};
use object_registry::{BindFault, Registry};
use script_text::Index;
use type_desc::Text;

/// Binds a name that is free.
fn bind(registry: &mut Registry, name: &Text, id: u64) -> Result<(), NoMemory>
    requires { IsUnbound registry.old name.now }
    ensures names { OnOk result (SameNames registry.new.names (binding name.now id ∷ registry.old.names)) }
    ensures instances { registry.new.instances ≡ registry.old.instances }
{
    match registry.bind(name, id) {
        Ok(()) => Ok(()),
        Err(BindFault::Taken { id: _ }) => unreachable!(),
        Err(BindFault::NoMemory) => Err(NoMemory),
    }
}

/// Binds the name to the id, which is answered `ok`.
pub fn bind_found(
    memory: &mut Memory,
    name: &Text,
    judged: Result<u64, Stop>,
) -> Result<Bytes, Stop>
    requires { IfOk judged (λ _. IsUnbound memory.old.registry name.now) }
    ensures known { KnowsObjects memory.old → KnowsObjects memory.new }
    ensures says { (storage : Storage) (state : State) (turn : Turn) → IsAtState memory.old storage state → IsNaming name.now judged state turn → IsSound turn.state
        → Says result memory.new storage turn }
{
    match judged {
        Ok(id) => {
            bind(&mut memory.registry, name, id)?;
            Ok(line(memory.alloc, "ok")?)
        }
        Err(stop) => Err(stop),
    }
}

/// What the root's member names, or 0.
fn root_target(memory: &Memory) -> u64
    ensures { result ≡ target_of_root memory.now.registry }
{
    match root_value(memory) {
        Some(value) => ref_in(value).unwrap_or(0),
        None => 0,
    }
}

fn home_id(memory: &Memory, name: &Text) -> Result<u64, Stop>
    ensures free { IfOk result (λ _. IsUnbound memory.now.registry name.now) }
    ensures judged { (storage : Storage) (state : State) → IsAtState memory.now storage state → IsNaming name.now result state (home_turn state name.now) }
{
    may_bind(memory, name)?;
    match root_target(memory) {
        0 => Err(Stop::Refused(Refusal::NoRoot)),
        id => Ok(id),
    }
}

/// `home NAME`: binds the name to the root's target.
pub fn home(memory: &mut Memory, name: &Text) -> Result<Outcome, NoMemory>
    requires known { KnowsObjects memory.old }
    ensures known { OnOk result (KnowsObjects memory.new) }
    ensures steady { IfOk result (IsSteadyOutcome memory.new) }
    ensures meets { (is_next_type : List (List ℕ) → List ℕ → Bool) (storage : Storage) (state : State) → IsAtState memory.old storage state → state.started ≡ true
        → IfOk result (λ outcome. Meets is_next_type outcome memory.new storage (home_turn state name.now)) }
    ensures short { IfOk result IsShort }
{
    let alloc = memory.alloc;
    let judged = home_id(memory, name);
    let said = bind_found(memory, name, judged);
    outcome_of(alloc, said)
}

/// The id at this place, unless it is null.
fn target_at(ids: &[u64], at: usize) -> Result<u64, Stop>
    requires { at < length ids.now }
    ensures { IsTargetAt ids.now at result }
{
    match ids[at] {
        0 => Err(Stop::Refused(Refusal::NoTarget)),
        id => Ok(id),
    }
}

fn pick_id(
    memory: &Memory,
    name: &Text,
    member: &Text,
    index: &Index,
    new: &Text,
) -> Result<u64, Stop>
    ensures free { IfOk result (λ _. IsUnbound memory.now.registry new.now) }
    ensures judged { (storage : Storage) (state : State) → IsAtState memory.now storage state → state.started ≡ true
        → IsNaming new.now result state (pick_turn state name.now member.now index.now new.now) }
{
    let place = place_of(memory, name, member)?;
    let Some(ids) = refs_in(place.value) else {
        return Err(Stop::Refused(Refusal::WrongKind));
    };
    let Some(at) = index.below(ids.len()) else {
        return Err(Stop::Refused(Refusal::Range));
    };
    may_bind(memory, new)?;
    target_at(ids.as_slice(), at)
}

/// `pick NAME MEMBER INDEX NEW`: binds the new name to a reference of a `refs` member.
pub fn pick(
    memory: &mut Memory,
    name: &Text,
    member: &Text,
    index: &Index,
    new: &Text,
) -> Result<Outcome, NoMemory>
    requires known { KnowsObjects memory.old }
    ensures known { OnOk result (KnowsObjects memory.new) }
    ensures steady { IfOk result (IsSteadyOutcome memory.new) }
    ensures meets { (is_next_type : List (List ℕ) → List ℕ → Bool) (storage : Storage) (state : State) → IsAtState memory.old storage state → state.started ≡ true
        → IfOk result (λ outcome. Meets is_next_type outcome memory.new storage (pick_turn state name.now member.now index.now new.now)) }
    ensures short { IfOk result IsShort }
{
    let alloc = memory.alloc;
    let judged = pick_id(memory, name, member, index, new);
    let said = bind_found(memory, new, judged);
    outcome_of(alloc, said)
}

fn unbind(memory: &mut Memory, name: &Text) -> Result<Bytes, Stop>
    ensures known { KnowsObjects memory.old → KnowsObjects memory.new }
    ensures says { (storage : Storage) (state : State) → IsAtState memory.old storage state → Says result memory.new storage (drop_turn state name.now) }
{
    if is_root_name(name) {
        return Err(Stop::Refused(Refusal::Reserved));
    }
    match memory.registry.id_of(name) {
        Some(_) => {
            memory.registry.unbind(name);
            Ok(line(memory.alloc, "ok")?)
        }
        None => Err(Stop::Refused(Refusal::NoName)),
    }
}

/// `drop NAME`: leaves the name unbound.
pub fn drop_name(memory: &mut Memory, name: &Text) -> Result<Outcome, NoMemory>
    requires known { KnowsObjects memory.old }
    ensures known { OnOk result (KnowsObjects memory.new) }
    ensures steady { IfOk result (IsSteadyOutcome memory.new) }
    ensures meets { (is_next_type : List (List ℕ) → List ℕ → Bool) (storage : Storage) (state : State) → IsAtState memory.old storage state → state.started ≡ true
        → IfOk result (λ outcome. Meets is_next_type outcome memory.new storage (drop_turn state name.now)) }
    ensures short { IfOk result IsShort }
{
    let alloc = memory.alloc;
    let said = unbind(memory, name);
    outcome_of(alloc, said)
}

/// Whether the name may be bound to an object of the type: `Reserved`, then `NameTaken`.
fn may_make(memory: &Memory, name: &Text, type_name: &Text) -> Result<(), Stop>
    ensures { MatchResult result (λ _. IsOpen memory.now.registry name.now type_name.now) (IsNotOpen memory.now.registry name.now type_name.now) }
{
    if is_root_name(name) || is_root_type(type_name) {
        return Err(Stop::Refused(Refusal::Reserved));
    }
    match memory.registry.id_of(name) {
        Some(_) => Err(Stop::Refused(Refusal::NameTaken)),
        None => Ok(()),
    }
}

/// An object of the type, each member with its default.
fn fresh_object(memory: &Memory, type_id: u64) -> Result<Object, Stop>
    requires { IsSome (desc_of memory.now.types type_id) }
    ensures fresh { IsFreshObject memory.now.types type_id result }
    ensures typed { IfOk result (IsKnown memory.now.types) }
{
    match memory.types.by_id(type_id) {
        Some(desc) => Ok(default_object(memory.alloc, type_id, desc)?),
        None => unreachable!(),
    }
}

/// The object that is made: `Reserved`, `NameTaken`, `NoType`, `Full`.
fn new_object(memory: &Memory, name: &Text, type_name: &Text) -> Result<Object, Stop>
    ensures free { IfOk result (λ _. IsUnbound memory.now.registry name.now) }
    ensures room { IfOk result (λ _. memory.now.next_id < 2 ^ 48) }
    ensures typed { IfOk result (IsKnown memory.now.types) }
    ensures judged { (storage : Storage) (state : State) → IsAtState memory.now storage state → IsMaking name.now result state (new_turn state name.now type_name.now) }
{
    may_make(memory, name, type_name)?;
    let Some(type_id) = memory.types.latest(type_name) else {
        return Err(Stop::Refused(Refusal::NoType));
    };
    if memory.next_id >= ID_LIMIT {
        return Err(Stop::Refused(Refusal::Full));
    }
    fresh_object(memory, type_id)
}

/// Gives the object the next id, and binds the name to it.
fn put_object(memory: &mut Memory, name: &Text, judged: Result<Object, Stop>) -> Result<Bytes, Stop>
    requires free { IfOk judged (λ _. IsUnbound memory.old.registry name.now) }
    requires room { IfOk judged (λ _. memory.old.next_id < 2 ^ 48) }
    requires typed { IfOk judged (IsKnown memory.old.types) }
    ensures known { KnowsObjects memory.old → KnowsObjects memory.new }
    ensures says { (storage : Storage) (state : State) (turn : Turn) → IsAtState memory.old storage state → IsMaking name.now judged state turn → IsSound turn.state
        → Says result memory.new storage turn }
{
    match judged {
        Ok(object) => {
            let id = memory.next_id;
            memory.registry.put_new(id, object)?;
            bind(&mut memory.registry, name, id)?;
            memory.next_id = id + 1;
            Ok(numbered_line(memory.alloc, "new ", id)?)
        }
        Err(stop) => Err(stop),
    }
}

/// `new NAME TYPE`: binds the name to a new object of the latest type of that name, each member with its default.
pub fn new(memory: &mut Memory, name: &Text, type_name: &Text) -> Result<Outcome, NoMemory>
    requires known { KnowsObjects memory.old }
    ensures known { OnOk result (KnowsObjects memory.new) }
    ensures steady { IfOk result (IsSteadyOutcome memory.new) }
    ensures meets { (is_next_type : List (List ℕ) → List ℕ → Bool) (storage : Storage) (state : State) → IsAtState memory.old storage state → state.started ≡ true
        → IfOk result (λ outcome. Meets is_next_type outcome memory.new storage (new_turn state name.now type_name.now)) }
    ensures short { IfOk result IsShort }
{
    let alloc = memory.alloc;
    let judged = new_object(memory, name, type_name);
    let said = put_object(memory, name, judged);
    outcome_of(alloc, said)
}
