//! The lines that give a member another value: `set`, `add`, `cut` and `root`.

ghost use Rattle.std.specs.Prelude.{◌≡◌, ◌↔◌, ℕ, Bool, List, Some, true, option_map, IfOk, OnErr, OnOk, IsTrue};
ghost use Rattle.graph_model.specs.Served.{Storage};
ghost use Rattle.type_desc.specs.declared.desc.Kind.{Kind as AnyKind};
ghost use Rattle.entity_form.specs.Values.{kind_of};
ghost use Rattle.entity_form.specs.declared.value.Value.{Value as AnyValue};
ghost use Rattle.session_model.specs.Answer.{State, Turn, add_turn, cut_turn, given, given_bytes, given_id, given_int, root_turn, set_turn, target_id};
ghost use Rattle.session_model.specs.Commands.{SetMember, integer_of, target_of};
ghost use Rattle.session_model.specs.Answer.{hex_bytes};
ghost use Rattle.session_model.specs.Sound.{IsProperCommand, IsSound};
ghost use Rattle.object_registry.specs.Bindings.{SameNames};
ghost use Rattle.script_text.specs.Meaning.{target_meant};
ghost use Rattle.session_lines.specs.Stands.{IsAtState};
ghost use Rattle.session_lines.specs.Due.{Meets};
ghost use Rattle.session_lines.specs.Steps.{IsShort};
ghost use Rattle.session_lines.specs.Refusals.{Says};
ghost use Rattle.session_lines.specs.Steady.{IsSteadyOutcome, KnowsObjects};
ghost use Rattle.session_lines.specs.Changes.{IsValueGiven, IsChange, IsMade, MayChange, root_value};

use crate::answers::{line, outcome_of};
use crate::memory::Memory;
use crate::outcome::Outcome;
use crate::places::{named, place_of, refs_in};
use crate::refusal::{Refusal, Stop};
use entity_form::Value;
use graph_model::{Bytes, NoMemory, ROOT_ID};
use object_registry::Registry;
use script_text::{GivenInteger, Index, Target, bytes_in, integer_in, target_in};
use std::alloc::Global;
use type_desc::Text;

/// How a member's value changes.
#[derive(Debug, Drop)]
pub enum Edit {
    /// It is another value of the same kind.
    Set(Value),
    /// The id comes behind the last of a list.
    Push(u64),
    /// The id with this index is taken out of a list, and the rest close up.
    Take(usize),
}

/// A change of a member.
#[derive(Debug, Drop)]
pub struct Change {
    /// The object's id.
    pub id: u64,
    /// The member's index, from 0.
    pub index: u32,
    pub edit: Edit,
}

/// Makes the change in place. With no memory, nothing changes.
fn make_change(registry: &mut Registry, change: Change) -> Result<(), NoMemory>
    requires { MayChange registry.old change }
    ensures ok { OnOk result (IsMade change registry.old.instances registry.new.instances) }
    ensures err { OnErr result (registry.new.instances ≡ registry.old.instances) }
    ensures names { registry.new.names ≡ registry.old.names }
{
    let Change { id, index, edit } = change;
    match edit {
        Edit::Set(value) => {
            registry.set(id, index, value);
            Ok(())
        }
        Edit::Push(target) => registry.push_ref(id, index, target),
        Edit::Take(at) => {
            registry.take_ref(id, index, at);
            Ok(())
        }
    }
}

/// Makes the change, which is answered `ok`.
fn apply(memory: &mut Memory, judged: Result<Change, Stop>) -> Result<Bytes, Stop>
    requires { IfOk judged (MayChange memory.old.registry) }
    ensures known { KnowsObjects memory.old → KnowsObjects memory.new }
    ensures says { (storage : Storage) (state : State) (turn : Turn) → IsAtState memory.old storage state → IsChange judged state turn → IsSound turn.state
        → Says result memory.new storage turn }
{
    match judged {
        Ok(change) => {
            make_change(&mut memory.registry, change)?;
            Ok(line(memory.alloc, "ok")?)
        }
        Err(stop) => Err(stop),
    }
}

fn changed(memory: &mut Memory, judged: Result<Change, Stop>) -> Result<Outcome, NoMemory>
    requires may { IfOk judged (MayChange memory.old.registry) }
    requires known { KnowsObjects memory.old }
    ensures known { OnOk result (KnowsObjects memory.new) }
    ensures steady { IfOk result (IsSteadyOutcome memory.new) }
    ensures meets { (is_next_type : List (List ℕ) → List ℕ → Bool) (storage : Storage) (state : State) (turn : Turn) → IsAtState memory.old storage state → IsChange judged state turn
        → IsSound turn.state → IfOk result (λ outcome. Meets is_next_type outcome memory.new storage turn) }
    ensures short { IfOk result IsShort }
{
    let alloc = memory.alloc;
    let said = apply(memory, judged);
    outcome_of(alloc, said)
}

/// What the rest of a line is for an `int` member.
fn int_in(rest: &Text) -> Result<i64, Stop>
    ensures { IsValueGiven AnyValue.Int result (given_int (integer_of rest.now)) }
{
    match integer_in(rest) {
        GivenInteger::Fits(number) => Ok(number),
        GivenInteger::Misfits => Err(Stop::Refused(Refusal::WrongKind)),
        GivenInteger::OutOfRange => Err(Stop::Refused(Refusal::Range)),
    }
}

/// What the rest of a line is for a `bytes` member.
fn hex_in(alloc: Global, rest: &Text) -> Result<Bytes, Stop>
    ensures { IsValueGiven AnyValue.Bytes result (given_bytes (hex_bytes rest.now)) }
{
    match bytes_in(alloc, rest)? {
        Some(bytes) => Ok(Bytes::new(bytes)),
        None => Err(Stop::Refused(Refusal::WrongKind)),
    }
}

/// The id that a name is bound to, or 0 for `null`.
fn id_of(memory: &Memory, target: &Target) -> Option<u64>
    ensures { (state : State) → SameNames memory.now.registry.names state.names → result ≡ target_id state (Some (target_meant target.now)) }
{
    match target {
        Target::Null => Some(0),
        Target::Named(name) => memory.registry.id_of(name),
    }
}

/// What the rest of a line is for a `ref` or `lazy` member.
fn id_in(memory: &Memory, rest: &Text) -> Result<u64, Stop>
    ensures { (make : ℕ → AnyValue) (state : State) → SameNames memory.now.registry.names state.names → IsValueGiven make result (given_id make state (target_of rest.now)) }
{
    let Some(target) = target_in(memory.alloc, rest)? else {
        return Err(Stop::Refused(Refusal::WrongKind));
    };
    match id_of(memory, &target) {
        Some(id) => Ok(id),
        None => Err(Stop::Refused(Refusal::NoName)),
    }
}

/// What the rest of a line is for a member that has this value now: `WrongKind`, `Range`, `NoName`.
fn value_in(memory: &Memory, value: &Value, rest: Text) -> Result<Value, Stop>
    ensures kind { IfOk result (λ new. kind_of new ≡ kind_of value.now) }
    ensures given { (state : State) → SameNames memory.now.registry.names state.names → IsValueGiven (λ v. v) result (given state rest (Some value.now)) }
{
    match value {
        Value::Int(_) => Ok(Value::Int(int_in(&rest)?)),
        Value::Text(_) => Ok(Value::Text(rest)),
        Value::Bytes(_) => Ok(Value::Bytes(hex_in(memory.alloc, &rest)?)),
        Value::Ref(_) => Ok(Value::Ref(id_in(memory, &rest)?)),
        Value::Lazy(_) => Ok(Value::Lazy(id_in(memory, &rest)?)),
        Value::Refs(_) => Err(Stop::Refused(Refusal::WrongKind)),
    }
}

fn set_change(memory: &Memory, name: &Text, member: &Text, rest: Text) -> Result<Change, Stop>
    ensures fits { IfOk result (MayChange memory.now.registry) }
    ensures judged { (storage : Storage) (state : State) → IsAtState memory.now storage state → state.started ≡ true → IsChange result state (set_turn state name.now member.now rest) }
{
    let place = place_of(memory, name, member)?;
    let value = value_in(memory, place.value, rest)?;
    Ok(Change {
        id: place.id,
        index: place.index,
        edit: Edit::Set(value),
    })
}

/// `set NAME MEMBER REST`: gives a member the value that the rest of the line spells.
pub fn set_member(
    memory: &mut Memory,
    name: &Text,
    member: &Text,
    rest: Text,
) -> Result<Outcome, NoMemory>
    requires known { KnowsObjects memory.old }
    ensures known { OnOk result (KnowsObjects memory.new) }
    ensures steady { IfOk result (IsSteadyOutcome memory.new) }
    ensures meets { (is_next_type : List (List ℕ) → List ℕ → Bool) (storage : Storage) (state : State) → IsAtState memory.old storage state → state.started ≡ true
        → IsProperCommand (SetMember name.now member.now rest) → IfOk result (λ outcome. Meets is_next_type outcome memory.new storage (set_turn state name.now member.now rest)) }
    ensures short { IfOk result IsShort }
{
    let judged = set_change(memory, name, member, rest);
    changed(memory, judged)
}

fn add_change(memory: &Memory, name: &Text, member: &Text, target: &Target) -> Result<Change, Stop>
    ensures fits { IfOk result (MayChange memory.now.registry) }
    ensures judged { (storage : Storage) (state : State) → IsAtState memory.now storage state → state.started ≡ true → IsChange result state (add_turn state name.now member.now (target_meant target.now)) }
{
    let place = place_of(memory, name, member)?;
    if refs_in(place.value).is_none() {
        return Err(Stop::Refused(Refusal::WrongKind));
    }
    let Some(id) = id_of(memory, target) else {
        return Err(Stop::Refused(Refusal::NoName));
    };
    Ok(Change {
        id: place.id,
        index: place.index,
        edit: Edit::Push(id),
    })
}

/// `add NAME MEMBER TARGET`: puts a reference at the end of a `refs` member.
pub fn add_to(
    memory: &mut Memory,
    name: &Text,
    member: &Text,
    target: &Target,
) -> Result<Outcome, NoMemory>
    requires known { KnowsObjects memory.old }
    ensures known { OnOk result (KnowsObjects memory.new) }
    ensures steady { IfOk result (IsSteadyOutcome memory.new) }
    ensures meets { (is_next_type : List (List ℕ) → List ℕ → Bool) (storage : Storage) (state : State) → IsAtState memory.old storage state → state.started ≡ true
        → IfOk result (λ outcome. Meets is_next_type outcome memory.new storage (add_turn state name.now member.now (target_meant target.now))) }
    ensures short { IfOk result IsShort }
{
    let judged = add_change(memory, name, member, target);
    changed(memory, judged)
}

fn cut_change(memory: &Memory, name: &Text, member: &Text, index: &Index) -> Result<Change, Stop>
    ensures fits { IfOk result (MayChange memory.now.registry) }
    ensures judged { (storage : Storage) (state : State) → IsAtState memory.now storage state → state.started ≡ true → IsChange result state (cut_turn state name.now member.now index.now) }
{
    let place = place_of(memory, name, member)?;
    let Some(ids) = refs_in(place.value) else {
        return Err(Stop::Refused(Refusal::WrongKind));
    };
    let Some(at) = index.below(ids.len()) else {
        return Err(Stop::Refused(Refusal::Range));
    };
    Ok(Change {
        id: place.id,
        index: place.index,
        edit: Edit::Take(at),
    })
}

/// `cut NAME MEMBER INDEX`: takes a reference out of a `refs` member, and the rest close up.
pub fn cut_from(
    memory: &mut Memory,
    name: &Text,
    member: &Text,
    index: &Index,
) -> Result<Outcome, NoMemory>
    requires known { KnowsObjects memory.old }
    ensures known { OnOk result (KnowsObjects memory.new) }
    ensures steady { IfOk result (IsSteadyOutcome memory.new) }
    ensures meets { (is_next_type : List (List ℕ) → List ℕ → Bool) (storage : Storage) (state : State) → IsAtState memory.old storage state → state.started ≡ true
        → IfOk result (λ outcome. Meets is_next_type outcome memory.new storage (cut_turn state name.now member.now index.now)) }
    ensures short { IfOk result IsShort }
{
    let judged = cut_change(memory, name, member, index);
    changed(memory, judged)
}

/// The value of the root's one member.
pub fn root_value(memory: &Memory) -> Option<&Value>
    ensures { option_map (λ value. value.now) result ≡ root_value memory.now.registry }
{
    match memory.registry.copy(ROOT_ID) {
        Some(root) => root.object().values.as_slice().first(),
        None => None,
    }
}

fn is_ref(value: &Value) -> bool
    ensures { IsTrue result ↔ (kind_of value.now ≡ AnyKind.Ref) }
{
    matches!(value, Value::Ref(_))
}

fn root_change(memory: &Memory, name: &Text) -> Result<Change, Stop>
    ensures fits { IfOk result (MayChange memory.now.registry) }
    ensures judged { (storage : Storage) (state : State) → IsAtState memory.now storage state → state.started ≡ true → IsChange result state (root_turn state name.now) }
{
    let Some((id, _)) = named(memory, name) else {
        return Err(Stop::Refused(Refusal::NoName));
    };
    match root_value(memory) {
        Some(value) if is_ref(value) => Ok(Change {
            id: ROOT_ID,
            index: 0,
            edit: Edit::Set(Value::Ref(id)),
        }),
        _ => Err(Stop::Refused(Refusal::NoMember)),
    }
}

/// `root NAME`: makes the object the root's target.
pub fn set_root(memory: &mut Memory, name: &Text) -> Result<Outcome, NoMemory>
    requires known { KnowsObjects memory.old }
    ensures known { OnOk result (KnowsObjects memory.new) }
    ensures steady { IfOk result (IsSteadyOutcome memory.new) }
    ensures meets { (is_next_type : List (List ℕ) → List ℕ → Bool) (storage : Storage) (state : State) → IsAtState memory.old storage state → state.started ≡ true
        → IfOk result (λ outcome. Meets is_next_type outcome memory.new storage (root_turn state name.now)) }
    ensures short { IfOk result IsShort }
{
    let judged = root_change(memory, name);
    changed(memory, judged)
}
