//! The lines that tell of what is there or ask a storage, and change no object: `show`, `forget`, `collect` and `tidy`.

ghost use Rattle.std.specs.Prelude.{◌≡◌, ◌++◌, ◌∷◌, [], ℕ, Bool, List, true, codes, IfOk, MatchOption, OnOk};
ghost use Rattle.graph_model.specs.Served.{Storage};
ghost use Rattle.session_model.specs.Answer.{State, collect_turn, forget_turn, show_turn, tidy_turn};
ghost use Rattle.session_lines.specs.declared.memory.Memory.{Memory as AnyMemory};
ghost use Rattle.session_lines.specs.Stands.{IsAtState};
ghost use Rattle.session_lines.specs.Due.{Meets};
ghost use Rattle.session_lines.specs.Steady.{IsSteadyOutcome, KnowsObjects};
ghost use Rattle.session_lines.specs.Steps.{IsShort};
ghost use Rattle.session_lines.specs.Refusals.{Says};
ghost use Rattle.session_lines.specs.Shown.{IsDescOf, LacksDesc};

use crate::answers::{line, numbered_line, outcome_of};
use crate::memory::Memory;
use crate::outcome::{Outcome, Phase};
use crate::places::named;
use crate::refusal::{Refusal, Stop};
use graph_export::line_of;
use graph_model::{Ask, Bytes, NoMemory};
use object_registry::Instance;
use std::alloc::Global;
use type_desc::{Text, TypeDesc};

/// The description of an object's type. None where its members are not as many as the object's values, which no object of a script has.
fn desc_of<'a>(memory: &'a Memory, instance: &Instance) -> Option<&'a TypeDesc>
    ensures { MatchOption result (LacksDesc memory.now.types instance.now) (λ desc. IsDescOf memory.now.types instance.now desc.now) }
{
    let object = instance.object();
    let desc = memory.types.by_id(object.type_id)?;
    if desc.members.len() == object.values.len() {
        Some(desc)
    } else {
        None
    }
}

/// The text with a line feed behind it.
pub fn with_line_feed(text: Bytes) -> Result<Bytes, NoMemory>
    ensures { IfOk result (λ line. line ≡ text ++ 10 ∷ []) }
{
    let mut bytes = text.into_vec();
    bytes.push(b'\n')?;
    Ok(Bytes::new(bytes))
}

fn object_line(memory: &Memory, name: &Text) -> Result<Bytes, Stop>
    ensures { (storage : Storage) (state : State) → IsAtState memory.now storage state → state.started ≡ true → Says result memory.now storage (show_turn state name.now) }
{
    let Some((id, instance)) = named(memory, name) else {
        return Err(Stop::Refused(Refusal::NoName));
    };
    match desc_of(memory, instance) {
        Some(desc) => {
            let text = line_of(memory.alloc, id, instance.object(), desc)?;
            Ok(with_line_feed(text)?)
        }
        None => Err(Stop::Refused(Refusal::NoType)),
    }
}

/// `show NAME`: the object as a line of JSON.
pub fn show(memory: &Memory, name: &Text) -> Result<Outcome, NoMemory>
    ensures steady { IfOk result (IsSteadyOutcome memory.now) }
    ensures meets { (is_next_type : List (List ℕ) → List ℕ → Bool) (storage : Storage) (state : State) → IsAtState memory.now storage state → state.started ≡ true
        → IfOk result (λ outcome. Meets is_next_type outcome memory.now storage (show_turn state name.now)) }
    ensures short { IfOk result IsShort }
{
    let said = object_line(memory, name);
    outcome_of(memory.alloc, said)
}

/// `forget`: gives up the objects that no name leads to. The storage is asked to hold their ids no longer.
pub fn forget(memory: &mut Memory) -> Result<Outcome, NoMemory>
    requires known { KnowsObjects memory.old }
    ensures known { OnOk result (KnowsObjects memory.new) }
    ensures steady { IfOk result (IsSteadyOutcome memory.new) }
    ensures meets { (is_next_type : List (List ℕ) → List ℕ → Bool) (storage : Storage) (state : State) → IsAtState memory.old storage state → state.started ≡ true
        → IfOk result (λ outcome. Meets is_next_type outcome memory.new storage (forget_turn state)) }
    ensures short { IfOk result IsShort }
{
    let forgotten = memory.registry.forget()?;
    let text = numbered_line(memory.alloc, "forgot ", forgotten.count)?;
    Ok(Outcome::Ask(Ask::Release(forgotten.released), Phase::Saying(text)))
}

/// `collect`: the storage is asked to remove what is not reached.
pub fn collect() -> Outcome
    ensures steady { (memory : AnyMemory) → IsSteadyOutcome memory result }
    ensures meets { (is_next_type : List (List ℕ) → List ℕ → Bool) (memory : AnyMemory) (storage : Storage) (state : State) → IsAtState memory storage state
        → Meets is_next_type result memory storage (collect_turn state) }
    ensures short { IsShort result }
{
    Outcome::Ask(Ask::Collect, Phase::Collecting)
}

/// `tidy`: the storage is asked to dissolve files that are used too little.
pub fn tidy(alloc: Global) -> Result<Outcome, NoMemory>
    ensures steady { (memory : AnyMemory) → IfOk result (IsSteadyOutcome memory) }
    ensures meets { (is_next_type : List (List ℕ) → List ℕ → Bool) (memory : AnyMemory) (storage : Storage) (state : State) → IsAtState memory storage state
        → IfOk result (λ outcome. Meets is_next_type outcome memory storage (tidy_turn state)) }
    ensures short { IfOk result IsShort }
{
    let text = line(alloc, "tidied")?;
    Ok(Outcome::Ask(Ask::Tidy, Phase::Saying(text)))
}
