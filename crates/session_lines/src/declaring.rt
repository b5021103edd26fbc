//! The line that declares a type: `type`.

ghost use Rattle.std.specs.Prelude.{◌≡◌, ℕ, Bool, List, IfOk, OnOk};
ghost use Rattle.graph_model.specs.Served.{Storage};
ghost use Rattle.type_desc.specs.Grammar.{IsDesc};
ghost use Rattle.type_desc.specs.declared.desc.TypeDesc.{TypeDesc as AnyDesc};
ghost use Rattle.session_model.specs.Answer.{State, type_turn};
ghost use Rattle.session_lines.specs.Declarations.{IsJudgedType, IsNewType, IsSomeRecord};
ghost use Rattle.session_lines.specs.Stands.{Admits, IsAtState};
ghost use Rattle.session_lines.specs.Steady.{IsSteadyOutcome, KnowsObjects};
ghost use Rattle.session_lines.specs.Due.{Meets};
ghost use Rattle.session_lines.specs.Steps.{IsShort};

use crate::answers::{numbered_line, outcome_of};
use crate::memory::Memory;
use crate::outcome::{Outcome, Phase};
use crate::places::is_root_type;
use crate::refusal::{Refusal, Stop};
use graph_model::{Ask, Bytes, NoMemory};
use type_desc::TypeDesc;
use type_dictionary::{DeclareFault, Declared, RecordFault, have_no_repeat};

/// The type as it is known, or its record where it is new: `Reserved`, `Duplicate`, `Full`.
fn judged_type(memory: &Memory, desc: &TypeDesc) -> Result<Declared, Stop>
    requires { IsDesc desc.now }
    ensures { IsJudgedType memory.now.types desc.now result }
{
    if is_root_type(&desc.name) {
        return Err(Stop::Refused(Refusal::Reserved));
    }
    if !have_no_repeat(memory.alloc, desc)? {
        return Err(Stop::Refused(Refusal::Duplicate));
    }
    match memory.types.declare(desc) {
        Ok(declared) => Ok(declared),
        Err(DeclareFault::TooManyTypes) => Err(Stop::Refused(Refusal::Full)),
        Err(DeclareFault::NoMemory) => Err(Stop::NoMemory),
    }
}

/// Adds the record of a new type, and asks the storage to keep it.
fn keep_type(memory: &mut Memory, id: u64, text: Bytes) -> Result<Outcome, NoMemory>
    requires spelled { IsSomeRecord memory.old.types text }
    requires known { KnowsObjects memory.old }
    ensures known { OnOk result (KnowsObjects memory.new) }
    ensures steady { IfOk result (IsSteadyOutcome memory.new) }
    ensures meets { (is_next_type : List (List ℕ) → List ℕ → Bool) (desc : AnyDesc) (storage : Storage) (state : State) → IsNewType memory.old.types desc id text → Admits is_next_type
        → IsAtState memory.old storage state → IfOk result (λ outcome. Meets is_next_type outcome memory.new storage (type_turn state desc)) }
    ensures short { IfOk result IsShort }
{
    let answer = numbered_line(memory.alloc, "type ", id)?;
    match memory.types.add_record(text.as_slice()) {
        Ok(()) => Ok(Outcome::Ask(Ask::KeepType(text), Phase::Saying(answer))),
        Err(RecordFault::Bad) => unreachable!(),
        Err(RecordFault::NoMemory) => Err(NoMemory),
    }
}

/// `type TYPE KIND:MEMBER ..`: makes the type the latest of its name. A type that is new is kept by the storage before its id is told.
pub fn declare_type(memory: &mut Memory, desc: &TypeDesc) -> Result<Outcome, NoMemory>
    requires grammar { IsDesc desc.now }
    requires known { KnowsObjects memory.old }
    ensures known { OnOk result (KnowsObjects memory.new) }
    ensures steady { IfOk result (IsSteadyOutcome memory.new) }
    ensures meets { (is_next_type : List (List ℕ) → List ℕ → Bool) (storage : Storage) (state : State) → Admits is_next_type → IsAtState memory.old storage state
        → IfOk result (λ outcome. Meets is_next_type outcome memory.new storage (type_turn state desc.now)) }
    ensures short { IfOk result IsShort }
{
    match judged_type(memory, desc) {
        Ok(Declared::Known(id)) => Ok(Outcome::Answer(numbered_line(memory.alloc, "type ", id)?)),
        Ok(Declared::New { id, text }) => keep_type(memory, id, text),
        Err(stop) => outcome_of(memory.alloc, Err(stop)),
    }
}
