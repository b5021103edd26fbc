//! What a line, and the reply to what was asked, come to.

ghost use Rattle.std.specs.Prelude.{◌≡◌, ◌<◌, ℕ, Bool, List, true, Some, None, IfOk, OnOk};
ghost use Rattle.graph_model.specs.Graph.{Graph, lists};
ghost use Rattle.graph_model.specs.Served.{Storage};
ghost use Rattle.session_model.specs.Answer.{Turn};
ghost use Rattle.session_lines.specs.Broken.{IsBrokenAt, asked_in, broken_by, entity_in, taken_for};
ghost use Rattle.session.specs.Dealing.{BeginsLine};
ghost use Rattle.session_lines.specs.Due.{Meets, Replied, stored_text};
ghost use Rattle.session.specs.Fitting.{TakesReply};
ghost use Rattle.session_lines.specs.Loads.{ComesAfterLoading};
ghost use Rattle.session_lines.specs.Stands.{Admits};
ghost use Rattle.session_lines.specs.Steady.{IsSteadyLoading, IsSteadyOutcome, IsSteadyPhase, IsSteadyPurpose, IsSmallId, KnowsObjects};
ghost use Rattle.session_lines.specs.Steps.{IsListed, export_steps, outcome_steps, phase_steps, purpose_steps};
ghost use Rattle.session_lines.specs.declared.memory.Memory.{Memory as AnyMemory};
ghost use Rattle.session_lines.specs.declared.outcome.Phase.{Phase as AnyPhase};

use crate::commands::{carry_out, take_command};
use crate::export_line::export_on;
use crate::loading::{bind_loaded, load_on};
use graph_model::{Bytes, NoMemory, Reply};
use lazy_refs::Loading;
use script_text::{LineFault, read_line};
use session_lines::{
    Export, Memory, Outcome, Phase, Purpose, Refusal, numbered_line, refusal_line,
};
use std::alloc::Global;

/// What a line of the script comes to.
pub fn take_line(memory: &mut Memory, text: &Bytes) -> Result<Outcome, NoMemory>
    requires known { KnowsObjects memory.old }
    ensures known { OnOk result (KnowsObjects memory.new) }
    ensures steady { IfOk result (IsSteadyOutcome memory.new) }
    ensures whole { IfOk result (λ outcome. broken_by outcome ≡ None) }
    ensures meets { (is_next_type : List (List ℕ) → List ℕ → Bool) (storage : Storage) (due : Turn) → Admits is_next_type → BeginsLine text.now memory.old storage due
        → IfOk result (λ outcome. Meets is_next_type outcome memory.new storage due) }
{
    match read_line(memory.alloc, text.as_slice()) {
        Ok(command) => take_command(memory, command),
        Err(LineFault::BadLine { at: _ }) => {
            Ok(Outcome::Answer(refusal_line(memory.alloc, Refusal::BadLine)?))
        }
        Err(LineFault::NoMemory) => Err(NoMemory),
    }
}

/// The answer to a store of so many records.
fn stored_line(alloc: Global, number: u64, count: u64) -> Result<Bytes, NoMemory>
    ensures { IfOk result (λ bytes. bytes ≡ stored_text number count) }
{
    let line = format!(in alloc; "stored {number} {count}\n")?;
    Ok(Bytes::new(line.into_bytes()))
}

fn take_stored(alloc: Global, count: u64, reply: Reply) -> Result<Outcome, NoMemory>
    requires { TakesReply (AnyPhase.Storing count) reply }
    ensures steady { (memory : AnyMemory) → IfOk result (IsSteadyOutcome memory) }
    ensures whole { IfOk result (λ outcome. broken_by outcome ≡ None) }
    ensures meets { (is_next_type : List (List ℕ) → List ℕ → Bool) (memory : AnyMemory) (storage : Storage) (due : Turn) → Replied (AnyPhase.Storing count) reply memory storage due
        → IfOk result (λ outcome. Meets is_next_type outcome memory storage due) }
    ensures few { (g : Graph) → IfOk result (λ outcome. outcome_steps outcome g < 2) }
{
    let Reply::Stored(number) = reply else {
        unreachable!();
    };
    Ok(Outcome::Answer(stored_line(alloc, number, count)?))
}

fn take_count(alloc: Global, reply: Reply) -> Result<Outcome, NoMemory>
    requires { TakesReply AnyPhase.Collecting reply }
    ensures steady { (memory : AnyMemory) → IfOk result (IsSteadyOutcome memory) }
    ensures whole { IfOk result (λ outcome. broken_by outcome ≡ None) }
    ensures meets { (is_next_type : List (List ℕ) → List ℕ → Bool) (memory : AnyMemory) (storage : Storage) (due : Turn) → Replied AnyPhase.Collecting reply memory storage due
        → IfOk result (λ outcome. Meets is_next_type outcome memory storage due) }
    ensures few { (g : Graph) → IfOk result (λ outcome. outcome_steps outcome g < 2) }
{
    let Reply::Count(count) = reply else {
        unreachable!();
    };
    Ok(Outcome::Answer(numbered_line(alloc, "kept ", count)?))
}

fn take_loaded(
    memory: &mut Memory,
    loading: Loading,
    purpose: Purpose,
    reply: Reply,
) -> Result<Outcome, NoMemory>
    requires takes { TakesReply (AnyPhase.Looking loading purpose) reply }
    requires known { KnowsObjects memory.old }
    requires loading { IsSteadyLoading memory.old loading }
    requires purpose { IsSteadyPurpose memory.old purpose }
    ensures known { OnOk result (KnowsObjects memory.new) }
    ensures steady { IfOk result (IsSteadyOutcome memory.new) }
    ensures broken { IfOk result (λ outcome. IsBrokenAt memory.old.types (taken_for (Some loading.asked) (entity_in reply)) (broken_by outcome)) }
    ensures meets { (is_next_type : List (List ℕ) → List ℕ → Bool) (storage : Storage) (due : Turn) → Replied (AnyPhase.Looking loading purpose) reply memory.old storage due
        → IfOk result (λ outcome. Meets is_next_type outcome memory.new storage due) }
    ensures nearer { (g : Graph) → lists g loading.asked ≡ true → IfOk result (λ outcome. outcome_steps outcome g < phase_steps (AnyPhase.Looking loading purpose) g) }
{
    let Reply::Found(entity) = reply else {
        unreachable!();
    };
    load_on(memory, loading, purpose, entity)
}

/// The objects are in memory, and the storage holds them.
fn go_on(memory: &mut Memory, purpose: Purpose) -> Result<Outcome, NoMemory>
    requires known { KnowsObjects memory.old }
    requires purpose { IsSteadyPurpose memory.old purpose }
    ensures known { OnOk result (KnowsObjects memory.new) }
    ensures steady { IfOk result (IsSteadyOutcome memory.new) }
    ensures whole { IfOk result (λ outcome. broken_by outcome ≡ None) }
    ensures meets { (is_next_type : List (List ℕ) → List ℕ → Bool) (storage : Storage) (due : Turn) → Admits is_next_type → ComesAfterLoading purpose memory.old storage due
        → IfOk result (λ outcome. Meets is_next_type outcome memory.new storage due) }
    ensures nearer { (g : Graph) → IfOk result (λ outcome. outcome_steps outcome g < purpose_steps purpose g) }
{
    match purpose {
        Purpose::Start(command) => carry_out(memory, command),
        Purpose::Follow { new, id } => bind_loaded(memory, &new, id),
    }
}

fn take_exported(memory: &Memory, export: Export, reply: Reply) -> Result<Outcome, NoMemory>
    requires takes { TakesReply (AnyPhase.Exporting export) reply }
    requires asked { IsSmallId export.asked }
    ensures steady { IfOk result (IsSteadyOutcome memory.now) }
    ensures broken { IfOk result (λ outcome. IsBrokenAt memory.now.types (taken_for export.asked (entity_in reply)) (broken_by outcome)) }
    ensures meets { (is_next_type : List (List ℕ) → List ℕ → Bool) (storage : Storage) (due : Turn) → Replied (AnyPhase.Exporting export) reply memory.now storage due
        → IfOk result (λ outcome. Meets is_next_type outcome memory.now storage due) }
    ensures nearer { (g : Graph) → IsListed export.asked g → IfOk result (λ outcome. outcome_steps outcome g < export_steps export g) }
{
    let Reply::Found(entity) = reply else {
        unreachable!();
    };
    export_on(memory, export, entity)
}

/// What the reply comes to, in the phase that waits for it.
pub fn take_reply(memory: &mut Memory, phase: Phase, reply: Reply) -> Result<Outcome, NoMemory>
    requires takes { TakesReply phase reply }
    requires known { KnowsObjects memory.old }
    requires phase { IsSteadyPhase memory.old phase }
    ensures known { OnOk result (KnowsObjects memory.new) }
    ensures steady { IfOk result (IsSteadyOutcome memory.new) }
    ensures broken { IfOk result (λ outcome. IsBrokenAt memory.old.types (taken_for (asked_in phase) (entity_in reply)) (broken_by outcome)) }
    ensures meets { (is_next_type : List (List ℕ) → List ℕ → Bool) (storage : Storage) (due : Turn) → Admits is_next_type → Replied phase reply memory.old storage due
        → IfOk result (λ outcome. Meets is_next_type outcome memory.new storage due) }
    ensures nearer { (g : Graph) → IsListed (asked_in phase) g → IfOk result (λ outcome. outcome_steps outcome g < phase_steps phase g) }
{
    match phase {
        Phase::Saying(text) => Ok(Outcome::Answer(text)),
        Phase::Storing(count) => take_stored(memory.alloc, count, reply),
        Phase::Collecting => take_count(memory.alloc, reply),
        Phase::Looking(loading, purpose) => take_loaded(memory, loading, purpose, reply),
        Phase::Holding(purpose) => go_on(memory, purpose),
        Phase::Exporting(export) => take_exported(memory, export, reply),
    }
}
