//! The line `export`.

ghost use Rattle.std.specs.Prelude.{◌≡◌, ◌≤◌, ◌<◌, ◌+◌, ◌*◌, ℕ, Bool, List, Some, None, true, length, IfOk};
ghost use Rattle.graph_model.specs.Graph.{Graph, lists};
ghost use Rattle.graph_model.specs.Served.{Storage};
ghost use Rattle.session_model.specs.Answer.{State, Turn, export_turn};
ghost use Rattle.session_lines.specs.Stands.{IsAtState};
ghost use Rattle.session_lines.specs.Broken.{IsBrokenAt, broken_by, broken_by_export, taken_for};
ghost use Rattle.session_lines.specs.Due.{Meets};
ghost use Rattle.session_lines.specs.ExportEnds.{IsRestBehind, steps_behind};
ghost use Rattle.session_lines.specs.Exports.{IsDueNext, IsExportStep, IsTellingFor, TellsEntity};
ghost use Rattle.session_lines.specs.Steady.{IsSmallId, IsSteadyOutcome};
ghost use Rattle.session_lines.specs.declared.memory.Memory.{Memory as AnyMemory};
ghost use Rattle.session_lines.specs.Steps.{IsListed, export_steps, outcome_steps};

use graph_model::{Ask, Entity, NoMemory, ROOT_ID};
use session_lines::{Export, ExportStep, Memory, Outcome, Phase};

/// Whether the graph has the root, once the script has begun.
fn has_root(memory: &Memory) -> bool
    ensures { (storage : Storage) (state : State) → IsAtState memory.now storage state → state.started ≡ true → result ≡ lists state.graph 1 }
{
    match memory.registry.copy(ROOT_ID) {
        Some(root) => root.is_saved(),
        None => false,
    }
}

/// What the step of an export comes to.
fn outcome_of_step(step: ExportStep, export: Export) -> Outcome
    ensures meets { (is_next_type : List (List ℕ) → List ℕ → Bool) (text : List ℕ) (state : State) (memory : AnyMemory) (storage : Storage) (due : Turn) → IsRestBehind text state memory storage due
        → IsExportStep state text export step → Meets is_next_type result memory storage due }
    ensures steady { (memory : AnyMemory) → IsDueNext export step → IsSteadyOutcome memory result }
    ensures broken { broken_by result ≡ broken_by_export step }
    ensures few { (g : Graph) → outcome_steps result g ≡ steps_behind step export g }
{
    match step {
        ExportStep::Look(id) => Outcome::Ask(Ask::Look(id), Phase::Exporting(export)),
        ExportStep::Line(bytes) => Outcome::Line(bytes, export),
        ExportStep::End(bytes) => Outcome::Answer(bytes),
        ExportStep::Broken { id } => Outcome::Broken(id),
    }
}

/// `export`: each entity that the root reaches, as it is stored, as a line of JSON.
pub fn export(memory: &Memory) -> Result<Outcome, NoMemory>
    ensures meets { (is_next_type : List (List ℕ) → List ℕ → Bool) (storage : Storage) (state : State) → IsAtState memory.now storage state → state.started ≡ true
        → IfOk result (λ outcome. Meets is_next_type outcome memory.now storage (export_turn state)) }
    ensures steady { IfOk result (IsSteadyOutcome memory.now) }
    ensures whole { IfOk result (λ outcome. broken_by outcome ≡ None) }
    ensures few { (g : Graph) → IfOk result (λ outcome. outcome_steps outcome g ≤ 4 * length g + 1) }
{
    let rooted = has_root(memory);
    let mut export = Export::start(memory.alloc, rooted);
    let step = export.next(&memory.types, None)?;
    Ok(outcome_of_step(step, export))
}

/// Takes the entity that the export asked for.
pub fn export_on(memory: &Memory, mut export: Export, entity: Entity) -> Result<Outcome, NoMemory>
    requires { IsSmallId export.asked }
    ensures meets { (is_next_type : List (List ℕ) → List ℕ → Bool) (storage : Storage) (due : Turn) → TellsEntity export entity memory.now storage due
        → IfOk result (λ outcome. Meets is_next_type outcome memory.now storage due) }
    ensures steady { IfOk result (IsSteadyOutcome memory.now) }
    ensures broken { IfOk result (λ outcome. IsBrokenAt memory.now.types (taken_for export.asked (Some entity)) (broken_by outcome)) }
    ensures nearer { (g : Graph) → IsListed export.asked g → IfOk result (λ outcome. outcome_steps outcome g < export_steps export g) }
{
    let step = export.next(&memory.types, Some(entity))?;
    Ok(outcome_of_step(step, export))
}

/// Goes on behind a line that was printed.
pub fn export_behind(memory: &Memory, mut export: Export) -> Result<Outcome, NoMemory>
    ensures meets { (is_next_type : List (List ℕ) → List ℕ → Bool) (storage : Storage) (due : Turn) → IsTellingFor export memory.now storage due
        → IfOk result (λ outcome. Meets is_next_type outcome memory.now storage due) }
    ensures steady { IfOk result (IsSteadyOutcome memory.now) }
    ensures whole { IfOk result (λ outcome. broken_by outcome ≡ None) }
    ensures few { (g : Graph) → IfOk result (λ outcome. outcome_steps outcome g ≤ export_steps export g) }
{
    let step = export.next(&memory.types, None)?;
    Ok(outcome_of_step(step, export))
}
