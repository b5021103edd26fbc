//! What a command comes to.

ghost use Rattle.std.specs.Prelude.{◌≡◌, ◌<◌, ◌+◌, ◌*◌, ◌&&◌, not, ℕ, Bool, List, true, Some, None, length, IfOk, OnOk};
ghost use Rattle.graph_model.specs.Graph.{Graph};
ghost use Rattle.graph_model.specs.Served.{Storage};
ghost use Rattle.session_model.specs.Answer.{State, command_turn, needs_start, turn_of};
ghost use Rattle.script_text.specs.Meaning.{meant};
ghost use Rattle.session_lines.specs.Broken.{broken_by};
ghost use Rattle.session_lines.specs.Stands.{Admits, IsAtState};
ghost use Rattle.session_lines.specs.Steady.{IsSteadyOutcome, KnowsObjects};
ghost use Rattle.session_lines.specs.Due.{Meets};
ghost use Rattle.session_lines.specs.Limits.{most_bytes};
ghost use Rattle.session_lines.specs.Loads.{IsRead};
ghost use Rattle.session_lines.specs.Steps.{outcome_steps};

use crate::export_line::export;
use crate::loading::{follow, load_root, make_root};
use crate::storing::{store, store_all};
use graph_model::NoMemory;
use script_text::Command;
use session_lines::{
    Memory, Outcome, add_to, collect, cut_from, declare_type, drop_name, forget, home, new, pick,
    refactor, set_member, set_root, show, tidy,
};

/// Carries out a command, once the script has begun where the command needs that.
pub fn carry_out(memory: &mut Memory, command: Command) -> Result<Outcome, NoMemory>
    requires read { IsRead command }
    requires known { KnowsObjects memory.old }
    ensures known { OnOk result (KnowsObjects memory.new) }
    ensures steady { IfOk result (IsSteadyOutcome memory.new) }
    ensures whole { IfOk result (λ outcome. broken_by outcome ≡ None) }
    ensures meets { (is_next_type : List (List ℕ) → List ℕ → Bool) (storage : Storage) (state : State) → Admits is_next_type → IsAtState memory.old storage state
        → (needs_start (meant command) ≡ true → state.started ≡ true) → IfOk result (λ outcome. Meets is_next_type outcome memory.new storage (command_turn most_bytes state (meant command))) }
    ensures few { (g : Graph) → IfOk result (λ outcome. outcome_steps outcome g < 4 * length g + 4) }
{
    match command {
        Command::DeclareType(desc) => declare_type(memory, &desc),
        Command::Refactor(old, new) => refactor(memory, old, new),
        Command::New { name, type_name } => new(memory, &name, &type_name),
        Command::SetMember { name, member, rest } => set_member(memory, &name, &member, rest),
        Command::AddTo {
            name,
            member,
            target,
        } => add_to(memory, &name, &member, &target),
        Command::CutFrom {
            name,
            member,
            index,
        } => cut_from(memory, &name, &member, &index),
        Command::SetRoot(name) => set_root(memory, &name),
        Command::Store(name) => store(memory, &name),
        Command::StoreAll(name) => store_all(memory, &name),
        Command::Show(name) => show(memory, &name),
        Command::Home(name) => home(memory, &name),
        Command::Follow { name, member, new } => follow(memory, &name, &member, new),
        Command::Pick {
            name,
            member,
            index,
            new,
        } => pick(memory, &name, &member, &index, &new),
        Command::DropName(name) => drop_name(memory, &name),
        Command::Forget => forget(memory),
        Command::Collect => Ok(collect()),
        Command::Tidy => tidy(memory.alloc),
        Command::Export => export(memory),
    }
}

/// Whether the command comes only once the script has begun. Lines about types alone come before, too.
fn needs_start(command: &Command) -> bool
    ensures { result ≡ needs_start (meant command.now) }
{
    match command {
        Command::DeclareType(_) | Command::Refactor(_, _) => false,
        _ => true,
    }
}

/// Whether the script has to begin before the command.
fn must_begin(memory: &Memory, command: &Command) -> bool
    ensures { result ≡ (needs_start (meant command.now) && not memory.now.started) }
{
    needs_start(command) && !memory.started
}

/// Begins the script where the command needs that, and carries the command out.
pub fn take_command(memory: &mut Memory, command: Command) -> Result<Outcome, NoMemory>
    requires read { IsRead command }
    requires known { KnowsObjects memory.old }
    ensures known { OnOk result (KnowsObjects memory.new) }
    ensures steady { IfOk result (IsSteadyOutcome memory.new) }
    ensures whole { IfOk result (λ outcome. broken_by outcome ≡ None) }
    ensures meets { (is_next_type : List (List ℕ) → List ℕ → Bool) (storage : Storage) (state : State) → Admits is_next_type → IsAtState memory.old storage state
        → IfOk result (λ outcome. Meets is_next_type outcome memory.new storage (turn_of most_bytes state (Some (meant command)))) }
{
    if !must_begin(memory, &command) {
        return carry_out(memory, command);
    }
    if memory.rooted {
        return load_root(memory, command);
    }
    make_root(memory)?;
    carry_out(memory, command)
}
