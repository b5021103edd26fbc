//! A session: it takes the lines of a script, and gives what is to be asked of a storage and what is to be printed.

ghost use Rattle.std.specs.Prelude.{◌≡◌, ◌≤◌, ◌<◌, ◌^◌, ℕ, Bool, List, [], true, None, IfOk, OnOk};
ghost use Rattle.graph_model.specs.Graph.{Graph, lists};
ghost use Rattle.graph_model.specs.Served.{SameIds, Storage};
ghost use Rattle.type_dictionary.specs.Records.{records_from};
ghost use Rattle.session_model.specs.Answer.{Turn, opened};
ghost use Rattle.session_model.specs.Sound.{AreTypes, IsRightGraph};
ghost use Rattle.session.specs.BrokenSteps.{IsBrokenWhere, broken_at};
ghost use Rattle.session.specs.Dealing.{AfterPrint, AfterReply, BeginsLine, ComesNearer, IsDueStep, MayGive};
ghost use Rattle.session.specs.Fitting.{Fits, FitsBehind, LooksUp};
ghost use Rattle.session.specs.Sessions.{session_of};
ghost use Rattle.session.specs.declared.session.Given.{Given as AnyGiven};
ghost use Rattle.session_lines.specs.Broken.{broken_by, looked_up};
ghost use Rattle.session_lines.specs.Due.{Meets};
ghost use Rattle.session_lines.specs.Stands.{Admits, IsAtState};
ghost use Rattle.session_lines.specs.Steady.{IsSteadyOutcome, IsSteadyWaiting, KnowsObjects};
ghost use Rattle.session_lines.specs.Steps.{IsListed, outcome_steps, steps_left};
ghost use Rattle.session_lines.specs.declared.memory.Memory.{Memory as AnyMemory};

use crate::export_line::export_behind;
use crate::taking::{take_line, take_reply};
use graph_model::{Ask, Bytes, NoMemory, Reply};
use object_registry::Registry;
use refactor_table::RefactorTable;
use session_lines::{Memory, Outcome, Waiting};
use std::alloc::Global;
use std::marker::Model;
use type_dictionary::Dictionary;

/// What a session is given.
#[derive(Debug, Drop)]
pub enum Given {
    /// A line of the script without its line feed: at first, and after `Done`.
    Line(Bytes),
    /// The reply to what was asked.
    Reply(Reply),
    /// The line was printed.
    Printed,
}

/// What comes next.
#[derive(Debug, Drop)]
pub enum SessionStep {
    /// The storage is asked; its reply is given next.
    Ask(Ask),
    /// A whole line of the answer, with its line feed.
    Print(Bytes),
    /// The line is answered.
    Done,
    /// The entity of this id is not well-formed: it has not its type's form, or the root's type and not the root's id, or the other way round. The session is given up.
    Broken { id: u64 },
}

/// What comes next, and what is waited for behind it.
#[derive(Debug, Drop)]
struct StepTaken {
    step: SessionStep,
    waiting: Waiting,
}

/// What an outcome gives, and what is waited for behind it.
fn behind(outcome: Outcome) -> StepTaken
    ensures steady { (memory : AnyMemory) → IsSteadyOutcome memory outcome → IsSteadyWaiting memory result.waiting }
    ensures fits { (memory : AnyMemory) → IsSteadyOutcome memory outcome → FitsBehind result.step result.waiting }
    ensures asks { (memory : AnyMemory) → IsSteadyOutcome memory outcome → LooksUp result.step result.waiting }
    ensures broken { broken_at result.step ≡ broken_by outcome }
    ensures gives { (is_next_type : List (List ℕ) → List ℕ → Bool) (memory : AnyMemory) (storage : Storage) (due : Turn) → Meets is_next_type outcome memory storage due
        → IsDueStep is_next_type result.step (session_of memory result.waiting) storage due }
    ensures steps { (g : Graph) → steps_left result.waiting g ≡ outcome_steps outcome g }
{
    match outcome {
        Outcome::Answer(text) => StepTaken {
            step: SessionStep::Print(text),
            waiting: Waiting::ForPrinted,
        },
        Outcome::Ask(ask, phase) => StepTaken {
            step: SessionStep::Ask(ask),
            waiting: Waiting::ForReply(phase),
        },
        Outcome::Line(text, export) => StepTaken {
            step: SessionStep::Print(text),
            waiting: Waiting::ForNextLine(export),
        },
        Outcome::Broken(id) => StepTaken {
            step: SessionStep::Broken { id },
            waiting: Waiting::GivenUp,
        },
    }
}

fn line_given(memory: &mut Memory, text: &Bytes) -> Result<StepTaken, NoMemory>
    requires { KnowsObjects memory.old }
    ensures known { OnOk result (KnowsObjects memory.new) }
    ensures steady { IfOk result (λ taken. IsSteadyWaiting memory.new taken.waiting) }
    ensures fits { IfOk result (λ taken. FitsBehind taken.step taken.waiting) }
    ensures asks { IfOk result (λ taken. LooksUp taken.step taken.waiting) }
    ensures whole { IfOk result (λ taken. broken_at taken.step ≡ None) }
    ensures gives { (is_next_type : List (List ℕ) → List ℕ → Bool) (storage : Storage) (due : Turn) → Admits is_next_type → BeginsLine text.now memory.old storage due
        → IfOk result (λ taken. IsDueStep is_next_type taken.step (session_of memory.new taken.waiting) storage due) }
{
    let outcome = take_line(memory, text)?;
    Ok(behind(outcome))
}

fn reply_given(memory: &mut Memory, waiting: Waiting, reply: Reply) -> Result<StepTaken, NoMemory>
    requires fits { Fits (AnyGiven.Reply reply) waiting }
    requires known { KnowsObjects memory.old }
    requires steady { IsSteadyWaiting memory.old waiting }
    ensures known { OnOk result (KnowsObjects memory.new) }
    ensures steady { IfOk result (λ taken. IsSteadyWaiting memory.new taken.waiting) }
    ensures fits { IfOk result (λ taken. FitsBehind taken.step taken.waiting) }
    ensures asks { IfOk result (λ taken. LooksUp taken.step taken.waiting) }
    ensures broken { IfOk result (λ taken. IsBrokenWhere (AnyGiven.Reply reply) (session_of memory.old waiting) taken.step) }
    ensures gives { (is_next_type : List (List ℕ) → List ℕ → Bool) (storage : Storage) (due : Turn) → Admits is_next_type → AfterReply waiting reply memory.old storage due
        → IfOk result (λ taken. IsDueStep is_next_type taken.step (session_of memory.new taken.waiting) storage due) }
    ensures nearer { (g : Graph) → IsListed (looked_up waiting) g → IfOk result (λ taken. steps_left taken.waiting g < steps_left waiting g) }
{
    match waiting {
        Waiting::ForReply(phase) => {
            let outcome = take_reply(memory, phase, reply)?;
            Ok(behind(outcome))
        }
        _ => unreachable!(),
    }
}

fn printed(memory: &Memory, waiting: Waiting) -> Result<StepTaken, NoMemory>
    requires fits { Fits AnyGiven.Printed waiting }
    requires steady { IsSteadyWaiting memory.now waiting }
    ensures steady { IfOk result (λ taken. IsSteadyWaiting memory.now taken.waiting) }
    ensures fits { IfOk result (λ taken. FitsBehind taken.step taken.waiting) }
    ensures asks { IfOk result (λ taken. LooksUp taken.step taken.waiting) }
    ensures whole { IfOk result (λ taken. broken_at taken.step ≡ None) }
    ensures gives { (is_next_type : List (List ℕ) → List ℕ → Bool) (storage : Storage) (due : Turn) → AfterPrint waiting memory.now storage due
        → IfOk result (λ taken. IsDueStep is_next_type taken.step (session_of memory.now taken.waiting) storage due) }
    ensures nearer { (g : Graph) → IfOk result (λ taken. steps_left taken.waiting g < steps_left waiting g) }
{
    match waiting {
        Waiting::ForPrinted => Ok(StepTaken {
            step: SessionStep::Done,
            waiting: Waiting::ForLine,
        }),
        Waiting::ForNextLine(export) => {
            let outcome = export_behind(memory, export)?;
            Ok(behind(outcome))
        }
        _ => unreachable!(),
    }
}

/// Takes what was waited for.
fn take(memory: &mut Memory, waiting: Waiting, given: Given) -> Result<StepTaken, NoMemory>
    requires fits { Fits given waiting }
    requires known { KnowsObjects memory.old }
    requires steady { IsSteadyWaiting memory.old waiting }
    ensures known { OnOk result (KnowsObjects memory.new) }
    ensures steady { IfOk result (λ taken. IsSteadyWaiting memory.new taken.waiting) }
    ensures fits { IfOk result (λ taken. FitsBehind taken.step taken.waiting) }
    ensures asks { IfOk result (λ taken. LooksUp taken.step taken.waiting) }
    ensures broken { IfOk result (λ taken. IsBrokenWhere given (session_of memory.old waiting) taken.step) }
    ensures gives { (is_next_type : List (List ℕ) → List ℕ → Bool) (storage : Storage) (due : Turn) → Admits is_next_type → MayGive given (session_of memory.old waiting) storage due
        → IfOk result (λ taken. IsDueStep is_next_type taken.step (session_of memory.new taken.waiting) storage due) }
    ensures nearer { (g : Graph) → IsListed (looked_up waiting) g → IfOk result (λ taken. ComesNearer given (steps_left waiting g) (steps_left taken.waiting g)) }
{
    match given {
        Given::Line(text) => line_given(memory, &text),
        Given::Reply(reply) => reply_given(memory, waiting, reply),
        Given::Printed => printed(memory, waiting),
    }
}

/// The lines of a script over a storage that is asked. Contracts see what it keeps and what it waits for.
#[derive(Debug, Drop)]
pub struct Session {
    memory: Memory,
    waiting: Waiting,
}

impl Model for Session {
    ghost use Rattle.session.specs.Sessions.{SessionView, session_of};
    ghost use Rattle.session.specs.SteadySession.{IsSteady};

    ghost Value = { SessionView };

    ghost view = { λ s. session_of s.memory s.waiting };

    ghost invariant = { λ s. IsSteady (session_of s.memory s.waiting) };
}

impl Session {
    /// A session over a storage that holds no id yet. `rooted` tells whether its graph has the root.
    pub fn new(
        alloc: Global,
        types: Dictionary,
        next_id: u64,
        rooted: bool,
    ) -> Result<Session, NoMemory>
        // A line fits.
        ensures fits { IfOk result (λ session. (text : List ℕ) → Fits (AnyGiven.Line text) session.waiting) }
        // Over every storage with these types, and a right graph, the script stands at its start.
        ensures stands { (storage : Storage) → AreTypes types → 1024 ≤ next_id → next_id ≤ 2 ^ 48 → IsRightGraph types next_id storage.graph → rooted ≡ lists storage.graph 1
            → SameIds storage.held [] → storage.next_id ≤ next_id → storage.types ≡ records_from 16 types
            → IfOk result (λ session. IsAtState session.memory storage (opened types storage.graph storage.number next_id)) }
    {
        let registry = Registry::new(alloc)?;
        let memory = Memory {
            alloc,
            types,
            table: RefactorTable::new(alloc),
            registry,
            next_id,
            rooted,
            started: false,
        };
        Ok(Session {
            memory,
            waiting: Waiting::ForLine,
        })
    }

    /// Takes what was waited for, and gives what comes next: at first and after `Done` a line is waited for, after `Ask` the reply, and after
    /// `Print` that it was printed. A storage may reply with any entity: one that is not well-formed gives `Broken`. After `NoMemory` or
    /// `Broken` nothing fits any more: the session is given up.
    pub fn next(&mut self, given: Given) -> Result<SessionStep, NoMemory>
        requires { Fits given self.old.waiting }
        ensures fits { IfOk result (λ step. FitsBehind step self.new.waiting) }
        ensures asks { IfOk result (λ step. LooksUp step self.new.waiting) }
        ensures broken { IfOk result (IsBrokenWhere given self.old) }
        // Whatever storage it is that stands there: what may be asked is asked, and what is due is printed.
        ensures gives { (is_next_type : List (List ℕ) → List ℕ → Bool) (storage : Storage) (due : Turn) → Admits is_next_type → MayGive given self.old storage due
            → IfOk result (λ step. IsDueStep is_next_type step self.new storage due) }
        // A line is answered in finitely many steps, whatever the replies say: counted over any graph that lists what was looked up.
        ensures nearer { (g : Graph) → IsListed (looked_up self.old.waiting) g
            → IfOk result (λ step. ComesNearer given (steps_left self.old.waiting g) (steps_left self.new.waiting g)) }
    {
        let waiting = std::mem::replace(&mut self.waiting, Waiting::GivenUp);
        let taken = take(&mut self.memory, waiting, given)?;
        self.waiting = taken.waiting;
        Ok(taken.step)
    }
}
