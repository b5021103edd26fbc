// Runs: steps one after another.
ghost use Rattle.std.specs.Prelude.{◌≡◌, ◌≤◌, ◌⊎◌, ℕ, Some, length, IfOk};
ghost use Rattle.core_steps.specs.Good.{IsGood};
ghost use Rattle.core_steps.specs.Steps.{run, IsFirstRefused};

use crate::machine::step;
use core_steps::{CoreState, Step};
use graph_model::NoMemory;
use std::error::Error;
use std::fmt;

/// Why steps led to no core.
#[derive(Clone, Copy, Debug, PartialEq, Eq)]
pub enum RunFault {
    /// The step of this number, from 0, is the first that is not allowed.
    BadStep { index: u64 },
    /// Memory ran out.
    NoMemory,
}

impl fmt::Display for RunFault {
    fn fmt<W: fmt::Write>(&self, f: &mut fmt::Formatter<W>) -> fmt::Result {
        match self {
            RunFault::BadStep { index } => write!(f, "step {index} is not allowed"),
            RunFault::NoMemory => write!(f, "out of memory"),
        }
    }
}

impl Error for RunFault {}

impl From<NoMemory> for RunFault {
    ghost use Rattle.core_machine.specs.declared.runs.RunFault.TheVariants.{NoMemory};

    ghost from_gives = { λ _ fault. fault ≡ NoMemory };

    fn from(_error: NoMemory) -> RunFault {
        RunFault::NoMemory
    }
}

/// The core that the steps lead to. `BadStep` has the number of the first step that is not allowed, from 0.
/// The start is a good core of at most 64 channels and 65,536 actors.
pub fn check_run(start: CoreState, steps: &Vec<Step>) -> Result<CoreState, RunFault>
    requires good { IsGood start }
    requires channels { length start.channels ≤ 64 }
    requires actors { length start.hands ≤ 65536 }
    ensures ok { IfOk result (λ core. run start steps.now.items ≡ Some core) }
    ensures good { IfOk result (λ core. IsGood core) }
    ensures channels { IfOk result (λ core. length core.channels ≡ length start.channels) }
    ensures actors { IfOk result (λ core. length core.hands ≡ length start.hands) }
    ensures bad { (index : ℕ) → result ≡ Err (RunFault.BadStep index) → IsFirstRefused start steps.now.items index }
    ensures refused { (index : ℕ) → IsFirstRefused start steps.now.items index → (result ≡ Err (RunFault.BadStep index)) ⊎ (result ≡ Err RunFault.NoMemory) }
{
    let mut core = start;
    for (index, wanted) in steps.iter().enumerate() {
        if !step(&mut core, wanted)? {
            return Err(RunFault::BadStep {
                index: index as u64,
            });
        }
    }
    Ok(core)
}
