//! The lines that are answered.

ghost use Rattle.std.specs.Prelude.{◌≡◌, ◌++◌, ◌∷◌, [], IfOk};
ghost use Rattle.std.specs.Fmt.{decimal};
ghost use Rattle.session_lines.specs.Refusals.{IsOutcomeOf, refused_text};

use crate::outcome::Outcome;
use crate::refusal::{Refusal, Stop};
use graph_model::{Bytes, NoMemory};
use std::alloc::Global;

/// The text with a line feed behind it.
pub fn line(alloc: Global, text: &str) -> Result<Bytes, NoMemory>
    ensures { IfOk result (λ bytes. bytes ≡ text.now ++ 10 ∷ []) }
{
    let line = format!(in alloc; "{text}\n")?;
    Ok(Bytes::new(line.into_bytes()))
}

/// The text, the number and a line feed.
pub fn numbered_line(alloc: Global, text: &str, number: u64) -> Result<Bytes, NoMemory>
    ensures { IfOk result (λ bytes. bytes ≡ (text.now ++ decimal number) ++ 10 ∷ []) }
{
    let line = format!(in alloc; "{text}{number}\n")?;
    Ok(Bytes::new(line.into_bytes()))
}

/// The answer to a line that is refused.
pub fn refusal_line(alloc: Global, refusal: Refusal) -> Result<Bytes, NoMemory>
    ensures { IfOk result (λ bytes. bytes ≡ refused_text refusal) }
{
    let code = refusal.code();
    let line = format!(in alloc; "refused {code}\n")?;
    Ok(Bytes::new(line.into_bytes()))
}

/// The answer as an outcome, or the refusal.
pub fn outcome_of(alloc: Global, said: Result<Bytes, Stop>) -> Result<Outcome, NoMemory>
    ensures { IfOk result (IsOutcomeOf said) }
{
    match said {
        Ok(text) => Ok(Outcome::Answer(text)),
        Err(Stop::Refused(refusal)) => Ok(Outcome::Answer(refusal_line(alloc, refusal)?)),
        Err(Stop::NoMemory) => Err(NoMemory),
    }
}
