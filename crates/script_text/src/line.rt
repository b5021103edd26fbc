//! Reading a whole line.

ghost use Rattle.script_text.specs.Faults.{IsReadAs, StandsAt};
ghost use Rattle.script_text.specs.Lines.{line_at};
ghost use Rattle.script_text.specs.Meaning.{meant};
ghost use Rattle.session_model.specs.Commands.{Command as AnyCommand, command_of};
ghost use Rattle.std.specs.Prelude.{◌≡◌, [], IfErr, IfOk, Some};
ghost use Rattle.type_desc.specs.Gives.{Gives};

use crate::arguments::take_arguments;
use crate::command::Command;
use crate::fault::LineFault;
use crate::keywords::take_keyword;
use std::alloc::Global;
use type_desc::ReadFault;

/// Takes a keyword and what follows it, to the end.
#[tactic(auto, unfolding(crate::specs::Lines::line_at))]
fn whole_line(alloc: Global, line: &[u8]) -> Result<Command, ReadFault>
    ensures { Gives (λ c. (meant c, [])) result (line_at line.now) }
{
    let (keyword, rest) = take_keyword(line)?;
    take_arguments(alloc, keyword, rest)
}

/// The command that a line spells. The line feed at its end is no part of it.
pub fn read_line(alloc: Global, line: &[u8]) -> Result<Command, LineFault>
    // What is read is what the line spells.
    ensures found { IfOk result (λ read. command_of line.now ≡ Some (meant read)) }
    // What the line spells is read, unless memory runs out.
    ensures only { (command : AnyCommand) → command_of line.now ≡ Some command → IsReadAs result command }
    // The fault is at the end of the longest prefix that begins a command, and the line is none.
    ensures fault { IfErr result (λ fault. StandsAt line.now fault) }
{
    match whole_line(alloc, line) {
        Ok(command) => Ok(command),
        Err(ReadFault::Memory) => Err(LineFault::NoMemory),
        Err(ReadFault::Stuck { left }) => Err(LineFault::BadLine {
            at: (line.len() - left) as u64,
        }),
    }
}
