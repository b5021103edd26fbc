//! What a command comes to.

use crate::exporting::Export;
use graph_model::{Ask, Bytes};
use lazy_refs::Loading;
use script_text::Command;
use type_desc::Text;

/// Why objects are loaded.
#[derive(Debug, Drop)]
pub enum Purpose {
    /// The script begins with this command, which comes next.
    Start(Command),
    /// The name is bound to the id that was loaded.
    Follow { new: Text, id: u64 },
}

/// What a session waits for, and what comes then.
#[derive(Debug, Drop)]
pub enum Phase {
    /// The reply to `KeepType`, `Release` or `Tidy`, and then this answer.
    Saying(Bytes),
    /// The number of the store of so many records.
    Storing(u64),
    /// The number of kept entities.
    Collecting,
    /// The entity that the loading asked for.
    Looking(Loading, Purpose),
    /// The reply to `Hold`, once the objects are in memory.
    Holding(Purpose),
    /// The entity that the export asked for.
    Exporting(Export),
}

/// What a session waits for.
#[derive(Debug, Drop)]
pub enum Waiting {
    /// A line of the script.
    ForLine,
    ForReply(Phase),
    /// That the last line of the answer is printed.
    ForPrinted,
    /// That a line of the answer is printed, behind which the export goes on.
    ForNextLine(Export),
    /// Nothing more: memory ran out, or an entity was not well-formed.
    GivenUp,
}

/// What a command comes to, as far as the session gets alone.
#[derive(Debug, Drop)]
pub enum Outcome {
    /// The answer, with its line feed.
    Answer(Bytes),
    /// The storage has to be asked first.
    Ask(Ask, Phase),
    /// A line of the answer, with its line feed; the export goes on behind it.
    Line(Bytes, Export),
    /// The entity of this id is not well-formed, which no storage that serves gives.
    Broken(u64),
}
