//! A line is given to a session, and what it asks is answered until the line is.

ghost use Rattle.std.specs.Prelude.{IfOk, OnOk};
ghost use Rattle.store_rows.specs.Ready.{Follows, IsReady};

use crate::mem_storage::{Halt, MemStorage};
use graph_model::Bytes;
use session::{Given, Session, SessionStep};

/// More steps than any line here takes.
const MOST_STEPS: u32 = 100;

/// A line, with what must be asked for it.
pub type Row = (&'static str, &'static str);

/// A session over what the storage keeps.
fn open(storage: &MemStorage) -> Result<Session, Halt>
    ensures { IfOk result IsReady }
{
    let types = storage.dictionary()?;
    let rooted = storage.entities.get(1).is_some();
    Ok(Session::new(storage.alloc, types, storage.next_id, rooted)?)
}

/// Does what the session wants; what it is given then, or none where the line is answered.
fn carry_on(
    turn: SessionStep,
    storage: &mut MemStorage,
    printed: &mut Vec<u8>,
) -> Result<Option<Given>, Halt>
    ensures { IfOk result (Follows turn) }
{
    match turn {
        SessionStep::Ask(ask) => Ok(Some(Given::Reply(storage.reply(ask)?))),
        SessionStep::Print(line) => {
            printed.extend_from_slice(line.as_slice())?;
            Ok(Some(Given::Printed))
        }
        SessionStep::Done => Ok(None),
        SessionStep::Broken { id } => Err(Halt::Broken { id }),
    }
}

/// What the line is answered. What is asked for it is all that the storage tells then.
fn answer(session: &mut Session, storage: &mut MemStorage, line: &str) -> Result<Vec<u8>, Halt>
    requires { IsReady session.old }
    ensures { OnOk result (IsReady session.new) }
{
    storage.asked.clear();
    let mut printed = Vec::new(storage.alloc);
    let mut given = Given::Line(Bytes::new(Vec::from_slice(storage.alloc, line.as_bytes())?));
    for _step in 0..MOST_STEPS {
        let turn = session.next(given)?;
        match carry_on(turn, storage, &mut printed)? {
            Some(next) => given = next,
            None => return Ok(printed),
        }
    }
    Err(Halt::TooManySteps)
}

/// Whether so is asked for the line.
fn is_asked(
    session: &mut Session,
    storage: &mut MemStorage,
    line: &str,
    asks: &str,
) -> Result<bool, Halt>
    requires { IsReady session.old }
    ensures { OnOk result (IsReady session.new) }
{
    let _ = answer(session, storage, line)?;
    Ok(storage.asked.as_slice() == asks.as_bytes())
}

/// For how many rows from the front the storage is asked so, by a session over what it keeps.
pub fn asked(storage: &mut MemStorage, rows: &[Row]) -> Result<usize, Halt> {
    let mut session = open(storage)?;
    for (index, (line, asks)) in rows.iter().enumerate() {
        if !is_asked(&mut session, storage, line, asks)? {
            return Ok(index);
        }
    }
    Ok(rows.len())
}
