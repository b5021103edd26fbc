// Which lines of a script were refused.
use crate::messages::Speaker;
use script_text::{LineFault, read_line};
use std::alloc::{AllocError, Global};
use std::io::{Read, Write};
use store_host::{StdSink, StdSource};

/// So many bytes of a line are shown.
const SHOWN: usize = 80;

/// Where a line stops being a good one, as far as it is known: behind so many bytes.
fn good_bytes(alloc: Global, line: &[u8], is_whole: bool) -> Option<u64> {
    match read_line(alloc, line) {
        Err(LineFault::BadLine { at }) if is_whole || at < line.len() as u64 => Some(at),
        _ => None,
    }
}

/// The front of a line, for a message.
fn shown(alloc: Global, line: &[u8]) -> Result<String, AllocError> {
    let size = line.len().min(SHOWN);
    let text = String::from_utf8_lossy(alloc, &line[..size])?;
    let dots = if size < line.len() { ".." } else { "" };
    format!(in alloc; "{text:?}{dots}")
}

/// Where the line is bad, for a message.
fn place(alloc: Global, line: &[u8], is_whole: bool) -> Result<String, AllocError> {
    match good_bytes(alloc, line, is_whole) {
        Some(at) if at == line.len() as u64 => format!(in alloc; " at its end"),
        Some(at) => format!(in alloc; " at byte {}", at.saturating_add(1)),
        None => Ok(String::new(alloc)),
    }
}

/// The first line that was refused: its number, its text, and the code, with the place where the line is bad.
fn first_refused<R: Read + Drop, W: Write + Drop>(
    alloc: Global,
    source: &StdSource<'_, R>,
    sink: &StdSink<'_, W>,
) -> Result<String, AllocError> {
    let code = String::from_utf8_lossy(alloc, sink.first_code())?;
    let number = sink.first_refused().unwrap_or(0);
    let Some((line, is_whole)) = source.first_refused() else {
        return format!(in alloc; "line {number}: {code}");
    };
    let text = shown(alloc, line)?;
    let place = place(alloc, line, is_whole)?;
    format!(in alloc; "line {number}, {text}: {code}{place}")
}

/// Says how many lines were refused, and which was the first.
pub(crate) fn tell_refused<R: Read + Drop, W: Write + Drop>(
    speaker: &Speaker<'_>,
    source: &StdSource<'_, R>,
    sink: &StdSink<'_, W>,
) {
    let Speaker {
        rt,
        program,
        dir: _,
    } = *speaker;
    let first = match first_refused(rt.alloc(), source, sink) {
        Ok(text) => text,
        Err(_) => String::new(rt.alloc()),
    };
    let _ = match sink.refused() {
        0 => Ok(()),
        1 => eprintln!(rt; "{program}: one line was refused: {first}"),
        count => eprintln!(rt; "{program}: {count} lines were refused, the first is {first}"),
    };
}
