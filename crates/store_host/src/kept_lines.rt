// The text of the line that was refused first.
use crate::answers::FirstRefusal;
use std::alloc::Global;

/// Of a longer line the rest is not kept.
const MOST_KEPT: usize = 65_536;

/// The lines of a script that are not known to be answered: those of the last piece that was read, and what stood
/// before it of the first of them. Every line of a piece is answered before the next is read.
#[derive(Drop)]
pub(crate) struct KeptLines<'a> {
    first: &'a FirstRefusal,
    bytes: Vec<u8>,
    /// How many lines ended before these bytes.
    before: u64,
}

/// The line with this index.
fn line_at(bytes: &[u8], index: u64) -> Option<&[u8]> {
    let mut rest = bytes;
    for _ in 0..index {
        let end = rest.iter().position(|byte| *byte == b'\n')?;
        rest = &rest[end + 1..];
    }
    match rest.iter().position(|byte| *byte == b'\n') {
        Some(end) => Some(&rest[..end]),
        None => Some(rest),
    }
}

impl<'a> KeptLines<'a> {
    pub(crate) fn new(alloc: Global, first: &'a FirstRefusal) -> KeptLines<'a> {
        KeptLines {
            first,
            bytes: Vec::new(alloc),
            before: 0,
        }
    }

    /// Lets go of the lines that ended. All of them are answered.
    fn let_go(&mut self) {
        let ended = self.bytes.iter().filter(|byte| **byte == b'\n').count();
        let last = self.bytes.iter().rposition(|byte| *byte == b'\n');
        let begun = last.map_or(0, |place| place + 1);
        self.before = self.before.saturating_add(ended as u64);
        self.bytes.drain(..begun);
        self.bytes.truncate(MOST_KEPT);
    }

    /// Takes note of a piece that was read.
    pub(crate) fn note(&mut self, piece: &[u8]) {
        if self.first.line().is_some() {
            return;
        }
        self.let_go();
        // Without memory for them the lines are left out of a message.
        let _ = self.bytes.extend_from_slice(piece);
    }

    /// The first line that was refused, as far as it is kept, and whether that is all of it.
    pub(crate) fn first_refused(&self) -> Option<(&[u8], bool)> {
        let number = self.first.line()?;
        let index = number.checked_sub(self.before)?.checked_sub(1)?;
        let line = line_at(&self.bytes, index)?;
        if line.len() < MOST_KEPT {
            Some((line, true))
        } else {
            Some((&line[..MOST_KEPT], false))
        }
    }
}
