// Which line of a script was refused first, told by its answers.
use std::alloc::Global;
use std::cell::Cell;

/// The number of the first line that was refused, which a sink tells a source: the source keeps that line's text.
#[derive(Drop)]
pub struct FirstRefusal {
    /// From 1 on; 0 for none.
    line: Cell<u64>,
}

impl FirstRefusal {
    pub fn new() -> FirstRefusal {
        FirstRefusal { line: Cell::new(0) }
    }

    /// The number of the line, from 1 on.
    pub fn line(&self) -> Option<u64> {
        match self.line.get() {
            0 => None,
            number => Some(number),
        }
    }

    fn tell(&self, number: u64) {
        if self.line.get() == 0 {
            self.line.set(number);
        }
    }
}

/// The answers so far. Each line of a script has one, but for an `export`, which puts a line for each object and then
/// `end` with their number.
#[derive(Drop)]
pub(crate) struct Answers<'a> {
    first: &'a FirstRefusal,
    answered: u64,
    refused: u64,
    /// What stands behind `refused` in the first such answer.
    code: Vec<u8>,
}

/// The number behind `end`.
fn objects_of(count: &[u8]) -> u64 {
    count.iter().fold(0u64, |number, byte| {
        number
            .wrapping_mul(10)
            .wrapping_add(u64::from(byte.wrapping_sub(b'0')))
    })
}

impl<'a> Answers<'a> {
    pub(crate) fn new(alloc: Global, first: &'a FirstRefusal) -> Answers<'a> {
        Answers {
            first,
            answered: 0,
            refused: 0,
            code: Vec::new(alloc),
        }
    }

    /// How many were refused.
    pub(crate) fn refused(&self) -> u64 {
        self.refused
    }

    /// The number of the first of them.
    pub(crate) fn first_line(&self) -> Option<u64> {
        self.first.line()
    }

    pub(crate) fn code(&self) -> &[u8] {
        self.code.as_slice()
    }

    /// Takes note of an answer that was put, with its line feed.
    pub(crate) fn note(&mut self, answer: &[u8]) {
        let text = answer.strip_suffix(b"\n").unwrap_or(answer);
        if let Some(count) = text.strip_prefix(b"end ") {
            self.answered = self.answered.saturating_sub(objects_of(count));
        }
        self.answered = self.answered.saturating_add(1);
        if let Some(code) = text.strip_prefix(b"refused ") {
            if self.refused == 0 {
                self.first.tell(self.answered);
                // Without memory for it the code is left out of a message.
                let _ = self.code.extend_from_slice(code);
            }
            self.refused = self.refused.saturating_add(1);
        }
    }
}
