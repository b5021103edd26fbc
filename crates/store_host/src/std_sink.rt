// A writer of the host as a sink.
use crate::answers::{Answers, FirstRefusal};
use crate::failure::StreamFailure;
use call_counts::raised;
use std::alloc::Global;
use std::io;
use std::io::Write;
use store_io::{Sink, SinkFailed};

/// A writer of the host. What it was given is not told; each put that fails is counted.
#[derive(Drop)]
pub struct StdSink<'a, W: Write + Drop> {
    writer: W,
    faults: u64,
    failure: Option<StreamFailure>,
    answers: Answers<'a>,
}

impl<'a, W: Write + Drop> StdSink<'a, W> {
    /// The sink tells the number of the first line that was refused.
    pub fn new(alloc: Global, writer: W, first: &'a FirstRefusal) -> StdSink<'a, W> {
        StdSink {
            writer,
            faults: 0,
            failure: None,
            answers: Answers::new(alloc, first),
        }
    }

    /// Why the last put that failed did.
    pub fn failure(&self) -> Option<StreamFailure> {
        self.failure
    }

    /// How many lines were refused.
    pub fn refused(&self) -> u64 {
        self.answers.refused()
    }

    /// The number of the first of them, from 1 on.
    pub fn first_refused(&self) -> Option<u64> {
        self.answers.first_line()
    }

    /// Why the first of them was, as its answer says.
    pub fn first_code(&self) -> &[u8] {
        self.answers.code()
    }
}

/// Writes all of the bytes, in as many writes as it takes. A write that takes nothing of what is left is a failure.
fn put_all<W: Write + Drop>(writer: &mut W, bytes: &[u8]) -> io::Result<()> {
    writer.write_all(bytes)?;
    writer.flush()
}

impl<'a, W: Write + Drop> Sink for StdSink<'a, W> {
    ghost use Rattle.std.specs.Prelude.{false, []};

    ghost tells = { false };

    ghost written = { λ _. [] };

    ghost faults = { λ s. s.faults };

    fn put(&mut self, bytes: &[u8]) -> Result<(), SinkFailed> {
        match put_all(&mut self.writer, bytes) {
            Ok(()) => {
                self.answers.note(bytes);
                Ok(())
            }
            Err(reason) => {
                self.failure = Some(StreamFailure::new(reason));
                self.faults = raised(self.faults);
                Err(SinkFailed)
            }
        }
    }
}
