// A reader of the host as a source.
ghost use Rattle.std.specs.Prelude.{◌≤◌, length, IfOk};

use crate::answers::FirstRefusal;
use crate::failure::StreamFailure;
use crate::kept_lines::KeptLines;
use call_counts::raised;
use std::alloc::Global;
use std::io;
use std::io::{ErrorKind, Read};
use store_io::{Source, SourceFailed};

/// A reader of the host. What it holds is not told; each read that fails is counted.
#[derive(Drop)]
pub struct StdSource<'a, R: Read + Drop> {
    reader: R,
    faults: u64,
    failure: Option<StreamFailure>,
    lines: KeptLines<'a>,
}

impl<'a, R: Read + Drop> StdSource<'a, R> {
    /// The source keeps the text of the line that is told it as the first refused one.
    pub fn new(alloc: Global, reader: R, first: &'a FirstRefusal) -> StdSource<'a, R> {
        StdSource {
            reader,
            faults: 0,
            failure: None,
            lines: KeptLines::new(alloc, first),
        }
    }

    /// Why the last read that failed did.
    pub fn failure(&self) -> Option<StreamFailure> {
        self.failure
    }

    /// The first line that was refused, as far as it is kept, and whether that is all of it.
    pub fn first_refused(&self) -> Option<(&[u8], bool)> {
        self.lines.first_refused()
    }
}

/// One read, made again where it was interrupted.
fn read_some<R: Read + Drop>(reader: &mut R, buf: &mut [u8]) -> io::Result<usize>
    ensures { IfOk result (λ n. n ≤ length buf.old) }
{
    for _ in 0..u64::MAX {
        match reader.read(buf) {
            Err(e) if e.kind() == ErrorKind::Interrupted => {}
            answer => return answer,
        }
    }
    Err(io::Error::from(ErrorKind::Interrupted))
}

impl<'a, R: Read + Drop> Source for StdSource<'a, R> {
    ghost use Rattle.std.specs.Prelude.{false, []};

    ghost tells = { false };

    ghost left = { λ _. [] };

    ghost faults = { λ s. s.faults };

    fn read(&mut self, buf: &mut [u8]) -> Result<usize, SourceFailed> {
        match read_some(&mut self.reader, buf) {
            Ok(n) => {
                self.lines.note(&buf[..n]);
                Ok(n)
            }
            Err(reason) => {
                self.failure = Some(StreamFailure::new(reason));
                self.faults = raised(self.faults);
                Err(SourceFailed)
            }
        }
    }
}
