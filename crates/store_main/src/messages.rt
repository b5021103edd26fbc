// What is said on standard error at the end of a run.
use crate::refused::tell_refused;
use std::fmt::Display;
use std::io::{Read, Write};
use store_host::{FolderDisk, StdSink, StdSource, StreamFailure};
use store_run::{Cause, Status};

/// Who speaks, and of which folder. A message that can't be written is lost.
#[derive(Clone, Copy)]
pub(crate) struct Speaker<'a> {
    pub(crate) rt: HostRuntime,
    pub(crate) program: &'a str,
    pub(crate) dir: &'a str,
}

/// What a cause means.
fn meaning(cause: Cause) -> &'static str {
    match cause {
        Cause::Header => "its files f0 and f1 are not as a run leaves them",
    }
}

impl<'a> Speaker<'a> {
    /// Says what is wrong at this place.
    pub(crate) fn say(&self, place: &str, reason: &impl Display) {
        let program = self.program;
        let _ = eprintln!(self.rt; "{program}: {place}: {reason}");
    }

    fn damaged(&self, channel: u32, cause: Cause) {
        let Speaker { rt, program, dir } = *self;
        let meaning = meaning(cause);
        let _ = eprintln!(rt;
            "{program}: {dir}/channel_{channel}: damaged, and left as it is: {meaning} (docs/MANUAL.md, 'A damaged folder')"
        );
    }

    fn storage_failed(&self, disks: &[FolderDisk]) {
        for disk in disks {
            if let Some(failure) = disk.first_failure() {
                return self.say(disk.path(), &failure);
            }
        }
        self.say(self.dir, &"the folder failed");
    }

    /// Says that a standard stream failed.
    fn stream_failed(&self, stream: &str, failure: Option<StreamFailure>) {
        let Speaker { rt, program, dir } = *self;
        let _ = match failure {
            Some(failure) => eprintln!(rt; "{program}: {dir}: {stream} failed: {failure}"),
            None => eprintln!(rt; "{program}: {dir}: {stream} failed"),
        };
    }

    /// Says why a script was not printed to its end.
    pub(crate) fn generated<W: Write + Drop>(&self, status: Status, sink: &StdSink<'_, W>) {
        match status {
            Status::WriteFault => self.stream_failed("standard output", sink.failure()),
            Status::NoMemory => self.say(self.dir, &"there is not enough memory"),
            _ => {}
        }
    }

    /// Says which lines were refused, and why the run ended where it did not end well.
    pub(crate) fn ended<R: Read + Drop, W: Write + Drop>(
        &self,
        status: Status,
        source: &StdSource<'_, R>,
        sink: &StdSink<'_, W>,
        disks: &[FolderDisk],
    ) {
        tell_refused(self, source, sink);
        match status {
            Status::Done | Status::Words => {}
            Status::Damaged { channel, cause } => self.damaged(channel, cause),
            Status::StorageFault => self.storage_failed(disks),
            Status::ReadFault => self.stream_failed("standard input", source.failure()),
            Status::WriteFault => self.stream_failed("standard output", sink.failure()),
            Status::NoMemory => self.say(self.dir, &"there is not enough memory"),
            Status::InputTooLong => self.say(self.dir, &"the script has 268,435,456 bytes or more"),
            Status::Full => self.say(self.dir, &"a log in it is full"),
        }
    }
}
