//! The words `generate`.

ghost use Rattle.std.specs.Prelude.{◌≡◌, ◌≤◌, ◌<◌, ◌^◌, ◌⊎◌, [], IsTrue};
ghost use Rattle.call_counts.specs.Counts.{Rose};
ghost use Rattle.workload.specs.Lines.{script};
ghost use Rattle.store_run.specs.Run.{IsAnswered};
ghost use Rattle.store_run.specs.Scripts.{text_of};

use crate::status::Status;
use std::alloc::Global;
use store_io::{Sink, SinkFailed};
use workload::Generator;

/// Puts the script of so many lines that is made up from a number below 2^31, by one call of `put` a line.
pub fn generate<K: Sink>(alloc: Global, lines: u64, number: u32, sink: &mut K) -> Status
    requires { number < 2 ^ 31 }
    // The sink gets the text, or where the call ends early a front of it, of whole lines but for a failed `put`.
    ensures answered { IsTrue K.tells → IsAnswered result (text_of (script lines number)) (K.written sink.old) (K.written sink.new) [] }
    ensures only { (result ≡ Status.Done) ⊎ ((result ≡ Status.WriteFault) ⊎ (result ≡ Status.NoMemory)) }
    ensures faults { K.faults sink.old ≤ K.faults sink.new }
    ensures write_fault { result ≡ Status.WriteFault → Rose (K.faults sink.old) (K.faults sink.new) }
{
    let mut generator = Generator::new(alloc, lines, number);
    'lines: loop {
        let line = match generator.next() {
            Ok(Some(line)) => line,
            Ok(None) => return Status::Done,
            Err(_) => return Status::NoMemory,
        };
        match sink.put(line.as_slice()) {
            Ok(()) => {}
            Err(SinkFailed) => return Status::WriteFault,
        }
    }
}
