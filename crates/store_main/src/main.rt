//! The program: a script from standard input, its answers on standard output, and a folder of the host; or a script that is made up.
#![tactic(auto)]

mod help;
mod messages;
mod opening;
mod refused;

use crate::help::{USAGE, show_help, show_version};
use crate::messages::Speaker;
use crate::opening::open_disks;
use std::io::ErrorKind;
use std::path::Path;
use std::process::ExitCode;
use std::{env, io};
use store_host::{FirstRefusal, HostFault, StdSink, StdSource};
use store_run::{Status, generate, run_alone};
use store_words::Plan;
use store_words::words::plan;

/// The numbers that a script is made up from are below this.
const NUMBER_LIMIT: u32 = 1 << 31;

/// The number that the process ends with.
fn number_of(status: Status) -> u8 {
    match status {
        Status::Done => 0,
        Status::Words => 2,
        Status::Damaged { .. } => 3,
        Status::ReadFault => 4,
        Status::WriteFault => 5,
        Status::StorageFault => 6,
        Status::NoMemory => 7,
        Status::InputTooLong => 8,
        Status::Full => 9,
    }
}

/// The status of a run whose folder was not opened.
fn status_of(fault: &HostFault) -> Status {
    match fault {
        HostFault::NoMemory => Status::NoMemory,
        HostFault::Folder { .. } | HostFault::InUse => Status::StorageFault,
    }
}

/// What the program is called, without the folders before its name.
fn short_name(program: &str) -> &str {
    Path::new(program).file_name().unwrap_or(program)
}

fn run(rt: HostRuntime, program: &str, words: &Vec<String>) -> Status {
    let alloc = rt.alloc();
    let speaker = Speaker {
        rt,
        program: short_name(program),
        dir: words.get(1).map_or("", |word| word.as_str()),
    };
    let first = FirstRefusal::new();
    let mut source = StdSource::new(alloc, rt.stdin(), &first);
    let mut sink = StdSink::new(alloc, rt.stdout(), &first);
    match open_disks(rt, alloc, words) {
        Ok((_folder, mut disks)) => {
            let status = run_alone(alloc, words, &mut source, &mut sink, &mut disks);
            speaker.ended(status, &source, &sink, &disks);
            status
        }
        Err(fault) => {
            speaker.say(fault.path().unwrap_or(speaker.dir), &fault);
            status_of(&fault)
        }
    }
}

/// Prints the script of so many lines that is made up from a number.
fn print_script(rt: HostRuntime, program: &str, lines: u64, number: u32) -> Status {
    if number >= NUMBER_LIMIT {
        return Status::Words;
    }
    let first = FirstRefusal::new();
    let mut sink = StdSink::new(rt.alloc(), rt.stdout(), &first);
    let status = generate(rt.alloc(), lines, number, &mut sink);
    let speaker = Speaker {
        rt,
        program: short_name(program),
        dir: "generate",
    };
    speaker.generated(status, &sink);
    status
}

/// The status of a call that shows what was asked for.
fn shown(rt: HostRuntime, program: &str, written: io::Result<()>) -> Status {
    match written {
        Ok(()) => Status::Done,
        Err(reason) => {
            let _ = eprintln!(rt; "{}: standard output: {reason}", short_name(program));
            Status::WriteFault
        }
    }
}

fn serve(rt: HostRuntime, program: &str, words: &Vec<String>) -> Status {
    if let [word] = words.as_slice() {
        match word.as_str() {
            "--help" | "-h" | "help" => return shown(rt, program, show_help(&rt, program)),
            "--version" => return shown(rt, program, show_version(&rt)),
            _ => {}
        }
    }
    match plan(rt.alloc(), words) {
        Ok(Plan::Generate { lines, number }) => print_script(rt, program, lines, number),
        _ => run(rt, program, words),
    }
}

/// The program's name as it was called, and the words after it.
fn words_of(rt: &HostRuntime) -> io::Result<(String, Vec<String>)> {
    let mut args = env::args(rt)?;
    let program = match args.next() {
        Some(program) => program,
        None => String::from_str(rt.alloc(), "store_main")?,
    };
    let mut words = Vec::new(rt.alloc());
    for word in args {
        words.push(word)?;
    }
    Ok((program, words))
}

fn main(rt: HostRuntime) -> ExitCode {
    let status = match words_of(&rt) {
        Ok((program, words)) => serve(rt, &program, &words),
        Err(e) if e.kind() == ErrorKind::OutOfMemory => {
            let _ = eprintln!(rt; "store_main: there is not enough memory");
            Status::NoMemory
        }
        Err(_) => Status::Words,
    };
    if status == Status::Words {
        let _ = eprintln!(rt; "{USAGE}");
    }
    ExitCode::from(number_of(status))
}
