// What is printed of the program when it is asked for.
use std::io;

pub(crate) const USAGE: &str = "usage: store_main run DIR 1 | generate LINES NUMBER";

pub(crate) const VERSION: &str = "store_main 0.1.0";

/// What stands under the line of usage.
const HELP: &str = "\
'run' answers the script on standard input, and keeps its objects in the folder
DIR. 'generate' prints a script for it; the same words print the same script.

  DIR     the folder of the store; made where it is missing. Its name may not be
          empty or begin with '-'. One run has it at a time.
  1       the count of channels, over which the objects are spread: always 1 so
          far.
  LINES   how many lines the script has: from 0 to 1000000.
  NUMBER  what it is made up from: from 0 to 2147483647.

Standard input is the script: one command a line, as `new a Node`. Each line is
answered on standard output by one line, `export` by several. What goes wrong is
said on standard error, in one line.

  --help, -h, help   this text
  --version          the version

Status at the end:

  0  the script was answered or printed to its end; lines of it may have been
     refused
  2  the words are none of those above
  3  the folder is damaged; it stays as it is
  4  standard input failed
  5  standard output failed
  6  the folder failed, or another run has it
  7  there was not enough memory
  8  the script has 268,435,456 bytes or more
  9  a log in the folder is full

Whatever the status, a store that was answered is kept.

The manual, with every line of a script, each status and each message, is
docs/MANUAL.md of the repository that this program was built from.";

/// Prints how the program is used, under the name that it was called by.
pub(crate) fn show_help(rt: &HostRuntime, program: &str) -> io::Result<()> {
    println!(rt; "usage: {program} run DIR 1\n       {program} generate LINES NUMBER\n\n{HELP}")
}

pub(crate) fn show_version(rt: &HostRuntime) -> io::Result<()> {
    println!(rt; "{VERSION}")
}
