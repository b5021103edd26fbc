// What is shown in place of a command when it is asked for.
use crate::verb::Verb;

/// What is asked for.
#[derive(Clone, Copy, Debug, PartialEq, Eq)]
pub enum Shown {
    /// How the program is used: its commands and its statuses.
    Program,
    /// How one command is used.
    Command(Verb),
    /// The program's version.
    Version,
}

/// Whether the word asks for help.
fn is_help(word: &str) -> bool {
    matches!(word, "--help" | "-h")
}

/// What the words ask to be shown: `--help`, `-h` or `help` for the program, one of the first two behind a command's
/// name or `help` in front of it for that command, and `--version`. Other words ask for nothing.
pub fn asked(words: &[String]) -> Option<Shown> {
    match words {
        [word] => match word.as_str() {
            "help" => Some(Shown::Program),
            "--version" => Some(Shown::Version),
            text if is_help(text) => Some(Shown::Program),
            _ => None,
        },
        [first, second] if is_help(second.as_str()) => {
            Some(Shown::Command(Verb::named(first.as_str())?))
        }
        [first, second] if first.as_str() == "help" => {
            Some(Shown::Command(Verb::named(second.as_str())?))
        }
        _ => None,
    }
}

impl Shown {
    /// The text, without a last line feed.
    pub fn text(self) -> &'static str {
        match self {
            Shown::Program => PROGRAM,
            Shown::Version => VERSION,
            Shown::Command(Verb::Run) => RUN,
            Shown::Command(Verb::Work) => WORK,
            Shown::Command(Verb::Check) => CHECK,
            Shown::Command(Verb::Export) => EXPORT,
            Shown::Command(Verb::Generate) => GENERATE,
            Shown::Command(Verb::Trial) => TRIAL,
        }
    }
}

const VERSION: &str = "store_main 0.1.0";

const PROGRAM: &str = "\
usage: store_main COMMAND ..

A store of objects in a folder.

  run DIR N [MIN MAX USE]       answers a script on one thread
  work DIR N W [MIN MAX USE]    answers a script, with W threads that tidy up beside it
  check DIR N                   opens a folder and counts what it holds
  export DIR N                  opens a folder and prints each object that its root reaches
  generate LINES NUMBER         prints a script that is made up from a number
  trial DIR N LINES NUMBER      runs such a script and prints what came of it

  COMMAND --help, help COMMAND  how a command is used, what its words are, an example
  --help, -h, help              this text
  --version                     the version

No word may be empty or begin with '-'. A number is written in decimal digits, with no zero in
front.

Status at the end:

  0  all was done; lines of a script may have been refused
  2  the words are none of those above
  3  the folder is damaged; it stays as it is
  4  standard input failed
  5  standard output failed
  6  the folder failed, or another run has it
  7  there was not enough memory
  8  the script has 268,435,456 bytes or more
  9  the folder is full

Whatever the status, a store that was answered is kept.";

const RUN: &str = "\
usage: store_main run DIR N [MIN MAX USE]

Answers the script on standard input, a command of the store in each line, and keeps its objects
in the folder DIR. Each line is answered on standard output before the next one is read.

  DIR  the folder of the store; made where it is missing. One run has it at a time.
  N    the count of channels, over which the objects are spread: 1, 2, 4, 8, 16, 32 or 64. A folder
       is always opened with the count that it was made with.
  MIN  a data file with fewer bytes is given up, and what it holds moved together with others:
       from 0 to 1073741824, and at most MAX. 1048576 where it is left out.
  MAX  a data file with this many bytes takes no further object: from 1 to 1073741824. 8388608
       where it is left out.
  USE  a data file of which less is in use is given up, in thousandths: from 0 to 1000. 750 where it
       is left out.

Give all of MIN, MAX and USE, or none.

Example:

  store_main run objects 4 < script.txt

Statuses: store_main --help";

const WORK: &str = "\
usage: store_main work DIR N W [MIN MAX USE]

As 'run', with W threads that mark, sweep and dissolve data files beside the script.

  DIR  the folder of the store; made where it is missing. One run has it at a time.
  N    the count of channels, over which the objects are spread: 1, 2, 4, 8, 16, 32 or 64. A folder
       is always opened with the count that it was made with.
  W    the count of threads: from 1 to 16.
  MIN  a data file with fewer bytes is given up, and what it holds moved together with others:
       from 0 to 1073741824, and at most MAX. 1048576 where it is left out.
  MAX  a data file with this many bytes takes no further object: from 1 to 1073741824. 8388608
       where it is left out.
  USE  a data file of which less is in use is given up, in thousandths: from 0 to 1000. 750 where it
       is left out.

Give all of MIN, MAX and USE, or none.

Example:

  store_main work objects 4 2 < script.txt

Statuses: store_main --help";

const CHECK: &str = "\
usage: store_main check DIR N

Opens the folder DIR, reads nothing else and changes no object. Prints 'ok STORES TYPES ENTITIES':
how many stores it has, how many types of the user's, and how many objects its root reaches.

  DIR  the folder of the store; made where it is missing. One run has it at a time.
  N    the count of channels that the folder was made with: 1, 2, 4, 8, 16, 32 or 64.

Example:

  store_main check objects 4

Statuses: store_main --help";

const EXPORT: &str = "\
usage: store_main export DIR N

Opens the folder DIR, reads nothing else and changes no object. Prints each object that the root
reaches as one line of JSON, by rising id, and then 'end' and how many there are.

  DIR  the folder of the store; made where it is missing. One run has it at a time.
  N    the count of channels that the folder was made with: 1, 2, 4, 8, 16, 32 or 64.

Example:

  store_main export objects 4 > objects.txt

Statuses: store_main --help";

const GENERATE: &str = "\
usage: store_main generate LINES NUMBER

Prints a script for 'run'. The same words print the same script.

  LINES   how many lines it has: from 0 to 1000000.
  NUMBER  what it is made up from: from 0 to 2147483647.

Example:

  store_main generate 1000 7 | store_main run objects 4

Statuses: store_main --help";

const TRIAL: &str = "\
usage: store_main trial DIR N LINES NUMBER

Runs the script that 'generate LINES NUMBER' prints on the folder DIR, as 'run' would, and prints
none of the answers. Prints one line at the end, 'trial ANSWERS BYTES STORES ENTITIES': how many
lines the answers have, in how many bytes, and what 'check' says of stores and objects.

  DIR     the folder of the store; made where it is missing. One run has it at a time.
  N       the count of channels, over which the objects are spread: 1, 2, 4, 8, 16, 32 or 64. A
          folder is always opened with the count that it was made with.
  LINES   how many lines the script has: from 0 to 1000000.
  NUMBER  what it is made up from: from 0 to 2147483647.

Example:

  store_main trial objects 4 20000 7

Statuses: store_main --help";
