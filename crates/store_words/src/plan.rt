// What a command is to do.
ghost use Rattle.std.specs.Prelude.{◌≡◌};
ghost use Rattle.store_words.specs.Grammar.{default_sizes};

use crate::word::Word;

/// When a channel begins a new data file, and when it gives a file up.
#[derive(Clone, Copy, Debug, PartialEq, Eq)]
pub struct WordSizes {
    /// A shorter file is moved together with others, in bytes.
    pub minimum: u64,
    /// A file of this length takes no further chunk, in bytes.
    pub maximum: u64,
    /// A file of which less is in use is given up, in thousandths.
    pub use_rate: u64,
}

impl Default for WordSizes {
    /// The sizes where no word gives them.
    fn default() -> WordSizes
        ensures { result ≡ default_sizes }
    {
        WordSizes {
            minimum: 1_048_576,
            maximum: 8_388_608,
            use_rate: 750,
        }
    }
}

/// A command with what its words say.
#[derive(Debug, Drop)]
pub enum Plan {
    /// A script on one thread.
    Run {
        dir: Word,
        channels: u32,
        sizes: WordSizes,
    },
    /// A script beside worker threads.
    Work {
        dir: Word,
        channels: u32,
        workers: u32,
        sizes: WordSizes,
    },
    /// Opens the folder and counts what it holds.
    Check {
        dir: Word,
        channels: u32,
    },
    /// Opens the folder and tells every object.
    Export {
        dir: Word,
        channels: u32,
    },
    /// The lines of a script that is made up from a number.
    Generate {
        lines: u64,
        number: u32,
    },
    /// Runs the lines of such a script and tells what came of them.
    Trial {
        dir: Word,
        channels: u32,
        lines: u64,
        number: u32,
    },
}
