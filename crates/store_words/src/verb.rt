// The commands by their names.
ghost use Rattle.std.specs.Prelude.{◌≡◌};
ghost use Rattle.store_words.specs.Verbs.{name_of, verb_named};

/// A command, without what it is to work on.
#[derive(Clone, Copy, Debug, PartialEq, Eq)]
pub enum Verb {
    Run,
    Work,
    Check,
    Export,
    Generate,
    Trial,
}

impl Verb {
    /// Each command, in the order in which they are shown.
    pub const ALL: [Verb; 6] = [
        Verb::Run,
        Verb::Work,
        Verb::Check,
        Verb::Export,
        Verb::Generate,
        Verb::Trial,
    ];

    /// The command's name.
    pub fn name<'a>(self) -> &'a str
        ensures { result.now ≡ name_of self }
    {
        match self {
            Verb::Run => "run",
            Verb::Work => "work",
            Verb::Check => "check",
            Verb::Export => "export",
            Verb::Generate => "generate",
            Verb::Trial => "trial",
        }
    }

    /// The command of this name.
    pub fn named(word: &str) -> Option<Verb>
        ensures { result ≡ verb_named word.now }
    {
        match word {
            "run" => Some(Verb::Run),
            "work" => Some(Verb::Work),
            "check" => Some(Verb::Check),
            "export" => Some(Verb::Export),
            "generate" => Some(Verb::Generate),
            "trial" => Some(Verb::Trial),
            _ => None,
        }
    }
}
