//! Where the values of an object's members come from.

ghost use Rattle.std.specs.Prelude.{◌≡◌};

use std::marker::Model;

/// Where the value of each member of a newer type comes from: the index of a member of the older
/// type, or nowhere. Contracts see it as the list of these.
#[derive(Debug, Drop)]
pub struct Plan {
    sources: Vec<Option<usize>>,
}

impl Model for Plan {
    ghost use Rattle.std.specs.Prelude.{List, ℕ, Option};

    ghost Value = { List (Option ℕ) };

    ghost view = { λ p. p.sources.items };
}

impl Plan {
    /// The plan with these sources.
    pub(crate) fn new(sources: Vec<Option<usize>>) -> Plan
        ensures { result ≡ sources.items }
    {
        Plan { sources }
    }

    pub fn as_slice(&self) -> &[Option<usize>]
        ensures { result.now ≡ self.now }
    {
        self.sources.as_slice()
    }
}
