//! Objects that were loaded together.

ghost use Rattle.std.specs.Prelude.{◌≡◌};

use entity_form::Object;
use std::marker::Model;

/// Objects that were loaded together, each with its id. Contracts see the list of the pairs.
#[derive(Debug, Drop)]
pub struct Loaded {
    items: Vec<(u64, Object)>,
}

impl Model for Loaded {
    ghost use Rattle.std.specs.Prelude.{List, ℕ};
    ghost use Rattle.entity_form.specs.declared.value.Object.{Object};

    ghost Value = { List (ℕ × Object) };

    ghost view = { λ loaded. loaded.items.items };
}

impl Loaded {
    pub fn new(items: Vec<(u64, Object)>) -> Loaded
        ensures { result ≡ items.items }
    {
        Loaded { items }
    }

    /// The pairs, lent.
    pub fn as_slice(&self) -> &[(u64, Object)]
        ensures { result.now ≡ self.now }
    {
        self.items.as_slice()
    }

    /// The pairs as a `Vec`, without a copy.
    pub fn into_vec(self) -> Vec<(u64, Object)>
        ensures { result.items ≡ self }
    {
        self.items
    }
}
