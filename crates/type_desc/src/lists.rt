ghost use Rattle.std.specs.Prelude.{◌≡◌, ◌∷◌, [], length, ◌↔◌, IsTrue};

use crate::desc::Member;
use std::marker::Model;

/// Where members stand. The one member of the built-in type takes no memory.
#[derive(Clone, Debug, Drop)]
enum Items {
    Own(Vec<Member>),
    One(Member),
}

/// Members in order, which contracts see as a list.
#[derive(Clone, Debug, Drop)]
pub struct Members {
    items: Items,
}

impl Model for Members {
    ghost use Rattle.std.specs.Prelude.{List};
    ghost use Rattle.type_desc.specs.declared.desc.Member.{Member};
    ghost use Rattle.type_desc.specs.Listed.{members_of};

    ghost Value = { List Member };

    ghost view = { λ m. members_of m.items };
}

impl Members {
    /// The members of a `Vec`.
    pub fn new(items: Vec<Member>) -> Members
        ensures { result ≡ items.items }
    {
        Members {
            items: Items::Own(items),
        }
    }

    /// One member alone, which takes no memory.
    pub fn one(member: Member) -> Members
        ensures { result ≡ member ∷ [] }
    {
        Members {
            items: Items::One(member),
        }
    }

    /// The members, lent.
    pub fn as_slice(&self) -> &[Member]
        ensures { result.now ≡ self.now }
    {
        match &self.items {
            Items::Own(items) => items.as_slice(),
            Items::One(member) => std::slice::from_ref(member),
        }
    }

    /// How many there are.
    pub fn len(&self) -> usize
        ensures { result ≡ length self.now }
    {
        self.as_slice().len()
    }

    /// Whether there is none.
    pub fn is_empty(&self) -> bool
        ensures { IsTrue result ↔ (self.now ≡ []) }
    {
        self.as_slice().is_empty()
    }
}

/// Bytes, which contracts see as a list.
#[derive(Clone, Debug, Drop)]
pub struct Bytes8 {
    items: Vec<u8>,
}

impl Model for Bytes8 {
    ghost use Rattle.std.specs.Prelude.{List, ℕ};

    ghost Value = { List ℕ };

    ghost view = { λ b. b.items.items };
}

impl Bytes8 {
    /// The bytes of a `Vec`.
    pub fn new(items: Vec<u8>) -> Bytes8
        ensures { result ≡ items.items }
    {
        Bytes8 { items }
    }

    /// The bytes, lent.
    pub fn as_slice(&self) -> &[u8]
        ensures { result.now ≡ self.now }
    {
        self.items.as_slice()
    }

    /// The bytes as a `Vec`, without a copy.
    pub fn into_vec(self) -> Vec<u8>
        ensures { result.items ≡ self }
    {
        self.items
    }
}
