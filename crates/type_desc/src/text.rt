ghost use Rattle.std.specs.Prelude.{◌≡◌, ◌↔◌, codes, string_bytes, IfOk, IsAscii, IsTrue};

use std::alloc::{AllocError, Global};
use std::marker::Model;

/// The letters of a text. Those of the built-in type take no memory.
#[derive(Clone, Debug, Drop)]
enum Letters {
    Own(String),
    Root,
    Target,
}

/// A text in UTF-8, which contracts see as its bytes.
#[derive(Clone, Debug, Drop)]
pub struct Text {
    letters: Letters,
}

impl Model for Text {
    ghost use Rattle.std.specs.Prelude.{List, ℕ};
    ghost use Rattle.type_desc.specs.Letters.{bytes_of};

    ghost Value = { List ℕ };

    ghost view = { λ t. bytes_of t.letters };
}

impl Text {
    /// A copy of a text.
    pub fn new(alloc: Global, text: &str) -> Result<Text, AllocError>
        ensures { IfOk result (λ t. t ≡ text.now) }
    {
        Ok(Text::from_string(String::from_str(alloc, text)?))
    }

    /// The text of a `String`, without a copy.
    pub fn from_string(string: String) -> Text
        ensures { result ≡ string_bytes string }
    {
        Text {
            letters: Letters::Own(string),
        }
    }

    /// A copy of bytes that are ASCII.
    pub fn from_ascii(alloc: Global, bytes: &[u8]) -> Result<Text, AllocError>
        requires { IsAscii bytes.now }
        ensures { IfOk result (λ t. t ≡ bytes.now) }
    {
        match std::str::from_utf8(bytes) {
            Ok(text) => Text::new(alloc, text),
            Err(_) => unreachable!(),
        }
    }

    /// The name of the built-in type, which takes no memory.
    pub fn root() -> Text
        ensures { result ≡ codes "Root" }
    {
        Text {
            letters: Letters::Root,
        }
    }

    /// The name of the built-in type's member, which takes no memory.
    pub fn target() -> Text
        ensures { result ≡ codes "target" }
    {
        Text {
            letters: Letters::Target,
        }
    }

    /// The text itself, lent.
    pub fn as_str(&self) -> &str
        ensures { result.now ≡ self.now }
    {
        match &self.letters {
            Letters::Own(string) => string.as_str(),
            Letters::Root => "Root",
            Letters::Target => "target",
        }
    }

    /// Whether the other is the same text.
    pub fn is_same(&self, other: &Text) -> bool
        ensures { IsTrue result ↔ (self.now ≡ other.now) }
    {
        self.as_str() == other.as_str()
    }
}
