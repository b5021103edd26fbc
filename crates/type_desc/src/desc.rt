ghost use Rattle.std.specs.Prelude.{◌≡◌, ◌↔◌, IsTrue};
ghost use Rattle.type_desc.specs.Grammar.{begins_name, continues_name, kind_text};
ghost use Rattle.type_desc.specs.Root.{root_desc};

use crate::lists::Members;
use crate::text::Text;

/// What a name names.
#[derive(Clone, Copy, Debug, PartialEq, Eq)]
pub enum NameKind {
    OfType,
    OfMember,
}

impl NameKind {
    /// Whether such a name may begin with the byte.
    pub fn begins_with(self, byte: u8) -> bool
        ensures { result ≡ begins_name self byte }
    {
        match self {
            NameKind::OfType => byte.is_ascii_uppercase(),
            NameKind::OfMember => byte.is_ascii_lowercase(),
        }
    }

    /// Whether such a name may go on with the byte.
    pub fn continues_with(self, byte: u8) -> bool
        ensures { result ≡ continues_name self byte }
    {
        match self {
            NameKind::OfType => byte.is_ascii_alphanumeric() || byte == b'_',
            NameKind::OfMember => {
                byte.is_ascii_lowercase() || byte.is_ascii_digit() || byte == b'_'
            }
        }
    }
}

/// What a member holds.
#[derive(Clone, Copy, Debug, PartialEq, Eq)]
pub enum Kind {
    Int,
    Text,
    Bytes,
    Ref,
    Lazy,
    Refs,
}

impl Kind {
    /// The word for the kind.
    pub fn word(self) -> &'static str
        ensures { result.now ≡ kind_text self }
    {
        match self {
            Kind::Int => "int",
            Kind::Text => "text",
            Kind::Bytes => "bytes",
            Kind::Ref => "ref",
            Kind::Lazy => "lazy",
            Kind::Refs => "refs",
        }
    }
}

/// A member of a type.
#[derive(Clone, Debug, Drop)]
pub struct Member {
    pub kind: Kind,
    pub name: Text,
}

impl Member {
    /// Whether the other has the same kind and the same name.
    pub fn is_same(&self, other: &Member) -> bool
        ensures { IsTrue result ↔ (self.now ≡ other.now) }
    {
        self.kind == other.kind && self.name.is_same(&other.name)
    }
}

/// The name of a type and its members, in order.
#[derive(Clone, Debug, Drop)]
pub struct TypeDesc {
    pub name: Text,
    pub members: Members,
}

impl TypeDesc {
    /// The built-in type, which takes no memory.
    pub fn root() -> TypeDesc
        ensures { result ≡ root_desc }
    {
        TypeDesc {
            name: Text::root(),
            members: Members::one(Member {
                kind: Kind::Ref,
                name: Text::target(),
            }),
        }
    }

    /// Whether the other has the same name and the same members in the same order.
    pub fn is_same(&self, other: &TypeDesc) -> bool
        ensures { IsTrue result ↔ (self.now ≡ other.now) }
    {
        self.name.is_same(&other.name)
            && are_same(self.members.as_slice(), other.members.as_slice())
    }
}

/// Whether the members are the same in the same order.
fn are_same(members: &[Member], others: &[Member]) -> bool
    ensures { IsTrue result ↔ (members.now ≡ others.now) }
{
    if members.len() != others.len() {
        return false;
    }
    for i in 0..members.len() {
        if !members[i].is_same(&others[i]) {
            return false;
        }
    }
    true
}
