use type_desc::Text;

/// What a pair names: a type, or a member of a type.
#[derive(Debug, Drop)]
pub enum RefName {
    OfType(Text),
    /// The type's name and the member's.
    OfMember(Text, Text),
}

/// An old name and the new name to which it leads, both of one form.
#[derive(Debug, Drop)]
pub struct Pair {
    pub old: RefName,
    pub new: RefName,
}
