//! The search for the source of a member.

ghost use Rattle.std.specs.Prelude.{◌≡◌, ◌↔◌, ℕ, Option, Some, IfOk, IfSome, IsTrue};
ghost use Rattle.type_desc.specs.OwnNames.{HaveOwnNames};
ghost use Rattle.legacy_mapping.specs.Positions.{ArePositions};
ghost use Rattle.legacy_mapping.specs.Sources.{IsAlike, IsCarried, IsPaired, IsSource};
ghost use Rattle.refactor_table.specs.Pairs.{AreSound};

use crate::positions::positions;
use refactor_table::RefactorTable;
use std::alloc::{AllocError, Global};
use std::collections::BTreeMap;
use type_desc::{Text, TypeDesc};

/// Two types, their members by name, and the pairs that carry members of the one to the other.
#[derive(Drop)]
pub struct Search<'a> {
    pub from: &'a TypeDesc,
    pub to: &'a TypeDesc,
    pub table: &'a RefactorTable,
    from_positions: BTreeMap<&'a str, usize>,
    to_positions: BTreeMap<&'a str, usize>,
    ghost from_found: { ArePositions from.now.members from_positions },
    ghost to_found: { ArePositions to.now.members to_positions },
}

impl<'a> Search<'a> {
    pub fn new(
        alloc: Global,
        from: &'a TypeDesc,
        to: &'a TypeDesc,
        table: &'a RefactorTable,
    ) -> Result<Search<'a>, AllocError>
        requires from_names { HaveOwnNames from.now.members }
        requires to_names { HaveOwnNames to.now.members }
        ensures from { IfOk result (λ s. s.from.now ≡ from.now) }
        ensures to { IfOk result (λ s. s.to.now ≡ to.now) }
        ensures table { IfOk result (λ s. s.table.now ≡ table.now) }
    {
        Ok(Search {
            from,
            to,
            table,
            from_positions: positions(alloc, from.members.as_slice())?,
            to_positions: positions(alloc, to.members.as_slice())?,
        })
    }

    /// The old member that an explicit pair of the two types carries to the member of this name.
    fn paired(&self, name: &Text) -> Option<usize>
        ensures found { IfSome result (IsPaired self.now.table.now self.now.from.now self.now.to.now name.now) }
        ensures only { (i : ℕ) → IsPaired self.now.table.now self.now.from.now self.now.to.now name.now i → result ≡ Some i }
        ensures sound { AreSound self.now.table.now }
    {
        let (old_type, from) = self.table.old_member(&self.to.name, name)?;
        if !old_type.is_same(&self.from.name) {
            return None;
        }
        self.from_positions.get(from.as_str()).copied()
    }

    /// Whether a pair carries the old member of this name to a member of the new type.
    fn is_carried(&self, name: &Text) -> bool
        ensures { IsTrue result ↔ IsCarried self.now.table.now self.now.from.now self.now.to.now name.now }
    {
        match self.table.new_member(&self.from.name, name) {
            Some((new_type, to)) => {
                new_type.is_same(&self.to.name) && self.to_positions.contains_key(to.as_str())
            }
            None => false,
        }
    }

    /// The old member of this name that no pair carries to a member of the new type.
    fn alike(&self, name: &Text) -> Option<usize>
        ensures found { IfSome result (IsAlike self.now.table.now self.now.from.now self.now.to.now name.now) }
        ensures only { (i : ℕ) → IsAlike self.now.table.now self.now.from.now self.now.to.now name.now i → result ≡ Some i }
    {
        let i = self.from_positions.get(name.as_str()).copied()?;
        if self.is_carried(name) {
            return None;
        }
        Some(i)
    }

    /// The source of the new type's member of this name.
    pub fn source(&self, name: &Text) -> Option<usize>
        ensures is { IsSource self.now.table.now self.now.from.now self.now.to.now name.now result }
        ensures only { (source : Option ℕ) → IsSource self.now.table.now self.now.from.now self.now.to.now name.now source → result ≡ source }
        ensures sound { AreSound self.now.table.now }
    {
        match self.paired(name) {
            Some(i) => Some(i),
            None => self.alike(name),
        }
    }
}
