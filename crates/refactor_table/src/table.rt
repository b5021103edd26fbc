//! The table of explicit pairs.

ghost use Rattle.std.specs.Prelude.{◌≡◌, ◌++◌, ◌∷◌, [], List, ℕ, IfSome, IfNone, IfErr, IsSomeAnd, OnOk, OnErr};
ghost use Rattle.refactor_table.specs.Faults.{StandsAgainst};
ghost use Rattle.refactor_table.specs.Names.{AreOfOneForm};
ghost use Rattle.refactor_table.specs.Pairs.{AreSound, IsFirstClash, IsFresh, Leads, earlier_of, pair_of};
ghost use Rattle.refactor_table.specs.declared.name.RefName.TheVariants.{OfType, OfMember};

use crate::fault::AddFault;
use crate::index::NameIndex;
use crate::name::{Pair, RefName};
use std::alloc::Global;
use std::marker::Model;
use type_desc::Text;

/// Explicit pairs in the order in which they were added, which contracts see as a list. No two have
/// the same old name or the same new one. A look-up takes the time of a search tree.
#[derive(Debug, Drop)]
pub struct RefactorTable {
    rows: Vec<Pair>,
    by_old: NameIndex,
    by_new: NameIndex,
    alloc: Global,
}

impl Model for RefactorTable {
    ghost use Rattle.std.specs.Prelude.{List};
    ghost use Rattle.refactor_table.specs.declared.name.Pair.{Pair};

    ghost Value = { List Pair };

    ghost use Rattle.refactor_table.specs.Table.{IsTable};

    ghost view = { λ t. t.rows.items };

    ghost invariant = { λ t. IsTable t.rows.items t.by_old t.by_new };
}

/// The earlier of two rows.
fn earlier(first: Option<usize>, second: Option<usize>) -> Option<usize>
    ensures { result ≡ earlier_of first second }
{
    match (first, second) {
        (Some(first), Some(second)) => Some(first.min(second)),
        (Some(row), None) | (None, Some(row)) => Some(row),
        (None, None) => None,
    }
}

impl RefactorTable {
    /// The empty table.
    pub fn new(alloc: Global) -> RefactorTable
        ensures { result ≡ [] }
    {
        RefactorTable {
            rows: Vec::new(alloc),
            by_old: NameIndex::new(alloc),
            by_new: NameIndex::new(alloc),
            alloc,
        }
    }

    /// The first row, from 0, that has the same old name or the same new one.
    pub fn clash(&self, old: &RefName, new: &RefName) -> Option<u64>
        ensures found { IfSome result (IsFirstClash self.now old.now new.now) }
        ensures none { IfNone result (IsFresh self.now old.now new.now) }
    {
        let row = earlier(self.by_old.row(old), self.by_new.row(new))?;
        Some(row as u64)
    }

    /// Adds a pair behind the others.
    pub fn add(&mut self, old: RefName, new: RefName) -> Result<(), AddFault>
        requires { AreOfOneForm old new }
        ensures added { OnOk result (self.new ≡ self.old ++ pair_of old new ∷ []) }
        ensures fresh { OnOk result (IsFresh self.old old new) }

        // A refused pair leaves the table as it was.
        ensures refused { IfErr result (StandsAgainst self.old old new) }
        ensures kept { OnErr result (self.new ≡ self.old) }
    {
        if let Some(row) = self.clash(&old, &new) {
            return Err(AddFault::Duplicate { row });
        }
        self.rows.reserve(1)?;
        let row = self.rows.len();
        self.by_old.insert(self.alloc, &old, row)?;
        if let Err(fault) = self.by_new.insert(self.alloc, &new, row) {
            self.by_old.remove(&old);
            return Err(AddFault::from(fault));
        }
        self.rows.push(Pair { old, new })?;
        Ok(())
    }

    /// The new name of a type, where a pair gives it one.
    pub fn new_type(&self, old: &Text) -> Option<&Text>
        ensures found { IfSome result (λ new. Leads self.now (OfType old.now) (OfType new.now)) }
        ensures only { (new : List ℕ) → Leads self.now (OfType old.now) (OfType new) → IsSomeAnd result (λ found. found.now ≡ new) }
        ensures sound { AreSound self.now }
    {
        let row = self.by_old.type_row(old)?;
        let pair = &self.rows[row];
        match &pair.new {
            RefName::OfType(new) => Some(new),
            RefName::OfMember(_, _) => unreachable!(),
        }
    }

    /// The type and the member to which a pair carries a member.
    pub fn new_member(&self, old_type: &Text, old_member: &Text) -> Option<(&Text, &Text)>
        ensures found { IfSome result (λ new. Leads self.now (OfMember old_type.now old_member.now) (OfMember new.0.now new.1.now)) }
        ensures only { (t m : List ℕ) → Leads self.now (OfMember old_type.now old_member.now) (OfMember t m) → IsSomeAnd result (λ new. (new.0.now ≡ t) × (new.1.now ≡ m)) }
    {
        let row = self.by_old.member_row(old_type, old_member)?;
        let pair = &self.rows[row];
        match &pair.new {
            RefName::OfMember(new_type, new_member) => Some((new_type, new_member)),
            RefName::OfType(_) => unreachable!(),
        }
    }

    /// The type and the member that a pair carries to a member.
    pub fn old_member(&self, new_type: &Text, new_member: &Text) -> Option<(&Text, &Text)>
        ensures found { IfSome result (λ old. Leads self.now (OfMember old.0.now old.1.now) (OfMember new_type.now new_member.now)) }
        ensures only { (t m : List ℕ) → Leads self.now (OfMember t m) (OfMember new_type.now new_member.now) → IsSomeAnd result (λ old. (old.0.now ≡ t) × (old.1.now ≡ m)) }
        ensures sound { AreSound self.now }
    {
        let row = self.by_new.member_row(new_type, new_member)?;
        let pair = &self.rows[row];
        match &pair.old {
            RefName::OfMember(old_type, old_member) => Some((old_type, old_member)),
            RefName::OfType(_) => unreachable!(),
        }
    }
}
