//! Which row has a name.

ghost use Rattle.std.specs.Prelude.{◌≡◌, OnOk, OnErr};
ghost use Rattle.std.specs.BTreeMap.{get_by_text};
ghost use Rattle.refactor_table.specs.Index.{IsSameIndex, IsSameMembers, PutsMember, PutsRow, member_row, row_of};
ghost use Rattle.refactor_table.specs.declared.name.RefName.{RefName as AnyName};

use crate::name::RefName;
use std::alloc::{AllocError, Global};
use std::collections::BTreeMap;
use type_desc::Text;

/// The rows of members, by the names of their types and by their own.
type MemberRows = BTreeMap<String, BTreeMap<String, usize>>;

/// Rows by names, each looked up in the time of a search tree.
#[derive(Debug, Drop)]
pub struct NameIndex {
    pub types: BTreeMap<String, usize>,
    pub members: BTreeMap<String, BTreeMap<String, usize>>,
}

fn put_member(
    alloc: Global,
    members: &mut MemberRows,
    type_name: &Text,
    member: &Text,
    row: usize,
) -> Result<(), AllocError>
    ensures ok { OnOk result (PutsMember members.old members.new type_name.now member.now (Some row)) }
    ensures err { OnErr result (IsSameMembers members.old members.new) }
{
    let key = String::from_str(alloc, member.as_str())?;
    match members.get_mut(type_name.as_str()) {
        Some(rows) => {
            rows.insert(key, row)?;
        }
        None => {
            let mut rows = BTreeMap::new(alloc);
            rows.insert(key, row)?;
            members.insert(String::from_str(alloc, type_name.as_str())?, rows)?;
        }
    }
    Ok(())
}

fn remove_member(members: &mut MemberRows, type_name: &Text, member: &Text)
    ensures { PutsMember members.old members.new type_name.now member.now None }
{
    if let Some(rows) = members.get_mut(type_name.as_str()) {
        rows.remove(member.as_str());
    }
}

impl NameIndex {
    pub fn new(alloc: Global) -> NameIndex
        ensures { (name : AnyName) → row_of result name ≡ None }
    {
        NameIndex {
            types: BTreeMap::new(alloc),
            members: BTreeMap::new(alloc),
        }
    }

    /// The row of a type.
    pub fn type_row(&self, type_name: &Text) -> Option<usize>
        ensures { result ≡ get_by_text self.now.types type_name.now }
    {
        self.types.get(type_name.as_str()).copied()
    }

    /// The row of a member.
    pub fn member_row(&self, type_name: &Text, member: &Text) -> Option<usize>
        ensures { result ≡ member_row self.now.members type_name.now member.now }
    {
        let rows = self.members.get(type_name.as_str())?;
        rows.get(member.as_str()).copied()
    }

    /// The row of a name.
    pub fn row(&self, name: &RefName) -> Option<usize>
        ensures { result ≡ row_of self.now name.now }
    {
        match name {
            RefName::OfType(type_name) => self.type_row(type_name),
            RefName::OfMember(type_name, member) => self.member_row(type_name, member),
        }
    }

    /// Gives the name this row.
    pub fn insert(&mut self, alloc: Global, name: &RefName, row: usize) -> Result<(), AllocError>
        ensures ok { OnOk result (PutsRow self.old self.new name.now (Some row)) }
        ensures err { OnErr result (IsSameIndex self.old self.new) }
    {
        match name {
            RefName::OfType(type_name) => {
                let key = String::from_str(alloc, type_name.as_str())?;
                self.types.insert(key, row)?;
                Ok(())
            }
            RefName::OfMember(type_name, member) => {
                put_member(alloc, &mut self.members, type_name, member, row)
            }
        }
    }

    /// Leaves the name without a row.
    pub fn remove(&mut self, name: &RefName)
        ensures { PutsRow self.old self.new name.now None }
    {
        match name {
            RefName::OfType(type_name) => {
                self.types.remove(type_name.as_str());
            }
            RefName::OfMember(type_name, member) => {
                remove_member(&mut self.members, type_name, member);
            }
        }
    }
}
