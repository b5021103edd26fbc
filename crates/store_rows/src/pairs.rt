use refactor_table::{AddFault, NameFault, RefName, RefactorTable, read_name};
use std::alloc::{AllocError, Global};
use std::test::Fail;
use type_desc::Text;

/// Whether the name is that of this member.
fn is_member(name: &RefName, type_name: &str, member_name: &str) -> bool {
    match name {
        RefName::OfMember(owner, member) => {
            owner.as_str() == type_name && member.as_str() == member_name
        }
        RefName::OfType(_) => false,
    }
}

/// Whether this member was found.
fn is_found(found: Option<(&Text, &Text)>, type_name: &str, member_name: &str) -> bool {
    match found {
        Some((name, member)) => name.as_str() == type_name && member.as_str() == member_name,
        None => false,
    }
}

/// Adds a pair of types.
fn add_types(
    alloc: Global,
    table: &mut RefactorTable,
    old: &str,
    new: &str,
) -> Result<(), AddFault> {
    let old = RefName::OfType(Text::new(alloc, old)?);
    let new = RefName::OfType(Text::new(alloc, new)?);
    table.add(old, new)
}

/// Adds a pair of members.
fn add_members(
    alloc: Global,
    table: &mut RefactorTable,
    old: (&str, &str),
    new: (&str, &str),
) -> Result<(), AddFault> {
    let old = RefName::OfMember(Text::new(alloc, old.0)?, Text::new(alloc, old.1)?);
    let new = RefName::OfMember(Text::new(alloc, new.0)?, Text::new(alloc, new.1)?);
    table.add(old, new)
}

/// `A` to `B`, its member `x` to `y` of `B`, and `C` to `D`.
fn three_pairs(alloc: Global) -> Result<RefactorTable, AddFault> {
    let mut table = RefactorTable::new(alloc);
    add_types(alloc, &mut table, "A", "B")?;
    add_members(alloc, &mut table, ("A", "x"), ("B", "y"))?;
    add_types(alloc, &mut table, "C", "D")?;
    Ok(table)
}

#[test]
fn names_are_read(rt: HostRuntime) -> Result<(), Fail> {
    let name = read_name(rt.alloc(), b"A.left_1")?;
    assert!(rt; is_member(&name, "A", "left_1"));
    let fault = read_name(rt.alloc(), b"A.x.y").err();
    assert_eq!(rt; fault, Some(NameFault::Bad { at: 3 }));
    Ok(())
}

#[test]
fn the_first_row_in_the_way_is_named(rt: HostRuntime) -> Result<(), Fail> {
    let alloc = rt.alloc();
    let mut table = three_pairs(alloc)?;
    let added = add_types(alloc, &mut table, "E", "D");
    assert_eq!(rt; added, Err(AddFault::Duplicate { row: 2 }));
    let added = add_members(alloc, &mut table, ("E", "x"), ("B", "y"));
    assert_eq!(rt; added, Err(AddFault::Duplicate { row: 1 }));
    let old = RefName::OfType(Text::new(alloc, "C")?);
    let new = RefName::OfType(Text::new(alloc, "B")?);
    assert_eq!(rt; table.clash(&old, &new), Some(0));
    Ok(())
}

#[test]
fn pairs_are_found_by_either_name(rt: HostRuntime) -> Result<(), Fail> {
    let alloc = rt.alloc();
    let table = three_pairs(alloc)?;
    let (a, b) = (Text::new(alloc, "A")?, Text::new(alloc, "B")?);
    let (x, y) = (Text::new(alloc, "x")?, Text::new(alloc, "y")?);
    assert!(rt; table.new_type(&a).is_some_and(|name| name.is_same(&b)));
    assert!(rt; is_found(table.new_member(&a, &x), "B", "y"));
    assert!(rt; is_found(table.old_member(&b, &y), "A", "x"));
    Ok(())
}
