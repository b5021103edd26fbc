ghost use Rattle.std.specs.Prelude.{IfOk};
ghost use Rattle.type_desc.specs.Grammar.{IsDesc};

use std::alloc::Global;
use std::test::Fail;
use type_desc::{DescFault, Text, TypeDesc, read_desc};
use type_dictionary::{Declared, Dictionary, RecordFault, have_no_repeat};

/// The description that a record gives.
fn desc(alloc: Global, record: &str) -> Result<TypeDesc, DescFault>
    ensures { IfOk result IsDesc }
{
    let (_, desc) = read_desc(alloc, record.as_bytes())?;
    Ok(desc)
}

/// The id of the record's type, and whether it is new with this record.
fn declared(alloc: Global, types: &Dictionary, record: &str) -> Result<(u64, bool), Fail> {
    match types.declare(&desc(alloc, record)?)? {
        Declared::Known(id) => Ok((id, false)),
        Declared::New { id, text } => Ok((id, text.as_slice() == record.as_bytes())),
    }
}

/// `Point` with one member, with two, and with one again.
fn points(alloc: Global) -> Result<Dictionary, RecordFault> {
    let mut types = Dictionary::new(alloc);
    for record in [
        "16 Point{int x}",
        "17 Point{int x,int y}",
        "18 Point{int x}",
    ] {
        types.add_record(record.as_bytes())?;
    }
    Ok(types)
}

/// Whether the type of the id has this name.
fn is_named(types: &Dictionary, id: u64, name: &str) -> bool {
    match types.by_id(id) {
        Some(desc) => desc.name.as_str() == name,
        None => false,
    }
}

#[test]
fn types_are_declared(rt: HostRuntime) -> Result<(), Fail> {
    let alloc = rt.alloc();
    let types = points(alloc)?;
    for (record, want) in [
        ("16 Point{int x}", (18, false)),
        ("19 Point{int x,int y}", (19, true)),
        ("19 Line{}", (19, true)),
    ] {
        assert_eq!(rt; declared(alloc, &types, record)?, want, "{record}");
    }
    Ok(())
}

#[test]
fn types_are_found(rt: HostRuntime) -> Result<(), Fail> {
    let mut types = points(rt.alloc())?;
    for (id, name, want) in [(1, "Root", true), (17, "Point", true), (19, "Point", false)] {
        assert_eq!(rt; is_named(&types, id, name), want);
    }
    let name = Text::new(rt.alloc(), "Point")?;
    assert_eq!(rt; types.latest(&name), Some(18));
    assert!(rt; types.get(2).is_some() && types.get(3).is_none());
    assert_eq!(rt; (types.as_slice().len(), types.count()), (3, 3));
    let again = types.add_record(b"18 Line{}");
    assert_eq!(rt; again, Err(RecordFault::Bad));
    Ok(())
}

#[test]
fn member_names_may_differ(rt: HostRuntime) -> Result<(), Fail> {
    let alloc = rt.alloc();
    for (record, differ) in [("16 T{int a,int ab}", true), ("16 T{int a,text a}", false)] {
        assert_eq!(rt; have_no_repeat(alloc, &desc(alloc, record)?)?, differ);
    }
    Ok(())
}
