use std::test::Fail;
use type_desc::{Bytes8, DescFault, Text, TypeDesc, read_desc, write_desc};

#[test]
fn records_are_read_and_written(rt: HostRuntime) -> Result<(), Fail> {
    let text = b"100 B_2c{bytes b,lazy l_9,refs rs,text t,ref r}";
    let (id, desc) = read_desc(rt.alloc(), text)?;
    assert_eq!(rt;
        (id, desc.name.as_str(), desc.members.len()),
        (100, "B_2c", 5)
    );
    let written = write_desc(rt.alloc(), id, &desc)?;
    assert_eq!(rt; written.as_slice(), text.as_slice());
    let fault = read_desc(rt.alloc(), b"16 T{ints x}").err();
    assert_eq!(rt; fault, Some(DescFault::At { at: 8 }));
    Ok(())
}

#[test]
fn descriptions_are_compared(rt: HostRuntime) -> Result<(), Fail> {
    let (_, root) = read_desc(rt.alloc(), b"16 Root{ref target}")?;
    assert!(rt; root.is_same(&TypeDesc::root()));
    let (_, other) = read_desc(rt.alloc(), b"16 Root{lazy target}")?;
    assert!(rt; other.clone()?.is_same(&other) && !other.is_same(&root));
    assert!(rt; !other.members.is_empty());
    let text = Text::from_ascii(rt.alloc(), b"target")?;
    assert!(rt; text.is_same(&Text::target()) && !text.is_same(&Text::root()));
    let bytes = Bytes8::new(Vec::from_slice(rt.alloc(), b"ab")?);
    assert_eq!(rt; bytes.into_vec().as_slice(), b"ab".as_slice());
    Ok(())
}
