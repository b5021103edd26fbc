use entity_form::{
    DecodeFault, FormFault, Header, decode, default_object, encode, header_at, read_entity, ref_at,
    write_entity,
};
use graph_export::line_of;
use graph_model::{Bytes, Entity, Ids};
use std::test::Fail;
use type_desc::read_desc;

/// The entity with id 1024 of `16 Point{int x,int y,ref next}` where x is 5.
const POINT: [u8; 56] = [
    0x38, 0, 0, 0, 0, 0, 0, 0, 0x10, 0, 0, 0, 0, 0, 0, 0, 0, 4, 0, 0, 0, 0, 0, 0, 1, 0, 0, 0, 0, 0,
    0, 0, 0, 0, 0, 0, 0, 0, 0, 0, 5, 0, 0, 0, 0, 0, 0, 0, 0, 0, 0, 0, 0, 0, 0, 0,
];

#[test]
fn spells_a_point(rt: HostRuntime) -> Result<(), Fail> {
    let (_, desc) = read_desc(rt.alloc(), b"16 Point{int x,int y,ref next}")?;
    let (id, read) = read_entity(rt.alloc(), &POINT)?;
    assert_eq!(rt; id, 1024);
    let object = decode(rt.alloc(), &read, &desc)?;
    assert_eq!(rt; object.type_id, 16);
    let entity = encode(rt.alloc(), &object, &desc)?;
    assert_eq!(rt; entity.refs.len(), 1);
    assert_eq!(rt; entity.plain.len(), 16);
    assert!(rt; entity.type_id >= 1);
    let mut out = [7; 58];
    let end = write_entity(1024, &entity, &mut out, 1);
    assert_eq!(rt; end, 57);
    assert_eq!(rt; &out[1..57], POINT.as_slice());
    assert!(rt; out[0] == 7 && out[57] == 7);
    Ok(())
}

#[test]
fn a_header_is_read(rt: HostRuntime) {
    let header = Header {
        length: 56,
        type_id: 16,
        id: 1024,
        count: 1,
    };
    assert_eq!(rt; header_at(&POINT, 0), Some(header));
    assert_eq!(rt; header_at(&POINT, 25), None);
    assert_eq!(rt;
        (ref_at(&POINT, 0, 1), ref_at(&POINT, 0, 3)),
        (Some(5), None)
    );
    let cut = read_entity(rt.alloc(), &POINT[..55]).err();
    assert_eq!(rt; cut, Some(FormFault::Bad));
}

#[test]
fn defaults_are_a_line(rt: HostRuntime) -> Result<(), Fail> {
    let record = b"16 All{text t,refs r,int n,lazy l,ref f,bytes b}";
    let (id, desc) = read_desc(rt.alloc(), record)?;
    let object = default_object(rt.alloc(), id, &desc)?;
    assert_eq!(rt; desc.members.len(), object.values.len());
    let line = line_of(rt.alloc(), 1024, &object, &desc)?;
    let want = r#"{"id":1024,"m":{"b":"","f":0,"l":0,"n":0,"r":[],"t":""},"type":"All"}"#;
    assert_eq!(rt; line.as_slice(), want.as_bytes());
    assert!(rt; !object.values.is_empty());
    assert_eq!(rt; object.clone()?.values.into_vec().len(), 6);
    Ok(())
}

#[test]
fn a_bad_form_is_told(rt: HostRuntime) -> Result<(), Fail> {
    let (_, desc) = read_desc(rt.alloc(), b"16 T{int n,text t}")?;
    let plain = Vec::from_slice(
        rt.alloc(),
        &[5, 0, 0, 0, 0, 0, 0, 0, 2, 0, 0, 0, 0xc3, 0x28],
    )?;
    let entity = Entity {
        type_id: 16,
        refs: Ids::new(Vec::new(rt.alloc())),
        plain: Bytes::new(plain),
    };
    let fault = decode(rt.alloc(), &entity, &desc).err();
    assert_eq!(rt; fault, Some(DecodeFault::BadForm { at: 1 }));
    Ok(())
}
