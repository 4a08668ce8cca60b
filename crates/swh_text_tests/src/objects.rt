// Objects: their parts, what is refused, and another namer.
use crate::worked_bodies::DIRECTORY;
use std::alloc::Global;
use std::test::Fail;
use swh_base::{ByteNamer, Kind, Namer, Sha1Namer, Shared};
use swh_object::{Object, ObjectFault};

#[test]
fn an_object_keeps_its_body(rt: HostRuntime) -> Result<(), Fail> {
    let body = Shared::from_vec(DIRECTORY.to_vec(rt.alloc())?)?;
    let object = Object::of_shared(rt.alloc(), &Sha1Namer, Kind::Directory, body)?;
    assert!(rt; object.body() == DIRECTORY);
    let entry = object.into_entry();
    assert!(rt; entry.body.as_slice() == DIRECTORY);
    assert!(rt; entry.kids.as_slice().len() == 5);
    Ok(())
}

// The kind, the body, and the place that its reader names.
static BAD: [(Kind, &[u8], u64); 4] = [
    (Kind::Directory, b"100644 a\0aaaaaaaaaaaaaaaaaaaa1", 29),
    (Kind::Revision, b"tree x", 5),
    (Kind::Release, b"tag\n", 0),
    (Kind::Snapshot, b"dangling b\x000:dangling a\x000:", 13),
];

fn fault_of<N: Namer>(alloc: Global, namer: &N, kind: Kind, body: Vec<u8>) -> Option<ObjectFault> {
    Object::make(alloc, namer, kind, body).err()
}

#[test]
fn bodies_that_break(rt: HostRuntime) -> Result<(), Fail> {
    for (kind, body, at) in &BAD {
        let fault = fault_of(rt.alloc(), &Sha1Namer, *kind, body.to_vec(rt.alloc())?);
        assert!(rt; fault == Some(ObjectFault::BadBody { at: *at }));
    }
    Ok(())
}

// One byte above the limit: refused by its length, though no reader would read it either.
#[test]
fn a_body_that_is_too_long(rt: HostRuntime) -> Result<(), Fail> {
    let body = vec![in rt.alloc(); b'x'; 67_108_865]?;
    let fault = fault_of(rt.alloc(), &ByteNamer, Kind::Revision, body);
    assert!(rt; fault == Some(ObjectFault::TooLong { len: 67_108_865 }));
    Ok(())
}

// The namer without a hash gives nineteen zeros and the sum of the bytes.
const SUM: [u8; 20] = [
    0, 0, 0, 0, 0, 0, 0, 0, 0, 0, 0, 0, 0, 0, 0, 0, 0, 0, 0, 0xc3,
];

#[test]
fn sums_as_ids(rt: HostRuntime) {
    assert!(rt; ByteNamer.id(Kind::Content, b"ab") == SUM);
    assert!(rt; ByteNamer.id(Kind::Content, b"ba") == SUM);
}

#[test]
fn another_namer(rt: HostRuntime) -> Result<(), Fail> {
    let body = b"ab".to_vec(rt.alloc())?;
    let object = Object::make(rt.alloc(), &ByteNamer, Kind::Content, body)?;
    assert!(rt; object.name().id == SUM);
    Ok(())
}
