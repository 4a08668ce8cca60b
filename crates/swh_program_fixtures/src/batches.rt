// Batches of many objects, with the ids of the program's namer.
use std::alloc::{AllocError, Global};
use swh_base::{Kind, Namer, Sha1Namer};

fn put_hex(alloc: Global, out: &mut Vec<u8>, id: &[u8]) -> Result<(), AllocError> {
    for byte in id {
        let digits = format!(in alloc; "{byte:02x}")?;
        out.extend_from_slice(digits.as_bytes())?;
    }
    Ok(())
}

// Adds an object: its id in hexadecimal digits, its kind and how long it is, its bytes, and an LF. The answer is its id.
fn put_object(
    alloc: Global,
    out: &mut Vec<u8>,
    kind: Kind,
    body: &[u8],
) -> Result<[u8; 20], AllocError> {
    let id = Sha1Namer.id(kind, body);
    put_hex(alloc, out, &id)?;
    out.extend_from_slice(b" ")?;
    out.extend_from_slice(kind.word())?;
    let length = format!(in alloc; " {}\n", body.len())?;
    out.extend_from_slice(length.as_bytes())?;
    out.extend_from_slice(body)?;
    out.extend_from_slice(b"\n")?;
    Ok(id)
}

fn put_entry(
    directory: &mut Vec<u8>,
    front: &[u8],
    name: &[u8],
    id: [u8; 20],
) -> Result<(), AllocError> {
    directory.extend_from_slice(front)?;
    directory.extend_from_slice(name)?;
    directory.extend_from_slice(b"\0")?;
    directory.extend_from_slice(&id)
}

/// Adds a content of six digits for each number below this, and the directory of them all.
pub fn put_numbered(alloc: Global, out: &mut Vec<u8>, count: usize) -> Result<(), AllocError> {
    let mut directory = Vec::new(alloc);
    for number in 0..count {
        let digits = format!(in alloc; "{number:06}")?;
        let id = put_object(alloc, out, Kind::Content, digits.as_bytes())?;
        put_entry(&mut directory, b"100644 ", digits.as_bytes(), id)?;
    }
    put_object(alloc, out, Kind::Directory, &directory)?;
    Ok(())
}

// Adds a directory with another as `a` and as `b`.
fn put_double(alloc: Global, out: &mut Vec<u8>, id: [u8; 20]) -> Result<[u8; 20], AllocError> {
    let mut directory = Vec::new(alloc);
    put_entry(&mut directory, b"40000 ", b"a", id)?;
    put_entry(&mut directory, b"40000 ", b"b", id)?;
    put_object(alloc, out, Kind::Directory, &directory)
}

/// Adds a content, a directory of it, and so many directories, each with the one before it twice.
pub fn put_doubled(alloc: Global, out: &mut Vec<u8>, levels: usize) -> Result<(), AllocError> {
    let content = put_object(alloc, out, Kind::Content, b"x")?;
    let mut directory = Vec::new(alloc);
    put_entry(&mut directory, b"100644 ", b"f", content)?;
    let mut id = put_object(alloc, out, Kind::Directory, &directory)?;
    for _ in 0..levels {
        id = put_double(alloc, out, id)?;
    }
    Ok(())
}

// Adds a release of an object of this kind.
fn put_tag(
    alloc: Global,
    out: &mut Vec<u8>,
    target: (Kind, [u8; 20]),
    number: usize,
) -> Result<[u8; 20], AllocError> {
    let mut release = Vec::new(alloc);
    release.extend_from_slice(b"object ")?;
    put_hex(alloc, &mut release, &target.1)?;
    release.extend_from_slice(b"\ntype ")?;
    release.extend_from_slice(target.0.word())?;
    let name = format!(in alloc; "\ntag {number:06}\n\n")?;
    release.extend_from_slice(name.as_bytes())?;
    put_object(alloc, out, Kind::Release, &release)
}

/// Adds a content, and so many releases, the first of it, and each other one of the one before it.
pub fn put_tagged(alloc: Global, out: &mut Vec<u8>, count: usize) -> Result<(), AllocError> {
    let id = put_object(alloc, out, Kind::Content, b"x")?;
    let mut target = (Kind::Content, id);
    for number in 0..count {
        let id = put_tag(alloc, out, target, number)?;
        target = (Kind::Release, id);
    }
    Ok(())
}
