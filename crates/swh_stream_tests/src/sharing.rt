// Streams that are read part by part, of which bodies are shared between the parts. Objects are named by sums, so that two
// bodies have one name.
use std::alloc::{AllocError, Global};
use std::test::Fail;
use swh_base::Kind::{self, Content, Revision};
use swh_base::{ByteNamer, Memory, Name, Namer, Shared};
use swh_fastload::{InputFault, StreamPart, StreamParts, Window};
use swh_memory_input::MemorySource;

/// A body that is lent, and the object by whose name it is: its kind and its body.
type Lent = (&'static [u8], (Kind, &'static [u8]));

/// A stream, what is lent behind each of its parts, and how many objects each part has.
type Row = (&'static [u8], Lent, &'static [usize]);

const ROWS: &[Row] = &[
    // The body of an object that was given.
    (
        b"blob\ndata 2\nhi\nblob\ndata 2\nhi\n",
        (b"hi", (Content, b"hi")),
        &[1, 0],
    ),
    // The second of two bodies of one name.
    (
        b"blob\ndata 2\nad\nblob\ndata 2\nbc\nblob\ndata 2\nad\nblob\ndata 2\nbc\n",
        (b"bc", (Content, b"bc")),
        &[1, 1, 0, 0],
    ),
    // A body that is never given.
    (
        b"blob\ndata 2\nhi\nblob\ndata 2\nho\nblob\ndata 2\nhi\n",
        (b"hu", (Content, b"hu")),
        &[1, 1, 0],
    ),
    // The name of an object that was given, and another body.
    (
        b"blob\ndata 2\nad\nblob\ndata 2\nbc\nblob\ndata 2\nad\n",
        (b"bc", (Content, b"ad")),
        &[1, 1, 0],
    ),
    (
        b"blob\ndata 2\nhi\nblob\ndata 2\nho\nblob\ndata 2\nhi\n",
        (b"ho", (Content, b"hi")),
        &[1, 1, 0],
    ),
    // The id and the body of an object that was given, and another kind.
    (
        b"blob\ndata 2\nhi\nblob\ndata 2\nhi\n",
        (b"hi", (Revision, b"hi")),
        &[1, 0],
    ),
];

/// The parts of a stream, which comes in small pieces.
fn parts_of(
    alloc: Global,
    stream: &[u8],
) -> Result<StreamParts<ByteNamer, MemorySource>, AllocError> {
    let bytes = Vec::from_slice(alloc, stream)?;
    let source = MemorySource::new(String::new(alloc), bytes, 61, Vec::new(alloc));
    let window = Window::new(alloc)?;
    Ok(StreamParts::new(alloc, window, ByteNamer, source))
}

/// Shares a body that is lent.
fn share(
    alloc: Global,
    parts: &mut StreamParts<ByteNamer, MemorySource>,
    lent: Lent,
) -> Result<(), Memory> {
    let (body, (kind, named)) = lent;
    let id = ByteNamer.id(kind, named);
    let body = Shared::from_vec(Vec::from_slice(alloc, body)?)?;
    parts.share(&Name { kind, id }, body);
    Ok(())
}

/// How many objects a part has that is not the last.
fn count_of(part: Result<StreamPart<ByteNamer>, InputFault>) -> Option<usize> {
    match part {
        Ok(StreamPart::More(objects)) => Some(objects.len()),
        Ok(StreamPart::Last(_)) => None,
        Err(_) => None,
    }
}

/// Whether a part is the last, with the snapshot alone.
fn is_end(part: Result<StreamPart<ByteNamer>, InputFault>) -> bool {
    match part {
        Ok(StreamPart::More(_)) => false,
        Ok(StreamPart::Last(last)) => last.objects.len() == 1,
        Err(_) => false,
    }
}

/// Whether the parts of a row's stream have so many objects.
fn gives_so(alloc: Global, row: &Row) -> Result<bool, Memory> {
    let (stream, lent, given) = row;
    let mut parts = parts_of(alloc, stream)?;
    for objects in *given {
        if count_of(parts.next(alloc, None)) != Some(*objects) {
            return Ok(false);
        }
        share(alloc, &mut parts, *lent)?;
    }
    Ok(is_end(parts.next(alloc, None)))
}

/// Fails with the number of the first row, from 0, of which other objects are given.
#[test]
fn shared_bodies(rt: HostRuntime) -> Result<(), Fail> {
    for (number, row) in ROWS.iter().enumerate() {
        if !gives_so(rt.alloc(), row)? {
            return Err(Fail::new(number));
        }
    }
    Ok(())
}
