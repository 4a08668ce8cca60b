// Streams that are read part by part, as a loader reads them.
use crate::held_bodies::{Text, source_of};
use Ends::*;
use std::alloc::{AllocError, Global};
use std::test::Fail;
use swh_base::{Bytes, Kind, Memory, Name, Sha1Namer};
use swh_fastload::{StreamParts, StreamWhy, Window};
use swh_ingest::Next;
use swh_inputs::{BadText, InputFault, next_of_stream};
use swh_memory_input::MemorySource;

/// What comes behind the parts of a stream.
#[derive(Clone, Copy)]
enum Ends {
    /// The snapshot of this id.
    Snapshot(&'static [u8; 40]),
    Breaks(u64, StreamWhy),
    Fails,
}

/// A stream, how many objects each of its parts has, and what comes behind them.
type Row = (Text, &'static [usize], Ends);

/// The snapshot without a branch.
const EMPTY: &[u8; 40] = b"1a8893e6a86f444e8be8e7bda6cb34fb1735a00e";

const ROWS: &[Row] = &[
    (
        (b"blob\ndata 2\nhi\nblob\ndata 2\nhi\nblob\ndata 0\n", &[]),
        &[1, 0, 1],
        Snapshot(EMPTY),
    ),
    (
        (b"blob\ndata 2\nhi\ntag v\nfrom :9\ndata 0\n", &[]),
        &[1],
        Breaks(21, StreamWhy::Mark),
    ),
    ((b"blob\ndata 2\nhi\nblob\ndata 2\nhi\n", &[3]), &[1], Fails),
];

fn parts_of(alloc: Global, text: Text) -> Result<StreamParts<Sha1Namer, MemorySource>, AllocError> {
    let source = source_of(alloc, text)?;
    let window = Window::new(alloc)?;
    Ok(StreamParts::new(alloc, window, Sha1Namer, source))
}

/// What comes next of a stream for which no head is named.
fn next_of(
    alloc: Global,
    parts: &mut StreamParts<Sha1Namer, MemorySource>,
) -> Result<Next<Sha1Namer, InputFault>, Memory> {
    let head: Option<Bytes> = None;
    next_of_stream(alloc, parts, &head)
}

/// Whether a part comes with so many objects.
fn has_part(next: &Result<Next<Sha1Namer, InputFault>, Memory>, objects: usize) -> bool {
    match next {
        Ok(Next::Part(part)) => part.len() == objects,
        Ok(Next::Last(_)) => false,
        Ok(Next::Bad(_)) => false,
        Err(_) => false,
    }
}

/// Whether this comes behind the parts.
fn ends_so(next: &Result<Next<Sha1Namer, InputFault>, Memory>, ends: Ends) -> bool {
    match (next, ends) {
        (Ok(Next::Last(last)), Snapshot(id)) => {
            let wanted = Name::from_hex(Kind::Snapshot, id);
            Some(last.snapshot) == wanted.map(|name| name.id)
        }
        (Ok(Next::Bad(InputFault::Bad(BadText::Stream { at, why }))), Breaks(place, cause)) => {
            *at == place && *why == cause
        }
        (Ok(Next::Bad(InputFault::ReadFault)), Fails) => true,
        _ => false,
    }
}

/// Whether a row's stream gives its parts, and then this.
fn reads_so(alloc: Global, row: &Row) -> Result<bool, AllocError> {
    let (text, objects, ends) = row;
    let mut parts = parts_of(alloc, *text)?;
    for count in *objects {
        if !has_part(&next_of(alloc, &mut parts), *count) {
            return Ok(false);
        }
    }
    Ok(ends_so(&next_of(alloc, &mut parts), *ends))
}

/// Fails with the number of the first row, from 0, that is read in another way.
#[test]
fn streams_are_read_by_parts(rt: HostRuntime) -> Result<(), Fail> {
    for (number, row) in ROWS.iter().enumerate() {
        if !reads_so(rt.alloc(), row)? {
            return Err(Fail::new(number));
        }
    }
    Ok(())
}
