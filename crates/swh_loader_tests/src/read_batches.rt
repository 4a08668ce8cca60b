// Batches with their refs that are read part by part, as a loader reads them.
use crate::held_bodies::{Text, source_of};
use Ends::*;
use std::alloc::{AllocError, Global};
use std::test::Fail;
use swh_base::{Kind, Memory, Name, Sha1Namer};
use swh_batchread::BatchParts;
use swh_fastload::Window;
use swh_ingest::Next;
use swh_inputs::{BadText, BatchInput, InputFault, next_of_batch};

/// What comes behind the parts of a batch.
#[derive(Clone, Copy)]
enum Ends {
    /// The snapshot of this id.
    Snapshot(&'static [u8; 40]),
    Breaks(u64),
    BreaksInRefs(u64),
    Fails,
}

/// A batch and its refs, how many objects each of its parts has, and what comes behind them.
type Row = (Text, Text, &'static [usize], Ends);

/// The snapshot without a branch.
const EMPTY: &[u8; 40] = b"1a8893e6a86f444e8be8e7bda6cb34fb1735a00e";

/// The file of `hi` and an LF, twice, and the empty file.
const TWICE: &[u8] = b"45b983be36b73c0788dc9cbcb76cbb80fc7bb057 blob 3\nhi\n\n\
45b983be36b73c0788dc9cbcb76cbb80fc7bb057 blob 3\nhi\n\n\
e69de29bb2d1d6434b8b29ae775ad8c2e48c5391 blob 0\n\n";

const CUT: &[u8] = b"45b983be36b73c0788dc9cbcb76cbb80fc7bb057 blob 3\nhi\n\nx\n";

const ROWS: &[Row] = &[
    ((TWICE, &[]), (b"", &[]), &[1, 0, 1], Snapshot(EMPTY)),
    ((CUT, &[]), (b"", &[]), &[1], Breaks(52)),
    ((TWICE, &[9]), (b"", &[]), &[1], Fails),
    ((TWICE, &[]), (b"x\n", &[]), &[1, 0, 1], BreaksInRefs(1)),
    ((TWICE, &[]), (b"x\n", &[0]), &[1, 0, 1], Fails),
];

/// Whether this comes behind the parts.
fn ends_so(next: &Result<Next<Sha1Namer, InputFault>, Memory>, ends: Ends) -> bool {
    match (next, ends) {
        (Ok(Next::Last(last)), Snapshot(id)) => {
            let wanted = Name::from_hex(Kind::Snapshot, id);
            Some(last.snapshot) == wanted.map(|name| name.id)
        }
        (Ok(Next::Bad(InputFault::Bad(BadText::Batch { at }))), Breaks(place)) => *at == place,
        (Ok(Next::Bad(InputFault::Bad(BadText::Refs { line }))), BreaksInRefs(wanted)) => {
            *line == wanted
        }
        (Ok(Next::Bad(InputFault::ReadFault)), Fails) => true,
        _ => false,
    }
}

/// Whether a row's batch gives its parts, and then this.
fn reads_so(alloc: Global, row: &Row) -> Result<bool, AllocError> {
    let (objects, refs, counts, ends) = row;
    let mut objects = source_of(alloc, *objects)?;
    let mut refs = source_of(alloc, *refs)?;
    let window = Window::new(alloc)?;
    let mut input = BatchInput {
        parts: BatchParts::new(alloc, window),
        objects: &mut objects,
        refs: &mut refs,
    };
    'parts: for count in *counts {
        match next_of_batch(alloc, &Sha1Namer, &mut input) {
            Ok(Next::Part(part)) => {
                if part.len() != *count {
                    return Ok(false);
                }
            }
            _ => return Ok(false),
        }
    }
    Ok(ends_so(&next_of_batch(alloc, &Sha1Namer, &mut input), *ends))
}

/// Fails with the number of the first row, from 0, that is read in another way.
#[test]
fn batches_are_read_by_parts(rt: HostRuntime) -> Result<(), Fail> {
    for (number, row) in ROWS.iter().enumerate() {
        if !reads_so(rt.alloc(), row)? {
            return Err(Fail::new(number));
        }
    }
    Ok(())
}
