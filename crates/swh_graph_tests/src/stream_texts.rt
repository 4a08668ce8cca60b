//! Texts that are written once for a sink and once for a count.
use std::alloc::{AllocError, Global};
use std::test::Fail;
use swh_fastwrite::{Counter, Taker, flush, settle, take_large};
use swh_memory_input::MemorySink;
use swh_outside::Failed;

/// What is done with the bytes that are held.
#[derive(Clone, Copy)]
enum Step {
    /// So many letters are held, and taken where they are enough.
    Holds(u8, usize),
    /// These bytes are taken, after those that are held.
    Takes(&'static [u8]),
    /// What is held is taken.
    Ends,
}

use Step::*;

/// Steps, the numbers of the sink's calls that fail, how many bytes were taken then, and whether the last step failed.
type Row = (&'static [Step], &'static [u64], usize, bool);

const ROWS: &[Row] = &[
    (&[], &[], 0, false),
    // What is held is taken from 65,536 bytes on, and at the end.
    (&[Holds(b'a', 65_535)], &[], 0, false),
    (&[Holds(b'a', 65_536)], &[], 65_536, false),
    (&[Holds(b'a', 65_535), Holds(b'b', 1)], &[], 65_536, false),
    (&[Holds(b'a', 3), Ends], &[], 3, false),
    (&[Holds(b'a', 3), Ends, Ends], &[], 3, false),
    // A large text does not wait, and those that are held go before it.
    (
        &[Holds(b'a', 3), Takes(b"cde"), Holds(b'b', 2)],
        &[],
        6,
        false,
    ),
    (
        &[Holds(b'a', 3), Takes(b"cde"), Holds(b'b', 2), Ends],
        &[],
        8,
        false,
    ),
    // A call that fails takes the first half of its bytes.
    (&[Holds(b'a', 4), Ends], &[0], 2, true),
    (&[Holds(b'a', 4), Takes(b"cdefgh")], &[0], 2, true),
    (&[Holds(b'a', 4), Takes(b"cdefgh")], &[1], 7, true),
    (&[Holds(b'a', 65_536)], &[0], 32_768, true),
];

fn does<T: Taker>(taker: &mut T, held: &mut Vec<u8>, step: Step) -> Result<(), Failed> {
    match step {
        Holds(_, _) => settle(taker, held),
        Takes(bytes) => take_large(taker, held, bytes),
        Ends => flush(taker, held),
    }
}

/// Adds a step's letters to those that are held.
fn hold(alloc: Global, held: &mut Vec<u8>, step: Step) -> Result<(), AllocError> {
    if let Holds(letter, count) = step {
        let mut letters = Vec::from_elem(alloc, letter, count)?;
        held.append(&mut letters)?;
    }
    Ok(())
}

/// Does a row's steps, up to the first that fails, and says whether one did.
fn fails<T: Taker>(alloc: Global, taker: &mut T, steps: &[Step]) -> Result<bool, AllocError> {
    let mut held = Vec::new(alloc);
    for step in steps {
        hold(alloc, &mut held, *step)?;
        if does(taker, &mut held, *step).is_err() {
            return Ok(true);
        }
    }
    Ok(false)
}

/// All the bytes of these steps, one after another.
fn text_of(alloc: Global, steps: &[Step]) -> Result<Vec<u8>, AllocError> {
    let mut text = Vec::new(alloc);
    for step in steps {
        hold(alloc, &mut text, *step)?;
        if let Takes(bytes) = step {
            text.extend_from_slice(bytes)?;
        }
    }
    Ok(text)
}

/// Whether a sink takes what it is to take, a front of the whole text.
fn is_put(alloc: Global, (steps, failing, count, refused): Row) -> Result<bool, AllocError> {
    let failing = Vec::from_slice(alloc, failing)?;
    let mut sink = MemorySink::new(alloc, 200_000, failing)?;
    let failed = fails(alloc, &mut sink, steps)?;
    let text = text_of(alloc, steps)?;
    Ok(
        failed == refused
            && sink.bytes().len() == count
            && text.as_slice().starts_with(sink.bytes()),
    )
}

/// Whether a count, from this one on, goes up by what a sink that does not fail takes.
fn is_counted(
    alloc: Global,
    (steps, failing, count, _): Row,
    from: u64,
) -> Result<bool, AllocError> {
    let mut counter = Counter { count: from };
    let failed = fails(alloc, &mut counter, steps)?;
    Ok(!failed && (!failing.is_empty() || counter.count == from.saturating_add(count as u64)))
}

#[test]
fn a_sink_and_a_count_agree(rt: HostRuntime) -> Result<(), Fail> {
    for (number, row) in ROWS.iter().enumerate() {
        assert!(rt; is_put(rt.alloc(), *row)?, "put {number}");
        assert!(rt; is_counted(rt.alloc(), *row, 0)?, "counted {number}");
    }
    Ok(())
}

/// The last number that a count may have.
#[test]
fn a_count_ends(rt: HostRuntime) -> Result<(), Fail> {
    let last = u64::MAX;
    for (number, row) in ROWS.iter().enumerate() {
        assert!(rt; is_counted(rt.alloc(), *row, last - 4)?, "counted {number}");
    }
    Ok(())
}
