// Yards in memory.
use std::alloc::{AllocError, Global};
use std::test::Fail;
use swh_memory_input::{Begins, Making, MemoryYard};
use swh_outside::{Failed, OutFault, Sink, Yard};

/// A call on a yard, and whether it is done.
#[derive(Clone, Copy)]
enum Act {
    Makes(&'static str),
    MakesNot(&'static str),
    Begins(&'static str),
    BeginsNot(&'static str),
    Puts(&'static [u8]),
    PutsNot(&'static [u8]),
}

use Act::*;

fn does(yard: &mut MemoryYard, act: Act) -> bool {
    match act {
        Makes(path) => yard.folder(path) == Ok(()),
        MakesNot(path) => yard.folder(path) == Err(OutFault::Failed),
        Begins(path) => yard.file(path) == Ok(()),
        BeginsNot(path) => yard.file(path) == Err(OutFault::Failed),
        Puts(bytes) => yard.put(bytes) == Ok(()),
        PutsNot(bytes) => yard.put(bytes) == Err(Failed),
    }
}

/// What a yard has at last: its paths in their order, each with what begins there; the bytes that were put; and how often
/// it has failed.
struct Seen {
    made: &'static [(&'static str, Begins)],
    bytes: &'static [u8],
    faults: u64,
}

fn is_made((making, (path, begins)): (&Making, &(&'static str, Begins))) -> bool {
    making.is_at(path) && making.begins == *begins
}

fn is_seen(yard: &MemoryYard, seen: &Seen) -> bool {
    yard.makings().len() == seen.made.len()
        && yard.makings().iter().zip(seen.made).all(is_made)
        && yard.bytes() == seen.bytes
        && yard.faults() == seen.faults
}

/// Fails with the number of the first act, from 0, that ends in another way, or with their number where the yard has other
/// things at last.
fn ends_so(yard: &mut MemoryYard, acts: &[Act], seen: &Seen) -> Result<(), Fail> {
    for (number, act) in acts.iter().enumerate() {
        if !does(yard, *act) {
            return Err(Fail::new(number));
        }
    }
    if is_seen(yard, seen) {
        Ok(())
    } else {
        Err(Fail::new(acts.len()))
    }
}

fn yard_of(alloc: Global, room: usize, failing: &[u64]) -> Result<MemoryYard, AllocError> {
    MemoryYard::with_room(alloc, room, Vec::from_slice(alloc, failing)?)
}

const ACTS: &[Act] = &[
    Makes("out"),
    Begins("out/b"),
    Puts(b"one "),
    Makes("out/a"),
    Puts(b"two"),
    Begins("out/a/x"),
    Begins("out/a/y"),
    Puts(b"three"),
    // What was begun is not begun again.
    MakesNot("out"),
    MakesNot("out/b"),
    BeginsNot("out/a"),
    BeginsNot("out/a/y"),
    Puts(b""),
    // There is no room for more.
    PutsNot(b"x"),
];

const SEEN: Seen = Seen {
    made: &[
        ("out", Begins::Folder),
        ("out/b", Begins::File { from: 0 }),
        ("out/a", Begins::Folder),
        ("out/a/x", Begins::File { from: 7 }),
        ("out/a/y", Begins::File { from: 7 }),
    ],
    bytes: b"one twothree",
    faults: 5,
};

/// What is put goes to the file that was begun last, also where a folder was made since.
#[test]
fn a_yard_keeps_what_was_begun(rt: HostRuntime) -> Result<(), Fail> {
    let mut yard = yard_of(rt.alloc(), 12, &[])?;
    ends_so(&mut yard, ACTS, &SEEN)
}

const FAILING: &[Act] = &[
    MakesNot("out"),
    Makes("out"),
    BeginsNot("out/a"),
    Begins("out/a"),
    PutsNot(b"abcd"),
    Puts(b"cd"),
    BeginsNot("out"),
];

const FAILED: Seen = Seen {
    made: &[("out", Begins::Folder), ("out/a", Begins::File { from: 0 })],
    bytes: b"abcd",
    faults: 4,
};

/// The first, the third and the fifth call fail. A call that is to fail makes nothing, or takes half of its bytes.
#[test]
fn chosen_calls_of_a_yard_fail(rt: HostRuntime) -> Result<(), Fail> {
    let mut yard = yard_of(rt.alloc(), 64, &[0, 2, 4])?;
    ends_so(&mut yard, FAILING, &FAILED)
}

const EMPTY: Seen = Seen {
    made: &[("a", Begins::File { from: 0 })],
    bytes: b"",
    faults: 1,
};

#[test]
fn a_yard_without_room_takes_no_bytes(rt: HostRuntime) -> Result<(), Fail> {
    let mut yard = MemoryYard::new(rt.alloc());
    ends_so(&mut yard, &[Begins("a"), PutsNot(b"x")], &EMPTY)
}
