//! What is reached from itself is told before all that a stream cannot carry, with the naming by small sums.
use crate::cycles::{add_object, folders, id};
use crate::stream_world::refusal;
use std::alloc::Global;
use std::test::Fail;
use swh_base::{Kind, Name};
use swh_carried::{CookFault, Why};
use swh_replay::Replayed;

/// A commit of the folder that is its own entry.
const OF_ITSELF: (u8, &[u8]) = (
    0x8f,
    b"tree 0000000000000000000000000000000000000000\n\
author A <a@e.org> 1 +0000\n\
committer A <a@e.org> 1 +0000\n\
\n\
\n",
);

/// A commit of the first of two folders, each of which is the entry of the other.
const OF_TWO: (u8, &[u8]) = (
    0x90,
    b"tree 0000000000000000000000000000000000000001\n\
author A <a@e.org> 1 +0000\n\
committer A <a@e.org> 1 +0000\n\
\n\
\n",
);

/// A folder with an entry of two dots, which no stream carries.
const UP: (u8, &[u8]) = (
    0x23,
    b"100644 ..\0\0\0\0\0\0\0\0\0\0\0\0\0\0\0\0\0\0\0\0\x78",
);

/// A commit of that folder, whose parent is the first commit.
const ABOVE: (u8, &[u8]) = (
    0x06,
    b"tree 0000000000000000000000000000000000000023\n\
parent 000000000000000000000000000000000000008f\n\
author A <a@e.org> 1 +0000\n\
committer A <a@e.org> 1 +0000\n\
\n\
\n",
);

/// A snapshot of the folder that is its own entry: it is told before the branch, which no stream carries.
const OF_HEAD: (u8, &[u8]) = (
    0xa3,
    b"directory HEAD\020:\0\0\0\0\0\0\0\0\0\0\0\0\0\0\0\0\0\0\0\0",
);

/// Roots, and the folder that is told.
const CASES: &[(Kind, u8, u8)] = &[
    (Kind::Revision, 0x8f, 0),
    (Kind::Revision, 0x90, 0x77),
    (Kind::Revision, 0x06, 0),
    (Kind::Snapshot, 0xa3, 0),
];

fn shown_with(alloc: Global) -> Result<Replayed, Fail> {
    let mut shown = folders(alloc)?;
    add_object(alloc, &mut shown, Kind::Content, &(0x78, b"x"))?;
    add_object(alloc, &mut shown, Kind::Directory, &UP)?;
    for commit in [OF_ITSELF, OF_TWO, ABOVE].iter() {
        add_object(alloc, &mut shown, Kind::Revision, commit)?;
    }
    add_object(alloc, &mut shown, Kind::Snapshot, &OF_HEAD)?;
    Ok(shown)
}

/// The number of the first root with another answer, or how many there are.
fn first_other(alloc: Global) -> Result<usize, Fail> {
    let shown = shown_with(alloc)?;
    let why = Why::Cycle;
    for (number, (kind, root, told)) in CASES.iter().enumerate() {
        let root = Name {
            kind: *kind,
            id: id(*root),
        };
        let name = Name {
            kind: Kind::Directory,
            id: id(*told),
        };
        if refusal(alloc, &shown, root)? != Some(CookFault::Uncarried { name, why }) {
            return Ok(number);
        }
    }
    Ok(CASES.len())
}

#[test]
fn a_cycle_is_told_before_all_rules(rt: HostRuntime) -> Result<(), Fail> {
    assert_eq!(rt; first_other(rt.alloc())?, CASES.len());
    Ok(())
}
