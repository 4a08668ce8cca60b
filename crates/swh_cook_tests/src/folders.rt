//! Directories that become folders: as git checks them out (`git checkout-index -a -f`, which makes no folder without
//! files) and lists them (`git ls-tree -r -t`).
use crate::folder_world::cooked;
use crate::objects::{ALL, EMPTY, EMPTY_INSIDE, OBJECTS, PROGRAM};
use crate::yards::Laid::{Bytes, List};
use crate::yards::{Layout, is_made};
use std::alloc::Global;
use std::test::Fail;
use swh_base::Name;
use swh_carried::CookFault;
use swh_graph_fixtures::archive_of;
use swh_memory_input::MemoryYard;
use swh_outside::What::{File, Folder};
use swh_replay::Replayed;
use swh_swhid::parse_core;

/// A directory, what stands in its folder, and its listing.
pub type Row = (&'static [u8], Layout, &'static [u8]);

pub const ROWS: &[Row] = &[
    (
        ALL,
        &[
            (
                "",
                List(&[
                    ("a", Folder),
                    ("a.b", File),
                    ("a0", File),
                    ("café", Folder),
                    ("empty", Folder),
                ]),
            ),
            ("a.b", Bytes(b"version 1\n")),
            ("a", List(&[("ln", File), ("run", File)])),
            ("a/ln", Bytes(b"run")),
            ("a/run", Bytes(b"hi\n")),
            ("a0", Bytes(b"hi\n")),
            ("café", List(&[("test.txt", File)])),
            ("café/test.txt", Bytes(b"version 1\n")),
            ("empty", List(&[])),
        ],
        b"120000 a/ln\n100755 a/run\n160000 295c0651a95ba32ac5e14f92da0161b122942cac module\n",
    ),
    (
        PROGRAM,
        &[
            ("", List(&[("ln", File), ("run", File)])),
            ("ln", Bytes(b"run")),
            ("run", Bytes(b"hi\n")),
        ],
        b"120000 ln\n100755 run\n",
    ),
    (
        EMPTY_INSIDE,
        &[("", List(&[("empty", Folder)])), ("empty", List(&[]))],
        b"",
    ),
    (EMPTY, &[("", List(&[]))], b""),
];

fn root_of(core: &[u8]) -> Result<Name, Fail> {
    match parse_core(core) {
        Some(name) => Ok(name),
        None => Err(Fail::from("a core identifier")),
    }
}

fn archive(alloc: Global) -> Result<Replayed, Fail> {
    match archive_of(alloc, OBJECTS) {
        Some(shown) => Ok(shown),
        None => Err(Fail::from("an archive")),
    }
}

/// The number of the first row whose folder is another, or how many there are.
fn first_other(alloc: Global) -> Result<usize, Fail> {
    let shown = archive(alloc)?;
    for (number, (core, layout, listing)) in ROWS.iter().enumerate() {
        let mut yard = MemoryYard::with_room(alloc, 4096, Vec::new(alloc))?;
        let ended = cooked(alloc, &shown, root_of(core)?, &mut yard);
        if ended.is_err() || !is_made(alloc, &yard, layout, listing)? {
            return Ok(number);
        }
    }
    Ok(ROWS.len())
}

/// For each call of a yard that fails: how many folders and files were begun, and how many bytes were put. A put that fails
/// takes the first half of its bytes.
const STOPS: &[(usize, usize)] = &[(0, 0), (1, 0), (2, 1), (2, 3), (3, 4), (3, 6), (4, 16)];

/// The number of the first call whose failing leaves something else, or how many calls there are.
fn first_other_stop(alloc: Global) -> Result<usize, Fail> {
    let shown = archive(alloc)?;
    let root = root_of(PROGRAM)?;
    for (number, (makings, bytes)) in STOPS.iter().enumerate() {
        let mut failing = Vec::new(alloc);
        failing.push(number as u64)?;
        let mut yard = MemoryYard::with_room(alloc, 4096, failing)?;
        let ended = cooked(alloc, &shown, root, &mut yard);
        let stands = yard.makings().len() == *makings && yard.bytes().len() == *bytes;
        if ended != Err(CookFault::WriteFault) || !stands || yard.faults() != 1 {
            return Ok(number);
        }
    }
    Ok(STOPS.len())
}

#[test]
fn folders_are_those_of_git(rt: HostRuntime) -> Result<(), Fail> {
    assert_eq!(rt; first_other(rt.alloc())?, ROWS.len());
    Ok(())
}

#[test]
fn a_yard_that_fails_has_a_front(rt: HostRuntime) -> Result<(), Fail> {
    assert_eq!(rt; first_other_stop(rt.alloc())?, STOPS.len());
    Ok(())
}
