//! Directories that no folder carries, by the first object that breaks a rule and the first rule that it breaks; and
//! directories of which something is not held.
use crate::folder_world::cooked;
use std::alloc::Global;
use std::test::Fail;
use swh_base::{Kind, Name};
use swh_carried::{CookFault, Why};
use swh_graph_fixtures::objects::{ABOVE, BROKEN, OBJECTS};
use swh_graph_fixtures::{add, archive_of};
use swh_memory_input::MemoryYard;
use swh_replay::Replayed;
use swh_swhid::parse_core;

/// Objects, of which the last is cooked; and which of them, from 0, breaks which rule.
type Row = (&'static [(Kind, &'static [u8])], Option<(usize, Why)>);

const ROWS: &[Row] = &[
    // The entry `.`.
    (
        &[
            (Kind::Content, b""),
            (
                Kind::Directory,
                b"100644 .\0\
\xe6\x9d\xe2\x9b\xb2\xd1\xd6\x43\x4b\x8b\x29\xae\x77\x5a\xd8\xc2\xe4\x8c\x53\x91",
            ),
        ],
        Some((1, Why::Dots)),
    ),
    // The entry `..`.
    (
        &[
            (Kind::Content, b""),
            (
                Kind::Directory,
                b"100644 ..\0\
\xe6\x9d\xe2\x9b\xb2\xd1\xd6\x43\x4b\x8b\x29\xae\x77\x5a\xd8\xc2\xe4\x8c\x53\x91",
            ),
        ],
        Some((1, Why::Dots)),
    ),
    // A name that is no UTF-8.
    (
        &[
            (Kind::Content, b""),
            (
                Kind::Directory,
                b"100644 caf\xe9\0\
\xe6\x9d\xe2\x9b\xb2\xd1\xd6\x43\x4b\x8b\x29\xae\x77\x5a\xd8\xc2\xe4\x8c\x53\x91",
            ),
        ],
        Some((1, Why::Text)),
    ),
    // Both in one directory: the first rule.
    (
        &[
            (Kind::Content, b""),
            (
                Kind::Directory,
                b"100644 ..\0\
\xe6\x9d\xe2\x9b\xb2\xd1\xd6\x43\x4b\x8b\x29\xae\x77\x5a\xd8\xc2\xe4\x8c\x53\x91\
100644 \xff\0\
\xe6\x9d\xe2\x9b\xb2\xd1\xd6\x43\x4b\x8b\x29\xae\x77\x5a\xd8\xc2\xe4\x8c\x53\x91",
            ),
        ],
        Some((1, Why::Dots)),
    ),
    // The first in the order of the walk, which is below.
    (
        &[
            (Kind::Content, b""),
            (
                Kind::Directory,
                b"100644 \xff\0\
\xe6\x9d\xe2\x9b\xb2\xd1\xd6\x43\x4b\x8b\x29\xae\x77\x5a\xd8\xc2\xe4\x8c\x53\x91",
            ),
            (
                Kind::Directory,
                b"100644 ..\0\
\xe6\x9d\xe2\x9b\xb2\xd1\xd6\x43\x4b\x8b\x29\xae\x77\x5a\xd8\xc2\xe4\x8c\x53\x91\
40000 d\0\
\x80\x99\x52\x05\x28\x5b\xc7\x92\xe3\x10\x48\x83\xa9\x8f\xb8\x87\x92\xb2\x76\xf8",
            ),
        ],
        Some((1, Why::Text)),
    ),
    // Names that are like those.
    (
        &[
            (Kind::Content, b""),
            (
                Kind::Directory,
                b"100644 ...\0\
\xe6\x9d\xe2\x9b\xb2\xd1\xd6\x43\x4b\x8b\x29\xae\x77\x5a\xd8\xc2\xe4\x8c\x53\x91\
100644 .a\0\
\xe6\x9d\xe2\x9b\xb2\xd1\xd6\x43\x4b\x8b\x29\xae\x77\x5a\xd8\xc2\xe4\x8c\x53\x91",
            ),
        ],
        None,
    ),
];

/// The names of these objects, which are added to an archive.
fn added(
    alloc: Global,
    shown: &mut Replayed,
    objects: &[(Kind, &[u8])],
) -> Result<Vec<Name>, Fail> {
    let mut names = Vec::new(alloc);
    for (kind, body) in objects {
        let Some(name) = add(alloc, shown, *kind, body.to_vec(alloc)?) else {
            return Err(Fail::from("an object"));
        };
        names.push(name)?;
    }
    Ok(names)
}

/// Whether the cooking ended so, with nothing begun where it was refused.
fn ends_so(ended: Result<(), CookFault>, wanted: Option<CookFault>, yard: &MemoryYard) -> bool {
    match wanted {
        Some(fault) => ended == Err(fault) && yard.makings().is_empty() && yard.faults() == 0,
        None => ended.is_ok(),
    }
}

fn is_refused(alloc: Global, row: &Row) -> Result<bool, Fail> {
    let mut shown = Replayed::new(alloc);
    let names = added(alloc, &mut shown, row.0)?;
    let Some(root) = names.last() else {
        return Ok(false);
    };
    let mut wanted = None;
    if let Some((number, why)) = row.1 {
        let Some(name) = names.get(number) else {
            return Ok(false);
        };
        wanted = Some(CookFault::Uncarried { name: *name, why });
    }
    let mut yard = MemoryYard::with_room(alloc, 4096, Vec::new(alloc))?;
    let ended = cooked(alloc, &shown, *root, &mut yard);
    Ok(ends_so(ended, wanted, &yard))
}

/// The number of the first row that ends in another way, or how many there are.
fn first_other(alloc: Global) -> Result<usize, Fail> {
    for (number, row) in ROWS.iter().enumerate() {
        if !is_refused(alloc, row)? {
            return Ok(number);
        }
    }
    Ok(ROWS.len())
}

/// A directory, and the first name that the walk from it enters and that is not held.
const MISSING: &[(&[u8], &[u8])] = &[
    (
        BROKEN,
        b"swh:1:cnt:2222222222222222222222222222222222222222",
    ),
    (ABOVE, b"swh:1:cnt:2222222222222222222222222222222222222222"),
    (
        b"swh:1:dir:2222222222222222222222222222222222222222",
        b"swh:1:dir:2222222222222222222222222222222222222222",
    ),
];

fn name_of(core: &[u8]) -> Result<Name, Fail> {
    match parse_core(core) {
        Some(name) => Ok(name),
        None => Err(Fail::from("a core identifier")),
    }
}

/// The number of the first directory of which another name is told, or how many there are.
fn first_other_missing(alloc: Global) -> Result<usize, Fail> {
    let Some(shown) = archive_of(alloc, OBJECTS) else {
        return Err(Fail::from("an archive"));
    };
    for (number, (root, missing)) in MISSING.iter().enumerate() {
        let mut yard = MemoryYard::with_room(alloc, 4096, Vec::new(alloc))?;
        let ended = cooked(alloc, &shown, name_of(root)?, &mut yard);
        let name = name_of(missing)?;
        if !ends_so(ended, Some(CookFault::NotHeld { name }), &yard) {
            return Ok(number);
        }
    }
    Ok(MISSING.len())
}

#[test]
fn the_first_that_no_folder_carries_is_named(rt: HostRuntime) -> Result<(), Fail> {
    assert_eq!(rt; first_other(rt.alloc())?, ROWS.len());
    Ok(())
}

#[test]
fn the_first_that_is_not_held_is_named(rt: HostRuntime) -> Result<(), Fail> {
    assert_eq!(rt; first_other_missing(rt.alloc())?, MISSING.len());
    Ok(())
}
