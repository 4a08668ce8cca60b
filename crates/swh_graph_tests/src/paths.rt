//! The walk over the paths of a directory.
use std::alloc::Global;
use std::test::Fail;
use swh_base::{Kind, Name};
use swh_graph::GraphFault;
use swh_graph_fixtures::objects::{BROKEN, EMPTY, FIRST, FOLDER, OBJECTS, TOP, VERSION_1};
use swh_graph_fixtures::{add, archive_of};
use swh_pathwalk::PathWalk;
use swh_replay::Replayed;
use swh_swhid::{core_text, parse_core};

/// A path, its mode and what it leads to.
type Row = (&'static [u8], u32, &'static [u8]);

/// What the top folder holds: a folder's entries stand right behind it.
const TOP_ROWS: &[Row] = &[
    (b"exe", 100_755, EMPTY),
    (b"link", 120_000, EMPTY),
    (b"module", 160_000, FIRST),
    (b"sub", 40_000, FOLDER),
    (b"sub/test.txt", 100_644, VERSION_1),
];

/// A folder with that one twice, an empty folder, and a file between them: `b` stands before `b.c` as a file would, but
/// behind it as the folder that it is.
const NESTED_ROWS: &[Row] = &[
    (b"a", 40_000, TOP),
    (b"a/exe", 100_755, EMPTY),
    (b"a/link", 120_000, EMPTY),
    (b"a/module", 160_000, FIRST),
    (b"a/sub", 40_000, FOLDER),
    (b"a/sub/test.txt", 100_644, VERSION_1),
    (b"b.c", 100_644, VERSION_1),
    (b"b", 40_000, FOLDER),
    (b"b/test.txt", 100_644, VERSION_1),
    (b"e", 40_000, EMPTY_FOLDER),
    (b"f", 100_644, EMPTY),
];

const EMPTY_FOLDER: &[u8] = b"swh:1:dir:4b825dc642cb6eb9a060e54bf8d69288fbee4904";

const NESTED: &[u8] = b"40000 a\0\
\x0d\xc9\x40\x82\x61\x58\x2a\x21\xd4\x4f\xbd\x14\xe9\x02\xf1\xe9\xf0\xe0\x22\xf8\
100644 b.c\0\
\x83\xba\xae\x61\x80\x4e\x65\xcc\x73\xa7\x20\x1a\x72\x52\x75\x0c\x76\x06\x6a\x30\
40000 b\0\
\xd8\x32\x9f\xc1\xcc\x93\x87\x80\xff\xdd\x9f\x94\xe0\xd3\x64\xe0\xea\x74\xf5\x79\
40000 e\0\
\x4b\x82\x5d\xc6\x42\xcb\x6e\xb9\xa0\x60\xe5\x4b\xf8\xd6\x92\x88\xfb\xee\x49\x04\
100644 f\0\
\xe6\x9d\xe2\x9b\xb2\xd1\xd6\x43\x4b\x8b\x29\xae\x77\x5a\xd8\xc2\xe4\x8c\x53\x91";

fn is_target(mode: u32, id: &[u8; 20], text: &[u8]) -> bool {
    let kind = match mode {
        40_000 => Kind::Directory,
        160_000 => Kind::Revision,
        _ => Kind::Content,
    };
    let mut spelled = [0; 50];
    core_text(&Name { kind, id: *id }, &mut spelled);
    spelled.as_slice() == text
}

/// The number of the first row that the walk gives in another way, or how many it gives.
fn first_other(
    alloc: Global,
    shown: &Replayed,
    directory: Name,
    rows: &[Row],
) -> Result<usize, Fail> {
    let Ok(mut walk) = PathWalk::begin(alloc, shown, directory.id) else {
        return Err(Fail::from("a directory"));
    };
    for (number, (path, mode, text)) in rows.iter().enumerate() {
        let Ok(Some(entry)) = walk.next(alloc, shown) else {
            return Ok(number);
        };
        let is_same = walk.path() == *path && entry.mode == *mode;
        if !is_same || !is_target(entry.mode, entry.id, text) {
            return Ok(number);
        }
    }
    match walk.next(alloc, shown) {
        Ok(None) => Ok(rows.len()),
        _ => Err(Fail::from("no more rows")),
    }
}

fn directory(core: &[u8]) -> Result<Name, Fail> {
    match parse_core(core) {
        Some(name) if name.kind == Kind::Directory => Ok(name),
        _ => Err(Fail::from("a directory's core identifier")),
    }
}

fn first_other_in_top(alloc: Global) -> Result<usize, Fail> {
    let Some(shown) = archive_of(alloc, OBJECTS) else {
        return Err(Fail::from("an archive"));
    };
    first_other(alloc, &shown, directory(TOP)?, TOP_ROWS)
}

#[test]
fn a_folder_is_walked_over(rt: HostRuntime) -> Result<(), Fail> {
    assert_eq!(rt; first_other_in_top(rt.alloc())?, TOP_ROWS.len());
    Ok(())
}

fn first_other_in_nested(alloc: Global) -> Result<usize, Fail> {
    let Some(mut shown) = archive_of(alloc, OBJECTS) else {
        return Err(Fail::from("an archive"));
    };
    let kind = Kind::Directory;
    let Some(_) = add(alloc, &mut shown, kind, Vec::new(alloc)) else {
        return Err(Fail::from("an empty folder"));
    };
    let Some(nested) = add(alloc, &mut shown, kind, NESTED.to_vec(alloc)?) else {
        return Err(Fail::from("a folder"));
    };
    first_other(alloc, &shown, nested, NESTED_ROWS)
}

#[test]
fn folders_are_walked_over_where_they_stand(rt: HostRuntime) -> Result<(), Fail> {
    assert_eq!(rt; first_other_in_nested(rt.alloc())?, NESTED_ROWS.len());
    Ok(())
}

/// The id of the folder in the broken one that is not there.
const GONE: [u8; 20] = [0x22; 20];

/// Whether the walk over the broken folder gives its file, which it does not look for, and then names its folder.
fn is_broken_off(alloc: Global) -> Result<bool, Fail> {
    let Some(shown) = archive_of(alloc, OBJECTS) else {
        return Err(Fail::from("an archive"));
    };
    let Ok(mut walk) = PathWalk::begin(alloc, &shown, directory(BROKEN)?.id) else {
        return Err(Fail::from("a directory"));
    };
    let Ok(Some(_)) = walk.next(alloc, &shown) else {
        return Ok(false);
    };
    match walk.next(alloc, &shown) {
        Err(GraphFault::NotHeld { name }) => { Ok(name.kind == Kind::Directory && name.id == GONE) }
        _ => Ok(false),
    }
}

#[test]
fn a_folder_that_is_not_there_is_named(rt: HostRuntime) -> Result<(), Fail> {
    assert!(rt; is_broken_off(rt.alloc())?);
    Ok(())
}
