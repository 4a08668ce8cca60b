// All short lists of changes, against a plain map from paths: the tree has the id of the one in which each file of the map
// is set once.
use crate::tree_changes::{Change, commit};
use crate::tree_plain;
use std::alloc::Global;
use std::test::Fail;
use swh_base::{Memory, Sha1Namer};
use swh_trees::{Tree, Trees};

/// All paths of up to three components of two names.
const PATHS: &[&[u8]] = &[
    b"a", b"b", b"a/a", b"a/b", b"b/a", b"b/b", b"a/a/a", b"a/a/b", b"a/b/a", b"a/b/b", b"b/a/a",
    b"b/a/b", b"b/b/a", b"b/b/b",
];

/// Of how many of them the lists of three changes of every kind speak.
const FEW: usize = 5;

/// What stands in the tree to which two changes are made.
const START: &[Change<'static>] = &[
    Change::Set(100_644, 1, b"a/a/a"),
    Change::Set(100_644, 2, b"a/b"),
    Change::Set(100_644, 3, b"b"),
];

/// All changes over the first paths: a file set to this byte, a delete, and copies and renames of each to each.
fn all_changes(alloc: Global, count: usize, byte: u8) -> Result<Vec<Change<'static>>, Memory> {
    let mut out = Vec::new(alloc);
    for path in PATHS.iter().take(count) {
        out.push(Change::Set(100_644, byte, *path))?;
        out.push(Change::Delete(*path))?;
        for other in PATHS.iter().take(count) {
            out.push(Change::Copy(*path, *other))?;
            out.push(Change::Rename(*path, *other))?;
        }
    }
    Ok(out)
}

/// The id of the tree in which these files are set.
fn id_of(alloc: Global, files: &[tree_plain::File]) -> Result<Option<[u8; 20]>, Memory> {
    let mut trees = Trees::new(alloc, Sha1Namer);
    let mut sets = Vec::new(alloc);
    for file in files {
        sets.push(Change::Set(100_644, file.byte, file.path.as_slice()))?;
    }
    match commit(alloc, &mut trees, Tree::empty(), sets.as_slice())? {
        Some(made) => Ok(Some(made.id)),
        None => Ok(None),
    }
}

/// The id of the tree that the changes make; none where a source holds nothing.
fn id_after(alloc: Global, changes: &[Change]) -> Result<Option<[u8; 20]>, Memory> {
    let mut trees = Trees::new(alloc, Sha1Namer);
    match commit(alloc, &mut trees, Tree::empty(), changes)? {
        Some(made) => Ok(Some(made.id)),
        None => Ok(None),
    }
}

/// Whether the changes make of the tree what they make of the plain map.
fn is_right(alloc: Global, changes: &[Change]) -> Result<bool, Memory> {
    let found = id_after(alloc, changes)?;
    let wanted = match tree_plain::after(alloc, changes)? {
        Some(files) => id_of(alloc, files.as_slice())?,
        None => None,
    };
    Ok(found == wanted)
}

/// How many lists of two changes are wrong, behind those of the start.
fn wrong_pairs(alloc: Global) -> Result<u64, Memory> {
    let firsts = all_changes(alloc, PATHS.len(), 4)?;
    let seconds = all_changes(alloc, PATHS.len(), 5)?;
    let mut list = Vec::from_slice(alloc, START)?;
    let mut wrong: u64 = 0;
    for first in &firsts {
        for second in &seconds {
            list.push(*first)?;
            list.push(*second)?;
            if !is_right(alloc, list.as_slice())? {
                wrong = wrong.saturating_add(1);
            }
            list.truncate(START.len());
        }
    }
    Ok(wrong)
}

/// How many lists of three of these changes are wrong, of a tree with one file.
fn wrong_triples(alloc: Global, changes: &[Change<'static>]) -> Result<u64, Memory> {
    let mut list = Vec::new(alloc);
    let mut wrong: u64 = 0;
    for first in changes {
        for second in changes {
            for third in changes {
                list.push(Change::Set(100_644, 1, b"a/b"))?;
                list.push(*first)?;
                list.push(*second)?;
                list.push(*third)?;
                if !is_right(alloc, list.as_slice())? {
                    wrong = wrong.saturating_add(1);
                }
                list.truncate(0);
            }
        }
    }
    Ok(wrong)
}

/// Of each path a file set to it, and a delete.
fn sets_and_deletes(alloc: Global) -> Result<Vec<Change<'static>>, Memory> {
    let mut out = Vec::new(alloc);
    for path in PATHS {
        out.push(Change::Set(100_644, 4, *path))?;
        out.push(Change::Delete(*path))?;
    }
    Ok(out)
}

/// A folder that is copied, or moved, between changes of it, and then changed on both sides.
const SIDES: &[&[Change<'static>]] = &[
    &[
        Change::Set(100_644, 1, b"d/x"),
        Change::Copy(b"d", b"e"),
        Change::Set(100_644, 2, b"d/y"),
        Change::Set(100_644, 3, b"e/z"),
    ],
    &[
        Change::Set(100_644, 1, b"d/x"),
        Change::Set(100_644, 2, b"d/y"),
        Change::Copy(b"d", b"e"),
        Change::Delete(b"d/x"),
        Change::Set(100_644, 3, b"e/y"),
        Change::Set(100_644, 4, b"d/x/z"),
    ],
    &[
        Change::Set(100_644, 1, b"d/s/x"),
        Change::Copy(b"d", b"d/t"),
        Change::Set(100_644, 2, b"d/s/y"),
        Change::Delete(b"d/t/s/x"),
        Change::Set(100_644, 3, b"d/t/z"),
    ],
    &[
        Change::Set(100_644, 1, b"d/s/x"),
        Change::Rename(b"d/s", b"e"),
        Change::Set(100_644, 2, b"d/y"),
        Change::Set(100_644, 3, b"e/z"),
        Change::Copy(b"e", b"d/s"),
        Change::Delete(b"e/x"),
    ],
];

/// How many of them are wrong.
fn wrong_sides(alloc: Global) -> Result<u64, Memory> {
    let mut wrong: u64 = 0;
    for list in SIDES {
        if !is_right(alloc, *list)? {
            wrong = wrong.saturating_add(1);
        }
    }
    Ok(wrong)
}

#[test]
fn all_pairs_of_changes(rt: HostRuntime) -> Result<(), Fail> {
    assert_eq!(rt; wrong_pairs(rt.alloc())?, 0);
    Ok(())
}

#[test]
fn lists_of_three_changes_of_every_kind(rt: HostRuntime) -> Result<(), Fail> {
    let changes = all_changes(rt.alloc(), FEW, 4)?;
    assert_eq!(rt; wrong_triples(rt.alloc(), changes.as_slice())?, 0);
    Ok(())
}

#[test]
fn lists_of_three_sets_and_deletes(rt: HostRuntime) -> Result<(), Fail> {
    let changes = sets_and_deletes(rt.alloc())?;
    assert_eq!(rt; wrong_triples(rt.alloc(), changes.as_slice())?, 0);
    Ok(())
}

#[test]
fn folders_changed_on_both_sides(rt: HostRuntime) -> Result<(), Fail> {
    assert_eq!(rt; wrong_sides(rt.alloc())?, 0);
    Ok(())
}
