// Which names are kept.
use crate::tree_changes::{Change, commit};
use std::alloc::Global;
use std::test::Fail;
use swh_base::{Memory, Sha1Namer};
use swh_trees::{Tree, Trees};

const FIRST: &[Change<'static>] = &[
    Change::Set(100_644, 1, b"a/x"),
    Change::Set(100_644, 1, b"b/y"),
];

/// Changes of the first commit's tree, and how many names are kept after it.
struct Row {
    title: &'static str,
    changes: &'static [Change<'static>],
    names: usize,
}

const ROWS: &[Row] = &[
    Row {
        title: "the same files again",
        changes: FIRST,
        names: 4,
    },
    Row {
        title: "files of the same names elsewhere",
        changes: &[
            Change::Set(100_644, 2, b"a/b/x"),
            Change::Set(100_644, 2, b"y"),
        ],
        names: 4,
    },
    Row {
        title: "a folder copied to a name of its own",
        changes: &[Change::Copy(b"a", b"b/a")],
        names: 4,
    },
    Row {
        title: "one name more",
        changes: &[Change::Set(100_644, 3, b"a/z")],
        names: 5,
    },
    Row {
        title: "a folder renamed",
        changes: &[Change::Rename(b"a", b"c")],
        names: 6,
    },
    Row {
        title: "all deleted",
        changes: &[Change::Delete(b"a"), Change::Delete(b"b")],
        names: 6,
    },
];

/// A name is kept once, also where its files are deleted.
fn are_right(alloc: Global) -> Result<bool, Memory> {
    let mut trees = Trees::new(alloc, Sha1Namer);
    let Some(first) = commit(alloc, &mut trees, Tree::empty(), FIRST)? else {
        return Ok(false);
    };
    let mut right = trees.names().len() == 4;
    for row in ROWS {
        if commit(alloc, &mut trees, first.tree, row.changes)?.is_none() {
            return Ok(false);
        }
        right = right && trees.names().len() == row.names;
    }
    Ok(right)
}

#[test]
fn names_kept(rt: HostRuntime) -> Result<(), Fail> {
    let right = are_right(rt.alloc())?;
    assert!(rt; right);
    Ok(())
}
