// Several commits of one history, the empty tree, and a deep path.
use crate::tree_changes::{Change, commit, is_id, made};
use std::alloc::Global;
use std::test::Fail;
use swh_base::{Memory, Sha1Namer};
use swh_trees::{Tree, Trees};

const FIRST: &[Change<'static>] = &[
    Change::Set(100_644, 2, b"a/x"),
    Change::Set(100_644, 1, b"a/x"),
    Change::Set(100_644, 1, b"b/y"),
];

/// Changes of the first commit's tree, the id of the root in digits, and how many objects are made.
struct Row {
    title: &'static str,
    changes: &'static [Change<'static>],
    id: &'static [u8],
    objects: usize,
}

const ROWS: &[Row] = &[
    Row {
        title: "a file changed",
        changes: &[Change::Set(100_644, 2, b"b/y")],
        id: b"a5636688ec99e83cfd12ff1536efd3c70721925d",
        objects: 2,
    },
    Row {
        title: "a folder deleted",
        changes: &[Change::Delete(b"b")],
        id: b"9e8409895e96bb860a7507ae27c82447094159f7",
        objects: 1,
    },
    Row {
        title: "nothing deleted",
        changes: &[Change::Delete(b"none")],
        id: b"77bbb40fde4f7afc2609858ec55da053db6ba24f",
        objects: 0,
    },
];

/// A commit makes the folders that it changes, and a later one may start from an earlier tree.
fn are_right(alloc: Global) -> Result<bool, Memory> {
    let mut trees = Trees::new(alloc, Sha1Namer);
    let Some(first) = commit(alloc, &mut trees, Tree::empty(), FIRST)? else {
        return Ok(false);
    };
    let mut right = first.objects.len() == 3;
    for row in ROWS {
        let Some(next) = commit(alloc, &mut trees, first.tree, row.changes)? else {
            return Ok(false);
        };
        right = right && is_id(next.id, row.id) && next.objects.len() == row.objects;
    }
    Ok(right)
}

#[test]
fn folders_shared_by_commits(rt: HostRuntime) -> Result<(), Fail> {
    let right = are_right(rt.alloc())?;
    assert!(rt; right);
    Ok(())
}

/// An empty tree has an object too, once.
fn are_empty_right(alloc: Global) -> Result<bool, Memory> {
    let mut trees = Trees::new(alloc, Sha1Namer);
    let Some(first) = made(alloc, &mut trees, Tree::empty())? else {
        return Ok(false);
    };
    let Some(second) = made(alloc, &mut trees, first.tree)? else {
        return Ok(false);
    };
    let right = is_id(first.id, b"4b825dc642cb6eb9a060e54bf8d69288fbee4904");
    Ok(right && first.objects.len() == 1 && second.id == first.id && second.objects.is_empty())
}

#[test]
fn empty_trees(rt: HostRuntime) -> Result<(), Fail> {
    let right = are_empty_right(rt.alloc())?;
    assert!(rt; right);
    Ok(())
}

/// A path of 65,535 bytes with 32,768 components.
fn is_deep_right(alloc: Global) -> Result<bool, Memory> {
    let mut path = Vec::new(alloc);
    path.push(b'a')?;
    for _ in 1..32_768 {
        path.extend_from_slice(b"/a")?;
    }
    let mut trees = Trees::new(alloc, Sha1Namer);
    let changes = [Change::Set(100_644, 1, path.as_slice())];
    let Some(made) = commit(alloc, &mut trees, Tree::empty(), &changes)? else {
        return Ok(false);
    };
    Ok(made.objects.len() == 32_768 && is_id(made.id, b"dc13eda118521041cedf4377b72417be449429ea"))
}

#[test]
fn a_deep_path(rt: HostRuntime) -> Result<(), Fail> {
    let right = is_deep_right(rt.alloc())?;
    assert!(rt; right);
    Ok(())
}
