// Changes of an empty tree, with the ids of their roots as `git write-tree` gives them.
use crate::tree_changes::{Change, commit, is_id};
use std::alloc::Global;
use std::test::Fail;
use swh_base::{Memory, Sha1Namer};
use swh_trees::{Tree, Trees};

/// Changes, the id of the root in digits, and how many objects are made, of which the root's is the last.
struct Row {
    title: &'static str,
    changes: &'static [Change<'static>],
    id: &'static [u8],
    objects: usize,
}

const ROWS: &[Row] = &[
    Row {
        title: "a folder sorts as if it ended in a slash",
        changes: &[
            Change::Set(100_644, 1, b"a.b"),
            Change::Set(100_644, 1, b"a/x"),
            Change::Set(100_644, 1, b"a0"),
        ],
        id: b"814a029e1d151656d225e863862281a6cc7780de",
        objects: 2,
    },
    Row {
        title: "a file in the place of a folder",
        changes: &[
            Change::Set(100_644, 2, b"x/y"),
            Change::Set(100_644, 2, b"x"),
        ],
        id: b"21c4ca457d04cefbca29295f32a53b304561ed47",
        objects: 1,
    },
    Row {
        title: "a folder in the place of a file",
        changes: &[
            Change::Set(100_644, 2, b"x"),
            Change::Set(100_644, 2, b"x/y"),
        ],
        id: b"86f9a25df7e36c55337f7fc7e08b82316f29f6b2",
        objects: 2,
    },
    Row {
        title: "an emptied folder is gone, and deleting nothing changes nothing",
        changes: &[
            Change::Set(100_644, 1, b"x/y"),
            Change::Delete(b"x/y"),
            Change::Delete(b"x/y/z"),
        ],
        id: b"4b825dc642cb6eb9a060e54bf8d69288fbee4904",
        objects: 1,
    },
    Row {
        title: "emptied folders above one are gone too",
        changes: &[
            Change::Set(100_644, 1, b"k"),
            Change::Set(100_644, 1, b"x/y/z"),
            Change::Delete(b"x/y/z"),
        ],
        id: b"eeb71ab0c651abcd88c6a57822d15b050b81ffbf",
        objects: 1,
    },
    Row {
        title: "a copied folder",
        changes: &[
            Change::Set(100_644, 1, b"a/x"),
            Change::Set(100_644, 2, b"a/y/z"),
            Change::Copy(b"a", b"b"),
        ],
        id: b"bf618f3253ddc104c87bb08202919692bb852926",
        objects: 3,
    },
    Row {
        title: "a renamed folder",
        changes: &[
            Change::Set(100_644, 1, b"a/x"),
            Change::Set(100_644, 2, b"a/y/z"),
            Change::Rename(b"a", b"c/d"),
        ],
        id: b"3f281fde5ec76f2130435485136e635b769be65e",
        objects: 4,
    },
    Row {
        title: "a file onto its folder",
        changes: &[
            Change::Set(100_644, 1, b"a/b"),
            Change::Set(100_644, 2, b"a/c"),
            Change::Rename(b"a/b", b"a"),
        ],
        id: b"a174ca35b059b230cfb0286a25e47794096f4848",
        objects: 1,
    },
    Row {
        title: "a folder under itself",
        changes: &[
            Change::Set(100_644, 1, b"a/x"),
            Change::Set(100_644, 2, b"a/y"),
            Change::Rename(b"a", b"a/b"),
        ],
        id: b"89286f23f855dce35d212aec89b992213376197c",
        objects: 3,
    },
    Row {
        title: "a file under itself",
        changes: &[Change::Set(100_644, 1, b"a"), Change::Copy(b"a", b"a/b")],
        id: b"c046873eb0a8741fe7a4842297bb773a1fa3198b",
        objects: 2,
    },
    Row {
        title: "a folder copied into itself",
        changes: &[
            Change::Set(100_644, 1, b"a/x"),
            Change::Set(100_644, 2, b"a/y"),
            Change::Copy(b"a", b"a/b"),
        ],
        id: b"2deee4e137c1c1df653e2bb5338e1349d7cb58ef",
        objects: 3,
    },
    Row {
        title: "a folder copied over its parent",
        changes: &[
            Change::Set(100_644, 1, b"a/b/x"),
            Change::Set(100_644, 2, b"a/y"),
            Change::Copy(b"a/b", b"a"),
        ],
        id: b"9e8409895e96bb860a7507ae27c82447094159f7",
        objects: 2,
    },
    Row {
        title: "a folder copied while it is changed, then changed on both sides",
        changes: &[
            Change::Set(100_644, 1, b"a/x"),
            Change::Set(100_644, 2, b"a/y/z"),
            Change::Copy(b"a", b"b"),
            Change::Set(100_644, 3, b"a/y/w"),
            Change::Set(100_644, 4, b"b/x"),
            Change::Delete(b"b/y/z"),
            Change::Set(100_644, 5, b"b/y/v"),
        ],
        id: b"be982e9abd3671327fbb19ecebdb503dda6992f0",
        objects: 5,
    },
    Row {
        title: "a copy that is copied back over its source",
        changes: &[
            Change::Set(100_644, 1, b"a/x"),
            Change::Copy(b"a", b"b"),
            Change::Set(100_644, 2, b"b/y"),
            Change::Copy(b"b", b"a"),
            Change::Set(100_644, 3, b"a/x"),
        ],
        id: b"1f0445cda9adf35a48cae332d6a23b7027490491",
        objects: 3,
    },
    Row {
        title: "all deleted, and built anew",
        changes: &[
            Change::Set(100_644, 1, b"a/x"),
            Change::Set(100_644, 2, b"b"),
            Change::Clear,
            Change::Set(100_644, 3, b"a/x"),
            Change::Set(100_644, 2, b"b"),
        ],
        id: b"feae2cb051da3fb54ca70318866637c10211b71f",
        objects: 2,
    },
    Row {
        title: "a file set again and again",
        changes: &[
            Change::Set(100_644, 1, b"d/f"),
            Change::Set(100_644, 2, b"d/f"),
            Change::Set(100_644, 3, b"d/f"),
            Change::Set(100_755, 1, b"d/f"),
        ],
        id: b"f4cd69e239e51b0cbd52a666132e1ce1c54fed4b",
        objects: 2,
    },
    Row {
        title: "a file that takes the place of a folder between its neighbours",
        changes: &[
            Change::Set(100_644, 1, b"a-"),
            Change::Set(100_644, 2, b"a/x"),
            Change::Set(100_644, 3, b"a0"),
            Change::Set(100_644, 4, b"a"),
        ],
        id: b"c38692adf93b75c35bcbbc6b5cff2d162c37cc1d",
        objects: 1,
    },
    Row {
        title: "each mode",
        changes: &[
            Change::Set(100_644, 1, b"f"),
            Change::Set(100_755, 2, b"x"),
            Change::Set(120_000, 2, b"l"),
            Change::Set(100_644, 1, b"d/e"),
        ],
        id: b"71f09789a1e4b81aa8a24aa88e3f4583505c4bbc",
        objects: 2,
    },
];

/// Whether a row's changes make what it says.
fn is_right(alloc: Global, row: &Row) -> Result<bool, Memory> {
    let mut trees = Trees::new(alloc, Sha1Namer);
    let Some(made) = commit(alloc, &mut trees, Tree::empty(), row.changes)? else {
        return Ok(false);
    };
    let is_last = match made.objects.last() {
        Some(object) => object.name().id == made.id,
        None => false,
    };
    Ok(is_last && is_id(made.id, row.id) && made.objects.len() == row.objects)
}

#[test]
fn ids_of_git(rt: HostRuntime) -> Result<(), Fail> {
    for row in ROWS {
        let right = is_right(rt.alloc(), row)?;
        assert!(rt; right, "{}", row.title);
    }
    Ok(())
}
