// A folder of a thousand files, more than stand in one piece.
use crate::tree_changes::{Change, changed, is_id, made};
use std::alloc::Global;
use std::test::Fail;
use swh_base::{Memory, Sha1Namer};
use swh_trees::{Tree, Trees};

/// The root's id is this one after the tree's objects were made.
fn has_id(
    alloc: Global,
    trees: &mut Trees<Sha1Namer>,
    tree: Tree,
    id: &[u8],
) -> Result<Option<Tree>, Memory> {
    let Some(made) = made(alloc, trees, tree)? else {
        return Ok(None);
    };
    if is_id(made.id, id) {
        Ok(Some(made.tree))
    } else {
        Ok(None)
    }
}

/// A thousand files in a folder, set in an order of their own.
fn filled(alloc: Global, trees: &mut Trees<Sha1Namer>) -> Result<Option<Tree>, Memory> {
    let mut tree = Tree::empty();
    for step in 0..1_000_u32 {
        let number = step * 7_919 % 1_000;
        let path = format!(in alloc; "d/f{number}")?;
        let byte = (number % 200) as u8 + 1;
        let change = Change::Set(100_644, byte, path.as_bytes());
        match changed(alloc, trees, tree, &change)? {
            Some(next) => tree = next,
            None => return Ok(None),
        }
    }
    Ok(Some(tree))
}

/// Without the files of even numbers.
fn halved(
    alloc: Global,
    trees: &mut Trees<Sha1Namer>,
    start: Tree,
) -> Result<Option<Tree>, Memory> {
    let mut tree = start;
    for half in 0..500_u32 {
        let number = half * 2;
        let path = format!(in alloc; "d/f{number}")?;
        match changed(alloc, trees, tree, &Change::Delete(path.as_bytes()))? {
            Some(next) => tree = next,
            None => return Ok(None),
        }
    }
    Ok(Some(tree))
}

/// With some of the others in folders of their own.
fn moved(alloc: Global, trees: &mut Trees<Sha1Namer>, start: Tree) -> Result<Option<Tree>, Memory> {
    let mut tree = start;
    for step in 0..50_u32 {
        let number = step * 20 + 1;
        let from = format!(in alloc; "d/f{number}")?;
        let to = format!(in alloc; "d/g{number}/x")?;
        let change = Change::Rename(from.as_bytes(), to.as_bytes());
        match changed(alloc, trees, tree, &change)? {
            Some(next) => tree = next,
            None => return Ok(None),
        }
    }
    Ok(Some(tree))
}

fn is_right(alloc: Global) -> Result<bool, Memory> {
    let mut trees = Trees::new(alloc, Sha1Namer);
    let Some(all) = filled(alloc, &mut trees)? else {
        return Ok(false);
    };
    let full = b"170160010e61a661a1a4adc4274c44ac3898fac3";
    let Some(all) = has_id(alloc, &mut trees, all, full)? else {
        return Ok(false);
    };
    let Some(half) = halved(alloc, &mut trees, all)? else {
        return Ok(false);
    };
    let Some(left) = moved(alloc, &mut trees, half)? else {
        return Ok(false);
    };
    let rest = b"9d393401085204e03322528d03f09165de91c1a1";
    Ok(has_id(alloc, &mut trees, left, rest)?.is_some())
}

#[test]
fn a_folder_of_many_files(rt: HostRuntime) -> Result<(), Fail> {
    let right = is_right(rt.alloc())?;
    assert!(rt; right);
    Ok(())
}
