// Changes of a tree, and what they make.
use std::alloc::Global;
use swh_base::{Kind, Memory, Name, Sha1Namer};
use swh_fastlex::is_path;
use swh_trees::{Leaf, Made, Tree, TreeFault, Trees};

/// A change of a tree, as a line of a commit says it.
#[derive(Clone, Copy)]
pub enum Change<'a> {
    /// A leaf of this mode, and of the content whose id has this one byte twenty times.
    Set(u32, u8, &'a [u8]),
    Delete(&'a [u8]),
    Copy(&'a [u8], &'a [u8]),
    Rename(&'a [u8], &'a [u8]),
    Clear,
}

/// The tree with a leaf at the path; none where it is no path or no mode of a leaf.
fn set(
    alloc: Global,
    trees: &mut Trees<Sha1Namer>,
    tree: Tree,
    path: &[u8],
    leaf: Leaf,
) -> Result<Option<Tree>, Memory> {
    let mode = leaf.mode;
    if !(mode == 100_644 || mode == 100_755 || mode == 120_000) {
        return Ok(None);
    }
    if !trees.has(tree) || !is_path(path) {
        return Ok(None);
    }
    Ok(Some(trees.set(alloc, tree, path, leaf)?))
}

fn delete(
    alloc: Global,
    trees: &mut Trees<Sha1Namer>,
    tree: Tree,
    path: &[u8],
) -> Result<Option<Tree>, Memory> {
    if !trees.has(tree) || !is_path(path) {
        return Ok(None);
    }
    Ok(Some(trees.delete(alloc, tree, path)?))
}

fn copy(
    alloc: Global,
    trees: &mut Trees<Sha1Namer>,
    tree: Tree,
    source: &[u8],
    target: &[u8],
) -> Result<Option<Tree>, Memory> {
    if !trees.has(tree) || !is_path(source) || !is_path(target) {
        return Ok(None);
    }
    trees.copy(alloc, tree, source, target)
}

fn rename(
    alloc: Global,
    trees: &mut Trees<Sha1Namer>,
    tree: Tree,
    source: &[u8],
    target: &[u8],
) -> Result<Option<Tree>, Memory> {
    if !trees.has(tree) || !is_path(source) || !is_path(target) {
        return Ok(None);
    }
    trees.rename(alloc, tree, source, target)
}

/// The tree after a change; none where a source holds nothing.
pub fn changed(
    alloc: Global,
    trees: &mut Trees<Sha1Namer>,
    tree: Tree,
    change: &Change,
) -> Result<Option<Tree>, Memory> {
    match change {
        Change::Set(mode, byte, path) => {
            let leaf = Leaf {
                mode: *mode,
                id: [*byte; 20],
            };
            set(alloc, trees, tree, path, leaf)
        }
        Change::Delete(path) => delete(alloc, trees, tree, path),
        Change::Copy(source, target) => copy(alloc, trees, tree, source, target),
        Change::Rename(source, target) => rename(alloc, trees, tree, source, target),
        Change::Clear => Ok(Some(Tree::empty())),
    }
}

/// The tree after changes; none where a source holds nothing.
pub fn after(
    alloc: Global,
    trees: &mut Trees<Sha1Namer>,
    start: Tree,
    changes: &[Change],
) -> Result<Option<Tree>, Memory> {
    let mut tree = start;
    for change in changes {
        match changed(alloc, trees, tree, change)? {
            Some(next) => tree = next,
            None => return Ok(None),
        }
    }
    Ok(Some(tree))
}

/// Makes the tree's objects; none where it does not stand or a body is too long.
pub fn made(
    alloc: Global,
    trees: &mut Trees<Sha1Namer>,
    tree: Tree,
) -> Result<Option<Made<Sha1Namer>>, Memory> {
    if !trees.has(tree) {
        return Ok(None);
    }
    match trees.make(alloc, tree) {
        Ok(made) => Ok(Some(made)),
        Err(TreeFault::Memory) => Err(Memory),
        Err(TreeFault::TooLong { len: _ }) => Ok(None),
    }
}

/// What the changes of a tree make; none where a source holds nothing.
pub fn commit(
    alloc: Global,
    trees: &mut Trees<Sha1Namer>,
    start: Tree,
    changes: &[Change],
) -> Result<Option<Made<Sha1Namer>>, Memory> {
    match after(alloc, trees, start, changes)? {
        Some(tree) => made(alloc, trees, tree),
        None => Ok(None),
    }
}

/// Whether these digits are the id's.
pub fn is_id(id: [u8; 20], hex: &[u8]) -> bool {
    let name = Name {
        kind: Kind::Directory,
        id,
    };
    Name::from_hex(Kind::Directory, hex) == Some(name)
}
