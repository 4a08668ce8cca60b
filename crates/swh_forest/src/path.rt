//! What stands at a path, and what something put at a path makes.

ghost use Rattle.std.specs.Prelude.{◌≡◌, ◌++◌, length, IfOk};
ghost use Rattle.std.specs.List.{AllByRecursion};
ghost use Rattle.swh_base.specs.Directory.{IsEntryName};
ghost use Rattle.swh_fastlex.specs.Path.{components};
ghost use Rattle.swh_entries.specs.Keys.{texts};
ghost use Rattle.swh_forest.specs.Kept.{AreAmong};
ghost use Rattle.swh_forest.specs.Sound.{IsSoundHere};
ghost use Rattle.swh_forest.specs.Forest.{found, graft};
ghost use Rattle.swh_forest.specs.Roots.{IsGood};
ghost use Rattle.swh_forest.specs.Arena.{stands_of, tree_at, parts_of, IsIn, Grows, AreFronts};

use crate::arena::{put, step};
use std::alloc::{AllocError, Global};
use swh_base::split_at_byte;
use swh_entries::{Child, Names, Packed};

/// What stands at this path.
pub fn find(
    names: &[Vec<u8>],
    nodes: &[Packed],
    root: Option<Child>,
    path: &[&[u8]],
) -> Option<Child>
    requires good { IsGood names.now nodes.now }
    requires root { IsIn (length nodes.now) root }
    ensures inside { IsIn (length nodes.now) result }
    ensures found { stands_of (tree_at names.now nodes.now) result
        ≡ found (parts_of path.now) (stands_of (tree_at names.now nodes.now) root) }
{
    let mut here = root;
    for name in path {
        here = step(names, nodes, here, *name);
    }
    here
}

/// What stands at each front of this path.
fn fronts_of(
    alloc: Global,
    names: &[Vec<u8>],
    nodes: &[Packed],
    root: Option<Child>,
    path: &[&[u8]],
) -> Result<Vec<Option<Child>>, AllocError>
    requires good { IsGood names.now nodes.now }
    requires root { IsIn (length nodes.now) root }
    ensures { IfOk result (λ v. AreFronts (tree_at names.now nodes.now) (length nodes.now) root
        (parts_of path.now) v.items) }
{
    let mut fronts = Vec::new(alloc);
    let mut here = root;
    for name in path {
        fronts.push(here)?;
        here = step(names, nodes, here, *name);
    }
    Ok(fronts)
}

/// The child in the place of all that stands at this path, and of the path's fronts. With no child the path is emptied.
pub fn graft(
    alloc: Global,
    names: &mut Names,
    nodes: &mut Vec<Packed>,
    root: Option<Child>,
    path: &[&[u8]],
    child: Option<Child>,
) -> Result<Option<Child>, AllocError>
    requires good { IsGood names.old.items nodes.old.items }
    requires root { IsIn (length nodes.old.items) root }
    requires child { IsIn (length nodes.old.items) child }
    requires path { AllByRecursion IsEntryName (parts_of path.now) }
    requires sound { IsSoundHere (stands_of (tree_at names.old.items nodes.old.items) child) }
    ensures good { IsGood names.new.items nodes.new.items }
    ensures grows { Grows names.old.items nodes.old.items names.new.items nodes.new.items }
    ensures kept { AreAmong (texts names.new.items) (texts names.old.items ++ parts_of path.now) }
    ensures inside { IfOk result (λ r. IsIn (length nodes.new.items) r) }
    ensures graft { IfOk result (λ r. stands_of (tree_at names.new.items nodes.new.items) r
        ≡ graft (parts_of path.now) (stands_of (tree_at names.old.items nodes.old.items) child)
        (stands_of (tree_at names.old.items nodes.old.items) root)) }
{
    let fronts = fronts_of(alloc, names.as_slice(), nodes.as_slice(), root, path)?;
    let mut here = child;
    let mut left = path.len();
    'up: while left > 0 {
        left -= 1;
        here = put(alloc, names, nodes, fronts[left], path[left], here)?;
    }
    Ok(here)
}

/// The components of a path.
pub fn components_of(alloc: Global, path: &[u8]) -> Result<Vec<&[u8]>, AllocError>
    ensures { IfOk result (λ v. parts_of v.items ≡ components path.now) }
{
    let mut parts = Vec::new(alloc);
    let mut rest = path;
    'parts: while let Some((part, after)) = split_at_byte(rest, b'/') {
        parts.push(part)?;
        rest = after;
    }
    parts.push(rest)?;
    Ok(parts)
}
