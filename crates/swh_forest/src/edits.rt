//! What the changes of a commit make of a tree (git-fast-import(1), filemodify, filedelete, filecopy, filerename).

ghost use Rattle.std.specs.Prelude.{◌≡◌, ◌≢◌, ◌++◌, ℕ, List, [], length, IfOk, IfSome, IfNone};
ghost use Rattle.std.specs.Global.{Vec};
ghost use Rattle.std.specs.List.{AllByRecursion};
ghost use Rattle.swh_forest.specs.Arena.{stands_of, tree_at, parts_of, Grows, IsIn};
ghost use Rattle.swh_forest.specs.Forest.{Forest, forest};
ghost use Rattle.swh_entries.specs.Keys.{texts};
ghost use Rattle.swh_forest.specs.Kept.{AreAmong};
ghost use Rattle.swh_forest.specs.PathMap.{set, delete, held};
ghost use Rattle.swh_forest.specs.Sound.{IsLeaf};
ghost use Rattle.swh_forest.specs.Roots.{IsBelow, map_of_number, IsGood, map_at, root_forest};
ghost use Rattle.swh_forest.specs.Transfer.{transferred, left_by};
ghost use Rattle.swh_base.specs.Directory.{IsEntryName};
ghost use Rattle.swh_fastlex.specs.Path.{components, IsPath};

use crate::path::{components_of, find, graft};
use std::alloc::{AllocError, Global};
use swh_entries::{Child, Leaf, Names, Packed};

/// How a source's holdings come to a target: they stay at the source too, or the source is removed first.
#[derive(Clone, Copy)]
pub enum Transfer {
    Copy,
    Rename,
}

/// What stands at a root.
pub fn root_of(number: Option<usize>) -> Option<Child>
    ensures inside { (n : ℕ) → IsBelow n number → IsIn n result }
    ensures same { (at : ℕ → Forest) → forest (stands_of at result) ≡ root_forest at number }
{
    match number {
        Some(number) => Some(Child::Folder(number)),
        None => None,
    }
}

/// The number of the folder that stands here.
pub fn number_of(child: Option<Child>) -> Option<usize>
    ensures inside { (n : ℕ) → IsIn n child → IsBelow n result }
    ensures same { (at : ℕ → Forest) → root_forest at result ≡ forest (stands_of at child) }
{
    match child {
        Some(Child::Folder(number)) => Some(number),
        Some(Child::File(_)) => None,
        None => None,
    }
}

/// What is left of what stands here before a transfer: all of it, or for a rename all but what stands at the source.
fn left_of(
    alloc: Global,
    names: &mut Names,
    nodes: &mut Vec<Packed>,
    here: Option<Child>,
    source: &[&[u8]],
    way: Transfer,
) -> Result<Option<Child>, AllocError>
    requires good { IsGood names.old.items nodes.old.items }
    requires here { IsIn (length nodes.old.items) here }
    requires source { AllByRecursion IsEntryName (parts_of source.now) }
    ensures good { IsGood names.new.items nodes.new.items }
    ensures grows { Grows names.old.items nodes.old.items names.new.items nodes.new.items }
    ensures kept { AreAmong (texts names.new.items) (texts names.old.items ++ parts_of source.now) }
    ensures inside { IfOk result (λ r. IsIn (length nodes.new.items) r) }
    ensures left { IfOk result (λ r. stands_of (tree_at names.new.items nodes.new.items) r
        ≡ left_by way (parts_of source.now) (stands_of (tree_at names.old.items nodes.old.items) here)) }
{
    match way {
        Transfer::Copy => Ok(here),
        Transfer::Rename => graft(alloc, names, nodes, here, source, None),
    }
}

/// The tree with what the source holds at the target, and at the source too where the transfer is a copy. None where the
/// source holds nothing.
pub fn transfer_path(
    alloc: Global,
    names: &mut Names,
    nodes: &mut Vec<Packed>,
    root: Option<usize>,
    source: &[u8],
    target: &[u8],
    way: Transfer,
) -> Result<Option<Option<usize>>, AllocError>
    requires good { IsGood names.old.items nodes.old.items }
    requires root { IsBelow (length nodes.old.items) root }
    requires source { IsPath source.now }
    requires target { IsPath target.now }
    ensures good { IsGood names.new.items nodes.new.items }
    ensures grows { Grows names.old.items nodes.old.items names.new.items nodes.new.items }
    ensures kept { AreAmong (texts names.new.items) (texts names.old.items
        ++ (components source.now ++ components target.now)) }
    ensures none { IfOk result (λ o. IfNone o (held (components source.now)
        (map_of_number (map_at names.old.items nodes.old.items) root) ≡ [])) }
    ensures left { IfOk result (λ o. IfNone o (nodes.new.items ≡ nodes.old.items)) }
    ensures some { IfOk result (λ o. IfSome o (λ r. held (components source.now)
        (map_of_number (map_at names.old.items nodes.old.items) root) ≢ [])) }
    ensures inside { IfOk result (λ o. IfSome o (λ r. IsBelow (length nodes.new.items) r)) }
    ensures map { IfOk result (λ o. IfSome o (λ r. map_of_number (map_at names.new.items nodes.new.items) r
        ≡ transferred way (components source.now) (components target.now)
        (map_of_number (map_at names.old.items nodes.old.items) root))) }
{
    let from = components_of(alloc, source)?;
    let to = components_of(alloc, target)?;
    let here = root_of(root);
    let Some(child) = find(names.as_slice(), nodes.as_slice(), here, from.as_slice()) else {
        return Ok(None);
    };
    let left = left_of(alloc, names, nodes, here, from.as_slice(), way)?;
    let there = graft(alloc, names, nodes, left, to.as_slice(), Some(child))?;
    Ok(Some(number_of(there)))
}
