//! Folders by their numbers. None is ever changed.

ghost use Rattle.std.specs.Prelude.{◌≡◌, ◌<◌, ◌≤◌, ◌++◌, ℕ, List, length, All, IfOk, IfSome, OnOk, None};
ghost use Rattle.std.specs.Global.{Vec};
ghost use Rattle.swh_forest.specs.Forest.{Forest, step, without, inserted, put, folder, forest};
ghost use Rattle.swh_forest.specs.Sound.{IsSound, IsSoundHere};
ghost use Rattle.swh_forest.specs.Arena.{
  stands,
  stands_of,
  forest_of,
  tree_at,
  IsArena,
  AreGood,
  IsLower,
  IsIn,
  Grows,
};
ghost use Rattle.swh_entries.specs.Keys.{name_at, texts};
ghost use Rattle.swh_entries.specs.Named.{Extends};
ghost use Rattle.swh_base.specs.Directory.{IsEntryName};
ghost use Rattle.swh_forest.specs.Kept.{AreAmong, named};
ghost use Rattle.swh_forest.specs.Ordered.{AreOrdered};
ghost use Rattle.swh_forest.specs.Roots.{AreSound, IsGood};

use crate::node::{child_in, kept, with_entry};
use std::alloc::{AllocError, Global};
use swh_entries::{Child, Entry, Names, Packed};

/// What stands under this name in what stands here.
pub fn step(names: &[Vec<u8>], nodes: &[Packed], under: Option<Child>, name: &[u8]) -> Option<Child>
    requires good { IsGood names.now nodes.now }
    requires under { IsIn (length nodes.now) under }
    ensures inside { IsIn (length nodes.now) result }
    ensures child { stands_of (tree_at names.now nodes.now) result
        ≡ step name.now (stands_of (tree_at names.now nodes.now) under) }
{
    match under {
        Some(child) => match child {
            Child::Folder(i) => child_in(names, &nodes[i], name),
            Child::File(_) => None,
        },
        None => None,
    }
}

/// The entries of what stands here, but that of this name; none where no folder stands.
fn cleared(
    alloc: Global,
    names: &[Vec<u8>],
    nodes: &[Packed],
    under: Option<Child>,
    name: &[u8],
) -> Result<Packed, AllocError>
    requires good { IsGood names.now nodes.now }
    requires under { IsIn (length nodes.now) under }
    ensures good { IfOk result (λ p. AreGood (length names.now) (length nodes.now) p.items) }
    ensures forest { IfOk result (λ p. forest_of (texts names.now) (tree_at names.now nodes.now) p.items
        ≡ without name.now (forest (stands_of (tree_at names.now nodes.now) under))) }
{
    match under {
        Some(child) => match child {
            Child::Folder(i) => {
                let copy = nodes[i].again(alloc)?;
                kept(alloc, names, copy, name)
            }
            Child::File(_) => Ok(Packed::none(alloc)),
        },
        None => Ok(Packed::none(alloc)),
    }
}

/// The entries, and the child, if there is one, under this name.
pub fn add_some(
    alloc: Global,
    names: &mut Names,
    out: Packed,
    name: &[u8],
    child: Option<Child>,
) -> Result<Packed, AllocError>
    requires others { All (λ f. f.name < length names.old.items) out.items }
    requires ordered { AreOrdered (texts names.old.items) out.items }
    ensures names { Extends names.old.items names.new.items }
    ensures kept { AreAmong (texts names.new.items) (texts names.old.items ++ named name.now child) }
    ensures good { (k : ℕ) → AreGood (length names.old.items) k out.items → IsIn k child
        → IfOk result (λ p. AreGood (length names.new.items) k p.items) }
    ensures forest { (at : ℕ → Forest) (k : ℕ) → AreGood (length names.old.items) k out.items
        → IfOk result (λ p. forest_of (texts names.new.items) at p.items
        ≡ inserted name.now (stands_of at child) (forest_of (texts names.old.items) at out.items)) }
{
    match child {
        Some(child) => {
            let number = names.number(alloc, name)?;
            let entry = Entry {
                name: number,
                child,
            };
            with_entry(alloc, names.as_slice(), out, entry)
        }
        None => Ok(out),
    }
}

/// The folder of these entries, if there are any.
pub fn seal(nodes: &mut Vec<Packed>, out: Packed) -> Result<Option<Child>, AllocError>
    ensures arena { (names : List (Vec ℕ)) → IsArena names nodes.old.items
        → AreGood (length names) (length nodes.old.items) out.items → IsArena names nodes.new.items }
    ensures grows { (names : List (Vec ℕ)) → Grows names nodes.old.items names nodes.new.items }
    ensures inside { IfOk result (λ r. IsIn (length nodes.new.items) r) }
    ensures sound { (names : List (Vec ℕ)) → AreSound names nodes.old.items
        → IsSound (forest_of (texts names) (tree_at names nodes.old.items) out.items) → AreSound names nodes.new.items }
    ensures folder { (names : List (Vec ℕ))
        → IfOk result (λ r. stands_of (tree_at names nodes.new.items) r
        ≡ folder (forest_of (texts names) (tree_at names nodes.old.items) out.items)) }
{
    if out.len() == 0 {
        return Ok(None);
    }
    let number = nodes.len();
    nodes.push(out)?;
    Ok(Some(Child::Folder(number)))
}

/// What stands here, with the child under this name in the place of what stood there.
pub fn put(
    alloc: Global,
    names: &mut Names,
    nodes: &mut Vec<Packed>,
    under: Option<Child>,
    name: &[u8],
    child: Option<Child>,
) -> Result<Option<Child>, AllocError>
    requires good { IsGood names.old.items nodes.old.items }
    requires under { IsIn (length nodes.old.items) under }
    requires child { IsIn (length nodes.old.items) child }
    requires name { IsEntryName name.now }
    requires sound { IsSoundHere (stands_of (tree_at names.old.items nodes.old.items) child) }
    ensures good { IsGood names.new.items nodes.new.items }
    ensures grows { Grows names.old.items nodes.old.items names.new.items nodes.new.items }
    ensures kept { AreAmong (texts names.new.items) (texts names.old.items ++ named name.now child) }
    ensures inside { IfOk result (λ r. IsIn (length nodes.new.items) r) }
    ensures sound { IfOk result (λ r. IsSoundHere (stands_of (tree_at names.new.items nodes.new.items) r)) }
    ensures put { IfOk result (λ r. stands_of (tree_at names.new.items nodes.new.items) r
        ≡ folder (put name.now (stands_of (tree_at names.old.items nodes.old.items) child)
        (forest (stands_of (tree_at names.old.items nodes.old.items) under)))) }
{
    let rest = cleared(alloc, names.as_slice(), nodes.as_slice(), under, name)?;
    let out = add_some(alloc, names, rest, name, child)?;
    seal(nodes, out)
}
