//! Which folders a root still needs.

ghost use Rattle.std.specs.Prelude.{◌≡◌, ◌⊎◌, ◌<◌, ◌≤◌, ◌+◌, ℕ, List, length, slice_index_or, true, false, IfOk};
ghost use Rattle.std.specs.Global.{Vec};
ghost use Rattle.swh_entries.specs.declared.entry.Child.TheVariants.{Folder as FolderChild};
ghost use Rattle.swh_entries.specs.declared.entry.Entry.{Entry};
ghost use Rattle.swh_forest.specs.Arena.{tree_at, IsArena, IsLower};
ghost use Rattle.swh_forest.specs.Forest.{IsFolder};
ghost use Rattle.swh_forest.specs.Roots.{AreSound};
ghost use Rattle.swh_folders.specs.Live.{is_live, IsMarked, AreMarked, HasChild, AreLower, IsClosed, AreLiveParts};

use std::alloc::{AllocError, Global};
use swh_entries::{Child, Entry, Packed};

/// Marks a folder that stands from the base on.
fn mark(live: &mut [bool], base: usize, child: Child)
    requires { IsLower (base + length live.old) child }
    ensures as_long { length live.new ≡ length live.old }
    ensures marked { IsMarked base live.new child }
    ensures more { (j : ℕ) → base ≤ j → is_live base live.old j ≡ true → is_live base live.new j ≡ true }
    ensures only { (j : ℕ) → base ≤ j → is_live base live.new j ≡ true
        → (is_live base live.old j ≡ true) ⊎ (child ≡ FolderChild j) }
{
    if let Child::Folder(j) = child {
        if j >= base {
            live[j - base] = true;
        }
    }
}

/// Marks the folders of these entries that stand from the base on.
fn mark_all(live: &mut [bool], base: usize, entries: &[Entry])
    requires { (k : ℕ) (d : Entry) → k < length entries.now
        → IsLower (base + length live.old) (slice_index_or entries.now k d).child }
    ensures as_long { length live.new ≡ length live.old }
    ensures marked { AreMarked base live.new entries.now (length entries.now) }
    ensures more { (j : ℕ) → base ≤ j → is_live base live.old j ≡ true → is_live base live.new j ≡ true }
    ensures only { (j : ℕ) → base ≤ j → is_live base live.new j ≡ true
        → (is_live base live.old j ≡ true) ⊎ HasChild entries.now (length entries.now) j }
{
    for e in entries {
        mark(live, base, e.child);
    }
}

/// No marks yet but the root's.
fn root_alone(alloc: Global, count: usize, root: usize) -> Result<Vec<bool>, AllocError>
    requires { root < count }
    ensures as_long { IfOk result (λ v. length v.items ≡ count) }
    ensures root { IfOk result (λ v. slice_index_or v.items root false ≡ true) }
    ensures only { (k : ℕ) → IfOk result (λ v. slice_index_or v.items k false ≡ true → k ≡ root) }
{
    let mut live = Vec::new(alloc);
    for k in 0..count {
        live.push(k == root)?;
    }
    Ok(live)
}

/// Which folders from the base on the root needs. A folder's own folders have lower numbers, so one walk down finds
/// them.
pub fn live_of(
    alloc: Global,
    nodes: &[Packed],
    base: usize,
    root: usize,
) -> Result<Vec<bool>, AllocError>
    requires base { base ≤ root }
    requires root { root < length nodes.now }
    requires lower { AreLower nodes.now }
    ensures as_long { IfOk result (λ v. base + length v.items ≡ length nodes.now) }
    ensures root { IfOk result (λ v. is_live base v.items root ≡ true) }
    ensures closed { IfOk result (λ v. IsClosed base v.items nodes.now base) }
    ensures parts { (names : List (Vec ℕ)) → IsArena names nodes.now → AreSound names nodes.now
        → IfOk result (λ v. AreLiveParts (tree_at names nodes.now) base v.items (length nodes.now)
        (IsFolder (tree_at names nodes.now root))) }
{
    let mut live = root_alone(alloc, nodes.len() - base, root - base)?;
    let mut left = nodes.len();
    'down: while left > base {
        left -= 1;
        if live[left - base] {
            let entries = nodes[left].entries(alloc)?;
            mark_all(live.as_mut_slice(), base, entries.as_slice());
        }
    }
    Ok(live)
}
