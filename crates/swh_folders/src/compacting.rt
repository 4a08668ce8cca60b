//! Folders that a root still needs, moved together.

ghost use Rattle.std.specs.Prelude.{
  ◌≡◌,
  ◌<◌,
  ◌≤◌,
  ◌+◌,
  ◌++◌,
  ℕ,
  List,
  Bool,
  true,
  length,
  take,
  drop,
  slice_index_or,
  IfOk,
  OnOk,
};
ghost use Rattle.std.specs.Global.{Vec};
ghost use Rattle.swh_entries.specs.declared.entry.Entry.{Entry};
ghost use Rattle.swh_forest.specs.Forest.{Forest, Stands, IsFolder};
ghost use Rattle.swh_forest.specs.Arena.{stands, forest_of, tree_at, AreGood, IsArena, IsLower};
ghost use Rattle.swh_entries.specs.Keys.{texts};
ghost use Rattle.swh_forest.specs.Roots.{IsGood};
ghost use Rattle.swh_folders.specs.Live.{is_live, IsMarked, AreMarked, AreLower, IsClosed, IsPart, AreWhole};
ghost use Rattle.swh_folders.specs.Moved.{AreMoved, IsCopied};

use crate::live::live_of;
use std::alloc::{AllocError, Global};
use swh_entries::{Child, Entry, Known, Packed};

/// Where a child stands now.
fn moved_child(child: Child, base: usize, moved: &[usize]) -> Child
    requires { IsLower (base + length moved.now) child }
    ensures inside { (at at' : ℕ → Forest) (bound : ℕ) (live : List Bool)
        → AreMoved at at' base bound live moved.now → IsMarked base live child → IsLower bound result }
    ensures same { (at at' : ℕ → Forest) (bound : ℕ) (live : List Bool)
        → AreMoved at at' base bound live moved.now → IsMarked base live child → stands at' result ≡ stands at child }
{
    match child {
        Child::File(_) => child,
        Child::Folder(j) => {
            if j < base {
                return child;
            }
            Child::Folder(moved[j - base])
        }
    }
}

/// The entries with their folders where they stand now.
fn moved_entries(
    alloc: Global,
    entries: &[Entry],
    base: usize,
    moved: &[usize],
) -> Result<Vec<Entry>, AllocError>
    requires { (k : ℕ) (d : Entry) → k < length entries.now
        → IsLower (base + length moved.now) (slice_index_or entries.now k d).child }
    ensures good { (at at' : ℕ → Forest) (bound n k : ℕ) (live : List Bool) → AreMoved at at' base bound live moved.now
        → AreMarked base live entries.now (length entries.now) → AreGood n k entries.now
        → IfOk result (λ v. AreGood n bound v.items) }
    ensures same { (names : List (List ℕ)) (at at' : ℕ → Forest) (bound : ℕ) (live : List Bool)
        → AreMoved at at' base bound live moved.now → AreMarked base live entries.now (length entries.now)
        → IfOk result (λ v. forest_of names at' v.items ≡ forest_of names at entries.now) }
{
    let mut out = Vec::with_capacity(alloc, entries.len())?;
    for e in entries {
        out.push(Entry {
            name: e.name,
            child: moved_child(e.child, base, moved),
        })?;
    }
    Ok(out)
}

/// One folder more: moved to the end of the fresh ones, where it is wanted and none below the base has its entries.
fn move_one(
    alloc: Global,
    nodes: &[Packed],
    known: &Known,
    base: usize,
    wanted: bool,
    moved: &mut Vec<usize>,
    fresh: &mut Vec<Packed>,
) -> Result<(), AllocError>
    requires within { base + length moved.old.items < length nodes.now }
    requires room { length fresh.old.items ≤ length moved.old.items }
    requires lower { AreLower nodes.now }
    ensures next { OnOk result (length moved.new.items ≡ length moved.old.items + 1) }
    ensures room { OnOk result (length fresh.new.items ≤ length fresh.old.items + 1) }
    ensures whole { OnOk result (AreWhole fresh.old.items → AreWhole fresh.new.items) }
    ensures copied { (names : List (Vec ℕ)) (live : List Bool) (x : Stands) → IsArena names nodes.now
        → is_live base live (base + length moved.old.items) ≡ wanted → IsClosed base live nodes.now base
        → (wanted ≡ true → IsPart x (tree_at names nodes.now (base + length moved.old.items)))
        → IsCopied names nodes.now base live x fresh.old.items moved.old.items
        → OnOk result (IsCopied names nodes.now base live x fresh.new.items moved.new.items) }
{
    if !wanted {
        moved.push(0)?;
        return Ok(());
    }
    let number = base + moved.len();
    let old = nodes[number].entries(alloc)?;
    let entries = moved_entries(alloc, old.as_slice(), base, moved.as_slice())?;
    if let Some(place) = known.find(nodes, base, entries.as_slice()) {
        moved.push(place)?;
        return Ok(());
    }
    let packed = Packed::of(alloc, entries.as_slice())?;
    let place = base + fresh.len();
    fresh.push(packed)?;
    moved.push(place)?;
    Ok(())
}

/// The marked folders from the base on, moved together, and where each of them stands now.
fn move_all(
    alloc: Global,
    nodes: &[Packed],
    known: &Known,
    base: usize,
    live: &[bool],
) -> Result<(Vec<Packed>, Vec<usize>), AllocError>
    requires as_long { base + length live.now ≡ length nodes.now }
    requires lower { AreLower nodes.now }
    ensures next { IfOk result (λ r. length r.1.items ≡ length live.now) }
    ensures whole { IfOk result (λ r. AreWhole r.0.items) }
    ensures copied { (names : List (Vec ℕ)) (x : Stands) → IsArena names nodes.now
        → IsClosed base live.now nodes.now base
        → ((i : ℕ) → base ≤ i → i < length nodes.now → is_live base live.now i ≡ true
        → IsPart x (tree_at names nodes.now i))
        → IfOk result (λ r. IsCopied names nodes.now base live.now x r.0.items r.1.items) }
{
    let mut moved = Vec::new(alloc);
    let mut fresh = Vec::new(alloc);
    for wanted in live {
        move_one(alloc, nodes, known, base, *wanted, &mut moved, &mut fresh)?;
    }
    Ok((fresh, moved))
}

/// The folders below the base, and after them those that the root needs and that are not known, and the root's new number.
pub fn compact(
    alloc: Global,
    nodes: &mut Vec<Packed>,
    known: &Known,
    base: usize,
    root: usize,
) -> Result<usize, AllocError>
    requires base { base ≤ length nodes.old.items }
    requires root { root < length nodes.old.items }
    requires lower { AreLower nodes.old.items }
    ensures good { (names : List (Vec ℕ)) → IsGood names nodes.old.items → IsGood names nodes.new.items }
    ensures stay { (names : List (Vec ℕ)) (j : ℕ) → IsArena names nodes.old.items → j < base
        → tree_at names nodes.new.items j ≡ tree_at names nodes.old.items j }
    ensures long { base ≤ length nodes.new.items }
    ensures whole { OnOk result (AreWhole (drop base nodes.new.items)) }
    ensures same { (names : List (Vec ℕ)) → IsGood names nodes.old.items
        → IfOk result (λ r. (r < length nodes.new.items)
        × (tree_at names nodes.new.items r ≡ tree_at names nodes.old.items root)) }
    ensures parts { (names : List (Vec ℕ)) → IsGood names nodes.old.items
        → IfOk result (λ r. (m : ℕ) → base ≤ m → m < length nodes.new.items
        → IsPart (IsFolder (tree_at names nodes.old.items root)) (tree_at names nodes.new.items m)) }
{
    if root < base {
        nodes.truncate(base);
        return Ok(root);
    }
    let live = live_of(alloc, nodes.as_slice(), base, root)?;
    let (mut fresh, moved) = move_all(alloc, nodes.as_slice(), known, base, live.as_slice())?;
    let there = moved[root - base];
    nodes.truncate(base);
    nodes.append(&mut fresh)?;
    Ok(there)
}
