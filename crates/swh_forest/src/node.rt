//! One folder's entries, in the order of git's directories.

ghost use Rattle.std.specs.Prelude.{◌≡◌, ◌<◌, ◌≤◌, ◌+◌, ◌++◌, ℕ, List, true, false, length, slice_index_or, IsTrue, All, IfOk, IfErr, IfSome, IfNone};
ghost use Rattle.swh_entries.specs.declared.entry.Entry.{Entry};
ghost use Rattle.swh_forest.specs.Forest.{Forest, child_at};
ghost use Rattle.swh_entries.specs.Gaps.{gap_at};
ghost use Rattle.swh_entries.specs.Keys.{is_before, name_at, entry_key, suffix, texts};
ghost use Rattle.swh_forest.specs.Sound.{IsSound};
ghost use Rattle.swh_forest.specs.PathMap.{same};
ghost use Rattle.swh_forest.specs.Ordered.{AreOrdered, IsAbove};
ghost use Rattle.swh_forest.specs.Arena.{
  stands_of,
  forest_of,
  has_name,
  entries_without,
  entries_with,
  AreGood,
  IsIn,
};

use std::alloc::{AllocError, Global};
use swh_entries::{Child, Entry, Gap, Packed, comes_before, suffix};

/// Whether the name of this number is this one.
fn is_name(names: &[Vec<u8>], number: usize, name: &[u8]) -> bool
    requires { number < length names.now }
    ensures { result ≡ same (name_at (texts names.now) number) name.now }
{
    names[number].as_slice() == name
}

/// Whether the name, with what it is compared with after it, comes before no entry in front of this gap.
fn is_low(names: &[Vec<u8>], gap: &Gap, name: &[u8], end: &[u8]) -> bool
    requires { IfSome gap.now.before (λ f. f.name < length names.now) }
    ensures { IsTrue result → (es : List Entry) → AreOrdered (texts names.now) es → gap.now ≡ gap_at es gap.now.place
        → (gap.now.place ≤ length es) × ((k : ℕ) (d : Entry) → k < gap.now.place
        → is_before (name.now ++ end.now) (entry_key (texts names.now) (slice_index_or es k d)) ≡ false) }
{
    if gap.place == 0 {
        return true;
    }
    match gap.before {
        Some(entry) => {
            let before = comes_before(names, name, end, entry);
            if before {
                return false;
            }
            true
        }
        None => false,
    }
}

/// Whether the name, with what it is compared with after it, comes before each entry behind this gap.
fn is_high(names: &[Vec<u8>], gap: &Gap, name: &[u8], end: &[u8]) -> bool
    requires { IfSome gap.now.at (λ f. f.name < length names.now) }
    ensures { IsTrue result → (es : List Entry) → AreOrdered (texts names.now) es → gap.now ≡ gap_at es gap.now.place
        → (k : ℕ) (d : Entry) → gap.now.place ≤ k → k < length es
        → is_before (name.now ++ end.now) (entry_key (texts names.now) (slice_index_or es k d)) ≡ true }
{
    match gap.at {
        Some(entry) => {
            let before = comes_before(names, name, end, entry);
            if before {
                return true;
            }
            false
        }
        None => true,
    }
}

/// Whether this is the gap in front of the first entry that this name, with what it is compared with after it, comes before.
fn is_above(names: &[Vec<u8>], gap: &Gap, name: &[u8], end: &[u8]) -> bool
    requires before { IfSome gap.now.before (λ f. f.name < length names.now) }
    requires at { IfSome gap.now.at (λ f. f.name < length names.now) }
    ensures { IsTrue result → (es : List Entry) → AreOrdered (texts names.now) es → gap.now ≡ gap_at es gap.now.place
        → IsAbove (texts names.now) (name.now ++ end.now) es gap.now.place }
{
    let low = is_low(names, gap, name, end);
    if !low {
        return false;
    }
    is_high(names, gap, name, end)
}

/// The place of the first entry that this name, with what it is compared with after it, comes before.
fn above_by_halves(names: &[Vec<u8>], node: &Packed, name: &[u8], end: &[u8]) -> usize
    requires names { All (λ f. f.name < length names.now) node.now.items }
    requires ordered { AreOrdered (texts names.now) node.now.items }
    ensures { IsAbove (texts names.now) (name.now ++ end.now) node.now.items result }
{
    let mut low = 0;
    let mut high = node.len();
    'halves: while low < high {
        let middle = low + (high - low) / 2;
        let before = comes_before(names, name, end, node.at(middle));
        if before {
            high = middle;
        } else {
            low = middle + 1;
        }
    }
    low
}

/// The gap in front of the first entry that this name, with what it is compared with after it, comes before: this one or a
/// guess, where it is right, or else what halving finds.
fn above(names: &[Vec<u8>], node: &Packed, near: Gap, name: &[u8], end: &[u8]) -> Gap
    requires names { All (λ f. f.name < length names.now) node.now.items }
    requires ordered { AreOrdered (texts names.now) node.now.items }
    requires near { near ≡ gap_at node.now.items near.place }
    ensures gap { result ≡ gap_at node.now.items result.place }
    ensures above { IsAbove (texts names.now) (name.now ++ end.now) node.now.items result.place }
{
    let right = is_above(names, &near, name, end);
    if right {
        return near;
    }
    let guess = node.gap(node.guess(names, name, end));
    let guessed = is_above(names, &guess, name, end);
    if guessed {
        return guess;
    }
    node.gap(above_by_halves(names, node, name, end))
}

/// The place in front of this gap, where its entry has this name.
fn place_before(names: &[Vec<u8>], gap: &Gap, name: &[u8]) -> Option<usize>
    requires { IfSome gap.now.before (λ f. f.name < length names.now) }
    ensures some { (es : List Entry) → gap.now ≡ gap_at es gap.now.place → IfSome result (λ k. (k < length es)
        × ((d : Entry) → has_name (texts names.now) name.now (slice_index_or es k d) ≡ true)) }
    ensures none { (es : List Entry) → gap.now ≡ gap_at es gap.now.place → IfNone result ((k : ℕ) (d : Entry)
        → k < length es → k + 1 ≡ gap.now.place
        → has_name (texts names.now) name.now (slice_index_or es k d) ≡ false) }
{
    if gap.place == 0 {
        return None;
    }
    match gap.before {
        Some(entry) => {
            let found = is_name(names, entry.name, name);
            if found {
                return Some(gap.place - 1);
            }
            None
        }
        None => None,
    }
}

/// The place of the entry of this name: a file's, or else a folder's; where there is none, the place that a file of this name
/// would have.
fn place_of(names: &[Vec<u8>], node: &Packed, name: &[u8]) -> Result<usize, usize>
    requires names { All (λ f. f.name < length names.now) node.now.items }
    requires ordered { AreOrdered (texts names.now) node.now.items }
    ensures within { IfOk result (λ k. k < length node.now.items) }
    ensures some { IfOk result (λ k. (d : Entry)
        → has_name (texts names.now) name.now (slice_index_or node.now.items k d) ≡ true) }
    ensures none { IfErr result (λ k. All (λ f. has_name (texts names.now) name.now f ≡ false) node.now.items) }
{
    let behind_file = above(names, node, node.gap(node.hint()), name, b"");
    if let Some(place) = place_before(names, &behind_file, name) {
        return Ok(place);
    }
    let behind_folder = above(names, node, behind_file, name, b"/");
    match place_before(names, &behind_folder, name) {
        Some(place) => Ok(place),
        None => Err(behind_file.place),
    }
}

/// What stands under this name.
pub fn child_in(names: &[Vec<u8>], node: &Packed, name: &[u8]) -> Option<Child>
    requires names { All (λ e. e.name < length names.now) node.now.items }
    requires ordered { AreOrdered (texts names.now) node.now.items }
    ensures inside { (n k : ℕ) → AreGood n k node.now.items → IsIn k result }
    ensures child { (at : ℕ → Forest) → IsSound (forest_of (texts names.now) at node.now.items)
        → stands_of at result ≡ child_at name.now (forest_of (texts names.now) at node.now.items) }
{
    match place_of(names, node, name) {
        Ok(place) => Some(node.at(place).child),
        Err(_) => None,
    }
}

/// The entries but that of this name.
pub fn kept(
    alloc: Global,
    names: &[Vec<u8>],
    node: Packed,
    name: &[u8],
) -> Result<Packed, AllocError>
    requires names { All (λ e. e.name < length names.now) node.items }
    requires ordered { AreOrdered (texts names.now) node.items }
    ensures { (at : ℕ → Forest) → IsSound (forest_of (texts names.now) at node.items)
        → IfOk result (λ p. p.items ≡ entries_without (texts names.now) name.now node.items) }
{
    match place_of(names, &node, name) {
        Ok(place) => node.without(alloc, place),
        Err(place) => Ok(node.hinted(place)),
    }
}

/// The entries and one more, at its place.
pub fn with_entry(
    alloc: Global,
    names: &[Vec<u8>],
    node: Packed,
    entry: Entry,
) -> Result<Packed, AllocError>
    requires entry { entry.name < length names.now }
    requires others { All (λ f. f.name < length names.now) node.items }
    requires ordered { AreOrdered (texts names.now) node.items }
    ensures { IfOk result (λ p. p.items ≡ entries_with (texts names.now) entry node.items) }
{
    let name = names[entry.name].as_slice();
    let end = suffix(entry.child);
    let gap = above(names, &node, node.gap(node.hint()), name, end);
    node.with(alloc, gap.place, entry)
}
