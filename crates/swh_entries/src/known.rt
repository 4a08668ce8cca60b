//! Folders that were made before, found by their entries: one that is built anew needs no new number.

ghost use Rattle.std.specs.Prelude.{◌≡◌, IsTrue};

use crate::entry::{Child, Entry};
use crate::packed::Packed;
use std::alloc::Global;
use std::collections::BTreeMap;

/// For some folders, by a hash of their entries, the number of the one that was learnt last.
#[derive(Drop)]
pub struct Known {
    numbers: BTreeMap<u64, usize>,
}

/// A hash with one number more.
fn mixed(hash: u64, word: u64) -> u64 {
    (hash.rotate_left(5) ^ word).wrapping_mul(0x517c_c1b7_2722_0a95)
}

/// A hash with one entry more. Of an id eight bytes are taken.
fn with_entry(hash: u64, entry: Entry) -> u64 {
    let named = mixed(hash, entry.name as u64);
    match entry.child {
        Child::Folder(number) => mixed(named, number as u64),
        Child::File(leaf) => {
            let mut word = leaf.mode as u64;
            for byte in leaf.id.iter().take(8) {
                word = word.rotate_left(8) ^ (*byte as u64);
            }
            mixed(named, word)
        }
    }
}

/// A hash of entries.
fn hash_of(entries: &[Entry]) -> u64 {
    let mut hash = 0;
    for entry in entries {
        hash = with_entry(hash, *entry);
    }
    hash
}

/// A hash of a folder's entries.
fn hash_in(node: &Packed) -> u64 {
    let mut hash = 0;
    for place in 0..node.len() {
        hash = with_entry(hash, node.at(place));
    }
    hash
}

/// Whether the children are the same.
fn is_same_child(a: Child, b: Child) -> bool
    ensures { IsTrue result → a ≡ b }
{
    match (a, b) {
        (Child::File(leaf), Child::File(other)) => leaf == other,
        (Child::Folder(number), Child::Folder(other)) => number == other,
        (Child::File(_), Child::Folder(_)) => false,
        (Child::Folder(_), Child::File(_)) => false,
    }
}

/// Whether the entries are the same.
fn is_same_entry(a: Entry, b: Entry) -> bool
    ensures { IsTrue result → a ≡ b }
{
    if a.name != b.name {
        return false;
    }
    is_same_child(a.child, b.child)
}

/// Whether a folder has these entries.
fn has_entries(node: &Packed, entries: &[Entry]) -> bool
    ensures { IsTrue result → node.now.items ≡ entries.now }
{
    if node.len() != entries.len() {
        return false;
    }
    for (place, entry) in entries.iter().enumerate() {
        let same = is_same_entry(node.at(place), *entry);
        if !same {
            return false;
        }
    }
    true
}

impl Known {
    ghost use Rattle.std.specs.Prelude.{◌≡◌, ◌<◌, ◌≤◌, length, slice_index_or, IfSome};
    ghost use Rattle.swh_entries.specs.Listed.{Listed};

    /// None.
    pub fn new(alloc: Global) -> Known {
        Known {
            numbers: BTreeMap::new(alloc),
        }
    }

    /// The number, below the base, of a folder with these entries, where one is found.
    pub fn find(&self, nodes: &[Packed], base: usize, entries: &[Entry]) -> Option<usize>
        requires { base ≤ length nodes.now }
        ensures below { IfSome result (λ k. k < base) }
        ensures same { IfSome result (λ k. (w : Listed) → (slice_index_or nodes.now k w).items ≡ entries.now) }
    {
        let number = self.numbers.get(&hash_of(entries)).copied()?;
        if number >= base {
            return None;
        }
        if has_entries(&nodes[number], entries) {
            return Some(number);
        }
        None
    }

    /// Learns the folders from this one on. Those for which memory runs out are not found later.
    pub fn learn(&mut self, nodes: &[Packed], first: usize) {
        for number in first..nodes.len() {
            let _ = self.numbers.insert(hash_in(&nodes[number]), number);
        }
    }
}
