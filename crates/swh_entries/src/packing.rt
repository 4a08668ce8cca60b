//! A folder's entries in the room that they need: a history has one root after another, each with an entry for all that
//! stands in it, and they are held as long as a commit may start from them.

ghost use Rattle.std.specs.Prelude.{◌≡◌, ◌++◌, ◌∷◌, [], ◌<◌, ◌≤◌, length, slice_index_or, IfOk, OnOk};
ghost use Rattle.swh_entries.specs.declared.entry.Entry.{Entry};
ghost use Rattle.swh_entries.specs.Packing.{child_of, entry_of, entries_of, IsPlaced, ArePlaced, Adds};

use crate::entry::{Child, Entry, Leaf};
use std::alloc::{AllocError, Global};
use std::marker::Model;

/// What is kept of a child: the place of its leaf among the folder's leaves, or the number of its folder.
#[derive(Clone, Copy)]
pub enum Part {
    File(u32),
    Folder(u32),
}

/// What is kept of an entry: the number of its name, and its child.
#[derive(Clone, Copy)]
pub struct Slot {
    pub name: u32,
    pub part: Part,
}

/// The entries of one folder. Contracts see their list.
#[derive(Drop)]
pub struct Flat {
    slots: Vec<Slot>,
    leaves: Vec<Leaf>,
}

impl Model for Flat {
    ghost use Rattle.swh_entries.specs.Listed.{Row};

    ghost Value = { Row };

    ghost use Rattle.std.specs.Prelude.{length};
    ghost use Rattle.swh_entries.specs.Packing.{entries_of, ArePlaced};

    ghost view = { λ p. record { items = entries_of p.leaves.items p.slots.items } };

    ghost invariant = { λ p. ArePlaced (length p.leaves.items) p.slots.items };
}

/// A number in the room that is kept for it.
fn small(number: usize) -> Result<u32, AllocError>
    ensures { IfOk result (λ n. n ≡ number) }
{
    match u32::try_from(number) {
        Ok(small) => Ok(small),
        Err(_) => Err(AllocError),
    }
}

/// What is kept of the child. Its leaf, if it is one, is put behind the leaves.
fn part_of(child: Child, leaves: &mut Vec<Leaf>) -> Result<Part, AllocError>
    ensures adds { Adds leaves.old.items leaves.new.items }
    ensures placed { IfOk result (IsPlaced (length leaves.new.items)) }
    ensures child { IfOk result (λ part. child_of leaves.new.items part ≡ child) }
{
    match child {
        Child::File(leaf) => {
            let place = small(leaves.len())?;
            leaves.push(leaf)?;
            Ok(Part::File(place))
        }
        Child::Folder(number) => {
            let number = small(number)?;
            Ok(Part::Folder(number))
        }
    }
}

/// One entry more.
fn pack(entry: Entry, slots: &mut Vec<Slot>, leaves: &mut Vec<Leaf>) -> Result<(), AllocError>
    requires { ArePlaced (length leaves.old.items) slots.old.items }
    ensures placed { OnOk result (ArePlaced (length leaves.new.items) slots.new.items) }
    ensures entry { OnOk result (entries_of leaves.new.items slots.new.items
        ≡ entries_of leaves.old.items slots.old.items ++ entry ∷ []) }
{
    let name = small(entry.name)?;
    let part = part_of(entry.child, leaves)?;
    slots.push(Slot { name, part })?;
    Ok(())
}

/// The child of which this is kept.
fn child_of(leaves: &[Leaf], part: Part) -> Child
    requires { IsPlaced (length leaves.now) part }
    ensures { result ≡ child_of leaves.now part }
{
    match part {
        Part::File(place) => Child::File(leaves[place as usize]),
        Part::Folder(number) => Child::Folder(number as usize),
    }
}

/// The entry of which this is kept.
fn entry_of(leaves: &[Leaf], slot: Slot) -> Entry
    requires { IsPlaced (length leaves.now) slot.part }
    ensures { result ≡ entry_of leaves.now slot }
{
    Entry {
        name: slot.name as usize,
        child: child_of(leaves, slot.part),
    }
}

/// The entries of which these are kept.
fn unpacked(alloc: Global, leaves: &[Leaf], slots: &[Slot]) -> Result<Vec<Entry>, AllocError>
    requires { ArePlaced (length leaves.now) slots.now }
    ensures { IfOk result (λ v. v.items ≡ entries_of leaves.now slots.now) }
{
    let mut out = Vec::with_capacity(alloc, slots.len())?;
    for slot in slots {
        out.push(entry_of(leaves, *slot))?;
    }
    Ok(out)
}

/// How many of the entries are files, for which room is taken.
fn files_in(entries: &[Entry]) -> usize
    ensures { result ≤ length entries.now }
{
    let mut files: usize = 0;
    for e in entries {
        if let Child::File(_) = e.child {
            files += 1;
        }
    }
    files
}

impl Flat {
    ghost use Rattle.std.specs.Prelude.{◌≡◌, ◌<◌, [], length, slice_index_or, IfOk};
    ghost use Rattle.swh_entries.specs.declared.entry.Entry.{Entry};

    /// No entry.
    pub fn none(alloc: Global) -> Flat
        ensures { result.items ≡ [] }
    {
        Flat {
            slots: Vec::new(alloc),
            leaves: Vec::new(alloc),
        }
    }

    /// These entries. Fails where memory runs out, as it has long before there are 2^32 names or folders.
    pub fn of(alloc: Global, entries: &[Entry]) -> Result<Flat, AllocError>
        ensures { IfOk result (λ p. p.items ≡ entries.now) }
    {
        let mut slots = Vec::with_capacity(alloc, entries.len())?;
        let mut leaves = Vec::with_capacity(alloc, files_in(entries))?;
        for e in entries {
            pack(*e, &mut slots, &mut leaves)?;
        }
        Ok(Flat { slots, leaves })
    }

    /// How many entries there are.
    pub fn len(&self) -> usize
        ensures { result ≡ length self.now.items }
    {
        self.slots.len()
    }

    /// The entry at a place.
    pub fn at(&self, place: usize) -> Entry
        requires { place < length self.now.items }
        ensures { (d : Entry) → result ≡ slice_index_or self.now.items place d }
    {
        entry_of(self.leaves.as_slice(), self.slots[place])
    }

    /// A copy of the entries. Fails where memory runs out.
    pub fn entries(&self, alloc: Global) -> Result<Vec<Entry>, AllocError>
        ensures { IfOk result (λ v. v.items ≡ self.now.items) }
    {
        unpacked(alloc, self.leaves.as_slice(), self.slots.as_slice())
    }
}
