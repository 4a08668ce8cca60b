//! Where entries stand, by their names: of most names one slot tells at once whether and where.
ghost use Rattle.std.specs.Prelude.{◌≡◌, ◌↔◌, ◌≤◌, ◌∷◌, ◌++◌, [], List, IsTrue, IsFalse, None, length, take, IfOk, OnOk, OnErr};
ghost use Rattle.std.specs.List.{AllByRecursion};
ghost use Rattle.swh_base.specs.declared.entry.Entry.{Entry};
ghost use Rattle.swh_base.specs.Name.{IsByte};
ghost use Rattle.swh_model.specs.Archive.{body_of};
ghost use Rattle.swh_model.specs.Step.{HasItsChildren};
ghost use Rattle.swh_store.specs.Entries.{bodies_in, IsFound, IsNamed};
ghost use Rattle.swh_store.specs.Front.{AreFresh};
ghost use Rattle.swh_store.specs.Places.{
  HasBytes,
  number_of,
  slot_of,
  mark_at,
  Tells,
  TellAll,
  MarksStay,
  AreTaken,
  IsLedFirst,
  IsPlaced,
  IsPut,
  StaysPut,
};

use crate::key::{Key, key_of};
use std::alloc::Global;
use std::collections::BTreeMap;
use swh_base::{Entry, Memory, Name};

/// There are slots for at least so many entries.
const FEW: usize = 128;

/// How many slots there are for an entry, where they were just made.
const SLOTS_AN_ENTRY: usize = 8;

/// In how many slots, from that of its name on, an entry may stand.
const TRIES: usize = 4;

/// The first place that is too far for a slot.
const FARTHEST: usize = 4_294_967_295;

/// The places of entries of which no two have one name. A slot has one more than a place, or zero where it is free. An entry
/// stands in the first free one of the few slots from its name's on; whatever a slot has, the entry's name is looked at
/// before it is believed. Entries that found none of these slots free stand in the map: hardly any, unless somebody chose
/// their names, and then it costs what an ordered map does.
#[derive(Drop)]
pub struct Places {
    pub slots: Vec<u32>,
    pub others: BTreeMap<Key, usize>,
}

/// The number of the first four bytes of a name's id.
fn number_of(name: &Name) -> usize
    ensures { result ≡ number_of name.now }
{
    u32::from_be_bytes([name.id[0], name.id[1], name.id[2], name.id[3]]) as usize
}

/// The slot of a name. Where there are no slots it is one that is not there.
fn slot_of(slots: &[u32], name: &Name) -> usize
    ensures slot { result ≡ slot_of slots.now name.now }
    ensures within { result ≤ length slots.now }
{
    if slots.is_empty() {
        return 0;
    }
    number_of(name) % slots.len()
}

/// What a slot has. One that is not there leads to the first place.
fn mark_at(slots: &[u32], slot: usize) -> u32
    ensures { result ≡ mark_at slots.now slot }
{
    match slots.get(slot) {
        Some(mark) => *mark,
        None => 1,
    }
}

fn is_same(a: &Name, b: &Name) -> bool
    ensures { IsTrue result ↔ (a.now ≡ b.now) }
{
    a == b
}

/// Whether an entry of this name stands at this place.
fn is_named(entries: &[Entry], place: usize, name: &Name) -> bool
    ensures { IsTrue result ↔ IsNamed entries.now name.now place }
{
    match entries.get(place) {
        Some(entry) => is_same(&entry.name, name),
        None => false,
    }
}

/// What slots tell of a name.
#[derive(Clone, Copy)]
pub(crate) enum Told {
    At { place: usize },
    Nowhere,
    Nothing,
}

/// What a slot tells of a name among the entries.
fn tell(slots: &[u32], entries: &[Entry], slot: usize, name: &Name) -> Told
    ensures { Tells slots.now entries.now slot name.now result }
{
    let mark = mark_at(slots, slot);
    if mark == 0 {
        return Told::Nowhere;
    }
    let place = mark as usize - 1;
    if is_named(entries, place, name) {
        return Told::At { place };
    }
    Told::Nothing
}

/// What the slots from a name's on tell of it, up to the first that tells something.
fn tell_all(slots: &[u32], entries: &[Entry], name: &Name) -> Told
    ensures { TellAll slots.now entries.now name.now result }
{
    let first = slot_of(slots, name);
    for step in 0..TRIES {
        match tell(slots, entries, first + step, name) {
            Told::At { place } => return Told::At { place },
            Told::Nowhere => return Told::Nowhere,
            Told::Nothing => {}
        }
    }
    Told::Nothing
}

/// Gives a slot a mark, where it is free, and says whether it was.
fn take_slot(slots: &mut Vec<u32>, slot: usize, mark: u32) -> bool
    requires { mark ≡ 0 → ⊥ }
    ensures stay { MarksStay slots.old.items slots.new.items }
    ensures taken { mark_at slots.new.items slot ≡ 0 → ⊥ }
    ensures it { IsTrue result → mark_at slots.new.items slot ≡ mark }
{
    if slot >= slots.len() || slots[slot] != 0 {
        return false;
    }
    slots[slot] = mark;
    true
}

/// Leads the first free one of a name's slots to a place, and says whether it did. Where the place is too far for a slot, all
/// of them are taken.
fn take_one(slots: &mut Vec<u32>, name: &Name, place: usize) -> bool
    ensures stay { MarksStay slots.old.items slots.new.items }
    ensures led { IsTrue result → IsLedFirst slots.new.items name.now place }
    ensures full { IsFalse result → AreTaken slots.new.items name.now 4 }
{
    let first = slot_of(slots.as_slice(), name);
    let near = place < FARTHEST;
    let mark = if near { place as u32 + 1 } else { 1 };
    for step in 0..TRIES {
        let took = take_slot(slots, first + step, mark);
        if took && near {
            return true;
        }
    }
    false
}

impl Places {
    /// No places, and no slots. It takes no memory.
    pub fn new(alloc: Global) -> Places
        ensures { IsPlaced result [] }
    {
        Places {
            slots: Vec::new(alloc),
            others: BTreeMap::new(alloc),
        }
    }

    /// No places, with slots for so many entries.
    fn with_room(alloc: Global, count: usize) -> Result<Places, Memory>
        ensures { IfOk result (λ places. IsPlaced places []) }
    {
        let mut slots = Vec::new(alloc);
        slots.resize(count.max(FEW).saturating_mul(SLOTS_AN_ENTRY), 0)?;
        Ok(Places {
            slots,
            others: BTreeMap::new(alloc),
        })
    }

    /// The place among these entries of the one that has a name.
    pub fn find(&self, entries: &[Entry], name: &Name) -> Option<usize>
        requires { IsPlaced self.now entries.now }
        ensures { IsFound entries.now name.now result }
    {
        match tell_all(self.slots.as_slice(), entries, name) {
            Told::At { place } => Some(place),
            Told::Nowhere => None,
            Told::Nothing => self.others.get(&key_of(name)).copied(),
        }
    }

    /// Leads a name to a place, by its slot where that is free.
    fn put(&mut self, name: &Name, place: usize) -> Result<(), Memory>
        ensures ok { OnOk result (IsPut self.old self.new name.now place) }
        ensures err { OnErr result (StaysPut self.old self.new) }
    {
        if take_one(&mut self.slots, name, place) {
            return Ok(());
        }
        self.others.insert(key_of(name), place)?;
        Ok(())
    }

    /// Makes the slots anew where they are few for these entries and one more.
    fn make_room(&mut self, entries: &[Entry]) -> Result<(), Memory>
        requires { IsPlaced self.old entries.now }
        ensures { IsPlaced self.new entries.now }
    {
        if self.slots.len() / 4 <= entries.len() {
            let (places, _fresh) = places_of(*self.slots.allocator(), entries)?;
            *self = places;
        }
        Ok(())
    }

    /// Leads the name of one entry more, which none of these has, to the place behind them.
    pub fn add(&mut self, entries: &[Entry], name: &Name) -> Result<(), Memory>
        requires { IsPlaced self.old entries.now }
        ensures ok { OnOk result ((e : Entry) → e.name ≡ name.now → HasItsChildren e → HasBytes e
            → body_of (bodies_in entries.now) e.name ≡ None → IsPlaced self.new (entries.now ++ e ∷ [])) }
        ensures err { OnErr result (IsPlaced self.new entries.now) }
    {
        self.make_room(entries)?;
        self.put(name, entries.len())
    }

    /// Forgets where the last entry stood. Its slot may stay, as it is looked at before it is believed.
    pub fn forget(&mut self, entry: &Entry)
        ensures { (es : List Entry) → IsPlaced self.old (es ++ entry.now ∷ []) → IsPlaced self.new es }
    {
        self.others.remove(&key_of(&entry.name));
    }
}

/// What lies in memory is made of bytes.
fn are_bytes(bytes: &[u8])
    ensures { AllByRecursion IsByte bytes.now }
{}

/// Knows of an entry that its body is made of bytes: it lies in memory. None of them is read.
pub fn has_bytes(entry: &Entry)
    ensures { HasBytes entry.now }
{
    are_bytes(entry.body.as_slice());
}

/// The places of the entries in front of the first whose name an earlier one has, and how many these are.
pub fn places_of(alloc: Global, entries: &[Entry]) -> Result<(Places, usize), Memory>
    requires { AllByRecursion HasItsChildren entries.now }
    ensures fresh { IfOk result (λ made. AreFresh entries.now made.1) }
    ensures placed { IfOk result (λ made. IsPlaced made.0 (take made.1 entries.now)) }
{
    let mut places = Places::with_room(alloc, entries.len())?;
    for place in 0..entries.len() {
        let name = &entries[place].name;
        if places.find(&entries[..place], name).is_some() {
            return Ok((places, place));
        }
        has_bytes(&entries[place]);
        places.put(name, place)?;
    }
    Ok((places, entries.len()))
}
