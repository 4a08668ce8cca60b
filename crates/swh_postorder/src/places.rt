//! Where names stand in a list: a name that is looked for is mostly found at once.
ghost use Rattle.std.specs.Prelude.{◌<◌, ◌%◌, ◌^◌, ◌↔◌, ◌≡◌, ℕ, Some, IsTrue, IfSome, SomeIff, Contains, length, get_or};
ghost use Rattle.swh_postorder.specs.Places.{number_of, mark_at, Stands, Tells, Leads, IsLed};

use std::alloc::Global;
use std::marker::Model;
use swh_base::Name;

/// How many slots are tried for a name. Ids that no stranger has chosen need a few.
const TRIES: usize = 128;

/// What a slot tells of a name.
#[derive(Clone, Copy, Debug, PartialEq, Eq)]
pub(crate) enum Seen {
    Here { place: usize },
    Other,
    Nothing,
}

/// The places of names in a list, in slots by the first bytes of their ids, seen as these slots: one more than the place, or
/// zero for none. Whatever a slot tells is looked at before it is believed. So where names that strangers have chosen take
/// each other's slots, or there is no memory for slots, a name is not found, which costs time alone.
#[derive(Drop)]
pub struct Places {
    slots: Vec<u32>,
}

fn is_same(a: &Name, b: &Name) -> bool
    ensures { IsTrue result ↔ (a.now ≡ b.now) }
{
    a == b
}

/// The number of the first four bytes of a name's id.
fn number_of(name: &Name) -> usize
    ensures number { result ≡ number_of name.now }
    ensures below { result < 2 ^ 32 }
{
    u32::from_le_bytes([name.id[0], name.id[1], name.id[2], name.id[3]]) as usize
}

/// Whether a name stands at this place.
fn stands(names: &[Name], name: &Name, place: usize) -> bool
    ensures { IsTrue result ↔ Stands names.now name.now place }
{
    match names.get(place) {
        Some(found) => is_same(found, name),
        None => false,
    }
}

impl Model for Places {
    ghost use Rattle.std.specs.Prelude.{ℕ, List};

    ghost Value = { List ℕ };

    ghost view = { λ places. places.slots.items };
}

impl Places {
    /// Slots for the places of so many names.
    pub fn new(alloc: Global, count: usize) -> Places {
        let mut slots = Vec::new(alloc);
        let _ = slots.resize(count.saturating_mul(2), 0);
        Places { slots }
    }

    /// Slots for twice as many names, which begin with these. Where memory runs out the old ones stay.
    fn renew(&mut self, names: &[Name]) {
        let mut slots = Vec::new(*self.slots.allocator());
        if slots.resize(names.len().saturating_mul(4), 0).is_err() {
            return;
        }
        self.slots = slots;
        for (place, name) in names.iter().enumerate() {
            self.note(name, place);
        }
    }

    /// Remembers the place of the last of these names, where it remembered those of the others.
    pub fn follow(&mut self, names: &[Name]) {
        if self.slots.len() < names.len().saturating_mul(2) {
            return self.renew(names);
        }
        if let Some((name, others)) = names.split_last() {
            self.note(name, others.len());
        }
    }

    /// The slot of a number, if there are any.
    fn slot(&self, number: usize) -> Option<usize>
        ensures { SomeIff result (0 < length self.now) (number % length self.now) }
    {
        number.checked_rem(self.slots.len())
    }

    /// What the slot of a number has. Where there are no slots, it is as free.
    fn mark_at(&self, number: usize) -> u32
        ensures { result ≡ mark_at self.now number }
    {
        let Some(slot) = self.slot(number) else {
            return 0;
        };
        match self.slots.get(slot) {
            Some(mark) => *mark,
            None => 0,
        }
    }

    /// What the slot of a number tells of a name among these.
    fn see(&self, names: &[Name], name: &Name, number: usize) -> Seen
        ensures { Tells self.now names.now name.now number result }
    {
        let mark = self.mark_at(number);
        if mark == 0 {
            return Seen::Nothing;
        }
        let place = mark as usize - 1;
        if stands(names, name, place) {
            return Seen::Here { place };
        }
        Seen::Other
    }

    /// The place among these where the slots find a name. Where they do not, it may be there all the same.
    pub fn find(&self, names: &[Name], name: &Name) -> Option<usize>
        ensures there { IfSome result (λ place. (place < length names.now) × (name.now ≡ get_or names.now place name.now)) }
        ensures led { (place : ℕ) → (result ≡ Some place) ↔ Leads self.now names.now name.now place }
    {
        let number = number_of(name);
        for step in 0..TRIES {
            match self.see(names, name, number + step) {
                Seen::Here { place } => return Some(place),
                Seen::Nothing => return None,
                Seen::Other => {}
            }
        }
        None
    }

    /// Whether the slots find a name among these. Where they do not, it may be there all the same.
    pub fn lead(&self, names: &[Name], name: &Name) -> bool
        ensures there { IsTrue result → Contains names.now name.now }
        ensures led { IsTrue result ↔ IsLed self.now names.now name.now }
    {
        match self.find(names, name) {
            Some(_) => true,
            None => false,
        }
    }

    /// Puts a mark into the slot of a number, if that is empty; answers whether it was.
    fn put(&mut self, number: usize, mark: u32) -> bool {
        let Some(slot) = self.slot(number) else {
            return false;
        };
        let Some(there) = self.slots.get_mut(slot) else {
            return false;
        };
        if *there != 0 {
            return false;
        }
        *there = mark;
        true
    }

    /// Remembers the place of a name.
    pub fn note(&mut self, name: &Name, place: usize) {
        let Ok(place) = u32::try_from(place) else {
            return;
        };
        let Some(mark) = place.checked_add(1) else {
            return;
        };
        let number = number_of(name);
        for step in 0..TRIES {
            if self.put(number + step, mark) {
                return;
            }
        }
    }
}
