//! Slots of names: of most names the first one tells whether and where a row of it stands.
ghost use Rattle.std.specs.Prelude.{◌≡◌, ◌≤◌, IsTrue, IsFalse, length};
ghost use Rattle.swh_rows.specs.Slots.{
  number_of,
  slot_of,
  mark_at,
  Tells,
  TellAll,
  MarksStay,
  AreTaken,
  IsLedFirst,
};

use crate::rows::{Rows, stands_at};
use swh_base::Name;

/// In how many slots, from that of its name on, the place of a row may stand.
const TRIES: usize = 4;

/// The first place that is too far for a slot.
const FARTHEST: usize = 4_294_967_295;

/// The number of the first four bytes of a name's id.
fn number_of(name: &Name) -> usize
    ensures { result ≡ number_of name.now }
{
    u32::from_be_bytes([name.id[0], name.id[1], name.id[2], name.id[3]]) as usize
}

/// The slot of a name. Where there are no slots it is one that is not there.
fn slot_of(slots: &[u32], name: &Name) -> usize
    ensures slot { result ≡ slot_of slots.now name.now }
    ensures within { result ≤ length slots.now }
{
    if slots.is_empty() {
        return 0;
    }
    number_of(name) % slots.len()
}

/// What a slot has. One that is not there leads to the first place.
fn mark_at(slots: &[u32], slot: usize) -> u32
    ensures { result ≡ mark_at slots.now slot }
{
    match slots.get(slot) {
        Some(mark) => *mark,
        None => 1,
    }
}

/// What slots tell of a name.
#[derive(Clone, Copy)]
pub(crate) enum Told {
    At { place: usize },
    Nowhere,
    Nothing,
}

/// What a slot tells of a name among the rows.
fn tell<R: Rows>(slots: &[u32], rows: &R, slot: usize, name: &Name) -> Told
    ensures { Tells slots.now (R.names rows.now) slot name.now result }
{
    let mark = mark_at(slots, slot);
    if mark == 0 {
        return Told::Nowhere;
    }
    let place = mark as usize - 1;
    if stands_at(rows, place, name) {
        return Told::At { place };
    }
    Told::Nothing
}

/// What the slots from a name's on tell of it, up to the first that tells something.
pub(crate) fn tell_all<R: Rows>(slots: &[u32], rows: &R, name: &Name) -> Told
    ensures { TellAll slots.now (R.names rows.now) name.now result }
{
    let first = slot_of(slots, name);
    for step in 0..TRIES {
        match tell(slots, rows, first + step, name) {
            Told::At { place } => return Told::At { place },
            Told::Nowhere => return Told::Nowhere,
            Told::Nothing => {}
        }
    }
    Told::Nothing
}

/// Gives a slot a mark, where it is free, and says whether it was.
fn take_slot(slots: &mut Vec<u32>, slot: usize, mark: u32) -> bool
    requires { mark ≡ 0 → ⊥ }
    ensures stay { MarksStay slots.old.items slots.new.items }
    ensures taken { mark_at slots.new.items slot ≡ 0 → ⊥ }
    ensures it { IsTrue result → mark_at slots.new.items slot ≡ mark }
{
    if slot >= slots.len() || slots[slot] != 0 {
        return false;
    }
    slots[slot] = mark;
    true
}

/// Leads the first free one of a name's slots to a place, and says whether it did. Where the place is too far for a
/// slot, all of them are taken.
pub(crate) fn take_one(slots: &mut Vec<u32>, name: &Name, place: usize) -> bool
    ensures stay { MarksStay slots.old.items slots.new.items }
    ensures led { IsTrue result → IsLedFirst slots.new.items name.now place }
    ensures full { IsFalse result → AreTaken slots.new.items name.now 4 }
{
    let first = slot_of(slots.as_slice(), name);
    let near = place < FARTHEST;
    let mark = if near { place as u32 + 1 } else { 1 };
    for step in 0..TRIES {
        let took = take_slot(slots, first + step, mark);
        if took && near {
            return true;
        }
    }
    false
}
