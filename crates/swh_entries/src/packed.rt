//! A folder's entries: in the room that they need, or in pieces while many of them are changed.

ghost use Rattle.std.specs.Prelude.{◌≡◌, ◌<◌, ◌≤◌, ◌+◌, [], length, min, slice_index_or, IfOk};
ghost use Rattle.std.specs.List.{insert, remove};
ghost use Rattle.swh_entries.specs.declared.entry.Entry.{Entry};

use crate::entry::{Entry, Gap};
use crate::packing::Flat;
use crate::spans::Spans;
use std::alloc::{AllocError, Global};
use std::marker::Model;

/// A folder of more entries is cut into pieces before it is changed.
const FEW: usize = 64;

/// How many entries a change of one in pieces makes anew, or what takes as much room as they do.
const CHANGE: usize = 32;

/// How entries are kept: in the room that they need, or, ready for changes, in one list or in pieces.
#[derive(Drop)]
pub enum Form {
    Flat(Flat),
    Loose(Vec<Entry>),
    Cut(Spans),
}

/// The entries of one folder. Contracts see their list.
pub struct Packed {
    form: Form,
    /// How many entries were made for it, others being shared.
    cost: usize,
}

/// Written out, so that callers have one call here and not all that the forms own.
impl Drop for Packed {
    fn drop(self) {
        let Self { form: _, cost: _ } = self;
    }
}

impl Model for Packed {
    ghost use Rattle.swh_entries.specs.Listed.{Listed};

    ghost Value = { Listed };

    ghost use Rattle.swh_entries.specs.Forms.{items_in, is_cut};

    ghost view = { λ p. record { items = items_in p.form; cost = p.cost; shares = is_cut p.form } };
}

/// These entries, ready for changes: cut where they are many.
fn ready(alloc: Global, entries: Vec<Entry>) -> Result<Packed, AllocError>
    ensures items { IfOk result (λ p. p.items ≡ entries.items) }
    ensures cost { IfOk result (λ p. p.cost ≡ length entries.items) }
{
    let cost = entries.len();
    if cost <= FEW {
        return Ok(Packed {
            form: Form::Loose(entries),
            cost,
        });
    }
    let spans = Spans::of(alloc, entries.as_slice())?;
    Ok(Packed {
        form: Form::Cut(spans),
        cost,
    })
}

/// What a change made of pieces that cost so much.
fn changed(spans: Spans, cost: usize) -> Packed
    ensures items { result.items ≡ spans.items }
    ensures cost { result.cost ≡ min (cost + 32) (length spans.items) }
{
    let all = spans.len();
    let cost = cost.saturating_add(CHANGE).min(all);
    Packed {
        form: Form::Cut(spans),
        cost,
    }
}

impl Packed {
    ghost use Rattle.std.specs.List.{slice_get};
    ghost use Rattle.swh_entries.specs.Gaps.{gap_at};
    ghost use Rattle.swh_entries.specs.Listed.{cost_again, cost_changed};

    /// No entry.
    pub fn none(alloc: Global) -> Packed
        ensures items { result.items ≡ [] }
        ensures cost { result.cost ≡ 0 }
    {
        Packed {
            form: Form::Flat(Flat::none(alloc)),
            cost: 0,
        }
    }

    /// These entries, in the room that they need. Fails where memory runs out, as it has long before there are 2^32
    /// names or folders.
    pub fn of(alloc: Global, entries: &[Entry]) -> Result<Packed, AllocError>
        ensures items { IfOk result (λ p. p.items ≡ entries.now) }
        ensures cost { IfOk result (λ p. p.cost ≡ length entries.now) }
    {
        let flat = Flat::of(alloc, entries)?;
        Ok(Packed {
            form: Form::Flat(flat),
            cost: entries.len(),
        })
    }

    /// How many entries there are.
    pub fn len(&self) -> usize
        ensures { result ≡ length self.now.items }
    {
        match &self.form {
            Form::Flat(flat) => flat.len(),
            Form::Loose(entries) => entries.len(),
            Form::Cut(spans) => spans.len(),
        }
    }

    /// How many entries were made for it, others being shared.
    pub fn cost(&self) -> usize
        ensures { result ≡ self.now.cost }
    {
        self.cost
    }

    /// The entry at a place.
    pub fn at(&self, place: usize) -> Entry
        requires { place < length self.now.items }
        ensures { (d : Entry) → result ≡ slice_index_or self.now.items place d }
    {
        match &self.form {
            Form::Flat(flat) => flat.at(place),
            Form::Loose(entries) => entries[place],
            Form::Cut(spans) => spans.at(place),
        }
    }

    /// The entry at a place, where there is one.
    fn get(&self, place: usize) -> Option<Entry>
        ensures { result ≡ slice_get self.now.items place }
    {
        if place < self.len() {
            return Some(self.at(place));
        }
        None
    }

    /// A place, with the entries on both sides of it.
    pub fn gap(&self, place: usize) -> Gap
        ensures { result ≡ gap_at self.now.items place }
    {
        if let Form::Cut(spans) = &self.form {
            return spans.gap(place);
        }
        let at = self.get(place);
        if place == 0 {
            return Gap {
                place,
                before: None,
                at,
            };
        }
        let before = self.get(place - 1);
        Gap { place, before, at }
    }

    /// A place at which to look for a name, with what it is compared with after it.
    pub fn guess(&self, names: &[Vec<u8>], name: &[u8], end: &[u8]) -> usize {
        match &self.form {
            Form::Flat(flat) => flat.len(),
            Form::Loose(entries) => entries.len(),
            Form::Cut(spans) => spans.guess(names, name, end),
        }
    }

    /// A place at which to look first: the end, or, while there are many, behind the entry that was put there last.
    pub fn hint(&self) -> usize {
        match &self.form {
            Form::Flat(flat) => flat.len(),
            Form::Loose(entries) => entries.len(),
            Form::Cut(spans) => spans.hint(),
        }
    }

    /// The same entries, of which one was looked for at this place.
    pub fn hinted(self, place: usize) -> Packed
        ensures { result ≡ self }
    {
        let Self { form, cost } = self;
        match form {
            Form::Cut(spans) => Packed {
                form: Form::Cut(spans.hinted(place)),
                cost,
            },
            form => Packed { form, cost },
        }
    }

    /// A copy of the entries. Fails where memory runs out.
    pub fn entries(&self, alloc: Global) -> Result<Vec<Entry>, AllocError>
        ensures { IfOk result (λ v. v.items ≡ self.now.items) }
    {
        match &self.form {
            Form::Flat(flat) => flat.entries(alloc),
            Form::Loose(entries) => Ok(Vec::from_slice(alloc, entries.as_slice())?),
            Form::Cut(spans) => spans.entries(alloc),
        }
    }

    /// The same entries, ready for changes. Fails where memory runs out.
    pub fn again(&self, alloc: Global) -> Result<Packed, AllocError>
        ensures items { IfOk result (λ p. p.items ≡ self.now.items) }
        ensures cost { IfOk result (λ p. p.cost ≡ cost_again self.now) }
    {
        match &self.form {
            Form::Flat(flat) => ready(alloc, flat.entries(alloc)?),
            Form::Loose(entries) => ready(alloc, Vec::from_slice(alloc, entries.as_slice())?),
            Form::Cut(spans) => Ok(Packed {
                form: Form::Cut(spans.again()?),
                cost: 0,
            }),
        }
    }

    /// One entry more, at a place. Fails where memory runs out.
    pub fn with(self, alloc: Global, place: usize, entry: Entry) -> Result<Packed, AllocError>
        requires { place ≤ length self.items }
        ensures items { IfOk result (λ p. p.items ≡ insert self.items place entry) }
        ensures cost { IfOk result (λ p. p.cost ≡ cost_changed self p.items) }
    {
        let Self { form, cost } = self;
        match form {
            Form::Flat(flat) => {
                let mut entries = flat.entries(alloc)?;
                entries.insert(place, entry)?;
                ready(alloc, entries)
            }
            Form::Loose(loose) => {
                let mut entries = loose;
                entries.insert(place, entry)?;
                ready(alloc, entries)
            }
            Form::Cut(spans) => Ok(changed(spans.with(alloc, place, entry)?, cost)),
        }
    }

    /// All entries but the one at a place. Fails where memory runs out.
    pub fn without(self, alloc: Global, place: usize) -> Result<Packed, AllocError>
        requires { place < length self.items }
        ensures items { IfOk result (λ p. p.items ≡ remove self.items place) }
        ensures cost { IfOk result (λ p. p.cost ≡ cost_changed self p.items) }
    {
        let Self { form, cost } = self;
        match form {
            Form::Flat(flat) => {
                let mut entries = flat.entries(alloc)?;
                let _ = entries.remove(place);
                ready(alloc, entries)
            }
            Form::Loose(loose) => {
                let mut entries = loose;
                let _ = entries.remove(place);
                ready(alloc, entries)
            }
            Form::Cut(spans) => Ok(changed(spans.without(alloc, place)?, cost)),
        }
    }
}
