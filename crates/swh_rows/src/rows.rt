//! Rows that have names.
ghost use Rattle.std.specs.Prelude.{◌≡◌, ◌<◌, ◌↔◌, List, Some, IsTrue, length, slice_get};
ghost use Rattle.std.specs.Option.{option_copied, option_map};
ghost use Rattle.swh_base.specs.declared.name.Name.{Name};
ghost use Rattle.swh_base.specs.declared.entry.Entry.{Entry};
ghost use Rattle.swh_rows.specs.Rows.{names_of, StandsAt};

use crate::pieces::Pieces;
use swh_base::{Entry, Name};

/// Rows, one behind another, each of which has a name.
pub trait Rows {
    /// The names of the rows, in their order.
    ghost names: { Self → List Name };

    /// How many rows there are. It takes no memory.
    fn len(&self) -> usize
        ensures { result ≡ length (names self.now) };

    /// The name of the row at a place, counted from zero; none where no row stands there. It takes no memory.
    fn name_at(&self, place: usize) -> Option<&Name>
        ensures { option_copied result ≡ slice_get (names self.now) place };
}

/// The item at a place.
pub(crate) fn item_at<T>(items: &[T], place: usize) -> Option<&T>
    ensures { option_copied result ≡ slice_get items.now place }
{
    items.get(place)
}

/// The name of an entry, where there is one.
fn name_of(entry: Option<&Entry>) -> Option<&Name>
    ensures { option_copied result ≡ option_map (λ (e : Entry). e.name) (option_copied entry.entry) }
{
    match entry {
        Some(entry) => Some(&entry.name),
        None => None,
    }
}

impl Rows for Vec<Name> {
    ghost names = { λ v. v.items };

    fn len(&self) -> usize {
        self.as_slice().len()
    }

    fn name_at(&self, place: usize) -> Option<&Name> {
        item_at(self.as_slice(), place)
    }
}

impl Rows for &[Name] {
    ghost names = { λ s. s.now };

    fn len(&self) -> usize {
        let names: &[Name] = self;
        names.len()
    }

    fn name_at(&self, place: usize) -> Option<&Name> {
        item_at(self, place)
    }
}

impl Rows for Vec<Entry> {
    ghost names = { λ v. names_of v.items };

    fn len(&self) -> usize {
        self.as_slice().len()
    }

    fn name_at(&self, place: usize) -> Option<&Name> {
        name_of(item_at(self.as_slice(), place))
    }
}

impl Rows for &[Entry] {
    ghost names = { λ s. names_of s.now };

    fn len(&self) -> usize {
        let entries: &[Entry] = self;
        entries.len()
    }

    fn name_at(&self, place: usize) -> Option<&Name> {
        name_of(item_at(self, place))
    }
}

impl Rows for Pieces<Entry> {
    ghost names = { names_of };

    fn len(&self) -> usize {
        Pieces::len(self)
    }

    fn name_at(&self, place: usize) -> Option<&Name> {
        name_of(self.at(place))
    }
}

fn is_same(a: &Name, b: &Name) -> bool
    ensures { IsTrue result ↔ (a.now ≡ b.now) }
{
    a == b
}

/// Whether the row at a place has a name.
pub(crate) fn stands_at<R: Rows>(rows: &R, place: usize, name: &Name) -> bool
    ensures { IsTrue result ↔ StandsAt (R.names rows.now) name.now place }
{
    match rows.name_at(place) {
        Some(found) => is_same(found, name),
        None => false,
    }
}

/// The name of the row at a place where one stands.
pub(crate) fn name_among<R: Rows>(rows: &R, place: usize) -> Name
    requires { place < length (R.names rows.now) }
    ensures { StandsAt (R.names rows.now) result place }
{
    match rows.name_at(place) {
        Some(name) => *name,
        None => unreachable!(),
    }
}
