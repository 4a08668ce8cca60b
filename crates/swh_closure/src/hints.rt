//! Where names were found in a list: a name that is looked for again and again is then found at once.
ghost use Rattle.std.specs.Prelude.{◌<◌, ◌^◌, ◌↔◌, ◌≡◌, IsTrue, Contains};

use std::alloc::Global;
use swh_base::Name;

const PLACES: usize = 65_536;

/// The names of a list that is too short for its hints to save time.
const FEW: usize = 4_096;

/// How many names are looked at, from the hinted one on, before the list is searched.
const NEAR: usize = 8;

/// Where the last name of each two first bytes was found, and before one was found the first of them in the list. It has
/// none for a short list, and where there was no memory for them, which costs time alone; and whatever it says is looked at
/// before it is believed.
#[derive(Drop)]
pub struct Hints {
    places: Vec<u32>,
}

fn is_same(a: &Name, b: &Name) -> bool
    ensures { IsTrue result ↔ (a.now ≡ b.now) }
{
    a == b
}

/// The number of the two first bytes of a name's id.
fn number_of(name: &Name) -> usize
    ensures { result < 2 ^ 16 }
{
    name.id[0] as usize * 256 + name.id[1] as usize
}

/// Whether the list has the name at one of a few places from this one on.
fn stands_near(names: &[Name], first: usize, name: &Name) -> bool
    ensures { IsTrue result → Contains names.now name.now }
{
    let end = names.len().min(first.saturating_add(NEAR));
    for place in first..end {
        if is_same(&names[place], name) {
            return true;
        }
    }
    false
}

impl Hints {
    /// Hints for a list, of which a short one has none.
    pub fn new(alloc: Global, names: &[Name]) -> Hints {
        let mut places = Vec::new(alloc);
        if names.len() < FEW {
            return Hints { places };
        }
        let _ = places.resize(PLACES, 0);
        let mut hints = Hints { places };
        for (place, name) in names.iter().enumerate().rev() {
            hints.note(name, place);
        }
        hints
    }

    /// Whether the list has the name where the last one of its first bytes was found, or shortly behind. Where it does not,
    /// it may have it elsewhere.
    pub fn leads(&self, names: &[Name], name: &Name) -> bool
        ensures { IsTrue result → Contains names.now name.now }
    {
        match self.places.get(number_of(name)) {
            Some(place) => stands_near(names, *place as usize, name),
            None => false,
        }
    }

    /// Remembers where a name was found.
    pub fn note(&mut self, name: &Name, place: usize) {
        let number = number_of(name);
        if number >= self.places.len() {
            return;
        }
        if let Ok(place) = u32::try_from(place) {
            self.places[number] = place;
        }
    }
}
