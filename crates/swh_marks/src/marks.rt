//! The marks of objects.
ghost use Rattle.std.specs.Prelude.{◌≡◌, ◌++◌, ◌∷◌, ◌<◌, [], IfOk, OnOk, Contains, length, get_or};
ghost use Rattle.swh_marks.specs.Marks.{is_written, written};
ghost use Rattle.swh_marks.specs.Others.{AreOthers};

use std::alloc::Global;
use std::collections::BTreeMap;
use std::marker::Model;
use swh_base::{Kind, Memory, Name};
use swh_postorder::Places;

/// Whether an object of this kind has a command of its own.
fn is_written(name: &Name) -> bool
    ensures { result ≡ is_written name.now }
{
    match name.kind {
        Kind::Content | Kind::Revision | Kind::Release => true,
        Kind::Directory | Kind::Snapshot => false,
    }
}

/// Adds a name, where it is written.
fn add_written(names: &mut Vec<Name>, name: Name) -> Result<(), Memory>
    ensures { OnOk result (names.new.items ≡ names.old.items ++ written (name ∷ [])) }
{
    if !is_written(&name) {
        return Ok(());
    }
    names.push(name)?;
    Ok(())
}

/// Those of the names that are written.
fn written_of(alloc: Global, order: &[Name]) -> Result<Vec<Name>, Memory>
    ensures { IfOk result (λ names. names.items ≡ written order.now) }
{
    let mut names = Vec::new(alloc);
    for name in order {
        add_written(&mut names, *name)?;
    }
    Ok(names)
}

/// The places of these names.
fn places_of(alloc: Global, names: &[Name]) -> Places {
    let mut places = Places::new(alloc, names.len());
    for (place, name) in names.iter().enumerate() {
        places.note(name, place);
    }
    places
}

/// The places of those of these names that the first places do not find, and of no others.
fn places_of_others(
    alloc: Global,
    places: &Places,
    names: &[Name],
) -> Result<BTreeMap<Name, usize>, Memory>
    ensures { IfOk result (AreOthers places.now names.now names.now) }
{
    let mut others = BTreeMap::new(alloc);
    for (place, name) in names.iter().enumerate() {
        if !places.lead(names, name) {
            others.insert(*name, place)?;
        }
    }
    Ok(others)
}

/// The place of a name among these. It is mostly found by the first places, and else the others have it.
fn place_among(
    places: &Places,
    others: &BTreeMap<Name, usize>,
    names: &[Name],
    name: &Name,
) -> usize
    requires there { Contains names.now name.now }
    requires others { AreOthers places.now names.now names.now others.now }
    ensures less { result < length names.now }
    ensures there { name.now ≡ get_or names.now result name.now }
{
    if let Some(place) = places.find(names, name) {
        return place;
    }
    match others.get(name) {
        Some(place) => *place,
        None => unreachable!(),
    }
}

/// Names in an order, each once, seen as the order. The mark of a name is one more than its place among those that are written.
/// Mostly that is found by the first places; where strangers have chosen ids that begin alike, or there is no memory for slots,
/// the others have it.
#[derive(Drop)]
pub struct Marks {
    order: Vec<Name>,
    marked: Vec<Name>,
    places: Places,
    others: BTreeMap<Name, usize>,
}

impl Model for Marks {
    ghost use Rattle.std.specs.Prelude.{◌≡◌, List};
    ghost use Rattle.swh_base.specs.declared.name.Name.{Name};
    ghost use Rattle.swh_marks.specs.Marks.{written, StandOnce};
    ghost use Rattle.swh_marks.specs.Others.{AreOthers};

    ghost Value = { List Name };

    ghost view = { λ m. m.order.items };

    ghost invariant = { λ m. StandOnce m.order.items × (m.marked.items ≡ written m.order.items)
        × AreOthers m.places m.marked.items m.marked.items m.others };
}

impl Marks {
    ghost use Rattle.std.specs.Prelude.{◌≡◌, IfOk, true, Contains};
    ghost use Rattle.swh_marks.specs.Marks.{mark_of, is_written, StandOnce};

    /// The marks of names in this order. Fails where memory runs out.
    pub fn new(alloc: Global, order: Vec<Name>) -> Result<Marks, Memory>
        requires { StandOnce order.items }
        ensures { IfOk result (λ marks. marks ≡ order.items) }
    {
        let marked = written_of(alloc, order.as_slice())?;
        let places = places_of(alloc, marked.as_slice());
        let others = places_of_others(alloc, &places, marked.as_slice())?;
        Ok(Marks {
            order,
            marked,
            places,
            others,
        })
    }

    /// The names where they lie.
    pub fn order(&self) -> &[Name]
        ensures { result.now ≡ self.now }
    {
        self.order.as_slice()
    }

    /// The mark of a name that is written.
    pub fn get(&self, name: &Name) -> u64
        requires there { Contains self.now name.now }
        requires written { is_written name.now ≡ true }
        ensures { result ≡ mark_of self.now name.now }
    {
        let marked = self.marked.as_slice();
        place_among(&self.places, &self.others, marked, name) as u64 + 1
    }
}
