//! Where the row of a name stands: of most names one slot tells at once whether and where.
use crate::front::Front;
use crate::key::key_of;
use crate::rows::{Rows, name_among, stands_at};
use crate::slots::{Told, take_one, tell_all};
use std::alloc::Global;
use std::collections::BTreeMap;
use swh_base::{Memory, Name};

/// There are slots for at least so many rows, once there are any.
const FEW: usize = 128;

/// How many slots there are for a row, where they were just made.
const SLOTS_A_ROW: usize = 4;

/// Where there are no more slots for a row than so many, they are made anew.
const FEW_SLOTS_A_ROW: usize = 2;

/// The places of rows of which no two have one name. A slot has one more than a place, or zero where it is free. The
/// place of a row stands in the first free one of the few slots from its name's on; whatever a slot has, the name of
/// the row at that place is looked at before it is believed. Rows that found none of these slots free have their places
/// in the map: hardly any, unless somebody chose their names, and then it costs what an ordered map does.
#[derive(Drop)]
pub struct Places {
    slots: Vec<u32>,
    others: BTreeMap<[u8; 21], usize>,
}

ghost use Rattle.std.specs.Prelude.{
  ◌≡◌,
  ◌++◌,
  ◌∷◌,
  ◌≤◌,
  [],
  ℕ,
  List,
  Some,
  IfOk,
  IfNone,
  IfSome,
  OnOk,
  OnErr,
  Contains,
  length,
  take,
};
ghost use Rattle.swh_base.specs.declared.name.Name.{Name};
ghost use Rattle.swh_rows.specs.Rows.{StandsAt, AreDistinct, AreFresh};
ghost use Rattle.swh_rows.specs.Slots.{NoneLeads};
ghost use Rattle.swh_rows.specs.Places.{IsPlaced, IsPut, StaysPut};

/// This place, where the row there has the name.
fn confirmed<R: Rows>(rows: &R, place: Option<usize>, name: &Name) -> Option<usize>
    ensures some { IfSome result (StandsAt (R.names rows.now) name.now) }
    ensures none { IfNone result ((k : ℕ) → place ≡ Some k → StandsAt (R.names rows.now) name.now k → ⊥) }
{
    let Some(place) = place else {
        return None;
    };
    if stands_at(rows, place, name) {
        return Some(place);
    }
    None
}

/// The places of rows of which no two have one name, in slots for so many rows, or for twice as many.
fn made_anew<R: Rows>(alloc: Global, rows: &R) -> Result<Places, Memory>
    requires { AreDistinct (R.names rows.now) }
    ensures { IfOk result (λ places. IsPlaced places (R.names rows.now)) }
{
    let count = rows.len();
    let mut places = Places::with_room(alloc, count)?;
    for place in 0..count {
        let name = name_among(rows, place);
        places.put(&name, place)?;
    }
    Ok(places)
}

impl Places {
    /// The places of no rows. It takes no memory.
    pub fn new(alloc: Global) -> Places
        ensures { IsPlaced result [] }
    {
        Places {
            slots: Vec::new(alloc),
            others: BTreeMap::new(alloc),
        }
    }

    /// The places of no rows, with slots for so many.
    fn with_room(alloc: Global, count: usize) -> Result<Places, Memory>
        ensures { IfOk result (λ places. IsPlaced places []) }
    {
        let mut slots = Vec::new(alloc);
        slots.resize(count.max(FEW).saturating_mul(SLOTS_A_ROW), 0)?;
        Ok(Places {
            slots,
            others: BTreeMap::new(alloc),
        })
    }

    /// The place that the map has of a name to whose row no slot leads.
    fn find_other<R: Rows>(&self, rows: &R, name: &Name) -> Option<usize>
        requires placed { IsPlaced self.now (R.names rows.now) }
        requires unled { NoneLeads self.now.slots.items (R.names rows.now) name.now 4 }
        ensures some { IfSome result (StandsAt (R.names rows.now) name.now) }
        ensures none { IfNone result (Contains (R.names rows.now) name.now → ⊥) }
    {
        confirmed(rows, self.others.get(&key_of(name)).copied(), name)
    }

    /// The place of the row that has a name; none where no row has it. It takes no memory.
    pub fn find<R: Rows>(&self, rows: &R, name: &Name) -> Option<usize>
        requires { IsPlaced self.now (R.names rows.now) }
        ensures some { IfSome result (StandsAt (R.names rows.now) name.now) }
        ensures none { IfNone result (Contains (R.names rows.now) name.now → ⊥) }
    {
        match tell_all(self.slots.as_slice(), rows, name) {
            Told::At { place } => Some(place),
            Told::Nowhere => None,
            Told::Nothing => self.find_other(rows, name),
        }
    }

    /// Leads a name to a place, by a slot where one is free.
    fn put(&mut self, name: &Name, place: usize) -> Result<(), Memory>
        ensures ok { OnOk result (IsPut self.old self.new name.now place) }
        ensures err { OnErr result (StaysPut self.old self.new) }
    {
        if take_one(&mut self.slots, name, place) {
            return Ok(());
        }
        self.others.insert(key_of(name), place)?;
        Ok(())
    }

    /// Makes the slots anew where they are few for these rows and one more.
    fn make_room<R: Rows>(&mut self, rows: &R) -> Result<(), Memory>
        requires { IsPlaced self.old (R.names rows.now) }
        ensures { IsPlaced self.new (R.names rows.now) }
    {
        if self.slots.len() / FEW_SLOTS_A_ROW <= rows.len() {
            let places = made_anew(*self.slots.allocator(), rows)?;
            *self = places;
        }
        Ok(())
    }

    /// Leads the name of one row more, which none of these has, to the place behind them. Where memory runs out, the
    /// names of these rows are found as before.
    pub fn add<R: Rows>(&mut self, rows: &R, name: &Name) -> Result<(), Memory>
        requires placed { IsPlaced self.old (R.names rows.now) }
        requires absent { Contains (R.names rows.now) name.now → ⊥ }
        ensures ok { OnOk result (IsPlaced self.new (R.names rows.now ++ name.now ∷ [])) }
        ensures err { OnErr result (IsPlaced self.new (R.names rows.now)) }
    {
        self.make_room(rows)?;
        self.put(name, rows.len())
    }

    /// Leads the names of all rows behind the first `count` to their places. Where memory runs out, the names of those
    /// first rows are found as before.
    pub fn add_rest<R: Rows>(&mut self, rows: &R, count: usize) -> Result<(), Memory>
        requires placed { IsPlaced self.old (take count (R.names rows.now)) }
        requires distinct { AreDistinct (R.names rows.now) }
        ensures ok { OnOk result (IsPlaced self.new (R.names rows.now)) }
        ensures err { OnErr result (IsPlaced self.new (take count (R.names rows.now))) }
    {
        let end = rows.len();
        for place in count..end {
            let name = name_among(rows, place);
            let front = Front { rows, count: place };
            if let Err(fault) = self.add(&front, &name) {
                self.forget_rest(rows, count, place);
                return Err(fault);
            }
        }
        Ok(())
    }

    /// Forgets where the last row stood. Its slot may stay, as it is looked at before it is believed.
    pub fn forget(&mut self, name: &Name)
        ensures { (names : List Name) → IsPlaced self.old (names ++ name.now ∷ []) → IsPlaced self.new names }
    {
        self.others.remove(&key_of(name));
    }

    /// Forgets where the rows from one place up to another stand, which are the last ones.
    pub fn forget_rest<R: Rows>(&mut self, rows: &R, count: usize, end: usize)
        requires within { end ≤ length (R.names rows.now) }
        requires placed { IsPlaced self.old (take end (R.names rows.now)) }
        requires ordered { count ≤ end }
        ensures { IsPlaced self.new (take count (R.names rows.now)) }
    {
        let mut place = end;
        while place > count {
            place -= 1;
            let name = name_among(rows, place);
            self.forget(&name);
        }
    }

    /// Equal places. Fails where memory runs out.
    pub fn again(&self, alloc: Global) -> Result<Places, Memory>
        ensures { IfOk result (λ places. (names : List Name) → IsPlaced self.now names → IsPlaced places names) }
    {
        let slots = Vec::from_slice(alloc, self.slots.as_slice())?;
        let others = self.others.clone()?;
        Ok(Places { slots, others })
    }
}

/// The places of the rows in front of the first whose name an earlier one has, and how many these are. Fails where
/// memory runs out.
pub fn places_of<R: Rows>(alloc: Global, rows: &R) -> Result<(Places, usize), Memory>
    ensures fresh { IfOk result (λ made. AreFresh (R.names rows.now) made.1) }
    ensures placed { IfOk result (λ made. IsPlaced made.0 (take made.1 (R.names rows.now))) }
{
    let count = rows.len();
    let mut places = Places::with_room(alloc, count)?;
    for place in 0..count {
        let name = name_among(rows, place);
        let front = Front { rows, count: place };
        if places.find(&front, &name).is_some() {
            return Ok((places, place));
        }
        places.put(&name, place)?;
    }
    Ok((places, count))
}

// What another thread may be handed.
fn is_sent<T: Send>(_value: &T) {}

// What several threads may look at.
fn is_shared<T: Sync>(_value: &T) {}

/// Places may be handed to another thread.
pub fn places_are_sent(places: &Places) {
    is_sent(places)
}

/// Several threads may look at places.
pub fn places_are_shared(places: &Places) {
    is_shared(places)
}
