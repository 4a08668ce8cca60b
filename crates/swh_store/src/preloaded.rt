//! The entries of a whole history, of which a front is shown.
use crate::entries::Held;
use crate::places::places_of;
use crate::store::Store;
use std::alloc::Global;
use std::marker::Model;
use swh_base::{Entry, Graph, Memory, Name};

/// The entries of a whole history in the order of their adding, of which a front is shown as a store. Those in front of
/// the first whose name an earlier one has are found by their names; of the others none is ever shown.
#[derive(Drop)]
pub struct Preloaded {
    held: Held,
    /// How many entries stand in front of the first whose name an earlier one has.
    fresh: usize,
    /// How many entries are shown, from the first on.
    shown: usize,
}

impl Model for Preloaded {
    ghost use Rattle.swh_store.specs.Front.{Front, front_code, front_of, IsPreloaded};

    ghost Value = { Front };

    ghost coded = { front_code };

    ghost view = { λ p. front_of p.held.entries.items p.shown };

    ghost invariant = { λ p. IsPreloaded p.held p.fresh p.shown };
}

impl Preloaded {
    ghost use Rattle.std.specs.Prelude.{◌≡◌, ◌≤◌, ◌↔◌, [], None, false, IsTrue, IfOk, IfSome, IfNone, length, take, drop};
    ghost use Rattle.std.specs.List.{AllByRecursion};
    ghost use Rattle.swh_model.specs.Archive.{body_of, IsHeld, IsGraphOf};
    ghost use Rattle.swh_model.specs.Step.{HasItsChildren, AreNew, added};
    ghost use Rattle.swh_store.specs.Stored.{IsEntryOf, children_in, empty_store};

    /// All entries of a history, of which none is shown.
    pub fn of(alloc: Global, entries: Vec<Entry>) -> Result<Preloaded, Memory>
        requires { AllByRecursion HasItsChildren entries.items }
        ensures none { IfOk result (λ preloaded. preloaded.shown ≡ empty_store) }
        ensures rest { IfOk result (λ preloaded. preloaded.rest ≡ entries.items) }
    {
        let (places, fresh) = places_of(alloc, entries.as_slice())?;
        let held = Held { places, entries };
        let shown = 0;
        Ok(Preloaded { held, fresh, shown })
    }

    /// Shows so many entries more where they are new, and says whether they are. It takes no memory.
    pub fn show(&mut self, count: usize) -> bool
        requires { count ≤ length self.old.rest }
        ensures new { IsTrue result ↔ AreNew self.old.shown.bodies (take count self.old.rest) }
        ensures shown { IsTrue result → self.new.shown.bodies
            ≡ added self.old.shown.bodies (take count self.old.rest) }
        ensures rest { IsTrue result → self.new.rest ≡ drop count self.old.rest }
        ensures same { result ≡ false → self.new ≡ self.old }
    {
        if count > self.fresh - self.shown {
            return false;
        }
        self.shown += count;
        true
    }

    /// The entry that is shown under a name. It takes no memory.
    pub fn get(&self, name: &Name) -> Option<&Entry>
        ensures some { IfSome result (λ entry. IsEntryOf self.now.shown name.now entry.now) }
        ensures none { IfNone result (body_of self.now.shown.bodies name.now ≡ None) }
        ensures childless { IfNone result (children_in self.now.shown name.now ≡ None) }
    {
        let fresh = &self.held.entries[..self.fresh];
        let place = self.held.places.find(fresh, name)?;
        if place < self.shown {
            Some(&self.held.entries[place])
        } else {
            None
        }
    }

    /// Says whether a body is shown under a name. It takes no memory.
    pub fn has(&self, name: &Name) -> bool
        ensures { IsTrue result ↔ IsHeld self.now.shown.bodies name.now }
    {
        self.get(name).is_some()
    }

    /// The graph of what is shown is that of its bodies.
    pub fn is_graph(&self)
        ensures { IsGraphOf self.now.shown.bodies (children_in self.now.shown) }
    {
        let _shown = self.shown;
    }

    /// The store of the entries, of which all are shown. It takes no memory, and no time that grows with their number.
    pub fn into_store(self) -> Store
        requires { self.rest ≡ [] }
        ensures { result ≡ self.shown }
    {
        let Preloaded { held, .. } = self;
        Store { held }
    }
}

impl Graph for Preloaded {
    ghost use Rattle.swh_store.specs.Stored.{children_in};

    ghost children_of = { λ p. children_in p.shown };

    fn children_of(&self, name: &Name) -> Option<&[Name]> {
        match self.get(name) {
            Some(entry) => Some(entry.kids.as_slice()),
            None => None,
        }
    }
}
