//! What is held in memory.
use crate::adding::{Standing, add_batch, standing_of};
use crate::entries::Held;
use crate::fault::StoreFault;
use std::alloc::Global;
use std::marker::Model;
use swh_base::{Entry, Graph, Memory, Name};

/// A finite map from names to entries, seen as one to bodies and one to children. A body stands in memory once, and is
/// shared with the entries that are added. Strangers choose names: the few slots tried for one, and an ordered map behind
/// them, keep any look-up within the logarithm of the number of names.
#[derive(Drop)]
pub struct Store {
    pub(crate) held: Held,
}

impl Model for Store {
    ghost use Rattle.swh_store.specs.Stored.{Stored, stored_code};
    ghost use Rattle.swh_store.specs.Entries.{stored_in};
    ghost use Rattle.swh_store.specs.Places.{IsIndexed};

    ghost Value = { Stored };

    ghost coded = { stored_code };

    ghost view = { λ s. stored_in s.held.entries.items };

    ghost invariant = { λ s. IsIndexed s.held };
}

impl Store {
    ghost use Rattle.std.specs.Prelude.{◌≡◌, ◌<◌, ◌^◌, ◌↔◌, IsTrue, None, IfOk, IfErr, IfSome, IfNone, OnOk, OnErr, length};
    ghost use Rattle.std.specs.List.{AllByRecursion};
    ghost use Rattle.std.specs.FinMap as finite;
    ghost use Rattle.swh_base.specs.declared.name.Name.{Name};
    ghost use Rattle.swh_model.specs.Archive.{AreAllOfBytes, body_of, IsHeld, IsGraphOf};
    ghost use Rattle.swh_model.specs.Step.{HasItsChildren, AreNew, added};
    ghost use Rattle.swh_model.specs.Judge.{not_held, Collides};
    ghost use Rattle.swh_store.specs.Stored.{IsEntryOf, children_in, empty_store};
    ghost use Rattle.swh_store.specs.Adding.{IsStanding, IsStoreFault};

    pub fn new(alloc: Global) -> Store
        ensures { result ≡ empty_store }
    {
        Store {
            held: Held::new(alloc),
        }
    }

    /// The entry that is held under a name. It takes no memory.
    pub fn get(&self, name: &Name) -> Option<&Entry>
        ensures some { IfSome result (λ entry. IsEntryOf self.now name.now entry.now) }
        ensures none { IfNone result (body_of self.now.bodies name.now ≡ None) }
        ensures childless { IfNone result (children_in self.now name.now ≡ None) }
    {
        self.held.get(name)
    }

    /// Says whether a body is held under a name. It takes no memory.
    pub fn has(&self, name: &Name) -> bool
        ensures { IsTrue result ↔ IsHeld self.now.bodies name.now }
    {
        self.get(name).is_some()
    }

    /// How an entry stands to what is held. It takes no memory.
    pub fn standing(&self, entry: &Entry) -> Standing
        ensures { IsStanding self.now.bodies entry.now result }
    {
        standing_of(&self.held, entry)
    }

    /// Adds a batch, in which entries may be held already, and answers how many were new. Fails with the name that would
    /// have two bodies, exactly where there is one, and for want of memory; the store is then as it was.
    pub fn add(&mut self, entries: &[Entry]) -> Result<u32, StoreFault>
        requires good { AllByRecursion HasItsChildren entries.now }
        requires few { length entries.now < 2 ^ 32 }
        ensures ok { OnOk result (self.new.bodies ≡ added self.old.bodies (not_held self.old.bodies entries.now)) }
        ensures count { IfOk result (λ new. new ≡ length (not_held self.old.bodies entries.now)) }
        ensures distinct { OnOk result ((name : Name) → Collides self.old.bodies entries.now name → ⊥) }
        ensures fault { IfErr result (IsStoreFault self.old.bodies entries.now) }
        ensures err { OnErr result (self.new ≡ self.old) }
    {
        add_batch(&mut self.held, entries)
    }

    /// Adds entries that are not held, and no two of one name.
    pub fn add_new(&mut self, entries: &[Entry]) -> Result<(), Memory>
        requires good { AllByRecursion HasItsChildren entries.now }
        requires absent { AreNew self.old.bodies entries.now }
        ensures ok { OnOk result (self.new.bodies ≡ added self.old.bodies entries.now) }
        ensures err { OnErr result (self.new ≡ self.old) }
    {
        self.held.push_all(entries)
    }

    /// How many bodies are held. It takes no memory.
    pub fn len(&self) -> usize
        ensures { result ≡ finite.len self.now.bodies }
    {
        self.held.entries.len()
    }

    /// The graph of a store is that of its bodies.
    pub fn is_graph(&self)
        ensures { IsGraphOf self.now.bodies (children_in self.now) }
    {
        let _count = self.held.entries.len();
    }

    /// The bodies are made of bytes. None of them is read.
    pub fn is_of_bytes(&self)
        ensures { AreAllOfBytes self.now.bodies }
    {
        let _count = self.held.entries.len();
    }
}

impl Graph for Store {
    ghost use Rattle.swh_store.specs.Stored.{children_in};

    ghost children_of = { children_in };

    fn children_of(&self, name: &Name) -> Option<&[Name]> {
        match self.get(name) {
            Some(entry) => Some(entry.kids.as_slice()),
            None => None,
        }
    }
}
