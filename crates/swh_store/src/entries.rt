//! Entries in the order of their adding, and the place of each by its name's key.
use crate::places::{Places, has_bytes};
use std::alloc::Global;
use swh_base::{Entry, Memory, Name};

/// Entries of which no two have one name, and where each stands. Those that were added last can be taken out again, which
/// wants no memory.
#[derive(Drop)]
pub struct Held {
    pub places: Places,
    pub entries: Vec<Entry>,
}

impl Held {
    ghost use Rattle.std.specs.Prelude.{◌≡◌, ◌-◌, ◌∷◌, ◌++◌, [], None, IfSome, IfNone, OnOk, OnErr, length, take};
    ghost use Rattle.std.specs.List.{AllByRecursion};
    ghost use Rattle.swh_model.specs.Archive.{body_of};
    ghost use Rattle.swh_model.specs.Step.{HasItsChildren, AreNew};
    ghost use Rattle.swh_store.specs.Stored.{IsEntryOf};
    ghost use Rattle.swh_store.specs.Entries.{bodies_in, stored_in};
    ghost use Rattle.swh_store.specs.Places.{IsIndexed};

    /// No entries. It takes no memory.
    pub fn new(alloc: Global) -> Held
        ensures indexed { IsIndexed result }
        ensures none { result.entries.items ≡ [] }
    {
        Held {
            places: Places::new(alloc),
            entries: Vec::new(alloc),
        }
    }

    /// The entry of a name.
    pub fn get(&self, name: &Name) -> Option<&Entry>
        requires { IsIndexed self.now }
        ensures some { IfSome result (λ entry. IsEntryOf (stored_in self.now.entries.items) name.now entry.now) }
        ensures none { IfNone result (body_of (bodies_in self.now.entries.items) name.now ≡ None) }
    {
        let place = self.places.find(self.entries.as_slice(), name)?;
        Some(&self.entries[place])
    }

    /// Adds an entry whose name is not held.
    pub fn push(&mut self, entry: Entry) -> Result<(), Memory>
        requires indexed { IsIndexed self.old }
        requires good { HasItsChildren entry }
        requires absent { body_of (bodies_in self.old.entries.items) entry.name ≡ None }
        ensures indexed { IsIndexed self.new }
        ensures ok { OnOk result (self.new.entries.items ≡ self.old.entries.items ++ entry ∷ []) }
        ensures err { OnErr result (self.new.entries.items ≡ self.old.entries.items) }
    {
        has_bytes(&entry);
        self.entries.reserve(1)?;
        self.places.add(self.entries.as_slice(), &entry.name)?;
        self.entries.push_reserved(entry);
        Ok(())
    }

    /// Adds entries whose names are not held, one after another, and takes them out again where memory runs out.
    pub fn push_all(&mut self, entries: &[Entry]) -> Result<(), Memory>
        requires indexed { IsIndexed self.old }
        requires good { AllByRecursion HasItsChildren entries.now }
        requires absent { AreNew (bodies_in self.old.entries.items) entries.now }
        ensures indexed { IsIndexed self.new }
        ensures ok { OnOk result (self.new.entries.items ≡ self.old.entries.items ++ entries.now) }
        ensures err { OnErr result (self.new.entries.items ≡ self.old.entries.items) }
    {
        let before = self.entries.len();
        for entry in entries {
            if let Err(fault) = push_again(self, entry) {
                self.cut(before);
                return Err(fault);
            }
        }
        Ok(())
    }

    fn pop(&mut self)
        requires { IsIndexed self.old }
        ensures indexed { IsIndexed self.new }
        ensures rest { self.new.entries.items ≡ take (length self.old.entries.items - 1) self.old.entries.items }
    {
        if let Some(entry) = self.entries.pop() {
            self.places.forget(&entry);
        }
    }

    /// The entries, without their places.
    pub fn into_entries(self) -> Vec<Entry>
        ensures { result.items ≡ self.entries.items }
    {
        let Held { places: _, entries } = self;
        entries
    }

    /// Takes the entries behind the first ones out again, which wants no memory.
    pub fn cut(&mut self, count: usize)
        requires { IsIndexed self.old }
        ensures indexed { IsIndexed self.new }
        ensures rest { self.new.entries.items ≡ take count self.old.entries.items }
    {
        while self.entries.len() > count {
            self.pop();
        }
    }
}

ghost use Rattle.std.specs.Prelude.{◌≡◌, ◌∷◌, ◌++◌, [], None, OnOk, OnErr};
ghost use Rattle.swh_model.specs.Archive.{body_of};
ghost use Rattle.swh_model.specs.Step.{HasItsChildren};
ghost use Rattle.swh_store.specs.Entries.{bodies_in};
ghost use Rattle.swh_store.specs.Places.{IsIndexed};

/// Adds an equal entry, which shares the body.
pub fn push_again(held: &mut Held, entry: &Entry) -> Result<(), Memory>
    requires indexed { IsIndexed held.old }
    requires good { HasItsChildren entry.now }
    requires absent { body_of (bodies_in held.old.entries.items) entry.now.name ≡ None }
    ensures indexed { IsIndexed held.new }
    ensures ok { OnOk result (held.new.entries.items ≡ held.old.entries.items ++ entry.now ∷ []) }
    ensures err { OnErr result (held.new.entries.items ≡ held.old.entries.items) }
{
    held.push(entry.again()?)
}
