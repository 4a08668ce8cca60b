//! Names in the order in which they are met, each once.

use std::alloc::Global;
use std::marker::Model;
use swh_base::{Memory, Name};
use swh_closure::Closed;

/// Names, seen as a list. They stand in a set too, so that a name that is met again is told in logarithmic time.
#[derive(Drop)]
pub struct Met {
    names: Vec<Name>,
    known: Closed,
}

impl Model for Met {
    ghost use Rattle.std.specs.Prelude.{List, Contains, ◌↔◌};
    ghost use Rattle.swh_base.specs.declared.name.Name.{Name};

    ghost Value = { List Name };

    ghost view = { λ m. m.names.items };

    ghost invariant = { λ m. (n : Name) → Contains m.known n ↔ Contains m.names.items n };
}

impl Met {
    ghost use Rattle.std.specs.Prelude.{◌≡◌, ◌<◌, ◌≤◌, ◌^◌, [], IfSome, IfNone, OnOk, length, take, get_or};
    ghost use Rattle.swh_graph.specs.Met.{MeetsOne, MeetsAll};

    pub fn new(alloc: Global) -> Met
        ensures { result ≡ [] }
    {
        Met {
            names: Vec::new(alloc),
            known: Closed::new(alloc),
        }
    }

    /// Meets a name: it stands at the end, unless it is there.
    pub fn meet(&mut self, name: Name) -> Result<(), Memory>
        ensures { OnOk result (MeetsOne self.old name self.new) }
    {
        if self.known.contains(&name) {
            return Ok(());
        }
        self.names.reserve(1)?;
        self.known.add(name)?;
        self.names.push_reserved(name);
        Ok(())
    }

    /// Meets these names one after another.
    pub fn meet_all(&mut self, names: &[Name]) -> Result<(), Memory>
        ensures { OnOk result (MeetsAll self.old names.now self.new) }
    {
        for name in names {
            self.meet(*name)?;
        }
        Ok(())
    }

    /// The name at a place.
    pub fn at(&self, place: usize) -> Option<Name>
        ensures some { IfSome result (λ name. (place < length self.now) × (name ≡ get_or self.now place name)) }
        ensures none { IfNone result (length self.now ≤ place) }
    {
        self.names.get(place).copied()
    }

    /// How many names there are.
    pub fn len(&self) -> usize
        ensures value { result ≡ length self.now }
        ensures small { result < 2 ^ 63 }
    {
        self.names.len()
    }

    /// The first so many names.
    pub fn into_front(self, count: usize) -> Vec<Name>
        ensures { result.items ≡ take count self }
    {
        let Met { mut names, known } = self;
        drop(known);
        names.truncate(count);
        names
    }
}
