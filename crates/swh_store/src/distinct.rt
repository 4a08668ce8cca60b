//! Entries of which no two have one name.
use crate::adding::{Standing, join};
use crate::entries::Held;
use std::alloc::Global;
use std::marker::Model;
use swh_base::{Entry, Memory};

/// Entries in the order of their adding, of which no two have one name.
#[derive(Drop)]
pub struct Distinct {
    held: Held,
}

impl Model for Distinct {
    ghost use Rattle.std.specs.Prelude.{List};
    ghost use Rattle.swh_base.specs.declared.entry.Entry.{Entry};
    ghost use Rattle.swh_store.specs.Places.{IsIndexed};

    ghost Value = { List Entry };

    ghost view = { λ d. d.held.entries.items };

    ghost invariant = { λ d. IsIndexed d.held };
}

impl Distinct {
    ghost use Rattle.std.specs.Prelude.{◌≡◌, [], IfOk, OnErr};
    ghost use Rattle.swh_model.specs.Step.{HasItsChildren};
    ghost use Rattle.swh_store.specs.Adding.{Joins};

    /// No entries. It takes no memory.
    pub fn new(alloc: Global) -> Distinct
        ensures { result ≡ [] }
    {
        Distinct {
            held: Held::new(alloc),
        }
    }

    /// Adds an entry where none of its name is there, and answers how it stood to those that were. Its name is looked for
    /// once.
    pub fn join(&mut self, entry: Entry) -> Result<Standing, Memory>
        requires { HasItsChildren entry }
        ensures ok { IfOk result (Joins self.old self.new entry) }
        ensures err { OnErr result (self.new ≡ self.old) }
    {
        join(&mut self.held, entry)
    }

    /// The entries, in the order of their adding. None is copied.
    pub fn into_vec(self) -> Vec<Entry>
        ensures { result.items ≡ self }
    {
        let Distinct { held } = self;
        held.into_entries()
    }
}
