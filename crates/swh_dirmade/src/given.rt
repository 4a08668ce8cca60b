//! The objects that a folder makes.
ghost use Rattle.std.specs.Prelude.{Contains, OnOk};
ghost use Rattle.std.specs.List.{AllByRecursion};
ghost use Rattle.swh_dedup.specs.Making.{made, names_of_made};
ghost use Rattle.swh_dirmade.specs.Giving.{GivesOne};

use std::alloc::Global;
use std::marker::Model;
use swh_base::{Memory, Namer};
use swh_dedup::{Novelty, Seen};
use swh_object::Object;

/// The objects that were made so far: each once, and after all that it names.
#[derive(Drop)]
pub struct Given<N: Namer> {
    seen: Seen<N>,
    objects: Vec<Object<N>>,
}

impl<N: Namer> Model for Given<N> {
    ghost use Rattle.std.specs.Prelude.{◌≡◌, List, []};
    ghost use Rattle.swh_base.specs.declared.entry.Entry.{Entry};
    ghost use Rattle.swh_dedup.specs.Making.{made};
    ghost use Rattle.swh_dedup.specs.Giving.{AreNew};

    ghost Value = { List Entry };

    ghost view = { λ g. g.objects.items };

    ghost invariant = { λ g. (g.seen ≡ made g.objects.items) × AreNew N.id_of [] g.objects.items };
}

impl<N: Namer> Given<N> {
    ghost use Rattle.std.specs.Prelude.{◌≡◌, []};
    ghost use Rattle.swh_dedup.specs.Giving.{AreNew};

    /// Nothing was made.
    pub fn new(alloc: Global) -> Given<N>
        ensures { result ≡ [] }
    {
        Given {
            seen: Seen::new(alloc),
            objects: Vec::new(alloc),
        }
    }

    /// Adds an object, whose children were added, unless one of its kind and body was.
    pub fn give(&mut self, alloc: Global, object: Object<N>) -> Result<(), Memory>
        requires { AllByRecursion (Contains (names_of_made N.id_of (made self.old))) object.kids }
        ensures { OnOk result (GivesOne self.old object self.new) }
    {
        let _name = object.name();
        self.objects.reserve(1)?;
        match self.seen.add(alloc, &object)? {
            Novelty::New => self.objects.push_reserved(object),
            Novelty::Known => {}
        }
        Ok(())
    }

    /// The objects, in the order of making.
    pub fn into_objects(self) -> Vec<Object<N>>
        ensures objects { result.items ≡ self }
        ensures new { AreNew N.id_of [] result.items }
    {
        let Given { seen: _, objects } = self;
        objects
    }
}
