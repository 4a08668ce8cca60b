//! Objects, and how one is made of a body.

use crate::children::children_of;
use crate::fault::ObjectFault;
use std::alloc::Global;
use std::marker::{Model, PhantomData};
use swh_base::{BODY_LIMIT, Entry, Kind, Name, Namer, Shared};

/// An object that the namer `N` named. Contracts see its entry.
#[derive(Drop)]
pub struct Object<N: Namer> {
    entry: Entry,
    namer: PhantomData<N>,
}

impl<N: Namer> Model for Object<N> {
    ghost use Rattle.swh_base.specs.declared.entry.Entry.{Entry};
    ghost use Rattle.swh_object.specs.Object.{IsObject};

    ghost Value = { Entry };

    ghost view = { λ o. o.entry };

    ghost invariant = { λ o. IsObject N.id_of o.entry };
}

impl<N: Namer> Object<N> {
    ghost use Rattle.std.specs.Prelude.{◌≡◌, ◌≤◌, length, IfOk, IfErr, OnOk};
    ghost use Rattle.swh_base.specs.Limits.{body_limit};
    ghost use Rattle.swh_base.specs.Manifest.{AreChildren, IsWellFormed};
    ghost use Rattle.swh_object.specs.Object.{IsObject, MakesObject, ExplainsObject};

    /// The object of this kind (git objects; SWHID v1.2, core identifiers) and body. The body is not copied. `TooLong`
    /// tells its length in bytes where that is above 67,108,864; `BadBody` the place, in bytes from 0, at which the
    /// reader of its kind refuses it; `Memory` that there was none.
    pub fn make(
        alloc: Global,
        namer: &N,
        kind: Kind,
        body: Vec<u8>,
    ) -> Result<Object<N>, ObjectFault>
        ensures entry { IfOk result (λ o. (o.name.kind ≡ kind) × (o.body ≡ body.items)) }
        ensures named { IfOk result (λ o. o.name.id ≡ N.id_of kind body.items) }
        ensures kids { IfOk result (λ o. AreChildren kind body.items o.kids) }
        ensures short { OnOk result (length body.items ≤ body_limit) }

        // A body above the limit is refused by its length, and else one that its kind's reader refuses by the reader's place.
        ensures err { IfErr result (ExplainsObject kind body.items) }

        // Any other makes an object, unless memory runs out.
        ensures only { length body.items ≤ body_limit → IsWellFormed kind body.items → MakesObject result }
    {
        Object::of_shared(alloc, namer, kind, Shared::from_vec(body)?)
    }

    /// The object of this kind and of a body that others may share, which is not copied. Faults are those of `make`.
    pub fn of_shared(
        alloc: Global,
        namer: &N,
        kind: Kind,
        body: Shared<u8>,
    ) -> Result<Object<N>, ObjectFault>
        ensures entry { IfOk result (λ o. (o.name.kind ≡ kind) × (o.body ≡ body)) }
        ensures named { IfOk result (λ o. o.name.id ≡ N.id_of kind body) }
        ensures kids { IfOk result (λ o. AreChildren kind body o.kids) }
        ensures short { OnOk result (length body ≤ body_limit) }
        ensures err { IfErr result (ExplainsObject kind body) }
        ensures only { length body ≤ body_limit → IsWellFormed kind body → MakesObject result }
    {
        let len = body.as_slice().len() as u64;
        if len > BODY_LIMIT {
            return Err(ObjectFault::TooLong { len });
        }
        let kids = children_of(alloc, kind, body.as_slice())?;
        let id = namer.id(kind, body.as_slice());
        let entry = Entry {
            name: Name { kind, id },
            body,
            kids: Shared::from_vec(kids)?,
        };
        Ok(Object {
            entry,
            namer: PhantomData,
        })
    }

    /// The kind, and the id that the namer gives for kind and body.
    pub fn name(&self) -> Name
        ensures name { result ≡ self.now.name }
        ensures good { IsObject N.id_of self.now }
    {
        self.entry.name
    }

    /// The bytes that the object was made of.
    pub fn body(&self) -> &[u8]
        ensures { result.now ≡ self.now.body }
    {
        self.entry.body.as_slice()
    }

    /// The names that the body names, in its order.
    pub fn children(&self) -> &[Name]
        ensures { result.now ≡ self.now.kids }
    {
        self.entry.kids.as_slice()
    }

    /// The entry of the object.
    pub fn entry(&self) -> &Entry
        ensures entry { result.now ≡ self.now }
        ensures good { IsObject N.id_of self.now }
    {
        &self.entry
    }

    /// The entry of the object. Its body and its children are not copied.
    pub fn into_entry(self) -> Entry
        ensures entry { result ≡ self }
        ensures good { IsObject N.id_of self }
    {
        let Object { entry, namer: _ } = self;
        entry
    }
}
