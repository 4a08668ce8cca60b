//! Objects, given out where they are new.
ghost use Rattle.std.specs.Prelude.{◌++◌, ◌∷◌, [], List, IfOk, OnOk};
ghost use Rattle.swh_model.specs.Meaning.{Made};
ghost use Rattle.swh_dedup.specs.Making.{made_from, made, HaveIds};
ghost use Rattle.swh_dedup.specs.Giving.{IsReady, AreReady, Gives};

use crate::making::whole_id;
use crate::seen::{Novelty, Seen};
use std::alloc::Global;
use swh_base::{Memory, Namer};
use swh_object::Object;

/// Gives the object out where it is new.
fn give<N: Namer>(
    alloc: Global,
    seen: &mut Seen<N>,
    object: Object<N>,
    out: &mut Vec<Object<N>>,
) -> Result<(), Memory>
    requires ready { IsReady N.id_of seen.old (made_from object) }
    ensures { (ms old : List Made) → Gives N.id_of ms old seen.old out.old.items
        → OnOk result (Gives N.id_of (ms ++ made_from object ∷ []) old seen.new out.new.items) }
{
    let name = object.name();
    let _id = whole_id(&name.id);
    match seen.add(alloc, &object)? {
        Novelty::New => Ok(out.push(object)?),
        Novelty::Known => Ok(()),
    }
}

/// Gives those objects out that are new, where the children of each are among what was given and the objects before it.
pub fn give_all<N: Namer>(
    alloc: Global,
    seen: &mut Seen<N>,
    objects: Vec<Object<N>>,
) -> Result<Vec<Object<N>>, Memory>
    requires ids { HaveIds N.id_of seen.old }
    requires ready { AreReady N.id_of seen.old (made objects.items) }
    ensures { IfOk result (λ os. Gives N.id_of (made objects.items) seen.old seen.new os.items) }
{
    let mut out = Vec::with_capacity(alloc, objects.len())?;
    for object in objects {
        give(alloc, seen, object, &mut out)?;
    }
    Ok(out)
}
