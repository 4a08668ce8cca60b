//! The entries of objects.
ghost use Rattle.std.specs.Prelude.{◌≡◌, IfOk, OnOk};
ghost use Rattle.std.specs.List.{AllByRecursion};
ghost use Rattle.swh_model.specs.Step.{HasItsChildrenAndName};

use std::alloc::Global;
use swh_base::{Entry, Memory, Namer};
use swh_object::Object;

/// The entries of the objects, in their order: bodies and children are moved.
pub fn entries_of<N: Namer>(alloc: Global, objects: Vec<Object<N>>) -> Result<Vec<Entry>, Memory>
    ensures same { IfOk result (λ entries. entries.items ≡ objects.items) }
    ensures good { OnOk result (AllByRecursion (HasItsChildrenAndName N.id_of) objects.items) }
{
    let mut entries = Vec::with_capacity(alloc, objects.len())?;
    for object in objects {
        entries.push(object.into_entry())?;
    }
    Ok(entries)
}
