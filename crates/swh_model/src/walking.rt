//! Whether all that is reached from a name is held, over plain lists: a walk that lists each name once and stops when
//! nothing new is met.
ghost use Rattle.std.specs.Prelude.{◌≡◌, None, IfOk, IfSome, IfNone, Contains};
ghost use Rattle.swh_base.specs.declared.name.Name.{Name};
ghost use Rattle.swh_model.specs.Archive.{body_of, IsHeld, IsChild, IsClosed};
ghost use Rattle.swh_model.specs.Walk.{GainsHeld, GainsChildren, IsGap};

use crate::names::{list_name, name_at};
use crate::state::State;
use std::alloc::Global;
use swh_base::{Memory, Name};

/// Lists the names up to the first that is not held, which is answered.
fn list_held(state: &State, names: &mut Vec<Name>, kids: &[Name]) -> Result<Option<Name>, Memory>
    ensures gains { GainsHeld state.now.bodies kids.now names.old.items names.new.items }
    ensures gap { IfOk result (λ gap. IfSome gap (λ child. Contains kids.now child
        × (body_of state.now.bodies child ≡ None))) }
    ensures all { IfOk result (λ gap. IfNone gap ((child : Name) → Contains kids.now child
        → Contains names.new.items child)) }
{
    for child in kids {
        if !state.has(child) {
            return Ok(Some(*child));
        }
        list_name(names, *child)?;
    }
    Ok(None)
}

/// Lists the children of a held parent up to the first that is not held, which is answered.
fn list_children(
    state: &State,
    names: &mut Vec<Name>,
    parent: &Name,
) -> Result<Option<Name>, Memory>
    requires { IsHeld state.now.bodies parent.now }
    ensures gains { GainsChildren state.now.bodies parent.now names.old.items names.new.items }
    ensures gap { IfOk result (λ gap. IfSome gap (λ child. IsChild state.now.bodies parent.now child
        × (body_of state.now.bodies child ≡ None))) }
    ensures all { IfOk result (λ gap. IfNone gap ((child : Name) → IsChild state.now.bodies parent.now child
        → Contains names.new.items child)) }
{
    let Some(entry) = state.get(parent) else {
        unreachable!()
    };
    list_held(state, names, entry.kids.as_slice())
}

/// A child that is not held of a name that is reached from the root and held, or none where the root is closed.
pub fn find_gap(alloc: Global, state: &State, root: &Name) -> Result<Option<(Name, Name)>, Memory>
    requires { IsHeld state.now.bodies root.now }
    ensures closed { IfOk result (λ gap. IfNone gap (IsClosed state.now.bodies root.now)) }
    ensures open { IfOk result (λ gap. IfSome gap (λ pair. IsGap state.now.bodies root.now pair.0 pair.1)) }
{
    let mut names = Vec::new(alloc);
    names.push(*root)?;
    for place in 0..usize::MAX {
        let Some(parent) = name_at(names.as_slice(), place) else {
            return Ok(None);
        };
        if let Some(child) = list_children(state, &mut names, &parent)? {
            return Ok(Some((parent, child)));
        }
    }
    let _count = names.len();
    unreachable!()
}
