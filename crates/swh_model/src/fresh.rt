//! What is new of a batch, and whether a name would have two bodies.
ghost use Rattle.std.specs.Prelude.{◌≡◌, ◌↔◌, IsTrue, Some, IfOk, IfSome, IfNone};
ghost use Rattle.swh_base.specs.declared.name.Name.{Name};
ghost use Rattle.swh_model.specs.Archive.{body_of};
ghost use Rattle.swh_model.specs.Step.{added};
ghost use Rattle.swh_model.specs.Judge.{not_held, Collides};

use crate::state::{State, newest};
use crate::stepping::is_taken;
use std::alloc::Global;
use swh_base::{Entry, Memory, Name};

/// The entries that are not held, each once, in their order.
pub fn fresh_of(alloc: Global, state: &State, entries: &[Entry]) -> Result<Vec<Entry>, Memory>
    ensures { IfOk result (λ fresh. fresh.items ≡ not_held state.now.bodies entries.now) }
{
    let mut fresh = Vec::new(alloc);
    for entry in entries {
        if is_taken(state, fresh.as_slice(), &entry.name) {
            continue;
        }
        fresh.push(entry.again()?)?;
    }
    Ok(fresh)
}

fn is_same_body(a: &Entry, b: &Entry) -> bool
    ensures { IsTrue result ↔ (a.now.body ≡ b.now.body) }
{
    a.body.as_slice() == b.body.as_slice()
}

/// Says whether the entry's body is the one held under its name, once these entries are added.
fn is_bodied(state: &State, entries: &[Entry], entry: &Entry) -> bool
    ensures { IsTrue result ↔ (body_of (added state.now.bodies entries.now) entry.now.name ≡ Some entry.now.body) }
{
    match newest(entries, &entry.name) {
        Some(other) => is_same_body(other, entry),
        None => match state.get(&entry.name) {
            Some(other) => is_same_body(other, entry),
            None => false,
        },
    }
}

/// The name of the first entry whose name would have two bodies.
pub fn find_collision(state: &State, fresh: &[Entry], entries: &[Entry]) -> Option<Name>
    requires { fresh.now ≡ not_held state.now.bodies entries.now }
    ensures some { IfSome result (Collides state.now.bodies entries.now) }
    ensures none { IfNone result ((name : Name) → Collides state.now.bodies entries.now name → ⊥) }
{
    for entry in entries {
        if !is_bodied(state, fresh, entry) {
            return Some(entry.name);
        }
    }
    None
}
