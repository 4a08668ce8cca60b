//! One event that happens to an archive, or may not.
ghost use Rattle.std.specs.Prelude.{◌≡◌, ◌↔◌, ℕ, List, IsTrue, IfOk, IfSome, IfNone};
ghost use Rattle.swh_base.specs.declared.kind.Kind.{Kind};
ghost use Rattle.swh_model.specs.Archive.{IsHeld};
ghost use Rattle.swh_model.specs.Limits.{IsWithinLimits};
ghost use Rattle.swh_model.specs.Step.{May, IsStep, MayMark, AreNew, added};
ghost use Rattle.swh_model.specs.Happens.{IsGoodEvent, IsNamedEvent, CanHappen, HasItsVisit};

use crate::adding::are_within_limits;
use crate::event::{Event, EventKind};
use crate::marking::visit_refusal;
use crate::standing::fits_status;
use crate::state::{State, newest};
use std::alloc::Global;
use swh_base::{Entry, Memory, Name, Status, Url};

/// Says whether a body is held under the name, or stands among the entries.
pub fn is_taken(state: &State, entries: &[Entry], name: &Name) -> bool
    ensures { IsTrue result ↔ IsHeld (added state.now.bodies entries.now) name.now }
{
    match newest(entries, name) {
        Some(_) => true,
        None => state.has(name),
    }
}

fn are_new(state: &State, entries: &[Entry]) -> bool
    ensures { IsTrue result ↔ AreNew state.now.bodies entries.now }
{
    for (place, entry) in entries.iter().enumerate() {
        if is_taken(state, &entries[..place], &entry.name) {
            return false;
        }
    }
    true
}

fn may_add(state: &State, entries: &[Entry]) -> bool
    ensures { IsTrue result ↔ IsWithinLimits entries.now × AreNew state.now.bodies entries.now }
{
    if !are_within_limits(entries) {
        return false;
    }
    are_new(state, entries)
}

fn may_mark(
    alloc: Global,
    state: &State,
    by: u32,
    origin: &Url,
    visit: u64,
    mark: (Status, Option<[u8; 20]>),
) -> Result<bool, Memory>
    ensures { IfOk result (λ may. IsTrue may ↔ MayMark state.now by origin.now visit mark.0 mark.1) }
{
    let (status, snapshot) = mark;
    match visit_refusal(state.visits(origin), by, visit) {
        Some(_) => Ok(false),
        None => fits_status(alloc, state, status, &snapshot),
    }
}

/// Says whether the event may happen, where each of its entries has a body of its kind, with that body's children and
/// id.
pub fn may_happen(alloc: Global, state: &State, event: &Event) -> Result<bool, Memory>
    ensures { IfOk result (λ may. IsTrue may ↔ CanHappen state.now event.now) }
{
    match &event.what {
        EventKind::Batch(entries) => Ok(may_add(state, entries.as_slice())),
        EventKind::Open { .. } => Ok(true),
        EventKind::Mark {
            origin,
            visit,
            status,
            snapshot,
        } => may_mark(alloc, state, event.by, origin, *visit, (*status, *snapshot)),
    }
}

/// The archive once the event happened, or none where it may not happen. Fails where memory runs out. It is asked that
/// the event's entries are bodies of their kinds with their children. That their names are a namer's is not asked; the
/// clauses on the answer suppose it.
pub fn step(alloc: Global, state: &State, event: &Event) -> Result<Option<State>, Memory>
    requires { IsGoodEvent event.now }
    ensures some { (id_of : Kind → List ℕ → List ℕ) → IsNamedEvent id_of event.now
        → IfOk result (λ next. IfSome next (IsStep id_of state.now event.now)) }
    ensures none { (id_of : Kind → List ℕ → List ℕ)
        → IfOk result (λ next. IfNone next (May id_of state.now event.now → ⊥)) }
{
    if !may_happen(alloc, state, event)? {
        return Ok(None);
    }
    let mut next = state.again(alloc)?;
    next.happen(alloc, event)?;
    Ok(Some(next))
}
