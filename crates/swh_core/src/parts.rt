//! A world's parts, and what steps make of them. What fails midway is to be let go.
ghost use Rattle.std.specs.Prelude.{◌≡◌, ◌<◌, IfOk, OnOk, map, length};
ghost use Rattle.swh_segment.specs.Calls.{calls_for};
ghost use Rattle.swh_core.specs.World.{
  first_world,
  longer,
  sees,
  all_shown,
  joined,
  in_doubt,
  reopened,
};
ghost use Rattle.swh_core.specs.Answers.{file_call};

use crate::call::EventCall;
use crate::copies::{copies_of, empty_lists, events_again, lists_again, maybe_again};
use crate::disk::{Disks, disks_again, disks_at_rest, do_calls, fail_call};
use std::alloc::Global;
use std::mem;
use swh_base::{Items, Memory};
use swh_model::Event;

/// The archive between two steps.
#[derive(Drop)]
pub struct Parts {
    /// The events that happened, the oldest first.
    pub history: Items<Event>,
    /// How many of them are shown. The rest waits to be.
    pub shown: usize,
    /// An event of which a device call failed: it may have happened, or not.
    pub doubt: Option<Event>,
    pub disks: Disks,
    /// What each actor has seen.
    pub seen: Items<Items<Event>>,
    /// The longest list that any actor has seen, those that ended in a crash included.
    pub kept: Items<Event>,
}

/// A made, empty archive, of which the actors have seen nothing.
pub fn first_parts(alloc: Global, actors: u32) -> Result<Parts, Memory>
    ensures { IfOk result (λ parts. parts ≡ first_world actors) }
{
    let made: &[u8] = &[83, 87, 72, 65, 82, 67, 49, 10, 0];
    Ok(Parts {
        history: Items::from_vec(Vec::new(alloc)),
        shown: 0,
        doubt: None,
        disks: disks_at_rest(alloc, made, &[])?,
        seen: empty_lists(alloc, actors)?,
        kept: Items::from_vec(Vec::new(alloc)),
    })
}

/// An equal world.
pub fn parts_again(alloc: Global, parts: &Parts) -> Result<Parts, Memory>
    ensures { IfOk result (λ copy. copy ≡ parts.now) }
{
    Ok(Parts {
        history: events_again(alloc, parts.history.as_slice())?,
        shown: parts.shown,
        doubt: maybe_again(alloc, &parts.doubt)?,
        disks: disks_again(alloc, &parts.disks)?,
        seen: Items::from_vec(lists_again(alloc, parts.seen.as_slice())?),
        kept: events_again(alloc, parts.kept.as_slice())?,
    })
}

/// Shows all that waited.
pub fn show_all(parts: &mut Parts)
    ensures { parts.new ≡ all_shown parts.old }
{
    parts.shown = parts.history.as_slice().len();
}

fn longer_of(alloc: Global, a: &[Event], b: &[Event]) -> Result<Items<Event>, Memory>
    ensures { IfOk result (λ list. list ≡ longer a.now b.now) }
{
    if a.len() <= b.len() {
        events_again(alloc, b)
    } else {
        events_again(alloc, a)
    }
}

/// Lets an actor see a front.
pub fn see(alloc: Global, parts: &mut Parts, actor: u32, front: Items<Event>) -> Result<(), Memory>
    requires { actor < length parts.old.seen }
    ensures { OnOk result (parts.new ≡ sees actor front parts.old) }
{
    parts.kept = longer_of(alloc, parts.kept.as_slice(), front.as_slice())?;
    let before = mem::replace(&mut parts.seen, Items::from_vec(Vec::new(alloc)));
    let mut seen = before.into_vec();
    seen[actor as usize] = front;
    parts.seen = Items::from_vec(seen);
    Ok(())
}

/// Lets an event join the history, with all its device calls made.
pub fn join(
    alloc: Global,
    parts: &mut Parts,
    event: Event,
    calls: &[EventCall],
) -> Result<(), Memory>
    requires { map file_call calls.now ≡ calls_for parts.old.history event }
    ensures { OnOk result (parts.new ≡ joined event parts.old) }
{
    do_calls(alloc, &mut parts.disks, calls)?;
    parts.history.push(event)?;
    Ok(())
}

/// Leaves an event in doubt, of which the call of this number failed.
pub fn leave_in_doubt(
    alloc: Global,
    parts: &mut Parts,
    event: Event,
    calls: &[EventCall],
    number: u32,
) -> Result<(), Memory>
    requires { map file_call calls.now ≡ calls_for parts.old.history event }
    ensures { OnOk result (parts.new ≡ in_doubt event number parts.old) }
{
    fail_call(alloc, &mut parts.disks, calls, number)?;
    parts.doubt = Some(event);
    Ok(())
}

/// The world in which these bytes are opened, which stand for this history.
pub fn reopen(
    alloc: Global,
    parts: &Parts,
    history: Items<Event>,
    ledger: &[u8],
    store: &[u8],
) -> Result<Parts, Memory>
    ensures { IfOk result (λ new. new ≡ reopened history ledger.now store.now parts.now) }
{
    let events = history.as_slice();
    Ok(Parts {
        shown: events.len(),
        doubt: None,
        disks: disks_at_rest(alloc, ledger, store)?,
        seen: copies_of(alloc, events, parts.seen.as_slice())?,
        kept: longer_of(alloc, parts.kept.as_slice(), events)?,
        history,
    })
}
