//! Equal lists of events, whose entries share their bodies and children.
ghost use Rattle.std.specs.Prelude.{◌≡◌, [], IfOk, map, replicate};

use std::alloc::Global;
use swh_base::{Items, Memory};
use swh_model::Event;

/// Equal events.
pub fn events_again(alloc: Global, events: &[Event]) -> Result<Items<Event>, Memory>
    ensures { IfOk result (λ copies. copies ≡ events.now) }
{
    let mut copies = Vec::new(alloc);
    for event in events {
        let copy = event.again(alloc)?;
        copies.push(copy)?;
    }
    Ok(Items::from_vec(copies))
}

/// Equal lists of events.
pub fn lists_again(alloc: Global, lists: &[Items<Event>]) -> Result<Vec<Items<Event>>, Memory>
    ensures { IfOk result (λ copies. copies.items ≡ lists.now) }
{
    let mut copies = Vec::new(alloc);
    for list in lists {
        let copy = events_again(alloc, list.as_slice())?;
        copies.push(copy)?;
    }
    Ok(copies)
}

/// A copy of the events for each of the lists.
pub fn copies_of(
    alloc: Global,
    events: &[Event],
    lists: &[Items<Event>],
) -> Result<Items<Items<Event>>, Memory>
    ensures { IfOk result (λ copies. copies ≡ map (λ _. events.now) lists.now) }
{
    let mut copies = Vec::new(alloc);
    for _list in lists {
        let copy = events_again(alloc, events)?;
        copies.push(copy)?;
    }
    Ok(Items::from_vec(copies))
}

/// So many lists of no event.
pub fn empty_lists(alloc: Global, number: u32) -> Result<Items<Items<Event>>, Memory>
    ensures { IfOk result (λ lists. lists ≡ replicate number []) }
{
    let mut lists = Vec::new(alloc);
    for _i in 0..number {
        lists.push(Items::from_vec(Vec::new(alloc)))?;
    }
    Ok(Items::from_vec(lists))
}

/// An equal event, if there is one.
pub fn maybe_again(alloc: Global, event: &Option<Event>) -> Result<Option<Event>, Memory>
    ensures { IfOk result (λ copy. copy ≡ event.now) }
{
    match event {
        Some(event) => Ok(Some(event.again(alloc)?)),
        None => Ok(None),
    }
}
