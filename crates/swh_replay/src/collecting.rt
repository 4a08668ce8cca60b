//! The entries of all events at once.
ghost use Rattle.std.specs.Prelude.{◌≡◌, ◌++◌, IfOk, OnOk};
ghost use Rattle.swh_replay.specs.Happened.{all_entries};

use std::alloc::Global;
use swh_base::{Entry, Memory};
use swh_model::Event;

// How many objects the events have.
fn count_objects(events: &[Event]) -> usize {
    let mut count: usize = 0;
    for event in events {
        count = count.saturating_add(event.what.entries().len());
    }
    count
}

fn push_all(all: &mut Vec<Entry>, entries: &[Entry]) -> Result<(), Memory>
    ensures { OnOk result (all.new.items ≡ all.old.items ++ entries.now) }
{
    for entry in entries {
        all.push(entry.again()?)?;
    }
    Ok(())
}

/// The entries of all batches in their order, which share the bodies with them.
pub fn collect_entries(alloc: Global, events: &[Event]) -> Result<Vec<Entry>, Memory>
    ensures { IfOk result (λ all. all.items ≡ all_entries events.now) }
{
    let mut all = Vec::with_capacity(alloc, count_objects(events))?;
    for event in events {
        push_all(&mut all, event.what.entries())?;
    }
    Ok(all)
}
