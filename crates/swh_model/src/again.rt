// Equal events, entries and visits.
ghost use Rattle.std.specs.Prelude.{◌≡◌, IfOk};

use crate::event::{Event, EventKind, Visit};
use std::alloc::Global;
use swh_base::{Entry, Items, Memory};

/// Equal entries, which share bodies and children.
pub fn entries_again(alloc: Global, entries: &[Entry]) -> Result<Vec<Entry>, Memory>
    ensures { IfOk result (λ copies. copies.items ≡ entries.now) }
{
    let mut copies = Vec::new(alloc);
    for entry in entries {
        let copy = entry.again()?;
        copies.push(copy)?;
    }
    Ok(copies)
}

fn visit_again(alloc: Global, visit: &Visit) -> Result<Visit, Memory>
    ensures { IfOk result (λ copy. copy ≡ visit.now) }
{
    let mut statuses = Vec::new(alloc);
    statuses.extend_from_slice(visit.statuses.as_slice())?;
    Ok(Visit {
        number: visit.number,
        date: visit.date,
        kind: visit.kind,
        by: visit.by,
        statuses: Items::from_vec(statuses),
    })
}

/// Equal visits.
pub fn visits_again(alloc: Global, visits: &[Visit]) -> Result<Vec<Visit>, Memory>
    ensures { IfOk result (λ copies. copies.items ≡ visits.now) }
{
    let mut copies = Vec::new(alloc);
    for visit in visits {
        let copy = visit_again(alloc, visit)?;
        copies.push(copy)?;
    }
    Ok(copies)
}

fn kind_again(alloc: Global, what: &EventKind) -> Result<EventKind, Memory>
    ensures { IfOk result (λ copy. copy ≡ what.now) }
{
    match what {
        EventKind::Batch(entries) => {
            let copies = entries_again(alloc, entries.as_slice())?;
            Ok(EventKind::Batch(Items::from_vec(copies)))
        }
        EventKind::Open { origin, kind, date } => Ok(EventKind::Open {
            origin: origin.again(alloc)?,
            kind: *kind,
            date: *date,
        }),
        EventKind::Mark {
            origin,
            visit,
            status,
            snapshot,
        } => Ok(EventKind::Mark {
            origin: origin.again(alloc)?,
            visit: *visit,
            status: *status,
            snapshot: *snapshot,
        }),
    }
}

impl Event {
    ghost use Rattle.std.specs.Prelude.{◌≡◌, IfOk};

    /// An equal event, whose entries share their bodies and children: no byte of a body is copied. `Memory` where there is
    /// none.
    pub fn again(&self, alloc: Global) -> Result<Event, Memory>
        ensures { IfOk result (λ event. event ≡ self.now) }
    {
        Ok(Event {
            by: self.by,
            what: kind_again(alloc, &self.what)?,
        })
    }
}
