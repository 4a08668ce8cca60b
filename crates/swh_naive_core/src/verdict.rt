//! The verdict on a wish, found by going over all that happened.
use crate::plain::{Plain, Stored, What, stored_of};
use crate::records::made_event;
use crate::said::Said;
use std::alloc::Global;
use swh_base::{Entry, Kind, Memory, Name, Status};
use swh_model::Wish;

/// The event with what is told of it, or the cause against the wish.
#[derive(Drop)]
pub enum Verdict {
    Allowed(Plain, Said),
    Refused(Said),
}

/// Who opened the visits of an origin, in their order.
fn openers(alloc: Global, history: &[Plain], origin: &[u8]) -> Result<Vec<u32>, Memory> {
    let mut out = Vec::new(alloc);
    for event in history {
        if let What::Open { origin: other, .. } = &event.what {
            if other.as_slice() == origin {
                out.push(event.by)?;
            }
        }
    }
    Ok(out)
}

fn last_status(history: &[Plain], origin: &[u8], visit: u64) -> Status {
    let mut last = Status::Created;
    for event in history {
        if let What::Mark {
            origin: other,
            visit: number,
            status,
            ..
        } = &event.what
        {
            if other.as_slice() == origin && *number == visit {
                last = *status;
            }
        }
    }
    last
}

fn is_end(status: Status) -> bool {
    status != Status::Created && status != Status::Ongoing
}

/// The kids of a held object.
fn kids_of(alloc: Global, history: &[Plain], name: Name) -> Result<Option<Vec<Name>>, Memory> {
    for event in history {
        if let What::Batch(all) = &event.what {
            for stored in all {
                if stored.name == name {
                    return Ok(Some(Vec::from_slice(alloc, &stored.kids)?));
                }
            }
        }
    }
    Ok(None)
}

fn is_held(history: &[Plain], name: Name) -> bool {
    for event in history {
        if let What::Batch(all) = &event.what {
            if all.iter().any(|stored| stored.name == name) {
                return true;
            }
        }
    }
    false
}

/// A name that is reached and not held, with the one that leads to it. The objects of these tests reach fewer than a
/// hundred.
fn open_at(
    alloc: Global,
    history: &[Plain],
    snapshot: Name,
) -> Result<Option<(Name, Name)>, Memory> {
    let mut left = Vec::new(alloc);
    left.push(snapshot)?;
    for _turn in 0..100 {
        let Some(parent) = left.pop() else {
            return Ok(None);
        };
        let Some(kids) = kids_of(alloc, history, parent)? else {
            return Ok(None);
        };
        for kid in &kids {
            if !is_held(history, *kid) {
                return Ok(Some((parent, *kid)));
            }
            left.push(*kid)?;
        }
    }
    Ok(None)
}

/// What is against the visit.
fn visit_cause(openers: &[u32], by: u32, visit: u64) -> Option<Said> {
    let have = openers.len() as u64;
    if visit == 0 || visit > have {
        return Some(Said::NoVisit(have));
    }
    let opener = openers.get(visit as usize - 1).copied();
    match opener {
        Some(opener) => {
            if opener == by {
                None
            } else {
                Some(Said::NotYours(opener))
            }
        }
        None => None,
    }
}

/// What is against the snapshot.
fn snapshot_cause(
    alloc: Global,
    history: &[Plain],
    status: Status,
    id: [u8; 20],
) -> Result<Option<Said>, Memory> {
    let name = Name {
        kind: Kind::Snapshot,
        id,
    };
    if !is_held(history, name) {
        return Ok(Some(Said::NoSnapshot(name)));
    }
    if status != Status::Full {
        return Ok(None);
    }
    match open_at(alloc, history, name)? {
        Some((parent, child)) => Ok(Some(Said::NotClosed(parent, child))),
        None => Ok(None),
    }
}

fn mark_cause(
    alloc: Global,
    history: &[Plain],
    by: u32,
    origin: &[u8],
    visit: u64,
    status: Status,
    snapshot: Option<[u8; 20]>,
) -> Result<Option<Said>, Memory> {
    let openers = openers(alloc, history, origin)?;
    if let Some(cause) = visit_cause(&openers, by, visit) {
        return Ok(Some(cause));
    }
    let last = last_status(history, origin, visit);
    if is_end(last) {
        return Ok(Some(Said::Ended(last)));
    }
    match snapshot {
        Some(id) => snapshot_cause(alloc, history, status, id),
        None => Ok(None),
    }
}

fn has_name(all: &[Stored], name: Name) -> bool {
    all.iter().any(|stored| stored.name == name)
}

/// The entries that are not held, each once.
fn new_ones(alloc: Global, history: &[Plain], entries: &[Entry]) -> Result<Vec<Stored>, Memory> {
    let mut out = Vec::new(alloc);
    for entry in entries {
        if !is_held(history, entry.name) && !has_name(&out, entry.name) {
            out.push(stored_of(alloc, entry)?)?;
        }
    }
    Ok(out)
}

fn batch_verdict(
    alloc: Global,
    history: &[Plain],
    by: u32,
    entries: &[Entry],
) -> Result<Verdict, Memory> {
    let number = history.len() as u64 + 1;
    let all = new_ones(alloc, history, entries)?;
    let count = u32::try_from(all.len()).map_err(|_| Memory)?;
    let event = made_event(alloc, history, by, What::Batch(all))?;
    Ok(Verdict::Allowed(event, Said::Objects(number, count)))
}

/// The verdict on an actor's wish after a history.
pub fn verdict_on(
    alloc: Global,
    history: &[Plain],
    by: u32,
    wish: &Wish,
) -> Result<Verdict, Memory> {
    let number = history.len() as u64 + 1;
    match wish {
        Wish::Batch(entries) => batch_verdict(alloc, history, by, entries.as_slice()),
        Wish::Open { origin, kind, date } => {
            let origin = Vec::from_slice(alloc, origin.as_str().as_bytes())?;
            let visit = openers(alloc, history, &origin)?.len() as u64 + 1;
            let what = What::Open {
                origin,
                kind: *kind,
                date: *date,
            };
            let event = made_event(alloc, history, by, what)?;
            Ok(Verdict::Allowed(event, Said::Visit(number, visit)))
        }
        Wish::Mark {
            origin,
            visit,
            status,
            snapshot,
        } => {
            let origin = Vec::from_slice(alloc, origin.as_str().as_bytes())?;
            let cause = mark_cause(alloc, history, by, &origin, *visit, *status, *snapshot)?;
            if let Some(cause) = cause {
                return Ok(Verdict::Refused(cause));
            }
            let what = What::Mark {
                origin,
                visit: *visit,
                status: *status,
                snapshot: *snapshot,
            };
            let event = made_event(alloc, history, by, what)?;
            Ok(Verdict::Allowed(event, Said::Marked(number)))
        }
    }
}
