//! Events as the naive machine keeps them.
use std::alloc::Global;
use swh_base::{Entry, Memory, Name, Status, VisitKind};
use swh_model::{Event, EventKind};

/// An object that a batch added.
#[derive(Drop)]
pub struct Stored {
    pub name: Name,
    pub kids: Vec<Name>,
    pub body: Vec<u8>,
}

#[derive(Drop)]
pub enum What {
    Batch(Vec<Stored>),
    Open {
        origin: Vec<u8>,
        kind: VisitKind,
        date: u64,
    },
    Mark {
        origin: Vec<u8>,
        visit: u64,
        status: Status,
        snapshot: Option<[u8; 20]>,
    },
}

/// An event, with its record in the ledger, from its kind on, and what it adds to the store.
#[derive(Drop)]
pub struct Plain {
    pub by: u32,
    pub what: What,
    pub record: Vec<u8>,
    pub run: Vec<u8>,
}

pub fn stored_of(alloc: Global, entry: &Entry) -> Result<Stored, Memory> {
    Ok(Stored {
        name: entry.name,
        kids: Vec::from_slice(alloc, entry.kids.as_slice())?,
        body: Vec::from_slice(alloc, entry.body.as_slice())?,
    })
}

fn is_entry(entry: &Entry, stored: &Stored) -> bool {
    entry.name == stored.name && entry.body.as_slice() == stored.body.as_slice()
}

fn are_entries(entries: &[Entry], all: &[Stored]) -> bool {
    entries.len() == all.len()
        && entries
            .iter()
            .zip(all.iter())
            .all(|pair| is_entry(pair.0, pair.1))
}

fn is_what(kind: &EventKind, what: &What) -> bool {
    match kind {
        EventKind::Batch(entries) => match what {
            What::Batch(all) => are_entries(entries.as_slice(), all.as_slice()),
            _ => false,
        },
        EventKind::Open { origin, kind, date } => match what {
            What::Open {
                origin: other,
                kind: second,
                date: day,
            } => origin.as_str().as_bytes() == other.as_slice() && kind == second && date == day,
            _ => false,
        },
        EventKind::Mark {
            origin,
            visit,
            status,
            snapshot,
        } => match what {
            What::Mark {
                origin: other,
                visit: number,
                status: last,
                snapshot: id,
            } => {
                origin.as_str().as_bytes() == other.as_slice()
                    && visit == number
                    && status == last
                    && snapshot == id
            }
            _ => false,
        },
    }
}

fn is_event(event: &Event, plain: &Plain) -> bool {
    event.by == plain.by && is_what(&event.what, &plain.what)
}

/// Says whether these are the events.
pub fn are_events(events: &[Event], history: &[Plain]) -> bool {
    events.len() == history.len()
        && events
            .iter()
            .zip(history.iter())
            .all(|pair| is_event(pair.0, pair.1))
}
