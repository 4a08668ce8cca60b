// What happens to an archive, and what is answered to a wish.
use swh_base::{Entry, Items, Name, Status, Url, VisitKind, Which};

/// A visit of an origin. Its number is its place, from 1.
#[derive(Drop)]
pub struct Visit {
    pub number: u64,
    pub date: u64,
    pub kind: VisitKind,
    pub by: u32,
    pub statuses: Items<(Status, Option<[u8; 20]>)>,
}

/// One thing that happened, and who did it.
#[derive(Drop)]
pub struct Event {
    pub by: u32,
    pub what: EventKind,
}

#[derive(Drop)]
pub enum EventKind {
    Batch(Items<Entry>),
    Open {
        origin: Url,
        kind: VisitKind,
        date: u64,
    },
    Mark {
        origin: Url,
        visit: u64,
        status: Status,
        snapshot: Option<[u8; 20]>,
    },
}

impl EventKind {
    ghost use Rattle.std.specs.Prelude.{◌≡◌};
    ghost use Rattle.swh_model.specs.Entries.{entries_of};

    /// The entries of a batch, and none of another event.
    pub fn entries(&self) -> &[Entry]
        ensures { result.now ≡ entries_of self.now }
    {
        match self {
            EventKind::Batch(entries) => entries.as_slice(),
            _ => &[],
        }
    }
}

/// What somebody wants to add. A batch has all objects that are handed over; its event has only those that are new.
#[derive(Drop)]
pub enum Wish {
    Batch(Items<Entry>),
    Open {
        origin: Url,
        kind: VisitKind,
        date: u64,
    },
    Mark {
        origin: Url,
        visit: u64,
        status: Status,
        snapshot: Option<[u8; 20]>,
    },
}

/// What came of a wish that became an event: the number of the event, from 1, and how many objects of a batch are new,
/// or the number of the visit that was opened.
#[derive(Clone, Copy, Debug)]
pub enum Outcome {
    Added { event: u64, new: u32 },
    Opened { event: u64, visit: u64 },
    Marked { event: u64 },
}

/// Why a wish becomes no event, in the order in which the causes are looked for.
#[derive(Clone, Copy, Debug)]
pub enum No {
    Limit { which: Which, number: u64 },
    NoVisit { have: u64 },
    NotYours { by: u32 },
    Ended { status: Status },
    NoSnapshot { name: Name },
    NotClosed { parent: Name, child: Name },
    Collision { name: Name },
}

// What another thread may be handed.
fn is_sent<T: Send>(_value: &T) {}

/// An event may be handed to another thread.
pub fn event_is_sent(event: &Event) {
    is_sent(event)
}
