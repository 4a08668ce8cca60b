//! Replays of events: what is held, where the files end, and the first event that may not happen.
ghost use Rattle.std.specs.Prelude.{IfOk};
ghost use Rattle.std.specs.List.{AllByRecursion};
ghost use Rattle.swh_model.specs.Happens.{IsGoodEvent};

use std::alloc::Global;
use std::test::Fail;
use swh_base::{ByteNamer, FILE_LIMIT, Items, Kind, Name, Status, Url, VisitKind};
use swh_model::{Event, EventKind, length_of_ledger, length_of_store};
use swh_object::Object;
use swh_replay::{ReplayFault, Replayed, replay_all};

/// `https://e.org/p`.
fn url(alloc: Global) -> Result<Url, Fail> {
    match Url::new(alloc, "https://e.org/p") {
        Ok(url) => Ok(url),
        Err(_) => Err(Fail::from("a URL")),
    }
}

/// A visit that the first actor opens, a mark of the first visit by somebody, or the first actor's batch of one object,
/// whose id is nineteen zeros and the sum of the body's bytes.
enum Happening {
    Opened,
    Marked(u32, Status, Option<[u8; 20]>),
    Added(Kind, &'static [u8]),
}

fn opening(alloc: Global) -> Result<Event, Fail>
    ensures { IfOk result IsGoodEvent }
{
    let what = EventKind::Open {
        origin: url(alloc)?,
        kind: VisitKind::Fast,
        date: 1_000_000_000,
    };
    Ok(Event { by: 1, what })
}

fn mark(alloc: Global, by: u32, status: Status, snapshot: Option<[u8; 20]>) -> Result<Event, Fail>
    ensures { IfOk result IsGoodEvent }
{
    let what = EventKind::Mark {
        origin: url(alloc)?,
        visit: 1,
        status,
        snapshot,
    };
    Ok(Event { by, what })
}

fn batch(alloc: Global, kind: Kind, body: &[u8]) -> Result<Event, Fail>
    ensures { IfOk result IsGoodEvent }
{
    let Ok(object) = Object::make(alloc, &ByteNamer, kind, body.to_vec(alloc)?) else {
        return Err(Fail::from("an object"));
    };
    let mut entries = Vec::with_capacity(alloc, 1)?;
    entries.push(object.into_entry())?;
    let what = EventKind::Batch(Items::from_vec(entries));
    Ok(Event { by: 1, what })
}

fn event_of(alloc: Global, happening: &Happening) -> Result<Event, Fail>
    ensures { IfOk result IsGoodEvent }
{
    match happening {
        Happening::Opened => opening(alloc),
        Happening::Marked(by, status, snapshot) => mark(alloc, *by, *status, *snapshot),
        Happening::Added(kind, body) => batch(alloc, *kind, body),
    }
}

fn events_of(alloc: Global, happenings: &[Happening]) -> Result<Vec<Event>, Fail>
    ensures { IfOk result (λ events. AllByRecursion IsGoodEvent events.items) }
{
    let mut events = Vec::new(alloc);
    for happening in happenings {
        events.push(event_of(alloc, happening)?)?;
    }
    Ok(events)
}

fn replayed(alloc: Global, events: &[Event]) -> Result<Replayed, ReplayFault>
    requires { AllByRecursion IsGoodEvent events.now }
{
    let store_end = length_of_store(events)?;
    let ledger_end = length_of_ledger(events)?;
    if store_end > FILE_LIMIT || ledger_end > FILE_LIMIT {
        return Err(ReplayFault::Memory);
    }
    replay_all(alloc, events)
}

/// The number of the event that is refused, or 0 where none is.
fn refused(alloc: Global, happenings: &[Happening]) -> Result<u64, Fail> {
    let events = events_of(alloc, happenings)?;
    match replayed(alloc, events.as_slice()) {
        Ok(_) => Ok(0),
        Err(ReplayFault::Refused { event }) => Ok(event),
        Err(ReplayFault::Memory) => Err(Fail::from("memory")),
    }
}

/// Events, and the number of the one that is refused, or 0.
type Case = (&'static [Happening], u64);

/// A snapshot with the one branch `b` to the revision whose id is twenty times 0x11. The sum of its bytes: 1,009 of
/// `revision b`, 156 of `20:` and twenty times 17 are 1,505, and that is 225 modulo 256.
const OPEN_SNAPSHOT: &[u8] =
    b"revision b\020:\x11\x11\x11\x11\x11\x11\x11\x11\x11\x11\x11\x11\x11\x11\x11\x11\x11\x11\x11\x11";

const OPEN_ID: [u8; 20] = *b"\0\0\0\0\0\0\0\0\0\0\0\0\0\0\0\0\0\0\0\xe1";

/// A snapshot with the one branch `b` to the content whose id is nineteen zeros and 0xc3, as that of `ab`. The sum of its
/// bytes: 893 of `content b`, 156 of `20:` and 195 of the id are 1,244, and that is 220 modulo 256.
const SNAPSHOT: &[u8] = b"content b\020:\0\0\0\0\0\0\0\0\0\0\0\0\0\0\0\0\0\0\0\xc3";

const SNAPSHOT_ID: [u8; 20] = *b"\0\0\0\0\0\0\0\0\0\0\0\0\0\0\0\0\0\0\0\xdc";

const CASES: &[Case] = &[
    // A name that is held, with the same body or another.
    (
        &[
            Happening::Added(Kind::Content, b"ab"),
            Happening::Added(Kind::Content, b"cd"),
            Happening::Added(Kind::Content, b"ab"),
        ],
        3,
    ),
    (
        &[
            Happening::Added(Kind::Content, b"ab"),
            Happening::Added(Kind::Content, b"ba"),
        ],
        2,
    ),
    // It is refused before what follows.
    (
        &[
            Happening::Added(Kind::Content, b"ab"),
            Happening::Opened,
            Happening::Added(Kind::Content, b"ab"),
            Happening::Added(Kind::Content, b"cd"),
            Happening::Marked(2, Status::Ongoing, None),
        ],
        3,
    ),
    // Marks of no visit, of another's and of one that ended.
    (&[Happening::Marked(1, Status::Ongoing, None)], 1),
    (
        &[
            Happening::Opened,
            Happening::Marked(2, Status::Ongoing, None),
        ],
        2,
    ),
    (
        &[
            Happening::Opened,
            Happening::Marked(1, Status::Failed, None),
            Happening::Marked(1, Status::Ongoing, None),
        ],
        3,
    ),
    // A full mark of a snapshot that is not held; of one that leads to what is not held, of which a partial mark may be.
    (
        &[
            Happening::Opened,
            Happening::Marked(1, Status::Full, Some([0; 20])),
        ],
        2,
    ),
    (
        &[
            Happening::Opened,
            Happening::Added(Kind::Snapshot, OPEN_SNAPSHOT),
            Happening::Marked(1, Status::Partial, Some(OPEN_ID)),
        ],
        0,
    ),
    (
        &[
            Happening::Opened,
            Happening::Added(Kind::Snapshot, OPEN_SNAPSHOT),
            Happening::Marked(1, Status::Full, Some(OPEN_ID)),
        ],
        3,
    ),
    // Marks before what they want, and behind it.
    (
        &[
            Happening::Opened,
            Happening::Added(Kind::Snapshot, SNAPSHOT),
            Happening::Marked(1, Status::Full, Some(SNAPSHOT_ID)),
            Happening::Added(Kind::Content, b"ab"),
        ],
        3,
    ),
    (
        &[
            Happening::Opened,
            Happening::Added(Kind::Snapshot, SNAPSHOT),
            Happening::Added(Kind::Content, b"ab"),
            Happening::Marked(1, Status::Full, Some(SNAPSHOT_ID)),
        ],
        0,
    ),
    (
        &[
            Happening::Opened,
            Happening::Marked(1, Status::Partial, Some([0; 20])),
            Happening::Added(Kind::Snapshot, b""),
        ],
        2,
    ),
];

#[test]
fn the_first_event_that_may_not_happen_is_refused(rt: HostRuntime) -> Result<(), Fail> {
    let alloc = rt.alloc();
    for (happenings, event) in CASES {
        assert!(rt; refused(alloc, happenings)? == *event, "event {event}");
    }
    Ok(())
}

/// A visit with a content and an empty snapshot, which is full.
const FULL: &[Happening] = &[
    Happening::Opened,
    Happening::Added(Kind::Content, b"ab"),
    Happening::Added(Kind::Snapshot, b""),
    Happening::Marked(1, Status::Full, Some([0; 20])),
];

/// Says whether the ends, the visit and the content are those of the full visit.
fn is_full(replayed: &Replayed, origin: &Url) -> bool {
    let mut name = Name {
        kind: Kind::Content,
        id: [0; 20],
    };
    name.id[19] = 0xc3;
    let is_held = match replayed.store.get(&name) {
        Some(entry) => entry.body.as_slice() == b"ab".as_slice(),
        None => false,
    };
    let is_listed = match replayed.visits.list(origin) {
        Some(listed) => listed.len() == 1 && listed[0].statuses.as_slice().len() == 2,
        None => false,
    };
    // Two objects of 29 bytes each before their bodies, of which one has two bytes; and the magic, then records of 6 bytes
    // and payloads of 28, 24, 24 and 49 bytes.
    is_held
        && is_listed
        && replayed.store.len() == 2
        && replayed.store_end == 60
        && replayed.ledger_end == 8 + 34 + 30 + 30 + 55
}

#[test]
fn a_full_visit_is_replayed(rt: HostRuntime) -> Result<(), Fail> {
    let alloc = rt.alloc();
    let origin = url(alloc)?;
    let events = events_of(alloc, FULL)?;
    let Ok(replayed) = replayed(alloc, events.as_slice()) else {
        return Err(Fail::from("a replay"));
    };
    assert!(rt; is_full(&replayed, &origin));
    Ok(())
}
