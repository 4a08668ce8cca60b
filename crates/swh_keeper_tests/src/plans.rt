//! What the keeper answers to plans, one after another. Ids are nineteen zeros and the sum of the body's bytes.
use crate::told::{Told, told_of};
use std::alloc::Global;
use std::test::Fail;
use swh_base::{ByteNamer, Kind, Name, Status, Url, VisitKind};
use swh_closure::Cert;
use swh_fixtures::{Archive, URL, made_archive};
use swh_keeper::{How, Plan};
use swh_object::Object;

/// A visit that is opened, a mark of the visit of a number, or of the first with a snapshot, or a batch of one object. A
/// full mark has a certificate of another name, which it lists alone.
pub enum Planned {
    Open,
    Ongoing(u64),
    Failed(u64),
    Full(Name, Name),
    Partial(Name),
    Object(Kind, &'static [u8]),
}

/// A plan by an actor of a number, and what is told.
type Row = (u32, Planned, Told);

const ZEROS: Name = Name {
    kind: Kind::Snapshot,
    id: [0; 20],
};

/// A content of `ab`, or of `ba`.
const CONTENT: Name = Name {
    kind: Kind::Content,
    id: *b"\0\0\0\0\0\0\0\0\0\0\0\0\0\0\0\0\0\0\0\xc3",
};

/// A snapshot with the one branch `b` to the revision whose id is twenty times 0x11. The sum of its bytes: 1,009 of
/// `revision b`, 156 of `20:` and twenty times 17 are 1,505, and that is 225 modulo 256.
const OPEN_SNAPSHOT: &[u8] =
    b"revision b\020:\x11\x11\x11\x11\x11\x11\x11\x11\x11\x11\x11\x11\x11\x11\x11\x11\x11\x11\x11\x11";

const OPEN: Name = Name {
    kind: Kind::Snapshot,
    id: *b"\0\0\0\0\0\0\0\0\0\0\0\0\0\0\0\0\0\0\0\xe1",
};

const MISSING: Name = Name {
    kind: Kind::Revision,
    id: [0x11; 20],
};

/// A snapshot with the one branch `b` to that content. The sum of its bytes: 893 of `content b`, 156 of `20:` and 195 of
/// the id are 1,244, and that is 220 modulo 256.
const SNAPSHOT: &[u8] = b"content b\020:\0\0\0\0\0\0\0\0\0\0\0\0\0\0\0\0\0\0\0\xc3";

const CLOSED: Name = Name {
    kind: Kind::Snapshot,
    id: *b"\0\0\0\0\0\0\0\0\0\0\0\0\0\0\0\0\0\0\0\xdc",
};

/// A visit is refused and fails.
const VISIT: &[Row] = &[
    (1, Planned::Open, Told::Opened(1, 1)),
    (1, Planned::Ongoing(2), Told::NoVisit(1)),
    (2, Planned::Ongoing(1), Told::NotYours(1)),
    (1, Planned::Failed(1), Told::Marked(2)),
    (1, Planned::Ongoing(1), Told::Ended(Status::Failed)),
];

/// A snapshot has to be held.
const NOT_HELD: &[Row] = &[
    (1, Planned::Open, Told::Opened(1, 1)),
    (1, Planned::Full(ZEROS, ZEROS), Told::NoSnapshot(ZEROS)),
    (1, Planned::Partial(ZEROS), Told::NoSnapshot(ZEROS)),
];

/// A certificate hides no gap, whether it is of the snapshot or of another root.
const GAP: &[Row] = &[
    (1, Planned::Open, Told::Opened(1, 1)),
    (
        1,
        Planned::Object(Kind::Snapshot, OPEN_SNAPSHOT),
        Told::Added(2, 1),
    ),
    (1, Planned::Full(OPEN, OPEN), Told::NotClosed(OPEN, MISSING)),
    (
        1,
        Planned::Full(OPEN, MISSING),
        Told::NotClosed(OPEN, MISSING),
    ),
    (1, Planned::Partial(OPEN), Told::Marked(3)),
];

/// A closed snapshot needs no certificate: it lists the snapshot alone, and not the content.
const ALONE: &[Row] = &[
    (1, Planned::Open, Told::Opened(1, 1)),
    (1, Planned::Object(Kind::Content, b"ab"), Told::Added(2, 1)),
    (
        1,
        Planned::Object(Kind::Snapshot, SNAPSHOT),
        Told::Added(3, 1),
    ),
    (1, Planned::Full(CLOSED, CLOSED), Told::Marked(4)),
];

/// The same with a certificate of another root.
const OTHER_ROOT: &[Row] = &[
    (1, Planned::Open, Told::Opened(1, 1)),
    (1, Planned::Object(Kind::Content, b"ab"), Told::Added(2, 1)),
    (
        1,
        Planned::Object(Kind::Snapshot, SNAPSHOT),
        Told::Added(3, 1),
    ),
    (1, Planned::Full(CLOSED, CONTENT), Told::Marked(4)),
];

/// Another body of a name collides, and one that is held is not new.
const COLLISION: &[Row] = &[
    (1, Planned::Object(Kind::Content, b"ab"), Told::Added(1, 1)),
    (
        1,
        Planned::Object(Kind::Content, b"ba"),
        Told::Collision(CONTENT),
    ),
    (1, Planned::Object(Kind::Content, b"ab"), Told::Added(2, 0)),
];

fn url(alloc: Global) -> Result<Url, Fail> {
    match Url::new(alloc, URL) {
        Ok(url) => Ok(url),
        Err(_) => Err(Fail::from("a URL")),
    }
}

fn mark(alloc: Global, visit: u64, how: How) -> Result<Plan<ByteNamer>, Fail> {
    let origin = url(alloc)?;
    Ok(Plan::Mark { origin, visit, how })
}

fn full(alloc: Global, snapshot: [u8; 20], root: Name) -> Result<How, Fail> {
    let names = Vec::from_slice(alloc, &[root])?;
    let cert = Cert { root, names };
    Ok(How::Full { snapshot, cert })
}

fn partial(snapshot: Name) -> How {
    How::Partial {
        snapshot: Some(snapshot.id),
    }
}

fn batch(alloc: Global, kind: Kind, body: &[u8]) -> Result<Plan<ByteNamer>, Fail> {
    let Ok(object) = Object::make(alloc, &ByteNamer, kind, body.to_vec(alloc)?) else {
        return Err(Fail::from("an object"));
    };
    let mut objects = Vec::with_capacity(alloc, 1)?;
    objects.push(object)?;
    Ok(Plan::Batch(objects))
}

pub fn opening(alloc: Global) -> Result<Plan<ByteNamer>, Fail> {
    let origin = url(alloc)?;
    Ok(Plan::Open {
        origin,
        kind: VisitKind::Fast,
        date: 1_000_000_000,
    })
}

fn plan_of(alloc: Global, planned: &Planned) -> Result<Plan<ByteNamer>, Fail> {
    match planned {
        Planned::Open => opening(alloc),
        Planned::Ongoing(visit) => mark(alloc, *visit, How::Ongoing),
        Planned::Failed(visit) => mark(alloc, *visit, How::Failed),
        Planned::Full(snapshot, root) => mark(alloc, 1, full(alloc, snapshot.id, *root)?),
        Planned::Partial(snapshot) => mark(alloc, 1, partial(*snapshot)),
        Planned::Object(kind, body) => batch(alloc, *kind, body),
    }
}

/// Says whether each plan is answered as its row says.
fn are_told(alloc: Global, keeper: &mut Archive<ByteNamer>, rows: &[Row]) -> Result<bool, Fail> {
    for (by, planned, told) in rows {
        let plan = plan_of(alloc, planned)?;
        if told_of(keeper.apply(*by, plan)) != *told {
            return Ok(false);
        }
    }
    Ok(true)
}

/// The same of an archive that is made for them.
fn are_told_anew(alloc: Global, rows: &[Row]) -> Result<bool, Fail> {
    let mut keeper = made_archive(alloc, ByteNamer, &[], &[])?;
    let told = are_told(alloc, &mut keeper, rows);
    let (_store, _ledger) = keeper.close();
    told
}

const HISTORIES: &[&[Row]] = &[VISIT, NOT_HELD, GAP, ALONE, OTHER_ROOT, COLLISION];

#[test]
fn each_plan_is_told_its_answer(rt: HostRuntime) -> Result<(), Fail> {
    let alloc = rt.alloc();
    for rows in HISTORIES {
        assert!(rt; are_told_anew(alloc, rows)?, "after {} plans", rows.len());
    }
    Ok(())
}

/// Two openings, of which the first meets a disk that fails.
const WOUNDED: &[Row] = &[
    (1, Planned::Open, Told::DiskFault),
    (1, Planned::Open, Told::Wounded(1)),
];

/// Says whether they are told so, where the ledger's call of a number fails and the archive is made.
fn is_wounded(alloc: Global, number: u64) -> Result<bool, Fail> {
    let Ok(mut keeper) = made_archive(alloc, ByteNamer, &[number], &[]) else {
        return Ok(false);
    };
    let told = are_told(alloc, &mut keeper, WOUNDED);
    let (_store, _ledger) = keeper.close();
    told
}

#[test]
fn a_keeper_whose_disk_failed_is_wounded(rt: HostRuntime) -> Result<(), Fail> {
    let mut wounded: u32 = 0;
    for number in 0..20 {
        if is_wounded(rt.alloc(), number)? {
            wounded = wounded.saturating_add(1);
        }
    }
    // An opening's record and its gate, each with a barrier.
    assert!(rt; wounded == 4);
    Ok(())
}
