// Visits as JSON.
use std::alloc::{AllocError, Global};
use std::test::Fail;
use swh_base::{Items, Memory, Status, VisitKind};
use swh_model::Visit;
use swh_replies::listed_visits;

const EMPTY_SNAPSHOT: [u8; 20] =
    *b"\x1a\x88\x93\xe6\xa8\x6f\x44\x4e\x8b\xe8\xe7\xbd\xa6\xcb\x34\xfb\x17\x35\xa0\x0e";

type Mark = (Status, Option<[u8; 20]>);

fn visit(alloc: Global, number: u64, kind: VisitKind, last: Mark) -> Result<Visit, AllocError> {
    let statuses = vec![in alloc; (Status::Created, None), last]?;
    Ok(Visit {
        number,
        date: 1_000_000_000,
        kind,
        by: 7,
        statuses: Items::from_vec(statuses),
    })
}

// Each kind and each status, and what is printed of a visit with them.
static VISITS: [(VisitKind, Mark, &[u8]); 6] = [
    (
        VisitKind::Fast,
        (Status::Created, None),
        b"[{\"date\":1000000000,\"origin\":\"o\",\"snapshot\":null,\"status\":\"created\",\
\"type\":\"fast\",\"visit\":1}]",
    ),
    (
        VisitKind::Dir,
        (Status::Ongoing, None),
        b"[{\"date\":1000000000,\"origin\":\"o\",\"snapshot\":null,\"status\":\"ongoing\",\
\"type\":\"dir\",\"visit\":1}]",
    ),
    (
        VisitKind::Fast,
        (Status::Full, Some(EMPTY_SNAPSHOT)),
        b"[{\"date\":1000000000,\"origin\":\"o\",\
\"snapshot\":\"1a8893e6a86f444e8be8e7bda6cb34fb1735a00e\",\"status\":\"full\",\"type\":\"fast\",\
\"visit\":1}]",
    ),
    (
        VisitKind::Batch,
        (Status::Partial, Some([255; 20])),
        b"[{\"date\":1000000000,\"origin\":\"o\",\
\"snapshot\":\"ffffffffffffffffffffffffffffffffffffffff\",\"status\":\"partial\",\"type\":\"batch\",\
\"visit\":1}]",
    ),
    (
        VisitKind::Fast,
        (Status::NotFound, None),
        b"[{\"date\":1000000000,\"origin\":\"o\",\"snapshot\":null,\"status\":\"not_found\",\
\"type\":\"fast\",\"visit\":1}]",
    ),
    (
        VisitKind::Fast,
        (Status::Failed, None),
        b"[{\"date\":1000000000,\"origin\":\"o\",\"snapshot\":null,\"status\":\"failed\",\
\"type\":\"fast\",\"visit\":1}]",
    ),
];

fn shows(alloc: Global, kind: VisitKind, last: Mark, body: &[u8]) -> Result<bool, Memory> {
    let visits = vec![in alloc; visit(alloc, 1, kind, last)?]?;
    let shown = listed_visits(alloc, b"o", visits.as_slice())?;
    Ok(shown.status == 200 && shown.json && shown.body.as_slice() == body)
}

#[test]
fn each_kind_and_status(rt: HostRuntime) -> Result<(), Fail> {
    for (kind, last, body) in &VISITS {
        assert!(rt; shows(rt.alloc(), *kind, *last, body)?);
    }
    Ok(())
}

// Two visits of an origin with a quote, a backslash and bytes that are escaped.
#[test]
fn the_latest_first(rt: HostRuntime) -> Result<(), Fail> {
    let visits = vec![in rt.alloc();
        visit(rt.alloc(), 1, VisitKind::Fast, (Status::Failed, None))?,
        visit(rt.alloc(), 2, VisitKind::Dir, (Status::Ongoing, None))?,
    ]?;
    let origin = b"https://e.org/a;b\"\xc3\xa9\\\x7f";
    let shown = listed_visits(rt.alloc(), origin, visits.as_slice())?;
    let text: &[u8] = b"[{\"date\":1000000000,\"origin\":\"https://e.org/a%3Bb\\\"%C3%A9\\\\%7F\",\
\"snapshot\":null,\"status\":\"ongoing\",\"type\":\"dir\",\"visit\":2},{\"date\":1000000000,\
\"origin\":\"https://e.org/a%3Bb\\\"%C3%A9\\\\%7F\",\"snapshot\":null,\"status\":\"failed\",\
\"type\":\"fast\",\"visit\":1}]";
    assert!(rt; shown.body.as_slice() == text);
    Ok(())
}
