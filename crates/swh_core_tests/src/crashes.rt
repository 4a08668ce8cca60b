//! A crash between each two device calls of the event that ends a visit as full, and what stands then.
use crate::doing::Doing;
use crate::scripts::{OPEN, ORIGIN, Row, are_said};
use crate::wished::{Mark, Wished};
use crate::worked::{CONTENT, DIRECTORY, SNAPSHOT, SNAPSHOT_ID};
use std::test::Fail;
use swh_base::{Sha1Namer, Status};
use swh_core::Held;
use swh_naive_core::Said;

const OBJECTS: Wished = Wished::Batch(&[CONTENT, DIRECTORY, SNAPSHOT]);

const FULL: Wished = Wished::Mark(ORIGIN, 1, Mark::Full(SNAPSHOT_ID));

/// The store with a content, a directory and a snapshot.
const STORE: &[u8] = b"\x01\x00\x00\x00\x00\x00\x00\x00\n\
\x83\xba\xaea\x80Ne\xccs\xa7 \x1arRu\x0cv\x06j0version 1\n\
\x02\x00\x00\x00\x00\x00\x00\x00$\xd82\x9f\xc1\xcc\x93\x87\x80\xff\xdd\x9f\x94\xe0\xd3d\xe0\xeat\xf5y\
100644 test.txt\x00\x83\xba\xaea\x80Ne\xccs\xa7 \x1arRu\x0cv\x06j0\x05\x00\x00\x00\x00\x00\x00\x00#\xbf\
\xbf\xdb\xb9!\x0f\xa5\xc0e\x0f\xb0S;)\x88\xa1\x8f\x01^1directory b\x0020:\xd82\x9f\xc1\xcc\x93\x87\x80\
\xff\xdd\x9f\x94\xe0\xd3d\xe0\xeat\xf5y";

/// The ledger of an opening and a batch of these objects, with a closed gate.
const BEFORE: &[u8] = b"SWHARC1\n\
\x01O\x00\x00\x00\x1c\x00\x00\x00\x00\x01\x00\x00\x00\x00;\x9a\xca\x00https://e.org/p\x01B\x00\x00\x00\
\x18\x00\x00\x00\x00\x00\x00\x00\x00\x00\x00\x00\x00\x00\x00\x00\x00\x00\x00\x00\xa8\x00\x00\x00\x03\x00";

/// A front of the record of a full visit is there.
const BEGUN: &[u8] = b"SWHARC1\n\
\x01O\x00\x00\x00\x1c\x00\x00\x00\x00\x01\x00\x00\x00\x00;\x9a\xca\x00https://e.org/p\x01B\x00\x00\x00\
\x18\x00\x00\x00\x00\x00\x00\x00\x00\x00\x00\x00\x00\x00\x00\x00\x00\x00\x00\x00\xa8\x00\x00\x00\x03\x00\
T\x00\x00\x001\x00\x00";

/// All of the record is there, and its gate is closed.
const CLOSED: &[u8] = b"SWHARC1\n\
\x01O\x00\x00\x00\x1c\x00\x00\x00\x00\x01\x00\x00\x00\x00;\x9a\xca\x00https://e.org/p\x01B\x00\x00\x00\
\x18\x00\x00\x00\x00\x00\x00\x00\x00\x00\x00\x00\x00\x00\x00\x00\x00\x00\x00\x00\xa8\x00\x00\x00\x03\x00\
T\x00\x00\x001\x00\x00\x00\x00\x03\x00\x00\x00\x00\x00\x00\x00\x01\x01\xbf\xbf\xdb\xb9!\x0f\xa5\xc0e\x0f\
\xb0S;)\x88\xa1\x8f\x01^1https://e.org/p\x00";

/// Its gate is open.
const OPENED: &[u8] = b"SWHARC1\n\
\x01O\x00\x00\x00\x1c\x00\x00\x00\x00\x01\x00\x00\x00\x00;\x9a\xca\x00https://e.org/p\x01B\x00\x00\x00\
\x18\x00\x00\x00\x00\x00\x00\x00\x00\x00\x00\x00\x00\x00\x00\x00\x00\x00\x00\x00\xa8\x00\x00\x00\x03\x01\
T\x00\x00\x001\x00\x00\x00\x00\x03\x00\x00\x00\x00\x00\x00\x00\x01\x01\xbf\xbf\xdb\xb9!\x0f\xa5\xc0e\x0f\
\xb0S;)\x88\xa1\x8f\x01^1https://e.org/p\x00";

/// With so many device calls made, the ledger that a crash leaves, and what is told of it. The record is written and made
/// durable, and then its gate.
const CRASHES: &[(u32, &[u8], Said)] = &[
    (0, BEFORE, Said::Opened(2)),
    (0, BEGUN, Said::NotImage(0)),
    (1, BEFORE, Said::Opened(2)),
    (1, BEGUN, Said::Opened(2)),
    (1, CLOSED, Said::Opened(2)),
    (1, OPENED, Said::NotImage(0)),
    (2, BEFORE, Said::NotImage(0)),
    (2, BEGUN, Said::NotImage(0)),
    (2, CLOSED, Said::Opened(2)),
    (2, OPENED, Said::NotImage(0)),
    (3, BEFORE, Said::NotImage(0)),
    (3, CLOSED, Said::Opened(2)),
    (3, OPENED, Said::Opened(3)),
    (4, BEFORE, Said::NotImage(0)),
    (4, CLOSED, Said::NotImage(0)),
    (4, OPENED, Said::Opened(3)),
    // There is no fifth.
    (5, CLOSED, Said::NotImage(0)),
    (5, OPENED, Said::Opened(3)),
];

/// The steps up to a crash, a look behind it, and the same wish once more: it is carried out where the event did not stay.
fn rows_of(crash: (u32, &'static [u8], Said)) -> [Row; 5] {
    let (made, ledger, said) = crash;
    let (front, again) = if said == Said::Opened(3) {
        (3, Said::Ended(Status::Full))
    } else {
        (2, Said::Marked(3))
    };
    [
        (Doing::Apply(0, OPEN, Held::No), Said::Visit(1, 1)),
        (Doing::Apply(0, OBJECTS, Held::No), Said::Objects(2, 3)),
        (Doing::Crash(Some((0, FULL, made)), STORE, ledger), said),
        (Doing::Look(1), Said::Front(front)),
        (Doing::Apply(0, FULL, Held::No), again),
    ]
}

#[test]
fn a_crash_between_each_two_calls(rt: HostRuntime) -> Result<(), Fail> {
    for (k, crash) in CRASHES.iter().enumerate() {
        assert!(rt;
            are_said(rt.alloc(), Sha1Namer, &rows_of(*crash))?,
            "row {k}"
        );
    }
    Ok(())
}
