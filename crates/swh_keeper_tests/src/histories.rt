//! Worked histories: what is told of each wish, one after another.
use crate::model_told::Told;
use crate::wished::{Row, Wished, history_of};
use std::alloc::Global;
use std::test::Fail;
use swh_base::{ByteNamer, Kind, Name, Sha1Namer, Status};

/// A snapshot with the one branch `b` to the revision whose id is twenty times 0x11.
const OPEN_SNAPSHOT: &[u8] =
    b"revision b\020:\x11\x11\x11\x11\x11\x11\x11\x11\x11\x11\x11\x11\x11\x11\x11\x11\x11\x11\x11\x11";

/// Its id: the SHA-1 of `snapshot 34`, a NUL and its bytes.
const OPEN_ID: [u8; 20] =
    *b"\xdd\x26\xd4\x26\xd9\x24\x77\x5a\x9b\x41\xff\xc6\xf9\x40\xa5\x4b\x96\x84\xae\xa4";

/// A directory with the file `test.txt`, whose content is `version 1` and a line feed.
const DIRECTORY: &[u8] =
    b"100644 test.txt\0\x83\xba\xae\x61\x80\x4e\x65\xcc\x73\xa7\x20\x1a\x72\x52\x75\x0c\x76\x06\x6a\x30";

const CONTENT_ID: [u8; 20] =
    *b"\x83\xba\xae\x61\x80\x4e\x65\xcc\x73\xa7\x20\x1a\x72\x52\x75\x0c\x76\x06\x6a\x30";

const DIRECTORY_ID: [u8; 20] =
    *b"\xd8\x32\x9f\xc1\xcc\x93\x87\x80\xff\xdd\x9f\x94\xe0\xd3\x64\xe0\xea\x74\xf5\x79";

/// A snapshot with the one branch `b` to that directory.
const SNAPSHOT: &[u8] =
    b"directory b\020:\xd8\x32\x9f\xc1\xcc\x93\x87\x80\xff\xdd\x9f\x94\xe0\xd3\x64\xe0\xea\x74\xf5\x79";

const SNAPSHOT_ID: [u8; 20] =
    *b"\xbf\xbf\xdb\xb9\x21\x0f\xa5\xc0\x65\x0f\xb0\x53\x3b\x29\x88\xa1\x8f\x01\x5e\x31";

const ZEROS: Name = Name {
    kind: Kind::Snapshot,
    id: [0; 20],
};

/// The sum of `ab`, and of `ba`, behind nineteen zeros.
const SUM_ID: [u8; 20] = *b"\0\0\0\0\0\0\0\0\0\0\0\0\0\0\0\0\0\0\0\xc3";

/// A visit that is opened, refused and failed.
const VISIT: &[Row] = &[
    (1, Wished::Open, Told::Opened(1, 1)),
    (1, Wished::Ongoing(2), Told::NoVisit(1)),
    (2, Wished::Ongoing(1), Told::NotYours(1)),
    (1, Wished::Failed(1), Told::Marked(2)),
    (1, Wished::Ongoing(1), Told::Ended(Status::Failed)),
];

/// A full visit wants its snapshot, and all that it reaches.
const FULL: &[Row] = &[
    (1, Wished::Open, Told::Opened(1, 1)),
    (1, Wished::Full(1, [0; 20]), Told::NoSnapshot(ZEROS)),
    (
        1,
        Wished::Object(Kind::Snapshot, OPEN_SNAPSHOT),
        Told::Added(2, 1),
    ),
    (
        1,
        Wished::Full(1, OPEN_ID),
        Told::NotClosed(
            Name {
                kind: Kind::Snapshot,
                id: OPEN_ID,
            },
            Name {
                kind: Kind::Revision,
                id: [0x11; 20],
            },
        ),
    ),
];

/// What was missing closes a snapshot, whoever adds it.
const CLOSED_LATER: &[Row] = &[
    (1, Wished::Open, Told::Opened(1, 1)),
    (
        1,
        Wished::Object(Kind::Directory, DIRECTORY),
        Told::Added(2, 1),
    ),
    (
        1,
        Wished::Object(Kind::Snapshot, SNAPSHOT),
        Told::Added(3, 1),
    ),
    (
        1,
        Wished::Full(1, SNAPSHOT_ID),
        Told::NotClosed(
            Name {
                kind: Kind::Directory,
                id: DIRECTORY_ID,
            },
            Name {
                kind: Kind::Content,
                id: CONTENT_ID,
            },
        ),
    ),
    (
        2,
        Wished::Object(Kind::Content, b"version 1\n"),
        Told::Added(4, 1),
    ),
    (1, Wished::Full(1, SNAPSHOT_ID), Told::Marked(5)),
];

/// A partial visit wants the snapshot that it names, and may name none.
const PARTIAL: &[Row] = &[
    (1, Wished::Open, Told::Opened(1, 1)),
    (
        1,
        Wished::Partial(1, Some([0; 20])),
        Told::NoSnapshot(ZEROS),
    ),
    (1, Wished::Partial(1, None), Told::Marked(2)),
];

/// Two bodies of one name: ids are nineteen zeros and the sum of the body's bytes.
const COLLISION: &[Row] = &[
    (1, Wished::Object(Kind::Content, b"ab"), Told::Added(1, 1)),
    (1, Wished::Object(Kind::Content, b"ab"), Told::Added(2, 0)),
    (
        1,
        Wished::Object(Kind::Content, b"ba"),
        Told::Collision(Name {
            kind: Kind::Content,
            id: SUM_ID,
        }),
    ),
];

const HISTORIES: &[&[Row]] = &[VISIT, FULL, CLOSED_LATER, PARTIAL];

/// Says whether each wish of the histories is told its verdict.
fn are_told(alloc: Global) -> Result<bool, Fail> {
    for rows in HISTORIES {
        let (_history, is_told) = history_of(alloc, &Sha1Namer, rows)?;
        if !is_told {
            return Ok(false);
        }
    }
    Ok(true)
}

#[test]
fn each_wish_is_told_its_verdict(rt: HostRuntime) -> Result<(), Fail> {
    assert!(rt; are_told(rt.alloc())?);
    Ok(())
}

#[test]
fn two_bodies_of_one_name_collide(rt: HostRuntime) -> Result<(), Fail> {
    let (_history, is_told) = history_of(rt.alloc(), &ByteNamer, COLLISION)?;
    assert!(rt; is_told);
    Ok(())
}
