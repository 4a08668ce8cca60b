// Objects that come again, and two bodies of one name. Nineteen zeros and the sum of the bytes are the ids here, in digits.
use crate::batch_world::read;
use std::alloc::Global;
use std::process::Abort;
use std::test::Fail;
use swh_base::{ByteNamer, Kind};

/// A batch, and the kinds and bodies that are kept of it.
struct Row {
    title: &'static str,
    batch: &'static [u8],
    kept: &'static [(Kind, &'static [u8])],
}

const ROWS: &[Row] = &[
    Row {
        title: "one body twice",
        batch: b"0000000000000000000000000000000000000078 blob 1\nx\n\
0000000000000000000000000000000000000079 blob 1\ny\n\
0000000000000000000000000000000000000078 blob 1\nx\n",
        kept: &[(Kind::Content, b"x"), (Kind::Content, b"y")],
    },
    Row {
        title: "two bodies of one name",
        batch: b"00000000000000000000000000000000000000c3 blob 2\nba\n\
00000000000000000000000000000000000000c3 blob 2\nab\n\
00000000000000000000000000000000000000c3 blob 2\nba\n",
        kept: &[(Kind::Content, b"ba"), (Kind::Content, b"ab")],
    },
    Row {
        title: "one body in two kinds",
        batch: b"0000000000000000000000000000000000000000 tree 0\n\n\
0000000000000000000000000000000000000000 blob 0\n\n\
0000000000000000000000000000000000000000 tree 0\n\n",
        kept: &[(Kind::Directory, b""), (Kind::Content, b"")],
    },
];

fn check(rt: &impl Abort, alloc: Global, row: &Row) -> Result<(), Fail> {
    let objects = read(alloc, &ByteNamer, row.batch, 7)??;
    assert_eq!(rt; objects.len(), row.kept.len(), "{}", row.title);
    for (object, (kind, body)) in objects.iter().zip(row.kept.iter()) {
        assert_eq!(rt; object.name().kind, *kind, "{}", row.title);
        assert_eq!(rt; object.body(), *body, "{}", row.title);
    }
    Ok(())
}

#[test]
fn kept_objects(rt: HostRuntime) -> Result<(), Fail> {
    let alloc = rt.alloc();
    for row in ROWS {
        check(&rt, alloc, row)?;
    }
    Ok(())
}
