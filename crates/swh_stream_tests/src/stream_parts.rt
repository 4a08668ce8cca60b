// Streams that are read part by part, with the ids that git gives. Places are counted by hand.
use std::alloc::{AllocError, Global};
use std::process::Abort;
use std::test::Fail;
use swh_base::Kind::{self, Content, Directory, Revision};
use swh_base::{Name, Sha1Namer};
use swh_fastload::StreamWhy::{self, End, Mark};
use swh_fastload::{BadStream, InputFault, StreamPart, StreamParts, Window};
use swh_memory_input::MemorySource;
use swh_object::Object;

/// What begins each stream: a content, and a commit with it.
const FRONT: &[u8] = b"blob\nmark :1\ndata 10\nversion 1\n\
commit refs/heads/main\nmark :2\ncommitter A <a@e.org> 1000000000 +0000\ndata 3\none\nM 100644 :1 a\n";

/// Another content, and a commit with both on the first.
const SECOND: &[u8] = b"blob\nmark :3\ndata 6\nhello\n\
commit refs/heads/main\ncommitter A <a@e.org> 1000000000 +0000\ndata 3\ntwo\nM 100644 :3 b\n";

/// The objects of a part by their kinds and ids in digits.
type Given = &'static [(Kind, &'static [u8])];

const FIRST_BLOB: Given = &[(Content, b"83baae61804e65cc73a7201a7252750c76066a30")];

const FIRST_COMMIT: Given = &[
    (Directory, b"0685a16c7efc3846f5ca6c9e541bf20d9475de91"),
    (Revision, b"a3a56d0384cbed8b667ca40edb526d14cf2bfe70"),
];

const SECOND_BLOB: Given = &[(Content, b"ce013625030ba8dba906f756967f9e9ca394464a")];

const SECOND_COMMIT: Given = &[
    (Directory, b"3cba666bf165b8f6509284bc620ffc01c4346e2f"),
    (Revision, b"b39ab3a96f1235041d4a6a4638d6fa5050e85ac1"),
];

/// What comes behind the parts.
#[derive(Clone, Copy)]
enum Behind {
    /// The snapshot of this id, in digits.
    Snapshot(&'static [u8]),
    /// The stream breaks at this byte behind the front.
    Breaks(u64, StreamWhy),
    /// The source fails.
    Fails,
}

/// What follows the front, the calls of the source that fail, the parts that are given, and what comes behind them.
type Row = (&'static [u8], &'static [u64], &'static [Given], Behind);

const ROWS: &[Row] = &[
    (
        SECOND,
        &[],
        &[FIRST_BLOB, FIRST_COMMIT, SECOND_BLOB, SECOND_COMMIT],
        Behind::Snapshot(b"e2de7737d286626aa5250df70d0578c86763381a"),
    ),
    // A command that makes nothing new.
    (
        b"blob\nmark :9\ndata 10\nversion 1\n",
        &[],
        &[FIRST_BLOB, FIRST_COMMIT, &[]],
        Behind::Snapshot(b"f742be859fe26b459cd920f7e4e54a0435107817"),
    ),
    // A fault of the third command leaves the objects of the first two.
    (
        b"tag v1\nfrom :9\ndata 0\n",
        &[],
        &[FIRST_BLOB, FIRST_COMMIT],
        Behind::Breaks(7, Mark),
    ),
    (
        b"blob\ndata 5\nab",
        &[],
        &[FIRST_BLOB, FIRST_COMMIT],
        Behind::Breaks(14, End),
    ),
    // The third call of the source is in the commit.
    (SECOND, &[2], &[FIRST_BLOB], Behind::Fails),
];

/// The parts of a row's stream, which comes in small pieces.
fn parts_of(
    alloc: Global,
    back: &[u8],
    failing: &[u64],
) -> Result<StreamParts<Sha1Namer, MemorySource>, AllocError> {
    let mut stream = Vec::from_slice(alloc, FRONT)?;
    stream.extend_from_slice(back)?;
    let failing = Vec::from_slice(alloc, failing)?;
    let source = MemorySource::new(String::new(alloc), stream, 61, failing);
    let window = Window::new(alloc)?;
    Ok(StreamParts::new(alloc, window, Sha1Namer, source))
}

/// Whether the objects are those that are given, in their order.
fn are_given(objects: &[Object<Sha1Namer>], given: Given) -> bool {
    if objects.len() != given.len() {
        return false;
    }
    for (object, (kind, id)) in objects.iter().zip(given) {
        if Some(object.name()) != Name::from_hex(*kind, id) {
            return false;
        }
    }
    true
}

/// Whether a part gives these objects, with more of the stream behind them.
fn gives(part: Result<StreamPart<Sha1Namer>, InputFault>, given: Given) -> bool {
    match part {
        Ok(StreamPart::More(objects)) => are_given(objects.as_slice(), given),
        Ok(StreamPart::Last(_)) => false,
        Err(_) => false,
    }
}

/// Whether this is what comes behind the parts.
fn ends(part: Result<StreamPart<Sha1Namer>, InputFault>, behind: Behind) -> bool {
    let (last, fault) = match part {
        Ok(StreamPart::More(_)) => return false,
        Ok(StreamPart::Last(last)) => (Some(last.snapshot), None),
        Err(fault) => (None, Some(fault)),
    };
    match behind {
        Behind::Snapshot(id) => {
            let wanted = Name::from_hex(Kind::Snapshot, id);
            fault.is_none() && last == wanted.map(|name| name.id)
        }
        Behind::Breaks(place, why) => {
            let at = place.saturating_add(FRONT.len() as u64);
            fault == Some(InputFault::Bad(BadStream::Stream { at, why }))
        }
        Behind::Fails => fault == Some(InputFault::ReadFault),
    }
}

/// Checks the parts of a row, one after another.
fn check_row(rt: &impl Abort, alloc: Global, number: usize, row: &Row) -> Result<(), Fail> {
    let (back, failing, given, behind) = row;
    let mut parts = parts_of(alloc, back, failing)?;
    for (place, objects) in given.iter().enumerate() {
        let part = parts.next(alloc, None);
        assert!(rt; gives(part, objects), "row {number}, part {place}");
    }
    let part = parts.next(alloc, None);
    assert!(rt; ends(part, *behind), "row {number}, behind its parts");
    let faults = match behind {
        Behind::Fails => 1,
        Behind::Snapshot(_) | Behind::Breaks(..) => 0,
    };
    assert_eq!(rt; parts.close().faults(), faults, "row {number}");
    Ok(())
}

#[test]
fn parts(rt: HostRuntime) -> Result<(), Fail> {
    let alloc = rt.alloc();
    for (number, row) in ROWS.iter().enumerate() {
        check_row(&rt, alloc, number, row)?;
    }
    Ok(())
}
