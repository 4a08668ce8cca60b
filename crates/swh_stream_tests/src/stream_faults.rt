// Streams that name something that is not there. Places and causes are the format's, counted by hand.
use crate::loaded_streams::load;
use std::alloc::{AllocError, Global};
use std::process::Abort;
use std::test::Fail;
use swh_fastload::StreamWhy::{self, Branch, End, Grammar, Mark, Place};
use swh_fastload::{BadStream, InputFault};

/// What begins each stream. Mark 1 is a blob, mark 2 a commit with the files `a` and `d/b`, mark 3 a tag of it.
const FRONT: &[u8] = b"blob\nmark :1\ndata 1\nx\n\
commit m\nmark :2\ncommitter A <a> 1 +0000\ndata 0\nM 644 :1 a\nM 644 :1 d/b\n\
tag v1\nmark :3\nfrom :2\ndata 0\n";

/// A commit on a ref without a tip, up to its message.
const COMMIT: &[u8] = b"commit n\ncommitter A <a> 1 +0000\ndata 0\n";

/// What follows, where in it the stream breaks, and why.
type Row = (&'static [u8], u64, StreamWhy);

/// What follows the front and the commit.
const IN_COMMIT: &[Row] = &[
    // Marks that are not set, or of another kind.
    (b"M 644 :9 a\n", 0, Mark),
    (b"M 644 :2 a\n", 0, Mark),
    (b"M 644 :3 a\n", 0, Mark),
    (b"from :9\n", 0, Mark),
    (b"from :1\n", 0, Mark),
    (b"from :3\n", 0, Mark),
    (b"merge :9\n", 0, Mark),
    (b"from :2\nmerge :1\n", 8, Mark),
    (b"merge :2\nmerge :3\n", 9, Mark),
    // Refs without a tip, or with one that is no commit.
    (b"from none\n", 0, Branch),
    (
        b"from 0000000000000000000000000000000000000000\n",
        0,
        Branch,
    ),
    (b"from n\n", 0, Branch),
    (b"from refs/tags/v1\n", 0, Branch),
    (b"merge none\n", 0, Branch),
    (b"from :2\nmerge refs/tags/v1^0\n", 8, Branch),
    // Sources that are not there.
    (b"C a f\n", 0, Place),
    (b"from :2\nC e f\n", 8, Place),
    (b"from :2\nR a/x f\n", 8, Place),
    (b"from :2\ndeleteall\nC a f\n", 18, Place),
    (b"from :2\ndeleteall\nR d f\n", 18, Place),
    (b"from :2\nD d/b\nR d f\n", 14, Place),
    (b"from :2\nR a b\nC a c\n", 14, Place),
    // The first of two faults.
    (b"from :9\nM 644 :9 a\n", 0, Mark),
    (b"from none\nmerge :9\n", 0, Branch),
    (b"from :2\nC e f\nM 644 :9 a\n", 8, Place),
    (b"M 644 :9 a\nC e f\n", 0, Mark),
    (b"M 644 :9 a\nfoo\n", 0, Mark),
    (b"from :9\nfoo\n", 0, Mark),
    (b"M 644 :9 a\nM 644 :1", 0, Mark),
    // A commit that wants data or the rest of a line is not judged.
    (b"from :9\nM 644 inline a\n", 23, End),
    (b"from :9\nM 644 inline a\nfoo\n", 23, Grammar),
    (b"from :9", 7, End),
];

/// What follows the front.
const COMMANDS: &[Row] = &[
    // Tags and resets.
    (b"tag w\nfrom :9\ndata 0\n", 6, Mark),
    (b"tag w\nmark :4\nfrom :4\ndata 0\n", 14, Mark),
    (b"tag w\nfrom none\ndata 0\n", 6, Branch),
    (b"tag w\nfrom refs/tags/v1\ndata 0\n", 6, Branch),
    (b"reset m\ntag w\nfrom m\ndata 0\n", 14, Branch),
    (b"reset n\nfrom :9\n", 8, Mark),
    (b"reset n\nfrom :1\n", 8, Mark),
    (b"reset n\nfrom :3\n", 8, Mark),
    (b"reset n\nfrom none\n", 8, Branch),
    (b"reset n\nfrom refs/tags/v1\n", 8, Branch),
    (b"tag w\nfrom :9\n", 14, End),
    (b"tag w\nfrom :9\nfoo\n", 14, Grammar),
    // What was set is taken away, or set anew.
    (
        b"reset m\ncommit n\ncommitter A <a> 1 +0000\ndata 0\nfrom m\n",
        48,
        Branch,
    ),
    (
        b"reset m\ncommit n\ncommitter A <a> 1 +0000\ndata 0\nmerge m\n",
        48,
        Branch,
    ),
    (
        b"reset m\nfrom 0000000000000000000000000000000000000000\n\
commit n\ncommitter A <a> 1 +0000\ndata 0\nfrom m^0\n",
        94,
        Branch,
    ),
    (
        b"commit n\nmark :4\ncommitter A <a> 1 +0000\ndata 0\nfrom :4\n",
        48,
        Mark,
    ),
    (
        b"commit n\nmark :1\ncommitter A <a> 1 +0000\ndata 0\nM 644 :1 a\n\
commit n\ncommitter A <a> 1 +0000\ndata 0\nM 644 :1 b\n",
        99,
        Mark,
    ),
    (
        b"blob\nmark :2\ndata 0\ncommit n\ncommitter A <a> 1 +0000\ndata 0\nfrom :2\n",
        60,
        Mark,
    ),
];

/// How a stream of the front and these two parts breaks.
fn fault_of(alloc: Global, middle: &[u8], back: &[u8]) -> Result<Option<InputFault>, AllocError> {
    let mut stream = Vec::from_slice(alloc, FRONT)?;
    stream.extend_from_slice(middle)?;
    stream.extend_from_slice(back)?;
    match load(alloc, stream.as_slice())? {
        Ok(_) => Ok(None),
        Err(fault) => Ok(Some(fault)),
    }
}

/// Checks that each row breaks as it says, behind the front and these bytes.
fn check_rows(rt: &impl Abort, alloc: Global, middle: &[u8], rows: &[Row]) -> Result<(), Fail> {
    assert_eq!(rt; fault_of(alloc, middle, b"")?, None);
    let before = (FRONT.len() as u64).saturating_add(middle.len() as u64);
    for (number, (back, place, why)) in rows.iter().enumerate() {
        let fault = InputFault::Bad(BadStream::Stream {
            at: before.saturating_add(*place),
            why: *why,
        });
        assert_eq!(rt;
            fault_of(alloc, middle, back)?,
            Some(fault),
            "row {number} behind {before} bytes"
        );
    }
    Ok(())
}

#[test]
fn faults(rt: HostRuntime) -> Result<(), Fail> {
    let alloc = rt.alloc();
    check_rows(&rt, alloc, COMMIT, IN_COMMIT)?;
    check_rows(&rt, alloc, b"", COMMANDS)
}
