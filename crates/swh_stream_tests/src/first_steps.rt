// Streams of a few commands, one more in each. The ids are those of `git hash-object`, `git mktree`, `git commit-tree` and
// `git mktag`.
use crate::loaded_streams::{Row, check};
use std::test::Fail;
use swh_base::Kind;

/// A body that was made before is not made again.
const BLOBS: &[u8] = b"blob\nmark :1\ndata 10\nversion 1\nblob\nmark :2\ndata 10\nversion 1\n";

const COMMIT: &[u8] = b"blob\nmark :1\ndata 10\nversion 1\n\
commit refs/heads/main\nmark :2\ncommitter A <a@e.org> 1000000000 +0000\ndata 3\none\nM 100644 :1 a\n";

const TAG: &[u8] = b"blob\nmark :1\ndata 10\nversion 1\n\
commit refs/heads/main\nmark :2\ncommitter A <a@e.org> 1000000000 +0000\ndata 3\none\nM 100644 :1 a\n\
tag v1\nfrom refs/heads/main\ntagger A <a@e.org> 1000000000 +0000\ndata 3\nrel\n";

/// A commit on a ref that was reset has no parent: the first one is made again.
const RESET: &[u8] = b"blob\nmark :1\ndata 10\nversion 1\n\
commit refs/heads/main\nmark :2\ncommitter A <a@e.org> 1000000000 +0000\ndata 3\none\nM 100644 :1 a\n\
reset refs/heads/main\n\n\
commit refs/heads/main\nmark :2\ncommitter A <a@e.org> 1000000000 +0000\ndata 3\none\nM 100644 :1 a\n";

/// The second of these commits has the first as its parent.
const PARENT: &[u8] = b"blob\nmark :1\ndata 10\nversion 1\n\
commit refs/heads/main\nmark :2\ncommitter A <a@e.org> 1000000000 +0000\ndata 3\none\nM 100644 :1 a\n\
blob\nmark :3\ndata 6\nhello\n\
commit refs/heads/main\nmark :2\ncommitter A <a@e.org> 1000000000 +0000\ndata 3\ntwo\nM 100644 :3 b\n";

const ROWS: &[Row] = &[
    Row {
        title: "one body twice",
        stream: BLOBS,
        objects: 2,
        snapshot: b"1a8893e6a86f444e8be8e7bda6cb34fb1735a00e",
        tips: &[(Kind::Content, b"83baae61804e65cc73a7201a7252750c76066a30")],
    },
    Row {
        title: "a commit",
        stream: COMMIT,
        objects: 4,
        snapshot: b"f742be859fe26b459cd920f7e4e54a0435107817",
        tips: &[
            (Kind::Directory, b"0685a16c7efc3846f5ca6c9e541bf20d9475de91"),
            (Kind::Revision, b"a3a56d0384cbed8b667ca40edb526d14cf2bfe70"),
        ],
    },
    Row {
        title: "a tag",
        stream: TAG,
        objects: 5,
        snapshot: b"8655ab85b2be81d8922a260568f9c26bb5d293b7",
        tips: &[(Kind::Release, b"62e10812e13a4a48f5880daf1583e2be7a2fef7f")],
    },
    Row {
        title: "a commit after a reset",
        stream: RESET,
        objects: 4,
        snapshot: b"f742be859fe26b459cd920f7e4e54a0435107817",
        tips: &[(Kind::Revision, b"a3a56d0384cbed8b667ca40edb526d14cf2bfe70")],
    },
    Row {
        title: "a commit with a parent",
        stream: PARENT,
        objects: 7,
        snapshot: b"e2de7737d286626aa5250df70d0578c86763381a",
        tips: &[(Kind::Revision, b"b39ab3a96f1235041d4a6a4638d6fa5050e85ac1")],
    },
];

#[test]
fn first_steps(rt: HostRuntime) -> Result<(), Fail> {
    let alloc = rt.alloc();
    for row in ROWS {
        check(&rt, alloc, row)?;
    }
    Ok(())
}
