// Refs that git 2.39 wrote by `git show-ref --head -d`. The snapshots' ids were reckoned beside the program, by the manifest of
// snapshots in SWHID v1.2; that of no branches is published.
use crate::batch_world::{PIECES, read_both};
use crate::batches_of_git::{EVERYTHING, ODD};
use std::alloc::Global;
use std::process::Abort;
use std::test::Fail;
use swh_base::{Kind, Name, Sha1Namer};

/// The refs of the repository of all sorts of objects.
const REFS: &[u8] = b"9482b26213cb78db00672706db2aa9334c113057 HEAD\n\
9482b26213cb78db00672706db2aa9334c113057 refs/heads/main\n\
d4a9f10c9400b7414258fb414f30b5ec3a9aa138 refs/heads/nul\n\
83baae61804e65cc73a7201a7252750c76066a30 refs/notes/blob\n\
4b825dc642cb6eb9a060e54bf8d69288fbee4904 refs/notes/tree\n\
86808e998abbbefa8fdc909cfb6e9e7db416c162 refs/tags/blob\n\
1a23e4be731d2f539deeea324686d000ccdfbfcd refs/tags/blob^{}\n\
295c0651a95ba32ac5e14f92da0161b122942cac refs/tags/light\n\
389e9c85f9b59be787df53e60398b930b3d43f5a refs/tags/outer\n\
36ed47bba91589d8411519c681de0c3cf60d7b90 refs/tags/outer^{}\n\
88a09fe28c3de8e6ebd5e51c824a3e91c1e6d8e4 refs/tags/tree\n\
d8329fc1cc938780ffdd9f94e0d364e0ea74f579 refs/tags/tree^{}\n\
f84a22337c207d4d488517d79d52f1fa842bd9f7 refs/tags/v1\n\
36ed47bba91589d8411519c681de0c3cf60d7b90 refs/tags/v1^{}\n";

/// The same refs in another order of lines.
const TURNED: &[u8] = b"f84a22337c207d4d488517d79d52f1fa842bd9f7 refs/tags/v1\n\
88a09fe28c3de8e6ebd5e51c824a3e91c1e6d8e4 refs/tags/tree\n\
389e9c85f9b59be787df53e60398b930b3d43f5a refs/tags/outer\n\
295c0651a95ba32ac5e14f92da0161b122942cac refs/tags/light\n\
86808e998abbbefa8fdc909cfb6e9e7db416c162 refs/tags/blob\n\
4b825dc642cb6eb9a060e54bf8d69288fbee4904 refs/notes/tree\n\
83baae61804e65cc73a7201a7252750c76066a30 refs/notes/blob\n\
d4a9f10c9400b7414258fb414f30b5ec3a9aa138 refs/heads/nul\n\
9482b26213cb78db00672706db2aa9334c113057 refs/heads/main\n\
9482b26213cb78db00672706db2aa9334c113057 HEAD\n";

/// The refs of the repository of odd headers.
const ODD_REFS: &[u8] = b"e9078245768b6749b275ea9ade16b2901a7e0f7b HEAD\n\
e9078245768b6749b275ea9ade16b2901a7e0f7b refs/heads/main\n\
f986b98258ceb164ecbdfbbed882d4aa2272c657 refs/heads/no\n\
eff3ccf57c01ca412b62e4f295d00f413e76f383 refs/heads/odd\n\
53733ff25454f579163cdad156e6816bd037d200 refs/tags/s1\n\
e9078245768b6749b275ea9ade16b2901a7e0f7b refs/tags/s1^{}\n";

/// A commit before its tree and its blob.
pub const COMMIT_FIRST: &[u8] = b"295c0651a95ba32ac5e14f92da0161b122942cac commit 128\n\
tree d8329fc1cc938780ffdd9f94e0d364e0ea74f579\n\
author A <a@e.org> 1000000000 +0000\n\
committer A <a@e.org> 1000000000 +0000\n\
\n\
first\n\
\n\
d8329fc1cc938780ffdd9f94e0d364e0ea74f579 tree 36\n\
100644 test.txt\0\x83\xba\xaea\x80Ne\xccs\xa7 \x1arRu\x0cv\x06j0\n\
83baae61804e65cc73a7201a7252750c76066a30 blob 10\n\
version 1\n\
\n";

/// A batch with its refs, and how many objects and which snapshot they give.
struct Row {
    title: &'static str,
    batch: &'static [u8],
    refs: &'static [u8],
    objects: usize,
    snapshot: &'static [u8],
}

const ROWS: &[Row] = &[
    Row {
        title: "nothing",
        batch: b"",
        refs: b"",
        objects: 1,
        snapshot: b"1a8893e6a86f444e8be8e7bda6cb34fb1735a00e",
    },
    Row {
        title: "all sorts of objects",
        batch: EVERYTHING,
        refs: REFS,
        objects: 15,
        snapshot: b"be667dff0a97b615fd850adc38512752ba5596f5",
    },
    Row {
        title: "refs in another order, and none of them peeled",
        batch: EVERYTHING,
        refs: TURNED,
        objects: 15,
        snapshot: b"be667dff0a97b615fd850adc38512752ba5596f5",
    },
    Row {
        title: "a commit before its tree and its blob",
        batch: COMMIT_FIRST,
        refs: b"295c0651a95ba32ac5e14f92da0161b122942cac refs/heads/main\n",
        objects: 4,
        snapshot: b"5036c2b4a676f9dad60fbaed431ca21ecdec56ff",
    },
    Row {
        title: "objects without refs",
        batch: EVERYTHING,
        refs: b"",
        objects: 15,
        snapshot: b"1a8893e6a86f444e8be8e7bda6cb34fb1735a00e",
    },
    Row {
        title: "only what tags lead to in the end, which need not be there",
        batch: b"",
        refs: b"1111111111111111111111111111111111111111 refs/tags/v1^{}\n\
1111111111111111111111111111111111111111 refs/tags/v1^{}\n\
1111111111111111111111111111111111111111 ^{}\n",
        objects: 1,
        snapshot: b"1a8893e6a86f444e8be8e7bda6cb34fb1735a00e",
    },
    Row {
        title: "a detached head alone",
        batch: COMMIT_FIRST,
        refs: b"295c0651a95ba32ac5e14f92da0161b122942cac HEAD\n",
        objects: 4,
        snapshot: b"1886b3896c9795c498c62c79b0575e4efbf5775d",
    },
];

/// The repository of odd headers.
const ODD_ROW: Row = Row {
    title: "odd headers and signatures",
    batch: ODD,
    refs: ODD_REFS,
    objects: 11,
    snapshot: b"eb13c28ffec42682459952b767c377d9b129c299",
};

/// Checks that a row's batch and refs, in pieces of this size, give the row's objects and its snapshot, which stands last.
fn check(rt: &impl Abort, alloc: Global, row: &Row, piece: usize) -> Result<(), Fail> {
    let given = read_both(alloc, &Sha1Namer, row.batch, row.refs, piece)??;
    let name = Name::from_hex(Kind::Snapshot, row.snapshot);
    let own = Name {
        kind: Kind::Snapshot,
        id: given.snapshot,
    };
    assert_eq!(rt; Some(own), name, "{}", row.title);
    assert_eq!(rt; given.objects.len(), row.objects, "{}", row.title);
    let last = given.objects.last().map(|object| object.name());
    assert_eq!(rt; last, name, "{}", row.title);
    Ok(())
}

#[test]
fn refs_of_git(rt: HostRuntime) -> Result<(), Fail> {
    let alloc = rt.alloc();
    for row in ROWS {
        for piece in PIECES {
            check(&rt, alloc, row, *piece)?;
        }
    }
    Ok(())
}

#[test]
fn odd_refs_of_git(rt: HostRuntime) -> Result<(), Fail> {
    let alloc = rt.alloc();
    for piece in PIECES {
        check(&rt, alloc, &ODD_ROW, *piece)?;
    }
    Ok(())
}
