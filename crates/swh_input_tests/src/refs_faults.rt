// Refs that break, and what no object of the batch is. Lines are counted by hand.
use crate::batch_world::{PIECES, fault_of_both, read_both};
use crate::refs_of_git::COMMIT_FIRST;
use std::alloc::{AllocError, Global};
use std::process::Abort;
use std::test::Fail;
use swh_base::{ByteNamer, Kind, Name, Sha1Namer};
use swh_batchread::BatchFault;

/// Two lines of refs.
const FRONT: &[u8] = b"295c0651a95ba32ac5e14f92da0161b122942cac refs/heads/a\n\
295c0651a95ba32ac5e14f92da0161b122942cac refs/tags/v^{}\n";

/// What breaks in its first line.
const BAD: &[&[u8]] = &[
    // No line, or one that is cut.
    b"\n",
    b"x",
    b"295c0651a95ba32ac5e14f92da0161b122942cac",
    b"295c0651a95ba32ac5e14f92da0161b122942cac\n",
    b"295c0651a95ba32ac5e14f92da0161b122942cac refs/heads/b",
    b"295c0651a95ba32ac5e14f92da0161b122942cac refs/tags/b^{}",
    // An id of another form.
    b"295c0651a95ba32ac5e14f92da0161b122942ca refs/heads/b\n",
    b"295c0651a95ba32ac5e14f92da0161b122942cac0 refs/heads/b\n",
    b"295C0651A95BA32AC5E14F92DA0161B122942CAC refs/heads/b\n",
    b"295c0651a95ba32ac5e14f92da0161b122942cag refs/heads/b\n",
    b" refs/heads/b\n",
    b"ref: refs/heads/main HEAD\n",
    b"295c0651a95ba32ac5e14f92da0161b122942cag refs/tags/b^{}\n",
    // A name of another form.
    b"295c0651a95ba32ac5e14f92da0161b122942cac \n",
    b"295c0651a95ba32ac5e14f92da0161b122942cac\trefs/heads/b\n",
    b"295c0651a95ba32ac5e14f92da0161b122942cac refs/heads/\0\n",
    b"295c0651a95ba32ac5e14f92da0161b122942cac \0^{}\n",
    // The first of two faults.
    b"\n295c0651a95ba32ac5e14f92da0161b122942ca refs/heads/b\n",
    // A fault of lines before an id that no object has.
    b"\n1111111111111111111111111111111111111111 refs/heads/b\n",
];

/// What breaks in its first line behind the others, by a name that stands before: to another object, and before another fault.
const AGAIN: &[&[u8]] = &[
    b"83baae61804e65cc73a7201a7252750c76066a30 refs/heads/a\n",
    b"295c0651a95ba32ac5e14f92da0161b122942cac refs/heads/a\n\n",
];

/// What is no fault of a line.
const GOOD: &[&[u8]] = &[
    b"",
    b"295c0651a95ba32ac5e14f92da0161b122942cac refs/heads/a^{}\n",
    b"295c0651a95ba32ac5e14f92da0161b122942cac refs/tags/v^{}\n",
    b"295c0651a95ba32ac5e14f92da0161b122942cac refs/heads/a \n",
    b"295c0651a95ba32ac5e14f92da0161b122942cac refs/heads/a\x0d\n",
    b"295c0651a95ba32ac5e14f92da0161b122942cac refs/heads/A\n",
    b"295c0651a95ba32ac5e14f92da0161b122942cac refs/heads/\xff\n",
    b"295c0651a95ba32ac5e14f92da0161b122942cac  \n",
    b"295c0651a95ba32ac5e14f92da0161b122942cac ^{\n",
];

/// What is told of a batch with these refs behind two others.
fn behind(alloc: Global, refs: &[u8], piece: usize) -> Result<Option<BatchFault>, AllocError> {
    let mut whole = Vec::from_slice(alloc, FRONT)?;
    whole.extend_from_slice(refs)?;
    fault_of_both(alloc, &Sha1Namer, COMMIT_FIRST, whole.as_slice(), piece)
}

#[test]
fn first_lines(rt: HostRuntime) -> Result<(), Fail> {
    let alloc = rt.alloc();
    for (number, refs) in BAD.iter().enumerate() {
        let told = fault_of_both(alloc, &Sha1Namer, COMMIT_FIRST, refs, 7)?;
        assert_eq!(&rt; told, Some(BatchFault::BadRefs { line: 1 }), "bad {number}");
    }
    Ok(())
}

#[test]
fn third_lines(rt: HostRuntime) -> Result<(), Fail> {
    let alloc = rt.alloc();
    for (number, refs) in BAD.iter().chain(AGAIN.iter()).enumerate() {
        for piece in PIECES {
            let told = behind(alloc, refs, *piece)?;
            assert_eq!(&rt; told, Some(BatchFault::BadRefs { line: 3 }), "bad {number}");
        }
    }
    Ok(())
}

#[test]
fn good_lines(rt: HostRuntime) -> Result<(), Fail> {
    let alloc = rt.alloc();
    for (number, refs) in GOOD.iter().enumerate() {
        assert_eq!(&rt; behind(alloc, refs, 7)?, None, "good {number}");
    }
    Ok(())
}

/// A batch with its refs, and the id that no object has, in digits.
struct Row {
    title: &'static str,
    batch: &'static [u8],
    refs: &'static [u8],
    lacks: &'static [u8],
}

/// The commit and its tree, and another blob than the tree's.
const OTHER_BLOB: &[u8] = b"295c0651a95ba32ac5e14f92da0161b122942cac commit 128\n\
tree d8329fc1cc938780ffdd9f94e0d364e0ea74f579\n\
author A <a@e.org> 1000000000 +0000\n\
committer A <a@e.org> 1000000000 +0000\n\
\n\
first\n\
\n\
d8329fc1cc938780ffdd9f94e0d364e0ea74f579 tree 36\n\
100644 test.txt\0\x83\xba\xaea\x80Ne\xccs\xa7 \x1arRu\x0cv\x06j0\n\
e69de29bb2d1d6434b8b29ae775ad8c2e48c5391 blob 0\n\
\n";

/// A commit, whose tree is not there, and then a tree, none of whose items is.
const TWO_LACK: &[u8] = b"295c0651a95ba32ac5e14f92da0161b122942cac commit 128\n\
tree d8329fc1cc938780ffdd9f94e0d364e0ea74f579\n\
author A <a@e.org> 1000000000 +0000\n\
committer A <a@e.org> 1000000000 +0000\n\
\n\
first\n\
\n\
739e667484402a491461698a322e402e09690dc4 tree 126\n\
40000 empty\0K\x82]\xc6B\xcbn\xb9\xa0`\xe5K\xf8\xd6\x92\x88\xfb\xeeI\x04120000 link\0\xe6\x9d\xe2\x9b\xb2\xd1\xd6\
CK\x8b)\xaewZ\xd8\xc2\xe4\x8cS\x91100755 run\0\x83\xba\xaea\x80Ne\xccs\xa7 \x1arRu\x0cv\x06j0160000 sub\0\x11\x11\
\x11\x11\x11\x11\x11\x11\x11\x11\x11\x11\x11\x11\x11\x11\x11\x11\x11\x11\n";

/// The same tree alone, with its folder.
const LINK_LACKS: &[u8] = b"739e667484402a491461698a322e402e09690dc4 tree 126\n\
40000 empty\0K\x82]\xc6B\xcbn\xb9\xa0`\xe5K\xf8\xd6\x92\x88\xfb\xeeI\x04120000 link\0\xe6\x9d\xe2\x9b\xb2\xd1\xd6\
CK\x8b)\xaewZ\xd8\xc2\xe4\x8cS\x91100755 run\0\x83\xba\xaea\x80Ne\xccs\xa7 \x1arRu\x0cv\x06j0160000 sub\0\x11\x11\
\x11\x11\x11\x11\x11\x11\x11\x11\x11\x11\x11\x11\x11\x11\x11\x11\x11\x11\n\
4b825dc642cb6eb9a060e54bf8d69288fbee4904 tree 0\n\
\n";

/// A blob and a commit, whose tree and parent are not there.
const COMMIT_LAST: &[u8] = b"e69de29bb2d1d6434b8b29ae775ad8c2e48c5391 blob 0\n\
\n\
9482b26213cb78db00672706db2aa9334c113057 commit 193\n\
tree 4b825dc642cb6eb9a060e54bf8d69288fbee4904\n\
parent 36ed47bba91589d8411519c681de0c3cf60d7b90\n\
parent 295c0651a95ba32ac5e14f92da0161b122942cac\n\
author A <a@e.org>\n\
committer A <> 1 +0000\n\
\n\
no date\n\
\n";

const LACKING: &[Row] = &[
    Row {
        title: "a blob is not there",
        batch: OTHER_BLOB,
        refs: b"295c0651a95ba32ac5e14f92da0161b122942cac refs/heads/main\n",
        lacks: b"83baae61804e65cc73a7201a7252750c76066a30",
    },
    Row {
        title: "the same without refs",
        batch: OTHER_BLOB,
        refs: b"",
        lacks: b"83baae61804e65cc73a7201a7252750c76066a30",
    },
    Row {
        title: "a ref before a child",
        batch: OTHER_BLOB,
        refs: b"2222222222222222222222222222222222222222 refs/heads/main\n",
        lacks: b"2222222222222222222222222222222222222222",
    },
    Row {
        title: "the first of two refs, and not by their names",
        batch: COMMIT_FIRST,
        refs: b"295c0651a95ba32ac5e14f92da0161b122942cac refs/heads/c\n\
2222222222222222222222222222222222222222 refs/heads/b\n\
1111111111111111111111111111111111111111 refs/heads/a\n",
        lacks: b"2222222222222222222222222222222222222222",
    },
    Row {
        title: "HEAD is a ref",
        batch: COMMIT_FIRST,
        refs: b"1111111111111111111111111111111111111111 HEAD\n",
        lacks: b"1111111111111111111111111111111111111111",
    },
    Row {
        title: "the children of the objects, in the batch's order",
        batch: TWO_LACK,
        refs: b"",
        lacks: b"d8329fc1cc938780ffdd9f94e0d364e0ea74f579",
    },
    Row {
        title: "the first of two children, and no revision of another project",
        batch: LINK_LACKS,
        refs: b"",
        lacks: b"e69de29bb2d1d6434b8b29ae775ad8c2e48c5391",
    },
    Row {
        title: "a tag's object that is not there, and no object that a tag leads to in the end",
        batch: b"88a09fe28c3de8e6ebd5e51c824a3e91c1e6d8e4 tag 114\n\
object d8329fc1cc938780ffdd9f94e0d364e0ea74f579\n\
type tree\n\
tag tree\n\
tagger A <a@e.org> 1000000040 +0000\n\
\n\
of a tree\n\
\n",
        refs: b"1111111111111111111111111111111111111111 refs/tags/v^{}\n\
88a09fe28c3de8e6ebd5e51c824a3e91c1e6d8e4 refs/tags/v\n",
        lacks: b"d8329fc1cc938780ffdd9f94e0d364e0ea74f579",
    },
    Row {
        title: "the children of the last object, in their order",
        batch: COMMIT_LAST,
        refs: b"",
        lacks: b"4b825dc642cb6eb9a060e54bf8d69288fbee4904",
    },
];

/// Checks that a row's id is the one that is told, in pieces of this size.
fn lacks(rt: &impl Abort, alloc: Global, row: &Row, piece: usize) -> Result<(), Fail> {
    let told = match fault_of_both(alloc, &Sha1Namer, row.batch, row.refs, piece)? {
        Some(BatchFault::NoObject { id }) => Some(Name {
            kind: Kind::Content,
            id,
        }),
        _ => None,
    };
    assert_eq!(rt;
        told,
        Name::from_hex(Kind::Content, row.lacks),
        "{}",
        row.title
    );
    Ok(())
}

#[test]
fn lacking(rt: HostRuntime) -> Result<(), Fail> {
    let alloc = rt.alloc();
    for row in LACKING {
        for piece in PIECES {
            lacks(&rt, alloc, row, *piece)?;
        }
    }
    Ok(())
}

#[test]
fn batch_before_refs(rt: HostRuntime) -> Result<(), Fail> {
    let alloc = rt.alloc();
    let told = fault_of_both(alloc, &Sha1Namer, b"x", b"x", 7)?;
    assert_eq!(&rt; told, Some(BatchFault::BadBatch { at: 0 }));
    Ok(())
}

/// A tree with a file whose id is twenty zeros, by the sum of its bytes as its id, and an empty tree, whose id is twenty zeros too.
const TREES: &[u8] = b"00000000000000000000000000000000000000b5 tree 29\n\
100644 f\0\0\0\0\0\0\0\0\0\0\0\0\0\0\0\0\0\0\0\0\0\n\
0000000000000000000000000000000000000000 tree 0\n\
\n";

/// An empty tree and then an empty blob, with one id.
const TREE_FIRST: &[u8] = b"0000000000000000000000000000000000000000 tree 0\n\
\n\
0000000000000000000000000000000000000000 blob 0\n\
\n";

/// The same in the other order.
const BLOB_FIRST: &[u8] = b"0000000000000000000000000000000000000000 blob 0\n\
\n\
0000000000000000000000000000000000000000 tree 0\n\
\n";

/// A ref to the id of both.
const REF: &[u8] = b"0000000000000000000000000000000000000000 a\n";

#[test]
fn another_kind_only(rt: HostRuntime) -> Result<(), Fail> {
    let alloc = rt.alloc();
    let told = fault_of_both(alloc, &ByteNamer, TREES, REF, 7)?;
    assert_eq!(&rt; told, Some(BatchFault::NoObject { id: [0; 20] }));
    Ok(())
}

/// The body of the snapshot of a batch with the ref.
fn snapshot_body(rt: &impl Abort, alloc: Global, batch: &[u8], body: &[u8]) -> Result<(), Fail> {
    let given = read_both(alloc, &ByteNamer, batch, REF, 7)??;
    let last = given.objects.last().map(|object| object.body());
    assert_eq!(rt; last, Some(body));
    Ok(())
}

#[test]
fn kind_of_the_first(rt: HostRuntime) -> Result<(), Fail> {
    let alloc = rt.alloc();
    let directory = b"directory a\020:\0\0\0\0\0\0\0\0\0\0\0\0\0\0\0\0\0\0\0\0";
    snapshot_body(&rt, alloc, TREE_FIRST, directory)?;
    let content = b"content a\020:\0\0\0\0\0\0\0\0\0\0\0\0\0\0\0\0\0\0\0\0";
    snapshot_body(&rt, alloc, BLOB_FIRST, content)?;
    Ok(())
}
