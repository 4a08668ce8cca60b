// Batches that break. Places are counted by hand, ids are those of `git hash-object`.
use crate::batch_world::{PIECES, read};
use std::alloc::{AllocError, Global};
use std::process::Abort;
use std::test::Fail;
use swh_base::{Sha1Namer, Which};
use swh_batchread::BatchFault;

/// A whole object of 49 bytes.
const FRONT: &[u8] = b"e69de29bb2d1d6434b8b29ae775ad8c2e48c5391 blob 0\n\n";

/// The id of the empty blob.
const EMPTY: [u8; 20] = [
    0xe6, 0x9d, 0xe2, 0x9b, 0xb2, 0xd1, 0xd6, 0x43, 0x4b, 0x8b, 0x29, 0xae, 0x77, 0x5a, 0xd8, 0xc2,
    0xe4, 0x8c, 0x53, 0x91,
];

/// The id of the blob `x`.
const X: [u8; 20] = [
    0xc1, 0xb0, 0x73, 0x0e, 0x01, 0x33, 0x44, 0x7b, 0xad, 0xcf, 0xd4, 0x7f, 0xd1, 0x44, 0xe2, 0x54,
    0x80, 0x7b, 0x06, 0xe1,
];

/// What breaks at its first byte.
const BAD: &[&[u8]] = &[
    // No header, or one that is cut.
    b"\n",
    b"x",
    b"x\n",
    b"e69de29bb2d1d6434b8b29ae775ad8c2e48c5391",
    b"e69de29bb2d1d6434b8b29ae775ad8c2e48c5391\n",
    b"e69de29bb2d1d6434b8b29ae775ad8c2e48c5391 missing\n",
    b"e69de29bb2d1d6434b8b29ae775ad8c2e48c5391 blob\n",
    b"e69de29bb2d1d6434b8b29ae775ad8c2e48c5391 blob 0",
    b"e69de29bb2d1d6434b8b29ae775ad8c2e48c5391 blob 0\x0d\n\
\n",
    // An id of another form.
    b"e69de29bb2d1d6434b8b29ae775ad8c2e48c539 blob 0\n\
\n",
    b"e69de29bb2d1d6434b8b29ae775ad8c2e48c53910 blob 0\n\
\n",
    b"E69DE29BB2D1D6434B8B29AE775AD8C2E48C5391 blob 0\n\
\n",
    b"\x20blob 0\n\
\n",
    // A kind that git does not have.
    b"e69de29bb2d1d6434b8b29ae775ad8c2e48c5391 snapshot 0\n\
\n",
    b"e69de29bb2d1d6434b8b29ae775ad8c2e48c5391 content 0\n\
\n",
    b"e69de29bb2d1d6434b8b29ae775ad8c2e48c5391 Blob 0\n\
\n",
    b"e69de29bb2d1d6434b8b29ae775ad8c2e48c5391  0\n\
\n",
    // A size of another form.
    b"e69de29bb2d1d6434b8b29ae775ad8c2e48c5391 blob \n\
\n",
    b"e69de29bb2d1d6434b8b29ae775ad8c2e48c5391 blob 00\n\
\n",
    b"e69de29bb2d1d6434b8b29ae775ad8c2e48c5391 blob 01\n\
x\n",
    b"e69de29bb2d1d6434b8b29ae775ad8c2e48c5391 blob +0\n\
\n",
    b"e69de29bb2d1d6434b8b29ae775ad8c2e48c5391 blob -1\n\
\n",
    b"e69de29bb2d1d6434b8b29ae775ad8c2e48c5391 blob 0 \n\
\n",
    b"e69de29bb2d1d6434b8b29ae775ad8c2e48c5391 blob  0\n\
\n",
    b"e69de29bb2d1d6434b8b29ae775ad8c2e48c5391 blob 0x0\n\
\n",
    b"e69de29bb2d1d6434b8b29ae775ad8c2e48c5391 blob 18446744073709551616\n\
\n",
    // A body that is cut, or without its LF.
    b"e69de29bb2d1d6434b8b29ae775ad8c2e48c5391 blob 0\n",
    b"e69de29bb2d1d6434b8b29ae775ad8c2e48c5391 blob 0\n\
x",
    b"e69de29bb2d1d6434b8b29ae775ad8c2e48c5391 blob 0\n\
x\n",
    b"e69de29bb2d1d6434b8b29ae775ad8c2e48c5391 blob 1\n",
    b"e69de29bb2d1d6434b8b29ae775ad8c2e48c5391 blob 1\n\
x",
    b"e69de29bb2d1d6434b8b29ae775ad8c2e48c5391 blob 5\n\
abcd\n",
    b"e69de29bb2d1d6434b8b29ae775ad8c2e48c5391 blob 67108864\n\
abcd\n",
    // A body that is none of its kind.
    b"e69de29bb2d1d6434b8b29ae775ad8c2e48c5391 tree 1\n\
x\n",
    b"e69de29bb2d1d6434b8b29ae775ad8c2e48c5391 commit 0\n\
\n",
    b"e69de29bb2d1d6434b8b29ae775ad8c2e48c5391 tag 4\n\
tag\n\
\n",
    b"39dd67b6e643d7cc8d788037c830ce98399cf7d5 tree 29\n\
100664 f\0\x83\xba\xaea\x80Ne\xccs\xa7 \x1arRu\x0cv\x06j0\n",
    // The first of two faults.
    b"e69de29bb2d1d6434b8b29ae775ad8c2e48c5391 blob 00\n\
\n\
e69de29bb2d1d6434b8b29ae775ad8c2e48c5391 blob 1\n\
x\n",
    b"e69de29bb2d1d6434b8b29ae775ad8c2e48c5391 commit 0\n\
\n\
e69de29bb2d1d6434b8b29ae775ad8c2e48c5391 blob 67108865\n",
];

/// What breaks otherwise, and how.
const OTHER: &[(&[u8], BatchFault)] = &[
    // Another id than that of the body.
    (
        b"e69de29bb2d1d6434b8b29ae775ad8c2e48c5391 blob 1\nx\n",
        BatchFault::WrongName {
            given: EMPTY,
            got: X,
        },
    ),
    (
        b"c1b0730e0133447badcfd47fd144e254807b06e1 blob 0\n\nx",
        BatchFault::WrongName {
            given: X,
            got: EMPTY,
        },
    ),
    // An id that differs in its last bits alone.
    (
        b"e69de29bb2d1d6434b8b29ae775ad8c2e48c5390 blob 0\n\n",
        BatchFault::WrongName {
            given: [
                0xe6, 0x9d, 0xe2, 0x9b, 0xb2, 0xd1, 0xd6, 0x43, 0x4b, 0x8b, 0x29, 0xae, 0x77, 0x5a,
                0xd8, 0xc2, 0xe4, 0x8c, 0x53, 0x90,
            ],
            got: EMPTY,
        },
    ),
    // A body above the limit, before its bytes and its kind are looked at.
    (
        b"e69de29bb2d1d6434b8b29ae775ad8c2e48c5391 blob 67108865\n",
        BatchFault::Limit {
            which: Which::Body,
            number: 67_108_865,
        },
    ),
    (
        b"e69de29bb2d1d6434b8b29ae775ad8c2e48c5391 commit 18446744073709551615\nx",
        BatchFault::Limit {
            which: Which::Body,
            number: 18_446_744_073_709_551_615,
        },
    ),
];

/// What is told of `rest` behind `front`, in pieces of this size.
fn fault_of(
    alloc: Global,
    front: &[u8],
    rest: &[u8],
    piece: usize,
) -> Result<Option<BatchFault>, AllocError> {
    let mut batch = Vec::from_slice(alloc, front)?;
    batch.extend_from_slice(rest)?;
    match read(alloc, &Sha1Namer, batch.as_slice(), piece)? {
        Ok(_) => Ok(None),
        Err(fault) => Ok(Some(fault)),
    }
}

/// Checks that `rest` breaks at its first byte, alone and behind other objects.
fn breaks_first(rt: &impl Abort, alloc: Global, rest: &[u8], number: usize) -> Result<(), Fail> {
    for piece in PIECES {
        let alone = fault_of(alloc, b"", rest, *piece)?;
        assert_eq!(rt; alone, Some(BatchFault::BadBatch { at: 0 }), "bad {number}");
        let behind = fault_of(alloc, FRONT, rest, *piece)?;
        assert_eq!(rt;
            behind,
            Some(BatchFault::BadBatch { at: 49 }),
            "bad {number}"
        );
    }
    Ok(())
}

#[test]
fn places(rt: HostRuntime) -> Result<(), Fail> {
    let alloc = rt.alloc();
    for (number, rest) in BAD.iter().enumerate() {
        breaks_first(&rt, alloc, rest, number)?;
    }
    Ok(())
}

#[test]
fn other_faults(rt: HostRuntime) -> Result<(), Fail> {
    let alloc = rt.alloc();
    for (number, (rest, fault)) in OTHER.iter().enumerate() {
        for piece in PIECES {
            let alone = fault_of(alloc, b"", rest, *piece)?;
            assert_eq!(&rt; alone, Some(*fault), "other {number}");
            let behind = fault_of(alloc, FRONT, rest, *piece)?;
            assert_eq!(&rt; behind, Some(*fault), "other {number}");
        }
    }
    Ok(())
}
