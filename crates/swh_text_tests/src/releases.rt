// Releases: their parts, and where they break.
use crate::revisions::text_of;
use crate::worked_bodies::{TAG, TAG_OF_TAG};
use std::alloc::Global;
use std::test::Fail;
use swh_base::Memory;
use swh_revfmt::{
    BadRel, PlainRel, ReadRelFault, plain_rel, read_rel, spelled_rel, write_plain_rel,
};

// Lengths of the name and of what stands behind its line. The name is what stands on its line: nothing, or bytes that are
// no text. The rest is whatever follows.
static GOOD: [(&[u8], usize, usize); 5] = [
    (TAG_OF_TAG, 8, 46),
    (
        b"object 8fe8674b111dd6eab36ed92ec3c21204d9020743\ntype commit\ntag \n",
        0,
        0,
    ),
    (
        b"object 8fe8674b111dd6eab36ed92ec3c21204d9020743\ntype blob\ntag \xff \0\n\n",
        3,
        1,
    ),
    (
        b"object 8fe8674b111dd6eab36ed92ec3c21204d9020743\ntype tree\ntag v1\ntag v2\nobject",
        2,
        13,
    ),
    (
        b"object 8fe8674b111dd6eab36ed92ec3c21204d9020743\ntype tag\ntag  tag \n\n\n",
        5,
        2,
    ),
];

// Cut after each part, and where the words of a tree, a tag and a commit part.
static BAD: [(&[u8], u64); 15] = [
    (b"tag\n", 0),
    (b"object ", 7),
    (b"object 8fe8674b111dd6eab36ed92ec3c21204d902074\n", 46),
    (b"object 8Fe8674b111dd6eab36ed92ec3c21204d9020743\n", 8),
    (b"object 8fe8674b111dd6eab36ed92ec3c21204d9020743", 47),
    (b"object 8fe8674b111dd6eab36ed92ec3c21204d9020743\n\n", 48),
    (
        b"object 8fe8674b111dd6eab36ed92ec3c21204d9020743\ntype t",
        54,
    ),
    (
        b"object 8fe8674b111dd6eab36ed92ec3c21204d9020743\ntype trag\ntag a\n",
        55,
    ),
    (
        b"object 8fe8674b111dd6eab36ed92ec3c21204d9020743\ntype snapshot\ntag a\n",
        53,
    ),
    (
        b"object 8fe8674b111dd6eab36ed92ec3c21204d9020743\ntype commits\ntag a\n",
        59,
    ),
    (
        b"object 8fe8674b111dd6eab36ed92ec3c21204d9020743\ntype commit",
        59,
    ),
    (
        b"object 8fe8674b111dd6eab36ed92ec3c21204d9020743\ntype commit\n",
        60,
    ),
    (
        b"object 8fe8674b111dd6eab36ed92ec3c21204d9020743\ntype commit\ntagger\n",
        63,
    ),
    (
        b"object 8fe8674b111dd6eab36ed92ec3c21204d9020743\ntype commit\ntag ",
        64,
    ),
    (
        b"object 8fe8674b111dd6eab36ed92ec3c21204d9020743\ntype commit\ntag a",
        65,
    ),
];

// The lengths of a body's name and rest.
fn lengths(alloc: Global, body: &[u8]) -> Result<(usize, usize), ReadRelFault> {
    let release = read_rel(alloc, body)?;
    Ok((release.tag.as_slice().len(), release.rest.as_slice().len()))
}

#[test]
fn good_releases_that_look_bad(rt: HostRuntime) {
    for (body, tag, rest) in &GOOD {
        assert!(rt; lengths(rt.alloc(), body) == Ok((*tag, *rest)));
    }
}

#[test]
fn releases_that_break(rt: HostRuntime) {
    for (body, at) in &BAD {
        let bad = ReadRelFault::Bad(BadRel { at: *at });
        assert!(rt; lengths(rt.alloc(), body) == Err(bad));
    }
}

#[test]
fn the_name_stands_in_the_body(rt: HostRuntime) {
    let found = spelled_rel(TAG_OF_TAG);
    assert!(rt; matches!(found, Ok(release) if release.tag == b"v1-again".as_slice()));
}

struct Plain {
    body: &'static [u8],
    tagger: &'static [u8],
    message: &'static [u8],
}

// No tagger is written as an empty one, which no line has.
static PLAIN: [Plain; 3] = [
    Plain {
        body: TAG,
        tagger: b"A <a@e.org> 1000000000 +0000",
        message: b"one\n",
    },
    Plain {
        body: TAG_OF_TAG,
        tagger: b"A <a@e.org> 1000000000 +0000",
        message: b"of a tag\n",
    },
    Plain {
        body: b"object 8fe8674b111dd6eab36ed92ec3c21204d9020743\ntype commit\ntag v1\n\n",
        tagger: b"",
        message: b"",
    },
];

fn has_parts(plain: &PlainRel, case: &Plain) -> bool {
    text_of(&plain.tagger) == case.tagger && plain.message.as_slice() == case.message
}

#[test]
fn plain_releases(rt: HostRuntime) -> Result<(), Fail> {
    for case in &PLAIN {
        let plain = plain_rel(rt.alloc(), case.body)?.ok_or("a plain release")?;
        assert!(rt; has_parts(&plain, case));
        let written = write_plain_rel(rt.alloc(), &plain)?;
        assert!(rt; written.as_slice() == case.body);
    }
    Ok(())
}

// Of a directory; with a name that is no ref; without a message; no release at all.
static NOT_PLAIN: [&[u8]; 4] = [
    b"object 8fe8674b111dd6eab36ed92ec3c21204d9020743\ntype tree\ntag v1\n\n",
    b"object 8fe8674b111dd6eab36ed92ec3c21204d9020743\ntype commit\ntag a b\n\n",
    b"object 8fe8674b111dd6eab36ed92ec3c21204d9020743\ntype commit\ntag v1\n",
    b"object",
];

fn is_plain(alloc: Global, body: &[u8]) -> Result<bool, Memory> {
    Ok(plain_rel(alloc, body)?.is_some())
}

#[test]
fn releases_that_are_not_plain(rt: HostRuntime) {
    for body in &NOT_PLAIN {
        assert!(rt; is_plain(rt.alloc(), body) == Ok(false));
    }
}
