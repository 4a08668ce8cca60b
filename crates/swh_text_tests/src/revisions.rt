// Revisions: their parts, and where they break.
use crate::worked_bodies::{FIRST, LATIN, MERGE, MERGED_TAG, SIGNED};
use std::alloc::Global;
use std::test::Fail;
use swh_base::{Bytes, Memory};
use swh_revfmt::{
    BadRev, PlainRev, ReadRevFault, plain_rev, read_rev, spelled_rev, write_plain_rev,
};

// How many parents there are, and how many bytes behind the last. What follows the last whole parent line is the rest,
// whatever it is: nothing, a parent line that is cut, that has an upper-case digit or one too many, that stands after
// another line, or a second tree.
static GOOD: [(&[u8], usize, usize); 9] = [
    (b"tree d8329fc1cc938780ffdd9f94e0d364e0ea74f579\n", 0, 0),
    (
        b"tree d8329fc1cc938780ffdd9f94e0d364e0ea74f579\nparent",
        0,
        6,
    ),
    (
        b"tree d8329fc1cc938780ffdd9f94e0d364e0ea74f579\nparent 8fe8674b111dd6eab36ed92ec3c21204d9020743",
        0,
        47,
    ),
    (
        b"tree d8329fc1cc938780ffdd9f94e0d364e0ea74f579\nparent 9fe8674b111dd6eab36ed92ec3c21204d9020743\n\
parent 8fe8674b111dd6eab36ed92ec3c21204d9020743",
        1,
        47,
    ),
    (
        b"tree d8329fc1cc938780ffdd9f94e0d364e0ea74f579\nparent 8FE8674b111dd6eab36ed92ec3c21204d9020743\n",
        0,
        48,
    ),
    (
        b"tree d8329fc1cc938780ffdd9f94e0d364e0ea74f579\nparent 8fe8674b111dd6eab36ed92ec3c21204d90207430\n",
        0,
        49,
    ),
    (
        b"tree d8329fc1cc938780ffdd9f94e0d364e0ea74f579\n\nparent 8fe8674b111dd6eab36ed92ec3c21204d9020743\n",
        0,
        49,
    ),
    (
        b"tree d8329fc1cc938780ffdd9f94e0d364e0ea74f579\ntree d8329fc1cc938780ffdd9f94e0d364e0ea74f579\n",
        0,
        46,
    ),
    (
        b"tree d8329fc1cc938780ffdd9f94e0d364e0ea74f579\n\0\xff",
        0,
        2,
    ),
];

// Cut in the word, after it, in the digits, before the line's end; a digit that is none, in upper case, or one too many.
static BAD: [(&[u8], u64); 10] = [
    (b"", 0),
    (b"tre", 3),
    (b"tree ", 5),
    (b"trees", 4),
    (b"parent ", 0),
    (b"tree d8329fc1cc938780ffdd9f94e0d364e0ea74f57\n", 44),
    (b"tree d8329fc1cc938780ffdd9f94e0d364e0ea74f579", 45),
    (b"tree D8329fc1cc938780ffdd9f94e0d364e0ea74f579\n", 5),
    (b"tree d8329fc1cc938780ffdd9f94e0d364e0ea74f57g\n", 44),
    (b"tree d8329fc1cc938780ffdd9f94e0d364e0ea74f5790\n", 45),
];

// How many parents a body has, and how many bytes behind the last.
fn counts(alloc: Global, body: &[u8]) -> Result<(usize, usize), ReadRevFault> {
    let revision = read_rev(alloc, body)?;
    let parents = revision.parents.as_slice().len();
    Ok((parents, revision.rest.as_slice().len()))
}

#[test]
fn good_revisions_that_look_bad(rt: HostRuntime) {
    for (body, parents, rest) in &GOOD {
        assert!(rt; counts(rt.alloc(), body) == Ok((*parents, *rest)));
    }
}

#[test]
fn revisions_that_break(rt: HostRuntime) {
    for (body, at) in &BAD {
        let bad = ReadRevFault::Bad(BadRev { at: *at });
        assert!(rt; counts(rt.alloc(), body) == Err(bad));
    }
}

#[test]
fn parts_stand_in_the_body(rt: HostRuntime) -> Result<(), Fail> {
    let revision = spelled_rev(rt.alloc(), MERGE)?;
    assert!(rt; revision.parents.as_slice().len() == 2);
    Ok(())
}

struct Plain {
    body: &'static [u8],
    author: &'static [u8],
    encoding: &'static [u8],
    message: &'static [u8],
}

// No encoding is written as an empty one, which no line has.
static PLAIN: [Plain; 3] = [
    Plain {
        body: FIRST,
        author: b"A <a@e.org> 1000000000 +0000",
        encoding: b"",
        message: b"first\n",
    },
    Plain {
        body: MERGE,
        author: b"A <a@e.org> 1000000000 +0000",
        encoding: b"",
        message: b"merge\n",
    },
    Plain {
        body: LATIN,
        author: b"A <a@e.org> 1000000000 +0000",
        encoding: b"ISO-8859-1",
        message: b"caf\xe9\n",
    },
];

/// The bytes that are there, or none.
pub fn text_of(found: &Option<Bytes>) -> &[u8] {
    match found {
        Some(bytes) => bytes.as_slice(),
        None => b"",
    }
}

fn has_parts(plain: &PlainRev, case: &Plain) -> bool {
    plain.author.as_slice() == case.author
        && text_of(&plain.encoding) == case.encoding
        && plain.message.as_slice() == case.message
}

#[test]
fn plain_revisions(rt: HostRuntime) -> Result<(), Fail> {
    for case in &PLAIN {
        let plain = plain_rev(rt.alloc(), case.body)?.ok_or("a plain revision")?;
        assert!(rt; has_parts(&plain, case));
        let written = write_plain_rev(rt.alloc(), &plain)?;
        assert!(rt; written.as_slice() == case.body);
    }
    Ok(())
}

static NOT_PLAIN: [&[u8]; 3] = [SIGNED, MERGED_TAG, b"tree"];

fn is_plain(alloc: Global, body: &[u8]) -> Result<bool, Memory> {
    Ok(plain_rev(alloc, body)?.is_some())
}

#[test]
fn revisions_that_are_not_plain(rt: HostRuntime) {
    for body in &NOT_PLAIN {
        assert!(rt; is_plain(rt.alloc(), body) == Ok(false));
    }
}
