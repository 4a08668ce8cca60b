//! The texts of commands: paths, and the stream of one commit.
use std::alloc::Global;
use std::test::Fail;
use swh_base::Memory;
use swh_fastwrite::{
    push_begin, push_blob_head, push_commit_head, push_data, push_end, push_file, push_marked,
    push_path, push_project, push_tag_head, push_tip,
};

/// Paths, and how they are written.
const PATHS: &[(&[u8], &[u8])] = &[
    (b"test.txt", b"test.txt"),
    (b"a b/~#'", b"a b/~#'"),
    (b"caf\xc3\xa9", b"\"caf\\303\\251\""),
    (b"say \"hi\"", b"\"say \\\"hi\\\"\""),
    (b"back\\slash", b"\"back\\\\slash\""),
    (b"tab\there", b"\"tab\\011here\""),
    (b"two\nlines", b"\"two\\012lines\""),
    (b"\x01\x1f\x7f\x80\xff", b"\"\\001\\037\\177\\200\\377\""),
];

/// The number of the first path that is written in another way, or how many there are.
fn first_other_path(alloc: Global) -> Result<usize, Fail> {
    for (number, (path, written)) in PATHS.iter().enumerate() {
        let mut out = Vec::new(alloc);
        if push_path(&mut out, path).is_err() || out.as_slice() != *written {
            return Ok(number);
        }
    }
    Ok(PATHS.len())
}

#[test]
fn paths_are_quoted_where_they_have_to_be(rt: HostRuntime) -> Result<(), Fail> {
    assert_eq!(rt; first_other_path(rt.alloc())?, PATHS.len());
    Ok(())
}

/// The stream of a content, a commit of it without parents, and its branch.
const FIRST_COMMIT: &[u8] = b"feature done\n\
blob\n\
mark :1\n\
data 10\n\
version 1\n\
\n\
reset refs/swh/cook\n\
\n\
commit refs/swh/cook\n\
mark :2\n\
author A <a@e.org> 1000000000 +0000\n\
committer A <a@e.org> 1000000000 +0000\n\
data 6\n\
first\n\
\n\
deleteall\n\
M 100644 :1 test.txt\n\
\n\
reset refs/heads/main\n\
from :2\n\
\n\
reset refs/swh/cook\n\
from 0000000000000000000000000000000000000000\n\
\n\
done\n";

fn push_first_commit(out: &mut Vec<u8>) -> Result<(), Memory> {
    let person = b"A <a@e.org> 1000000000 +0000";
    out.extend_from_slice(b"feature done\n")?;
    push_blob_head(out, 1, 10)?;
    out.extend_from_slice(b"version 1\n\n")?;
    push_begin(out, b"refs/swh/cook")?;
    push_commit_head(out, 2, person, person, None)?;
    push_data(out, b"first\n")?;
    out.extend_from_slice(b"deleteall\n")?;
    push_file(out, 100_644, 1, b"test.txt")?;
    out.extend_from_slice(b"\n")?;
    push_tip(out, b"refs/heads/main", 2)?;
    push_end(out, b"refs/swh/cook")?;
    out.extend_from_slice(b"done\n")?;
    Ok(())
}

#[test]
fn a_commit_is_written(rt: HostRuntime) -> Result<(), Fail> {
    let mut out = Vec::new(rt.alloc());
    if push_first_commit(&mut out).is_err() {
        return Err(Fail::from("memory"));
    }
    assert_eq!(rt; out.len(), 319);
    assert!(rt; out.as_slice() == FIRST_COMMIT);
    Ok(())
}

/// A commit with an encoding and two parents, a link, an executable file and a revision of another project, and tags of
/// it with and without a tagger.
const MERGE: &[u8] = b"commit refs/swh/cook\n\
mark :12\n\
author A <a@e.org> 1 +0000\n\
committer B <b@e.org> 2 -0130\n\
encoding ISO-8859-1\n\
data 0\n\
\n\
from :10\n\
merge :11\n\
M 120000 :3 ln\n\
M 100755 :4 \"r\\303\\274n\"\n\
M 160000 295c0651a95ba32ac5e14f92da0161b122942cac sub/module\n\
tag v1\n\
mark :13\n\
from :12\n\
tagger T <t@e.org> 3 +0000\n\
data 3\n\
v1\n\
\n\
tag v2\n\
mark :14\n\
from :13\n";

const PROJECT: &[u8; 20] =
    b"\x29\x5c\x06\x51\xa9\x5b\xa3\x2a\xc5\xe1\x4f\x92\xda\x01\x61\xb1\x22\x94\x2c\xac";

fn push_merge(out: &mut Vec<u8>) -> Result<(), Memory> {
    let author = b"A <a@e.org> 1 +0000";
    let committer = b"B <b@e.org> 2 -0130";
    push_commit_head(out, 12, author, committer, Some(b"ISO-8859-1"))?;
    push_data(out, b"")?;
    push_marked(out, b"from ", 10)?;
    push_marked(out, b"merge ", 11)?;
    push_file(out, 120_000, 3, b"ln")?;
    push_file(out, 100_755, 4, b"r\xc3\xbcn")?;
    push_project(out, PROJECT, b"sub/module")?;
    push_tag_head(out, b"v1", 13, 12, Some(b"T <t@e.org> 3 +0000"))?;
    push_data(out, b"v1\n")?;
    push_tag_head(out, b"v2", 14, 13, None)?;
    Ok(())
}

#[test]
fn a_merge_and_its_tags_are_written(rt: HostRuntime) -> Result<(), Fail> {
    let mut out = Vec::new(rt.alloc());
    if push_merge(&mut out).is_err() {
        return Err(Fail::from("memory"));
    }
    assert!(rt; out.as_slice() == MERGE);
    Ok(())
}
