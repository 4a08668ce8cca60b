//! What is cooked of each root: its text and its head. `git fast-import` takes each stream, and gives its commits and
//! tags the names that they have here.
use crate::stream_world::{archive_with, cooked, name_of, push_id, put};
use std::alloc::Global;
use std::test::Fail;
use swh_base::{Bytes, Kind, Name};
use swh_carried::CookFault;
use swh_graph_fixtures::objects::{FIRST, OF_BLOB};
use swh_memory_input::MemorySink;
use swh_replay::Replayed;

/// A merge of two commits, with another committer and an encoding, without a message.
const JOIN: &[u8] = b"tree 0dc9408261582a21d44fbd14e902f1e9f0e022f8\n\
parent a7436cff730dd408e808913df2fa371564e4e483\n\
parent 9fa9d61c8b86092de93771e96230b74ea28bcb7a\n\
author A <a@e.org> 1000000000 +0000\n\
committer B <b@e.org> 2 -0130\n\
encoding ISO-8859-1\n\
\n";

/// A tag of the merge.
const V1: &[u8] = b"object 392064269c7ad585e638929fdbe4ccb21328dbaa\n\
type commit\n\
tag v1\n\
tagger A <a@e.org> 1000000000 +0000\n\
\n\
v1\n";

/// A tag of that tag, without a tagger.
const V2: &[u8] = b"object 385084a7619fe6f9ae01c66ca08001d36f3dfb7e\n\
type tag\n\
tag v2\n\
\n\
v2\n";

/// Two branches, both tags, and the head as an alias.
const WHOLE: &[u8] = b"alias HEAD\015:refs/heads/main\
revision refs/heads/left\020:\
\xa7\x43\x6c\xff\x73\x0d\xd4\x08\xe8\x08\x91\x3d\xf2\xfa\x37\x15\x64\xe4\xe4\x83\
revision refs/heads/main\020:\
\x39\x20\x64\x26\x9c\x7a\xd5\x85\xe6\x38\x92\x9f\xdb\xe4\xcc\xb2\x13\x28\xdb\xaa\
release refs/tags/v1\020:\
\x38\x50\x84\xa7\x61\x9f\xe6\xf9\xae\x01\xc6\x6c\xa0\x80\x01\xd3\x6f\x3d\xfb\x7e\
release refs/tags/v2\020:\
\xab\x44\xe3\xa5\x64\x2a\x87\x64\xaf\x76\x9f\x0b\xe8\xe8\x48\xad\xd2\x87\x01\x12";

/// A branch of the name that commits are written to.
const ON_COOK: &[u8] = b"revision refs/swh/cook\020:\
\x29\x5c\x06\x51\xa9\x5b\xa3\x2a\xc5\xe1\x4f\x92\xda\x01\x61\xb1\x22\x94\x2c\xac";

/// A commit without parents: its branch is left, and that of all commits taken away.
const FIRST_STREAM: &[u8] = b"feature done\n\
blob\n\
mark :1\n\
data 10\n\
version 1\n\
\n\
reset refs/swh/cook\n\
\n\
commit refs/swh/cook\n\
mark :2\n\
author A <a@e.org> 1000000000 +0000\n\
committer A <a@e.org> 1000000000 +0000\n\
data 6\n\
first\n\
\n\
deleteall\n\
M 100644 :1 test.txt\n\
\n\
reset refs/heads/main\n\
from :2\n\
\n\
reset refs/swh/cook\n\
from 0000000000000000000000000000000000000000\n\
\n\
done\n";

/// The same commit on the branch of all commits, which is not taken away.
const COOK_STREAM: &[u8] = b"feature done\n\
blob\n\
mark :1\n\
data 10\n\
version 1\n\
\n\
reset refs/swh/cook\n\
\n\
commit refs/swh/cook\n\
mark :2\n\
author A <a@e.org> 1000000000 +0000\n\
committer A <a@e.org> 1000000000 +0000\n\
data 6\n\
first\n\
\n\
deleteall\n\
M 100644 :1 test.txt\n\
\n\
reset refs/swh/cook\n\
from :2\n\
\n\
done\n";

/// A tag of a content: no commit is written, and no branch taken away.
const BLOB_STREAM: &[u8] = b"feature done\n\
blob\n\
mark :1\n\
data 10\n\
version 1\n\
\n\
tag v4\n\
mark :2\n\
from :1\n\
tagger A <a@e.org> 1000000000 +0000\n\
data 3\n\
v4\n\
\n\
done\n";

/// All of it: a commit stands before its child, and a content once, before the first tree that names it.
const WHOLE_STREAM: &[u8] = b"feature done\n\
blob\n\
mark :1\n\
data 10\n\
version 1\n\
\n\
reset refs/swh/cook\n\
\n\
commit refs/swh/cook\n\
mark :2\n\
author A <a@e.org> 1000000000 +0000\n\
committer A <a@e.org> 1000000000 +0000\n\
data 6\n\
first\n\
\n\
deleteall\n\
M 100644 :1 test.txt\n\
\n\
commit refs/swh/cook\n\
mark :3\n\
author A <a@e.org> 1000000000 +0000\n\
committer A <a@e.org> 1000000000 +0000\n\
data 5\n\
left\n\
\n\
from :2\n\
deleteall\n\
M 100644 :1 test.txt\n\
\n\
blob\n\
mark :4\n\
data 0\n\
\n\
commit refs/swh/cook\n\
mark :5\n\
author A <a@e.org> 1000000000 +0000\n\
committer A <a@e.org> 1000000000 +0000\n\
data 6\n\
right\n\
\n\
from :2\n\
deleteall\n\
M 100755 :4 exe\n\
M 120000 :4 link\n\
M 160000 295c0651a95ba32ac5e14f92da0161b122942cac module\n\
M 100644 :1 sub/test.txt\n\
\n\
commit refs/swh/cook\n\
mark :6\n\
author A <a@e.org> 1000000000 +0000\n\
committer B <b@e.org> 2 -0130\n\
encoding ISO-8859-1\n\
data 0\n\
\n\
from :3\n\
merge :5\n\
deleteall\n\
M 100755 :4 exe\n\
M 120000 :4 link\n\
M 160000 295c0651a95ba32ac5e14f92da0161b122942cac module\n\
M 100644 :1 sub/test.txt\n\
\n\
tag v1\n\
mark :7\n\
from :6\n\
tagger A <a@e.org> 1000000000 +0000\n\
data 3\n\
v1\n\
\n\
tag v2\n\
mark :8\n\
from :7\n\
data 3\n\
v2\n\
\n\
reset refs/heads/left\n\
from :3\n\
\n\
reset refs/heads/main\n\
from :6\n\
\n\
reset refs/swh/cook\n\
from 0000000000000000000000000000000000000000\n\
\n\
done\n";

const WHOLE_NAME: &[u8] = b"swh:1:snp:f5368197b035ba21f643bb28428861dd6e1d3f32";

const ON_COOK_NAME: &[u8] = b"swh:1:snp:05ef4930d73e61502af689bd3086c69521e9bcdf";

/// A tag of a commit.
const TAG: &[u8] = b"object 295c0651a95ba32ac5e14f92da0161b122942cac\n\
type commit\n\
tag v1\n\
\n\
v1\n";

/// It alone, at its own branch.
const TAGGED: &[u8] = b"release refs/tags/v1\020:\
\x4e\x3c\x52\xd3\x99\xb8\x73\x1f\xe2\xf8\xea\x41\x8d\xff\x73\xa4\xf8\x16\x68\xe1";

const TAGGED_NAME: &[u8] = b"swh:1:snp:4895d8b334c70021da5252ab47c4c8df2006ba1f";

/// A head that leads to no branch.
const NOWHERE: &[u8] = b"alias HEAD\015:refs/heads/none";

const NOWHERE_NAME: &[u8] = b"swh:1:snp:616db3e5844f9c5bc8b0f8f7e9cd23694b35eda8";

const MADE: &[(Kind, &[u8])] = &[
    (Kind::Revision, JOIN),
    (Kind::Release, V1),
    (Kind::Release, V2),
    (Kind::Snapshot, WHOLE),
    (Kind::Snapshot, ON_COOK),
    (Kind::Release, TAG),
    (Kind::Snapshot, TAGGED),
    (Kind::Snapshot, NOWHERE),
];

/// The commit of a tag leaves no branch.
const TAGGED_STREAM: &[u8] = b"feature done\n\
blob\n\
mark :1\n\
data 10\n\
version 1\n\
\n\
reset refs/swh/cook\n\
\n\
commit refs/swh/cook\n\
mark :2\n\
author A <a@e.org> 1000000000 +0000\n\
committer A <a@e.org> 1000000000 +0000\n\
data 6\n\
first\n\
\n\
deleteall\n\
M 100644 :1 test.txt\n\
\n\
tag v1\n\
mark :3\n\
from :2\n\
data 3\n\
v1\n\
\n\
reset refs/swh/cook\n\
from 0000000000000000000000000000000000000000\n\
\n\
done\n";

/// Roots, their texts and their heads.
const CASES: &[(&[u8], &[u8], Option<&[u8]>)] = &[
    (FIRST, FIRST_STREAM, None),
    (OF_BLOB, BLOB_STREAM, None),
    (WHOLE_NAME, WHOLE_STREAM, Some(b"refs/heads/main")),
    (ON_COOK_NAME, COOK_STREAM, None),
    (TAGGED_NAME, TAGGED_STREAM, None),
    (
        NOWHERE_NAME,
        b"feature done\ndone\n",
        Some(b"refs/heads/none"),
    ),
];

/// What stands before a large content, and behind it.
const BEFORE: &[u8] = b"feature done\nblob\nmark :1\ndata 70000\n";

const BEHIND: &[u8] = b"\ntag big\nmark :2\nfrom :1\ndata 2\nb\n\ndone\n";

/// How many bytes were taken where the first call fails, the second and the third: half of the call's own, behind those of the
/// calls before it. A large content is put by a call of its own.
const FRONTS: &[usize] = &[18, 35_037, 70_057];

fn has_head(found: &Option<Bytes>, head: &Option<&[u8]>) -> bool {
    match (found, head) {
        (None, None) => true,
        (Some(found), Some(head)) => found.as_slice() == *head,
        _ => false,
    }
}

/// Whether this text and this head are cooked of a root.
fn is_cooked(
    alloc: Global,
    shown: &Replayed,
    core: &[u8],
    text: &[u8],
    head: &Option<&[u8]>,
) -> Result<bool, Fail> {
    let root = name_of(core)?;
    let mut sink = MemorySink::new(alloc, 4_096, Vec::new(alloc))?;
    match cooked(alloc, shown, root, &mut sink) {
        Ok(found) => Ok(has_head(&found, head) && sink.bytes() == text),
        Err(_) => Ok(false),
    }
}

/// The number of the first case of which something else is cooked, or how many there are.
fn first_other(alloc: Global) -> Result<usize, Fail> {
    let shown = archive_with(alloc, MADE)?;
    for (number, (core, text, head)) in CASES.iter().enumerate() {
        if !is_cooked(alloc, &shown, core, text, head)? {
            return Ok(number);
        }
    }
    Ok(CASES.len())
}

/// Adds a content of 70,000 letters and a tag of it, and answers the tag's name.
fn put_large(alloc: Global, shown: &mut Replayed) -> Result<Name, Fail> {
    let content = put(alloc, shown, Kind::Content, vec![in alloc; b'a'; 70_000]?)?;
    let mut body = b"object ".to_vec(alloc)?;
    push_id(&mut body, &content)?;
    body.extend_from_slice(b"\ntype blob\ntag big\n\nb\n")?;
    put(alloc, shown, Kind::Release, body)
}

/// The stream of that tag.
fn large_text(alloc: Global) -> Result<Vec<u8>, Fail> {
    let mut text = BEFORE.to_vec(alloc)?;
    let content = vec![in alloc; b'a'; 70_000]?;
    text.extend_from_slice(content.as_slice())?;
    text.extend_from_slice(BEHIND)?;
    Ok(text)
}

/// Whether the call of this number fails, and leaves a front of so many bytes.
fn breaks_off(
    alloc: Global,
    shown: &Replayed,
    root: Name,
    call: u64,
    front: usize,
) -> Result<bool, Fail> {
    let text = large_text(alloc)?;
    let mut sink = MemorySink::new(alloc, 100_000, vec![in alloc; call; 1]?)?;
    match cooked(alloc, shown, root, &mut sink) {
        Err(CookFault::WriteFault) => Ok(
            sink.faults() == 1
                && sink.bytes().len() == front
                && text.as_slice().starts_with(sink.bytes()),
        ),
        _ => Ok(false),
    }
}

/// The number of the first call whose failure ends otherwise, or how many there are.
fn first_unbroken(alloc: Global, shown: &Replayed, root: Name) -> Result<usize, Fail> {
    for (number, front) in FRONTS.iter().enumerate() {
        if !breaks_off(alloc, shown, root, number as u64, *front)? {
            return Ok(number);
        }
    }
    Ok(FRONTS.len())
}

#[test]
fn each_root_has_its_text_and_its_head(rt: HostRuntime) -> Result<(), Fail> {
    assert_eq!(rt; first_other(rt.alloc())?, CASES.len());
    Ok(())
}

#[test]
fn each_failing_call_leaves_a_front(rt: HostRuntime) -> Result<(), Fail> {
    let alloc = rt.alloc();
    let mut shown = archive_with(alloc, &[])?;
    let root = put_large(alloc, &mut shown)?;
    assert_eq!(rt; first_unbroken(alloc, &shown, root)?, FRONTS.len());
    assert!(rt; !breaks_off(alloc, &shown, root, 3, 0)?);
    Ok(())
}
