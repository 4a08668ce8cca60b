//! What names are cooked to, and which are not. The streams are by hand, and git gives the ids of all that is held.
use crate::answered::{Answer, Case, first_other};
use std::test::Fail;
use swh_base::Kind;
use swh_graph_fixtures::objects::{
    CUT, EMPTY, FIRST, FOLDER, MERGE, OF_BLOB, TO_BLOB, TREELESS, VERSION_1,
};

/// What streams cannot carry, and what it is reached from: a revision with another field, a revision of a folder with an
/// empty one, and a snapshot with a release whose own release stands at no branch.
pub const ODD_OBJECTS: &[(Kind, &[u8])] = &[
    (
        Kind::Revision,
        b"tree d8329fc1cc938780ffdd9f94e0d364e0ea74f579\n\
author A <a@e.org> 1000000000 +0000\n\
committer A <a@e.org> 1000000000 +0000\n\
gpgsig x\n\
\n\
signed\n",
    ),
    (Kind::Directory, b""),
    (
        Kind::Directory,
        b"40000 none\0\
\x4b\x82\x5d\xc6\x42\xcb\x6e\xb9\xa0\x60\xe5\x4b\xf8\xd6\x92\x88\xfb\xee\x49\x04",
    ),
    (
        Kind::Revision,
        b"tree 4f9cbf8bb327d54abb6a45e14e840053e2b3cb56\n\
author A <a@e.org> 1000000000 +0000\n\
committer A <a@e.org> 1000000000 +0000\n\
\n\
empty\n",
    ),
    (
        Kind::Release,
        b"object 295c0651a95ba32ac5e14f92da0161b122942cac\n\
type commit\n\
tag v6\n\
tagger A <a@e.org> 1000000000 +0000\n\
\n\
v6\n",
    ),
    (
        Kind::Release,
        b"object f019d322013b3f8adb77b4641a4204df0d0bfa67\n\
type tag\n\
tag v7\n\
tagger A <a@e.org> 1000000000 +0000\n\
\n\
v7\n",
    ),
    (
        Kind::Snapshot,
        b"release refs/tags/v7\020:\
\xa6\x52\xb3\x2d\xd1\xa3\x4e\x01\x2b\x96\x02\x3c\x13\xc0\x8f\xdd\x50\x42\xe5\x15",
    ),
];

const TEXTS: &[Case] = &[
    (
        (b"GET", &[b"/api/1/cook/", VERSION_1, b"/"], b""),
        Answer::Plain(b"version 1\n"),
    ),
    (
        (b"GET", &[b"/api/1/cook/", EMPTY, b"/?x"], b""),
        Answer::Plain(b""),
    ),
    (
        (b"GET", &[b"/api/1/cook/", FIRST, b"/"], b""),
        Answer::Plain(
            b"feature done\n\
blob\n\
mark :1\n\
data 10\n\
version 1\n\
\n\
reset refs/swh/cook\n\
\n\
commit refs/swh/cook\n\
mark :2\n\
author A <a@e.org> 1000000000 +0000\n\
committer A <a@e.org> 1000000000 +0000\n\
data 6\n\
first\n\
\n\
deleteall\n\
M 100644 :1 test.txt\n\
\n\
reset refs/heads/main\n\
from :2\n\
\n\
reset refs/swh/cook\n\
from 0000000000000000000000000000000000000000\n\
\n\
done\n",
        ),
    ),
    (
        (b"GET", &[b"/api/1/cook/", OF_BLOB, b"/"], b""),
        Answer::Plain(
            b"feature done\n\
blob\n\
mark :1\n\
data 10\n\
version 1\n\
\n\
tag v4\n\
mark :2\n\
from :1\n\
tagger A <a@e.org> 1000000000 +0000\n\
data 3\n\
v4\n\
\n\
done\n",
        ),
    ),
];

const NO_TEXT: Answer = Answer::Json(400, &[b"{\"error\":\"swhid\"}"]);

const REFUSALS: &[Case] = &[
    // The method is looked at before the text, and the text before what is held.
    (
        (b"POST", &[b"/api/1/cook/", FOLDER, b"/"], b""),
        Answer::Json(405, &[b"{\"error\":\"method\"}"]),
    ),
    ((b"GET", &[b"/api/1/cook/", FOLDER, b"/"], b""), NO_TEXT),
    (
        (
            b"GET",
            &[b"/api/1/cook/swh:1:dir:1111111111111111111111111111111111111111/"],
            b"",
        ),
        NO_TEXT,
    ),
    ((b"GET", &[b"/api/1/cook/swh:1:cnt:ab/"], b""), NO_TEXT),
    (
        (b"GET", &[b"/api/1/cook/", FIRST, b";lines=1/"], b""),
        NO_TEXT,
    ),
    // The first name that is entered and not held: the root, the tree of one, a part of a tree, and a parent.
    (
        (
            b"GET",
            &[b"/api/1/cook/swh:1:snp:1111111111111111111111111111111111111111/"],
            b"",
        ),
        Answer::Json(
            404,
            &[
                b"{\"error\":\"not held\",\"name\":\"swh:1:snp:1111111111111111111111111111111111111111\"}",
            ],
        ),
    ),
    (
        (
            b"GET",
            &[b"/api/1/cook/swh:1:cnt:1111111111111111111111111111111111111111/"],
            b"",
        ),
        Answer::Json(
            404,
            &[
                b"{\"error\":\"not held\",\"name\":\"swh:1:cnt:1111111111111111111111111111111111111111\"}",
            ],
        ),
    ),
    (
        (b"GET", &[b"/api/1/cook/", TREELESS, b"/"], b""),
        Answer::Json(
            404,
            &[
                b"{\"error\":\"not held\",\"name\":\"swh:1:dir:6666666666666666666666666666666666666666\"}",
            ],
        ),
    ),
    (
        (b"GET", &[b"/api/1/cook/", MERGE, b"/"], b""),
        Answer::Json(
            404,
            &[
                b"{\"error\":\"not held\",\"name\":\"swh:1:cnt:2222222222222222222222222222222222222222\"}",
            ],
        ),
    ),
    (
        (b"GET", &[b"/api/1/cook/", CUT, b"/"], b""),
        Answer::Json(
            404,
            &[
                b"{\"error\":\"not held\",\"name\":\"swh:1:rev:4444444444444444444444444444444444444444\"}",
            ],
        ),
    ),
    // The first that a stream cannot carry, which need not be the root.
    (
        (b"GET", &[b"/api/1/cook/", TO_BLOB, b"/"], b""),
        Answer::Json(
            422,
            &[
                b"{\"error\":\"uncarried\",\"name\":\"swh:1:snp:b946e4724fdd49510377065272bb882d27fafbc0\",\
\"why\":\"branch\"}",
            ],
        ),
    ),
    (
        (
            b"GET",
            &[b"/api/1/cook/swh:1:rev:f9708a54445e5937a565d847da7b8cf69f7c5f45/"],
            b"",
        ),
        Answer::Json(
            422,
            &[
                b"{\"error\":\"uncarried\",\"name\":\"swh:1:rev:f9708a54445e5937a565d847da7b8cf69f7c5f45\",\
\"why\":\"revision\"}",
            ],
        ),
    ),
    (
        (
            b"GET",
            &[b"/api/1/cook/swh:1:rev:86a0378954ef821d08155c4c950d0e7b46d5c1bd/"],
            b"",
        ),
        Answer::Json(
            422,
            &[
                b"{\"error\":\"uncarried\",\"name\":\"swh:1:dir:4b825dc642cb6eb9a060e54bf8d69288fbee4904\",\
\"why\":\"empty\"}",
            ],
        ),
    ),
    (
        (
            b"GET",
            &[b"/api/1/cook/swh:1:snp:95882d5da1caa3c1df7da74b8e15156ea5d97a2f/"],
            b"",
        ),
        Answer::Json(
            422,
            &[
                b"{\"error\":\"uncarried\",\"name\":\"swh:1:rel:f019d322013b3f8adb77b4641a4204df0d0bfa67\",\
\"why\":\"tagless\"}",
            ],
        ),
    ),
];

#[test]
fn each_name_has_its_text(rt: HostRuntime) -> Result<(), Fail> {
    assert_eq!(rt; first_other(rt.alloc(), TEXTS)?, TEXTS.len());
    Ok(())
}

#[test]
fn each_other_is_refused(rt: HostRuntime) -> Result<(), Fail> {
    assert_eq!(rt; first_other(rt.alloc(), REFUSALS)?, REFUSALS.len());
    Ok(())
}
