//! What a stream cannot carry is told by the first object and the first rule that it breaks, and what is not held
//! before that.
use crate::stream_world::{archive_with, name_of, refusal};
use std::alloc::Global;
use std::test::Fail;
use swh_base::Kind;
use swh_carried::{CookFault, Why};
use swh_graph_fixtures::objects::{
    CIRCLE, CUT, DANGLING, FIRST, OF_ABSENT, OF_BLOB, ON_CUT, SELF, TO_BLOB, TREELESS, WHOLE,
};
use swh_replay::Replayed;

/// A commit with a signature, which is not plain.
const SIGNED: &[u8] = b"swh:1:rev:f9708a54445e5937a565d847da7b8cf69f7c5f45";

/// A commit with a signature and a parent of which a parent is not there.
const SIGNED_ON_CUT: &[u8] = b"swh:1:rev:cd2252410cc0aac5079c31c5171eaf588ee27ede";

/// A directory without entries.
const NOTHING: &[u8] = b"swh:1:dir:4b825dc642cb6eb9a060e54bf8d69288fbee4904";

/// A commit of it, which a stream carries.
const BARE: &[u8] = b"swh:1:rev:221e96ba71e1774d88678015862dde4b14764499";

/// A directory in which it is an entry.
const HOLLOW: &[u8] = b"swh:1:dir:1ae11ad4a07730268bfe7856fda56a8ccf11fa19";

/// A commit of that.
const OF_HOLLOW: &[u8] = b"swh:1:rev:14b88974d3e75e5f9fb1475196c1c5ed4c49c727";

/// A directory with an entry of two dots.
const UP: &[u8] = b"swh:1:dir:6b40c86f0922c96e1fffd98726e84525cd5046e6";

/// A directory with an entry of one dot.
const HERE: &[u8] = b"swh:1:dir:33af7d7041bbf9f8566f881bc2810b30a5876ed6";

/// A commit of the first of them.
const OF_UP: &[u8] = b"swh:1:rev:11b21f23a8b182f7361058621f961833352ef608";

/// A commit of the other.
const OF_HERE: &[u8] = b"swh:1:rev:b54ae00b4090b43326c098e3046adad0e20f2797";

/// Three dots are a name.
const DOTTED: &[u8] = b"swh:1:dir:5d4095eb7bcd745ae085983350817956519a4e3c";

/// A commit of that.
const OF_DOTTED: &[u8] = b"swh:1:rev:85d20ba14ce8c1bd1543a947351117e2130fd735";

/// A release of a folder, which is not plain.
const TREE_TAG: &[u8] = b"swh:1:rel:3f04d99d9184ff0227625c4213fd4a38d1c53b4a";

/// A release of a commit.
const TAG: &[u8] = b"swh:1:rel:4e3c52d399b8731fe2f8ea418dff73a4f81668e1";

/// A release of this release.
const TAG_OF: &[u8] = b"swh:1:rel:8bf12d293badcebaa8681e9f185cf389ac67aeb3";

/// A release at its own branch.
const TAGGED: &[u8] = b"swh:1:snp:4895d8b334c70021da5252ab47c4c8df2006ba1f";

/// A release at its own branch, of one that stands at none.
const LOOSE: &[u8] = b"swh:1:snp:9b6047b5e168c8b91b4fdf777c0c89728d86a5be";

/// A release at the branch of another.
const ASTRAY: &[u8] = b"swh:1:snp:c70452c8e87c57474e1c49c731dc17ebecddee80";

/// A release that is not plain, at no branch of its own.
const ODD_TAG: &[u8] = b"swh:1:snp:f37244a7cd2ee84390ac99fa5a181e6caba2fd42";

/// A commit at what is no ref.
const NO_REF: &[u8] = b"swh:1:snp:b016a18e3e39e331ed9daf98a8841967c881807e";

/// An alias that is not the head.
const ALIAS: &[u8] = b"swh:1:snp:fb24443e07d50b60447367a8665c9ad18b24a688";

/// A commit that is not plain at what is no ref: its rule comes first.
const SIGNED_ODD: &[u8] = b"swh:1:snp:24df3dbb48695006fa8e3ce8aa4effac1426cc38";

/// A snapshot in another.
const INNER: &[u8] = b"swh:1:snp:5036c2b4a676f9dad60fbaed431ca21ecdec56ff";

/// The other: the inner one is told.
const OUTER: &[u8] = b"swh:1:snp:3cd36e70a22d01bfe799a6297bfaa2c87a43a3b5";

/// Each body with its kind, in the order of their names above.
const MADE: &[(Kind, &[u8])] = &[
    (
        Kind::Revision,
        b"tree d8329fc1cc938780ffdd9f94e0d364e0ea74f579\n\
author A <a@e.org> 1000000000 +0000\n\
committer A <a@e.org> 1000000000 +0000\n\
gpgsig x\n\
\n\
signed\n\
",
    ),
    (
        Kind::Revision,
        b"tree d8329fc1cc938780ffdd9f94e0d364e0ea74f579\n\
parent 9cda6cf3b3e9fb9a5a7827631afd20dd4876f5f4\n\
author A <a@e.org> 1000000000 +0000\n\
committer A <a@e.org> 1000000000 +0000\n\
gpgsig x\n\
\n\
signed on cut\n\
",
    ),
    (Kind::Directory, b""),
    (
        Kind::Revision,
        b"tree 4b825dc642cb6eb9a060e54bf8d69288fbee4904\n\
author A <a@e.org> 1000000000 +0000\n\
committer A <a@e.org> 1000000000 +0000\n\
\n\
bare\n\
",
    ),
    (
        Kind::Directory,
        b"40000 e\0\
\x4b\x82\x5d\xc6\x42\xcb\x6e\xb9\xa0\x60\xe5\x4b\xf8\xd6\x92\x88\xfb\xee\x49\x04",
    ),
    (
        Kind::Revision,
        b"tree 1ae11ad4a07730268bfe7856fda56a8ccf11fa19\n\
author A <a@e.org> 1000000000 +0000\n\
committer A <a@e.org> 1000000000 +0000\n\
\n\
hollow\n\
",
    ),
    (
        Kind::Directory,
        b"100644 ..\0\
\x83\xba\xae\x61\x80\x4e\x65\xcc\x73\xa7\x20\x1a\x72\x52\x75\x0c\x76\x06\x6a\x30",
    ),
    (
        Kind::Directory,
        b"40000 .\0\
\xd8\x32\x9f\xc1\xcc\x93\x87\x80\xff\xdd\x9f\x94\xe0\xd3\x64\xe0\xea\x74\xf5\x79",
    ),
    (
        Kind::Revision,
        b"tree 6b40c86f0922c96e1fffd98726e84525cd5046e6\n\
author A <a@e.org> 1000000000 +0000\n\
committer A <a@e.org> 1000000000 +0000\n\
\n\
up\n\
",
    ),
    (
        Kind::Revision,
        b"tree 33af7d7041bbf9f8566f881bc2810b30a5876ed6\n\
author A <a@e.org> 1000000000 +0000\n\
committer A <a@e.org> 1000000000 +0000\n\
\n\
here\n\
",
    ),
    (
        Kind::Directory,
        b"100644 ...\0\
\x83\xba\xae\x61\x80\x4e\x65\xcc\x73\xa7\x20\x1a\x72\x52\x75\x0c\x76\x06\x6a\x30",
    ),
    (
        Kind::Revision,
        b"tree 5d4095eb7bcd745ae085983350817956519a4e3c\n\
author A <a@e.org> 1000000000 +0000\n\
committer A <a@e.org> 1000000000 +0000\n\
\n\
dotted\n\
",
    ),
    (
        Kind::Release,
        b"object d8329fc1cc938780ffdd9f94e0d364e0ea74f579\n\
type tree\n\
tag t\n\
\n\
t\n\
",
    ),
    (
        Kind::Release,
        b"object 295c0651a95ba32ac5e14f92da0161b122942cac\n\
type commit\n\
tag v1\n\
\n\
v1\n\
",
    ),
    (
        Kind::Release,
        b"object 4e3c52d399b8731fe2f8ea418dff73a4f81668e1\n\
type tag\n\
tag v2\n\
\n\
v2\n\
",
    ),
    (
        Kind::Snapshot,
        b"release refs/tags/v1\020:\
\x4e\x3c\x52\xd3\x99\xb8\x73\x1f\xe2\xf8\xea\x41\x8d\xff\x73\xa4\xf8\x16\x68\xe1",
    ),
    (
        Kind::Snapshot,
        b"release refs/tags/v2\020:\
\x8b\xf1\x2d\x29\x3b\xad\xce\xba\xa8\x68\x1e\x9f\x18\x5c\xf3\x89\xac\x67\xae\xb3",
    ),
    (
        Kind::Snapshot,
        b"release refs/tags/v2\020:\
\x4e\x3c\x52\xd3\x99\xb8\x73\x1f\xe2\xf8\xea\x41\x8d\xff\x73\xa4\xf8\x16\x68\xe1",
    ),
    (
        Kind::Snapshot,
        b"release refs/tags/x\020:\
\x3f\x04\xd9\x9d\x91\x84\xff\x02\x27\x62\x5c\x42\x13\xfd\x4a\x38\xd1\xc5\x3b\x4a",
    ),
    (
        Kind::Snapshot,
        b"revision a b\020:\
\x29\x5c\x06\x51\xa9\x5b\xa3\x2a\xc5\xe1\x4f\x92\xda\x01\x61\xb1\x22\x94\x2c\xac",
    ),
    (
        Kind::Snapshot,
        b"alias a\015:refs/heads/main\
revision refs/heads/main\020:\
\x29\x5c\x06\x51\xa9\x5b\xa3\x2a\xc5\xe1\x4f\x92\xda\x01\x61\xb1\x22\x94\x2c\xac",
    ),
    (
        Kind::Snapshot,
        b"revision a b\020:\
\xf9\x70\x8a\x54\x44\x5e\x59\x37\xa5\x65\xd8\x47\xda\x7b\x8c\xf6\x9f\x7c\x5f\x45",
    ),
    (
        Kind::Snapshot,
        b"revision refs/heads/main\020:\
\x29\x5c\x06\x51\xa9\x5b\xa3\x2a\xc5\xe1\x4f\x92\xda\x01\x61\xb1\x22\x94\x2c\xac",
    ),
    (
        Kind::Snapshot,
        b"snapshot refs/heads/main\020:\
\x50\x36\xc2\xb4\xa6\x76\xf9\xda\xd6\x0f\xba\xed\x43\x1c\xa2\x1e\xcd\xec\x56\xff",
    ),
];
/// Roots, and the first object that is not carried, if there is one, by the first rule that it breaks.
const CASES: &[(&[u8], Option<(&[u8], Why)>)] = &[
    (FIRST, None),
    (OF_BLOB, None),
    (WHOLE, None),
    (SIGNED, Some((SIGNED, Why::Revision))),
    (TREE_TAG, Some((TREE_TAG, Why::Release))),
    // What is no entry of another directory may be empty.
    (BARE, None),
    (OF_HOLLOW, Some((NOTHING, Why::Empty))),
    (OF_UP, Some((UP, Why::Dots))),
    (OF_HERE, Some((HERE, Why::Dots))),
    (OF_DOTTED, None),
    (TAGGED, None),
    (TAG_OF, None),
    (LOOSE, Some((TAG, Why::Tagless))),
    (ASTRAY, Some((TAG, Why::Tagless))),
    // A release that is not plain is told as that.
    (ODD_TAG, Some((TREE_TAG, Why::Release))),
    (NO_REF, Some((NO_REF, Why::Branch))),
    (TO_BLOB, Some((TO_BLOB, Why::Branch))),
    (ALIAS, Some((ALIAS, Why::Branch))),
    (CIRCLE, Some((CIRCLE, Why::Branch))),
    (SELF, Some((SELF, Why::Branch))),
    (DANGLING, Some((DANGLING, Why::Branch))),
    // What is left sooner is told, whichever rule it breaks.
    (SIGNED_ODD, Some((SIGNED, Why::Revision))),
    (INNER, None),
    (OUTER, Some((INNER, Why::Branch))),
];

/// Roots, and the first name that the walk enters and that is not held.
const MISSING: &[(&[u8], &[u8])] = &[
    (
        b"swh:1:snp:2222222222222222222222222222222222222222",
        b"swh:1:snp:2222222222222222222222222222222222222222",
    ),
    (
        TREELESS,
        b"swh:1:dir:6666666666666666666666666666666666666666",
    ),
    (CUT, b"swh:1:rev:4444444444444444444444444444444444444444"),
    (
        ON_CUT,
        b"swh:1:rev:4444444444444444444444444444444444444444",
    ),
    (
        OF_ABSENT,
        b"swh:1:rev:3333333333333333333333333333333333333333",
    ),
    // It is told before what is not carried.
    (
        SIGNED_ON_CUT,
        b"swh:1:rev:4444444444444444444444444444444444444444",
    ),
];

/// Whether this refuses the root.
fn is_refused(
    alloc: Global,
    shown: &Replayed,
    core: &[u8],
    answer: Option<CookFault>,
) -> Result<bool, Fail> {
    let root = name_of(core)?;
    Ok(refusal(alloc, shown, root)? == answer)
}

fn uncarried(answer: &Option<(&[u8], Why)>) -> Result<Option<CookFault>, Fail> {
    match answer {
        Some((core, why)) => Ok(Some(CookFault::Uncarried {
            name: name_of(core)?,
            why: *why,
        })),
        None => Ok(None),
    }
}

/// The number of the first case with another answer, or how many there are.
fn first_other(alloc: Global) -> Result<usize, Fail> {
    let shown = archive_with(alloc, MADE)?;
    for (number, (core, answer)) in CASES.iter().enumerate() {
        if !is_refused(alloc, &shown, core, uncarried(answer)?)? {
            return Ok(number);
        }
    }
    Ok(CASES.len())
}

/// The number of the first case where another name is missing, or how many there are.
fn first_found(alloc: Global) -> Result<usize, Fail> {
    let shown = archive_with(alloc, MADE)?;
    for (number, (core, missing)) in MISSING.iter().enumerate() {
        let name = name_of(missing)?;
        if !is_refused(alloc, &shown, core, Some(CookFault::NotHeld { name }))? {
            return Ok(number);
        }
    }
    Ok(MISSING.len())
}

#[test]
fn each_root_has_its_first_uncarried_object(rt: HostRuntime) -> Result<(), Fail> {
    assert_eq!(rt; first_other(rt.alloc())?, CASES.len());
    Ok(())
}

#[test]
fn the_first_missing_name_is_told_before_all_else(rt: HostRuntime) -> Result<(), Fail> {
    assert_eq!(rt; first_found(rt.alloc())?, MISSING.len());
    Ok(())
}
