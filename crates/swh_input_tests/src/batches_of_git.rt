// Batches that git 2.39 wrote by `git cat-file --batch --batch-all-objects`, with the ids that git gives. The objects came into
// the repository by `git hash-object --literally` and `git mktree --missing`.
use crate::batch_world::{Row, check};
use std::test::Fail;
use swh_base::Kind;

/// A commit and a tag with a signature, a tag of a tag, of a tree and of a blob, an empty tree and an empty blob, a tree with a
/// link, a program and a submodule, an encoding, persons without a date or a name, and NUL in a blob and in a message.
pub const EVERYTHING: &[u8] = b"1a23e4be731d2f539deeea324686d000ccdfbfcd blob 4\n\
a\0b\n\
\n\
295c0651a95ba32ac5e14f92da0161b122942cac commit 128\n\
tree d8329fc1cc938780ffdd9f94e0d364e0ea74f579\n\
author A <a@e.org> 1000000000 +0000\n\
committer A <a@e.org> 1000000000 +0000\n\
\n\
first\n\
\n\
36ed47bba91589d8411519c681de0c3cf60d7b90 commit 271\n\
tree 739e667484402a491461698a322e402e09690dc4\n\
parent 295c0651a95ba32ac5e14f92da0161b122942cac\n\
author A <a@e.org> 1000000010 +0000\n\
committer A <a@e.org> 1000000010 +0000\n\
encoding ISO-8859-1\n\
gpgsig -----BEGIN PGP SIGNATURE-----\n\
\x20\n\
\x20iQEz\n\
\x20-----END PGP SIGNATURE-----\n\
\n\
signed\n\
\n\
389e9c85f9b59be787df53e60398b930b3d43f5a tag 110\n\
object f84a22337c207d4d488517d79d52f1fa842bd9f7\n\
type tag\n\
tag outer\n\
tagger A <a@e.org> 1000000030 +0000\n\
\n\
outer\n\
\n\
4b825dc642cb6eb9a060e54bf8d69288fbee4904 tree 0\n\
\n\
739e667484402a491461698a322e402e09690dc4 tree 126\n\
40000 empty\0K\x82]\xc6B\xcbn\xb9\xa0`\xe5K\xf8\xd6\x92\x88\xfb\xeeI\x04120000 link\0\xe6\x9d\xe2\x9b\xb2\xd1\xd6\
CK\x8b)\xaewZ\xd8\xc2\xe4\x8cS\x91100755 run\0\x83\xba\xaea\x80Ne\xccs\xa7 \x1arRu\x0cv\x06j0160000 sub\0\x11\x11\
\x11\x11\x11\x11\x11\x11\x11\x11\x11\x11\x11\x11\x11\x11\x11\x11\x11\x11\n\
83baae61804e65cc73a7201a7252750c76066a30 blob 10\n\
version 1\n\
\n\
86808e998abbbefa8fdc909cfb6e9e7db416c162 tag 78\n\
object 1a23e4be731d2f539deeea324686d000ccdfbfcd\n\
type blob\n\
tag blob\n\
\n\
of a blob\n\
\n\
88a09fe28c3de8e6ebd5e51c824a3e91c1e6d8e4 tag 114\n\
object d8329fc1cc938780ffdd9f94e0d364e0ea74f579\n\
type tree\n\
tag tree\n\
tagger A <a@e.org> 1000000040 +0000\n\
\n\
of a tree\n\
\n\
9482b26213cb78db00672706db2aa9334c113057 commit 193\n\
tree 4b825dc642cb6eb9a060e54bf8d69288fbee4904\n\
parent 36ed47bba91589d8411519c681de0c3cf60d7b90\n\
parent 295c0651a95ba32ac5e14f92da0161b122942cac\n\
author A <a@e.org>\n\
committer A <> 1 +0000\n\
\n\
no date\n\
\n\
d4a9f10c9400b7414258fb414f30b5ec3a9aa138 commit 108\n\
tree d8329fc1cc938780ffdd9f94e0d364e0ea74f579\n\
author A <a@e.org> 1 +0000\n\
committer A <a@e.org> 1 +0000\n\
\n\
a\0b\n\
\n\
d8329fc1cc938780ffdd9f94e0d364e0ea74f579 tree 36\n\
100644 test.txt\0\x83\xba\xaea\x80Ne\xccs\xa7 \x1arRu\x0cv\x06j0\n\
e69de29bb2d1d6434b8b29ae775ad8c2e48c5391 blob 0\n\
\n\
f84a22337c207d4d488517d79d52f1fa842bd9f7 tag 176\n\
object 36ed47bba91589d8411519c681de0c3cf60d7b90\n\
type commit\n\
tag v1\n\
tagger A <a@e.org> 1000000020 +0000\n\
\n\
release\n\
-----BEGIN PGP SIGNATURE-----\n\
\n\
iQEz\n\
-----END PGP SIGNATURE-----\n\
\n";

/// A commit and a tag that git signed by a key of ssh, a merge with a tag in its header and a header that git does not know, a
/// message without an LF, none at all in a commit and in a tag, a header without the line behind it, persons without a name or
/// an address, and a tag of a tag that no ref leads to.
pub const ODD: &[u8] = b"295c0651a95ba32ac5e14f92da0161b122942cac commit 128\n\
tree d8329fc1cc938780ffdd9f94e0d364e0ea74f579\n\
author A <a@e.org> 1000000000 +0000\n\
committer A <a@e.org> 1000000000 +0000\n\
\n\
first\n\
\n\
4b825dc642cb6eb9a060e54bf8d69288fbee4904 tree 0\n\
\n\
53733ff25454f579163cdad156e6816bd037d200 tag 409\n\
object e9078245768b6749b275ea9ade16b2901a7e0f7b\n\
type commit\n\
tag s1\n\
tagger A <a@e.org> 1000000000 +0000\n\
\n\
signed tag\n\
-----BEGIN SSH SIGNATURE-----\n\
U1NIU0lHAAAAAQAAADMAAAALc3NoLWVkMjU1MTkAAAAgv1dzYMATmiiytXM5eK8v6N9y56\n\
rVuU3MfmrsqLaPuvwAAAADZ2l0AAAAAAAAAAZzaGE1MTIAAABTAAAAC3NzaC1lZDI1NTE5\n\
AAAAQICjoJst/lCwwugeECSCYf4yH6IDnsfeaUHCxVhLOK8jM6IgLRyojXnIFfsSjFWSkQ\n\
+LBNkgtDE8ujKd7v8quwI=\n\
-----END SSH SIGNATURE-----\n\
\n\
83baae61804e65cc73a7201a7252750c76066a30 blob 10\n\
version 1\n\
\n\
901732adcb4e8b997b4849389eb2375b4d603184 commit 403\n\
tree d8329fc1cc938780ffdd9f94e0d364e0ea74f579\n\
parent 295c0651a95ba32ac5e14f92da0161b122942cac\n\
parent e9078245768b6749b275ea9ade16b2901a7e0f7b\n\
author A <a@e.org> 1000000050 +0100\n\
committer A <a@e.org> 1000000050 -0730\n\
mergetag object e9078245768b6749b275ea9ade16b2901a7e0f7b\n\
\x20type commit\n\
\x20tag m\n\
\x20tagger A <a@e.org> 1000000040 +0000\n\
\x20\n\
\x20merged\n\
HG:extra old\n\
encoding UTF-8\n\
\n\
Merge tag 'm'\n\
\n\
no feed at the end\n\
d8329fc1cc938780ffdd9f94e0d364e0ea74f579 tree 36\n\
100644 test.txt\0\x83\xba\xaea\x80Ne\xccs\xa7 \x1arRu\x0cv\x06j0\n\
dfae34f60f5c3b4cb3f3ca8e0bb172eed6220140 tag 63\n\
object 53733ff25454f579163cdad156e6816bd037d200\n\
type tag\n\
tag q\n\
\n\
e9078245768b6749b275ea9ade16b2901a7e0f7b commit 490\n\
tree d8329fc1cc938780ffdd9f94e0d364e0ea74f579\n\
parent 295c0651a95ba32ac5e14f92da0161b122942cac\n\
author A <a@e.org> 1000000000 +0000\n\
committer A <a@e.org> 1000000000 +0000\n\
gpgsig -----BEGIN SSH SIGNATURE-----\n\
\x20U1NIU0lHAAAAAQAAADMAAAALc3NoLWVkMjU1MTkAAAAgv1dzYMATmiiytXM5eK8v6N9y56\n\
\x20rVuU3MfmrsqLaPuvwAAAADZ2l0AAAAAAAAAAZzaGE1MTIAAABTAAAAC3NzaC1lZDI1NTE5\n\
\x20AAAAQLaP6J4kB86Re6a0k3SQTTY6NlBTP6vvIdkEUhNjkdUTtiToV/d65pvNnlGphK04v1\n\
\x20vwkzQxGZcgoiUqhSJA7Ak=\n\
\x20-----END SSH SIGNATURE-----\n\
\n\
signed by ssh\n\
\n\
eff3ccf57c01ca412b62e4f295d00f413e76f383 commit 152\n\
tree 4b825dc642cb6eb9a060e54bf8d69288fbee4904\n\
parent 901732adcb4e8b997b4849389eb2375b4d603184\n\
author A <a@e.org> 1 +0000\n\
committer A <a@e.org> 1 +0000\n\
\n\
\n\
f986b98258ceb164ecbdfbbed882d4aa2272c657 commit 100\n\
tree 4b825dc642cb6eb9a060e54bf8d69288fbee4904\n\
author  <> 0 +0000\n\
committer A B <> 99999999999 +9999\n\
\n\
";

const ROWS: &[Row] = &[
    Row {
        title: "nothing",
        batch: b"",
        objects: &[],
    },
    Row {
        title: "all sorts of objects",
        batch: EVERYTHING,
        objects: &[
            (Kind::Content, b"1a23e4be731d2f539deeea324686d000ccdfbfcd"),
            (Kind::Revision, b"295c0651a95ba32ac5e14f92da0161b122942cac"),
            (Kind::Revision, b"36ed47bba91589d8411519c681de0c3cf60d7b90"),
            (Kind::Release, b"389e9c85f9b59be787df53e60398b930b3d43f5a"),
            (Kind::Directory, b"4b825dc642cb6eb9a060e54bf8d69288fbee4904"),
            (Kind::Directory, b"739e667484402a491461698a322e402e09690dc4"),
            (Kind::Content, b"83baae61804e65cc73a7201a7252750c76066a30"),
            (Kind::Release, b"86808e998abbbefa8fdc909cfb6e9e7db416c162"),
            (Kind::Release, b"88a09fe28c3de8e6ebd5e51c824a3e91c1e6d8e4"),
            (Kind::Revision, b"9482b26213cb78db00672706db2aa9334c113057"),
            (Kind::Revision, b"d4a9f10c9400b7414258fb414f30b5ec3a9aa138"),
            (Kind::Directory, b"d8329fc1cc938780ffdd9f94e0d364e0ea74f579"),
            (Kind::Content, b"e69de29bb2d1d6434b8b29ae775ad8c2e48c5391"),
            (Kind::Release, b"f84a22337c207d4d488517d79d52f1fa842bd9f7"),
        ],
    },
    Row {
        title: "odd headers and signatures",
        batch: ODD,
        objects: &[
            (Kind::Revision, b"295c0651a95ba32ac5e14f92da0161b122942cac"),
            (Kind::Directory, b"4b825dc642cb6eb9a060e54bf8d69288fbee4904"),
            (Kind::Release, b"53733ff25454f579163cdad156e6816bd037d200"),
            (Kind::Content, b"83baae61804e65cc73a7201a7252750c76066a30"),
            (Kind::Revision, b"901732adcb4e8b997b4849389eb2375b4d603184"),
            (Kind::Directory, b"d8329fc1cc938780ffdd9f94e0d364e0ea74f579"),
            (Kind::Release, b"dfae34f60f5c3b4cb3f3ca8e0bb172eed6220140"),
            (Kind::Revision, b"e9078245768b6749b275ea9ade16b2901a7e0f7b"),
            (Kind::Revision, b"eff3ccf57c01ca412b62e4f295d00f413e76f383"),
            (Kind::Revision, b"f986b98258ceb164ecbdfbbed882d4aa2272c657"),
        ],
    },
];

#[test]
fn batches_of_git(rt: HostRuntime) -> Result<(), Fail> {
    let alloc = rt.alloc();
    for row in ROWS {
        check(&rt, alloc, row)?;
    }
    Ok(())
}
