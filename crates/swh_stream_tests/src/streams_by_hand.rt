// Streams by hand, with the ids of `git fast-import`.
use crate::loaded_streams::{Row, check};
use std::test::Fail;
use swh_base::Kind;

/// Each form of data, comments and all changes.
const MAIN: &[u8] =
    b"feature done\n# a comment where a command may begin\nprogress half of it\ncheckpoint\n\n\
blob\n# a comment between the lines of a blob\nmark :1\noriginal-oid anything at all\ndata <<END\none\n\
END of a line\n END\nEND\n\n\
commit refs/heads/main\nmark :2\noriginal-oid 2\nauthor A <a@e.org> 1000000000 +0000\n\
# a comment between the lines of a commit\ncommitter C <c@e.org> 1000000001 -0130\nencoding latin1\ndata <<X\n\
first\nX\nM 644 :1 d/a\n# a comment between changes\nM 100755 inline d/e/b\n# a comment before data\ndata 3\n\
#b\nM 120000 inline \"li\\156k \\\\\"\ndata <<E\nd/a\nE\n\n\
M 160000 0123456789abcdef0123456789abcdef01234567 s/t\nC d copy of d\nC d/a \"d/e/b/c\"\n\n\
commit refs/heads/main\ncommitter C <c@e.org> 1000000002 +0000\ndata 7\nsecond\nR \"copy of d\" d/e/d\nC d d/d\n\
D nothing\nD d/e/b\nC s/t s\nM 644 inline d/d/a\ndata 0\n\
done\n\
blob or anything\n";

/// Tips and marks that are set again, merges that repeat, and tags of each kind. Git reads `^0` at refs of its
/// repository alone: its ids are those without it.
const SIDE: &[u8] = b"blob\nmark :1\ndata 1\nx\n\
commit refs/heads/main\nmark :2\ncommitter C <c@e.org> 1000000000 +0000\ndata 0\nM 644 :1 a\n\
commit refs/heads/main\ncommitter C <c@e.org> 1000000001 +0000\ndata 1\n1\n\
reset refs/heads/side\nfrom refs/heads/main^0\n\n\
commit refs/heads/side\nmark :3\ncommitter C <c@e.org> 1000000002 +0000\ndata 0\nmerge :2\nmerge :2\ndeleteall\n\
M 755 :1 only\nC only d/e/f\nR d e\nC e/e only\nR e e/e/e\n\
tag 1\nmark :4\nfrom :2\noriginal-oid 0\ntagger T <t@e.org> 1000000004 +1245\ndata <<.\na tag\n.\n\
tag 2\nfrom :4\ndata 0\n\n\
tag blob\nfrom :1\ndata 1\n.\n\
blob\nmark :1\ndata 0\n\
commit refs/heads/root\ncommitter C <c@e.org> 1000000005 +0000\ndata 1\nm\nM 644 :1 empty\nD empty\n\
reset refs/heads/gone\nfrom :3\n\
reset refs/heads/gone\nfrom 0000000000000000000000000000000000000000\n\
reset refs/heads/main\n\n\
commit refs/heads/main\ncommitter C <c@e.org> 1000000006 +0000\ndata 0\nM 644 :1 a/b\nM 644 :1 c\n\
reset refs/tags/plain\nfrom :3\n";

/// A person without a name. Git puts a space before the email: the id is that of the body without it.
const NAMELESS: &[u8] = b"commit refs/heads/main\ncommitter <a@e.org> 1000000000 +0000\ndata 1\nm";

const ROWS: &[Row] = &[
    Row {
        title: "data and changes",
        stream: MAIN,
        objects: 19,
        snapshot: b"fa146f6588efa86b1d46705ccb1407626f2960c7",
        tips: &[
            (Kind::Revision, b"da5ab675067fdc178c75af4f06c253dab8b8f3e2"), // refs/heads/main
        ],
    },
    Row {
        title: "refs, marks and tags",
        stream: SIDE,
        objects: 20,
        snapshot: b"dc8ea0459208866257219e73a768be91abd49fa9",
        tips: &[
            (Kind::Revision, b"7092f2486f69e9d3064516c3a5cf5a0e5c0ecc70"), // refs/heads/main
            (Kind::Revision, b"c75dfdb173fc3f810b9d8d8d7b82458310bd72af"), // refs/heads/root
            (Kind::Revision, b"fde88c0861b2ccc1d42248338c30be1e373f683f"), // refs/heads/side
            (Kind::Release, b"060b866bdbff651a715e0e10adc703ad24acc8da"), // refs/tags/1
            (Kind::Release, b"e4d91c67cf64d74029e4a30cb5b3951ac8cd7bc9"), // refs/tags/2
            (Kind::Release, b"24d829a874cee2dc82cd09feb3161ccef707a5f6"), // refs/tags/blob
            (Kind::Revision, b"fde88c0861b2ccc1d42248338c30be1e373f683f"), // refs/tags/plain
        ],
    },
    Row {
        title: "a person without a name",
        stream: NAMELESS,
        objects: 3,
        snapshot: b"fbb58362654b319135b7119e0fad08a82df8ab5d",
        tips: &[
            (Kind::Revision, b"a73308ebb5f80eaa9a00574070194343174c4046"), // refs/heads/main
        ],
    },
];

#[test]
fn streams_by_hand(rt: HostRuntime) -> Result<(), Fail> {
    let alloc = rt.alloc();
    for row in ROWS {
        check(&rt, alloc, row)?;
    }
    Ok(())
}
