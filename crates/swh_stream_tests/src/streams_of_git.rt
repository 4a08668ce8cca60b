// Streams that git 2.39 wrote by `git fast-export --all --signed-tags=strip --show-original-ids --mark-tags`, with the
// ids that git gives: those of the repository, but where a comment says that the export itself loses some.
use crate::loaded_streams::{Row, check};
use std::test::Fail;
use swh_base::Kind;

/// A merge, an octopus merge, and a second root.
const MERGES: &[u8] =
    b"blob\nmark :1\noriginal-oid 4286f428e3b19fe84de503916ce0e7dc8deefea1\ndata 2\nr\n\n\
reset refs/heads/apart\n\
commit refs/heads/apart\nmark :2\noriginal-oid 72944e57cb259cdf1e6b86a03989c11b29089a4c\n\
author A <a@e.org> 1000000060 +0200\ncommitter C <c@e.org> 1000000065 -0730\ndata 12\nsecond root\n\
M 100644 :1 r\n\n\
blob\nmark :3\noriginal-oid 78981922613b2afb6025042ff6bd878ac1994e85\ndata 2\na\n\n\
reset refs/heads/main\n\
commit refs/heads/main\nmark :4\noriginal-oid 276fe766e0e47372a3b166cb01c4e4b33617325f\n\
author A <a@e.org> 1000000010 +0200\ncommitter C <c@e.org> 1000000015 -0730\ndata 5\nroot\nM 100644 :3 a\n\n\
blob\nmark :5\noriginal-oid f719efd430d52bcfc8566a43b2eb655688d38871\ndata 4\ntwo\n\n\
commit refs/heads/two\nmark :6\noriginal-oid db03ca2f5fd07e76ff0940ba96fa4366bd584638\n\
author A <a@e.org> 1000000030 +0200\ncommitter C <c@e.org> 1000000035 -0730\ndata 4\ntwo\nfrom :4\n\
M 100644 :5 two\n\n\
blob\nmark :7\noriginal-oid 61780798228d17af2d34fce4cfbdf35556832472\ndata 2\nb\n\n\
commit refs/heads/main\nmark :8\noriginal-oid 5a4685b070fccc2c4985ec1219ceb7d8528eb6ed\n\
author A <a@e.org> 1000000040 +0200\ncommitter C <c@e.org> 1000000045 -0730\ndata 5\nmain\nfrom :4\n\
M 100644 :7 a\n\n\
blob\nmark :9\noriginal-oid 5626abf0f72e58d7a153368ba57db4c673c0e171\ndata 4\none\n\n\
commit refs/heads/one\nmark :10\noriginal-oid 6a0c5e0055fb1392274dee2af4cf0b4eececb8b4\n\
author A <a@e.org> 1000000020 +0200\ncommitter C <c@e.org> 1000000025 -0730\ndata 4\none\nfrom :4\n\
M 100644 :9 one\n\n\
commit refs/heads/main\nmark :11\noriginal-oid be7c2c9bdcc644e20cca27192ea9a055800a21bd\n\
author A <a@e.org> 1000000050 +0200\ncommitter C <c@e.org> 1000000055 -0730\ndata 6\nmerge\nfrom :8\nmerge :10\n\
M 100644 :9 one\n\n\
blob\nmark :12\noriginal-oid 00750edc07d6415dcc07ae0351e9397b0222b7ba\ndata 2\n3\n\n\
commit refs/heads/three\nmark :13\noriginal-oid b693d6dbae543fd00bc49baa5a4a3d2282d8036c\n\
author A <a@e.org> 1000000070 +0200\ncommitter C <c@e.org> 1000000075 -0730\ndata 6\nthree\nfrom :11\n\
M 100644 :12 three\n\n\
commit refs/heads/main\nmark :14\noriginal-oid c2b3164570901bc172c398c0c57a7df2b0ceb205\n\
author A <a@e.org> 1000000080 +0200\ncommitter C <c@e.org> 1000000085 -0730\ndata 8\noctopus\nfrom :11\n\
merge :6\nmerge :13\nM 100644 :12 three\nM 100644 :5 two\n";

/// A tag, a light tag, a tag of a tag and a tag of a blob. Git writes the inner tag under the outer one's name, so
/// the outer one's id is that of an import.
const TAGS: &[u8] =
    b"blob\nmark :1\noriginal-oid d31648397cfda3b0084d859b90815a7d9b3d146c\ndata 22\nonly a tag names this\n\n\
blob\nmark :2\noriginal-oid 78981922613b2afb6025042ff6bd878ac1994e85\ndata 2\na\n\n\
reset refs/tags/light\n\
commit refs/tags/light\nmark :3\noriginal-oid 276fe766e0e47372a3b166cb01c4e4b33617325f\n\
author A <a@e.org> 1000000010 +0200\ncommitter C <c@e.org> 1000000015 -0730\ndata 5\nroot\nM 100644 :2 a\n\n\
blob\nmark :4\noriginal-oid 61780798228d17af2d34fce4cfbdf35556832472\ndata 2\nb\n\n\
commit refs/heads/main\nmark :5\noriginal-oid 5bd9662886460b1f0f114b77cb7abac588a59043\n\
author A <a@e.org> 1000000020 +0200\ncommitter C <c@e.org> 1000000025 -0730\ndata 5\nnext\nfrom :3\n\
M 100644 :4 a\n\n\
tag v1\nmark :6\nfrom :3\noriginal-oid 40483f69d6579442915c4818e3392c04ed21cb6b\n\
tagger C <c@e.org> 1000000015 -0730\ndata 17\nan annotated tag\n\n\
tag outer\nmark :7\nfrom :3\noriginal-oid 40483f69d6579442915c4818e3392c04ed21cb6b\n\
tagger C <c@e.org> 1000000015 -0730\ndata 17\nan annotated tag\n\n\
reset refs/tags/outer\nfrom 0000000000000000000000000000000000000000\n\n\
tag outer\nmark :8\nfrom :7\noriginal-oid b4a3a7592a049d872d17c1ca8de07082d9e95bdc\n\
tagger C <c@e.org> 1000000025 -0730\ndata 6\nouter\n\n\
tag blob\nmark :9\nfrom :1\noriginal-oid 6c4630e55bb7389ca7427b47ee3216b872af6b68\n\
tagger C <c@e.org> 1000000025 -0730\ndata 10\nof a blob\n";

/// Modes, quoted paths, persons with empty names and, by `--reencode=no`, an encoding.
const MODES: &[u8] =
    b"blob\nmark :1\noriginal-oid f8dc9f27bb20501dd01697f9106025884c1f9466\ndata 5\nplain\n\
blob\nmark :2\noriginal-oid 1a9cc2b7fbfa834924f4c03780d767ccbecf0c9c\ndata 2\np\n\n\
blob\nmark :3\noriginal-oid 4286f428e3b19fe84de503916ce0e7dc8deefea1\ndata 2\nr\n\n\
reset refs/heads/main\n\
commit refs/heads/main\nmark :4\noriginal-oid 62af645007cd7d492458fa19b0761103c4ce87da\n\
author A <a@e.org> 1000000010 +0200\ncommitter C <c@e.org> 1000000015 -0730\ndata 6\nmodes\nM 120000 :1 link\n\
M 100644 :2 plain\nM 100755 :3 run\nM 160000 0123456789abcdef0123456789abcdef01234567 sub\n\n\
blob\nmark :5\noriginal-oid bca70f35318f31dd1d1d1d2d2e64c19b880899ff\ndata 2\nq\n\n\
commit refs/heads/main\nmark :6\noriginal-oid 53660b2e683364c29c357ae2321bbc3b62d480e3\n\
author A <a@e.org> 1000000020 +0200\ncommitter C <c@e.org> 1000000025 -0730\ndata 7\nquoted\nfrom :4\n\
M 100644 :5 \"\\001\\a\\b\\v\\f\\r\\177\\377\"\nM 100644 :5 \"caf\\303\\251\"\nM 100644 :5 \"sp ace/ x\"\n\
M 100644 :5 \"t\\tn\\nb\\\\q\\\"\"\n\n\
commit refs/heads/main\nmark :7\noriginal-oid 24adedd664f5c7f697559db7c80e443726b60869\n\
author  <a@e.org> 1000000100 +0000\ncommitter  <> 1000000100 +0000\ndata 9\nno names\nfrom :6\n\n\
commit refs/heads/main\nmark :8\noriginal-oid 1de2620bbb7cf247b9865b825cdb9bdced21f8c8\n\
author A <a@e.org> 1000000200 +0000\ncommitter A <a@e.org> 1000000200 +0000\nencoding ISO-8859-1\ndata 5\n\
caf\xe9\nfrom :7\n";

/// A file becomes a folder and a file again, a folder loses its last file, and a tree all of them. Git deletes the file
/// after it wrote what is in the folder, so the ids are those of an import.
const FOLDERS: &[u8] =
    b"blob\nmark :1\noriginal-oid f73f3093ff865c514c6c51f867e35f693487d0d3\ndata 5\nfile\n\n\
blob\nmark :2\noriginal-oid 6a69f92020f5df77af6e8813ff1232493383b708\ndata 2\nf\n\n\
blob\nmark :3\noriginal-oid 01058d844a98d293a3b03a8615a34700e4ed2be3\ndata 2\ng\n\n\
reset refs/heads/main\n\
commit refs/heads/main\nmark :4\noriginal-oid f03e77ca0ef148b5c7ccd509ad98e11748d1106d\n\
author A <a@e.org> 1000000010 +0200\ncommitter C <c@e.org> 1000000015 -0730\ndata 4\none\nM 100644 :1 a\n\
M 100644 :2 d/e/f\nM 100644 :3 d/g\n\n\
blob\nmark :5\noriginal-oid f2ad6c76f0115a6ba5b00456a849810e7ec0af20\ndata 2\nc\n\n\
commit refs/heads/main\nmark :6\noriginal-oid 2e677ac8183885ad28d9c6e1e5993c49a3c87e05\n\
author A <a@e.org> 1000000020 +0200\ncommitter C <c@e.org> 1000000025 -0730\ndata 24\na file becomes a folder\n\
from :4\nM 100644 :5 a/b/c\nD a\n\n\
blob\nmark :7\noriginal-oid 2bbb766514bf85a9ed9fc2a3cc0031136f2c3335\ndata 11\nfile again\n\n\
commit refs/heads/main\nmark :8\noriginal-oid c02f7deee2bde68ee067c0e016b8c036226dbad9\n\
author A <a@e.org> 1000000030 +0200\ncommitter C <c@e.org> 1000000035 -0730\ndata 9\nand back\nfrom :6\n\
D a/b/c\nM 100644 :7 a\n\n\
commit refs/heads/main\nmark :9\noriginal-oid 2f294ed0abee2a47f589b27db53660ff99303f77\n\
author A <a@e.org> 1000000040 +0200\ncommitter C <c@e.org> 1000000045 -0730\ndata 16\nan empty folder\nfrom :8\n\
D d/e/f\n\n\
commit refs/heads/main\nmark :10\noriginal-oid 3b84b5e6ef89d1b50d83a61395b4579223cb984c\n\
author A <a@e.org> 1000000050 +0200\ncommitter C <c@e.org> 1000000055 -0730\ndata 13\nnothing left\nfrom :9\n\
D a\nD d/g\n";

/// The same by `--full-tree`: here the ids are those of the repository.
const WHOLE: &[u8] =
    b"blob\nmark :1\noriginal-oid f73f3093ff865c514c6c51f867e35f693487d0d3\ndata 5\nfile\n\n\
blob\nmark :2\noriginal-oid 6a69f92020f5df77af6e8813ff1232493383b708\ndata 2\nf\n\n\
blob\nmark :3\noriginal-oid 01058d844a98d293a3b03a8615a34700e4ed2be3\ndata 2\ng\n\n\
reset refs/heads/main\n\
commit refs/heads/main\nmark :4\noriginal-oid f03e77ca0ef148b5c7ccd509ad98e11748d1106d\n\
author A <a@e.org> 1000000010 +0200\ncommitter C <c@e.org> 1000000015 -0730\ndata 4\none\ndeleteall\n\
M 100644 :1 a\nM 100644 :2 d/e/f\nM 100644 :3 d/g\n\n\
blob\nmark :5\noriginal-oid f2ad6c76f0115a6ba5b00456a849810e7ec0af20\ndata 2\nc\n\n\
commit refs/heads/main\nmark :6\noriginal-oid 2e677ac8183885ad28d9c6e1e5993c49a3c87e05\n\
author A <a@e.org> 1000000020 +0200\ncommitter C <c@e.org> 1000000025 -0730\ndata 24\na file becomes a folder\n\
from :4\ndeleteall\nM 100644 :5 a/b/c\nM 100644 :2 d/e/f\nM 100644 :3 d/g\n\n\
blob\nmark :7\noriginal-oid 2bbb766514bf85a9ed9fc2a3cc0031136f2c3335\ndata 11\nfile again\n\n\
commit refs/heads/main\nmark :8\noriginal-oid c02f7deee2bde68ee067c0e016b8c036226dbad9\n\
author A <a@e.org> 1000000030 +0200\ncommitter C <c@e.org> 1000000035 -0730\ndata 9\nand back\nfrom :6\n\
deleteall\nM 100644 :7 a\nM 100644 :2 d/e/f\nM 100644 :3 d/g\n\n\
commit refs/heads/main\nmark :9\noriginal-oid 2f294ed0abee2a47f589b27db53660ff99303f77\n\
author A <a@e.org> 1000000040 +0200\ncommitter C <c@e.org> 1000000045 -0730\ndata 16\nan empty folder\nfrom :8\n\
deleteall\nM 100644 :7 a\nM 100644 :3 d/g\n\n\
commit refs/heads/main\nmark :10\noriginal-oid 3b84b5e6ef89d1b50d83a61395b4579223cb984c\n\
author A <a@e.org> 1000000050 +0200\ncommitter C <c@e.org> 1000000055 -0730\ndata 13\nnothing left\nfrom :9\n\
deleteall\n";

/// Copies and renames, by `-M -C`.
const RENAMES: &[u8] =
    b"blob\nmark :1\noriginal-oid 94ebaf900161394059478fd88aec30e59092a1d7\ndata 8\n1\n2\n3\n4\n\n\
blob\nmark :2\noriginal-oid 3aac70f843f29afb5bee93055fa1862bf07f7932\ndata 8\n5\n6\n7\n8\n\n\
reset refs/heads/main\n\
commit refs/heads/main\nmark :3\noriginal-oid 918d367de87b77f8ad18f9d282013a7b83e6a298\n\
author A <a@e.org> 1000000010 +0200\ncommitter C <c@e.org> 1000000015 -0730\ndata 4\none\nM 100644 :1 d/a\n\
M 100644 :2 d/b\n\n\
commit refs/heads/main\nmark :4\noriginal-oid 75d9d85b2ff1fced52c926263fd0778b466a59f2\n\
author A <a@e.org> 1000000020 +0200\ncommitter C <c@e.org> 1000000025 -0730\ndata 6\nmoved\nfrom :3\n\
R d/a \"e d/a\"\nR d/b \"e d/b\"\n\n\
blob\nmark :5\noriginal-oid d2c8a16db96ae83bf46eeb16d77b99747af47022\ndata 10\n1\n2\n3\n4\n9\n\n\
commit refs/heads/main\nmark :6\noriginal-oid 3f2322055b5f230e14bcda674a51391276653a98\n\
author A <a@e.org> 1000000030 +0200\ncommitter C <c@e.org> 1000000035 -0730\ndata 7\ncopied\nfrom :4\n\
C \"e d/a\" copy\nM 100644 :5 \"e d/a\"\n";

const ROWS: &[Row] = &[
    Row {
        title: "merges",
        stream: MERGES,
        objects: 23,
        snapshot: b"ea3e055f4ff3c82c634f53321b4526f811184a3f",
        tips: &[
            (Kind::Revision, b"72944e57cb259cdf1e6b86a03989c11b29089a4c"), // refs/heads/apart
            (Kind::Revision, b"c2b3164570901bc172c398c0c57a7df2b0ceb205"), // refs/heads/main
            (Kind::Revision, b"6a0c5e0055fb1392274dee2af4cf0b4eececb8b4"), // refs/heads/one
            (Kind::Revision, b"b693d6dbae543fd00bc49baa5a4a3d2282d8036c"), // refs/heads/three
            (Kind::Revision, b"db03ca2f5fd07e76ff0940ba96fa4366bd584638"), // refs/heads/two
        ],
    },
    Row {
        title: "tags",
        stream: TAGS,
        objects: 12,
        snapshot: b"76d4018941b54dfa9f6f76b4dfbf20d012d9a426",
        tips: &[
            (Kind::Revision, b"5bd9662886460b1f0f114b77cb7abac588a59043"), // refs/heads/main
            (Kind::Release, b"6c4630e55bb7389ca7427b47ee3216b872af6b68"), // refs/tags/blob
            (Kind::Revision, b"276fe766e0e47372a3b166cb01c4e4b33617325f"), // refs/tags/light
            (Kind::Release, b"de8f82d707d38e289a60e7c99e926bf29a0ae801"), // refs/tags/outer
            (Kind::Release, b"40483f69d6579442915c4818e3392c04ed21cb6b"), // refs/tags/v1
        ],
    },
    Row {
        title: "modes and paths",
        stream: MODES,
        objects: 12,
        snapshot: b"67372d38294fc98ba642440e920d586cf60af8ef",
        tips: &[
            (Kind::Revision, b"1de2620bbb7cf247b9865b825cdb9bdced21f8c8"), // refs/heads/main
        ],
    },
    Row {
        title: "files and folders",
        stream: FOLDERS,
        objects: 19,
        snapshot: b"c0c7dbe84ff12ea8eab32459912bdff8548e3bd2",
        tips: &[
            (Kind::Revision, b"0726ff85c25ab98492581eed62008a97715da4b8"), // refs/heads/main
        ],
    },
    Row {
        title: "whole trees",
        stream: WHOLE,
        objects: 21,
        snapshot: b"ef2847280d76f2dcabd921cdb6f33563939960b5",
        tips: &[
            (Kind::Revision, b"3b84b5e6ef89d1b50d83a61395b4579223cb984c"), // refs/heads/main
        ],
    },
    Row {
        title: "copies and renames",
        stream: RENAMES,
        objects: 12,
        snapshot: b"3790536a0a72076b6868ce5333623c608f7e7891",
        tips: &[
            (Kind::Revision, b"3f2322055b5f230e14bcda674a51391276653a98"), // refs/heads/main
        ],
    },
];

#[test]
fn streams_of_git(rt: HostRuntime) -> Result<(), Fail> {
    let alloc = rt.alloc();
    for row in ROWS {
        check(&rt, alloc, row)?;
    }
    Ok(())
}
