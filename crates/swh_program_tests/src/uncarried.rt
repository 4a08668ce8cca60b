// Each word that tells why a name is not cooked, by `cook` and by `ask`. The ids are those of another SHA-1.
use std::test::Fail;
use swh_program_fixtures::{
    BARE, CHECK, Case, INIT, LOAD, Piece, Setting, Spelled, all_met_in_sums, all_met_spelled,
};

/// A content, a directory with it as `test.txt`, an empty one, and such as have it as `..`, as a name that is not UTF-8, and
/// the empty one as `none`.
const FIRST: &[u8] = b"83baae61804e65cc73a7201a7252750c76066a30 blob 10\n\
version 1\n\
\n\
d8329fc1cc938780ffdd9f94e0d364e0ea74f579 tree 36\n\
100644 test.txt\x00\x83\xba\xaea\x80Ne\xccs\xa7 \x1arRu\x0cv\x06j0\n\
4b825dc642cb6eb9a060e54bf8d69288fbee4904 tree 0\n\
\n\
6b40c86f0922c96e1fffd98726e84525cd5046e6 tree 30\n\
100644 ..\x00\x83\xba\xaea\x80Ne\xccs\xa7 \x1arRu\x0cv\x06j0\n\
19ce8f90a8577081ef08a8e4c1735f0a34a545da tree 29\n\
100644 \xff\x00\x83\xba\xaea\x80Ne\xccs\xa7 \x1arRu\x0cv\x06j0\n\
4f9cbf8bb327d54abb6a45e14e840053e2b3cb56 tree 31\n\
40000 none\x00K\x82]\xc6B\xcbn\xb9\xa0`\xe5K\xf8\xd6\x92\x88\xfb\xeeI\x04\n";

/// What stands before and behind the name of 65,536 bytes in a directory.
const LONG_FRONT: &[u8] = b"2554467de0883053f70e174472bef2af91f0110f tree 65564\n\
100644 ";

const LONG_END: &[u8] = b"\x00\x83\xba\xaea\x80Ne\xccs\xa7 \x1arRu\x0cv\x06j0\n";

/// Revisions: a plain one, one with a signature, and one of each odd directory; and releases: of the plain revision, of that
/// release, and one with a signature.
const REST: &[u8] = b"295c0651a95ba32ac5e14f92da0161b122942cac commit 128\n\
tree d8329fc1cc938780ffdd9f94e0d364e0ea74f579\n\
author A <a@e.org> 1000000000 +0000\n\
committer A <a@e.org> 1000000000 +0000\n\
\n\
first\n\
\n\
96a9786356688a9b9ea40920cc289238ba66a83b commit 137\n\
tree d8329fc1cc938780ffdd9f94e0d364e0ea74f579\n\
author A <a@e.org> 1000000000 +0000\n\
committer A <a@e.org> 1000000000 +0000\n\
gpgsig x\n\
\n\
first\n\
\n\
2b719a79a25aa627b1f67236246fba7c93423982 commit 128\n\
tree 6b40c86f0922c96e1fffd98726e84525cd5046e6\n\
author A <a@e.org> 1000000000 +0000\n\
committer A <a@e.org> 1000000000 +0000\n\
\n\
first\n\
\n\
9faaea4c703d90ae9788b022db2844aed22219b8 commit 128\n\
tree 4f9cbf8bb327d54abb6a45e14e840053e2b3cb56\n\
author A <a@e.org> 1000000000 +0000\n\
committer A <a@e.org> 1000000000 +0000\n\
\n\
first\n\
\n\
42718d924ff05154ffebeeed5302a8bcdfbed034 commit 128\n\
tree 2554467de0883053f70e174472bef2af91f0110f\n\
author A <a@e.org> 1000000000 +0000\n\
committer A <a@e.org> 1000000000 +0000\n\
\n\
first\n\
\n\
c40f4d4289bfcade202e4cc21e9d44dd74ec06d5 commit 128\n\
tree 19ce8f90a8577081ef08a8e4c1735f0a34a545da\n\
author A <a@e.org> 1000000000 +0000\n\
committer A <a@e.org> 1000000000 +0000\n\
\n\
first\n\
\n\
d13186c9011ccaebb35bc7a0637fdf1a0981e1b3 tag 108\n\
object 295c0651a95ba32ac5e14f92da0161b122942cac\n\
type commit\n\
tag v1\n\
tagger A <a@e.org> 1000000000 +0000\n\
\n\
one\n\
\n\
11c895c093c897cce1905d83d94d2981aa851386 tag 105\n\
object d13186c9011ccaebb35bc7a0637fdf1a0981e1b3\n\
type tag\n\
tag v2\n\
tagger A <a@e.org> 1000000000 +0000\n\
\n\
two\n\
\n\
20d2cd3c5bd43f45cf2183389296820d4f13d76d tag 119\n\
object 295c0651a95ba32ac5e14f92da0161b122942cac\n\
type commit\n\
tag v3\n\
tagger A <a@e.org> 1000000000 +0000\n\
gpgsig x\n\
\n\
three\n\
\n";

/// The runs leave nothing at the path `OUT`, so that it is free for each.
const EACH: &[Spelled<'static>] = &[
    Spelled {
        case: Case {
            name: "each word but three",
            setting: Setting {
                jobs: Some(&[Piece::Text(b"batch\td\tb\tr1\nbatch\tt\tb\tr2\n")]),
                files: &[
                    (
                        "b",
                        &[
                            Piece::Text(FIRST),
                            Piece::Text(LONG_FRONT),
                            Piece::Fill(65_536),
                            Piece::Text(LONG_END),
                            Piece::Text(REST),
                        ],
                        None,
                    ),
                    (
                        "r1",
                        &[Piece::Text(b"d8329fc1cc938780ffdd9f94e0d364e0ea74f579 refs/heads/d\n")],
                        None,
                    ),
                    (
                        "r2",
                        &[Piece::Text(b"11c895c093c897cce1905d83d94d2981aa851386 refs/tags/v2\n")],
                        None,
                    ),
                ],
                ..BARE
            },
            runs: &[
                INIT,
                LOAD,
                CHECK,
                &[
                    "cook",
                    "A",
                    "swh:1:rev:96a9786356688a9b9ea40920cc289238ba66a83b",
                    "OUT",
                ],
                &[
                    "cook",
                    "A",
                    "swh:1:rel:20d2cd3c5bd43f45cf2183389296820d4f13d76d",
                    "OUT",
                ],
                &[
                    "cook",
                    "A",
                    "swh:1:rev:9faaea4c703d90ae9788b022db2844aed22219b8",
                    "OUT",
                ],
                &[
                    "cook",
                    "A",
                    "swh:1:dir:6b40c86f0922c96e1fffd98726e84525cd5046e6",
                    "OUT",
                ],
                &[
                    "cook",
                    "A",
                    "swh:1:rev:2b719a79a25aa627b1f67236246fba7c93423982",
                    "OUT",
                ],
                &[
                    "cook",
                    "A",
                    "swh:1:dir:19ce8f90a8577081ef08a8e4c1735f0a34a545da",
                    "OUT",
                ],
                &[
                    "cook",
                    "A",
                    "swh:1:dir:2554467de0883053f70e174472bef2af91f0110f",
                    "OUT",
                ],
                &[
                    "cook",
                    "A",
                    "swh:1:rev:42718d924ff05154ffebeeed5302a8bcdfbed034",
                    "OUT",
                ],
                &[
                    "cook",
                    "A",
                    "swh:1:snp:4a2babf74f65bf13cd5a43bfd073dcd63adf33cc",
                    "OUT",
                ],
                &[
                    "cook",
                    "A",
                    "swh:1:snp:a631f68e28ed8bc1415ee0883796a7693eef2804",
                    "OUT",
                ],
                &[
                    "ask",
                    "A",
                    "/api/1/cook/swh:1:rev:96a9786356688a9b9ea40920cc289238ba66a83b/",
                    "/api/1/cook/swh:1:rel:20d2cd3c5bd43f45cf2183389296820d4f13d76d/",
                    "/api/1/cook/swh:1:rev:9faaea4c703d90ae9788b022db2844aed22219b8/",
                    "/api/1/cook/swh:1:rev:2b719a79a25aa627b1f67236246fba7c93423982/",
                    "/api/1/cook/swh:1:rev:42718d924ff05154ffebeeed5302a8bcdfbed034/",
                    "/api/1/cook/swh:1:snp:4a2babf74f65bf13cd5a43bfd073dcd63adf33cc/",
                    "/api/1/cook/swh:1:snp:a631f68e28ed8bc1415ee0883796a7693eef2804/",
                ],
            ],
            statuses: &[0, 0, 0, 1, 1, 1, 1, 1, 1, 1, 1, 1, 1, 1],
            printed: b"",
            leaves: None,
        },
        words: &[],
        times: 0,
        status: 0,
        printed: &[
            Piece::Text(
                b"made\n\
d\t1\tfull\tswh:1:snp:4a2babf74f65bf13cd5a43bfd073dcd63adf33cc\n\
t\t1\tfull\tswh:1:snp:a631f68e28ed8bc1415ee0883796a7693eef2804\n\
objects 18 closed 7 visits 2\n",
            ),
            Piece::Text(
                b"swharc: uncarried swh:1:rev:96a9786356688a9b9ea40920cc289238ba66a83b revision\n\
swharc: uncarried swh:1:rel:20d2cd3c5bd43f45cf2183389296820d4f13d76d release\n\
swharc: uncarried swh:1:dir:4b825dc642cb6eb9a060e54bf8d69288fbee4904 empty\n\
swharc: uncarried swh:1:dir:6b40c86f0922c96e1fffd98726e84525cd5046e6 dots\n\
swharc: uncarried swh:1:dir:6b40c86f0922c96e1fffd98726e84525cd5046e6 dots\n\
swharc: uncarried swh:1:dir:19ce8f90a8577081ef08a8e4c1735f0a34a545da text\n\
swharc: uncarried swh:1:dir:2554467de0883053f70e174472bef2af91f0110f path\n\
swharc: uncarried swh:1:dir:2554467de0883053f70e174472bef2af91f0110f path\n\
swharc: uncarried swh:1:snp:4a2babf74f65bf13cd5a43bfd073dcd63adf33cc branch\n\
swharc: uncarried swh:1:rel:d13186c9011ccaebb35bc7a0637fdf1a0981e1b3 tagless\n",
            ),
            Piece::Text(
                b"422 98\n\
{\"error\":\"uncarried\",\"name\":\"swh:1:rev:96a9786356688a9b9ea40920cc289238ba66a83b\",\"why\":\"re\
vision\"}\n\
422 97\n\
{\"error\":\"uncarried\",\"name\":\"swh:1:rel:20d2cd3c5bd43f45cf2183389296820d4f13d76d\",\"why\":\"re\
lease\"}\n\
422 95\n\
{\"error\":\"uncarried\",\"name\":\"swh:1:dir:4b825dc642cb6eb9a060e54bf8d69288fbee4904\",\"why\":\"em\
pty\"}\n\
422 94\n\
{\"error\":\"uncarried\",\"name\":\"swh:1:dir:6b40c86f0922c96e1fffd98726e84525cd5046e6\",\"why\":\"do\
ts\"}\n\
422 94\n\
{\"error\":\"uncarried\",\"name\":\"swh:1:dir:2554467de0883053f70e174472bef2af91f0110f\",\"why\":\"pa\
th\"}\n\
422 96\n\
{\"error\":\"uncarried\",\"name\":\"swh:1:snp:4a2babf74f65bf13cd5a43bfd073dcd63adf33cc\",\"why\":\"br\
anch\"}\n\
422 97\n\
{\"error\":\"uncarried\",\"name\":\"swh:1:rel:d13186c9011ccaebb35bc7a0637fdf1a0981e1b3\",\"why\":\"ta\
gless\"}\n",
            ),
        ],
    },
    // Releases of 65,537 names.
    Spelled {
        case: Case {
            name: "refs",
            setting: Setting {
                jobs: Some(&[Piece::Text(b"batch\tu\tb\tr\n")]),
                files: &[
                    ("b", &[Piece::Tagged(65_537)], None),
                    (
                        "r",
                        &[Piece::Text(b"bc75c05360df75b7fe2e86db0f2c1abb9e17d29b refs/tags/t\n")],
                        None,
                    ),
                ],
                ..BARE
            },
            runs: &[
                INIT,
                LOAD,
                CHECK,
                &[
                    "cook",
                    "A",
                    "swh:1:rel:bc75c05360df75b7fe2e86db0f2c1abb9e17d29b",
                    "OUT",
                ],
                &[
                    "ask",
                    "A",
                    "/api/1/cook/swh:1:rel:bc75c05360df75b7fe2e86db0f2c1abb9e17d29b/",
                ],
            ],
            statuses: &[0, 0, 0, 1, 1],
            printed: b"",
            leaves: None,
        },
        words: &[],
        times: 0,
        status: 0,
        printed: &[Piece::Text(
            b"made\n\
u\t1\tfull\tswh:1:snp:b738e6898a85ef23ce7fad12faed56c36118d9d6\n\
objects 65539 closed 65539 visits 1\n\
swharc: uncarried swh:1:rel:bc75c05360df75b7fe2e86db0f2c1abb9e17d29b refs\n\
422 94\n\
{\"error\":\"uncarried\",\"name\":\"swh:1:rel:bc75c05360df75b7fe2e86db0f2c1abb9e17d29b\",\"why\":\"re\
fs\"}\n",
        )],
    },
];

#[test]
fn each_word_is_told(rt: HostRuntime) -> Result<(), Fail> {
    all_met_spelled(rt.alloc(), EACH)
}

/// A directory whose entry is a folder of its own id, where the sum of the bytes is the id.
const CYCLE: &[Case<'static>] = &[Case {
    name: "cycle",
    setting: Setting {
        jobs: Some(&[Piece::Text(b"batch\tu\tb\tr\n")]),
        files: &[
            (
                "b",
                &[
                    Piece::Text(b"0000000000000000000000000000000000000000 tree 29\n40000 vv\0"),
                    Piece::Text(&[0; 20]),
                    Piece::Text(b"\n"),
                ],
                None,
            ),
            (
                "r",
                &[Piece::Text(b"0000000000000000000000000000000000000000 HEAD\n")],
                None,
            ),
        ],
        ..BARE
    },
    runs: &[
        INIT,
        LOAD,
        CHECK,
        &[
            "cook",
            "A",
            "swh:1:dir:0000000000000000000000000000000000000000",
            "OUT",
        ],
        &[
            "cook",
            "A",
            "swh:1:snp:00000000000000000000000000000000000000a3",
            "OUT",
        ],
        &[
            "ask",
            "A",
            "/api/1/cook/swh:1:snp:00000000000000000000000000000000000000a3/",
        ],
    ],
    statuses: &[0, 0, 0, 1, 1, 1],
    printed: b"made\n\
u\t1\tfull\tswh:1:snp:00000000000000000000000000000000000000a3\n\
objects 2 closed 2 visits 1\n\
swharc: uncarried swh:1:dir:0000000000000000000000000000000000000000 cycle\n\
swharc: uncarried swh:1:dir:0000000000000000000000000000000000000000 cycle\n\
422 95\n\
{\"error\":\"uncarried\",\"name\":\"swh:1:dir:0000000000000000000000000000000000000000\",\"why\":\"cy\
cle\"}\n",
    leaves: None,
}];

#[test]
fn a_cycle_is_told(rt: HostRuntime) -> Result<(), Fail> {
    all_met_in_sums(rt.alloc(), CYCLE)
}
