// Jobs of all three kinds: what they load, and each detail of one that is bad. The ids are git's, those of snapshots by
// SWHID v1.2.
use crate::worked_loads::{BLOB, MODES, NO_BLOB, OBJECTS, PARTS, REFS, TWO};
use Laid::{Bytes, List, LongName};
use What::{File, Other};
use std::test::Fail;
use swh_fixtures::STREAM;
use swh_outside::What;
use swh_program_fixtures::{
    BARE, CHECK, Case, INIT, LOAD, Laid, Piece, Setting, StandingFile, StandingFolder, all_met,
};

const ALL: &[Piece<'static>] = &[Piece::Text(
    b"fast\thttps://e.org/p\te\ndir\thttps://e.org/d\td\tm\ndir\thttps://e.org/n\td\nbatch\thttps://e.org/b\tb\tr\n",
)];

const KINDS: &[Case<'static>] = &[
    // Each origin's visit has the kind of its job, and what is held already is not stored again.
    Case {
        name: "jobs of all kinds",
        setting: Setting {
            jobs: Some(ALL),
            ..PARTS
        },
        runs: &[
            INIT,
            LOAD,
            CHECK,
            &[
                "ask",
                "A",
                "/api/1/origin/https://e.org/d/visits/",
                "/api/1/origin/https://e.org/b/visits/",
            ],
        ],
        statuses: &[0; 4],
        printed: b"made\n\
https://e.org/p\t1\tfull\tswh:1:snp:5036c2b4a676f9dad60fbaed431ca21ecdec56ff\n\
https://e.org/d\t1\tfull\tswh:1:snp:064732ac2b71aac3a64f68cba08fdbcfe3c6e935\n\
https://e.org/n\t1\tfull\tswh:1:snp:e10c7026d6dc7c021219b19b52adc031094cd5da\n\
https://e.org/b\t1\tfull\tswh:1:snp:5036c2b4a676f9dad60fbaed431ca21ecdec56ff\n\
objects 10 closed 10 visits 4\n\
200 141\n\
[{\"date\":1000000000,\"origin\":\"https://e.org/d\",\"snapshot\":\"064732ac2b71aac3a64f68cba08fdbcfe3c6e935\",\
\"status\":\"full\",\"type\":\"dir\",\"visit\":1}]\n\
200 143\n\
[{\"date\":1000000000,\"origin\":\"https://e.org/b\",\"snapshot\":\"5036c2b4a676f9dad60fbaed431ca21ecdec56ff\",\
\"status\":\"full\",\"type\":\"batch\",\"visit\":1}]\n",
        leaves: None,
    },
    // The folder's directory, byte by byte.
    Case {
        name: "a program and a link",
        setting: Setting {
            jobs: Some(&[Piece::Text(b"dir\tu\td\tm\n")]),
            ..PARTS
        },
        runs: &[
            INIT,
            LOAD,
            &[
                "ask",
                "A",
                "/api/1/raw/swh:1:dir:fd1ddbd0b36255b027b7f28a48011a50332941b4/",
            ],
        ],
        statuses: &[0; 3],
        printed: b"made\nu\t1\tfull\tswh:1:snp:064732ac2b71aac3a64f68cba08fdbcfe3c6e935\n200 61\n\
120000 ln\0\xe5\x22\x4d\x53\x3e\xf2\x7b\x00\x12\x24\x85\x9a\x9b\x36\x69\x68\x46\xa7\xe7\xfe\
100755 run\0\x45\xb9\x83\xbe\x36\xb7\x3c\x07\x88\xdc\x9c\xbc\xb7\x6c\xbb\x80\xfc\x7b\xb0\x57\n",
        leaves: None,
    },
    // Once more: a second visit each, and nothing new.
    Case {
        name: "jobs of all kinds twice",
        setting: Setting {
            jobs: Some(&[Piece::Text(b"dir\tu1\td\tm\nbatch\tu2\tb\tr\n")]),
            ..PARTS
        },
        runs: &[INIT, LOAD, LOAD, CHECK],
        statuses: &[0; 4],
        printed: b"made\nu1\t1\tfull\tswh:1:snp:064732ac2b71aac3a64f68cba08fdbcfe3c6e935\n\
u2\t1\tfull\tswh:1:snp:5036c2b4a676f9dad60fbaed431ca21ecdec56ff\n\
u1\t2\tfull\tswh:1:snp:064732ac2b71aac3a64f68cba08fdbcfe3c6e935\n\
u2\t2\tfull\tswh:1:snp:5036c2b4a676f9dad60fbaed431ca21ecdec56ff\nobjects 8 closed 8 visits 4\n",
        leaves: None,
    },
    // A listing with another project, and a batch with a release, whose target is named too.
    Case {
        name: "a project and a release",
        setting: Setting {
            jobs: Some(&[Piece::Text(b"dir\tu1\td\tproject\nbatch\tu2\ttagged\ttags\n")]),
            files: &[
                (
                    "project",
                    &[
                        Piece::Text(b"160000 1111111111111111111111111111111111111111 sub\n"),
                        Piece::Text(b"100755 run\n120000 ln\n"),
                    ],
                    None,
                ),
                (
                    "tagged",
                    &[Piece::Text(TAG), Piece::Text(NO_BLOB), Piece::Text(BLOB)],
                    None,
                ),
                (
                    "tags",
                    &[Piece::Text(
                        b"295c0651a95ba32ac5e14f92da0161b122942cac HEAD\n\
295c0651a95ba32ac5e14f92da0161b122942cac refs/heads/main\n\
b0d5ede077ab52c24dca95995fe1840e94308346 refs/tags/v1\n\
295c0651a95ba32ac5e14f92da0161b122942cac refs/tags/v1^{}\n",
                    )],
                    None,
                ),
            ],
            ..PARTS
        },
        runs: &[INIT, LOAD, CHECK],
        statuses: &[0; 3],
        printed: b"made\nu1\t1\tfull\tswh:1:snp:5114f6cdeb0e1a797bc00622bd46964a661ababd\n\
u2\t1\tfull\tswh:1:snp:0ad3582f68cc2531f1adab2294891e3066590b1d\nobjects 9 closed 9 visits 2\n",
        leaves: None,
    },
    // The first part of an input that is not there decides.
    Case {
        name: "parts that are not there",
        setting: Setting {
            jobs: Some(&[Piece::Text(
                b"dir\tu1\tx\tm\ndir\tu2\td\tx\nbatch\tu3\tx\tr\nbatch\tu4\tb\tx\ndir\tu5\te\nbatch\tu6\td\tr\n",
            )]),
            ..PARTS
        },
        runs: &[INIT, LOAD],
        statuses: &[0, 1],
        printed: b"made\nu1\t1\tnot_found\t-\nu2\t1\tnot_found\t-\nu3\t1\tnot_found\t-\nu4\t1\tnot_found\t-\n\
u5\t1\tnot_found\t-\nu6\t1\tnot_found\t-\n",
        leaves: None,
    },
];

#[test]
fn jobs_of_each_kind(rt: HostRuntime) -> Result<(), Fail> {
    all_met(rt.alloc(), KINDS)
}

/// A release of the worked stream's commit, as git's object.
const TAG: &[u8] = b"b0d5ede077ab52c24dca95995fe1840e94308346 tag 114\n\
object 295c0651a95ba32ac5e14f92da0161b122942cac\n\
type commit\n\
tag v1\n\
tagger A <a@e.org> 1000000000 +0000\n\
\n\
Version 1\n\
\n";

/// Inputs that are bad, each in another way.
const BAD_FILES: &[StandingFile<'static>] = &[
    ("m", MODES, None),
    (
        "m3",
        &[Piece::Text(b"100755 run\n120000 ln\n100755 no\n")],
        None,
    ),
    ("long", &[Piece::Fill(1_048_577)], None),
    ("0", &[], None),
    ("b", OBJECTS, None),
    (
        "cut",
        &[Piece::Text(b"83baae61804e65cc73a7201a7252750c76066a30 blob 10\n")],
        None,
    ),
    (
        "other",
        &[Piece::Text(b"e5224d533ef27b001224859a9b36696846a7e7fe blob 3\nhi\n\n")],
        None,
    ),
    ("no-blob", &[Piece::Text(NO_BLOB)], None),
    (
        "wide",
        &[Piece::Text(b"83baae61804e65cc73a7201a7252750c76066a30 blob 67108865\n")],
        None,
    ),
    ("r", REFS, None),
    (
        "r2",
        &[Piece::Text(b"83baae61804e65cc73a7201a7252750c76066a30 HEAD\nx\n")],
        None,
    ),
    (
        "many",
        &[Piece::Rows {
            count: 65_537,
            before: b"83baae61804e65cc73a7201a7252750c76066a30 refs/heads/",
            fill: 0,
            after: b"\n",
        }],
        None,
    ),
];

const BAD_FOLDERS: &[StandingFolder<'static>] = &[
    ("d", TWO, None),
    ("odd", &[("", List(&[("l n%;", Other)]))], None),
    ("deep", &[("", LongName(65_536))], None),
];

const DETAILS: &[Case<'static>] = &[
    Case {
        name: "what is wrong with folders",
        setting: Setting {
            jobs: Some(&[Piece::Text(
                b"dir\tu1\todd\tm3\ndir\tu2\td\tm3\ndir\tu3\tdeep\ndir\tu4\td\tlong\ndir\tu5\td\n",
            )]),
            files: BAD_FILES,
            folders: BAD_FOLDERS,
            ..BARE
        },
        runs: &[INIT, LOAD],
        statuses: &[0, 1],
        printed: b"made\nu1\t1\tfailed\tother l%20n%25%3B\nu2\t1\tfailed\tmodes 3\nu3\t1\tfailed\tlimit path\n\
u4\t1\tfailed\tlimit line\nu5\t1\tfull\tswh:1:snp:e10c7026d6dc7c021219b19b52adc031094cd5da\n",
        leaves: None,
    },
    // The faults of a batch go before those of its refs, and these before what is lacking.
    Case {
        name: "what is wrong with batches",
        setting: Setting {
            jobs: Some(&[Piece::Text(
                b"batch\tu1\tcut\tr2\nbatch\tu2\tother\tr2\nbatch\tu3\twide\tr2\nbatch\tu4\tno-blob\tr2\n\
batch\tu5\tno-blob\tr\nbatch\tu6\t0\tr\nbatch\tu7\tb\tlong\nbatch\tu8\tb\tmany\nbatch\tu9\tb\tr\n",
            )]),
            files: BAD_FILES,
            ..BARE
        },
        runs: &[INIT, LOAD],
        statuses: &[0, 1],
        printed: b"made\nu1\t1\tfailed\tbatch 0\n\
u2\t1\tfailed\tname e5224d533ef27b001224859a9b36696846a7e7fe 45b983be36b73c0788dc9cbcb76cbb80fc7bb057\n\
u3\t1\tfailed\tlimit body\n\
u4\t1\tfailed\trefs 2\n\
u5\t1\tfailed\tno-object 83baae61804e65cc73a7201a7252750c76066a30\n\
u6\t1\tfailed\tno-object 295c0651a95ba32ac5e14f92da0161b122942cac\n\
u7\t1\tfailed\tlimit line\n\
u8\t1\tfailed\tlimit refs\n\
u9\t1\tfull\tswh:1:snp:5036c2b4a676f9dad60fbaed431ca21ecdec56ff\n",
        leaves: None,
    },
    // What is held already is not looked at for what a batch lacks.
    Case {
        name: "a batch without what is held",
        setting: Setting {
            jobs: Some(&[Piece::Text(b"fast\tu1\te\nbatch\tu2\tno-blob\tr\n")]),
            input: Some(&[Piece::Text(STREAM)]),
            files: BAD_FILES,
            ..BARE
        },
        runs: &[INIT, LOAD, CHECK],
        statuses: &[0, 1, 0],
        printed: b"made\nu1\t1\tfull\tswh:1:snp:5036c2b4a676f9dad60fbaed431ca21ecdec56ff\n\
u2\t1\tfailed\tno-object 83baae61804e65cc73a7201a7252750c76066a30\nobjects 4 closed 4 visits 2\n",
        leaves: None,
    },
];

#[test]
fn details_of_each_kind(rt: HostRuntime) -> Result<(), Fail> {
    all_met(rt.alloc(), DETAILS)
}
