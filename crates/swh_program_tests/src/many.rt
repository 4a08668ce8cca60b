// What is read, kept and printed where there is more of it than a few: no such number is taken for want of memory. The ids are
// those of another SHA-1.
use std::test::Fail;
use swh_fixtures::STREAM;
use swh_program_fixtures::{
    BARE, CHECK, Case, INIT, LOAD, LOADING, Piece, Setting, Spelled, all_met_spelled,
};

const OBJECTS: &[Spelled<'static>] = &[Spelled {
    case: Case {
        name: "70,000 contents and their directory",
        setting: Setting {
            jobs: Some(&[Piece::Text(b"batch\tu\tb\tr\n")]),
            files: &[
                ("b", &[Piece::Numbered(70_000)], None),
                (
                    "r",
                    &[Piece::Text(b"20334eba8215a2dfa2e52b3a891175be56c98f60 refs/heads/d\n")],
                    None,
                ),
            ],
            ..BARE
        },
        runs: &[
            INIT,
            LOAD,
            CHECK,
            &[
                "ask",
                "A",
                "/api/1/directory/20334eba8215a2dfa2e52b3a891175be56c98f60/069999/",
            ],
        ],
        statuses: &[0, 0, 0, 0],
        printed: b"",
        leaves: None,
    },
    words: &[],
    times: 0,
    status: 0,
    printed: &[Piece::Text(
        b"made\n\
u\t1\tfull\tswh:1:snp:56af6e0ac36b9a53290de0fd92c38225c66435d3\n\
objects 70002 closed 70002 visits 1\n\
200 97\n\
{\"name\":\"069999\",\"perms\":33188,\"target\":\"ade8be56cacfc170ab1129134b820d4a1405e90c\",\"type\"\
:\"file\"}\n",
    )],
}];

#[test]
fn batches_of_many_objects(rt: HostRuntime) -> Result<(), Fail> {
    all_met_spelled(rt.alloc(), OBJECTS)
}

const NAMES: Piece<'static> = Piece::Rows {
    count: 100,
    before: b"",
    fill: 0,
    after: b"/",
};

/// Twelve revisions in a row, one with all of them as its parents, one of a file below a hundred folders, and ten releases in a
/// row, the first of that revision.
const GRAPH: &[Piece<'static>] = &[
    Piece::Rows {
        count: 12,
        before: b"commit refs/heads/m\nmark :1",
        fill: 0,
        after: b"\ncommitter A <a@e.org> 1000000000 +0000\ndata 0\n",
    },
    Piece::Text(
        b"commit refs/heads/octopus\ncommitter A <a@e.org> 1000000000 +0000\ndata 0\nfrom :1000011\n",
    ),
    Piece::Rows {
        count: 11,
        before: b"merge :1",
        fill: 0,
        after: b"\n",
    },
    Piece::Text(
        b"commit refs/heads/deep\nmark :1\ncommitter A <a@e.org> 1000000000 +0000\ndata 6\nfirst\nM 100644 inline ",
    ),
    NAMES,
    Piece::Text(b"f\ndata 1\nx\n"),
    Piece::Rows {
        count: 10,
        before: b"tag t\nmark :1\nfrom :1\ntagger A <a@e.org> 1000000000 +0000\ndata 6\n",
        fill: 0,
        after: b"\n",
    },
];

const LISTED: &[Spelled<'static>] = &[
    Spelled {
        case: Case {
            name: "a folder of 2,000 files",
            setting: Setting {
                jobs: Some(&[Piece::Text(b"batch\tu\tb\tr\n")]),
                files: &[
                    ("b", &[Piece::Numbered(2_000)], None),
                    (
                        "r",
                        &[Piece::Text(b"86c923bed3abc30eda05ac9e41ed980c87b5fca1 refs/heads/d\n")],
                        None,
                    ),
                ],
                ..BARE
            },
            runs: &[
                INIT,
                LOAD,
                &[
                    "cook",
                    "A",
                    "swh:1:dir:86c923bed3abc30eda05ac9e41ed980c87b5fca1",
                    "OUT",
                ],
            ],
            statuses: &[0, 0, 0],
            printed: b"",
            leaves: None,
        },
        words: &[],
        times: 0,
        status: 0,
        printed: &[Piece::Text(
            b"made\n\
u\t1\tfull\tswh:1:snp:e7e240e22baf60d003c4de0bcad8d358754adfc0\n\
swh:1:dir:86c923bed3abc30eda05ac9e41ed980c87b5fca1\t-\n",
        )],
    },
    Spelled {
        case: Case {
            name: "2,000 branches and one",
            setting: Setting {
                input: Some(&[
                    Piece::Text(STREAM),
                    Piece::Rows {
                        count: 2_000,
                        before: b"reset refs/heads/",
                        fill: 0,
                        after: b"\nfrom :2\n",
                    },
                ]),
                ..LOADING
            },
            runs: &[
                INIT,
                LOAD,
                &[
                    "ask",
                    "A",
                    "/api/1/snapshot/fb2787a7c782f6f9382b68e4e10fb315bb7b8354/",
                ],
            ],
            statuses: &[0, 0, 0],
            printed: b"",
            leaves: None,
        },
        words: &[],
        times: 0,
        status: 0,
        printed: &[
            Piece::Text(
                b"made\n\
https://e.org/p\t1\tfull\tswh:1:snp:fb2787a7c782f6f9382b68e4e10fb315bb7b8354\n\
200 198159\n\
{\"branches\":{",
            ),
            Piece::Rows {
                count: 2_000,
                before: b"\"refs/heads/",
                fill: 0,
                after: b"\":{\"target\":\"295c0651a95ba32ac5e14f92da0161b122942cac\",\"target_type\":\"revision\"},",
            },
            Piece::Text(
                b"\"refs/heads/main\":{\"target\":\"295c0651a95ba32ac5e14f92da0161b122942cac\",\"target_type\":\"revisi\
on\"}},\"id\":\"fb2787a7c782f6f9382b68e4e10fb315bb7b8354\"}\n",
            ),
        ],
    },
    Spelled {
        case: Case {
            name: "2,000 entries and one",
            setting: Setting {
                input: Some(&[
                    Piece::Text(
                        b"commit refs/heads/m\ncommitter A <a@e.org> 1000000000 +0000\ndata 0\n",
                    ),
                    Piece::Rows {
                        count: 2_000,
                        before: b"M 100644 inline ",
                        fill: 0,
                        after: b"\ndata 1\nx\n",
                    },
                    Piece::Text(b"M 100644 inline z\ndata 1\nx\n"),
                ]),
                ..LOADING
            },
            runs: &[
                INIT,
                LOAD,
                &[
                    "ask",
                    "A",
                    "/api/1/directory/fdb07aee636ca2a8054f008a2786a6c81cc4cc35/",
                ],
            ],
            statuses: &[0, 0, 0],
            printed: b"",
            leaves: None,
        },
        words: &[],
        times: 0,
        status: 0,
        printed: &[
            Piece::Text(
                b"made\n\
https://e.org/p\t1\tfull\tswh:1:snp:c84749c6e433f9add637cb4d38ffa50ba21e74a9\n\
200 196094\n\
[",
            ),
            Piece::Rows {
                count: 2_000,
                before: b"{\"name\":\"",
                fill: 0,
                after: b"\",\"perms\":33188,\"target\":\"c1b0730e0133447badcfd47fd144e254807b06e1\",\"type\":\
\"file\"},",
            },
            Piece::Text(
                b"{\"name\":\"z\",\"perms\":33188,\"target\":\"c1b0730e0133447badcfd47fd144e254807b06e1\",\"type\":\"fi\
le\"}]\n",
            ),
        ],
    },
];

#[test]
fn no_number_of_entries_is_want_of_memory(rt: HostRuntime) -> Result<(), Fail> {
    all_met_spelled(rt.alloc(), LISTED)
}

const ASKED: &[Spelled<'static>] = &[
    Spelled {
        case: Case {
            name: "an origin of 2,048 bytes, with four visits, and one of 2,049",
            setting: Setting {
                jobs: Some(&[
                    Piece::Text(b"fast\t"),
                    Piece::Fill(2_048),
                    Piece::Text(b"\te\n"),
                ]),
                ..LOADING
            },
            runs: &[INIT, LOAD, LOAD, LOAD, LOAD],
            statuses: &[0, 0, 0, 0, 0],
            printed: b"",
            leaves: None,
        },
        words: &[
            &[Piece::Text(b"ask")],
            &[Piece::Text(b"A")],
            &[
                Piece::Text(b"/api/1/origin/"),
                Piece::Fill(2_048),
                Piece::Text(b"/visits/"),
            ],
            &[
                Piece::Text(b"/api/1/origin/"),
                Piece::Fill(2_048),
                Piece::Text(b"/get/"),
            ],
            &[
                Piece::Text(b"/api/1/origin/"),
                Piece::Fill(2_049),
                Piece::Text(b"/get/"),
            ],
        ],
        times: 1,
        status: 1,
        printed: &[
            Piece::Text(b"made\n"),
            Piece::Fill(2_048),
            Piece::Text(b"\t1\tfull\tswh:1:snp:5036c2b4a676f9dad60fbaed431ca21ecdec56ff\n"),
            Piece::Fill(2_048),
            Piece::Text(b"\t2\tfull\tswh:1:snp:5036c2b4a676f9dad60fbaed431ca21ecdec56ff\n"),
            Piece::Fill(2_048),
            Piece::Text(b"\t3\tfull\tswh:1:snp:5036c2b4a676f9dad60fbaed431ca21ecdec56ff\n"),
            Piece::Fill(2_048),
            Piece::Text(b"\t4\tfull\tswh:1:snp:5036c2b4a676f9dad60fbaed431ca21ecdec56ff\n"),
            Piece::Text(
                b"200 8697\n\
[",
            ),
            Piece::Text(b"{\"date\":1000000000,\"origin\":\""),
            Piece::Fill(2_048),
            Piece::Text(
                b"\",\"snapshot\":\"5036c2b4a676f9dad60fbaed431ca21ecdec56ff\",\"status\":\"full\",\"type\":\"fast\",\"\
visit\":4},",
            ),
            Piece::Text(b"{\"date\":1000000000,\"origin\":\""),
            Piece::Fill(2_048),
            Piece::Text(
                b"\",\"snapshot\":\"5036c2b4a676f9dad60fbaed431ca21ecdec56ff\",\"status\":\"full\",\"type\":\"fast\",\"\
visit\":3},",
            ),
            Piece::Text(b"{\"date\":1000000000,\"origin\":\""),
            Piece::Fill(2_048),
            Piece::Text(
                b"\",\"snapshot\":\"5036c2b4a676f9dad60fbaed431ca21ecdec56ff\",\"status\":\"full\",\"type\":\"fast\",\"\
visit\":2},",
            ),
            Piece::Text(b"{\"date\":1000000000,\"origin\":\""),
            Piece::Fill(2_048),
            Piece::Text(
                b"\",\"snapshot\":\"5036c2b4a676f9dad60fbaed431ca21ecdec56ff\",\"status\":\"full\",\"type\":\"fast\",\"\
visit\":1}]\n",
            ),
            Piece::Text(
                b"200 2069\n\
{\"url\":\"",
            ),
            Piece::Fill(2_048),
            Piece::Text(b"\",\"visits\":4}\n"),
            Piece::Text(
                b"400 17\n\
{\"error\":\"swhid\"}\n",
            ),
        ],
    },
    Spelled {
        case: Case {
            name: "200 paths",
            setting: BARE,
            runs: &[INIT],
            statuses: &[0],
            printed: b"",
            leaves: None,
        },
        words: &[
            &[Piece::Text(b"ask")],
            &[Piece::Text(b"A")],
            &[Piece::Text(b"/")],
        ],
        times: 200,
        status: 1,
        printed: &[
            Piece::Text(b"made\n"),
            Piece::Times(
                200,
                b"404 21\n\
{\"error\":\"not found\"}\n",
            ),
        ],
    },
];

#[test]
fn no_number_of_paths_and_visits_is_want_of_memory(rt: HostRuntime) -> Result<(), Fail> {
    all_met_spelled(rt.alloc(), ASKED)
}

const HEADS: &[Spelled<'static>] = &[
    Spelled {
        case: Case {
            name: "a head of 1,000 bytes",
            setting: Setting {
                jobs: Some(&[
                    Piece::Text(b"fast\tu\te\trefs/heads/"),
                    Piece::Fill(989),
                    Piece::Text(b"\n"),
                ]),
                input: Some(&[
                    Piece::Text(b"commit refs/heads/"),
                    Piece::Fill(989),
                    Piece::Text(
                        b"\ncommitter A <a@e.org> 1000000000 +0000\ndata 0\nM 100644 inline f\ndata 1\nx\n",
                    ),
                ]),
                ..BARE
            },
            runs: &[
                INIT,
                LOAD,
                &[
                    "cook",
                    "A",
                    "swh:1:snp:869684a6a0d8a4e637b8e1c527524cecba70d3cd",
                    "OUT",
                ],
                &[
                    "ask",
                    "A",
                    "/api/1/snapshot/869684a6a0d8a4e637b8e1c527524cecba70d3cd/",
                ],
            ],
            statuses: &[0, 0, 0, 0],
            printed: b"",
            leaves: None,
        },
        words: &[],
        times: 0,
        status: 0,
        printed: &[
            Piece::Text(
                b"made\n\
u\t1\tfull\tswh:1:snp:869684a6a0d8a4e637b8e1c527524cecba70d3cd\n\
swh:1:snp:869684a6a0d8a4e637b8e1c527524cecba70d3cd\trefs/heads/",
            ),
            Piece::Fill(989),
            Piece::Text(
                b"\n\
200 2187\n\
{\"branches\":{\"HEAD\":{\"target\":\"refs/heads/",
            ),
            Piece::Fill(989),
            Piece::Text(b"\",\"target_type\":\"alias\"},\"refs/heads/"),
            Piece::Fill(989),
            Piece::Text(
                b"\":{\"target\":\"6bcc3a9f3aa93eb8b7eece07ed6e9e2fa23fe536\",\"target_type\":\"revision\"}},\"id\":\"8\
69684a6a0d8a4e637b8e1c527524cecba70d3cd\"}\n",
            ),
        ],
    },
    Spelled {
        case: Case {
            name: "a word that breaks behind its core",
            setting: BARE,
            runs: &[&[
                "cook",
                "A",
                "swh:1:cnt:83baae61804e65cc73a7201a7252750c76066a30;lines=x",
                "OUT",
            ]],
            statuses: &[1],
            printed: b"",
            leaves: None,
        },
        words: &[],
        times: 0,
        status: 0,
        printed: &[Piece::Text(b"swharc: no swhid 57\n")],
    },
    Spelled {
        case: Case {
            name: "a content of 1,048,577 bytes",
            setting: Setting {
                input: Some(&[Piece::Text(b"blob\ndata 1048577\n"), Piece::Fill(1_048_577)]),
                ..LOADING
            },
            runs: &[
                INIT,
                LOAD,
                &[
                    "ask",
                    "A",
                    "/api/1/raw/swh:1:cnt:ac5462351387e270a2042086c34a1ddbe11c0d19/",
                ],
            ],
            statuses: &[0, 0, 0],
            printed: b"",
            leaves: None,
        },
        words: &[],
        times: 0,
        status: 0,
        printed: &[
            Piece::Text(
                b"made\n\
https://e.org/p\t1\tfull\tswh:1:snp:1a8893e6a86f444e8be8e7bda6cb34fb1735a00e\n\
200 1048577\n",
            ),
            Piece::Fill(1_048_577),
            Piece::Text(b"\n"),
        ],
    },
];

#[test]
fn no_length_of_a_head_or_a_body_is_want_of_memory(rt: HostRuntime) -> Result<(), Fail> {
    all_met_spelled(rt.alloc(), HEADS)
}

const DEEP: &[Spelled<'static>] = &[Spelled {
    case: Case {
        name: "twelve parents, ten releases, and a path of 101 names",
        setting: Setting {
            input: Some(GRAPH),
            ..LOADING
        },
        runs: &[
            INIT,
            LOAD,
            &[
                "ask",
                "A",
                "/api/1/revision/3b2911d0faca9885d81974f80d482953de2df071/log/",
                "/api/1/cook/swh:1:rev:08e7f6ed7e0de05942c75121a469b47ca880c5c4/",
            ],
        ],
        statuses: &[0, 0, 0],
        printed: b"",
        leaves: None,
    },
    words: &[
        &[Piece::Text(b"ask")],
        &[Piece::Text(b"A")],
        &[
            Piece::Text(
                b"/api/1/resolve/swh:1:cnt:c1b0730e0133447badcfd47fd144e254807b06e1;origin=https://e.org/p;anchor=swh:1\
:rel:9a0ad1a99792e7b1b7e8a51325a836d3d82a0f73;path=",
            ),
            Piece::Rows {
                count: 100,
                before: b"/",
                fill: 0,
                after: b"",
            },
            Piece::Text(b"/f;lines=1;bytes=0/"),
        ],
    ],
    times: 1,
    status: 0,
    printed: &[
        Piece::Text(
            b"made\n\
https://e.org/p\t1\tfull\tswh:1:snp:ef6e261684efd3d0f77498fd00982cf03f692dad\n\
200 560\n\
[\"3b2911d0faca9885d81974f80d482953de2df071\",\"89a6ad537867a7004374588df7c2f20d9dd51cac\",\"00a7fac7\
17bb92d717dac93c0869c0702eeda152\",\"eaa1ebf5b212879364540a3fc2c727f35f6073fb\",\"bc92a1345ceb311b374\
d6627ff97bdd5651c5378\",\"cbda283151da1f545236e12b446ba76780247d7c\",\"bce6db90f9a6132c69d0b08e929953\
fdc97caf3b\",\"e25dc7a3c4adf95bc9a79a92ea83f8107a84e5f3\",\"7d39c653583350ce6081adcbfec9117f52bf2684\"\
,\"d3ff6fd9a42e01493deaf50f05f752ac297cef6f\",\"233b1e60ee56a44220f5e995a42dda74499fb4c6\",\"a6f20706\
5618e4346f510288b76d09e5a6147f0c\",\"5c81e9d5c1438a8846762ff459eb7145b4f592a4\"]\n\
200 1002\n\
feature done\n\
blob\n\
mark :1\n\
data 1\n\
x\n\
reset refs/swh/cook\n\
\n\
commit refs/swh/cook\n\
mark :2\n\
author A <a@e.org> 1000000000 +0000\n\
committer A <a@e.org> 1000000000 +0000\n\
data 6\n\
first\n\
\n\
deleteall\n\
M 100644 :1 ",
        ),
        NAMES,
        Piece::Text(
            b"f\n\
\n\
reset refs/heads/main\n\
from :2\n\
\n\
reset refs/swh/cook\n\
from 0000000000000000000000000000000000000000\n\
\n\
done\n\
\n\
200 80\n\
{\"object_id\":\"c1b0730e0133447badcfd47fd144e254807b06e1\",\"object_type\":\"content\"}\n",
        ),
    ],
}];

#[test]
fn no_depth_is_want_of_memory(rt: HostRuntime) -> Result<(), Fail> {
    all_met_spelled(rt.alloc(), DEEP)
}
