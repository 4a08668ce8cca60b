// Each limit of a stream, of a body and of a job file: what is just within it, and what is one above.
use crate::streams::{EMPTY, Load, all_end_so};
use std::test::Fail;
use swh_fixtures::STREAM;
use swh_program_fixtures::{CHECK, Case, INIT, LOAD, LOADING, Piece, Setting, all_met_plainly};

// A commit without a tree, up to where its changes stand.
const COMMIT: &[u8] = b"commit refs/heads/m\ncommitter A <a@e.org> 1000000000 +0000\ndata 0\n";

// Lines of 1,048,576 bytes, paths of 65,535, refs of 1,024, names of tags of 1,014, and 65,536 refs. The ids are git's, of
// the snapshots that stand on them.
const LIMITS: &[Load<'static>] = &[
    Load {
        input: &[
            Piece::Text(b"#"),
            Piece::Fill(1_048_574),
            Piece::Text(b"\n"),
        ],
        printed: EMPTY,
    },
    Load {
        input: &[
            Piece::Text(b"#"),
            Piece::Fill(1_048_575),
            Piece::Text(b"\n"),
        ],
        printed: b"made\nhttps://e.org/p\t1\tfailed\tlimit line\n",
    },
    Load {
        input: &[
            Piece::Text(b"blob\ndata <<E\n"),
            Piece::Fill(1_048_575),
            Piece::Text(b"\nE\n"),
        ],
        printed: EMPTY,
    },
    Load {
        input: &[
            Piece::Text(b"blob\ndata <<E\n"),
            Piece::Fill(1_048_576),
            Piece::Text(b"\nE\n"),
        ],
        printed: b"made\nhttps://e.org/p\t1\tfailed\tlimit line\n",
    },
    Load {
        input: &[
            Piece::Text(COMMIT),
            Piece::Text(b"M 100644 inline "),
            Piece::Fill(65_535),
            Piece::Text(b"\ndata 1\nx"),
        ],
        printed: b"made\nhttps://e.org/p\t1\tfull\tswh:1:snp:5e9d3690893e3167c02bd86027db7b15dfefdabc\n",
    },
    Load {
        input: &[
            Piece::Text(COMMIT),
            Piece::Text(b"M 100644 inline "),
            Piece::Fill(65_536),
            Piece::Text(b"\ndata 1\nx"),
        ],
        printed: b"made\nhttps://e.org/p\t1\tfailed\tlimit path\n",
    },
    Load {
        input: &[
            Piece::Text(b"reset "),
            Piece::Fill(1_024),
            Piece::Text(b"\n"),
        ],
        printed: EMPTY,
    },
    Load {
        input: &[
            Piece::Text(b"reset "),
            Piece::Fill(1_025),
            Piece::Text(b"\n"),
        ],
        printed: b"made\nhttps://e.org/p\t1\tfailed\tlimit ref\n",
    },
    Load {
        input: &[
            Piece::Text(STREAM),
            Piece::Text(b"tag "),
            Piece::Fill(1_014),
            Piece::Text(b"\nfrom :2\ntagger A <a@e.org> 1000000000 +0000\ndata 0\n"),
        ],
        printed: b"made\nhttps://e.org/p\t1\tfull\tswh:1:snp:1fc2a9b5f000fb74dbb5c16d27ccea7d8d6c800a\n",
    },
    Load {
        input: &[
            Piece::Text(STREAM),
            Piece::Text(b"tag "),
            Piece::Fill(1_015),
            Piece::Text(b"\nfrom :2\ntagger A <a@e.org> 1000000000 +0000\ndata 0\n"),
        ],
        printed: b"made\nhttps://e.org/p\t1\tfailed\tlimit ref\n",
    },
];

#[test]
fn each_limit_of_a_word(rt: HostRuntime) -> Result<(), Fail> {
    all_end_so(rt.alloc(), LIMITS)
}

// With the worked stream's branch there are 65,536 refs.
const REFS: &[Case<'static>] = &[
    Case {
        name: "65,536 refs",
        setting: Setting {
            input: Some(&[
                Piece::Text(STREAM),
                Piece::Rows {
                    count: 65_535,
                    before: b"reset refs/heads/",
                    fill: 0,
                    after: b"\nfrom :2\n",
                },
            ]),
            ..LOADING
        },
        runs: &[INIT, LOAD, CHECK],
        statuses: &[0, 0, 0],
        printed: b"made\nhttps://e.org/p\t1\tfull\tswh:1:snp:d85804773b7a1ea665b4de15f610ebff7a4dfdcb\n\
objects 4 closed 4 visits 1\n",
        leaves: None,
    },
    Case {
        name: "65,537 refs",
        setting: Setting {
            input: Some(&[
                Piece::Text(STREAM),
                Piece::Rows {
                    count: 65_536,
                    before: b"reset refs/heads/",
                    fill: 0,
                    after: b"\nfrom :2\n",
                },
            ]),
            ..LOADING
        },
        runs: &[INIT, LOAD],
        statuses: &[0, 1],
        printed: b"made\nhttps://e.org/p\t1\tfailed\tlimit refs\n",
        leaves: None,
    },
];

#[test]
fn numbers_of_refs(rt: HostRuntime) -> Result<(), Fail> {
    all_met_plainly(rt.alloc(), REFS)
}

// More objects than a batch has.
const OBJECTS: &[Case<'static>] = &[
    Case {
        name: "5,001 contents",
        setting: Setting {
            input: Some(&[Piece::Rows {
                count: 5_001,
                before: b"blob\ndata 6\n",
                fill: 0,
                after: b"\n",
            }]),
            ..LOADING
        },
        runs: &[INIT, LOAD, CHECK],
        statuses: &[0, 0, 0],
        printed: b"made\nhttps://e.org/p\t1\tfull\tswh:1:snp:1a8893e6a86f444e8be8e7bda6cb34fb1735a00e\n\
objects 5002 closed 1 visits 1\n",
        leaves: None,
    },
    // Each row has 19 bytes. The first 4,096 contents are a batch, which is sent before the fault is met; the others wait there.
    Case {
        name: "5,001 contents and a fault behind them",
        setting: Setting {
            input: Some(&[
                Piece::Rows {
                    count: 5_001,
                    before: b"blob\ndata 6\n",
                    fill: 0,
                    after: b"\n",
                },
                Piece::Text(b"x\n"),
            ]),
            ..LOADING
        },
        runs: &[INIT, LOAD, CHECK],
        statuses: &[0, 1, 0],
        printed: b"made\nhttps://e.org/p\t1\tfailed\tstream 95019 grammar\nobjects 4096 closed 0 visits 1\n",
        leaves: None,
    },
];

#[test]
fn numbers_of_objects(rt: HostRuntime) -> Result<(), Fail> {
    all_met_plainly(rt.alloc(), OBJECTS)
}

// A body has 67,108,864 bytes at most. Of a content all of them are in the stream. A table of such bodies has two rows, so that
// a test takes few seconds.
const CONTENTS: &[Case<'static>] = &[
    Case {
        name: "a content of counted bytes",
        setting: Setting {
            input: Some(&[
                Piece::Text(b"blob\ndata 67108864\n"),
                Piece::Fill(67_108_864),
            ]),
            ..LOADING
        },
        runs: &[INIT, LOAD, CHECK],
        statuses: &[0, 0, 0],
        printed: b"made\nhttps://e.org/p\t1\tfull\tswh:1:snp:1a8893e6a86f444e8be8e7bda6cb34fb1735a00e\n\
objects 2 closed 1 visits 1\n",
        leaves: None,
    },
    Case {
        name: "one more",
        setting: Setting {
            input: Some(&[
                Piece::Text(b"blob\ndata 67108865\n"),
                Piece::Fill(67_108_865),
            ]),
            ..LOADING
        },
        runs: &[INIT, LOAD],
        statuses: &[0, 1],
        printed: b"made\nhttps://e.org/p\t1\tfailed\tlimit body\n",
        leaves: None,
    },
];

#[test]
fn contents_up_to_the_limit(rt: HostRuntime) -> Result<(), Fail> {
    all_met_plainly(rt.alloc(), CONTENTS)
}

// The same in lines up to a word.
const LINES: &[Case<'static>] = &[
    Case {
        name: "a content of lines",
        setting: Setting {
            input: Some(&[
                Piece::Text(b"blob\ndata <<E\n"),
                Piece::Rows {
                    count: 64,
                    before: b"",
                    fill: 1_048_569,
                    after: b"\n",
                },
                Piece::Text(b"E\n"),
            ]),
            ..LOADING
        },
        runs: &[INIT, LOAD, CHECK],
        statuses: &[0, 0, 0],
        printed: b"made\nhttps://e.org/p\t1\tfull\tswh:1:snp:1a8893e6a86f444e8be8e7bda6cb34fb1735a00e\n\
objects 2 closed 1 visits 1\n",
        leaves: None,
    },
    Case {
        name: "one line more",
        setting: Setting {
            input: Some(&[
                Piece::Text(b"blob\ndata <<E\n"),
                Piece::Rows {
                    count: 64,
                    before: b"",
                    fill: 1_048_569,
                    after: b"\n",
                },
                Piece::Text(b"\nE\n"),
            ]),
            ..LOADING
        },
        runs: &[INIT, LOAD],
        statuses: &[0, 1],
        printed: b"made\nhttps://e.org/p\t1\tfailed\tlimit body\n",
        leaves: None,
    },
];

#[test]
fn contents_of_lines_up_to_the_limit(rt: HostRuntime) -> Result<(), Fail> {
    all_met_plainly(rt.alloc(), LINES)
}

// 122 bytes stand before the message.
const REVISIONS: &[Case<'static>] = &[
    Case {
        name: "a revision",
        setting: Setting {
            input: Some(&[
                Piece::Text(
                    b"commit refs/heads/m\ncommitter A <a@e.org> 1000000000 +0000\ndata 67108742\n",
                ),
                Piece::Fill(67_108_742),
            ]),
            ..LOADING
        },
        runs: &[INIT, LOAD, CHECK],
        statuses: &[0, 0, 0],
        printed: b"made\nhttps://e.org/p\t1\tfull\tswh:1:snp:659ae981f499402519dc4e680a8d4c25a311351b\n\
objects 3 closed 3 visits 1\n",
        leaves: None,
    },
    Case {
        name: "a revision with one byte more",
        setting: Setting {
            input: Some(&[
                Piece::Text(
                    b"commit refs/heads/m\ncommitter A <a@e.org> 1000000000 +0000\ndata 67108743\n",
                ),
                Piece::Fill(67_108_743),
            ]),
            ..LOADING
        },
        runs: &[INIT, LOAD],
        statuses: &[0, 1],
        printed: b"made\nhttps://e.org/p\t1\tfailed\tlimit body\n",
        leaves: None,
    },
];

#[test]
fn revisions_up_to_the_limit(rt: HostRuntime) -> Result<(), Fail> {
    all_met_plainly(rt.alloc(), REVISIONS)
}

// 103 bytes stand before the message.
const RELEASES: &[Case<'static>] = &[
    Case {
        name: "a release",
        setting: Setting {
            input: Some(&[
                Piece::Text(STREAM),
                Piece::Text(
                    b"tag t\nfrom :2\ntagger A <a@e.org> 1000000000 +0000\ndata 67108761\n",
                ),
                Piece::Fill(67_108_761),
            ]),
            ..LOADING
        },
        runs: &[INIT, LOAD, CHECK],
        statuses: &[0, 0, 0],
        printed: b"made\nhttps://e.org/p\t1\tfull\tswh:1:snp:89b7aa756b918a0a19e6497a03a789010c796849\n\
objects 5 closed 5 visits 1\n",
        leaves: None,
    },
    Case {
        name: "a release with one byte more",
        setting: Setting {
            input: Some(&[
                Piece::Text(STREAM),
                Piece::Text(
                    b"tag t\nfrom :2\ntagger A <a@e.org> 1000000000 +0000\ndata 67108762\n",
                ),
                Piece::Fill(67_108_762),
            ]),
            ..LOADING
        },
        runs: &[INIT, LOAD],
        statuses: &[0, 1],
        printed: b"made\nhttps://e.org/p\t1\tfailed\tlimit body\n",
        leaves: None,
    },
];

#[test]
fn releases_up_to_the_limit(rt: HostRuntime) -> Result<(), Fail> {
    all_met_plainly(rt.alloc(), RELEASES)
}

// 1,024 entries of 65,536 bytes.
const DIRECTORIES: &[Case<'static>] = &[
    Case {
        name: "a directory",
        setting: Setting {
            input: Some(&[
                Piece::Text(COMMIT),
                Piece::Rows {
                    count: 1_024,
                    before: b"M 100644 inline ",
                    fill: 65_502,
                    after: b"\ndata 0\n",
                },
            ]),
            ..LOADING
        },
        runs: &[INIT, LOAD, CHECK],
        statuses: &[0, 0, 0],
        printed: b"made\nhttps://e.org/p\t1\tfull\tswh:1:snp:f1341cd4c7166b055366b87511d12f531bbe88e7\n\
objects 4 closed 4 visits 1\n",
        leaves: None,
    },
    Case {
        name: "a directory with one entry more",
        setting: Setting {
            input: Some(&[
                Piece::Text(COMMIT),
                Piece::Rows {
                    count: 1_024,
                    before: b"M 100644 inline ",
                    fill: 65_502,
                    after: b"\ndata 0\n",
                },
                Piece::Text(b"M 100644 inline y\ndata 0\n"),
            ]),
            ..LOADING
        },
        runs: &[INIT, LOAD],
        statuses: &[0, 1],
        printed: b"made\nhttps://e.org/p\t1\tfailed\tlimit body\n",
        leaves: None,
    },
];

#[test]
fn directories_up_to_the_limit(rt: HostRuntime) -> Result<(), Fail> {
    all_met_plainly(rt.alloc(), DIRECTORIES)
}

// 65,536 branches of 1,024 bytes; the worked stream's own branch is taken away.
const SNAPSHOTS: &[Case<'static>] = &[
    Case {
        name: "a snapshot",
        setting: Setting {
            input: Some(&[
                Piece::Text(STREAM),
                Piece::Text(b"reset refs/heads/main\n\n"),
                Piece::Rows {
                    count: 65_536,
                    before: b"reset ",
                    fill: 985,
                    after: b"\nfrom :2\n",
                },
            ]),
            ..LOADING
        },
        runs: &[INIT, LOAD, CHECK],
        statuses: &[0, 0, 0],
        printed: b"made\nhttps://e.org/p\t1\tfull\tswh:1:snp:a196b0c8528c6d0b5774020aebfd9f880895f933\n\
objects 4 closed 4 visits 1\n",
        leaves: None,
    },
    Case {
        name: "a snapshot with one byte more",
        setting: Setting {
            input: Some(&[
                Piece::Text(STREAM),
                Piece::Text(b"reset refs/heads/main\n\n"),
                Piece::Rows {
                    count: 65_535,
                    before: b"reset ",
                    fill: 985,
                    after: b"\nfrom :2\n",
                },
                Piece::Text(b"reset "),
                Piece::Fill(992),
                Piece::Text(b"\nfrom :2\n"),
            ]),
            ..LOADING
        },
        runs: &[INIT, LOAD],
        statuses: &[0, 1],
        printed: b"made\nhttps://e.org/p\t1\tfailed\tlimit body\n",
        leaves: None,
    },
];

#[test]
fn snapshots_up_to_the_limit(rt: HostRuntime) -> Result<(), Fail> {
    all_met_plainly(rt.alloc(), SNAPSHOTS)
}
