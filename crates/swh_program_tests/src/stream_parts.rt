// Limits of listings, of batches and of refs: what is just within them, and what is one above. A batch has no other limit of a
// word than that of a body, and a ref of its refs none but that of a line. The ids are those of SWHID v1.2.
use Laid::{Bytes, Fill, List, LongName};
use What::File;
use std::test::Fail;
use swh_outside::What;
use swh_program_fixtures::{BARE, CHECK, Case, INIT, LOAD, Laid, Piece, Setting, all_met_plainly};

const BLOB: &[Piece<'static>] = &[Piece::Text(
    b"83baae61804e65cc73a7201a7252750c76066a30 blob 10\nversion 1\n\n",
)];

const LIMITS: &[Case<'static>] = &[
    Case {
        name: "listings",
        setting: Setting {
            jobs: Some(&[Piece::Text(
                b"dir\tu1\td\tline\ndir\tu2\td\tlong\ndir\tu3\td\tpath\ndir\tu4\td\tfar\n",
            )]),
            files: &[
                ("line", &[Piece::Fill(1_048_575), Piece::Text(b"\n")], None),
                ("long", &[Piece::Fill(1_048_576), Piece::Text(b"\n")], None),
                (
                    "path",
                    &[
                        Piece::Text(b"100755 "),
                        Piece::Fill(65_535),
                        Piece::Text(b"\n"),
                    ],
                    None,
                ),
                (
                    "far",
                    &[
                        Piece::Text(b"100755 "),
                        Piece::Fill(65_536),
                        Piece::Text(b"\n"),
                    ],
                    None,
                ),
            ],
            folders: &[("d", &[("", List(&[("f", File)])), ("f", Bytes(b""))], None)],
            ..BARE
        },
        runs: &[INIT, LOAD],
        statuses: &[0, 1],
        printed: b"made\nu1\t1\tfailed\tmodes 1\nu2\t1\tfailed\tlimit line\nu3\t1\tfailed\tmodes 1\n\
u4\t1\tfailed\tlimit path\n",
        leaves: None,
    },
    // No file stands at the longest path of a folder, so that it fails.
    Case {
        name: "paths of a folder",
        setting: Setting {
            jobs: Some(&[Piece::Text(b"dir\tu1\td\ndir\tu2\tf\n")]),
            folders: &[
                ("d", &[("", LongName(65_535))], None),
                ("f", &[("", LongName(65_536))], None),
            ],
            ..BARE
        },
        runs: &[INIT, LOAD],
        statuses: &[0, 1],
        printed: b"made\nu1\t1\tfailed\tread\nu2\t1\tfailed\tlimit path\n",
        leaves: None,
    },
    // A body of the longest that is not there, and one that is longer.
    Case {
        name: "batches",
        setting: Setting {
            jobs: Some(&[Piece::Text(b"batch\tu1\tcut\tr\nbatch\tu2\twide\tr\n")]),
            files: &[
                (
                    "cut",
                    &[Piece::Text(b"83baae61804e65cc73a7201a7252750c76066a30 blob 67108864\n")],
                    None,
                ),
                (
                    "wide",
                    &[Piece::Text(b"83baae61804e65cc73a7201a7252750c76066a30 blob 67108865\n")],
                    None,
                ),
                ("r", &[], None),
            ],
            ..BARE
        },
        runs: &[INIT, LOAD],
        statuses: &[0, 1],
        printed: b"made\nu1\t1\tfailed\tbatch 0\nu2\t1\tfailed\tlimit body\n",
        leaves: None,
    },
    Case {
        name: "a line of refs",
        setting: Setting {
            jobs: Some(&[Piece::Text(b"batch\tu1\tb\tline\nbatch\tu2\tb\tlong\n")]),
            files: &[
                ("b", BLOB, None),
                (
                    "line",
                    &[
                        Piece::Text(b"83baae61804e65cc73a7201a7252750c76066a30 "),
                        Piece::Fill(1_048_534),
                        Piece::Text(b"\n"),
                    ],
                    None,
                ),
                (
                    "long",
                    &[
                        Piece::Text(b"83baae61804e65cc73a7201a7252750c76066a30 "),
                        Piece::Fill(1_048_535),
                        Piece::Text(b"\n"),
                    ],
                    None,
                ),
            ],
            ..BARE
        },
        runs: &[INIT, LOAD, CHECK],
        statuses: &[0, 1, 0],
        printed: b"made\nu1\t1\tfull\tswh:1:snp:994394bb338ad6a877173809b4604d4bef604cac\nu2\t1\tfailed\tlimit line\n\
objects 2 closed 2 visits 2\n",
        leaves: None,
    },
    // `HEAD` does not count.
    Case {
        name: "65,536 refs and one more",
        setting: Setting {
            jobs: Some(&[Piece::Text(b"batch\tu1\tb\tmost\nbatch\tu2\tb\tmany\n")]),
            files: &[
                ("b", BLOB, None),
                (
                    "most",
                    &[
                        Piece::Text(b"83baae61804e65cc73a7201a7252750c76066a30 HEAD\n"),
                        Piece::Rows {
                            count: 65_536,
                            before: b"83baae61804e65cc73a7201a7252750c76066a30 refs/heads/",
                            fill: 0,
                            after: b"\n",
                        },
                    ],
                    None,
                ),
                (
                    "many",
                    &[Piece::Rows {
                        count: 65_537,
                        before: b"83baae61804e65cc73a7201a7252750c76066a30 refs/heads/",
                        fill: 0,
                        after: b"\n",
                    }],
                    None,
                ),
            ],
            ..BARE
        },
        runs: &[INIT, LOAD, CHECK],
        statuses: &[0, 1, 0],
        printed: b"made\nu1\t1\tfull\tswh:1:snp:0cee9ca427b4c53531bccbceb5c0daa8ee380e4d\nu2\t1\tfailed\tlimit refs\n\
objects 2 closed 2 visits 2\n",
        leaves: None,
    },
];

#[test]
fn each_limit_of_a_part(rt: HostRuntime) -> Result<(), Fail> {
    all_met_plainly(rt.alloc(), LIMITS)
}

// A body has 67,108,864 bytes at most.
const FILES: &[Case<'static>] = &[Case {
    name: "files of a folder",
    setting: Setting {
        jobs: Some(&[Piece::Text(b"dir\tu1\td\ndir\tu2\tf\n")]),
        folders: &[
            (
                "d",
                &[("", List(&[("f", File)])), ("f", Fill(67_108_864))],
                None,
            ),
            (
                "f",
                &[("", List(&[("f", File)])), ("f", Fill(67_108_865))],
                None,
            ),
        ],
        ..BARE
    },
    runs: &[INIT, LOAD, CHECK],
    statuses: &[0, 1, 0],
    printed: b"made\nu1\t1\tfull\tswh:1:snp:ee60458e269fef3b139c02776315c7274eeefbc4\nu2\t1\tfailed\tlimit body\n\
objects 3 closed 3 visits 2\n",
    leaves: None,
}];

#[test]
fn files_up_to_the_limit(rt: HostRuntime) -> Result<(), Fail> {
    all_met_plainly(rt.alloc(), FILES)
}

// Each of the snapshot's 64 branches takes 32 bytes and its name, and so the last one.
const REFS: &[Case<'static>] = &[Case {
    name: "a snapshot of refs",
    setting: Setting {
        jobs: Some(&[Piece::Text(b"batch\tu1\tb\tmost\nbatch\tu2\tb\tmore\n")]),
        files: &[
            ("b", BLOB, None),
            ("most", &[GREAT_REFS, REF, Piece::Fill(608), LF], None),
            ("more", &[GREAT_REFS, REF, Piece::Fill(609), LF], None),
        ],
        ..BARE
    },
    runs: &[INIT, LOAD, CHECK],
    statuses: &[0, 1, 0],
    printed: b"made\nu1\t1\tfull\tswh:1:snp:2d360a3ea5a3e5fe55d2dee37523657802af5a1e\nu2\t1\tfailed\tlimit body\n\
objects 2 closed 2 visits 2\n",
    leaves: None,
}];

const REF: Piece<'static> = Piece::Text(b"83baae61804e65cc73a7201a7252750c76066a30 ");

const LF: Piece<'static> = Piece::Text(b"\n");

/// Lines of 1,048,576 bytes.
const GREAT_REFS: Piece<'static> = Piece::Rows {
    count: 64,
    before: b"83baae61804e65cc73a7201a7252750c76066a30 ",
    fill: 1_048_528,
    after: b"\n",
};

#[test]
fn refs_up_to_the_limit(rt: HostRuntime) -> Result<(), Fail> {
    all_met_plainly(rt.alloc(), REFS)
}
