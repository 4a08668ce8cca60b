// Bodies that collide, where a body's id is the sum of its bytes: the first stays, and what comes behind it is not added.
use Laid::{Bytes, List};
use What::File;
use std::test::Fail;
use swh_outside::What;
use swh_program_fixtures::{
    BARE, CHECK, Case, INIT, LOAD, LOADING, Laid, Piece, Setting, TWO_JOBS, all_met_in_sums,
};

/// Asks for the bytes of `ab`, whose sum is that of `ba`.
const ASK_AB: &[&str] = &[
    "ask",
    "A",
    "/api/1/raw/swh:1:cnt:00000000000000000000000000000000000000c3/",
];

/// The objects `ab`, `ba` and `c` as a batch.
const OBJECTS: &[u8] = b"00000000000000000000000000000000000000c3 blob 2\nab\n\
00000000000000000000000000000000000000c3 blob 2\nba\n\
0000000000000000000000000000000000000063 blob 1\nc\n";

const WITHIN: &[Case<'static>] = &[
    Case {
        name: "two bodies in a stream",
        setting: Setting {
            input: Some(&[Piece::Text(
                b"blob\nmark :1\ndata 2\nab\nblob\nmark :2\ndata 2\nba\nblob\nmark :3\ndata 1\nc\n",
            )]),
            ..LOADING
        },
        runs: &[INIT, LOAD, CHECK, ASK_AB],
        statuses: &[0, 1, 0, 0],
        printed: b"made\nhttps://e.org/p\t1\tfailed\tcollision swh:1:cnt:00000000000000000000000000000000000000c3\n\
objects 1 closed 0 visits 1\n200 2\nab\n",
        leaves: None,
    },
    Case {
        name: "two bodies in a batch",
        setting: Setting {
            jobs: Some(&[Piece::Text(b"batch\tu\tb\tr\n")]),
            files: &[("b", &[Piece::Text(OBJECTS)], None), ("r", &[], None)],
            ..BARE
        },
        runs: &[INIT, LOAD, CHECK, ASK_AB],
        statuses: &[0, 1, 0, 0],
        printed: b"made\nu\t1\tfailed\tcollision swh:1:cnt:00000000000000000000000000000000000000c3\n\
objects 1 closed 0 visits 1\n200 2\nab\n",
        leaves: None,
    },
    Case {
        name: "two bodies in a folder",
        setting: Setting {
            jobs: Some(&[Piece::Text(b"dir\tu\td\n")]),
            folders: &[(
                "d",
                &[
                    ("", List(&[("f", File), ("g", File)])),
                    ("f", Bytes(b"ab")),
                    ("g", Bytes(b"ba")),
                ],
                None,
            )],
            ..BARE
        },
        runs: &[INIT, LOAD, CHECK, ASK_AB],
        statuses: &[0, 1, 0, 0],
        printed: b"made\nu\t1\tfailed\tcollision swh:1:cnt:00000000000000000000000000000000000000c3\n\
objects 1 closed 0 visits 1\n200 2\nab\n",
        leaves: None,
    },
    // One body twice, and two kinds of one sum.
    Case {
        name: "no other body",
        setting: Setting {
            input: Some(&[Piece::Text(
                b"blob\nmark :1\ndata 2\nab\nblob\nmark :2\ndata 2\nab\nblob\nmark :3\ndata 0\n",
            )]),
            ..LOADING
        },
        runs: &[INIT, LOAD, CHECK],
        statuses: &[0, 0, 0],
        printed: b"made\nhttps://e.org/p\t1\tfull\tswh:1:snp:0000000000000000000000000000000000000000\n\
objects 3 closed 1 visits 1\n",
        leaves: None,
    },
];

#[test]
fn bodies_of_one_input_collide(rt: HostRuntime) -> Result<(), Fail> {
    all_met_in_sums(rt.alloc(), WITHIN)
}

const HELD: &[Case<'static>] = &[
    Case {
        name: "a stream after another",
        setting: Setting {
            jobs: Some(TWO_JOBS),
            input: Some(&[Piece::Text(b"blob\nmark :1\ndata 2\nab")]),
            other_input: Some(&[Piece::Text(b"blob\nmark :1\ndata 2\nba")]),
            ..LOADING
        },
        runs: &[INIT, LOAD, CHECK, ASK_AB],
        statuses: &[0, 1, 0, 0],
        printed: b"made\nhttps://e.org/p\t1\tfull\tswh:1:snp:0000000000000000000000000000000000000000\n\
https://e.org/a\t1\tfailed\tcollision swh:1:cnt:00000000000000000000000000000000000000c3\n\
objects 2 closed 1 visits 2\n200 2\nab\n",
        leaves: None,
    },
    Case {
        name: "a batch and a folder after a stream",
        setting: Setting {
            jobs: Some(&[Piece::Text(b"fast\tu1\te\nbatch\tu2\tb\tr\ndir\tu3\td\n")]),
            input: Some(&[Piece::Text(b"blob\nmark :1\ndata 2\nab")]),
            files: &[
                (
                    "b",
                    &[Piece::Text(b"00000000000000000000000000000000000000c3 blob 2\nba\n")],
                    None,
                ),
                ("r", &[], None),
            ],
            folders: &[(
                "d",
                &[("", List(&[("f", File)])), ("f", Bytes(b"ba"))],
                None,
            )],
            ..BARE
        },
        runs: &[INIT, LOAD, CHECK, ASK_AB],
        statuses: &[0, 1, 0, 0],
        printed: b"made\nu1\t1\tfull\tswh:1:snp:0000000000000000000000000000000000000000\n\
u2\t1\tfailed\tcollision swh:1:cnt:00000000000000000000000000000000000000c3\n\
u3\t1\tfailed\tcollision swh:1:cnt:00000000000000000000000000000000000000c3\n\
objects 2 closed 1 visits 3\n200 2\nab\n",
        leaves: None,
    },
    // Of a listing of `a` with the letter `x` and one of `b` with the letter `w` the sum is 552.
    Case {
        name: "directories",
        setting: Setting {
            jobs: Some(&[Piece::Text(b"dir\tu1\td\ndir\tu2\tc\n")]),
            folders: &[
                ("d", &[("", List(&[("a", File)])), ("a", Bytes(b"x"))], None),
                ("c", &[("", List(&[("b", File)])), ("b", Bytes(b"w"))], None),
            ],
            ..BARE
        },
        runs: &[INIT, LOAD],
        statuses: &[0, 1],
        printed: b"made\nu1\t1\tfull\tswh:1:snp:00000000000000000000000000000000000000cb\n\
u2\t1\tfailed\tcollision swh:1:dir:0000000000000000000000000000000000000028\n",
        leaves: None,
    },
];

#[test]
fn other_bodies_than_those_held_collide(rt: HostRuntime) -> Result<(), Fail> {
    all_met_in_sums(rt.alloc(), HELD)
}
