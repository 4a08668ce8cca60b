// What each command prints, with its status: answers, and each line that tells a refusal.
use std::test::Fail;
use swh_program_fixtures::{
    ASK, BARE, CHECK, Case, INIT, LOAD, LOADED, LOADING, Piece, Setting, all_met,
};

// Words that are no command.
const WORDS: &[Case<'static>] = &[Case {
    name: "words",
    setting: BARE,
    runs: &[
        &[],
        &["init"],
        &["init", "-A"],
        &["init", "A", "B"],
        &["make", "A"],
        &["identify", "tree", "J"],
        &["ask", "A"],
    ],
    statuses: &[2; 7],
    printed: b"swharc: words\nswharc: words\nswharc: words\nswharc: words\nswharc: words\nswharc: words\n\
swharc: words\n",
    leaves: None,
}];

#[test]
fn other_words(rt: HostRuntime) -> Result<(), Fail> {
    all_met(rt.alloc(), WORDS)
}

// The names are those that git's and Software Heritage's documents print; of 64 MiB of the byte `x` it is another
// SHA-1's. The commit's is git's.
const NAMES: &[Case<'static>] = &[
    Case {
        name: "no bytes",
        setting: Setting {
            jobs: Some(&[]),
            ..BARE
        },
        runs: &[&["identify", "cnt", "J"], &["identify", "snp", "J"]],
        statuses: &[0, 0],
        printed: b"swh:1:cnt:e69de29bb2d1d6434b8b29ae775ad8c2e48c5391\n\
swh:1:snp:1a8893e6a86f444e8be8e7bda6cb34fb1735a00e\n",
        leaves: None,
    },
    Case {
        name: "a content",
        setting: Setting {
            jobs: Some(&[Piece::Text(b"version 1\n")]),
            ..BARE
        },
        runs: &[&["identify", "cnt", "J"]],
        statuses: &[0],
        printed: b"swh:1:cnt:83baae61804e65cc73a7201a7252750c76066a30\n",
        leaves: None,
    },
    Case {
        name: "a commit",
        setting: Setting {
            jobs: Some(&[Piece::Text(
                b"tree d8329fc1cc938780ffdd9f94e0d364e0ea74f579\nauthor A <a@e.org> 1000000000 +0000\n\
committer A <a@e.org> 1000000000 +0000\n\nfirst\n",
            )]),
            ..BARE
        },
        runs: &[
            &["identify", "rev", "J"],
            &["identify", "rel", "J"],
            &["identify", "snp", "J"],
        ],
        statuses: &[0, 1, 1],
        printed: b"swh:1:rev:295c0651a95ba32ac5e14f92da0161b122942cac\nswharc: bad rel 0\nswharc: bad snp 0\n",
        leaves: None,
    },
    Case {
        name: "a tag that is none",
        setting: Setting {
            jobs: Some(&[Piece::Text(b"tag\n")]),
            ..BARE
        },
        runs: &[&["identify", "rel", "J"], &["identify", "rev", "J"]],
        statuses: &[1, 1],
        printed: b"swharc: bad rel 0\nswharc: bad rev 1\n",
        leaves: None,
    },
    Case {
        name: "no file",
        setting: BARE,
        runs: &[&["identify", "cnt", "J"]],
        statuses: &[1],
        printed: b"swharc: not found\n",
        leaves: None,
    },
    Case {
        name: "a desk that fails",
        setting: Setting {
            desk_fails: Some(0),
            ..BARE
        },
        runs: &[&["identify", "cnt", "J"]],
        statuses: &[4],
        printed: b"swharc: outside source\n",
        leaves: None,
    },
    Case {
        name: "a file that breaks",
        setting: Setting {
            jobs: Some(&[Piece::Text(b"version 1\n")]),
            jobs_fail: Some(1),
            ..BARE
        },
        runs: &[&["identify", "cnt", "J"]],
        statuses: &[4],
        printed: b"swharc: outside source\n",
        leaves: None,
    },
];

#[test]
fn files_are_named(rt: HostRuntime) -> Result<(), Fail> {
    all_met(rt.alloc(), NAMES)
}

// A body has 67,108,864 bytes at most.
const LONG_FILES: &[Case<'static>] = &[
    Case {
        name: "the longest body",
        setting: Setting {
            jobs: Some(&[Piece::Fill(67_108_864)]),
            ..BARE
        },
        runs: &[&["identify", "cnt", "J"], &["identify", "rel", "J"]],
        statuses: &[0, 1],
        printed: b"swh:1:cnt:dd7655e34de553c0c754464393ddde84d8e09af5\nswharc: bad rel 0\n",
        leaves: None,
    },
    Case {
        name: "one byte more",
        setting: Setting {
            jobs: Some(&[Piece::Fill(67_108_865)]),
            ..BARE
        },
        runs: &[&["identify", "cnt", "J"], &["identify", "rev", "J"]],
        statuses: &[1, 1],
        printed: b"swharc: limit body\nswharc: limit body\n",
        leaves: None,
    },
];

#[test]
fn long_files_are_named(rt: HostRuntime) -> Result<(), Fail> {
    all_met(rt.alloc(), LONG_FILES)
}

// Each line that tells a refusal before any load.
const REFUSALS: &[Case<'static>] = &[
    Case {
        name: "made before",
        setting: BARE,
        runs: &[INIT, INIT],
        statuses: &[0, 3],
        printed: b"made\nswharc: made\n",
        leaves: None,
    },
    Case {
        name: "not made",
        setting: LOADING,
        runs: &[LOAD, ASK, CHECK],
        statuses: &[3, 3, 3],
        printed: b"swharc: not made\nswharc: not made\nswharc: not made\n",
        leaves: None,
    },
    Case {
        name: "a ledger of eight bytes",
        setting: Setting {
            ledger: Some(b"SWHARC1\n"),
            ..LOADING
        },
        runs: &[LOAD, ASK, CHECK],
        statuses: &[3, 3, 3],
        printed: b"swharc: not made\nswharc: not made\nswharc: not made\n",
        leaves: None,
    },
    Case {
        name: "no job file",
        setting: BARE,
        runs: &[INIT, LOAD],
        statuses: &[0, 2],
        printed: b"made\nswharc: no job file\n",
        leaves: None,
    },
    Case {
        name: "a depot that fails an init",
        setting: Setting {
            depot_fails: Some(0),
            ..BARE
        },
        runs: &[INIT],
        statuses: &[4],
        printed: b"swharc: outside disk\n",
        leaves: None,
    },
    Case {
        name: "one that fails an ask",
        setting: Setting {
            depot_fails: Some(1),
            ..LOADED
        },
        runs: &[ASK],
        statuses: &[4],
        printed: b"swharc: outside disk\n",
        leaves: None,
    },
    Case {
        name: "one that fails a check",
        setting: Setting {
            depot_fails: Some(0),
            ..LOADED
        },
        runs: &[CHECK],
        statuses: &[4],
        printed: b"swharc: outside disk\n",
        leaves: None,
    },
    Case {
        name: "one that fails a load",
        setting: Setting {
            depot_fails: Some(1),
            ..LOADED
        },
        runs: &[LOAD],
        statuses: &[4],
        printed: b"swharc: outside disk\n",
        leaves: None,
    },
    Case {
        name: "a desk that fails a load",
        setting: Setting {
            desk_fails: Some(0),
            ..BARE
        },
        runs: &[LOAD],
        statuses: &[4],
        printed: b"swharc: outside source\n",
        leaves: None,
    },
    Case {
        name: "a job file that breaks",
        setting: Setting {
            jobs_fail: Some(0),
            ..LOADING
        },
        runs: &[LOAD],
        statuses: &[4],
        printed: b"swharc: outside source\n",
        leaves: None,
    },
    Case {
        name: "a clock",
        setting: Setting {
            clock_fails: Some(0),
            ..LOADED
        },
        runs: &[LOAD, CHECK],
        statuses: &[4, 0],
        printed: b"swharc: outside clock\nobjects 4 closed 4 visits 1\n",
        leaves: None,
    },
    Case {
        name: "a sink",
        setting: Setting {
            sink_fails: Some(0),
            ..BARE
        },
        runs: &[INIT],
        statuses: &[4],
        printed: b"ma",
        leaves: None,
    },
];

#[test]
fn each_refusal_is_told(rt: HostRuntime) -> Result<(), Fail> {
    all_met(rt.alloc(), REFUSALS)
}
