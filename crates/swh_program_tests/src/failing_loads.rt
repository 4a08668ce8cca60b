// Parts of inputs that do not open, or fail at a call: their jobs are told as failed by `read`, the others are loaded.
use crate::worked_loads::{MODES, OBJECTS, PARTS, REFS, TWO};
use Laid::{Broken, Bytes, List};
use What::File;
use std::alloc::Global;
use std::test::Fail;
use swh_outside::What;
use swh_program_fixtures::{Case, INIT, LOAD, LOADING, Laid, Piece, Setting, all_met, is_met};

/// Two jobs: a folder with its listing, and a batch with its refs.
const TWO_INPUTS: Setting<'static> = Setting {
    jobs: Some(&[Piece::Text(b"dir\thttps://e.org/d\td\tm\nbatch\thttps://e.org/b\tb\tr\n")]),
    ..PARTS
};

const BOTH_FULL: &[u8] = b"made\n\
https://e.org/d\t1\tfull\tswh:1:snp:064732ac2b71aac3a64f68cba08fdbcfe3c6e935\n\
https://e.org/b\t1\tfull\tswh:1:snp:5036c2b4a676f9dad60fbaed431ca21ecdec56ff\n";

const FOLDER_READ: &[u8] = b"made\nhttps://e.org/d\t1\tfailed\tread\n\
https://e.org/b\t1\tfull\tswh:1:snp:5036c2b4a676f9dad60fbaed431ca21ecdec56ff\n";

const BATCH_READ: &[u8] = b"made\n\
https://e.org/d\t1\tfull\tswh:1:snp:064732ac2b71aac3a64f68cba08fdbcfe3c6e935\n\
https://e.org/b\t1\tfailed\tread\n";

const FAILING: &[Case<'static>] = &[
    Case {
        name: "a folder that does not open",
        setting: Setting {
            origins_fail: Some(0),
            ..TWO_INPUTS
        },
        runs: &[INIT, LOAD],
        statuses: &[0, 1],
        printed: FOLDER_READ,
        leaves: None,
    },
    Case {
        name: "a listing that does not open",
        setting: Setting {
            origins_fail: Some(1),
            ..TWO_INPUTS
        },
        runs: &[INIT, LOAD],
        statuses: &[0, 1],
        printed: FOLDER_READ,
        leaves: None,
    },
    Case {
        name: "a batch that does not open",
        setting: Setting {
            origins_fail: Some(2),
            ..TWO_INPUTS
        },
        runs: &[INIT, LOAD],
        statuses: &[0, 1],
        printed: BATCH_READ,
        leaves: None,
    },
    Case {
        name: "refs that do not open",
        setting: Setting {
            origins_fail: Some(3),
            ..TWO_INPUTS
        },
        runs: &[INIT, LOAD],
        statuses: &[0, 1],
        printed: BATCH_READ,
        leaves: None,
    },
    // There is no fifth opening.
    Case {
        name: "no opening that fails",
        setting: Setting {
            origins_fail: Some(4),
            ..TWO_INPUTS
        },
        runs: &[INIT, LOAD],
        statuses: &[0, 0],
        printed: BOTH_FULL,
        leaves: None,
    },
    // A folder is listed, and each of its two files opened.
    Case {
        name: "a folder that is not listed",
        setting: Setting {
            folders: &[("d", TWO, Some(0))],
            ..TWO_INPUTS
        },
        runs: &[INIT, LOAD],
        statuses: &[0, 1],
        printed: FOLDER_READ,
        leaves: None,
    },
    Case {
        name: "a first file that does not open",
        setting: Setting {
            folders: &[("d", TWO, Some(1))],
            ..TWO_INPUTS
        },
        runs: &[INIT, LOAD],
        statuses: &[0, 1],
        printed: FOLDER_READ,
        leaves: None,
    },
    Case {
        name: "a second file that does not open",
        setting: Setting {
            folders: &[("d", TWO, Some(2))],
            ..TWO_INPUTS
        },
        runs: &[INIT, LOAD],
        statuses: &[0, 1],
        printed: FOLDER_READ,
        leaves: None,
    },
    Case {
        name: "no call of a folder that fails",
        setting: Setting {
            folders: &[("d", TWO, Some(3))],
            ..TWO_INPUTS
        },
        runs: &[INIT, LOAD],
        statuses: &[0, 0],
        printed: BOTH_FULL,
        leaves: None,
    },
    Case {
        name: "a file that breaks",
        setting: Setting {
            folders: &[(
                "d",
                &[
                    ("", List(&[("run", File), ("ln", File)])),
                    ("run", Broken),
                    ("ln", Bytes(b"run")),
                ],
                None,
            )],
            ..TWO_INPUTS
        },
        runs: &[INIT, LOAD],
        statuses: &[0, 1],
        printed: FOLDER_READ,
        leaves: None,
    },
    Case {
        name: "a list in which a name stands twice",
        setting: Setting {
            folders: &[(
                "d",
                &[
                    ("", List(&[("run", File), ("ln", File), ("run", File)])),
                    ("run", Bytes(b"hi\n")),
                    ("ln", Bytes(b"run")),
                ],
                None,
            )],
            ..TWO_INPUTS
        },
        runs: &[INIT, LOAD],
        statuses: &[0, 1],
        printed: FOLDER_READ,
        leaves: None,
    },
];

#[test]
fn parts_that_fail(rt: HostRuntime) -> Result<(), Fail> {
    all_met(rt.alloc(), FAILING)
}

// A load of which a call on the input at `e` fails, of these numbers from 0, and what is printed.
#[derive(Clone, Copy)]
struct Breaks<'a> {
    name: &'a str,
    setting: Setting<'a>,
    from: u64,
    until: u64,
    statuses: &'a [u8],
    printed: &'a [u8],
}

// The row of one failing call.
fn case_of<'a>(breaks: &Breaks<'a>, call: u64) -> Case<'a> {
    Case {
        name: breaks.name,
        setting: Setting {
            input_fails: Some(call),
            ..breaks.setting
        },
        runs: &[INIT, LOAD],
        statuses: breaks.statuses,
        printed: breaks.printed,
        leaves: None,
    }
}

fn all_break(alloc: Global, rows: &[Breaks<'_>]) -> Result<(), Fail> {
    for breaks in rows {
        for call in breaks.from..breaks.until {
            if !is_met(alloc, &case_of(breaks, call))? {
                return Err(Fail::new(format_args!("{} {call}", breaks.name)));
            }
        }
    }
    Ok(())
}

const LISTING: Setting<'static> = Setting {
    jobs: Some(&[Piece::Text(b"dir\thttps://e.org/d\td\te\nbatch\thttps://e.org/b\tb\tr\n")]),
    input: Some(MODES),
    ..PARTS
};

const BATCH: Setting<'static> = Setting {
    jobs: Some(&[Piece::Text(b"dir\thttps://e.org/d\td\tm\nbatch\thttps://e.org/b\te\tr\n")]),
    input: Some(OBJECTS),
    ..PARTS
};

const REFS_OF_BATCH: Setting<'static> = Setting {
    jobs: Some(&[Piece::Text(b"dir\thttps://e.org/d\td\tm\nbatch\thttps://e.org/b\tb\te\n")]),
    input: Some(REFS),
    ..PARTS
};

// A source gives seven bytes at a call, and then that nothing is left: the listing has 20 bytes, the batch 327, its refs 57,
// and the stream 138. The call behind these is none, and fails in vain.
const BREAKS: &[Breaks<'static>] = &[
    Breaks {
        name: "a listing",
        setting: LISTING,
        from: 0,
        until: 4,
        statuses: &[0, 1],
        printed: FOLDER_READ,
    },
    Breaks {
        name: "behind a listing",
        setting: LISTING,
        from: 4,
        until: 5,
        statuses: &[0, 0],
        printed: BOTH_FULL,
    },
    Breaks {
        name: "a batch",
        setting: BATCH,
        from: 0,
        until: 48,
        statuses: &[0, 1],
        printed: BATCH_READ,
    },
    Breaks {
        name: "behind a batch",
        setting: BATCH,
        from: 48,
        until: 49,
        statuses: &[0, 0],
        printed: BOTH_FULL,
    },
    Breaks {
        name: "refs",
        setting: REFS_OF_BATCH,
        from: 0,
        until: 10,
        statuses: &[0, 1],
        printed: BATCH_READ,
    },
    Breaks {
        name: "behind refs",
        setting: REFS_OF_BATCH,
        from: 10,
        until: 11,
        statuses: &[0, 0],
        printed: BOTH_FULL,
    },
    Breaks {
        name: "a stream",
        setting: LOADING,
        from: 0,
        until: 21,
        statuses: &[0, 1],
        printed: b"made\nhttps://e.org/p\t1\tfailed\tread\n",
    },
    Breaks {
        name: "behind a stream",
        setting: LOADING,
        from: 21,
        until: 22,
        statuses: &[0, 0],
        printed: b"made\nhttps://e.org/p\t1\tfull\tswh:1:snp:5036c2b4a676f9dad60fbaed431ca21ecdec56ff\n",
    },
];

#[test]
fn each_call_of_a_part_fails(rt: HostRuntime) -> Result<(), Fail> {
    all_break(rt.alloc(), BREAKS)
}
