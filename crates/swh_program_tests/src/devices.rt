// Each device call of a run fails in turn, and a run after it finds what was acknowledged.
use std::alloc::Global;
use std::test::Fail;
use swh_fixtures::MADE_LEDGER;
use swh_program_fixtures::{
    BARE, CHECK, Case, INIT, LOAD, LOADED, LOADING, Setting, TWO_JOBS, is_met,
};

// A file of an archive.
#[derive(Clone, Copy, PartialEq, Eq)]
enum File {
    Ledger,
    Store,
}

// Two runs: a call of the first on a file fails, of these numbers from 0, and this is what both print.
#[derive(Clone, Copy)]
struct Stops<'a> {
    name: &'a str,
    setting: Setting<'a>,
    runs: &'a [&'a [&'a str]],
    file: File,
    from: u64,
    until: u64,
    statuses: &'a [u8],
    printed: &'a [u8],
}

// The row of one failing call.
fn case_of<'a>(stops: &Stops<'a>, call: u64) -> Case<'a> {
    let setting = match stops.file {
        File::Ledger => Setting {
            ledger_fails: Some(call),
            ..stops.setting
        },
        File::Store => Setting {
            store_fails: Some(call),
            ..stops.setting
        },
    };
    Case {
        name: stops.name,
        setting,
        runs: stops.runs,
        statuses: stops.statuses,
        printed: stops.printed,
        leaves: None,
    }
}

fn all_stop(alloc: Global, rows: &[Stops<'_>]) -> Result<(), Fail> {
    for stops in rows {
        for call in stops.from..stops.until {
            if !is_met(alloc, &case_of(stops, call))? {
                return Err(Fail::new(format_args!("{} {call}", stops.name)));
            }
        }
    }
    Ok(())
}

// The ledger's length and first byte are read; then come its barrier, and a write and a barrier each for the clearing, the
// end of the magic and the first byte.
const OF_INIT: &[Stops<'static>] = &[
    Stops {
        name: "the ledger of an init",
        setting: Setting {
            ledger: Some(b""),
            ..BARE
        },
        runs: &[INIT, INIT],
        file: File::Ledger,
        from: 0,
        until: 8,
        statuses: &[4, 0],
        printed: b"swharc: outside disk\nmade\n",
    },
    Stops {
        name: "the last barrier of an init",
        setting: Setting {
            ledger: Some(b""),
            ..BARE
        },
        runs: &[INIT, INIT],
        file: File::Ledger,
        from: 8,
        until: 9,
        statuses: &[4, 3],
        printed: b"swharc: outside disk\nswharc: made\n",
    },
    Stops {
        name: "the store of an init",
        setting: Setting {
            ledger: Some(b""),
            ..BARE
        },
        runs: &[INIT, INIT],
        file: File::Store,
        from: 0,
        until: 1,
        statuses: &[4, 0],
        printed: b"swharc: outside disk\nmade\n",
    },
];

#[test]
fn of_init(rt: HostRuntime) -> Result<(), Fail> {
    all_stop(rt.alloc(), OF_INIT)
}

// Opening makes a barrier on the store, asks for its length and reads its run, which is read once more for the check; the
// ledger has a barrier, and twice its length is asked for and bytes of it are read.
const OF_CHECK: &[Stops<'static>] = &[
    Stops {
        name: "the ledger of a check",
        setting: LOADED,
        runs: &[CHECK, CHECK],
        file: File::Ledger,
        from: 0,
        until: 5,
        statuses: &[4, 0],
        printed: b"swharc: outside disk\nobjects 4 closed 4 visits 1\n",
    },
    Stops {
        name: "the store of a check",
        setting: LOADED,
        runs: &[CHECK, CHECK],
        file: File::Store,
        from: 0,
        until: 4,
        statuses: &[4, 0],
        printed: b"swharc: outside disk\nobjects 4 closed 4 visits 1\n",
    },
];

#[test]
fn of_check(rt: HostRuntime) -> Result<(), Fail> {
    all_stop(rt.alloc(), OF_CHECK)
}

// After the opening each of four events writes its record and its gate, with a barrier after each; the batch writes its
// run before, and a barrier. Of an empty store the length alone is asked for. A job after the one that is stopped is not
// begun.
const OF_LOAD: &[Stops<'static>] = &[
    Stops {
        name: "the ledger while a load opens",
        setting: Setting {
            ledger: Some(MADE_LEDGER),
            jobs: Some(TWO_JOBS),
            ..LOADING
        },
        runs: &[LOAD, CHECK],
        file: File::Ledger,
        from: 0,
        until: 5,
        statuses: &[4, 0],
        printed: b"swharc: outside disk\nobjects 0 closed 0 visits 0\n",
    },
    Stops {
        name: "the store while a load opens",
        setting: Setting {
            ledger: Some(MADE_LEDGER),
            jobs: Some(TWO_JOBS),
            ..LOADING
        },
        runs: &[LOAD, CHECK],
        file: File::Store,
        from: 0,
        until: 2,
        statuses: &[4, 0],
        printed: b"swharc: outside disk\nobjects 0 closed 0 visits 0\n",
    },
    Stops {
        name: "a visit's opening, up to its gate",
        setting: Setting {
            ledger: Some(MADE_LEDGER),
            jobs: Some(TWO_JOBS),
            ..LOADING
        },
        runs: &[LOAD, CHECK],
        file: File::Ledger,
        from: 5,
        until: 8,
        statuses: &[4, 0],
        printed: b"https://e.org/p\t0\tstopped\tdisk\nhttps://e.org/a\t0\tstopped\twounded\n\
swharc: outside disk\nobjects 0 closed 0 visits 0\n",
    },
    Stops {
        name: "a visit's opening, at its last barrier",
        setting: Setting {
            ledger: Some(MADE_LEDGER),
            jobs: Some(TWO_JOBS),
            ..LOADING
        },
        runs: &[LOAD, CHECK],
        file: File::Ledger,
        from: 8,
        until: 9,
        statuses: &[4, 0],
        printed: b"https://e.org/p\t0\tstopped\tdisk\nhttps://e.org/a\t0\tstopped\twounded\n\
swharc: outside disk\nobjects 0 closed 0 visits 1\n",
    },
    Stops {
        name: "its first mark, and a batch up to its gate",
        setting: Setting {
            ledger: Some(MADE_LEDGER),
            jobs: Some(TWO_JOBS),
            ..LOADING
        },
        runs: &[LOAD, CHECK],
        file: File::Ledger,
        from: 9,
        until: 16,
        statuses: &[4, 0],
        printed: b"https://e.org/p\t1\tstopped\tdisk\nhttps://e.org/a\t0\tstopped\twounded\n\
swharc: outside disk\nobjects 0 closed 0 visits 1\n",
    },
    Stops {
        name: "a batch's run",
        setting: Setting {
            ledger: Some(MADE_LEDGER),
            jobs: Some(TWO_JOBS),
            ..LOADING
        },
        runs: &[LOAD, CHECK],
        file: File::Store,
        from: 2,
        until: 4,
        statuses: &[4, 0],
        printed: b"https://e.org/p\t1\tstopped\tdisk\nhttps://e.org/a\t0\tstopped\twounded\n\
swharc: outside disk\nobjects 0 closed 0 visits 1\n",
    },
    Stops {
        name: "a batch at its last barrier, and the last mark up to its gate",
        setting: Setting {
            ledger: Some(MADE_LEDGER),
            jobs: Some(TWO_JOBS),
            ..LOADING
        },
        runs: &[LOAD, CHECK],
        file: File::Ledger,
        from: 16,
        until: 20,
        statuses: &[4, 0],
        printed: b"https://e.org/p\t1\tstopped\tdisk\nhttps://e.org/a\t0\tstopped\twounded\n\
swharc: outside disk\nobjects 4 closed 0 visits 1\n",
    },
    Stops {
        name: "the last mark, at its last barrier",
        setting: Setting {
            ledger: Some(MADE_LEDGER),
            jobs: Some(TWO_JOBS),
            ..LOADING
        },
        runs: &[LOAD, CHECK],
        file: File::Ledger,
        from: 20,
        until: 21,
        statuses: &[4, 0],
        printed: b"https://e.org/p\t1\tstopped\tdisk\nhttps://e.org/a\t0\tstopped\twounded\n\
swharc: outside disk\nobjects 4 closed 4 visits 1\n",
    },
];

#[test]
fn of_load(rt: HostRuntime) -> Result<(), Fail> {
    all_stop(rt.alloc(), OF_LOAD)
}
