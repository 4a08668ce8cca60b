// Loads of one job and of several: their lines, and what is left.
use std::test::Fail;
use swh_fixtures::MADE_LEDGER;
use swh_program_fixtures::{
    ASK, BARE, CHECK, Case, INIT, LEDGER, LOAD, LOADED, LOADING, Piece, STORE, Setting, TWO_JOBS,
    all_met,
};

// A path that is none.
const ASK_NOTHING: &[&str] = &["ask", "A", "/"];

const LOADS: &[Case<'static>] = &[
    Case {
        name: "the files of a load",
        setting: LOADING,
        runs: &[INIT, LOAD],
        statuses: &[0, 0],
        printed: b"made\nhttps://e.org/p\t1\tfull\tswh:1:snp:5036c2b4a676f9dad60fbaed431ca21ecdec56ff\n",
        leaves: Some((LEDGER, STORE)),
    },
    // What asks and checks writes nothing.
    Case {
        name: "no write",
        setting: LOADED,
        runs: &[ASK_NOTHING, CHECK],
        statuses: &[1, 0],
        printed: b"404 21\n{\"error\":\"not found\"}\nobjects 4 closed 4 visits 1\n",
        leaves: Some((LEDGER, STORE)),
    },
    // What is held is counted, and a second load of an origin stores nothing again.
    Case {
        name: "two loads of an origin",
        setting: LOADING,
        runs: &[INIT, CHECK, LOAD, CHECK, LOAD, CHECK],
        statuses: &[0; 6],
        printed: b"made\nobjects 0 closed 0 visits 0\n\
https://e.org/p\t1\tfull\tswh:1:snp:5036c2b4a676f9dad60fbaed431ca21ecdec56ff\nobjects 4 closed 4 visits 1\n\
https://e.org/p\t2\tfull\tswh:1:snp:5036c2b4a676f9dad60fbaed431ca21ecdec56ff\nobjects 4 closed 4 visits 2\n",
        leaves: None,
    },
    // The visits of an origin, the last first.
    Case {
        name: "visits",
        setting: LOADED,
        runs: &[
            ASK,
            LOAD,
            &["ask", "A", "/", "/api/1/origin/https://e.org/p/visits/"],
        ],
        statuses: &[0, 0, 1],
        printed: b"200 142\n\
[{\"date\":1000000000,\"origin\":\"https://e.org/p\",\"snapshot\":\"5036c2b4a676f9dad60fbaed431ca21ecdec56ff\",\
\"status\":\"full\",\"type\":\"fast\",\"visit\":1}]\n\
https://e.org/p\t2\tfull\tswh:1:snp:5036c2b4a676f9dad60fbaed431ca21ecdec56ff\n\
404 21\n{\"error\":\"not found\"}\n200 283\n\
[{\"date\":1000000000,\"origin\":\"https://e.org/p\",\"snapshot\":\"5036c2b4a676f9dad60fbaed431ca21ecdec56ff\",\
\"status\":\"full\",\"type\":\"fast\",\"visit\":2},\
{\"date\":1000000000,\"origin\":\"https://e.org/p\",\"snapshot\":\"5036c2b4a676f9dad60fbaed431ca21ecdec56ff\",\
\"status\":\"full\",\"type\":\"fast\",\"visit\":1}]\n",
        leaves: None,
    },
    // An origin that was never opened.
    Case {
        name: "an origin that is none",
        setting: LOADED,
        runs: &[&["ask", "A", "/api/1/origin/https://none.example/visits/"]],
        statuses: &[1],
        printed: b"404 21\n{\"error\":\"not found\"}\n",
        leaves: None,
    },
    // A job that names a head.
    Case {
        name: "a head",
        setting: Setting {
            jobs: Some(&[Piece::Text(b"fast\thttps://e.org/p\te\trefs/heads/main")]),
            ..LOADING
        },
        runs: &[INIT, LOAD],
        statuses: &[0, 0],
        printed: b"made\nhttps://e.org/p\t1\tfull\tswh:1:snp:6a27147bf068e96885531e22302944aa7bf4c5c8\n",
        leaves: None,
    },
    // No job, and then two in their order, of the second of which nothing is there.
    Case {
        name: "no job",
        setting: Setting {
            jobs: Some(&[]),
            ..LOADING
        },
        runs: &[INIT, LOAD],
        statuses: &[0, 0],
        printed: b"made\n",
        leaves: None,
    },
    Case {
        name: "two jobs",
        setting: Setting {
            jobs: Some(TWO_JOBS),
            ..LOADING
        },
        runs: &[INIT, LOAD],
        statuses: &[0, 1],
        printed: b"made\nhttps://e.org/p\t1\tfull\tswh:1:snp:5036c2b4a676f9dad60fbaed431ca21ecdec56ff\n\
https://e.org/a\t1\tnot_found\t-\n",
        leaves: None,
    },
    // An input that does not open, or breaks while it is read, at its first and at a later call.
    Case {
        name: "an input that does not open",
        setting: Setting {
            input: None,
            origins_fail: Some(0),
            ..LOADING
        },
        runs: &[INIT, LOAD],
        statuses: &[0, 1],
        printed: b"made\nhttps://e.org/p\t1\tfailed\tread\n",
        leaves: None,
    },
    Case {
        name: "an input that breaks at once",
        setting: Setting {
            input_fails: Some(0),
            ..LOADING
        },
        runs: &[INIT, LOAD],
        statuses: &[0, 1],
        printed: b"made\nhttps://e.org/p\t1\tfailed\tread\n",
        leaves: None,
    },
    Case {
        name: "an input that breaks later",
        setting: Setting {
            input_fails: Some(1),
            ..LOADING
        },
        runs: &[INIT, LOAD, LOAD],
        statuses: &[0, 1, 1],
        printed: b"made\nhttps://e.org/p\t1\tfailed\tread\nhttps://e.org/p\t2\tfailed\tread\n",
        leaves: None,
    },
    Case {
        name: "a sink that fails",
        setting: Setting {
            sink_fails: Some(1),
            ..LOADING
        },
        runs: &[INIT, LOAD],
        statuses: &[0, 4],
        printed: b"made\nhttps://e.org/p\t1\tfull\tswh:1:snp:5036",
        leaves: Some((LEDGER, STORE)),
    },
    // The job file comes before the archive, and the archive before the clock.
    Case {
        name: "no job file and no archive",
        setting: BARE,
        runs: &[LOAD],
        statuses: &[2],
        printed: b"swharc: no job file\n",
        leaves: None,
    },
    Case {
        name: "a line that is no job, and no archive",
        setting: Setting {
            jobs: Some(&[Piece::Text(b"x\n")]),
            ..BARE
        },
        runs: &[LOAD],
        statuses: &[2],
        printed: b"swharc: job line 1: form\n",
        leaves: None,
    },
    Case {
        name: "no archive, and a clock that would fail",
        setting: Setting {
            clock_fails: Some(0),
            ..LOADING
        },
        runs: &[LOAD],
        statuses: &[3],
        printed: b"swharc: not made\n",
        leaves: None,
    },
    // The clock is asked once for each job, and all inputs are opened, before the first job is loaded.
    Case {
        name: "a clock that fails at the second job",
        setting: Setting {
            jobs: Some(TWO_JOBS),
            clock_fails: Some(1),
            ..LOADING
        },
        runs: &[INIT, LOAD],
        statuses: &[0, 4],
        printed: b"made\nswharc: outside clock\n",
        leaves: Some((MADE_LEDGER, b"")),
    },
];

#[test]
fn each_load_is_told(rt: HostRuntime) -> Result<(), Fail> {
    all_met(rt.alloc(), LOADS)
}
