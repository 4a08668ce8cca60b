// What `identify dir` prints of folders, and each line that tells a refusal. The names of the first two are those that
// git's documents print, and the third is that of another SHA-1.
use Laid::{Broken, Bytes, Fill, List, LongName};
use What::{File, Folder, Other};
use std::test::Fail;
use swh_outside::What;
use swh_program_fixtures::{BARE, Case, Laid, Layout, Setting, all_met};

const NAME: &[&str] = &["identify", "dir", "D"];

/// A folder of one file.
const ONE: Layout<'static> = &[
    ("", List(&[("test.txt", File)])),
    ("test.txt", Bytes(b"version 1\n")),
];

const NAMES: &[Case<'static>] = &[
    Case {
        name: "one file",
        setting: Setting {
            folder: Some(ONE),
            ..BARE
        },
        runs: &[NAME],
        statuses: &[0],
        printed: b"swh:1:dir:d8329fc1cc938780ffdd9f94e0d364e0ea74f579\n",
        leaves: None,
    },
    Case {
        name: "an empty folder",
        setting: Setting {
            folder: Some(&[("", List(&[]))]),
            ..BARE
        },
        runs: &[NAME],
        statuses: &[0],
        printed: b"swh:1:dir:4b825dc642cb6eb9a060e54bf8d69288fbee4904\n",
        leaves: None,
    },
    Case {
        name: "folders in a folder",
        setting: Setting {
            folder: Some(&[
                (
                    "",
                    List(&[("none", Folder), ("a0", File), ("a", Folder), ("a.b", File)]),
                ),
                ("none", List(&[])),
                ("a0", Bytes(b"version 1\n")),
                ("a", List(&[("test.txt", File)])),
                ("a/test.txt", Bytes(b"version 1\n")),
                ("a.b", Bytes(b"")),
            ]),
            ..BARE
        },
        runs: &[NAME],
        statuses: &[0],
        printed: b"swh:1:dir:238cb2c3a407d7e4e70ede41dcafd303a6eada92\n",
        leaves: None,
    },
];

#[test]
fn folders_are_named(rt: HostRuntime) -> Result<(), Fail> {
    all_met(rt.alloc(), NAMES)
}

const BAD: &[Case<'static>] = &[
    Case {
        name: "no folder",
        setting: BARE,
        runs: &[NAME],
        statuses: &[1],
        printed: b"swharc: not found\n",
        leaves: None,
    },
    Case {
        name: "neither a file nor a folder",
        setting: Setting {
            folder: Some(&[
                ("", List(&[("sub", Folder), ("test.txt", File)])),
                ("sub", List(&[("50% off", Other)])),
                ("test.txt", Bytes(b"version 1\n")),
            ]),
            ..BARE
        },
        runs: &[NAME],
        statuses: &[1],
        printed: b"swharc: other sub/50%25%20off\n",
        leaves: None,
    },
    Case {
        name: "a path of 65,536 bytes",
        setting: Setting {
            folder: Some(&[("", LongName(65_536))]),
            ..BARE
        },
        runs: &[NAME],
        statuses: &[1],
        printed: b"swharc: limit path\n",
        leaves: None,
    },
    Case {
        name: "a file of 67,108,865 bytes",
        setting: Setting {
            folder: Some(&[
                ("", List(&[("test.txt", File)])),
                ("test.txt", Fill(67_108_865)),
            ]),
            ..BARE
        },
        runs: &[NAME],
        statuses: &[1],
        printed: b"swharc: limit body\n",
        leaves: None,
    },
];

#[test]
fn folders_that_break_are_told(rt: HostRuntime) -> Result<(), Fail> {
    all_met(rt.alloc(), BAD)
}

const FAULTS: &[Case<'static>] = &[
    Case {
        name: "an opening",
        setting: Setting {
            desk_fails: Some(0),
            folder: Some(ONE),
            ..BARE
        },
        runs: &[NAME],
        statuses: &[4],
        printed: b"swharc: outside folder\n",
        leaves: None,
    },
    Case {
        name: "the list",
        setting: Setting {
            folder: Some(ONE),
            folder_fails: Some(0),
            ..BARE
        },
        runs: &[NAME],
        statuses: &[4],
        printed: b"swharc: outside folder\n",
        leaves: None,
    },
    Case {
        name: "the file's opening",
        setting: Setting {
            folder: Some(ONE),
            folder_fails: Some(1),
            ..BARE
        },
        runs: &[NAME],
        statuses: &[4],
        printed: b"swharc: outside folder\n",
        leaves: None,
    },
    Case {
        name: "the file",
        setting: Setting {
            folder: Some(&[("", List(&[("test.txt", File)])), ("test.txt", Broken)]),
            ..BARE
        },
        runs: &[NAME],
        statuses: &[4],
        printed: b"swharc: outside folder\n",
        leaves: None,
    },
    Case {
        name: "no call",
        setting: Setting {
            folder: Some(ONE),
            folder_fails: Some(2),
            ..BARE
        },
        runs: &[NAME],
        statuses: &[0],
        printed: b"swh:1:dir:d8329fc1cc938780ffdd9f94e0d364e0ea74f579\n",
        leaves: None,
    },
];

#[test]
fn each_call_of_a_folder_may_fail(rt: HostRuntime) -> Result<(), Fail> {
    all_met(rt.alloc(), FAULTS)
}
