// Job files: those that are right, up to each limit, and the first line that breaks.
use std::alloc::{AllocError, Global};
use std::test::Fail;
use swh_fixtures::MADE_LEDGER;
use swh_program_fixtures::{BARE, Case, INIT, LOAD, Piece, Setting, is_met_printing, spelled};

// A job file, the statuses of an `init` and of its load where no input is there, and what both print.
#[derive(Clone, Copy)]
struct JobFile<'a> {
    lines: &'a [Piece<'a>],
    statuses: &'a [u8],
    printed: &'a [Piece<'a>],
}

const FORM: &[Piece<'static>] = &[Piece::Text(b"made\nswharc: job line 1: form\n")];

const NOT_FOUND: &[Piece<'static>] = &[Piece::Text(b"made\nhttps://e.org/p\t1\tnot_found\t-\n")];

// 256 lines, URLs of 2,048 bytes, paths of 4,096 and heads of 1,024.
const FILES: &[JobFile<'static>] = &[
    JobFile {
        lines: &[Piece::Rows {
            count: 256,
            before: b"fast\thttps://e.org/",
            fill: 0,
            after: b"\te\n",
        }],
        statuses: &[0, 1],
        printed: &[
            Piece::Text(b"made\n"),
            Piece::Rows {
                count: 256,
                before: b"https://e.org/",
                fill: 0,
                after: b"\t1\tnot_found\t-\n",
            },
        ],
    },
    JobFile {
        lines: &[Piece::Rows {
            count: 257,
            before: b"fast\thttps://e.org/",
            fill: 0,
            after: b"\te\n",
        }],
        statuses: &[0, 2],
        printed: &[Piece::Text(b"made\nswharc: job line 257: limit\n")],
    },
    JobFile {
        lines: &[
            Piece::Text(b"fast\t"),
            Piece::Fill(2_048),
            Piece::Text(b"\te\n"),
        ],
        statuses: &[0, 1],
        printed: &[
            Piece::Text(b"made\n"),
            Piece::Fill(2_048),
            Piece::Text(b"\t1\tnot_found\t-\n"),
        ],
    },
    JobFile {
        lines: &[
            Piece::Text(b"fast\t"),
            Piece::Fill(2_049),
            Piece::Text(b"\te\n"),
        ],
        statuses: &[0, 2],
        printed: FORM,
    },
    JobFile {
        lines: &[Piece::Text(b"fast\thttps://e.org/p\t"), Piece::Fill(4_096)],
        statuses: &[0, 1],
        printed: NOT_FOUND,
    },
    JobFile {
        lines: &[Piece::Text(b"fast\thttps://e.org/p\t"), Piece::Fill(4_097)],
        statuses: &[0, 2],
        printed: FORM,
    },
    JobFile {
        lines: &[
            Piece::Text(b"fast\thttps://e.org/p\te\t"),
            Piece::Fill(1_024),
        ],
        statuses: &[0, 1],
        printed: NOT_FOUND,
    },
    JobFile {
        lines: &[
            Piece::Text(b"fast\thttps://e.org/p\te\t"),
            Piece::Fill(1_025),
        ],
        statuses: &[0, 2],
        printed: FORM,
    },
    JobFile {
        lines: &[Piece::Text(b"fast\thttps://e.org/p\te\tHEAD")],
        statuses: &[0, 2],
        printed: FORM,
    },
    JobFile {
        lines: &[Piece::Text(b"fast\te")],
        statuses: &[0, 2],
        printed: FORM,
    },
    JobFile {
        lines: &[Piece::Text(b"fast\thttps://e.org/p\te\nfast\thttps://e.org/q\n")],
        statuses: &[0, 2],
        printed: &[Piece::Text(b"made\nswharc: job line 2: form\n")],
    },
    JobFile {
        lines: &[Piece::Text(b"fast\thttps://e.org/p\te\nfast\thttps://e.org/p\tf\n")],
        statuses: &[0, 2],
        printed: &[Piece::Text(b"made\nswharc: job line 2: origin\n")],
    },
    // Paths of listings and of refs.
    JobFile {
        lines: &[
            Piece::Text(b"dir\thttps://e.org/p\tx\t"),
            Piece::Fill(4_096),
        ],
        statuses: &[0, 1],
        printed: NOT_FOUND,
    },
    JobFile {
        lines: &[
            Piece::Text(b"dir\thttps://e.org/p\tx\t"),
            Piece::Fill(4_097),
        ],
        statuses: &[0, 2],
        printed: FORM,
    },
    JobFile {
        lines: &[
            Piece::Text(b"batch\thttps://e.org/p\tx\t"),
            Piece::Fill(4_096),
        ],
        statuses: &[0, 1],
        printed: NOT_FOUND,
    },
    JobFile {
        lines: &[
            Piece::Text(b"batch\thttps://e.org/p\tx\t"),
            Piece::Fill(4_097),
        ],
        statuses: &[0, 2],
        printed: FORM,
    },
    // An origin stands once, whatever the kinds are; and the form goes before it.
    JobFile {
        lines: &[Piece::Text(b"dir\tu1\td\nbatch\tu2\tb\tr\nfast\tu1\te\n")],
        statuses: &[0, 2],
        printed: &[Piece::Text(b"made\nswharc: job line 3: origin\n")],
    },
    JobFile {
        lines: &[Piece::Text(b"dir\tu1\td\nbatch\tu1\tb\n")],
        statuses: &[0, 2],
        printed: FORM_BEHIND,
    },
];

const FORM_BEHIND: &[Piece<'static>] = &[Piece::Text(b"made\nswharc: job line 2: form\n")];

/// Second lines that are no job: no path, an empty one, an empty listing, a part too many, no refs, empty refs, a head
/// behind refs, an empty head, an empty URL, other words for a kind, and nothing.
const FORMS: &[&[u8]] = &[
    b"dir\tu2",
    b"dir\tu2\t",
    b"dir\tu2\td\t",
    b"dir\tu2\td\tm\tm",
    b"batch\tu2\tb",
    b"batch\tu2\tb\t",
    b"batch\tu2\t\tr",
    b"batch\tu2\tb\tr\trefs/heads/m",
    b"fast\tu2\te\t",
    b"dir\t\td",
    b"Dir\tu2\td",
    b"git\tu2\td",
    b"\tu2\td",
    b"",
];

// The row of a load into a new archive, without what it prints. A file that is refused leaves the archive as it was made.
fn case_of<'a>(file: &JobFile<'a>) -> Case<'a> {
    Case {
        name: "a job file",
        setting: Setting {
            jobs: Some(file.lines),
            ..BARE
        },
        runs: &[INIT, LOAD],
        statuses: file.statuses,
        printed: b"",
        leaves: if file.statuses == [0, 2].as_slice() {
            Some((MADE_LEDGER, b""))
        } else {
            None
        },
    }
}

fn ends_so(alloc: Global, file: &JobFile<'_>) -> Result<bool, AllocError> {
    let printed = spelled(alloc, file.printed)?;
    is_met_printing(alloc, &case_of(file), &printed)
}

#[test]
fn each_job_file(rt: HostRuntime) -> Result<(), Fail> {
    for (number, file) in FILES.iter().enumerate() {
        if !ends_so(rt.alloc(), file)? {
            return Err(Fail::new(number));
        }
    }
    Ok(())
}

fn is_no_job(alloc: Global, line: &[u8]) -> Result<bool, AllocError> {
    let file = JobFile {
        lines: &[
            Piece::Text(b"dir\tu1\td\n"),
            Piece::Text(line),
            Piece::Text(b"\n"),
        ],
        statuses: &[0, 2],
        printed: FORM_BEHIND,
    };
    ends_so(alloc, &file)
}

#[test]
fn lines_of_no_job(rt: HostRuntime) -> Result<(), Fail> {
    for (number, line) in FORMS.iter().enumerate() {
        if !is_no_job(rt.alloc(), line)? {
            return Err(Fail::new(number));
        }
    }
    Ok(())
}
