// Files without an end in sight, which are read no further than one byte above what a body may have, and folders of many files.
// Inputs of as many bytes as one may have, and of one more, are loaded by `bench/limits.py`. The ids are those of another SHA-1.
use crate::repeated::{LongFile, LongFolder, LongOrigins};
use std::alloc::{AllocError, Global};
use std::test::Fail;
use swh_base::Sha1Namer;
use swh_memory::{MemoryClock, MemoryDoors, MemorySink, MemoryYard};
use swh_outside::OpenGate;
use swh_program::{Outside, run};
use swh_program_fixtures::{CHECK, INIT, LOAD, Piece, PlainDepot};

type World<'a> = Outside<
    Sha1Namer,
    PlainDepot,
    LongOrigins<'a>,
    MemoryYard,
    MemorySink,
    MemoryClock,
    MemoryDoors,
    OpenGate,
>;

fn world_of<'a>(
    alloc: Global,
    files: &'a [LongFile<'a>],
    folders: &'a [LongFolder<'a>],
) -> Result<World<'a>, AllocError> {
    Ok(Outside {
        namer: Sha1Namer,
        depot: PlainDepot::new(alloc, None),
        desk: LongOrigins {
            alloc,
            files,
            folders,
        },
        origins: LongOrigins {
            alloc,
            files,
            folders,
        },
        yard: MemoryYard::with_room(alloc, 0, Vec::new(alloc))?,
        sink: MemorySink::new(alloc, 1_024, Vec::new(alloc))?,
        clock: MemoryClock::new(1_000_000_000, Vec::new(alloc)),
        doors: MemoryDoors::new(alloc),
        gate: OpenGate,
    })
}

fn runs<'a>(alloc: Global, world: &mut World<'a>, words: &[&str]) -> Result<u8, AllocError> {
    let mut owned = Vec::new(alloc);
    for word in words {
        owned.push(String::from_str(alloc, word)?)?;
    }
    Ok(run(&(), alloc, &owned, world))
}

// Files and folders, runs over them, the statuses of these, and all that they print.
#[derive(Clone, Copy)]
struct Long<'a> {
    files: &'a [LongFile<'a>],
    folders: &'a [LongFolder<'a>],
    runs: &'a [&'a [&'a str]],
    statuses: &'a [u8],
    printed: &'a [u8],
}

fn ends_so(alloc: Global, row: &Long<'_>) -> Result<bool, AllocError> {
    let mut world = world_of(alloc, row.files, row.folders)?;
    for (words, status) in row.runs.iter().zip(row.statuses) {
        if runs(alloc, &mut world, words)? != *status {
            return Ok(false);
        }
    }
    Ok(row.runs.len() == row.statuses.len() && world.sink.bytes() == row.printed)
}

// A folder `d`, in which each file has a tebibyte.
const ENDLESS: LongFolder<'static> = LongFolder {
    path: "d",
    count: 1,
    text: &[Piece::Fill(1_048_576)],
    times: 1_048_576,
};

const DIRECTORY_JOB: LongFile<'static> = LongFile {
    path: "J",
    text: &[],
    times: 0,
    end: &[Piece::Text(b"dir\tu\td\n")],
};

const ROWS: &[Long<'static>] = &[
    Long {
        files: &[LongFile {
            path: "f",
            text: &[Piece::Fill(1_048_576)],
            times: 1_048_576,
            end: &[],
        }],
        folders: &[],
        runs: &[&["identify", "cnt", "f"]],
        statuses: &[1],
        printed: b"swharc: limit body\n",
    },
    Long {
        files: &[DIRECTORY_JOB],
        folders: &[ENDLESS],
        runs: &[&["identify", "dir", "d"], INIT, LOAD],
        statuses: &[1, 0, 1],
        printed: b"swharc: limit body\nmade\nu\t1\tfailed\tlimit body\n",
    },
    // 70,000 empty files.
    Long {
        files: &[DIRECTORY_JOB],
        folders: &[LongFolder {
            path: "d",
            count: 70_000,
            text: &[],
            times: 0,
        }],
        runs: &[&["identify", "dir", "d"], INIT, LOAD, CHECK],
        statuses: &[0; 4],
        printed: b"swh:1:dir:cfe8a0c691acef2deef7c1bf2624e8376b0315da\nmade\n\
u\t1\tfull\tswh:1:snp:dc9d12bf23185b419e1798e9fecc37e6a0191260\nobjects 3 closed 3 visits 1\n",
    },
];

#[test]
fn files_without_an_end_and_many_files(rt: HostRuntime) -> Result<(), Fail> {
    for (number, row) in ROWS.iter().enumerate() {
        if !ends_so(rt.alloc(), row)? {
            return Err(Fail::new(number));
        }
    }
    Ok(())
}
