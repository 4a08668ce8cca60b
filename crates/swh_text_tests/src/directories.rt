// Directories: their entries, and where and why the first breaks.
use crate::worked_bodies::DIRECTORY;
use std::alloc::Global;
use std::test::Fail;
use swh_dirfmt::{BadDir, DirEntry, DirWhy, ReadDirFault, read_dir, spelled_dir};

// Modes and names of git's directory.
static ENTRIES: [(u32, &[u8]); 6] = [
    (100_644, b"a.b"),
    (40_000, b"a"),
    (100_755, b"a0"),
    (120_000, b"caf\xc3\xa9"),
    (160_000, b"lib"),
    (100_644, b"\xff\xfe"),
];

fn is_entry(entry: &DirEntry, mode: u32, name: &[u8]) -> bool {
    entry.mode == mode && entry.name.as_slice() == name
}

#[test]
fn entries_of_git(rt: HostRuntime) -> Result<(), Fail> {
    let directory = read_dir(rt.alloc(), DIRECTORY)?;
    let entries = directory.list();
    assert!(rt; entries.len() == ENTRIES.len());
    for (entry, (mode, name)) in entries.iter().zip(&ENTRIES) {
        assert!(rt; is_entry(entry, *mode, name));
    }
    Ok(())
}

// Names may be `.` or `..`, hold spaces, LFs and backslashes, and begin one another; an id may hold NULs. A file `a.b`, a
// folder `a` and a file `a0` stand in this order, since a folder sorts as if it ended in a slash.
static GOOD: [(&[u8], usize); 5] = [
    (
        b"100644 .\0aaaaaaaaaaaaaaaaaaaa40000 ..\0bbbbbbbbbbbbbbbbbbbb",
        2,
    ),
    (
        b"100644 \n\0aaaaaaaaaaaaaaaaaaaa100644  \0bbbbbbbbbbbbbbbbbbbb",
        2,
    ),
    (
        b"40000 a\0\0\0\0\0\0\0\0\0\0\0\0\0\0\0\0\0\0\0\0\0100644 a\\\0bbbbbbbbbbbbbbbbbbbb",
        2,
    ),
    (
        b"100644 a\0100644 aaaaaaaaaaaaa100644 aa\0bbbbbbbbbbbbbbbbbbbb",
        2,
    ),
    (
        b"100644 a.b\0aaaaaaaaaaaaaaaaaaaa40000 a\0bbbbbbbbbbbbbbbbbbbb100644 a0\0cccccccccccccccccccc",
        3,
    ),
];

// Of an entry that breaks in two ways the earlier reason is told. A NUL in a name ends it. The file `a` and the folder `a`
// are one name, however many entries stand between them.
static BAD: [(&[u8], u64, DirWhy); 21] = [
    (b"1", 0, DirWhy::Mode),
    (b"100644", 0, DirWhy::Mode),
    (b"100644\0a", 0, DirWhy::Mode),
    (b"100664 a\0aaaaaaaaaaaaaaaaaaaa", 0, DirWhy::Mode),
    (b"040000 a\0aaaaaaaaaaaaaaaaaaaa", 0, DirWhy::Mode),
    (b" a\0aaaaaaaaaaaaaaaaaaaa", 0, DirWhy::Mode),
    (b"100644 ", 0, DirWhy::Name),
    (b"100644 a", 0, DirWhy::Name),
    (b"100644 \0aaaaaaaaaaaaaaaaaaaa", 0, DirWhy::Name),
    (b"100644 a/b\0aaaaaaaaaaaaaaaaaaaa", 0, DirWhy::Name),
    (b"100644 a\0", 0, DirWhy::Short),
    (b"100644 a\0aaaaaaaaaaaaaaaaaaa", 0, DirWhy::Short),
    (b"100644 b\0aaaaaaaaaaaaaaaaaaaa\n", 29, DirWhy::Mode),
    (b"100644 b\0c\0aaaaaaaaaaaaaaaaaaaa", 29, DirWhy::Mode),
    (b"100644 b\0aaaaaaaaaaaaaaaaaaaa100644 a", 29, DirWhy::Name),
    (
        b"100644 b\0aaaaaaaaaaaaaaaaaaaa100644 a\0a",
        29,
        DirWhy::Short,
    ),
    (
        b"100644 b\0aaaaaaaaaaaaaaaaaaaa100644 b\0bbbbbbbbbbbbbbbbbbbb",
        29,
        DirWhy::Twice,
    ),
    (
        b"100644 b\0aaaaaaaaaaaaaaaaaaaa40000 b\0bbbbbbbbbbbbbbbbbbbb",
        29,
        DirWhy::Twice,
    ),
    (
        b"100644 b\0aaaaaaaaaaaaaaaaaaaa100644 a\0bbbbbbbbbbbbbbbbbbbb",
        29,
        DirWhy::Order,
    ),
    (
        b"40000 a\0aaaaaaaaaaaaaaaaaaaa100644 a.b\0bbbbbbbbbbbbbbbbbbbb100644 a0\0cccccccccccccccccccc",
        28,
        DirWhy::Order,
    ),
    (
        b"100644 a\0aaaaaaaaaaaaaaaaaaaa100644 a!\0bbbbbbbbbbbbbbbbbbbb100644 a.b\0cccccccccccccccccccc40000 \
a\0dddddddddddddddddddd",
        90,
        DirWhy::Twice,
    ),
];

// How many entries a body has.
fn count(alloc: Global, body: &[u8]) -> Result<usize, ReadDirFault> {
    let directory = read_dir(alloc, body)?;
    Ok(directory.list().len())
}

#[test]
fn good_directories_that_look_bad(rt: HostRuntime) {
    for (body, entries) in &GOOD {
        assert!(rt; count(rt.alloc(), body) == Ok(*entries));
    }
}

#[test]
fn directories_that_break(rt: HostRuntime) {
    for (body, at, why) in &BAD {
        let bad = ReadDirFault::Bad(BadDir { at: *at, why: *why });
        assert!(rt; count(rt.alloc(), body) == Err(bad));
    }
}

#[test]
fn entries_stand_in_the_body(rt: HostRuntime) -> Result<(), Fail> {
    let entries = spelled_dir(rt.alloc(), DIRECTORY)?;
    assert!(rt; entries.len() == ENTRIES.len());
    Ok(())
}
