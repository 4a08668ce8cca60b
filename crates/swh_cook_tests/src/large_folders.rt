//! Directories whose paths are long, that are deep, that are large, and that are reached from themselves.
use crate::folder_world::cooked;
use std::alloc::{AllocError, Global};
use std::test::Fail;
use swh_base::{ByteNamer, Kind, Name};
use swh_carried::{CookFault, Why};
use swh_graph_fixtures::add;
use swh_memory_input::MemoryYard;
use swh_object::Object;
use swh_replay::Replayed;

fn added(alloc: Global, shown: &mut Replayed, kind: Kind, body: Vec<u8>) -> Result<Name, Fail> {
    match add(alloc, shown, kind, body) {
        Some(name) => Ok(name),
        None => Err(Fail::from("an object")),
    }
}

/// Appends an entry of a folder or of a file.
fn push_entry(body: &mut Vec<u8>, mode: &[u8], name: &[u8], to: &Name) -> Result<(), AllocError> {
    body.extend_from_slice(mode)?;
    body.extend_from_slice(name)?;
    body.extend_from_slice(b"\0")?;
    body.extend_from_slice(&to.id)
}

/// A directory of one entry, whose name is so many times the letter `x`.
fn long_name(alloc: Global, mode: &[u8], count: usize, to: &Name) -> Result<Vec<u8>, AllocError> {
    let mut name = Vec::new(alloc);
    name.resize(count, b'x')?;
    let mut body = Vec::new(alloc);
    push_entry(&mut body, mode, name.as_slice(), to)?;
    Ok(body)
}

fn root_cooked(alloc: Global, shown: &Replayed, root: Name) -> Result<Result<(), CookFault>, Fail> {
    let mut yard = MemoryYard::with_room(alloc, 4096, Vec::new(alloc))?;
    Ok(cooked(alloc, shown, root, &mut yard))
}

/// How a folder of so many letters with a file of so many letters is cooked, and the name of the inner directory.
fn path_cooked(
    alloc: Global,
    folder: usize,
    file: usize,
) -> Result<(Result<(), CookFault>, Name), Fail> {
    let mut shown = Replayed::new(alloc);
    let empty = added(alloc, &mut shown, Kind::Content, Vec::new(alloc))?;
    let body = long_name(alloc, b"100644 ", file, &empty)?;
    let inner = added(alloc, &mut shown, Kind::Directory, body)?;
    let body = long_name(alloc, b"40000 ", folder, &inner)?;
    let root = added(alloc, &mut shown, Kind::Directory, body)?;
    Ok((root_cooked(alloc, &shown, root)?, inner))
}

/// A directory of one entry `a` for each of so many levels, of which the innermost has none; the two innermost.
fn deep(alloc: Global, shown: &mut Replayed, levels: u32) -> Result<(Name, Name), Fail> {
    let innermost = added(alloc, shown, Kind::Directory, Vec::new(alloc))?;
    let body = long_name(alloc, b"40000 ", 1, &innermost)?;
    let first = added(alloc, shown, Kind::Directory, body)?;
    let mut last = first;
    for _ in 1..levels {
        let body = long_name(alloc, b"40000 ", 1, &last)?;
        last = added(alloc, shown, Kind::Directory, body)?;
    }
    Ok((last, first))
}

/// Two letters for a number below 256.
fn letters(number: u8) -> [u8; 2] {
    [b'a' + number / 16, b'a' + number % 16]
}

/// A directory with so many entries, each of them this.
fn many(alloc: Global, mode: &[u8], count: u8, to: &Name) -> Result<Vec<u8>, AllocError> {
    let mut body = Vec::new(alloc);
    for number in 0..count {
        push_entry(&mut body, mode, &letters(number), to)?;
    }
    Ok(body)
}

/// How a directory is cooked whose files have 2 to the 32nd bytes together, and so many more, into a yard whose first call
/// fails; and its name.
fn large_cooked(alloc: Global, more: usize) -> Result<(Result<(), CookFault>, Name), Fail> {
    let mut shown = Replayed::new(alloc);
    let mut bytes = Vec::new(alloc);
    bytes.resize(1 << 20, 0)?;
    let content = added(alloc, &mut shown, Kind::Content, bytes)?;
    let mut bytes = Vec::new(alloc);
    bytes.resize(more, 0)?;
    let rest = added(alloc, &mut shown, Kind::Content, bytes)?;
    let body = many(alloc, b"100644 ", 128, &content)?;
    let inner = added(alloc, &mut shown, Kind::Directory, body)?;
    let mut body = many(alloc, b"40000 ", 32, &inner)?;
    push_entry(&mut body, b"100644 ", b"z", &rest)?;
    let root = added(alloc, &mut shown, Kind::Directory, body)?;
    Ok((refused_or_begun(alloc, &shown, root)?, root))
}

/// How the root is cooked into a yard whose first call fails.
fn refused_or_begun(
    alloc: Global,
    shown: &Replayed,
    root: Name,
) -> Result<Result<(), CookFault>, Fail> {
    let mut failing = Vec::new(alloc);
    failing.push(0)?;
    let mut yard = MemoryYard::with_room(alloc, 0, failing)?;
    Ok(cooked(alloc, shown, root, &mut yard))
}

/// A directory of two folders, each of the next such directory, and so on for so many levels above one of no entries.
fn doubled(alloc: Global, shown: &mut Replayed, levels: u8) -> Result<Name, Fail> {
    let mut last = added(alloc, shown, Kind::Directory, Vec::new(alloc))?;
    for _ in 0..levels {
        let body = many(alloc, b"40000 ", 2, &last)?;
        last = added(alloc, shown, Kind::Directory, body)?;
    }
    Ok(last)
}

/// How many levels of two folders each stand below two folders of the root, and how many files beside these; and whether that
/// is refused.
const ENTRIES: &[(u8, u8, bool)] = &[
    // 4,294,967,294 entries, and two files.
    (30, 2, false),
    (30, 3, true),
    // 2,199,023,255,550 entries, all of them folders.
    (39, 0, true),
];

fn entries_end_so(alloc: Global, row: &(u8, u8, bool)) -> Result<bool, Fail> {
    let mut shown = Replayed::new(alloc);
    let empty = added(alloc, &mut shown, Kind::Content, Vec::new(alloc))?;
    let inner = doubled(alloc, &mut shown, row.0)?;
    let mut body = many(alloc, b"40000 ", 2, &inner)?;
    for number in 0..row.1 {
        push_entry(
            &mut body,
            b"100644 ",
            &letters(number.saturating_add(16)),
            &empty,
        )?;
    }
    let root = added(alloc, &mut shown, Kind::Directory, body)?;
    Ok(refused_or_begun(alloc, &shown, root)? == wanted(root, row.2))
}

/// What the cooking of a directory answers, where it is refused as too long, and where the yard fails.
fn wanted(root: Name, is_long: bool) -> Result<(), CookFault> {
    if is_long {
        return refusal(root, Why::Length);
    }
    Err(CookFault::WriteFault)
}

/// What the names of four folders begin with, and those of the 16,384 programs in each; how many letters follow in the name
/// of each folder, so that each line has 65,535 bytes.
const LINES: &[(&[u8], &[u8], usize)] = &[
    (b"", b"", 65_520),
    (b"\"", b"", 65_516),
    (b"", b"\xc3\xa9", 65_510),
    (b"\"", b"\xc3\xa9", 65_508),
];

/// Appends the entries of four folders, whose names begin so, and have so many letters and one more.
fn push_folders(
    body: &mut Vec<u8>,
    alloc: Global,
    row: &(&[u8], &[u8], usize),
    to: &Name,
) -> Result<(), AllocError> {
    for last in b"abcd" {
        let mut name = Vec::new(alloc);
        name.extend_from_slice(row.0)?;
        name.resize(row.0.len().saturating_add(row.2), b'x')?;
        name.push(*last)?;
        push_entry(body, b"40000 ", name.as_slice(), to)?;
    }
    Ok(())
}

/// How a directory is cooked whose listing has 65,536 lines of 65,535 bytes, and one of a name with so many letters and 8
/// bytes more.
fn lines_end_so(
    alloc: Global,
    row: &(&[u8], &[u8], usize),
    letters_of_last: usize,
    is_long: bool,
) -> Result<bool, Fail> {
    let mut shown = Replayed::new(alloc);
    let empty = added(alloc, &mut shown, Kind::Content, Vec::new(alloc))?;
    let mut body = Vec::new(alloc);
    for number in 0..128 {
        let mut name = Vec::new(alloc);
        name.extend_from_slice(row.1)?;
        name.extend_from_slice(&letters(number))?;
        push_entry(&mut body, b"100755 ", name.as_slice(), &empty)?;
    }
    let programs = added(alloc, &mut shown, Kind::Directory, body)?;
    let body = many(alloc, b"40000 ", 128, &programs)?;
    let inner = added(alloc, &mut shown, Kind::Directory, body)?;
    let mut body = Vec::new(alloc);
    push_folders(&mut body, alloc, row, &inner)?;
    let mut last = Vec::new(alloc);
    last.resize(letters_of_last, b'z')?;
    push_entry(&mut body, b"100755 ", last.as_slice(), &empty)?;
    let root = added(alloc, &mut shown, Kind::Directory, body)?;
    Ok(refused_or_begun(alloc, &shown, root)? == wanted(root, is_long))
}

/// The number of the first row that ends in another way, or how many there are.
fn first_other_entries(alloc: Global) -> Result<usize, Fail> {
    for (number, row) in ENTRIES.iter().enumerate() {
        if !entries_end_so(alloc, row)? {
            return Ok(number);
        }
    }
    Ok(ENTRIES.len())
}

/// The same of the listings, at the limit and one byte above it.
fn first_other_lines(alloc: Global) -> Result<usize, Fail> {
    for (number, row) in LINES.iter().enumerate() {
        if !lines_end_so(alloc, row, 65_528, false)? || !lines_end_so(alloc, row, 65_529, true)? {
            return Ok(number);
        }
    }
    Ok(LINES.len())
}

/// How a directory is cooked whose one entry is itself, as the naming by small sums allows, and its name.
fn circle_cooked(alloc: Global) -> Result<(Result<(), CookFault>, Name), Fail> {
    let body = b"40000 vv\0\0\0\0\0\0\0\0\0\0\0\0\0\0\0\0\0\0\0\0\0".to_vec(alloc)?;
    let Ok(object) = Object::make(alloc, &ByteNamer, Kind::Directory, body) else {
        return Err(Fail::from("a directory"));
    };
    let name = object.name();
    let mut shown = Replayed::new(alloc);
    if shown.store.add(&[object.into_entry()]).is_err() {
        return Err(Fail::from("a new name"));
    }
    Ok((root_cooked(alloc, &shown, name)?, name))
}

fn refusal(name: Name, why: Why) -> Result<(), CookFault> {
    Err(CookFault::Uncarried { name, why })
}

#[test]
fn paths_have_a_limit(rt: HostRuntime) -> Result<(), Fail> {
    let (ended, _) = path_cooked(rt.alloc(), 65_533, 1)?;
    assert_eq!(rt; ended, Ok(()));
    let (ended, inner) = path_cooked(rt.alloc(), 65_533, 2)?;
    assert_eq!(rt; ended, refusal(inner, Why::Path));
    Ok(())
}

#[test]
fn a_deep_directory_takes_no_recursion(rt: HostRuntime) -> Result<(), Fail> {
    let mut shown = Replayed::new(rt.alloc());
    let (root, first) = deep(rt.alloc(), &mut shown, 100_000)?;
    assert_eq!(rt;
        root_cooked(rt.alloc(), &shown, root)?,
        refusal(first, Why::Path)
    );
    Ok(())
}

#[test]
fn files_together_have_a_limit(rt: HostRuntime) -> Result<(), Fail> {
    let (ended, _) = large_cooked(rt.alloc(), 0)?;
    assert_eq!(rt; ended, Err(CookFault::WriteFault));
    let (ended, root) = large_cooked(rt.alloc(), 1)?;
    assert_eq!(rt; ended, refusal(root, Why::Length));
    Ok(())
}

#[test]
fn a_listing_may_have_so_many_bytes(rt: HostRuntime) -> Result<(), Fail> {
    assert_eq!(rt; first_other_lines(rt.alloc())?, LINES.len());
    Ok(())
}

#[test]
fn entries_have_a_limit(rt: HostRuntime) -> Result<(), Fail> {
    assert_eq!(rt; first_other_entries(rt.alloc())?, ENTRIES.len());
    Ok(())
}

#[test]
fn a_circle_is_not_entered(rt: HostRuntime) -> Result<(), Fail> {
    let (ended, name) = circle_cooked(rt.alloc())?;
    assert_eq!(rt; ended, refusal(name, Why::Cycle));
    Ok(())
}
