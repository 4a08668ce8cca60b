// Listings: what their lines say, the first line that is none, limits, and sources that fail.
use std::alloc::{AllocError, Global};
use std::process::Abort;
use std::test::Fail;
use swh_base::Which;
use swh_listing::{Listed, ListingFault, Mode, read_listing};
use swh_memory_input::MemorySource;

/// A mode and a path.
type Said = (Mode, &'static [u8]);

/// What is read of a text.
#[derive(Clone, Copy)]
enum Read {
    Lines(&'static [Said]),
    Bad(u64),
    Over(Which, u64),
    Fails,
}

use Read::*;

/// A text, and what is read of it.
type Row = (&'static [u8], Read);

/// The bytes 0x01, 0x23, .. as a revision's id.
const ID: Mode = Mode::Project([
    0x01, 0x23, 0x45, 0x67, 0x89, 0xab, 0xcd, 0xef, 0x01, 0x23, 0x45, 0x67, 0x89, 0xab, 0xcd, 0xef,
    0x01, 0x23, 0x45, 0x67,
]);

const ROWS: &[Row] = &[
    (b"", Lines(&[])),
    (
        b"100755 run\n120000 ln\n",
        Lines(&[(Mode::Executable, b"run"), (Mode::Link, b"ln")]),
    ),
    (
        b"160000 0123456789abcdef0123456789abcdef01234567 lib/mod\n",
        Lines(&[(ID, b"lib/mod")]),
    ),
    // A path may come again, and need not be a file's: that is found where the folder is known.
    (
        b"120000 ln\n100755 ln\n100755 no\n",
        Lines(&[
            (Mode::Link, b"ln"),
            (Mode::Executable, b"ln"),
            (Mode::Executable, b"no"),
        ]),
    ),
    // A path is any bytes, in quotes or as it is.
    (
        b"100755 \"caf\\303\\251\"\n100755 caf\xc3\xa9\n",
        Lines(&[
            (Mode::Executable, b"caf\xc3\xa9"),
            (Mode::Executable, b"caf\xc3\xa9"),
        ]),
    ),
    (
        b"120000  a b\r\n120000 \"\\n\\\"\"\n120000 a\"b\n",
        Lines(&[
            (Mode::Link, b" a b\r"),
            (Mode::Link, b"\n\""),
            (Mode::Link, b"a\"b"),
        ]),
    ),
    (
        b"100755 .../..x/y.\n",
        Lines(&[(Mode::Executable, b".../..x/y.")]),
    ),
    // Only a project has an id.
    (
        b"120000 0123456789abcdef0123456789abcdef01234567 /a\n",
        Lines(&[(Mode::Link, b"0123456789abcdef0123456789abcdef01234567 /a")]),
    ),
    // No line of a listing.
    (b"\n", Bad(1)),
    (b"#\n", Bad(1)),
    (b"100755\n", Bad(1)),
    (b"100755 \n", Bad(1)),
    (b"100644 a\n", Bad(1)),
    (b"040000 a\n", Bad(1)),
    (b"0100755 a\n", Bad(1)),
    (b" 100755 a\n", Bad(1)),
    (b"100755\ta\n", Bad(1)),
    (b"100755 /a\n", Bad(1)),
    (b"100755 a/\n", Bad(1)),
    (b"100755 a//b\n", Bad(1)),
    (b"100755 ./a\n", Bad(1)),
    (b"100755 a/..\n", Bad(1)),
    (b"100755 a\0b\n", Bad(1)),
    (b"100755 \"a\n", Bad(1)),
    (b"100755 \"a\"b\n", Bad(1)),
    (b"100755 \"\\400\"\n", Bad(1)),
    (b"160000 a\n", Bad(1)),
    (
        b"160000 0123456789ABCDEF0123456789abcdef01234567 a\n",
        Bad(1),
    ),
    (
        b"160000 0123456789abcdef0123456789abcdef0123456 a\n",
        Bad(1),
    ),
    (
        b"160000 0123456789abcdef0123456789abcdef012345678 a\n",
        Bad(1),
    ),
    (b"160000 0123456789abcdef0123456789abcdef01234567\n", Bad(1)),
    // The first line that is none, and a last line without its LF.
    (b"100755 a\n100755 a\n\n100755\n", Bad(3)),
    (b"100755 a", Bad(1)),
    (b"100755 a\n1", Bad(2)),
];

fn is_said(listed: &Listed, (mode, path): Said) -> bool {
    listed.mode == mode && listed.path.as_slice() == path
}

fn are_said(lines: &[Listed], said: &[Said]) -> bool {
    lines.len() == said.len() && lines.iter().zip(said).all(|(a, b)| is_said(a, *b))
}

fn is_read(found: &Result<Vec<Listed>, ListingFault>, read: Read) -> bool {
    match (found, read) {
        (Ok(lines), Lines(said)) => are_said(lines, said),
        (Err(ListingFault::BadModes { line }), Bad(wanted)) => *line == wanted,
        (Err(ListingFault::Limit { which, number }), Over(what, most)) => {
            *which == what && *number == most
        }
        (Err(ListingFault::ReadFault), Fails) => true,
        _ => false,
    }
}

/// A source of these bytes, in pieces of a size; the calls with these numbers fail.
fn source_of(
    alloc: Global,
    bytes: Vec<u8>,
    piece: usize,
    failing: &[u64],
) -> Result<MemorySource, AllocError> {
    let failing = Vec::from_slice(alloc, failing)?;
    Ok(MemorySource::new(String::new(alloc), bytes, piece, failing))
}

fn reads_so(alloc: Global, (text, read): Row, piece: usize) -> Result<bool, AllocError> {
    let mut source = source_of(alloc, Vec::from_slice(alloc, text)?, piece, &[])?;
    let found = read_listing(alloc, &mut source);
    Ok(is_read(&found, read) && source.faults() == 0)
}

#[test]
fn listings_in_any_pieces(rt: HostRuntime) -> Result<(), Fail> {
    for (number, row) in ROWS.iter().enumerate() {
        for piece in [1, 2, 7, 65_536] {
            let so = reads_so(rt.alloc(), *row, piece)?;
            assert!(rt; so, "row {number} in pieces of {piece}");
        }
    }
    Ok(())
}

/// A front, a byte that is repeated, how often, an end, and what is read of all of it.
type Long = (&'static [u8], u8, usize, &'static [u8], Read);

const LIMITS: &[Long] = &[
    // 65,536 bytes of a path, also where they spell none.
    (b"100755 ", b'a', 65_536, b"\n", Over(Which::Path, 65_536)),
    (b"100755 ", b'/', 65_536, b"\n", Over(Which::Path, 65_536)),
    (
        b"120000 \"",
        b'a',
        65_536,
        b"\"\n",
        Over(Which::Path, 65_536),
    ),
    (
        b"160000 0123456789abcdef0123456789abcdef01234567 ",
        b'a',
        65_536,
        b"\n",
        Over(Which::Path, 65_536),
    ),
    // What is no mode has no path.
    (b"100644 ", b'a', 65_536, b"\n", Bad(1)),
    // A line of 1,048,576 bytes with its LF, and one of one more.
    (b"", b'a', 1_048_575, b"\n", Bad(1)),
    (b"", b'a', 1_048_576, b"\n", Over(Which::Line, 1_048_577)),
    (
        b"100755 ",
        b'a',
        1_048_569,
        b"\n",
        Over(Which::Line, 1_048_577),
    ),
    // Without an LF, a line that is no longer is cut.
    (b"", b'a', 1_048_576, b"", Bad(1)),
    (b"", b'a', 1_048_577, b"", Over(Which::Line, 1_048_577)),
    // The first line that breaks is told.
    (b"x\n100755 ", b'a', 65_536, b"\n", Bad(1)),
];

fn long_text(alloc: Global, (front, byte, count, end, _): Long) -> Result<Vec<u8>, AllocError> {
    let mut text = Vec::from_slice(alloc, front)?;
    let middle = Vec::from_elem(alloc, byte, count)?;
    text.extend_from_slice(&middle)?;
    text.extend_from_slice(end)?;
    Ok(text)
}

fn limits_so(alloc: Global, row: Long) -> Result<bool, AllocError> {
    let mut source = source_of(alloc, long_text(alloc, row)?, 4_096, &[])?;
    Ok(is_read(&read_listing(alloc, &mut source), row.4))
}

#[test]
fn limits_of_listings(rt: HostRuntime) -> Result<(), Fail> {
    for (number, row) in LIMITS.iter().enumerate() {
        let so = limits_so(rt.alloc(), *row)?;
        assert!(rt; so, "row {number}");
    }
    Ok(())
}

/// A path of 65,535 bytes, which is the longest.
fn longest_is_read(alloc: Global) -> Result<bool, AllocError> {
    let text = long_text(alloc, (b"100755 ", b'a', 65_535, b"\n", Lines(&[])))?;
    let mut source = source_of(alloc, text, 65_536, &[])?;
    match read_listing(alloc, &mut source) {
        Ok(lines) => Ok(lines.len() == 1 && lines[0].path.as_slice().len() == 65_535),
        Err(_) => Ok(false),
    }
}

#[test]
fn the_longest_path(rt: HostRuntime) -> Result<(), Fail> {
    assert!(rt; longest_is_read(rt.alloc())?);
    Ok(())
}

/// Whether the listing is not read where a call of its source fails, and the failure is counted.
fn fails_at(alloc: Global, call: u64) -> Result<bool, AllocError> {
    let text = Vec::from_slice(alloc, b"100755 a\n100755 b\n")?;
    let mut source = source_of(alloc, text, 6, &[call])?;
    let found = read_listing(alloc, &mut source);
    Ok(is_read(&found, Fails) && source.faults() == 1)
}

/// There are three calls for the bytes, and one for the end.
#[test]
fn a_source_that_fails(rt: HostRuntime) -> Result<(), Fail> {
    for call in 0..4 {
        let fails = fails_at(rt.alloc(), call)?;
        assert!(rt; fails, "call {call}");
    }
    assert!(rt; !fails_at(rt.alloc(), 4)?);
    Ok(())
}
