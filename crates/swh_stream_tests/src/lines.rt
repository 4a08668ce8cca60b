// Lines of a source (git-fast-import(1), input format), in pieces.
use std::alloc::{AllocError, Global};
use std::test::Fail;
use swh_fastlex::{LineFault, Window, next_feed, next_line};
use swh_memory_input::MemorySource;

/// A source of these bytes in pieces; the calls with these numbers fail.
pub fn source_of(
    alloc: Global,
    bytes: &[u8],
    piece: usize,
    failing: &[u64],
) -> Result<MemorySource, AllocError> {
    let bytes = Vec::from_slice(alloc, bytes)?;
    let failing = Vec::from_slice(alloc, failing)?;
    Ok(MemorySource::new(String::new(alloc), bytes, piece, failing))
}

/// What lines are read: how many, the place after them, and what ends them, where it is not the end of the input.
type Found = (u32, u64, Option<LineFault>);

/// Bytes, the size of their pieces, the call that fails, and what is found.
type Row = (&'static [u8], usize, &'static [u64], Found);

const ROWS: &[Row] = &[
    (b"", 2, &[], (0, 0, None)),
    (b"one\n\n", 1, &[], (2, 5, None)),
    (b"one\n\ntwo", 2, &[], (2, 8, Some(LineFault::End))),
    (b"one\n\ntwo\n", 65_536, &[], (3, 9, None)),
    (b"one\ntwo", 2, &[3], (1, 6, Some(LineFault::Failed))),
];

/// No text of these tests is as long.
const FAR: u64 = 1 << 62;

/// The lines of a source, as far as they are read; no more than eight.
fn read_lines(alloc: Global, mut source: MemorySource) -> Result<Found, AllocError> {
    let mut window = Window::new(alloc)?;
    let mut lines: u32 = 0;
    for _ in 0..8 {
        if window.place() > FAR {
            break;
        }
        match next_line(alloc, &mut window, &mut source) {
            Ok(Some(_)) => lines = lines.saturating_add(1),
            Ok(None) => return Ok((lines, window.place(), None)),
            Err(fault) => return Ok((lines, window.place(), Some(fault))),
        }
    }
    Ok((lines, window.place(), None))
}

#[test]
fn lines_in_pieces(rt: HostRuntime) -> Result<(), Fail> {
    let alloc = rt.alloc();
    for (number, (bytes, piece, failing, wanted)) in ROWS.iter().enumerate() {
        let source = source_of(alloc, bytes, *piece, failing)?;
        assert_eq!(rt; read_lines(alloc, source)?, *wanted, "row {number}");
    }
    Ok(())
}

/// How many bytes without an LF, what stands behind them, and what is found. A last line as long as a line may be passes
/// no limit, and ends inside.
const LONG: &[(usize, &[u8], Found)] = &[
    (1_048_575, b"\n", (1, 1_048_576, None)),
    (1_048_576, b"\n", (0, 1_048_576, Some(LineFault::Limit))),
    (1_048_575, b"", (0, 1_048_575, Some(LineFault::End))),
    (1_048_576, b"", (0, 1_048_576, Some(LineFault::End))),
    (1_048_577, b"", (0, 1_048_576, Some(LineFault::Limit))),
];

/// So many bytes, and more.
pub fn letters(
    alloc: Global,
    front: &[u8],
    count: usize,
    back: &[u8],
) -> Result<Vec<u8>, AllocError> {
    let mut bytes = Vec::from_elem(alloc, b'a', count)?;
    bytes.extend_from_slice(back)?;
    let mut all = Vec::from_slice(alloc, front)?;
    all.append(&mut bytes)?;
    Ok(all)
}

#[test]
fn longest_line(rt: HostRuntime) -> Result<(), Fail> {
    let alloc = rt.alloc();
    for (number, (count, back, wanted)) in LONG.iter().enumerate() {
        let bytes = letters(alloc, b"", *count, back)?;
        let source = source_of(alloc, bytes.as_slice(), 65_536, &[])?;
        assert_eq!(rt; read_lines(alloc, source)?, *wanted, "row {number}");
    }
    Ok(())
}

/// The LF that may follow data.
#[test]
fn a_feed_or_none(rt: HostRuntime) -> Result<(), Fail> {
    let alloc = rt.alloc();
    let mut source = source_of(alloc, b"\na", 1, &[])?;
    let mut window = Window::new(alloc)?;
    assert_eq!(rt; next_feed(&mut window, &mut source), Ok(true));
    assert_eq!(rt; next_feed(&mut window, &mut source), Ok(false));
    assert_eq!(rt; window.place(), 1);
    Ok(())
}
