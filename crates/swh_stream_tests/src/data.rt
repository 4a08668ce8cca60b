// Data of a source (git-fast-import(1), data), in pieces.
use crate::lines::{letters, source_of};
use std::alloc::{AllocError, Global};
use std::test::Fail;
use swh_fastlex::{DataFault, LineFault, Window, next_data, next_delimited};
use swh_memory_input::MemorySource;

/// What is read: how many bytes, or why none, and the place after them.
type Read<E> = (Result<usize, E>, u64);

/// Bytes, the size of their pieces, the call that fails, how many bytes are wanted, and what is read.
type Counted = (&'static [u8], usize, &'static [u64], u64, Read<LineFault>);

const COUNTED: &[Counted] = &[
    (b"one\n\ntwo", 1, &[], 5, (Ok(5), 5)),
    (b"one\n\ntwo", 3, &[], 5, (Ok(5), 5)),
    (b"", 3, &[], 0, (Ok(0), 0)),
    (b"two", 2, &[], 4, (Err(LineFault::End), 3)),
    (b"two", 2, &[], 67_108_865, (Err(LineFault::Limit), 0)),
    (b"two", 2, &[1], 3, (Err(LineFault::Failed), 2)),
];

fn read_counted(
    alloc: Global,
    mut source: MemorySource,
    wanted: u64,
) -> Result<Read<LineFault>, AllocError> {
    let mut window = Window::new(alloc)?;
    match next_data(alloc, &mut window, &mut source, wanted) {
        Ok(bytes) => Ok((Ok(bytes.len()), window.place())),
        Err(fault) => Ok((Err(fault), window.place())),
    }
}

#[test]
fn counted_data(rt: HostRuntime) -> Result<(), Fail> {
    let alloc = rt.alloc();
    for (number, (bytes, piece, failing, wanted, read)) in COUNTED.iter().enumerate() {
        let source = source_of(alloc, bytes, *piece, failing)?;
        assert_eq!(rt;
            read_counted(alloc, source, *wanted)?,
            *read,
            "row {number}"
        );
    }
    Ok(())
}

/// The same up to the line `END`, of no more than this many bytes.
type Delimited = (&'static [u8], usize, &'static [u64], usize, Read<DataFault>);

const DELIMITED: &[Delimited] = &[
    (
        b"one\n\na END\nENDS\nEND\n\nEND\n",
        1,
        &[],
        100,
        (Ok(16), 20),
    ),
    (
        b"one\n\na END\nENDS\nEND\n\nEND\n",
        3,
        &[],
        100,
        (Ok(16), 20),
    ),
    (b"END\n", 2, &[], 0, (Ok(0), 4)),
    (b"one\ntwo\nEND\n", 2, &[], 8, (Ok(8), 12)),
    (b"one\ntwo\nEND\n", 2, &[], 7, (Err(DataFault::Body), 8)),
    (b"one\ntwo", 2, &[], 100, (Err(DataFault::End), 7)),
    (b"one\n", 2, &[], 100, (Err(DataFault::End), 4)),
    (b"one\nEND", 2, &[], 100, (Err(DataFault::End), 7)),
    (
        b"one\ntwo\nEND\n",
        4,
        &[1],
        100,
        (Err(DataFault::Failed), 4),
    ),
];

fn read_delimited(
    alloc: Global,
    mut source: MemorySource,
    limit: usize,
) -> Result<Read<DataFault>, AllocError> {
    let mut window = Window::new(alloc)?;
    match next_delimited(alloc, &mut window, &mut source, b"END", limit.min(100)) {
        Ok(bytes) => Ok((Ok(bytes.len()), window.place())),
        Err(fault) => Ok((Err(fault), window.place())),
    }
}

#[test]
fn delimited_data(rt: HostRuntime) -> Result<(), Fail> {
    let alloc = rt.alloc();
    for (number, (bytes, piece, failing, limit, read)) in DELIMITED.iter().enumerate() {
        let source = source_of(alloc, bytes, *piece, failing)?;
        assert_eq!(rt;
            read_delimited(alloc, source, *limit)?,
            *read,
            "row {number}"
        );
    }
    Ok(())
}

/// How many bytes without an LF behind a line, what stands behind them, and why no data are read.
const LONG: &[(usize, &[u8], DataFault)] = &[
    (1_048_575, b"\n", DataFault::Body),
    (1_048_576, b"\n", DataFault::Line),
    (1_048_576, b"", DataFault::End),
    (1_048_577, b"", DataFault::Line),
];

#[test]
fn longest_line_in_data(rt: HostRuntime) -> Result<(), Fail> {
    let alloc = rt.alloc();
    for (number, (count, back, fault)) in LONG.iter().enumerate() {
        let bytes = letters(alloc, b"one\n", *count, back)?;
        let source = source_of(alloc, bytes.as_slice(), 65_536, &[])?;
        let read = read_delimited(alloc, source, 100)?;
        assert_eq!(rt; read, (Err(*fault), 1_048_580), "row {number}");
    }
    Ok(())
}
