// The reader of streams: worked examples, cut streams, pieces, and a source that fails.
use std::alloc::{AllocError, Global};
use std::process::Abort;
use std::test::Fail;
use swh_base::Which;
use swh_fastgrammar::StreamWhy::{self, End, Grammar, LeftOut};
use swh_fastlex::Window;
use swh_fastread::{ReadFail, Reader};
use swh_memory_input::MemorySource;

/// A reader of these bytes, which come in pieces of a size; the calls with these numbers fail.
fn reader_of(
    alloc: Global,
    bytes: Vec<u8>,
    piece: usize,
    failing: &[u64],
) -> Result<Reader<MemorySource>, AllocError> {
    let failing = Vec::from_slice(alloc, failing)?;
    let source = MemorySource::new(String::new(alloc), bytes, piece, failing);
    let window = Window::new(alloc)?;
    Ok(Reader::new(alloc, window, source))
}

/// How many commands are read, no more than 64, and why no more are, where it is not the end of the stream.
fn read_all(reader: &mut Reader<MemorySource>) -> (u64, Option<ReadFail>) {
    let mut commands: u64 = 0;
    for _ in 0..64 {
        match reader.next_command() {
            Ok(Some(_)) => commands = commands.saturating_add(1),
            Ok(None) => return (commands, None),
            Err(fail) => return (commands, Some(fail)),
        }
    }
    (commands, None)
}

/// A stream, the size of its pieces, how many commands it has, and its fault with the place.
type Row = (&'static [u8], usize, u64, Option<(u64, StreamWhy)>);

/// A stream of each command, with each part of it, that promises `done`.
const WHOLE: &[u8] =
    b"feature done\nprogress p\nblob\nmark :1\noriginal-oid o\ndata 3\nabc\ncommit n\nmark :2\n\
original-oid o\nauthor A <a> 1 +0000\ncommitter A <a> 1 +0000\nencoding latin1\ndata <<E\nm\nE\nfrom n^0\nmerge :1\n\
merge o\ndeleteall\nM 644 :1 a\nM 755 inline b/c\ndata 1\nx\nM 160000 0123456789012345678901234567890123456789 s\n\
D a\nC b d\nR d \"e\"\ntag t\nmark :3\nfrom :2\noriginal-oid o\ntagger A <a> 1 +0000\ndata 0\n\nreset n\nfrom \
0000000000000000000000000000000000000000\n\ncheckpoint\ndone\n";

/// A comment before each line of a commit.
const COMMENTS: &[u8] =
    b"#\ncommit n\n#a\nmark :1\n##\ncommitter A <a> 1 +0000\n#from :1\n#\ndata 1\nx\n#\nfrom :2\n# \nmerge :3\n#\n\
M 644 inline a\n#data\ndata 1\ny\n#\nD b\n#";

const ROWS: &[Row] = &[
    (b"", 3, 0, None),
    (WHOLE, 1, 4, None),
    (WHOLE, 2, 4, None),
    (WHOLE, 3, 4, None),
    (WHOLE, 65_536, 4, None),
    (COMMENTS, 2, 1, Some((130, End))),
    // A line may follow data at once.
    (
        b"commit n\ncommitter A <a> 1 +0000\ndata 3\nabcfrom :2\n",
        9,
        1,
        None,
    ),
    // A promise that is not kept, and what stands behind `done`.
    (b"feature done\n", 3, 0, Some((13, End))),
    (b"feature done\nblob\ndata 0\n", 3, 1, Some((25, End))),
    (b"done\nfoo\nbar", 3, 0, None),
    (b"feature done\ndone\n", 1, 0, None),
    (b"done", 1, 0, Some((4, End))),
    (b"done \n", 1, 0, Some((0, Grammar))),
    // Lines that are left out.
    (b"N inline :1\n", 9, 0, Some((0, LeftOut))),
    (b"ls x\n", 9, 0, Some((0, LeftOut))),
    (b"cat-blob :1\n", 9, 0, Some((0, LeftOut))),
    (b"get-mark :1\n", 9, 0, Some((0, LeftOut))),
    (b"option git quiet\n", 9, 0, Some((0, LeftOut))),
    (b"alias\n", 9, 0, Some((0, LeftOut))),
    (b"gpgsig sha1 openpgp\n", 9, 0, Some((0, LeftOut))),
    (b"M 040000 x d\n", 9, 0, Some((0, LeftOut))),
    (b"feature notes\n", 9, 0, Some((0, LeftOut))),
    // Inside a command, and behind a whole one.
    (b"blob\nls x\n", 9, 0, Some((5, LeftOut))),
    (b"blob\nfoo\n", 9, 0, Some((5, Grammar))),
    (b"reset n\nfrom :0\n", 9, 1, Some((8, Grammar))),
    (b"tag t\nfrom :1\nD a\n", 9, 0, Some((14, Grammar))),
    (b"foo", 9, 0, Some((3, End))),
    // The last parts of a commit have an order.
    (
        b"commit n\ncommitter A <a> 1 +0000\ndata 0\nmerge :1\nfrom :2\n",
        9,
        1,
        Some((49, Grammar)),
    ),
    (
        b"commit n\ncommitter A <a> 1 +0000\ndata 0\nD a\nmerge :1\n",
        9,
        1,
        Some((44, Grammar)),
    ),
];

fn fault_of(fault: Option<(u64, StreamWhy)>) -> Option<ReadFail> {
    match fault {
        Some((at, why)) => Some(ReadFail::BadStream { at, why }),
        None => None,
    }
}

#[test]
fn streams_and_faults(rt: HostRuntime) -> Result<(), Fail> {
    let alloc = rt.alloc();
    for (number, (bytes, piece, commands, fault)) in ROWS.iter().enumerate() {
        let mut reader = reader_of(alloc, Vec::from_slice(alloc, bytes)?, *piece, &[])?;
        let found = read_all(&mut reader);
        assert_eq!(rt; found, (*commands, fault_of(*fault)), "row {number}");
    }
    Ok(())
}

/// Wherever the stream is cut, the fault is the end of the input, at the cut.
#[test]
fn each_cut(rt: HostRuntime) -> Result<(), Fail> {
    let alloc = rt.alloc();
    for length in 1..WHOLE.len() {
        let mut reader = reader_of(alloc, Vec::from_slice(alloc, &WHOLE[..length])?, 7, &[])?;
        let (_, fail) = read_all(&mut reader);
        assert_eq!(rt; fail, fault_of(Some((length as u64, End))), "cut {length}");
    }
    Ok(())
}

/// A stream's front, how many letters follow it, what stands behind them, how many commands it has, and its failure.
type Long = (&'static [u8], usize, &'static [u8], u64, Option<ReadFail>);

/// Limits, exact and one above. A limit is told wherever the line stands that passes it; a last line as long as a line may
/// be passes none.
const LIMITS: &[Long] = &[
    (b"reset ", 1_024, b"\n", 1, None),
    (
        b"reset ",
        1_025,
        b"\n",
        0,
        Some(ReadFail::Limit {
            which: Which::Ref,
            number: 1_025,
        }),
    ),
    (
        b"blob\nfrom ",
        1_025,
        b"\n",
        0,
        Some(ReadFail::Limit {
            which: Which::Ref,
            number: 1_025,
        }),
    ),
    (
        b"data 99999999999\n",
        0,
        b"",
        0,
        Some(ReadFail::Limit {
            which: Which::Body,
            number: 99_999_999_999,
        }),
    ),
    (b"progress ", 1_048_566, b"\n", 0, None),
    (
        b"progress ",
        1_048_567,
        b"\n",
        0,
        Some(ReadFail::Limit {
            which: Which::Line,
            number: 1_048_577,
        }),
    ),
    (
        b"",
        1_048_576,
        b"",
        0,
        Some(ReadFail::BadStream {
            at: 1_048_576,
            why: End,
        }),
    ),
    (
        b"#",
        1_048_575,
        b"",
        0,
        Some(ReadFail::BadStream {
            at: 1_048_576,
            why: End,
        }),
    ),
    (
        b"",
        1_048_577,
        b"",
        0,
        Some(ReadFail::Limit {
            which: Which::Line,
            number: 1_048_577,
        }),
    ),
    (
        b"blob\ndata <<E\n",
        1_048_576,
        b"",
        0,
        Some(ReadFail::BadStream {
            at: 1_048_590,
            why: End,
        }),
    ),
    (
        b"blob\ndata <<E\n",
        1_048_576,
        b"\n",
        0,
        Some(ReadFail::Limit {
            which: Which::Line,
            number: 1_048_577,
        }),
    ),
];

/// The stream of a row.
fn long_stream(alloc: Global, row: &Long) -> Result<Vec<u8>, AllocError> {
    let (front, count, back, _, _) = row;
    let mut bytes = Vec::from_slice(alloc, front)?;
    bytes.resize(front.len().saturating_add(*count), b'a')?;
    bytes.extend_from_slice(back)?;
    Ok(bytes)
}

#[test]
fn limits(rt: HostRuntime) -> Result<(), Fail> {
    let alloc = rt.alloc();
    for (number, row) in LIMITS.iter().enumerate() {
        let mut reader = reader_of(alloc, long_stream(alloc, row)?, 65_536, &[])?;
        assert_eq!(rt; read_all(&mut reader), (row.3, row.4), "row {number}");
    }
    Ok(())
}

/// Checks that the reader answers this now and ever after.
fn check_still(rt: &impl Abort, reader: &mut Reader<MemorySource>, fail: Option<ReadFail>) {
    for _ in 0..3 {
        assert_eq!(rt; read_all(reader), (0, fail));
    }
}

/// A stream, the call that fails, and why no command comes.
const ENDED: &[(&[u8], &[u64], Option<ReadFail>)] = &[
    (b"\n", &[], None),
    (b"blob\ndata 0\n", &[1], Some(ReadFail::ReadFault)),
    (
        b"foo\nblob\ndata 0\n",
        &[],
        Some(ReadFail::BadStream {
            at: 0,
            why: Grammar,
        }),
    ),
];

/// A refused stream stays refused, and so does one whose source failed or that ended.
#[test]
fn the_same_ever_after(rt: HostRuntime) -> Result<(), Fail> {
    let alloc = rt.alloc();
    for (bytes, failing, fail) in ENDED {
        let mut reader = reader_of(alloc, Vec::from_slice(alloc, bytes)?, 5, failing)?;
        check_still(&rt, &mut reader, *fail);
        assert_eq!(rt; reader.close().faults(), failing.len() as u64);
    }
    Ok(())
}

/// A stream, the size of its pieces, and how many bytes are taken of it beyond each of its commands.
type Ahead = (&'static [u8], usize, &'static [u64]);

const AHEAD: &[Ahead] = &[
    (b"blob\ndata 1\nx\nblob\ndata 1\ny\n", 65_536, &[14, 0]),
    (b"blob\ndata 1\nx\nblob\ndata 1\ny\n", 3, &[1, 0]),
    (b"blob\ndata 1\nx\nblob\ndata 1\ny\n", 1, &[0, 0]),
    // The line behind a commit is looked at, and comments before it are skipped.
    (
        b"commit n\ncommitter A <a> 1 +0000\ndata 0\n#c\nreset m\nreset o\n",
        1,
        &[8, 8, 0],
    ),
    (
        b"commit n\ncommitter A <a> 1 +0000\ndata 0\n#c\nreset m\nreset o\n",
        65_536,
        &[16, 8, 0],
    ),
];

/// What is held beyond a command is what the source gave and no command has.
#[test]
fn bytes_ahead(rt: HostRuntime) -> Result<(), Fail> {
    let alloc = rt.alloc();
    for (number, (bytes, piece, ahead)) in AHEAD.iter().enumerate() {
        let mut reader = reader_of(alloc, Vec::from_slice(alloc, bytes)?, *piece, &[])?;
        for (place, held) in ahead.iter().enumerate() {
            let found = matches!(reader.next_command(), Ok(Some(_)));
            assert!(rt; found, "row {number}, command {place}");
            assert_eq!(rt; reader.held(), *held, "row {number}, command {place}");
        }
    }
    Ok(())
}
