// Limits of the words in a line, exact and one above.
use crate::lines::letters;
use std::alloc::{AllocError, Global};
use std::test::Fail;
use swh_base::Which;
use swh_fastlex::{Word, path_word};
use swh_fastlines::{ChangeLine, change_line, word_limit};

/// The front of a line, how many letters follow it, what stands behind them, and the limit that the line passes.
type Row = (&'static [u8], usize, &'static [u8], Option<(Which, u64)>);

const LINES: &[Row] = &[
    (b"from ", 1_024, b"", None),
    (b"from ", 1_025, b"", Some((Which::Ref, 1_025))),
    (b"from ", 1_025, b"^a", Some((Which::Ref, 1_025))),
    (b"commit ", 1_025, b" ", Some((Which::Ref, 1_025))),
    (b"reset ", 1_024, b"", None),
    (b"merge ", 1_025, b"", Some((Which::Ref, 1_025))),
    (b"tag ", 1_014, b"", None),
    (b"tag ", 1_015, b"", Some((Which::Ref, 1_015))),
    (b"D ", 65_535, b"", None),
    (b"D ", 65_536, b"", Some((Which::Path, 65_536))),
    (b"D \"", 65_534, b"\\170\"", None),
    (b"D \"", 65_535, b"\\170\"", Some((Which::Path, 65_536))),
    (b"M 100644 :1 ", 65_536, b"", Some((Which::Path, 65_536))),
    (b"M 777 :1 ", 65_536, b"", None),
    (b"C a ", 65_536, b"", Some((Which::Path, 65_536))),
    (b"R ", 65_536, b" a", Some((Which::Path, 65_536))),
    (b"data 67108864", 0, b"", None),
    (b"data 67108865", 0, b"", Some((Which::Body, 67_108_865))),
    (b"data 9999999999999999999", 0, b"", None),
    (b"data <<67108865", 0, b"", None),
    (b"from :1", 0, b"", None),
];

#[test]
fn limits_of_lines(rt: HostRuntime) -> Result<(), Fail> {
    let alloc = rt.alloc();
    for (number, (front, count, back, limit)) in LINES.iter().enumerate() {
        let line = letters(alloc, front, *count, back)?;
        assert_eq!(rt; word_limit(alloc, line.as_slice())?, *limit, "row {number}");
    }
    Ok(())
}

/// The same of a path alone: the number of its bytes where these are too many. Octal digits count as the byte that they
/// spell, also where the path would be none.
const PATHS: &[(&[u8], usize, Option<u64>)] = &[
    (b"", 65_535, None),
    (b"/", 65_535, Some(65_536)),
    (b"\"\\000", 65_534, None),
    (b"\"\\000", 65_535, Some(65_536)),
];

fn too_many(alloc: Global, text: &[u8]) -> Result<Option<u64>, AllocError> {
    match path_word(alloc, text)? {
        Word::Over(number) => Ok(Some(number)),
        _ => Ok(None),
    }
}

#[test]
fn longest_paths(rt: HostRuntime) -> Result<(), Fail> {
    let alloc = rt.alloc();
    for (number, (front, count, over)) in PATHS.iter().enumerate() {
        let text = letters(alloc, front, *count, b"")?;
        assert_eq!(rt; too_many(alloc, text.as_slice())?, *over, "row {number}");
    }
    Ok(())
}

/// A change's line tells it too.
#[test]
fn a_change_with_a_long_path(rt: HostRuntime) -> Result<(), Fail> {
    let alloc = rt.alloc();
    let line = letters(alloc, b"D ", 65_536, b"")?;
    match change_line(alloc, line.as_slice())? {
        ChangeLine::Over(number) => assert_eq!(rt; number, 65_536),
        _ => assert!(rt; false),
    }
    Ok(())
}
