// Paths, as a text spells them (git-fast-import(1), filemodify).
use std::alloc::{AllocError, Global};
use std::test::Fail;
use swh_fastlex::{Word, is_path, path_before, path_word};

/// A text up to its end, and the path that it spells, if it does.
const WORDS: &[(&[u8], Option<&[u8]>)] = &[
    (b"a/b c", Some(b"a/b c")),
    (b"a\\n\"", Some(b"a\\n\"")),
    (b"a/...", Some(b"a/...")),
    (
        b"\"\\a\\b\\f\\n\\r\\t\\v\\\\\\\"\"",
        Some(b"\x07\x08\x0c\n\r\t\x0b\\\""),
    ),
    (b"\"\\303\\244\\377\"", Some(b"\xc3\xa4\xff")),
    (b"", None),
    (b"/a", None),
    (b"a/", None),
    (b"a//b", None),
    (b"a/./b", None),
    (b"..", None),
    (b"a\0b", None),
    (b"\"a\"b", None),
    (b"\"a", None),
    (b"\"\\400\"", None),
    (b"\"\\08\"", None),
    (b"\"\\x41\"", None),
    (b"\"a\\000\"", None),
];

/// A text, the path before its first space outside of quotes, and where that space is.
const SOURCES: &[(&[u8], &[u8], usize)] = &[(b"a/b c", b"a/b", 4), (b"\"a b\" c", b"a b", 6)];

fn spells(alloc: Global, text: &[u8], path: Option<&[u8]>) -> Result<bool, AllocError> {
    match (path_word(alloc, text)?, path) {
        (Word::Is(found), Some(path)) => Ok(found.as_slice() == path),
        (Word::No, None) => Ok(true),
        _ => Ok(false),
    }
}

fn is_before(alloc: Global, text: &[u8], path: &[u8], length: usize) -> Result<bool, AllocError> {
    match path_before(alloc, text, b' ')? {
        Word::Is(found) => Ok(found.length == length && found.path.as_slice() == path),
        _ => Ok(false),
    }
}

#[test]
fn words(rt: HostRuntime) -> Result<(), Fail> {
    let alloc = rt.alloc();
    for (number, (text, path)) in WORDS.iter().enumerate() {
        assert!(rt; spells(alloc, text, *path)?, "row {number}");
    }
    Ok(())
}

#[test]
fn sources(rt: HostRuntime) -> Result<(), Fail> {
    let alloc = rt.alloc();
    for (number, (text, path, length)) in SOURCES.iter().enumerate() {
        assert!(rt; is_before(alloc, text, path, *length)?, "row {number}");
    }
    Ok(())
}

#[test]
fn forms(rt: HostRuntime) {
    for (number, (text, is)) in [(b"a/b".as_slice(), true), (b"a//b", false), (b"", false)]
        .iter()
        .enumerate()
    {
        assert_eq!(rt; is_path(text), *is, "row {number}");
    }
}
