// Lines that are left out, lines that open data, and the words in lines (git-fast-import(1), commands).
use std::alloc::{AllocError, Global};
use std::test::Fail;
use swh_fastgrammar::Commitish;
use swh_fastlex::Word;
use swh_fastlines::{
    DataLine, commit_word, data_line, id_of, is_encoding, is_left_out, is_zeros, mark_of, mode_of,
    ref_word, tag_word,
};

/// A line, and whether it is left out.
const LEFT_OUT: &[(&[u8], bool)] = &[
    (b"N inline :1", true),
    (b"get-mark :1", true),
    (b"alias", true),
    (b"feature date-format=now", true),
    (b"feature done ", true),
    (b"M 040000 4b825dc642cb6eb9a060e54bf8d69288fbee4904 d", true),
    (b"feature done", false),
    (b"lsx", false),
    (b"commit refs/heads/main", false),
];

#[test]
fn lines_left_out(rt: HostRuntime) {
    for (number, (line, is)) in LEFT_OUT.iter().enumerate() {
        assert_eq!(rt; is_left_out(line), *is, "row {number}");
    }
}

/// The data that a line opens.
#[derive(Clone, Copy)]
enum Opened {
    Counted(u64),
    Delimited(&'static [u8]),
    No,
}

const DATA: &[(&[u8], Opened)] = &[
    (b"data 0", Opened::Counted(0)),
    (b"data 000000000000000012", Opened::Counted(12)),
    (b"data <<EOF", Opened::Delimited(b"EOF")),
    (b"data <<<", Opened::Delimited(b"<")),
    (b"data 1234567890123456789", Opened::No),
    (b"data <<", Opened::No),
    (b"data <EOF", Opened::No),
    (b"data -1", Opened::No),
    (b"data", Opened::No),
];

fn opens(line: &[u8], opened: Opened) -> bool {
    match (data_line(line), opened) {
        (DataLine::Counted(count), Opened::Counted(wanted)) => count == wanted,
        (DataLine::Delimited(word), Opened::Delimited(wanted)) => word == wanted,
        (DataLine::No, Opened::No) => true,
        _ => false,
    }
}

#[test]
fn data_lines(rt: HostRuntime) {
    for (number, (line, opened)) in DATA.iter().enumerate() {
        assert!(rt; opens(line, *opened), "row {number}");
    }
}

/// A text, the mark that it is, and the mode.
const NUMBERS: &[(&[u8], Option<u64>, Option<u32>)] = &[
    (b"007", Some(7), None),
    (b"0", None, None),
    (b"644", Some(644), Some(100_644)),
    (b"100644", Some(100_644), Some(100_644)),
    (b"755", Some(755), Some(100_755)),
    (b"100755", Some(100_755), Some(100_755)),
    (b"120000", Some(120_000), Some(120_000)),
    (b"160000", Some(160_000), None),
    (b"", None, None),
];

#[test]
fn numbers(rt: HostRuntime) {
    for (number, (text, mark, mode)) in NUMBERS.iter().enumerate() {
        assert_eq!(rt; mark_of(text), *mark, "row {number}");
        assert_eq!(rt; mode_of(text), *mode, "row {number}");
    }
}

/// A text, and whether it is an encoding, an id, and that of forty zeros.
const TEXTS: &[(&[u8], bool, bool, bool)] = &[
    (b"iso-8859-1", true, false, false),
    (b"", false, false, false),
    (b"a\0", false, false, false),
    (
        b"0000000000000000000000000000000000000000",
        true,
        true,
        true,
    ),
    (
        b"000000000000000000000000000000000000000",
        true,
        false,
        false,
    ),
    (
        b"4b825dc642cb6eb9a060e54bf8d69288fbee4904",
        true,
        true,
        false,
    ),
    (
        b"4B825DC642CB6EB9A060E54BF8D69288FBEE4904",
        true,
        false,
        false,
    ),
];

#[test]
fn texts(rt: HostRuntime) {
    for (number, (text, encoding, id, zeros)) in TEXTS.iter().enumerate() {
        assert_eq!(rt; is_encoding(text), *encoding, "row {number}");
        assert_eq!(rt; id_of(text).is_some(), *id, "row {number}");
        assert_eq!(rt; is_zeros(text), *zeros, "row {number}");
    }
}

/// What a text names.
#[derive(Clone, Copy, Debug, PartialEq, Eq)]
enum Named {
    /// A mark.
    Mark(u64),
    /// A ref of so many bytes.
    Ref(usize),
    Over(u64),
    No,
}

const COMMITS: &[(&[u8], Named)] = &[
    (b":5", Named::Mark(5)),
    (b"refs/heads/a", Named::Ref(12)),
    (b"refs/heads/a^0", Named::Ref(12)),
    (b"refs/heads/a^1", Named::No),
    (b"^0", Named::No),
    (b":0", Named::No),
];

fn commit_named(alloc: Global, text: &[u8]) -> Result<Named, AllocError> {
    match commit_word(alloc, text)? {
        Word::Is(Commitish::Mark(mark)) => Ok(Named::Mark(mark)),
        Word::Is(Commitish::Branch(name)) => Ok(Named::Ref(name.as_slice().len())),
        Word::Over(number) => Ok(Named::Over(number)),
        Word::No => Ok(Named::No),
    }
}

#[test]
fn commits(rt: HostRuntime) -> Result<(), Fail> {
    let alloc = rt.alloc();
    for (number, (text, named)) in COMMITS.iter().enumerate() {
        assert_eq!(rt; commit_named(alloc, text)?, *named, "row {number}");
    }
    Ok(())
}

/// How many letters, what stands behind them, and what a ref and a tag's name of them are.
const REFS: &[(usize, &[u8], Named, Named)] = &[
    (0, b"", Named::No, Named::No),
    (1, b" b", Named::No, Named::No),
    (1_014, b"", Named::Ref(1_014), Named::Ref(1_014)),
    (1_015, b"", Named::Ref(1_015), Named::Over(1_015)),
    (1_024, b"", Named::Ref(1_024), Named::Over(1_024)),
    (1_025, b" ", Named::Over(1_025), Named::Over(1_025)),
];

fn ref_named(alloc: Global, text: &[u8]) -> Result<Named, AllocError> {
    match ref_word(alloc, text)? {
        Word::Is(name) => Ok(Named::Ref(name.as_slice().len())),
        Word::Over(number) => Ok(Named::Over(number)),
        Word::No => Ok(Named::No),
    }
}

fn tag_named(alloc: Global, text: &[u8]) -> Result<Named, AllocError> {
    match tag_word(alloc, text)? {
        Word::Is(name) => Ok(Named::Ref(name.as_slice().len())),
        Word::Over(number) => Ok(Named::Over(number)),
        Word::No => Ok(Named::No),
    }
}

#[test]
fn refs(rt: HostRuntime) -> Result<(), Fail> {
    let alloc = rt.alloc();
    for (number, (count, back, name, tag)) in REFS.iter().enumerate() {
        let mut text = Vec::from_elem(alloc, b'a', *count)?;
        text.extend_from_slice(back)?;
        assert_eq!(rt; ref_named(alloc, text.as_slice())?, *name, "row {number}");
        assert_eq!(rt; tag_named(alloc, text.as_slice())?, *tag, "row {number}");
    }
    Ok(())
}
