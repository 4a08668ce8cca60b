// SWHIDs: published texts, what is printed of what is read, and where a text breaks.
use std::alloc::{AllocError, Global};
use std::test::Fail;
use swh_base::{Bytes, Kind};
use swh_swhid::{Swhid, SwhidFault, core_text, parse, parse_core, print};

static CORES: [(Kind, [u8; 50]); 5] = [
    (
        Kind::Content,
        *b"swh:1:cnt:94a9ed024d3859793618152ea559a168bbcbb5e2",
    ),
    (
        Kind::Directory,
        *b"swh:1:dir:d198bc9d7a6bcf6db04f476d29314f157507d505",
    ),
    (
        Kind::Revision,
        *b"swh:1:rev:309cf2674ee7a0749978cf8265ab91a60aea0f7d",
    ),
    (
        Kind::Release,
        *b"swh:1:rel:22ece559cc7cc2364edc5e5593d63ae8bd229f9f",
    ),
    (
        Kind::Snapshot,
        *b"swh:1:snp:c7c108084bc0bf3d81436bf980b46e98bd338453",
    ),
];

const QUALIFIED: &[u8] = b"swh:1:cnt:4d99d2d18326621ccdd70f5ea66c2e2ac236ad8b;\
origin=https://gitorious.org/ocamlp3l/ocamlp3l_cvs.git;\
visit=swh:1:snp:d7f1b9eb7ccb596c2622c4780febaa02549830f9;\
anchor=swh:1:rev:2db189928c94d62a3b4757b3eec68f0a4d4113f0;path=/Examples/SimpleFarm/simplefarm.ml;\
lines=9-15";

// The text with this after the core identifier of the empty content.
fn behind_empty(alloc: Global, tail: &[u8]) -> Result<Vec<u8>, AllocError> {
    let mut text = b"swh:1:cnt:e69de29bb2d1d6434b8b29ae775ad8c2e48c5391".to_vec(alloc)?;
    text.extend_from_slice(tail)?;
    Ok(text)
}

// The text that is printed of what is read.
fn reprinted(alloc: Global, text: &[u8]) -> Option<Vec<u8>> {
    let swhid = parse(alloc, text).ok()?;
    print(alloc, &swhid).ok()
}

fn prints_as(alloc: Global, text: &[u8], wanted: &[u8]) -> bool {
    match reprinted(alloc, text) {
        Some(printed) => printed.as_slice() == wanted,
        None => false,
    }
}

#[test]
fn published_cores(rt: HostRuntime) -> Result<(), Fail> {
    for (kind, text) in &CORES {
        let name = parse_core(text).ok_or("a core identifier")?;
        assert!(rt; name.kind == *kind);
        let mut out = [0; 50];
        core_text(&name, &mut out);
        assert!(rt; out == *text);
        assert!(rt; prints_as(rt.alloc(), text, text));
    }
    Ok(())
}

#[test]
fn a_published_text(rt: HostRuntime) {
    assert!(rt; prints_as(rt.alloc(), QUALIFIED, QUALIFIED));
    assert!(rt; parse_core(QUALIFIED).is_none());
}

// What stands behind the core identifier of the empty content, and how it is printed. Escapes are of either case, and of
// bytes that need none.
static PRINTED: [(&[u8], &[u8]); 6] = [
    (
        b";lines=9-15;origin=https://e.org/a%3Bb",
        b";origin=https://e.org/a%3Bb;lines=9-15",
    ),
    (b";origin=%c3%A9%7e", b";origin=%C3%A9~"),
    (b";origin=\xff=%25", b";origin=%FF=%25"),
    (b";path=/%00%20%7f", b";path=/%00%20%7F"),
    (b";bytes=0;path=/", b";path=/;bytes=0"),
    (
        b";bytes=0-0;lines=999999999999999999",
        b";lines=999999999999999999;bytes=0-0",
    ),
];

#[test]
fn what_is_printed(rt: HostRuntime) -> Result<(), Fail> {
    for (tail, wanted) in &PRINTED {
        let text = behind_empty(rt.alloc(), tail)?;
        let wanted = behind_empty(rt.alloc(), wanted)?;
        assert!(rt; prints_as(rt.alloc(), &text, &wanted));
    }
    Ok(())
}

fn is_origin(found: &Option<Bytes>, wanted: &[u8]) -> bool {
    match found {
        Some(origin) => origin.as_slice() == wanted,
        None => false,
    }
}

fn is_as_written(found: &Swhid) -> bool {
    found.core.kind == Kind::Content
        && found.lines == Some((9, Some(15)))
        && found.path.is_none()
        && is_origin(&found.origin, b"https://e.org/a;b")
}

#[test]
fn what_is_read(rt: HostRuntime) -> Result<(), Fail> {
    let text = behind_empty(rt.alloc(), b";lines=9-15;origin=https://e.org/a%3Bb")?;
    let swhid = parse(rt.alloc(), &text)?;
    assert!(rt; is_as_written(&swhid));
    Ok(())
}

// All six qualifiers in the order of this number: six choices of the first, five of the next, and so on.
fn in_order(alloc: Global, number: usize) -> Result<Vec<u8>, AllocError> {
    let mut pieces = [
        b";origin=https://e.org/a%3Bb".as_slice(),
        b";visit=swh:1:snp:d7f1b9eb7ccb596c2622c4780febaa02549830f9",
        b";anchor=swh:1:rev:2db189928c94d62a3b4757b3eec68f0a4d4113f0",
        b";path=/a%20b",
        b";lines=9-15",
        b";bytes=0",
    ];
    let mut choices = number;
    for i in 0..6 {
        pieces.swap(i, i + choices % (6 - i));
        choices /= 6 - i;
    }
    let mut text = behind_empty(alloc, b"")?;
    for piece in pieces {
        text.extend_from_slice(piece)?;
    }
    Ok(text)
}

#[test]
fn every_order_prints_as_one(rt: HostRuntime) -> Result<(), Fail> {
    let wanted = in_order(rt.alloc(), 0)?;
    for number in 0..720 {
        let text = in_order(rt.alloc(), number)?;
        assert!(rt; prints_as(rt.alloc(), &text, &wanted), "order {number}");
    }
    Ok(())
}

static CORE_PLACES: [(&[u8], u64); 7] = [
    (b"", 0),
    (b"swh:2:cnt:e69de29bb2d1d6434b8b29ae775ad8c2e48c5391", 4),
    (b"swh:1:CNT:", 6),
    (b"swh:1:rex:", 8),
    (b"swh:1:cnt:E69DE29BB2D1D6434B8B29AE775AD8C2E48C5391", 10),
    (b"swh:1:cnt:e69de29bb2d1d6434b8b29ae775ad8c2e48c539", 49),
    (b"swh:1:cnt:e69de29bb2d1d6434b8b29ae775ad8c2e48c53910", 50),
];

fn breaks_at(alloc: Global, text: &[u8], at: u64) -> bool {
    match parse(alloc, text) {
        Ok(_) => false,
        Err(fault) => fault == SwhidFault::BadText { at },
    }
}

#[test]
fn places_in_core_identifiers(rt: HostRuntime) {
    for (text, at) in &CORE_PLACES {
        assert!(rt; breaks_at(rt.alloc(), text, *at));
        assert!(rt; parse_core(text).is_none());
    }
}

// What stands behind the core identifier of the empty content. After `15-` a second number may still grow or not.
static PLACES: [(&[u8], u64); 23] = [
    (b";", 51),
    (b";key=1", 51),
    (b";branch=main", 52),
    (b";orig=https://e.org/", 55),
    (b";lines=1;lines=2", 59),
    (b";lines=9-15;", 62),
    (b";lines=0", 57),
    (b";lines=9-", 59),
    (b";lines=15-9", 61),
    (b";lines=15-09", 60),
    (b";lines=999999999999999999-1", 76),
    (b";lines=1234567890123456789", 75),
    (b";bytes=07", 58),
    (b";origin=", 58),
    (b";origin=;lines=1", 58),
    (b";origin=a b", 59),
    (b";origin=a%", 60),
    (b";origin=a%4g", 61),
    (b";path=a", 56),
    (b";path=/%zz", 58),
    (b";visit=swh:1:dir:", 63),
    (
        b";visit=swh:1:snp:d7f1b9eb7ccb596c2622c4780febaa02549830f90",
        107,
    ),
    (
        b";anchor=swh:1:cnt:e69de29bb2d1d6434b8b29ae775ad8c2e48c5391",
        64,
    ),
];

#[test]
fn places_in_qualifiers(rt: HostRuntime) -> Result<(), Fail> {
    for (tail, at) in &PLACES {
        let text = behind_empty(rt.alloc(), tail)?;
        assert!(rt; breaks_at(rt.alloc(), &text, *at));
    }
    Ok(())
}
