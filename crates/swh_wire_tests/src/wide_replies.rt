//! What is asked for with much to tell: it is told whole, where there is memory. Each reply is known by its length and
//! by git's id of its bytes, as another program spelled and named them.
use std::alloc::{AllocError, Global};
use std::test::Fail;
use swh_api::{Route, reply, reply_to_get, route};
use swh_base::{Bytes, Kind, Memory, Name, Namer, Reply, Request, Sha1Namer, Url, VisitKind};
use swh_graph_fixtures::add;
use swh_graph_fixtures::wide::{
    alias_body, dangling_body, folder_body, hex_of, merge_body, numbered_body,
};
use swh_replay::Replayed;

/// What an archive has.
#[derive(Clone, Copy)]
enum Held {
    /// So many visits of the origin `o`.
    Visits(u32),
    /// A snapshot of so many branches that lead nowhere.
    Branches(u32),
    /// A snapshot whose HEAD leads over so many aliases more to the empty folder.
    Aliases(u32),
    /// A merge with so many parents that are held, and so many more that are not.
    Merge(u32, u32),
    /// A folder of so many files.
    Folder(u32),
    /// A content of so many times the byte `x`, and what is above it.
    Long(usize),
}

/// What is told: the status, how many bytes, and git's id of these as a blob.
type Told = (u16, usize, &'static [u8; 40]);

/// What an archive has, and what is told of its paths.
type Row = (Held, &'static [(&'static [u8], Told)]);

const WIDE: &[Row] = &[
    (
        Held::Visits(1_000),
        &[
            (
                b"/api/1/origin/o/visits/",
                (200, 93_894, b"cc44d6b578c9cfd1c1fcdd030e940ed118701060"),
            ),
            (
                b"/api/1/origin/o/get/",
                (200, 25, b"c99faa9c368dacb80133bee2a491a5717c772bb0"),
            ),
        ],
    ),
    (
        Held::Aliases(100),
        &[
            (
                b"/api/1/snapshot/e512df5a37eb274452e3be6af9b682923c1c18e1/",
                (200, 5_502, b"c7a3e4f5d0dd62c6d5e6aeef587c4a2264618f2c"),
            ),
            (
                b"/api/1/resolve/swh:1:dir:4b825dc642cb6eb9a060e54bf8d69288fbee4904;\
anchor=swh:1:snp:e512df5a37eb274452e3be6af9b682923c1c18e1;path=//",
                (200, 82, b"c2d4f0e5e92fbbe0b33dd11fad0c3d1ca25392e3"),
            ),
        ],
    ),
    (
        Held::Merge(1_000, 0),
        &[
            (
                b"/api/1/revision/62459f30afbfa045afa2d3c4df0b8e006c8a8c57/",
                (200, 43_126, b"0238cfed5e03d5736f8b127b568effbc57ee15f4"),
            ),
            (
                b"/api/1/revision/62459f30afbfa045afa2d3c4df0b8e006c8a8c57/log/",
                (200, 4_301, b"8375aa63d78b2cc6eec2237ed871b671d2be635a"),
            ),
        ],
    ),
    // Of what a log does not list nothing need be held.
    (
        Held::Merge(99, 901),
        &[
            (
                b"/api/1/revision/26cf45c796796a0338961a852fd27a612a14eb93/",
                (200, 43_126, b"98d463b36f45c66765eee739005f66492784cdc4"),
            ),
            (
                b"/api/1/revision/26cf45c796796a0338961a852fd27a612a14eb93/log/",
                (200, 4_301, b"aa4f15841d1d66fe999ec22b2a70519696df6054"),
            ),
        ],
    ),
    (
        Held::Merge(98, 902),
        &[(
            b"/api/1/revision/575288bc89a9b6c268bde15b98a590cd671b93fe/log/",
            (404, 80, b"b2fd71823f991b7051e85a04fdb416e43e20d38b"),
        )],
    ),
    (
        Held::Branches(65_536),
        &[(
            b"/api/1/snapshot/891dd02221539efc4dfd9b7b503367bb0e70fc9e/",
            (200, 983_102, b"f1c590a440bcc3cfe93200bc58b1da6e8556e037"),
        )],
    ),
    (
        Held::Folder(100_000),
        &[
            (
                b"/api/1/directory/cb5450aaa99882ae46bafcf66f04a0aa00f8224a/",
                (200, 9_800_001, b"d57e7382e4ed21a8dbfb4a4b6a2f4434a477fd23"),
            ),
            (
                b"/api/1/directory/cb5450aaa99882ae46bafcf66f04a0aa00f8224a/099999/",
                (200, 97, b"f265c8d91d6c6778cdbc6a94612e11e720d30b32"),
            ),
        ],
    ),
    (
        Held::Long(1_048_577),
        &[
            (
                b"/api/1/raw/swh:1:cnt:ac5462351387e270a2042086c34a1ddbe11c0d19/",
                (200, 1_048_577, b"ac5462351387e270a2042086c34a1ddbe11c0d19"),
            ),
            (
                b"/api/1/cook/swh:1:cnt:ac5462351387e270a2042086c34a1ddbe11c0d19/",
                (200, 1_048_577, b"ac5462351387e270a2042086c34a1ddbe11c0d19"),
            ),
            (
                b"/api/1/cook/swh:1:rev:7704fab443db3ee70c5393d6db3c208d4e97f149/",
                (200, 1_048_884, b"5a1e92f2ce803b0da699990e6b69371a06606de8"),
            ),
        ],
    ),
];

/// The folder with that content as its file `f`, and a commit of it.
const ABOVE: &[(Kind, &[u8])] = &[
    (
        Kind::Directory,
        b"100644 f\0\
\xac\x54\x62\x35\x13\x87\xe2\x70\xa2\x04\x20\x86\xc3\x4a\x1d\xdb\xe1\x1c\x0d\x19",
    ),
    (
        Kind::Revision,
        b"tree 75815725648aa318bfc08339c07cddac9de05251\n\
author A <a@e.org> 1000000000 +0000\n\
committer A <a@e.org> 1000000000 +0000\n\
\n\
first\n",
    ),
];

fn put(alloc: Global, shown: &mut Replayed, kind: Kind, body: Vec<u8>) -> Result<Name, Fail> {
    match add(alloc, shown, kind, body) {
        Some(name) => Ok(name),
        None => Err(Fail::from("an object")),
    }
}

fn archive_of(alloc: Global, kind: Kind, body: Vec<u8>) -> Result<Replayed, Fail> {
    let mut shown = Replayed::new(alloc);
    put(alloc, &mut shown, kind, body)?;
    Ok(shown)
}

fn visited(alloc: Global, count: u32) -> Result<Replayed, Fail> {
    let mut shown = Replayed::new(alloc);
    let Ok(origin) = Url::new(alloc, "o") else {
        return Err(Fail::from("a URL"));
    };
    for _visit in 0..count {
        shown
            .visits
            .open(alloc, &origin, VisitKind::Fast, 1_000_000_000, 1)?;
    }
    Ok(shown)
}

fn aliased(alloc: Global, count: u32) -> Result<Replayed, Fail> {
    let mut shown = Replayed::new(alloc);
    let folder = put(alloc, &mut shown, Kind::Directory, Vec::new(alloc))?;
    let body = alias_body(alloc, count, Some(folder))?;
    put(alloc, &mut shown, Kind::Snapshot, body)?;
    Ok(shown)
}

fn merged(alloc: Global, held: u32, more: u32) -> Result<Replayed, Fail> {
    let mut shown = Replayed::new(alloc);
    let folder = put(alloc, &mut shown, Kind::Directory, Vec::new(alloc))?;
    let mut parents = Vec::new(alloc);
    for number in 0..held {
        let body = numbered_body(alloc, &folder, number)?;
        parents.push(put(alloc, &mut shown, Kind::Revision, body)?)?;
    }
    let body = merge_body(alloc, &folder, parents.as_slice(), more)?;
    put(alloc, &mut shown, Kind::Revision, body)?;
    Ok(shown)
}

fn long(alloc: Global, count: usize) -> Result<Replayed, Fail> {
    let mut shown = archive_of(alloc, Kind::Content, vec![in alloc; b'x'; count]?)?;
    for (kind, body) in ABOVE {
        let body = body.to_vec(alloc)?;
        put(alloc, &mut shown, *kind, body)?;
    }
    Ok(shown)
}

/// What is in memory of an archive that has this.
fn archive(alloc: Global, held: Held) -> Result<Replayed, Fail> {
    match held {
        Held::Visits(count) => visited(alloc, count),
        Held::Branches(count) => archive_of(alloc, Kind::Snapshot, dangling_body(alloc, count)?),
        Held::Aliases(count) => aliased(alloc, count),
        Held::Merge(held, more) => merged(alloc, held, more),
        Held::Folder(count) => archive_of(alloc, Kind::Directory, folder_body(alloc, count)?),
        Held::Long(count) => long(alloc, count),
    }
}

fn is_told(reply: &Reply, told: &Told) -> bool {
    let (status, length, id) = *told;
    let body = reply.body.as_slice();
    let name = Name {
        kind: Kind::Content,
        id: Sha1Namer.id(Kind::Content, body),
    };
    reply.status == status && body.len() == length && hex_of(&name) == *id
}

/// Whether each path of a row is told so.
fn is_met(alloc: Global, row: &Row) -> Result<bool, Fail> {
    let (held, paths) = *row;
    let shown = archive(alloc, held)?;
    for (path, told) in paths {
        let reply = reply_to_get(alloc, &shown, path)?;
        if !is_told(&reply, told) {
            return Ok(false);
        }
    }
    Ok(true)
}

/// The number of the first row that is told otherwise, or how many there are.
fn first_other(alloc: Global, rows: &[Row]) -> Result<usize, Fail> {
    for (number, row) in rows.iter().enumerate() {
        if !is_met(alloc, row)? {
            return Ok(number);
        }
    }
    Ok(rows.len())
}

#[test]
fn each_wide_object_is_told(rt: HostRuntime) -> Result<(), Fail> {
    assert_eq!(rt; first_other(rt.alloc(), WIDE)?, WIDE.len());
    Ok(())
}

/// Appends the quoted core identifier of an id, behind a word.
fn put_core(list: &mut Vec<u8>, word: &[u8], name: &Name) -> Result<(), AllocError> {
    list.extend_from_slice(word)?;
    list.extend_from_slice(&hex_of(name))?;
    list.extend_from_slice(b"\"")
}

/// Adds so many contents, each of the four bytes of its number, and lists each under its own name, which is held, and as a
/// directory, which is not.
fn listed(alloc: Global, shown: &mut Replayed, count: u32) -> Result<Vec<u8>, Fail> {
    let mut list = Vec::new(alloc);
    for number in 0..count {
        let body = number.to_be_bytes().to_vec(alloc)?;
        let name = put(alloc, shown, Kind::Content, body)?;
        let before: &[u8] = if number == 0 { b"[" } else { b"," };
        list.extend_from_slice(before)?;
        put_core(&mut list, b"\"swh:1:cnt:", &name)?;
        put_core(&mut list, b",\"swh:1:dir:", &name)?;
    }
    list.extend_from_slice(b"]")?;
    Ok(list)
}

fn known_request(alloc: Global, list: Vec<u8>) -> Result<Request, Memory> {
    Ok(Request {
        method: Bytes::from_slice(alloc, b"POST")?,
        path: Bytes::from_slice(alloc, b"/api/1/known/")?,
        body: Bytes::from_vec(list),
        keep: true,
    })
}

/// Whether a list of twice so many names, of which each other one is held, is told so.
fn is_known(alloc: Global, count: u32, told: &Told) -> Result<bool, Fail> {
    let mut shown = Replayed::new(alloc);
    let list = listed(alloc, &mut shown, count)?;
    let request = known_request(alloc, list)?;
    match route(alloc, &request)? {
        Route::Read => Ok(is_told(&reply(alloc, &shown, &request)?, told)),
        Route::Load { .. } => Ok(false),
    }
}

#[test]
fn a_thousand_names_are_told(rt: HostRuntime) -> Result<(), Fail> {
    let told: Told = (200, 68_501, b"c168cd289ae4bf0e74b7c0d1cb90c0dfa799092a");
    assert!(rt; is_known(rt.alloc(), 500, &told)?);
    Ok(())
}
