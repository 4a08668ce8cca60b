// Folders that are loaded, with and without a listing. The ids of contents and directories are git's, those of snapshots
// by SWHID v1.2.
use crate::folder::{Named, file_at, folder_of, items_of, listed_at};
use Laid::{Bytes, List};
use What::{File, Folder, Other};
use std::alloc::{AllocError, Global};
use std::test::Fail;
use swh_base::{Kind, Name, Sha1Namer, Which};
use swh_dedup::Objects;
use swh_dirload::{DirFault, load_folder};
use swh_memory_input::{MemoryFolder, MemorySource};
use swh_object::Object;
use swh_outside::What;

/// What is laid at a path: a folder with its list, or a file with its bytes.
#[derive(Clone, Copy)]
pub enum Laid {
    List(&'static [Named]),
    Bytes(&'static [u8]),
}

/// Paths, and what is laid there.
pub type Layout = &'static [(&'static str, Laid)];

/// A text, and the numbers of the calls of its source that fail.
type Listing = (&'static [u8], &'static [u64]);

/// The kind of an object, and its id.
type Id = (Kind, &'static [u8; 40]);

/// How a folder is loaded.
#[derive(Clone, Copy)]
enum Loading {
    /// These are its objects, in any order, and the last is the snapshot.
    Makes(&'static [Id]),
    IsNeither(&'static str),
    IsBad(u64),
    IsOver(Which, u64),
    /// So many faults of the folder are counted, and so many of the source of the listing.
    Fails(u64, u64),
}

use Loading::*;

pub fn folder_laid(
    alloc: Global,
    layout: Layout,
    failing: &[u64],
) -> Result<MemoryFolder, AllocError> {
    let mut places = Vec::new(alloc);
    for (path, laid) in layout {
        match *laid {
            List(list) => places.push(listed_at(alloc, path, items_of(alloc, list)?)?)?,
            Bytes(bytes) => {
                let bytes = Vec::from_slice(alloc, bytes)?;
                places.push(file_at(alloc, path, bytes, 2, &[])?)?
            }
        }
    }
    folder_of(alloc, places, failing)
}

fn listing_of(
    alloc: Global,
    text: &[u8],
    piece: usize,
    failing: &[u64],
) -> Result<MemorySource, AllocError> {
    let bytes = Vec::from_slice(alloc, text)?;
    let failing = Vec::from_slice(alloc, failing)?;
    Ok(MemorySource::new(String::new(alloc), bytes, piece, failing))
}

pub fn is_named(id: &[u8; 20], kind: Kind, hex: &[u8; 40]) -> bool {
    match Name::from_hex(kind, hex) {
        Some(name) => name.id == *id,
        None => false,
    }
}

fn has_id(objects: &[Object<Sha1Namer>], kind: Kind, hex: &[u8; 40]) -> bool {
    objects.iter().any(|object| {
        let name = object.name();
        name.kind == kind && is_named(&name.id, kind, hex)
    })
}

fn has_snapshot(loaded: &Objects<Sha1Namer>, ids: &[Id]) -> bool {
    match ids.last() {
        Some((kind, hex)) => is_named(&loaded.snapshot, *kind, hex),
        None => false,
    }
}

fn has_all(loaded: &Objects<Sha1Namer>, ids: &[Id]) -> bool {
    loaded.objects.len() == ids.len()
        && has_snapshot(loaded, ids)
        && ids.iter().all(|(kind, hex)| has_id(loaded.objects.as_slice(), *kind, hex))
}

fn ends_so(ended: &Result<Objects<Sha1Namer>, DirFault>, loading: Loading) -> bool {
    match (ended, loading) {
        (Ok(loaded), Makes(ids)) => has_all(loaded, ids),
        (Err(DirFault::OtherKind { path }), IsNeither(name)) => path.as_slice() == name.as_bytes(),
        (Err(DirFault::BadModes { line }), IsBad(wanted)) => *line == wanted,
        (Err(DirFault::Limit { which, number }), IsOver(wanted, most)) => {
            *which == wanted && *number == most
        }
        (Err(DirFault::ReadFault), Fails(_, _)) => true,
        _ => false,
    }
}

/// The faults of the folder and of the source that are to be counted.
fn faults_of(loading: Loading) -> (u64, u64) {
    match loading {
        Fails(folder, source) => (folder, source),
        _ => (0, 0),
    }
}

fn loads_with(
    alloc: Global,
    folder: &mut MemoryFolder,
    source: &mut MemorySource,
    loading: Loading,
) -> bool {
    let ended = load_folder(alloc, &Sha1Namer, folder, Some(&mut *source));
    let (of_folder, of_source) = faults_of(loading);
    ends_so(&ended, loading) && folder.faults() == of_folder && source.faults() == of_source
}

fn loads_plain(alloc: Global, folder: &mut MemoryFolder, loading: Loading) -> bool {
    let none: Option<&mut MemorySource> = None;
    let ended = load_folder(alloc, &Sha1Namer, folder, none);
    let (of_folder, _) = faults_of(loading);
    ends_so(&ended, loading) && folder.faults() == of_folder
}

/// What is laid, the numbers of the folder's calls that fail, the listing, and how the folder is loaded.
type Row = (Layout, &'static [u64], Listing, Loading);

const NO_FILE: Id = (Kind::Content, b"e69de29bb2d1d6434b8b29ae775ad8c2e48c5391");

const NO_ENTRY: Id = (Kind::Directory, b"4b825dc642cb6eb9a060e54bf8d69288fbee4904");

const HI: Id = (Kind::Content, b"45b983be36b73c0788dc9cbcb76cbb80fc7bb057");

const RUN: Id = (Kind::Content, b"e5224d533ef27b001224859a9b36696846a7e7fe");

pub const EMPTY: Layout = &[("", List(&[]))];

pub const TWO: Layout = &[
    ("", List(&[("run", File), ("ln", File)])),
    ("run", Bytes(b"hi\n")),
    ("ln", Bytes(b"run")),
];

/// A folder of a file, a folder with a file, and an empty folder.
const THREE: Layout = &[
    ("", List(&[("run", File), ("e", Folder), ("a", Folder)])),
    ("run", Bytes(b"hi\n")),
    ("a", List(&[("b", File)])),
    ("a/b", Bytes(b"")),
    ("e", List(&[])),
];

/// The same, and what is neither file nor folder.
pub const NEITHER: Layout = &[
    (
        "",
        List(&[
            ("z", Other),
            ("run", File),
            ("e", Folder),
            ("a.b", Other),
            ("a", Folder),
        ]),
    ),
    ("run", Bytes(b"hi\n")),
    ("a", List(&[("b", Other)])),
    ("e", List(&[])),
];

/// The same of a folder whose first item that is neither is in a folder of it.
const NEITHER_BELOW: Layout = &[
    ("", List(&[("z", Other), ("a0", Other), ("a", Folder)])),
    ("a", List(&[("c", Other), ("b", Other)])),
];

/// A file that is listed and is not there.
pub const LACKING: Layout = &[
    ("", List(&[("run", File), ("ln", File)])),
    ("run", Bytes(b"hi\n")),
];

const MADE_OF_TWO: &[Id] = &[
    HI,
    RUN,
    (Kind::Directory, b"fd1ddbd0b36255b027b7f28a48011a50332941b4"),
    (Kind::Snapshot, b"064732ac2b71aac3a64f68cba08fdbcfe3c6e935"),
];

const ROWS: &[Row] = &[
    (
        EMPTY,
        &[],
        (b"", &[]),
        Makes(&[
            NO_ENTRY,
            (Kind::Snapshot, b"fe3f4ea83a1ef269074d351f0b61313b3ed9b72d"),
        ]),
    ),
    // An empty folder is kept, and names are in the order of directories.
    (
        &[
            ("", List(&[("a", Folder), ("a0", File), ("a.b", File)])),
            ("a", List(&[])),
            ("a.b", Bytes(b"hi\n")),
            ("a0", Bytes(b"run")),
        ],
        &[],
        (b"", &[]),
        Makes(&[
            HI,
            RUN,
            NO_ENTRY,
            (Kind::Directory, b"b164041ea0d0c6f4b709804583f788903f8233db"),
            (Kind::Snapshot, b"9424fb1ba1eefeaf6585352115ac7587232820ba"),
        ]),
    ),
    (
        &[
            ("", List(&[("a", Folder)])),
            ("a", List(&[("b", Folder)])),
            ("a/b", List(&[("c", Folder)])),
            ("a/b/c", List(&[])),
        ],
        &[],
        (b"", &[]),
        Makes(&[
            NO_ENTRY,
            (Kind::Directory, b"4f973b34d02f4461d7c9935b7a3916208c402a19"),
            (Kind::Directory, b"ff2161256e81c3f88fc9942723d34524d5d1c0d0"),
            (Kind::Directory, b"33b7bf825f0d1d796605f4dc7bbf81f55f1cbfe5"),
            (Kind::Snapshot, b"56d4b7be1e8309a7697025139bb22975fe78c83c"),
        ]),
    ),
    // Names from 0x80.
    (
        &[
            (
                "",
                List(&[
                    ("日", File),
                    ("z", File),
                    ("éa", File),
                    ("é", Folder),
                    ("é.t", File),
                ]),
            ),
            ("é", List(&[("u", File)])),
            ("é/u", Bytes(b"1\n")),
            ("é.t", Bytes(b"2\n")),
            ("éa", Bytes(b"3\n")),
            ("日", Bytes(b"4\n")),
            ("z", Bytes(b"5\n")),
        ],
        &[],
        (b"", &[]),
        Makes(&[
            (Kind::Content, b"d00491fd7e5bb6fa28c517a0bb32b8b506539d4d"),
            (Kind::Content, b"0cfbf08886fca9a91cb753ec8734c84fcbe52c9f"),
            (Kind::Content, b"00750edc07d6415dcc07ae0351e9397b0222b7ba"),
            (Kind::Content, b"b8626c4cff2849624fb67f87cd0ad72b163671ad"),
            (Kind::Content, b"7ed6ff82de6bcc2a78243fc9c54d3ef5ac14da69"),
            (Kind::Directory, b"23a8a70d25f3dbf768c4e177a6b209e986eb1d27"),
            (Kind::Directory, b"d8032745525dcde9f57548dc09d380a2ab7eb5bd"),
            (Kind::Snapshot, b"d4409753616615c6585fe3f0a3b8116ddd56ff19"),
        ]),
    ),
    // What stands at several places is one object.
    (
        &[
            ("", List(&[("a", Folder), ("b", Folder), ("f", File)])),
            ("a", List(&[("f", File)])),
            ("b", List(&[("f", File)])),
            ("f", Bytes(b"hi\n")),
            ("a/f", Bytes(b"hi\n")),
            ("b/f", Bytes(b"hi\n")),
        ],
        &[],
        (b"", &[]),
        Makes(&[
            HI,
            (Kind::Directory, b"df55a7dce59d040dc7819c1e241082965a80ebd9"),
            (Kind::Directory, b"d329ccfb3d756d02826b85aaec25594d91c85630"),
            (Kind::Snapshot, b"5b2faaacf97a6c01eece136b9c3312ba465c56d5"),
        ]),
    ),
    (
        TWO,
        &[],
        (b"", &[]),
        Makes(&[
            HI,
            RUN,
            (Kind::Directory, b"bd73a593f9ed1806804b962aeaf0b5957ceb38e1"),
            (Kind::Snapshot, b"e10c7026d6dc7c021219b19b52adc031094cd5da"),
        ]),
    ),
    // A program, a link, and projects where nothing stands.
    (
        TWO,
        &[],
        (b"100755 run\n120000 ln\n", &[]),
        Makes(MADE_OF_TWO),
    ),
    (
        EMPTY,
        &[],
        (b"160000 0123456789abcdef0123456789abcdef01234567 p\n", &[]),
        Makes(&[
            (Kind::Directory, b"d115a1564bf39a434ef4ef5ffffaf90d438f7d51"),
            (Kind::Snapshot, b"ac450bb3a83627e5c86f517445f22c16789f2b8d"),
        ]),
    ),
    (
        THREE,
        &[],
        (
            b"100755 a/b\n160000 0123456789abcdef0123456789abcdef01234567 p\n\
160000 0123456789abcdef0123456789abcdef01234567 \"a/\\377\"\n\
160000 0123456789abcdef0123456789abcdef01234567 e/p\n",
            &[],
        ),
        Makes(&[
            HI,
            NO_FILE,
            (Kind::Directory, b"cf33f30f5ce69e1aa9aa0e4ae7ac4dbc13a96d4e"),
            (Kind::Directory, b"d115a1564bf39a434ef4ef5ffffaf90d438f7d51"),
            (Kind::Directory, b"0368705e2c9656150320d43eee49bb476824c335"),
            (Kind::Snapshot, b"37cfc8d2ea4a00ff7fd4df88c01a387a5c7189dd"),
        ]),
    ),
    // The first item of the walk that is neither, before a file that is not there and before the listing's faults.
    (NEITHER, &[], (b"", &[]), IsNeither("a.b")),
    (NEITHER, &[], (b"x\n", &[0]), IsNeither("a.b")),
    (NEITHER_BELOW, &[], (b"x\n", &[]), IsNeither("a/b")),
    // A file that is not read, before the listing's faults.
    (LACKING, &[], (b"x\n", &[]), Fails(1, 0)),
    // Each call of the folder, three that list and two that open files, and the one after them.
    (THREE, &[0], (b"x\n", &[]), Fails(1, 0)),
    (THREE, &[1], (b"x\n", &[]), Fails(1, 0)),
    (THREE, &[2], (b"x\n", &[]), Fails(1, 0)),
    (THREE, &[3], (b"x\n", &[]), Fails(1, 0)),
    (THREE, &[4], (b"x\n", &[]), Fails(1, 0)),
    (THREE, &[5], (b"x\n", &[]), IsBad(1)),
    // Behind a line that may not come nothing more is read: the source's next call would fail.
    (TWO, &[], (b"x\n100755 run\n120000 ln\n", &[1]), IsBad(1)),
    // Lines that may not come, and each call of the source, two for its bytes and one for its end, and the one after them.
    (
        TWO,
        &[],
        (b"100755 run\n120000 ln\n100755 no\n", &[]),
        IsBad(3),
    ),
    (TWO, &[], (b"100755 run\n120000 ln", &[]), IsBad(2)),
    (
        THREE,
        &[],
        (b"160000 0123456789abcdef0123456789abcdef01234567 e\n", &[]),
        IsBad(1),
    ),
    (TWO, &[], (b"100755 run\n120000 ln\n", &[0]), Fails(0, 1)),
    (TWO, &[], (b"100755 run\n120000 ln\n", &[1]), Fails(0, 1)),
    (TWO, &[], (b"100755 run\n120000 ln\n", &[2]), Fails(0, 1)),
    (
        TWO,
        &[],
        (b"100755 run\n120000 ln\n", &[3]),
        Makes(MADE_OF_TWO),
    ),
];

/// Fails with the number of the first row, from 0, that ends in another way.
#[test]
fn folders_are_loaded(rt: HostRuntime) -> Result<(), Fail> {
    for (number, (layout, failing, (text, calls), loading)) in ROWS.iter().enumerate() {
        let mut folder = folder_laid(rt.alloc(), layout, failing)?;
        let mut source = listing_of(rt.alloc(), text, 16, calls)?;
        if !loads_with(rt.alloc(), &mut folder, &mut source, *loading) {
            return Err(Fail::new(number));
        }
    }
    Ok(())
}

/// What is laid, the numbers of the folder's calls that fail, and how the folder is loaded.
const PLAIN: &[(Layout, &[u64], Loading)] = &[
    (
        TWO,
        &[],
        Makes(&[
            HI,
            RUN,
            (Kind::Directory, b"bd73a593f9ed1806804b962aeaf0b5957ceb38e1"),
            (Kind::Snapshot, b"e10c7026d6dc7c021219b19b52adc031094cd5da"),
        ]),
    ),
    (NEITHER, &[], IsNeither("a.b")),
    (LACKING, &[], Fails(1, 0)),
    (TWO, &[0], Fails(1, 0)),
    (TWO, &[2], Fails(1, 0)),
];

/// Folders that have no listing.
#[test]
fn folders_are_loaded_alone(rt: HostRuntime) -> Result<(), Fail> {
    for (number, (layout, failing, loading)) in PLAIN.iter().enumerate() {
        let mut folder = folder_laid(rt.alloc(), layout, failing)?;
        if !loads_plain(rt.alloc(), &mut folder, *loading) {
            return Err(Fail::new(number));
        }
    }
    Ok(())
}

/// What is laid, what stands before a path that is too long in the listing, and how the folder is loaded.
const LONG: &[(Layout, &[u8], Loading)] = &[
    (TWO, b"120000 ln\n", IsOver(Which::Path, 65_536)),
    (TWO, b"120000 no\n", IsBad(1)),
    (NEITHER, b"", IsNeither("a.b")),
    (LACKING, b"", Fails(1, 0)),
];

/// A limit of the listing stands behind the folder's faults and behind a line that may not come.
#[test]
fn a_path_that_is_too_long(rt: HostRuntime) -> Result<(), Fail> {
    for (number, (layout, front, loading)) in LONG.iter().enumerate() {
        let mut text = Vec::from_slice(rt.alloc(), front)?;
        text.extend_from_slice(b"100755 ")?;
        text.extend_from_slice(Vec::from_elem(rt.alloc(), b'a', 65_536)?.as_slice())?;
        text.push(b'\n')?;
        let mut folder = folder_laid(rt.alloc(), layout, &[])?;
        let mut source = listing_of(rt.alloc(), text.as_slice(), 4_096, &[])?;
        if !loads_with(rt.alloc(), &mut folder, &mut source, *loading) {
            return Err(Fail::new(number));
        }
    }
    Ok(())
}
