// Files of folders. The ids are git's.
use crate::folder::{file_at, folder_of, item_of, listed_at};
use What::{File, Folder};
use std::alloc::{AllocError, Global};
use std::test::Fail;
use swh_base::{Kind, Name, Sha1Namer, Which};
use swh_dirload::{DirFault, read_files, walk};
use swh_dirmade::{Given, Member};
use swh_memory_input::{MemoryFolder, PathItem as Laid};
use swh_outside::What;

/// `hello` and an LF.
const HELLO: &[u8; 40] = b"ce013625030ba8dba906f756967f9e9ca394464a";

const EMPTY: &[u8; 40] = b"e69de29bb2d1d6434b8b29ae775ad8c2e48c5391";

/// 67,108,864 zeros.
const ZEROS: &[u8; 40] = b"51c513d36451ab389b5b3e9bca9b478b84a2e2ce";

/// A path, the bytes of the file there, and the numbers of the calls on its source that fail.
type Filed = (&'static str, &'static [u8], &'static [u64]);

/// Lists of a folder with a folder `a` of two files, a file `b`, and an empty folder `e`.
fn places_of(alloc: Global, files: &[Filed]) -> Result<Vec<Laid>, AllocError> {
    let mut items = Vec::new(alloc);
    items.push(item_of(alloc, "e", Folder)?)?;
    items.push(item_of(alloc, "b", File)?)?;
    items.push(item_of(alloc, "a", Folder)?)?;
    let mut below = Vec::new(alloc);
    below.push(item_of(alloc, "d", File)?)?;
    below.push(item_of(alloc, "c", File)?)?;
    let mut places = Vec::new(alloc);
    places.push(listed_at(alloc, "", items)?)?;
    places.push(listed_at(alloc, "a", below)?)?;
    places.push(listed_at(alloc, "e", Vec::new(alloc))?)?;
    for (path, bytes, failing) in files {
        let bytes = Vec::from_slice(alloc, bytes)?;
        places.push(file_at(alloc, path, bytes, 2, failing)?)?;
    }
    Ok(places)
}

/// How the reading of a folder ends.
#[derive(Clone, Copy)]
enum Read {
    /// These stand there, in the order of the walk; the contents are these.
    Finds(&'static [Option<&'static [u8; 40]>], &'static [&'static [u8; 40]]),
    IsOver(Which, u64),
    Fails,
}

use Read::*;

fn is_named(id: &[u8; 20], hex: &[u8; 40]) -> bool {
    match Name::from_hex(Kind::Content, hex) {
        Some(name) => name.id == *id,
        None => false,
    }
}

fn stands(place: Member, wanted: Option<&[u8; 40]>) -> bool {
    match (place, wanted) {
        (Member::File { mode: 100_644, id }, Some(hex)) => is_named(&id, hex),
        (Member::Folder, None) => true,
        _ => false,
    }
}

fn all_stand(places: &[Member], wanted: &[Option<&[u8; 40]>]) -> bool {
    places.len() == wanted.len() && places.iter().zip(wanted).all(|(a, b)| stands(*a, *b))
}

fn are_contents(given: Given<Sha1Namer>, wanted: &[&[u8; 40]]) -> bool {
    let objects = given.into_objects();
    objects.len() == wanted.len()
        && objects
            .iter()
            .zip(wanted)
            .all(|(object, hex)| is_named(&object.name().id, hex))
}

fn ends_so(ended: Result<Vec<Member>, DirFault>, given: Given<Sha1Namer>, read: Read) -> bool {
    match (ended, read) {
        (Ok(places), Finds(wanted, contents)) => {
            all_stand(places.as_slice(), wanted) && are_contents(given, contents)
        }
        (Err(DirFault::Limit { which, number }), IsOver(wanted, most)) => {
            which == wanted && number == most
        }
        (Err(DirFault::ReadFault), Fails) => true,
        _ => false,
    }
}

fn reads_so(alloc: Global, folder: &mut MemoryFolder, read: Read) -> bool {
    let Ok(found) = walk(alloc, folder) else {
        return false;
    };
    let mut given = Given::new(alloc);
    let ended = read_files(alloc, &Sha1Namer, folder, found.as_slice(), &mut given);
    let faults = match read {
        Fails => 1,
        _ => 0,
    };
    ends_so(ended, given, read) && folder.faults() == faults
}

/// Files, the numbers of the folder's calls that fail, and how the reading ends. Three calls list.
type Row = (&'static [Filed], &'static [u64], Read);

const GOOD: Read = Finds(
    &[None, None, Some(HELLO), Some(EMPTY), Some(HELLO), None],
    &[HELLO, EMPTY],
);

const ROWS: &[Row] = &[
    (
        &[
            ("a/c", b"hello\n", &[]),
            ("a/d", b"", &[]),
            ("b", b"hello\n", &[]),
        ],
        &[],
        GOOD,
    ),
    // Each call of the folder that opens a file, and the one after them.
    (
        &[
            ("a/c", b"hello\n", &[]),
            ("a/d", b"", &[]),
            ("b", b"hello\n", &[]),
        ],
        &[3],
        Fails,
    ),
    (
        &[
            ("a/c", b"hello\n", &[]),
            ("a/d", b"", &[]),
            ("b", b"hello\n", &[]),
        ],
        &[4],
        Fails,
    ),
    (
        &[
            ("a/c", b"hello\n", &[]),
            ("a/d", b"", &[]),
            ("b", b"hello\n", &[]),
        ],
        &[5],
        Fails,
    ),
    (
        &[
            ("a/c", b"hello\n", &[]),
            ("a/d", b"", &[]),
            ("b", b"hello\n", &[]),
        ],
        &[6],
        GOOD,
    ),
    // Each call on a file, three for its bytes and one for its end, and the one after them.
    (
        &[
            ("a/c", b"hello\n", &[0]),
            ("a/d", b"", &[]),
            ("b", b"hello\n", &[]),
        ],
        &[],
        Fails,
    ),
    (
        &[
            ("a/c", b"hello\n", &[2]),
            ("a/d", b"", &[]),
            ("b", b"hello\n", &[]),
        ],
        &[],
        Fails,
    ),
    (
        &[
            ("a/c", b"hello\n", &[3]),
            ("a/d", b"", &[]),
            ("b", b"hello\n", &[]),
        ],
        &[],
        Fails,
    ),
    (
        &[
            ("a/c", b"hello\n", &[4]),
            ("a/d", b"", &[]),
            ("b", b"hello\n", &[]),
        ],
        &[],
        GOOD,
    ),
    // A file that is listed and is not there.
    (&[("a/c", b"hello\n", &[]), ("a/d", b"", &[])], &[], Fails),
];

/// Fails with the number of the first row, from 0, that ends in another way.
#[test]
fn files_are_read(rt: HostRuntime) -> Result<(), Fail> {
    for (number, (files, failing, read)) in ROWS.iter().enumerate() {
        let mut folder = folder_of(rt.alloc(), places_of(rt.alloc(), files)?, failing)?;
        if !reads_so(rt.alloc(), &mut folder, *read) {
            return Err(Fail::new(number));
        }
    }
    Ok(())
}

/// A folder of one file with so many zeros.
fn zeros(alloc: Global, count: usize) -> Result<MemoryFolder, AllocError> {
    let mut items = Vec::new(alloc);
    items.push(item_of(alloc, "z", File)?)?;
    let mut places = Vec::new(alloc);
    places.push(listed_at(alloc, "", items)?)?;
    let bytes = Vec::from_elem(alloc, 0, count)?;
    places.push(file_at(alloc, "z", bytes, 65_536, &[])?)?;
    folder_of(alloc, places, &[])
}

/// A file may have 67,108,864 bytes.
#[test]
fn the_longest_file(rt: HostRuntime) -> Result<(), Fail> {
    let mut folder = zeros(rt.alloc(), 67_108_864)?;
    assert!(rt;
        reads_so(
            rt.alloc(),
            &mut folder,
            Finds(&[None, Some(ZEROS)], &[ZEROS])
        )
    );
    Ok(())
}

#[test]
fn a_file_of_one_byte_more(rt: HostRuntime) -> Result<(), Fail> {
    let mut folder = zeros(rt.alloc(), 67_108_865)?;
    assert!(rt; reads_so(rt.alloc(), &mut folder, IsOver(Which::Body, 67_108_865)));
    Ok(())
}
