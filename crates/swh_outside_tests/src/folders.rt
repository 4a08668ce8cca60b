// Folders in memory.
use std::alloc::{AllocError, Global};
use std::sync::ArcSlice;
use std::test::Fail;
use swh_memory_input::{FolderInput, MemoryFolder, MemoryOrigins, MemorySource, PathItem, Stands};
use swh_outside::{Folder, Item, Opened, Origins, Source, What};

/// A name in a list, and what stands under it.
type Named = (&'static str, What);

/// What is laid at a path.
#[derive(Clone, Copy)]
enum Laid {
    /// A file in pieces of 2, of whose calls those with these numbers fail.
    FileOf(&'static [u8], &'static [u64]),
    ListOf(&'static [Named]),
}

use Laid::*;

fn item_of(alloc: Global, (name, what): Named) -> Result<Item, AllocError> {
    let name = String::from_str(alloc, name)?;
    Ok(Item { name, what })
}

fn items_of(alloc: Global, list: &[Named]) -> Result<Vec<Item>, AllocError> {
    let mut items = Vec::new(alloc);
    for named in list {
        items.push(item_of(alloc, *named)?)?;
    }
    Ok(items)
}

fn stands_of(alloc: Global, laid: Laid) -> Result<Stands, AllocError> {
    match laid {
        FileOf(bytes, failing) => Ok(Stands::File {
            bytes: Vec::from_slice(alloc, bytes)?,
            piece: 2,
            failing: Vec::from_slice(alloc, failing)?,
        }),
        ListOf(list) => Ok(Stands::Folder(items_of(alloc, list)?)),
    }
}

fn places_of(alloc: Global, tree: &[(&str, Laid)]) -> Result<ArcSlice<PathItem>, AllocError> {
    let mut places = Vec::new(alloc);
    for (path, laid) in tree {
        let path = String::from_str(alloc, path)?;
        let stands = stands_of(alloc, *laid)?;
        places.push(PathItem { path, stands })?;
    }
    ArcSlice::from_vec(places)
}

/// A folder of an empty one, a file that is read well, one that fails once, and one that is listed and is not there.
const TREE: &[(&str, Laid)] = &[
    (
        "",
        ListOf(&[
            ("b", What::File),
            ("a", What::Folder),
            ("x", What::Other),
            ("gone", What::File),
        ]),
    ),
    ("b", FileOf(b"abc", &[])),
    ("a", ListOf(&[("c", What::File), ("none", What::Folder)])),
    ("a/c", FileOf(b"de", &[1])),
    ("a/none", ListOf(&[])),
    // Of two at a path the first counts.
    ("b", FileOf(b"no", &[])),
    // Names that no list may have.
    ("empty", ListOf(&[("", What::File)])),
    ("here", ListOf(&[(".", What::Folder)])),
    ("above", ListOf(&[("..", What::Folder)])),
    ("deep", ListOf(&[("a/b", What::File)])),
    ("nul", ListOf(&[("a\0", What::File)])),
    (
        "twice",
        ListOf(&[("a", What::File), ("b", What::File), ("a", What::Folder)]),
    ),
];

/// A call on the folder, and how it ends.
#[derive(Clone, Copy)]
enum Act {
    Lists(&'static str, &'static [Named]),
    ListsNot(&'static str),
    /// The file is read whole.
    Reads(&'static str, &'static [u8]),
    /// The file is opened, gives these bytes, and then a call on its source fails.
    Breaks(&'static str, &'static [u8]),
    ReadsNot(&'static str),
    Faults(u64),
}

use Act::*;

fn is_named(item: &Item, (name, what): Named) -> bool {
    item.name.as_str() == name && item.what == what
}

fn lists(alloc: Global, folder: &mut MemoryFolder, dir: &str, list: &[Named]) -> bool {
    match folder.list(alloc, dir) {
        Ok(items) => {
            items.len() == list.len() && items.iter().zip(list).all(|(a, b)| is_named(a, *b))
        }
        Err(_) => false,
    }
}

/// Whether the source gives these bytes and then its end; none where a call fails.
fn gives(source: &mut MemorySource, whole: &[u8]) -> Option<bool> {
    let mut rest = whole;
    for _ in 0..8 {
        let mut out = [0; 4];
        let Ok(count) = source.get(&mut out) else {
            return None;
        };
        match rest.split_at_checked(count) {
            Some((front, behind)) if front == &out[..count] => rest = behind,
            _ => return Some(false),
        }
    }
    Some(rest.is_empty())
}

/// What `gives` says of a file that is opened and given back; `otherwise` where it is not opened.
fn read_so(folder: &mut MemoryFolder, path: &str, whole: &[u8]) -> Option<bool> {
    let Ok(mut source) = folder.read(path) else {
        return Some(false);
    };
    let given = gives(&mut source, whole);
    folder.back(source);
    given
}

fn does(alloc: Global, folder: &mut MemoryFolder, act: Act) -> bool {
    match act {
        Lists(dir, list) => lists(alloc, folder, dir, list),
        ListsNot(dir) => folder.list(alloc, dir).is_err(),
        Reads(path, whole) => read_so(folder, path, whole) == Some(true),
        Breaks(path, front) => read_so(folder, path, front).is_none(),
        ReadsNot(path) => folder.read(path).is_err(),
        Faults(count) => folder.faults() == count,
    }
}

/// Fails with the number of the first act, from 0, that ends in another way.
fn all_done(alloc: Global, folder: &mut MemoryFolder, acts: &[Act]) -> Result<(), Fail> {
    for (number, act) in acts.iter().enumerate() {
        if !does(alloc, folder, *act) {
            return Err(Fail::new(number));
        }
    }
    Ok(())
}

fn folder_of(alloc: Global, failing: &[u64]) -> Result<MemoryFolder, AllocError> {
    let path = String::from_str(alloc, "in")?;
    let places = places_of(alloc, TREE)?;
    Ok(MemoryFolder::new(alloc, path, places, Vec::from_slice(alloc, failing)?))
}

const ACTS: &[Act] = &[
    Lists(
        "",
        &[
            ("b", What::File),
            ("a", What::Folder),
            ("x", What::Other),
            ("gone", What::File),
        ],
    ),
    Lists("a", &[("c", What::File), ("none", What::Folder)]),
    Lists("a/none", &[]),
    Reads("b", b"abc"),
    Faults(0),
    Breaks("a/c", b"de"),
    Faults(1),
    ListsNot("b"),
    ListsNot("a/"),
    ListsNot("gone"),
    ReadsNot("a"),
    ReadsNot("gone"),
    ReadsNot(""),
    Faults(7),
    ListsNot("empty"),
    ListsNot("here"),
    ListsNot("above"),
    ListsNot("deep"),
    ListsNot("nul"),
    ListsNot("twice"),
    Faults(13),
    Reads("b", b"abc"),
    Faults(13),
];

#[test]
fn a_folder_holds_its_places(rt: HostRuntime) -> Result<(), Fail> {
    let mut folder = folder_of(rt.alloc(), &[])?;
    all_done(rt.alloc(), &mut folder, ACTS)
}

const FAILING: &[Act] = &[
    Lists("a/none", &[]),
    ReadsNot("b"),
    Faults(1),
    Reads("b", b"abc"),
    ListsNot("a/none"),
    Faults(2),
    Lists("a/none", &[]),
    Faults(2),
];

/// The second and the fourth call of the folder fail. Calls on a source are none of the folder's.
#[test]
fn chosen_calls_fail(rt: HostRuntime) -> Result<(), Fail> {
    let mut folder = folder_of(rt.alloc(), &[1, 3])?;
    all_done(rt.alloc(), &mut folder, FAILING)
}

fn origins_of(alloc: Global) -> Result<MemoryOrigins, AllocError> {
    let mut folders = Vec::new(alloc);
    folders.push(FolderInput {
        path: String::from_str(alloc, "in")?,
        places: places_of(alloc, TREE)?,
        failing: Vec::from_slice(alloc, &[0])?,
    })?;
    let failing = Vec::from_slice(alloc, &[2])?;
    Ok(MemoryOrigins::with_folders(alloc, Vec::new(alloc), folders, failing))
}

/// The folder is opened, its first call fails, and it is given back.
fn is_found(alloc: Global, origins: &mut MemoryOrigins) -> bool {
    match origins.folder("in") {
        Opened::Found(mut folder) => {
            let so = does(alloc, &mut folder, ListsNot(""))
                && does(alloc, &mut folder, Reads("b", b"abc"))
                && folder.path() == "in";
            origins.back_folder(folder);
            so
        }
        Opened::NotFound | Opened::Failed | Opened::Memory => false,
    }
}

fn openings_end_so(alloc: Global, origins: &mut MemoryOrigins) -> bool {
    is_found(alloc, origins)
        && matches!(&origins.folder("out"), Opened::NotFound)
        && matches!(&origins.folder("in"), Opened::Failed)
        && is_found(alloc, origins)
        && matches!(&origins.file("in"), Opened::NotFound)
}

#[test]
fn origins_give_folders(rt: HostRuntime) -> Result<(), Fail> {
    let mut origins = origins_of(rt.alloc())?;
    assert!(rt; openings_end_so(rt.alloc(), &mut origins));
    assert!(rt; origins.path_faults("in") == 3 && origins.path_faults("out") == 0);
    Ok(())
}
