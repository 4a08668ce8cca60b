// Folders over the system.
use std::alloc::{AllocError, Global};
use std::test::Fail;
use swh_outside::{Folder, Item, Source, What};
use swh_real::{RealFolder, RealSource};
use swh_temp_folders::{Laid, Thing, clear, fresh_room, temporary_path};

type HostFolder = RealFolder<HostRuntime>;

/// A name in a list, and what stands under it.
type Named = (&'static str, What);

/// A call on the folder, and how it ends.
#[derive(Clone, Copy)]
enum Act {
    /// These stand in the folder, in any order, and nothing else.
    Lists(&'static str, &'static [Named]),
    /// This one stands among others.
    Has(&'static str, Named),
    ListsNot(&'static str),
    Reads(&'static str, &'static [u8]),
    ReadsNot(&'static str),
    Faults(u64),
}

use Act::*;

fn is_named(item: &Item, (name, what): Named) -> bool {
    item.name.as_str() == name && item.what == what
}

fn has(items: &[Item], named: Named) -> bool {
    items.iter().any(|item| is_named(item, named))
}

fn lists(alloc: Global, folder: &mut HostFolder, dir: &str, list: &[Named]) -> bool {
    match folder.list(alloc, dir) {
        Ok(items) => {
            items.len() == list.len() && list.iter().all(|named| has(items.as_slice(), *named))
        }
        Err(_) => false,
    }
}

fn lists_one(alloc: Global, folder: &mut HostFolder, dir: &str, named: Named) -> bool {
    match folder.list(alloc, dir) {
        Ok(items) => has(items.as_slice(), named),
        Err(_) => false,
    }
}

// Whether these bytes are all that a source gives, in pieces of 2.
fn gives(source: &mut RealSource, whole: &[u8]) -> bool {
    let mut rest = whole;
    for _ in 0..8 {
        let mut out = [0; 2];
        let Ok(count) = source.get(&mut out) else {
            return false;
        };
        match rest.split_at_checked(count) {
            Some((front, behind)) if front == &out[..count] => rest = behind,
            _ => return false,
        }
    }
    rest.is_empty()
}

fn reads(folder: &mut HostFolder, path: &str, whole: &[u8]) -> bool {
    let Ok(mut source) = folder.read(path) else {
        return false;
    };
    let given = gives(&mut source, whole) && source.path() == path;
    folder.back(source);
    given
}

fn does(alloc: Global, folder: &mut HostFolder, act: Act) -> bool {
    match act {
        Lists(dir, list) => lists(alloc, folder, dir, list),
        Has(dir, named) => lists_one(alloc, folder, dir, named),
        ListsNot(dir) => folder.list(alloc, dir).is_err(),
        Reads(path, whole) => reads(folder, path, whole),
        ReadsNot(path) => folder.read(path).is_err(),
        Faults(count) => folder.faults() == count,
    }
}

// Fails with the number of the first act, from 0, that ends in another way.
fn all_done(rt: &HostRuntime, root: &str, acts: &[Act]) -> Result<(), Fail> {
    let alloc = rt.alloc();
    let mut folder = RealFolder::new(rt.clone()?, alloc, String::from_str(alloc, root)?);
    for (number, act) in acts.iter().enumerate() {
        if !does(alloc, &mut folder, *act) {
            return Err(Fail::new(number));
        }
    }
    Ok(())
}

const LAID: &[Laid] = &[
    ("d", Thing::Folder),
    ("d/f", Thing::File(b"within")),
    ("d/e", Thing::Folder),
    ("f", Thing::File(b"abc")),
    ("none", Thing::File(b"")),
    ("link", Thing::Link("f")),
    ("way", Thing::Link("d")),
    ("knot", Thing::Link("knot")),
];

const ACTS: &[Act] = &[
    Lists(
        "",
        &[
            ("d", What::Folder),
            ("f", What::File),
            ("none", What::File),
            ("link", What::Other),
            ("way", What::Other),
            ("knot", What::Other),
        ],
    ),
    Lists("d", &[("f", What::File), ("e", What::Folder)]),
    Lists("d/e", &[]),
    Reads("f", b"abc"),
    Reads("none", b""),
    Reads("d/f", b"within"),
    Faults(0),
    // No link is followed, at the end of a path or within it.
    ListsNot("way"),
    ListsNot("way/e"),
    ReadsNot("link"),
    ReadsNot("way/f"),
    ReadsNot("knot"),
    Faults(5),
    // What is no folder, or no file.
    ListsNot("f"),
    ListsNot("absent"),
    ReadsNot("d"),
    ReadsNot("absent"),
    ReadsNot("f/more"),
    ReadsNot(""),
    Faults(11),
    // No path leaves the folder.
    ListsNot(".."),
    ListsNot("."),
    ListsNot("/"),
    ListsNot("d/"),
    ListsNot("d/../d"),
    ReadsNot("/f"),
    ReadsNot("./f"),
    ReadsNot("d/../f"),
    ReadsNot("d//f"),
    Faults(20),
    Reads("f", b"abc"),
    Faults(20),
];

#[test]
fn a_folder_gives_what_stands_in_it(rt: HostRuntime) -> Result<(), Fail> {
    let room = fresh_room(&rt, "folder", LAID)?;
    all_done(&rt, room.as_str(), ACTS)?;
    clear(&rt, room.as_str())
}

const WITH_OTHER_TEXT: &[Laid] = &[("d", Thing::Folder), ("f", Thing::File(b"abc"))];

const OTHER_TEXT: &[Act] = &[
    Lists("", &[("d", What::Folder), ("f", What::File)]),
    ListsNot("d"),
    Faults(1),
    Reads("f", b"abc"),
    Faults(1),
];

/// The path of a folder in the folder `d` of a room, whose name is no UTF-8.
fn other_text(alloc: Global, room: &str) -> Result<Vec<u8>, AllocError> {
    let mut path = Vec::from_slice(alloc, room.as_bytes())?;
    path.extend_from_slice(b"/d/\xff")?;
    Ok(path)
}

#[test]
fn a_name_that_is_no_text_fails_its_list(rt: HostRuntime) -> Result<(), Fail> {
    let name = "other_text";
    let path = other_text(rt.alloc(), temporary_path(&rt, name)?.as_str())?;
    let _left_by_a_run_that_was_cut = os::rmdir(path.as_slice());
    let room = fresh_room(&rt, name, WITH_OTHER_TEXT)?;
    assert_eq!(&rt; os::mkdir(path.as_slice()), 0);
    let done = all_done(&rt, room.as_str(), OTHER_TEXT);
    assert_eq!(&rt; os::rmdir(path.as_slice()), 0);
    done?;
    clear(&rt, room.as_str())
}

const DEVICES: &[Act] = &[Has("", ("null", What::Other)), ReadsNot("null"), Faults(1)];

#[test]
fn a_device_is_not_opened(rt: HostRuntime) -> Result<(), Fail> {
    all_done(&rt, "/dev", DEVICES)
}
