//! What was cooked is loaded again, and means the directory. The ids of the snapshots are by SWHID v1.2.
use crate::folders::{ROWS, Row};
use crate::yards::Laid;
use std::alloc::{AllocError, Global};
use std::sync::ArcSlice;
use std::test::Fail;
use swh_base::{Kind, Name, Sha1Namer};
use swh_dirload::load_folder;
use swh_memory_input::{MemoryFolder, MemorySource, PathItem, Stands};
use swh_outside::{Item, What};

/// The snapshots of one branch `HEAD` to each of the directories that are cooked, in their order.
const SNAPSHOTS: &[&[u8; 40]] = &[
    b"5b0927183809d278a2bcbe1a11467b62707a0100",
    b"064732ac2b71aac3a64f68cba08fdbcfe3c6e935",
    b"fe1aa3bc5efa3b9cee813cc3d46b676bc3ece675",
    b"fe3f4ea83a1ef269074d351f0b61313b3ed9b72d",
];

fn items_of(alloc: Global, list: &[(&str, What)]) -> Result<Vec<Item>, AllocError> {
    let mut items = Vec::new(alloc);
    for (name, what) in list {
        let name = String::from_str(alloc, name)?;
        items.push(Item { name, what: *what })?;
    }
    Ok(items)
}

fn place_of(alloc: Global, path: &str, laid: Laid) -> Result<PathItem, AllocError> {
    let path = String::from_str(alloc, path)?;
    let stands = match laid {
        Laid::List(list) => Stands::Folder(items_of(alloc, list)?),
        Laid::Bytes(bytes) => Stands::File {
            bytes: Vec::from_slice(alloc, bytes)?,
            piece: 2,
            failing: Vec::new(alloc),
        },
    };
    Ok(PathItem { path, stands })
}

/// The folder that a row says, which the yard has as well.
fn folder_of(alloc: Global, row: &Row) -> Result<MemoryFolder, AllocError> {
    let mut places = Vec::new(alloc);
    for (path, laid) in row.1 {
        places.push(place_of(alloc, path, *laid)?)?;
    }
    let path = String::from_str(alloc, "in")?;
    Ok(MemoryFolder::new(alloc, path, ArcSlice::from_vec(places)?, Vec::new(alloc)))
}

/// Whether the folder of a row, with its listing, is loaded as this snapshot.
fn loads_as(alloc: Global, row: &Row, hex: &[u8; 40]) -> Result<bool, Fail> {
    let mut folder = folder_of(alloc, row)?;
    let text = Vec::from_slice(alloc, row.2)?;
    let mut source = MemorySource::new(String::new(alloc), text, 3, Vec::new(alloc));
    let Ok(loaded) = load_folder(alloc, &Sha1Namer, &mut folder, Some(&mut source)) else {
        return Ok(false);
    };
    match Name::from_hex(Kind::Snapshot, hex) {
        Some(name) => Ok(loaded.snapshot == name.id),
        None => Ok(false),
    }
}

/// The number of the first row that is loaded as another snapshot, or how many there are.
fn first_other(alloc: Global) -> Result<usize, Fail> {
    for (number, (row, hex)) in ROWS.iter().zip(SNAPSHOTS).enumerate() {
        if !loads_as(alloc, row, hex)? {
            return Ok(number);
        }
    }
    Ok(ROWS.len())
}

#[test]
fn what_was_cooked_is_loaded_as_the_same(rt: HostRuntime) -> Result<(), Fail> {
    assert_eq!(rt; first_other(rt.alloc())?, ROWS.len());
    assert_eq!(rt; SNAPSHOTS.len(), ROWS.len());
    Ok(())
}
