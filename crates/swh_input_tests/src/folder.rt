// Folders in memory, laid out from tables.
use std::alloc::{AllocError, Global};
use std::sync::ArcSlice;
use swh_memory_input::{MemoryFolder, PathItem, Stands};
use swh_outside::{Item, What};

/// A name in a list, and what stands under it.
pub type Named = (&'static str, What);

/// The path of a folder, and its list.
pub type Listed = (&'static str, &'static [Named]);

pub fn item_of(alloc: Global, name: &str, what: What) -> Result<Item, AllocError> {
    let name = String::from_str(alloc, name)?;
    Ok(Item { name, what })
}

pub fn items_of(alloc: Global, list: &[Named]) -> Result<Vec<Item>, AllocError> {
    let mut items = Vec::new(alloc);
    for (name, what) in list {
        items.push(item_of(alloc, name, *what)?)?;
    }
    Ok(items)
}

pub fn listed_at(alloc: Global, path: &str, items: Vec<Item>) -> Result<PathItem, AllocError> {
    let path = String::from_str(alloc, path)?;
    let stands = Stands::Folder(items);
    Ok(PathItem { path, stands })
}

/// A file of these bytes, which it gives in pieces of a size; the calls with these numbers fail.
pub fn file_at(
    alloc: Global,
    path: &str,
    bytes: Vec<u8>,
    piece: usize,
    failing: &[u64],
) -> Result<PathItem, AllocError> {
    let path = String::from_str(alloc, path)?;
    let failing = Vec::from_slice(alloc, failing)?;
    let stands = Stands::File {
        bytes,
        piece,
        failing,
    };
    Ok(PathItem { path, stands })
}

pub fn folder_of(
    alloc: Global,
    places: Vec<PathItem>,
    failing: &[u64],
) -> Result<MemoryFolder, AllocError> {
    let path = String::from_str(alloc, "in")?;
    let places = ArcSlice::from_vec(places)?;
    Ok(MemoryFolder::new(alloc, path, places, Vec::from_slice(alloc, failing)?))
}

/// A folder of these lists, of whose calls those with the listed numbers, from 0, fail.
pub fn folder_of_lists(
    alloc: Global,
    lists: &[Listed],
    failing: &[u64],
) -> Result<MemoryFolder, AllocError> {
    let mut places = Vec::new(alloc);
    for (path, list) in lists {
        let items = items_of(alloc, list)?;
        places.push(listed_at(alloc, path, items)?)?;
    }
    folder_of(alloc, places, failing)
}
