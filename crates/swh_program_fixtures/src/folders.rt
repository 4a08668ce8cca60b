// Folders in memory, laid out from tables.
use crate::pieces::{Piece, spelled};
use std::alloc::{AllocError, Global};
use std::sync::ArcSlice;
use swh_memory_input::{FolderInput, PathItem, Stands};
use swh_outside::{Item, What};

/// What is laid at a path of a folder.
#[derive(Clone, Copy)]
pub enum Laid<'a> {
    /// A folder with this list.
    List(&'a [(&'a str, What)]),
    /// A file of these bytes.
    Bytes(&'a [u8]),
    /// A file of so many times the byte `x`.
    Fill(usize),
    /// A file that fails once it is read.
    Broken,
    /// A folder with one file, whose name is so many times the byte `x`.
    LongName(usize),
}

/// The paths of a folder, of which its own is the empty one, and what is laid there.
pub type Layout<'a> = &'a [(&'a str, Laid<'a>)];

fn items_of(alloc: Global, list: &[(&str, What)]) -> Result<Vec<Item>, AllocError> {
    let mut items = Vec::new(alloc);
    for (name, what) in list {
        let name = String::from_str(alloc, name)?;
        items.push(Item { name, what: *what })?;
    }
    Ok(items)
}

fn long_item(alloc: Global, count: usize) -> Result<Vec<Item>, AllocError> {
    let mut name = String::new(alloc);
    for _ in 0..count {
        name.push_str("x")?;
    }
    let mut items = Vec::new(alloc);
    items.push(Item {
        name,
        what: What::File,
    })?;
    Ok(items)
}

// A file of these bytes, which it gives in pieces of 7, or in longer ones where there are many.
fn file_of(alloc: Global, bytes: Vec<u8>, failing: &[u64]) -> Result<Stands, AllocError> {
    Ok(Stands::File {
        piece: if bytes.len() < 4_096 { 7 } else { 65_536 },
        bytes,
        failing: Vec::from_slice(alloc, failing)?,
    })
}

fn stands_of(alloc: Global, laid: Laid<'_>) -> Result<Stands, AllocError> {
    match laid {
        Laid::List(list) => Ok(Stands::Folder(items_of(alloc, list)?)),
        Laid::Bytes(bytes) => file_of(alloc, Vec::from_slice(alloc, bytes)?, &[]),
        Laid::Fill(count) => file_of(alloc, spelled(alloc, &[Piece::Fill(count)])?, &[]),
        Laid::Broken => file_of(alloc, Vec::new(alloc), &[0]),
        Laid::LongName(count) => Ok(Stands::Folder(long_item(alloc, count)?)),
    }
}

fn place_of(alloc: Global, path: &str, laid: Laid<'_>) -> Result<PathItem, AllocError> {
    Ok(PathItem {
        path: String::from_str(alloc, path)?,
        stands: stands_of(alloc, laid)?,
    })
}

/// The folder at a path of which this is laid out, and whose calls with these numbers fail.
pub fn folder_input(
    alloc: Global,
    path: &str,
    layout: Layout<'_>,
    failing: Vec<u64>,
) -> Result<FolderInput, AllocError> {
    let mut places = Vec::new(alloc);
    for (place, laid) in layout {
        places.push(place_of(alloc, place, *laid)?)?;
    }
    Ok(FolderInput {
        path: String::from_str(alloc, path)?,
        places: ArcSlice::from_vec(places)?,
        failing,
    })
}
