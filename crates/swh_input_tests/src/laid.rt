// Folders in memory, laid out from tables.
use std::alloc::{AllocError, Global};
use std::sync::ArcSlice;
use swh_memory_input::{MemoryFolder, MemorySource, PathItem, Stands};
use swh_outside::{Item, What};

/// What stands at a path.
#[derive(Clone, Copy)]
pub enum Thing {
    /// A folder, with the names of its list and what stands under each.
    Folder(&'static [(&'static str, What)]),
    /// A file of these bytes.
    File(&'static [u8]),
}

/// A path, and what stands there.
pub type Laid = (&'static str, Thing);

fn items_of(alloc: Global, list: &[(&str, What)]) -> Result<Vec<Item>, AllocError> {
    let mut items = Vec::new(alloc);
    for (name, what) in list {
        let name = String::from_str(alloc, name)?;
        items.push(Item { name, what: *what })?;
    }
    Ok(items)
}

fn stands_of(alloc: Global, thing: Thing) -> Result<Stands, AllocError> {
    match thing {
        Thing::Folder(list) => Ok(Stands::Folder(items_of(alloc, list)?)),
        Thing::File(bytes) => Ok(Stands::File {
            bytes: Vec::from_slice(alloc, bytes)?,
            piece: 64,
            failing: Vec::new(alloc),
        }),
    }
}

/// A folder in which these stand.
pub fn folder_of(alloc: Global, laid: &[Laid]) -> Result<MemoryFolder, AllocError> {
    let mut places = Vec::new(alloc);
    for (path, thing) in laid {
        let stands = stands_of(alloc, *thing)?;
        let path = String::from_str(alloc, path)?;
        places.push(PathItem { path, stands })?;
    }
    let path = String::from_str(alloc, "in")?;
    let places = ArcSlice::from_vec(places)?;
    Ok(MemoryFolder::new(alloc, path, places, Vec::new(alloc)))
}

/// A source of a listing.
pub fn listing_of(alloc: Global, text: Vec<u8>) -> MemorySource {
    MemorySource::new(String::new(alloc), text, 65_536, Vec::new(alloc))
}
