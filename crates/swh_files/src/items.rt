// What stands in a folder of the system, and whether a path leads through folders of it alone.
ghost use Rattle.std.specs.Prelude.{IfOk};
ghost use Rattle.swh_outside.specs.Folder.{AreNames};
ghost use Rattle.swh_folder_names.specs.Names.{names_of};

use std::alloc::{AllocError, Global};
use std::fs::{DirEntry, FileType};
use std::io::ErrorKind;
use std::rt::Files;
use std::{fs, io};
use swh_folder_names::are_names;
use swh_outside::{Item, OutFault, What};

/// What a fault of the system is to a folder. The count is not raised here.
pub fn fault_of(fault: &io::Error) -> OutFault {
    if fault.kind() == ErrorKind::OutOfMemory {
        OutFault::Memory
    } else {
        OutFault::Failed
    }
}

/// The path of what stands at a path in a folder.
pub fn path_in(alloc: Global, root: &str, path: &str) -> Result<String, AllocError> {
    if path.is_empty() {
        String::from_str(alloc, root)
    } else {
        format!(in alloc; "{root}/{path}")
    }
}

/// What stands in the folder at a path of the system, in any order.
pub fn items_at<R: Files + AllocGlobal + Clone + Drop>(
    rt: &R,
    alloc: Global,
    path: &str,
) -> Result<Vec<Item>, OutFault>
    ensures { IfOk result (λ items. AreNames (names_of items.items)) }
{
    let items = match read_items(rt, alloc, path) {
        Ok(items) => items,
        Err(fault) => return Err(fault_of(&fault)),
    };
    if are_names(alloc, &items)? {
        Ok(items)
    } else {
        Err(OutFault::Failed)
    }
}

// A name that is not UTF-8 fails.
fn read_items<R: Files + AllocGlobal + Clone + Drop>(
    rt: &R,
    alloc: Global,
    path: &str,
) -> io::Result<Vec<Item>> {
    let mut items = Vec::new(alloc);
    for entry in fs::read_dir(rt, path)? {
        items.push(item_of(alloc, &entry?)?)?;
    }
    Ok(items)
}

// No link is followed.
fn item_of<R: Files>(alloc: Global, entry: &DirEntry<R, Global>) -> io::Result<Item> {
    let what = what_of(entry.file_type()?);
    let name = String::from_str(alloc, entry.file_name())?;
    Ok(Item { name, what })
}

fn what_of(kind: FileType) -> What {
    if kind.is_dir() {
        What::Folder
    } else if kind.is_file() {
        What::File
    } else {
        What::Other
    }
}

/// Fails unless the path leads on from the root by names of what stands in folders, so that it does not leave it.
pub fn look_inside(path: &str) -> io::Result<()> {
    for name in path.split('/') {
        if matches!(name, "" | "." | "..") {
            return Err(io::Error::from(ErrorKind::InvalidInput));
        }
    }
    Ok(())
}

/// Fails unless the path leads on from the root through folders alone, none of which is a link, to a folder. The root
/// itself may be one. What is changed between this look and an opening is not seen.
pub fn look_through<R: Files>(rt: &R, alloc: Global, root: &str, path: &str) -> io::Result<()> {
    if path.is_empty() {
        return Ok(());
    }
    look_inside(path)?;
    let mut so_far = String::from_str(alloc, root)?;
    for name in path.split('/') {
        so_far.push('/')?;
        so_far.push_str(name)?;
        if !fs::symlink_metadata(rt, so_far.as_str())?.is_dir() {
            return Err(io::Error::from(ErrorKind::NotADirectory));
        }
    }
    Ok(())
}
