// Names in the list of a folder.
ghost use Rattle.std.specs.Prelude.{◌↔◌, ◌≢◌, All, IfOk, IsTrue};
ghost use Rattle.swh_outside.specs.Folder.{IsFolderEntryName, AreNames};
ghost use Rattle.swh_folder_names.specs.Names.{names_of};

use std::alloc::{AllocError, Global};
use std::collections::BTreeSet;
use swh_outside::Item;

/// Whether no byte of a name is this one.
fn lacks(name: &[u8], byte: u8) -> bool
    ensures { IsTrue result ↔ All (λ b. b ≢ byte) name.now }
{
    name.iter().all(|b| *b != byte)
}

/// Whether this may stand in a folder: it is not empty, is neither `.` nor `..`, and has no `/` and no NUL.
fn is_name(name: &[u8]) -> bool
    ensures { IsTrue result ↔ IsFolderEntryName name.now }
{
    if name.is_empty() {
        return false;
    }
    if name == b".".as_slice() {
        return false;
    }
    if name == b"..".as_slice() {
        return false;
    }
    if !lacks(name, b'/') {
        return false;
    }
    lacks(name, b'\0')
}

/// Whether each name may stand in a folder, and none stands twice, in time n log n of their number.
pub fn are_names(alloc: Global, items: &[Item]) -> Result<bool, AllocError>
    ensures { IfOk result (λ good. IsTrue good ↔ AreNames (names_of items.now)) }
{
    let mut known = BTreeSet::new(alloc);
    for item in items {
        if !is_name(item.name.as_bytes()) {
            return Ok(false);
        }
        if !known.insert(item.name.as_bytes())? {
            return Ok(false);
        }
    }
    Ok(true)
}
