//! The entries of a folder's directory.

ghost use Rattle.std.specs.Prelude.{◌≡◌, ◌<◌, ℕ, List, length, All, IfOk};
ghost use Rattle.swh_base.specs.Directory.{DirectoryEntry};
ghost use Rattle.swh_dirfmt.specs.Entries.{entry_view, entry_views};
ghost use Rattle.swh_forest.specs.Arena.{stands, forest_of, AreGood, IsLower};
ghost use Rattle.swh_entries.specs.Keys.{name_at, texts};
ghost use Rattle.swh_forest.specs.Forest.{Forest};
ghost use Rattle.swh_trees.specs.Listing.{directory, entry_here};
ghost use Rattle.swh_trees.specs.Held.{AreIds};

use std::alloc::Global;
use swh_base::{Bytes, Memory};
use swh_dirfmt::DirEntry;
use swh_entries::{Child, Entry, whole_id};

/// The mode and the id of a child, where folders have these ids.
fn mode_and_id(ids: &[[u8; 20]], child: Child) -> (u32, [u8; 20])
    requires { IsLower (length ids.now) child }
    ensures entry { (id : List DirectoryEntry → List ℕ) (at : ℕ → Forest) (name : List ℕ) → AreIds id at ids.now
        → record { mode = result.0; name = name; id = result.1 } ≡ entry_here id name (stands at child) }
    ensures id { length result.1 ≡ 20 }
{
    match child {
        Child::File(leaf) => (leaf.mode, whole_id(&leaf.id)),
        Child::Folder(number) => (40_000, whole_id(&ids[number])),
    }
}

/// The entry of a directory for this entry of a folder, where folders have these ids.
fn listed(alloc: Global, names: &[Vec<u8>], ids: &[[u8; 20]], e: Entry) -> Result<DirEntry, Memory>
    requires name { e.name < length names.now }
    requires child { IsLower (length ids.now) e.child }
    ensures entry { (id : List DirectoryEntry → List ℕ) (at : ℕ → Forest) → AreIds id at ids.now
        → IfOk result (λ r. entry_view r ≡ entry_here id (name_at (texts names.now) e.name) (stands at e.child)) }
    ensures id { IfOk result (λ r. length r.id ≡ 20) }
{
    let (mode, id) = mode_and_id(ids, e.child);
    let name = Bytes::from_slice(alloc, names[e.name].as_slice())?;
    Ok(DirEntry { mode, name, id })
}

/// The entries of the directory of a folder with these entries, where the folders below it have these ids.
pub fn listing(
    alloc: Global,
    names: &[Vec<u8>],
    ids: &[[u8; 20]],
    entries: &[Entry],
) -> Result<Vec<DirEntry>, Memory>
    requires { AreGood (length names.now) (length ids.now) entries.now }
    ensures same { (id : List DirectoryEntry → List ℕ) (at : ℕ → Forest) → AreIds id at ids.now
        → IfOk result (λ v. entry_views v.items ≡ directory id (forest_of (texts names.now) at entries.now)) }
    ensures ids { IfOk result (λ v. All (λ r. length r.id ≡ 20) v.items) }
{
    let mut out = Vec::with_capacity(alloc, entries.len())?;
    for e in entries {
        out.push(listed(alloc, names, ids, *e)?)?;
    }
    Ok(out)
}
