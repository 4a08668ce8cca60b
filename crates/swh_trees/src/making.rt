//! The objects of a tree's new folders.

ghost use Rattle.std.specs.Prelude.{◌≡◌, ◌<◌, ◌≤◌, ◌+◌, ℕ, List, length, Option, IfOk, IfErr, OnOk, OnErr};
ghost use Rattle.swh_trees.specs.Directory.{directory_id};
ghost use Rattle.swh_forest.specs.Forest.{Bare, IsFolder};
ghost use Rattle.swh_trees.specs.Listing.{directory};
ghost use Rattle.swh_forest.specs.Roots.{IsBelow, root_forest};
ghost use Rattle.swh_trees.specs.Held.{AreIds, IsEmptyFolder};
ghost use Rattle.swh_folders.specs.Live.{IsPart};
ghost use Rattle.swh_trees.specs.Objects.{AreDirectoryObjects, ExplainsPart};
ghost use Rattle.swh_folders.specs.Working.{AreFolders, count_of, folder_at, spare, StaysBelow, IsTallied};

use crate::fault::TreeFault;
use crate::objects::make_all;
use std::alloc::{AllocError, Global};
use swh_base::Namer;
use swh_entries::Packed;
use swh_folders::{Folders, compact, count_from};
use swh_object::Object;

/// The number of an empty folder: this one, or else a new one.
fn empty_folder(
    alloc: Global,
    folders: &mut Folders,
    base: usize,
    empty: Option<usize>,
) -> Result<usize, AllocError>
    requires good { AreFolders folders.old }
    requires tallied { IsTallied base folders.old }
    requires empty { IsEmptyFolder (folder_at folders.old) base empty }
    ensures stays { StaysBelow base folders.old folders.new }
    ensures tallied { IsTallied base folders.new }
    ensures names { folders.new.names.items ≡ folders.old.names.items }
    ensures inside { IfOk result (λ r. r < count_of folders.new) }
    ensures bare { IfOk result (λ r. folder_at folders.new r ≡ Bare) }
{
    match empty {
        Some(number) => Ok(number),
        None => {
            let number = folders.nodes.len();
            folders.nodes.push(Packed::none(alloc))?;
            Ok(number)
        }
    }
}

/// The number of a root's folder. That of an empty tree is the empty folder of this number, or else a new one.
pub fn root_number(
    alloc: Global,
    folders: &mut Folders,
    base: usize,
    empty: Option<usize>,
    root: Option<usize>,
) -> Result<usize, AllocError>
    requires good { AreFolders folders.old }
    requires tallied { IsTallied base folders.old }
    requires root { IsBelow (count_of folders.old) root }
    requires empty { IsEmptyFolder (folder_at folders.old) base empty }
    ensures stays { StaysBelow base folders.old folders.new }
    ensures tallied { IsTallied base folders.new }
    ensures names { folders.new.names.items ≡ folders.old.names.items }
    ensures inside { IfOk result (λ r. r < count_of folders.new) }
    ensures same { IfOk result (λ r. folder_at folders.new r ≡ root_forest (folder_at folders.old) root) }
{
    match root {
        Some(number) => Ok(number),
        None => empty_folder(alloc, folders, base, empty),
    }
}

/// Drops the folders that have no object, where so many have one.
pub fn drop_unmade(folders: &mut Folders, made: usize)
    requires good { AreFolders folders.old }
    requires tallied { IsTallied made folders.old }
    ensures stays { StaysBelow made folders.old folders.new }
    ensures tallied { IsTallied made folders.new }
    ensures names { folders.new.names.items ≡ folders.old.names.items }
    ensures all { made ≡ count_of folders.new }
    ensures most { folders.new.most ≤ count_of folders.new + spare }
    ensures room { folders.new.room ≤ spare }
{
    folders.nodes.truncate(made);
    count_from(folders, made);
}

/// The objects of the folders that the root needs and that have none yet, and the root's new number. The other folders
/// without objects are dropped. After a fault no folder more has an object.
pub fn make_folders<N: Namer>(
    alloc: Global,
    namer: &N,
    folders: &mut Folders,
    ids: &mut Vec<[u8; 20]>,
    root: usize,
) -> Result<(usize, Vec<Object<N>>), TreeFault>
    requires good { AreFolders folders.old }
    requires within { length ids.old.items ≤ count_of folders.old }
    requires tallied { IsTallied (length ids.old.items) folders.old }
    requires known { AreIds (directory_id N.id_of) (folder_at folders.old) ids.old.items }
    requires root { root < count_of folders.old }
    ensures stays { StaysBelow (length ids.old.items) folders.old folders.new }
    ensures within { length ids.new.items ≤ count_of folders.new }
    ensures tallied { IsTallied (length ids.new.items) folders.new }
    ensures names { folders.new.names.items ≡ folders.old.names.items }
    ensures known { AreIds (directory_id N.id_of) (folder_at folders.new) ids.new.items }
    ensures front { length ids.old.items ≤ length ids.new.items }
    ensures none_made { OnErr result (ids.new.items ≡ ids.old.items) }
    ensures all { OnOk result (length ids.new.items ≡ count_of folders.new) }
    ensures most { OnOk result (folders.new.most ≤ count_of folders.new + spare) }
    ensures room { OnOk result (folders.new.room ≤ spare) }
    ensures inside { IfOk result (λ r. r.0 < count_of folders.new) }
    ensures same { IfOk result (λ r. folder_at folders.new r.0 ≡ folder_at folders.old root) }
    ensures parts { IfOk result (λ r. (n : ℕ) → length ids.old.items ≤ n → n < count_of folders.new
        → IsPart (IsFolder (folder_at folders.old root)) (folder_at folders.new n)) }
    ensures each { IfOk result (λ r. length ids.old.items + length r.1.items ≡ count_of folders.new) }
    ensures objects { IfOk result (λ r. AreDirectoryObjects N.id_of
        (λ n. directory (directory_id N.id_of) (folder_at folders.new n)) (length ids.old.items) r.1.items) }
    ensures err { IfErr result (ExplainsPart (directory_id N.id_of) (IsFolder (folder_at folders.old root))) }
{
    let base = ids.len();
    let Ok(number) = compact(alloc, &mut folders.nodes, &folders.known, base, root) else {
        count_from(folders, base);
        return Err(TreeFault::Memory);
    };
    let made = make_all(
        alloc,
        namer,
        folders.names.as_slice(),
        folders.nodes.as_slice(),
        ids,
    );
    match made {
        Ok(objects) => {
            count_from(folders, ids.len());
            folders.known.learn(folders.nodes.as_slice(), base);
            Ok((number, objects))
        }
        Err(fault) => {
            ids.truncate(base);
            count_from(folders, base);
            Err(fault)
        }
    }
}
