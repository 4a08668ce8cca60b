//! The objects of folders that have none yet.

ghost use Rattle.std.specs.Prelude.{◌≡◌, ◌<◌, ◌≤◌, ◌+◌, ◌++◌, ◌∷◌, [], ℕ, List, length, IfOk, IfErr, OnOk, OnErr};
ghost use Rattle.std.specs.Global.{Vec};
ghost use Rattle.swh_base.specs.Directory.{DirectoryEntry, AreEntries};
ghost use Rattle.swh_dirfmt.specs.Entries.{entry_views};
ghost use Rattle.swh_forest.specs.Arena.{tree_at};
ghost use Rattle.swh_trees.specs.Directory.{directory_id};
ghost use Rattle.swh_trees.specs.Listing.{directory};
ghost use Rattle.swh_forest.specs.Forest.{IsFolder};
ghost use Rattle.swh_forest.specs.Roots.{IsGood};
ghost use Rattle.swh_trees.specs.Held.{AreIds};
ghost use Rattle.swh_trees.specs.Objects.{
  IsDirectoryObject,
  AreDirectoryObjects,
  AddsObject,
  ExplainsEntries,
  ExplainsAmong,
  GoesOn,
};

use crate::directory::listing;
use crate::fault::TreeFault;
use std::alloc::Global;
use swh_base::{Kind, Namer};
use swh_dirfmt::{DirEntry, Entries, write_dir};
use swh_entries::{Packed, whole_id};
use swh_object::{Object, ObjectFault};

/// The object of the directory of these entries.
fn directory_object<N: Namer>(
    alloc: Global,
    namer: &N,
    list: Vec<DirEntry>,
) -> Result<Object<N>, TreeFault>
    requires { AreEntries (entry_views list.items) }
    ensures object { IfOk result (λ o. IsDirectoryObject N.id_of (entry_views list.items) o) }
    ensures err { IfErr result (ExplainsEntries (entry_views list.items)) }
{
    let entries = Entries::of(list);
    let mut body = write_dir(alloc, &entries)?;
    body.shrink_to_fit();
    match Object::make(alloc, namer, Kind::Directory, body) {
        Ok(object) => Ok(object),
        Err(ObjectFault::TooLong { len }) => Err(TreeFault::TooLong { len }),
        Err(ObjectFault::BadBody { at: _ }) => unreachable!(),
        Err(ObjectFault::Memory) => Err(TreeFault::Memory),
    }
}

/// Makes the object of the first folder that has none, and keeps its id.
fn make_one<N: Namer>(
    alloc: Global,
    namer: &N,
    names: &[Vec<u8>],
    nodes: &[Packed],
    ids: &mut Vec<[u8; 20]>,
    objects: &mut Vec<Object<N>>,
) -> Result<(), TreeFault>
    requires good { IsGood names.now nodes.now }
    requires within { length ids.old.items < length nodes.now }
    requires known { AreIds (directory_id N.id_of) (tree_at names.now nodes.now) ids.old.items }
    ensures next { OnOk result (length ids.new.items ≡ length ids.old.items + 1) }
    ensures front { GoesOn ids.old.items ids.new.items }
    ensures stay { OnErr result (ids.new.items ≡ ids.old.items) }
    ensures known { OnOk result (AreIds (directory_id N.id_of) (tree_at names.now nodes.now) ids.new.items) }
    ensures object { OnOk result (AddsObject N.id_of
        (directory (directory_id N.id_of) (tree_at names.now nodes.now (length ids.old.items))) objects.old.items
        objects.new.items) }
    ensures err { IfErr result (ExplainsEntries
        (directory (directory_id N.id_of) (tree_at names.now nodes.now (length ids.old.items)))) }
{
    let entries = nodes[ids.len()].entries(alloc)?;
    let list = listing(alloc, names, ids.as_slice(), entries.as_slice())?;
    let object = directory_object(alloc, namer, list)?;
    let name = object.name();
    objects.push(object)?;
    ids.push(whole_id(&name.id))?;
    Ok(())
}

/// Makes the objects of the folders that have none, in the order of their numbers, and keeps their ids. After a fault
/// the ids of some of them are kept.
pub fn make_all<N: Namer>(
    alloc: Global,
    namer: &N,
    names: &[Vec<u8>],
    nodes: &[Packed],
    ids: &mut Vec<[u8; 20]>,
) -> Result<Vec<Object<N>>, TreeFault>
    requires good { IsGood names.now nodes.now }
    requires within { length ids.old.items ≤ length nodes.now }
    requires known { AreIds (directory_id N.id_of) (tree_at names.now nodes.now) ids.old.items }
    ensures front { GoesOn ids.old.items ids.new.items }
    ensures all { OnOk result (length ids.new.items ≡ length nodes.now) }
    ensures known { OnOk result (AreIds (directory_id N.id_of) (tree_at names.now nodes.now) ids.new.items) }
    ensures each { IfOk result (λ v. length ids.old.items + length v.items ≡ length nodes.now) }
    ensures objects { IfOk result (λ v. AreDirectoryObjects N.id_of
        (λ n. directory (directory_id N.id_of) (tree_at names.now nodes.now n)) (length ids.old.items) v.items) }
    ensures err { IfErr result (ExplainsAmong (λ n. directory (directory_id N.id_of) (tree_at names.now nodes.now n))
        (length ids.old.items) (length nodes.now)) }
{
    let mut objects = Vec::new(alloc);
    'each: while ids.len() < nodes.len() {
        make_one(alloc, namer, names, nodes, ids, &mut objects)?;
    }
    Ok(objects)
}
