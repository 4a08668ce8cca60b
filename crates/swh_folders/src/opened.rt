//! A folder that is open while the changes of a commit are made to its tree. What stands in it is kept apart from the
//! numbered folders, so many changes of one folder make it, and the folders above it, anew once.

ghost use Rattle.std.specs.Prelude.{◌≡◌, ◌≢◌, ◌≤◌, ◌∷◌, ◌++◌, [], ℕ, List, length, Some, IfOk, IfErr, IfSome, IfNone};
ghost use Rattle.std.specs.Global.{Vec};
ghost use Rattle.std.specs.List.{AllByRecursion};
ghost use Rattle.swh_base.specs.Directory.{IsEntryName};
ghost use Rattle.swh_forest.specs.Arena.{stands_of, forest_of, tree_at, AreGood, IsIn, Grows};
ghost use Rattle.swh_entries.specs.Keys.{texts};
ghost use Rattle.swh_entries.specs.Named.{Extends};
ghost use Rattle.swh_forest.specs.Kept.{AreAmong, named};
ghost use Rattle.swh_forest.specs.Forest.{Forest, Nothing, IsFolder, child_at, put, forest, found, flat};
ghost use Rattle.swh_forest.specs.Roots.{IsBelow, IsGood, map_at, map_of_number, root_forest};
ghost use Rattle.swh_forest.specs.PathMap.{set, delete, held};
ghost use Rattle.swh_forest.specs.Transfer.{transferred};
ghost use Rattle.swh_forest.specs.Sound.{IsLeaf, IsSoundHere};
ghost use Rattle.swh_fastlex.specs.Path.{components, IsPath};
ghost use Rattle.swh_folders.specs.Working.{AreFolders, count_of, root_map, StaysBelow, IsTallied, KeepsCounts, IsBounded};
ghost use Rattle.swh_folders.specs.Opened.{
  lent_path,
  folder_path,
  open_path,
  own_forest,
  open_forest,
  root_of_start,
  number_of_start,
  start_map,
  IsOpened,
  IsStart,
  StandsIn,
  StaysBounded,
};

use crate::folders::{Folders, settled, transfer_in};
use crate::splitting::{is_same_folder, split_path};
use std::alloc::{AllocError, Global};
use swh_entries::{Child, Leaf, Names, Packed};
use swh_forest::{
    Transfer, add_some, child_in, components_of, find, graft, kept, number_of, root_of, seal,
    transfer_path,
};

/// A folder of a tree, open.
pub struct Opened {
    /// The root of its tree, as that was before the folder was opened.
    pub root: Option<usize>,
    /// Its path, and none for the root's own folder.
    pub path: Option<Vec<u8>>,
    /// Its entries.
    pub node: Packed,
}

/// Written out, so that callers have one call here and not all that it owns.
impl Drop for Opened {
    fn drop(self) {
        let Self {
            root: _,
            path: _,
            node: _,
        } = self;
    }
}

/// The tree at which changes go on: one that has a number, or that of an open folder.
#[derive(Drop)]
pub enum Start {
    At(Option<usize>),
    In(Opened),
}

/// The entries of what stands here, ready for changes; none where no folder stands.
fn entries_here(alloc: Global, nodes: &[Packed], under: Option<Child>) -> Result<Packed, AllocError>
    requires { IsIn (length nodes.now) under }
    ensures good { (names : List (Vec ℕ)) → IsGood names nodes.now
        → IfOk result (λ p. AreGood (length names) (length nodes.now) p.items) }
    ensures forest { (names : List (Vec ℕ)) → IsGood names nodes.now
        → IfOk result (λ p. forest_of (texts names) (tree_at names nodes.now) p.items
        ≡ forest (stands_of (tree_at names nodes.now) under)) }
{
    match under {
        Some(child) => match child {
            Child::Folder(number) => nodes[number].again(alloc),
            Child::File(_) => Ok(Packed::none(alloc)),
        },
        None => Ok(Packed::none(alloc)),
    }
}

/// The folder at the path, of the tree of this root, open: with no entries where no folder stands there.
fn taken(
    alloc: Global,
    names: &[Vec<u8>],
    nodes: &[Packed],
    root: Option<usize>,
    folder: Option<&[u8]>,
) -> Result<Opened, AllocError>
    requires good { IsGood names.now nodes.now }
    requires root { IsBelow (length nodes.now) root }
    requires folder { AllByRecursion IsEntryName (lent_path folder) }
    ensures opened { IfOk result (λ o. IsOpened names.now nodes.now o) }
    ensures path { IfOk result (λ o. folder_path o.path ≡ lent_path folder.entry) }
    ensures root { IfOk result (λ o. o.root ≡ root) }
    ensures own { IfOk result (λ o. own_forest names.now nodes.now o
        ≡ forest (found (lent_path folder.entry) (IsFolder (root_forest (tree_at names.now nodes.now) root)))) }
{
    let here = root_of(root);
    match folder {
        Some(folder) => {
            let parts = components_of(alloc, folder)?;
            let there = find(names, nodes, here, parts.as_slice());
            let node = entries_here(alloc, nodes, there)?;
            let path = Vec::from_slice(alloc, folder)?;
            Ok(Opened {
                root,
                path: Some(path),
                node,
            })
        }
        None => {
            let node = entries_here(alloc, nodes, here)?;
            Ok(Opened {
                root,
                path: None,
                node,
            })
        }
    }
}

impl Opened {
    /// The number of the root of its tree, after the folder and those above it were made anew.
    fn sealed(
        self,
        alloc: Global,
        names: &mut Names,
        nodes: &mut Vec<Packed>,
    ) -> Result<Option<usize>, AllocError>
        requires good { IsGood names.old.items nodes.old.items }
        requires opened { IsOpened names.old.items nodes.old.items self }
        ensures good { IsGood names.new.items nodes.new.items }
        ensures grows { Grows names.old.items nodes.old.items names.new.items nodes.new.items }
        ensures kept { AreAmong (texts names.new.items) (texts names.old.items ++ folder_path self.path) }
        ensures inside { IfOk result (λ r. IsBelow (length nodes.new.items) r) }
        ensures forest { IfOk result (λ r. root_forest (tree_at names.new.items nodes.new.items) r
            ≡ open_forest names.old.items nodes.old.items self) }
    {
        let Self { root, path, node } = self;
        let child = seal(nodes, node)?;
        match path {
            Some(path) => {
                let parts = components_of(alloc, path.as_slice())?;
                let there = graft(alloc, names, nodes, root_of(root), parts.as_slice(), child)?;
                Ok(number_of(there))
            }
            None => Ok(number_of(child)),
        }
    }

    /// It with the child, if there is one, in the place of what stands under the name.
    fn edited(
        self,
        alloc: Global,
        folders: &mut Folders,
        name: &[u8],
        child: Option<Child>,
    ) -> Result<Opened, AllocError>
        requires good { AreFolders folders.old }
        requires opened { IsOpened folders.old.names.items folders.old.nodes.items self }
        requires name { IsEntryName name.now }
        requires child { IsIn (count_of folders.old) child }
        requires sound { IsSoundHere (stands_of (tree_at folders.old.names.items folders.old.nodes.items) child) }
        ensures names { Extends folders.old.names.items folders.new.names.items }
        ensures kept { AreAmong (texts folders.new.names.items) (texts folders.old.names.items ++ named name.now child) }
        ensures nodes { folders.new.nodes.items ≡ folders.old.nodes.items }
        ensures counts { KeepsCounts folders.old folders.new }
        ensures opened { IfOk result (λ o. IsOpened folders.new.names.items folders.new.nodes.items o) }
        ensures root { IfOk result (λ o. o.root ≡ self.root) }
        ensures path { IfOk result (λ o. o.path ≡ self.path) }
        ensures own { IfOk result (λ o. own_forest folders.new.names.items folders.new.nodes.items o
            ≡ put name.now (stands_of (tree_at folders.old.names.items folders.old.nodes.items) child)
            (own_forest folders.old.names.items folders.old.nodes.items self)) }
    {
        let Self { root, path, node } = self;
        let rest = kept(alloc, folders.names.as_slice(), node, name)?;
        let node = add_some(alloc, &mut folders.names, rest, name, child)?;
        Ok(Opened { root, path, node })
    }
}

/// The number of the root of an open folder's tree, after the folder and those above it were made anew, and folders that
/// the root does not need were dropped where there are many of them.
fn closed(
    alloc: Global,
    folders: &mut Folders,
    base: usize,
    opened: Opened,
) -> Result<Option<usize>, AllocError>
    requires good { AreFolders folders.old }
    requires tallied { IsTallied base folders.old }
    requires opened { IsOpened folders.old.names.items folders.old.nodes.items opened }
    ensures stays { StaysBelow base folders.old folders.new }
    ensures tallied { IsTallied base folders.new }
    ensures kept { AreAmong (texts folders.new.names.items) (texts folders.old.names.items
        ++ folder_path opened.path) }
    ensures inside { IfOk result (λ r. IsBelow (count_of folders.new) r) }
    ensures bounded { IfOk result (IsBounded base folders.old folders.new) }
    ensures map { IfOk result (λ r. root_map folders.new r
        ≡ flat (open_forest folders.old.names.items folders.old.nodes.items opened)) }
{
    let there = opened.sealed(alloc, &mut folders.names, &mut folders.nodes)?;
    settled(alloc, folders, base, there)
}

/// The number of the root of the tree at which changes go on, after its open folder, if there is one, and those above it were
/// made anew. No folder is dropped.
pub fn root_from(
    alloc: Global,
    folders: &mut Folders,
    start: Start,
) -> Result<Option<usize>, AllocError>
    requires good { AreFolders folders.old }
    requires start { IsStart folders.old start }
    ensures stays { (base : ℕ) → IsTallied base folders.old → StaysBelow base folders.old folders.new }
    ensures tallied { (base : ℕ) → IsTallied base folders.old → IsTallied base folders.new }
    ensures kept { AreAmong (texts folders.new.names.items) (texts folders.old.names.items ++ open_path start) }
    ensures inside { IfOk result (λ r. IsBelow (count_of folders.new) r) }
    ensures map { IfOk result (λ r. root_map folders.new r ≡ start_map folders.old start) }
{
    match start {
        Start::At(root) => Ok(root),
        Start::In(opened) => opened.sealed(alloc, &mut folders.names, &mut folders.nodes),
    }
}

/// The folder at a path, open, in the tree at which changes go on.
fn opened_at(
    alloc: Global,
    folders: &mut Folders,
    base: usize,
    start: Start,
    folder: Option<&[u8]>,
) -> Result<Opened, AllocError>
    requires good { AreFolders folders.old }
    requires tallied { IsTallied base folders.old }
    requires start { IsStart folders.old start }
    requires folder { AllByRecursion IsEntryName (lent_path folder) }
    ensures stays { StaysBelow base folders.old folders.new }
    ensures tallied { IsTallied base folders.new }
    ensures kept { AreAmong (texts folders.new.names.items) (texts folders.old.names.items ++ open_path start) }
    ensures opened { IfOk result (λ o. IsOpened folders.new.names.items folders.new.nodes.items o) }
    ensures path { IfOk result (λ o. folder_path o.path ≡ lent_path folder.entry) }
    ensures bounded { IfOk result (λ o. StaysBounded base folders.old folders.new o.root
        (start_map folders.old start)) }
    ensures stands { IfOk result (λ o. StandsIn folders.new.names.items folders.new.nodes.items o
        (start_map folders.old start)) }
{
    match start {
        Start::In(opened) => {
            let same = is_same_folder(&opened.path, folder);
            if same {
                return Ok(opened);
            }
            let root = closed(alloc, folders, base, opened)?;
            let (names, nodes) = (folders.names.as_slice(), folders.nodes.as_slice());
            taken(alloc, names, nodes, root, folder)
        }
        Start::At(root) => {
            let (names, nodes) = (folders.names.as_slice(), folders.nodes.as_slice());
            taken(alloc, names, nodes, root, folder)
        }
    }
}

/// The tree with the leaf at the path.
pub fn set_in(
    alloc: Global,
    folders: &mut Folders,
    base: usize,
    start: Start,
    path: &[u8],
    leaf: Leaf,
) -> Result<Opened, AllocError>
    requires good { AreFolders folders.old }
    requires tallied { IsTallied base folders.old }
    requires start { IsStart folders.old start }
    requires path { IsPath path.now }
    requires leaf { IsLeaf leaf }
    ensures stays { StaysBelow base folders.old folders.new }
    ensures tallied { IsTallied base folders.new }
    ensures kept { AreAmong (texts folders.new.names.items) (texts folders.old.names.items
        ++ (open_path start ++ components path.now)) }
    ensures path { IfOk result (λ o. AreAmong (folder_path o.path) (components path.now)) }
    ensures opened { IfOk result (λ o. IsOpened folders.new.names.items folders.new.nodes.items o) }
    ensures bounded { IfOk result (λ o. StaysBounded base folders.old folders.new o.root
        (start_map folders.old start)) }
    ensures map { IfOk result (λ o. flat (open_forest folders.new.names.items folders.new.nodes.items o)
        ≡ set (components path.now) leaf (start_map folders.old start)) }
{
    let (folder, name) = split_path(path);
    let opened = opened_at(alloc, folders, base, start, folder)?;
    opened.edited(alloc, folders, name, Some(Child::File(leaf)))
}

/// The tree of the open folder without what stands under the name.
fn deleted_here(
    alloc: Global,
    folders: &mut Folders,
    opened: Opened,
    name: &[u8],
) -> Result<Opened, AllocError>
    requires good { AreFolders folders.old }
    requires opened { IsOpened folders.old.names.items folders.old.nodes.items opened }
    requires name { IsEntryName name.now }
    ensures names { Extends folders.old.names.items folders.new.names.items }
    ensures kept { AreAmong (texts folders.new.names.items) (texts folders.old.names.items) }
    ensures path { IfOk result (λ o. o.path ≡ opened.path) }
    ensures nodes { folders.new.nodes.items ≡ folders.old.nodes.items }
    ensures counts { KeepsCounts folders.old folders.new }
    ensures opened { IfOk result (λ o. IsOpened folders.new.names.items folders.new.nodes.items o) }
    ensures root { IfOk result (λ o. o.root ≡ opened.root) }
    ensures map { IfOk result (λ o. flat (open_forest folders.new.names.items folders.new.nodes.items o)
        ≡ delete (folder_path opened.path ++ name.now ∷ [])
        (flat (open_forest folders.old.names.items folders.old.nodes.items opened))) }
{
    match child_in(folders.names.as_slice(), &opened.node, name) {
        Some(_child) => opened.edited(alloc, folders, name, None),
        None => Ok(opened),
    }
}

/// The tree of this root without what stands at the path and under it.
fn deleted_there(
    alloc: Global,
    folders: &mut Folders,
    root: Option<usize>,
    path: &[u8],
) -> Result<Start, AllocError>
    requires good { AreFolders folders.old }
    requires root { IsBelow (count_of folders.old) root }
    requires path { IsPath path.now }
    ensures names { Extends folders.old.names.items folders.new.names.items }
    ensures kept { AreAmong (texts folders.new.names.items) (texts folders.old.names.items) }
    ensures path { IfOk result (λ s. AreAmong (open_path s) (components path.now)) }
    ensures nodes { folders.new.nodes.items ≡ folders.old.nodes.items }
    ensures counts { KeepsCounts folders.old folders.new }
    ensures start { IfOk result (λ s. IsStart folders.new s) }
    ensures root { IfOk result (λ s. root_of_start s ≡ root) }
    ensures map { IfOk result (λ s. start_map folders.new s
        ≡ delete (components path.now) (root_map folders.old root)) }
{
    let parts = components_of(alloc, path)?;
    let (names, nodes) = (folders.names.as_slice(), folders.nodes.as_slice());
    let Some(_child) = find(names, nodes, root_of(root), parts.as_slice()) else {
        return Ok(Start::At(root));
    };
    let (folder, name) = split_path(path);
    let opened = taken(alloc, names, nodes, root, folder)?;
    Ok(Start::In(opened.edited(alloc, folders, name, None)?))
}

/// The tree without what stands at the path and under it.
pub fn delete_in(
    alloc: Global,
    folders: &mut Folders,
    base: usize,
    start: Start,
    path: &[u8],
) -> Result<Start, AllocError>
    requires good { AreFolders folders.old }
    requires tallied { IsTallied base folders.old }
    requires start { IsStart folders.old start }
    requires path { IsPath path.now }
    ensures stays { StaysBelow base folders.old folders.new }
    ensures tallied { IsTallied base folders.new }
    ensures kept { AreAmong (texts folders.new.names.items) (texts folders.old.names.items ++ open_path start) }
    ensures path { IfOk result (λ s. AreAmong (open_path s) (components path.now)) }
    ensures start { IfOk result (λ s. IsStart folders.new s) }
    ensures bounded { IfOk result (λ s. StaysBounded base folders.old folders.new (root_of_start s)
        (start_map folders.old start)) }
    ensures map { IfOk result (λ s. start_map folders.new s ≡ delete (components path.now) (start_map folders.old start)) }
{
    match start {
        Start::In(opened) => {
            let (folder, name) = split_path(path);
            let same = is_same_folder(&opened.path, folder);
            if same {
                return Ok(Start::In(deleted_here(alloc, folders, opened, name)?));
            }
            let root = closed(alloc, folders, base, opened)?;
            deleted_there(alloc, folders, root, path)
        }
        Start::At(root) => deleted_there(alloc, folders, root, path),
    }
}

/// The same open folder once more.
fn copied(alloc: Global, opened: &Opened) -> Result<Opened, AllocError>
    ensures root { IfOk result (λ o. o.root ≡ opened.now.root) }
    ensures path { IfOk result (λ o. folder_path o.path ≡ folder_path opened.now.path) }
    ensures node { IfOk result (λ o. o.node.items ≡ opened.now.node.items) }
{
    let node = opened.node.again(alloc)?;
    let root = opened.root;
    match &opened.path {
        Some(path) => {
            let path = Some(Vec::from_slice(alloc, path.as_slice())?);
            Ok(Opened { root, path, node })
        }
        None => Ok(Opened {
            root,
            path: None,
            node,
        }),
    }
}

/// The tree of an open folder, closed, with what the source holds at the target, and at the source too where the transfer is
/// a copy. None where the source holds nothing.
fn transfer_sealed(
    alloc: Global,
    names: &mut Names,
    nodes: &mut Vec<Packed>,
    opened: Opened,
    source: &[u8],
    target: &[u8],
    way: Transfer,
) -> Result<Option<Option<usize>>, AllocError>
    requires good { IsGood names.old.items nodes.old.items }
    requires opened { IsOpened names.old.items nodes.old.items opened }
    requires source { IsPath source.now }
    requires target { IsPath target.now }
    ensures good { IsGood names.new.items nodes.new.items }
    ensures grows { Grows names.old.items nodes.old.items names.new.items nodes.new.items }
    ensures kept { AreAmong (texts names.new.items) (texts names.old.items
        ++ (folder_path opened.path ++ (components source.now ++ components target.now))) }
    ensures none { IfOk result (λ o. IfNone o (held (components source.now)
        (flat (open_forest names.old.items nodes.old.items opened)) ≡ [])) }
    ensures some { IfOk result (λ o. IfSome o (λ r. held (components source.now)
        (flat (open_forest names.old.items nodes.old.items opened)) ≢ [])) }
    ensures inside { IfOk result (λ o. IfSome o (λ r. IsBelow (length nodes.new.items) r)) }
    ensures map { IfOk result (λ o. IfSome o (λ r. map_of_number (map_at names.new.items nodes.new.items) r
        ≡ transferred way (components source.now) (components target.now)
        (flat (open_forest names.old.items nodes.old.items opened)))) }
{
    let root = opened.sealed(alloc, names, nodes)?;
    transfer_path(alloc, names, nodes, root, source, target, way)
}

/// The tree of an open folder with what the source holds at the target, and at the source too where the transfer is a copy;
/// the open folder as it was, where the source holds nothing.
fn transfer_open(
    alloc: Global,
    folders: &mut Folders,
    base: usize,
    opened: Opened,
    source: &[u8],
    target: &[u8],
    way: Transfer,
) -> Result<Result<Option<usize>, Start>, AllocError>
    requires good { AreFolders folders.old }
    requires tallied { IsTallied base folders.old }
    requires opened { IsOpened folders.old.names.items folders.old.nodes.items opened }
    requires source { IsPath source.now }
    requires target { IsPath target.now }
    ensures stays { StaysBelow base folders.old folders.new }
    ensures tallied { IsTallied base folders.new }
    ensures kept { AreAmong (texts folders.new.names.items) (texts folders.old.names.items
        ++ (folder_path opened.path ++ (components source.now ++ components target.now))) }
    ensures path { IfOk result (λ m. IfErr m (λ s. open_path s ≡ folder_path opened.path)) }
    ensures none { IfOk result (λ m. IfErr m (λ s. held (components source.now)
        (flat (open_forest folders.old.names.items folders.old.nodes.items opened)) ≡ [])) }
    ensures left { IfOk result (λ m. IfErr m (λ s. IsStart folders.new s)) }
    ensures lists { IfOk result (λ m. IfErr m (λ s. folders.new.nodes.items ≡ folders.old.nodes.items)) }
    ensures counts { IfOk result (λ m. IfErr m (λ s. KeepsCounts folders.old folders.new)) }
    ensures number { IfOk result (λ m. IfErr m (λ s. number_of_start folders.new s ≡ Some (count_of folders.old))) }
    ensures same { IfOk result (λ m. IfErr m (λ s. start_map folders.new s
        ≡ flat (open_forest folders.old.names.items folders.old.nodes.items opened))) }
    ensures some { IfOk result (λ m. IfOk m (λ r. held (components source.now)
        (flat (open_forest folders.old.names.items folders.old.nodes.items opened)) ≢ [])) }
    ensures inside { IfOk result (λ m. IfOk m (λ r. IsBelow (count_of folders.new) r)) }
    ensures bounded { IfOk result (λ m. IfOk m (IsBounded base folders.old folders.new)) }
    ensures map { IfOk result (λ m. IfOk m (λ r. root_map folders.new r
        ≡ transferred way (components source.now) (components target.now)
        (flat (open_forest folders.old.names.items folders.old.nodes.items opened)))) }
{
    let count = folders.nodes.len();
    let again = copied(alloc, &opened)?;
    let (names, nodes) = (&mut folders.names, &mut folders.nodes);
    let Some(there) = transfer_sealed(alloc, names, nodes, opened, source, target, way)? else {
        folders.nodes.truncate(count);
        return Ok(Err(Start::In(again)));
    };
    Ok(Ok(settled(alloc, folders, base, there)?))
}

/// The tree with what the source holds at the target, and at the source too where the transfer is a copy; the tree as it
/// was, where the source holds nothing.
pub fn transfer_from(
    alloc: Global,
    folders: &mut Folders,
    base: usize,
    start: Start,
    source: &[u8],
    target: &[u8],
    way: Transfer,
) -> Result<Result<Option<usize>, Start>, AllocError>
    requires good { AreFolders folders.old }
    requires tallied { IsTallied base folders.old }
    requires start { IsStart folders.old start }
    requires source { IsPath source.now }
    requires target { IsPath target.now }
    ensures stays { StaysBelow base folders.old folders.new }
    ensures tallied { IsTallied base folders.new }
    ensures kept { AreAmong (texts folders.new.names.items) (texts folders.old.names.items
        ++ (open_path start ++ (components source.now ++ components target.now))) }
    ensures path { IfOk result (λ m. IfErr m (λ s. open_path s ≡ open_path start)) }
    ensures none { IfOk result (λ m. IfErr m (λ s. held (components source.now) (start_map folders.old start) ≡ [])) }
    ensures left { IfOk result (λ m. IfErr m (λ s. IsStart folders.new s)) }
    ensures lists { IfOk result (λ m. IfErr m (λ s. folders.new.nodes.items ≡ folders.old.nodes.items)) }
    ensures counts { IfOk result (λ m. IfErr m (λ s. KeepsCounts folders.old folders.new)) }
    ensures number { IfOk result (λ m. IfErr m (λ s. number_of_start folders.new s
        ≡ number_of_start folders.old start)) }
    ensures same { IfOk result (λ m. IfErr m (λ s. start_map folders.new s ≡ start_map folders.old start)) }
    ensures some { IfOk result (λ m. IfOk m (λ r. held (components source.now) (start_map folders.old start) ≢ [])) }
    ensures inside { IfOk result (λ m. IfOk m (λ r. IsBelow (count_of folders.new) r)) }
    ensures bounded { IfOk result (λ m. IfOk m (IsBounded base folders.old folders.new)) }
    ensures map { IfOk result (λ m. IfOk m (λ r. root_map folders.new r
        ≡ transferred way (components source.now) (components target.now) (start_map folders.old start))) }
{
    match start {
        Start::In(opened) => transfer_open(alloc, folders, base, opened, source, target, way),
        Start::At(root) => match transfer_in(alloc, folders, base, root, source, target, way)? {
            Some(there) => Ok(Ok(there)),
            None => Ok(Err(Start::At(root))),
        },
    }
}
