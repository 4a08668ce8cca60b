//! Trees of commits.

use crate::fault::TreeFault;
use crate::making::{drop_unmade, make_folders, root_number};
use crate::tree::Tree;
use std::alloc::Global;
use std::marker::Model;
use swh_base::{Memory, Namer};
use swh_entries::{Leaf, whole_id};
use swh_folders::{Folders, Opened, Start, delete_in, root_from, set_in, transfer_from};
use swh_forest::Transfer;
use swh_object::Object;

/// Trees that share the folders which they have in common, and the ids of the folders whose objects were made, by the
/// namer `N`. Contracts see the map of each folder by its number, and of how many folders, the first ones, the objects
/// were made.
#[derive(Drop)]
pub struct Trees<N: Namer> {
    namer: N,
    folders: Folders,
    /// The folder in which the last change was made, while its tree's objects are not made.
    opened: Option<Opened>,
    ids: Vec<[u8; 20]>,
    empty: Option<usize>,
}

/// A tree whose objects were made, the id of its root's directory, and the new objects: each after those of its own
/// folders, and the root's, if it is new, last.
#[derive(Drop)]
pub struct Made<N: Namer> {
    pub tree: Tree,
    pub id: [u8; 20],
    pub objects: Vec<Object<N>>,
}

impl<N: Namer> Model for Trees<N> {
    ghost use Rattle.swh_trees.specs.Grove.{Grove};
    ghost use Rattle.swh_trees.specs.Held.{grove, IsHeld};

    ghost Value = { Grove };

    ghost view = { λ t. grove t.folders t.opened t.ids.items };

    ghost invariant = { λ t. IsHeld N.id_of t.folders t.opened t.ids.items t.empty };
}

ghost use Rattle.std.specs.Prelude.{◌≡◌, ◌↔◌, None, Some, IsTrue, IfNone, IfSome};
ghost use Rattle.swh_forest.specs.Roots.{IsBelow};
ghost use Rattle.swh_trees.specs.Held.{kept_number, kept_empty, count_with, start_with, opened_of};
ghost use Rattle.swh_folders.specs.declared.folders.Folders.{Folders};
ghost use Rattle.swh_folders.specs.Opened.{number_of_start};
ghost use Rattle.swh_folders.specs.Working.{count_of};

/// The tree, and the number of the empty folder, after the objects were made. The root's folder has this number now.
fn kept(root: Option<usize>, empty: Option<usize>, number: usize) -> (Tree, Option<usize>)
    ensures tree { result.0.number ≡ kept_number root number }
    ensures empty { result.1 ≡ kept_empty root empty number }
{
    match root {
        Some(_) => (
            Tree {
                number: Some(number),
            },
            empty,
        ),
        None => (Tree { number: None }, Some(number)),
    }
}

/// Whether a tree has this number, where so many folders have numbers, and after them the tree whose folder is open.
fn is_known(opened: &Option<Opened>, number: Option<usize>, count: usize) -> bool
    ensures { IsTrue result ↔ IsBelow (count_with opened.now count) number }
{
    match number {
        Some(number) => match opened {
            Some(_) => number <= count,
            None => number < count,
        },
        None => true,
    }
}

/// Where changes of the tree of this number go on, where so many folders have numbers.
fn start_with(opened: Option<Opened>, number: Option<usize>, count: usize) -> Start
    ensures { result ≡ start_with opened number count }
{
    match opened {
        None => Start::At(number),
        Some(opened) => match number {
            None => Start::At(None),
            Some(number) => {
                if number == count {
                    Start::In(opened)
                } else {
                    Start::At(Some(number))
                }
            }
        },
    }
}

/// The number of a tree, where so many folders have numbers, and its folder that is open.
fn parts_of(start: Start, count: usize) -> (Option<usize>, Option<Opened>)
    ensures number { (f : Folders) → count ≡ count_of f → result.0 ≡ number_of_start f start }
    ensures opened { result.1 ≡ opened_of start }
{
    match start {
        Start::At(number) => (number, None),
        Start::In(opened) => (Some(count), Some(opened)),
    }
}

impl<N: Namer> Trees<N> {
    ghost use Rattle.std.specs.Prelude.{
      ◌≡◌,
      ◌≢◌,
      ◌↔◌,
      ◌<◌,
      ◌++◌,
      [],
      ℕ,
      length,
      slice_index_or,
      IsTrue,
      IfOk,
      IfErr,
      IfSome,
      IfNone,
      OnErr,
    };
    ghost use Rattle.swh_entries.specs.Keys.{texts};
    ghost use Rattle.swh_forest.specs.Kept.{AreAmong};
    ghost use Rattle.swh_trees.specs.Grove.{map_of, kept_names, IsTree, Keeps, StandsFor, no_trees};
    ghost use Rattle.swh_trees.specs.Bound.{IsStill, IsBounded, IsEmptied};
    ghost use Rattle.swh_forest.specs.Leaf.{IsLeafMode};
    ghost use Rattle.swh_trees.specs.Makes.{Makes, ExplainsTree};
    ghost use Rattle.swh_fastlex.specs.Path.{components, IsPath};
    ghost use Rattle.swh_forest.specs.PathMap.{set, delete, copy, rename, held};
    ghost use Rattle.swh_forest.specs.Transfer.{transferred};

    /// No tree but the empty one.
    pub fn new(alloc: Global, namer: N) -> Trees<N>
        ensures { result ≡ no_trees }
    {
        Trees {
            namer,
            folders: Folders::new(alloc),
            opened: None,
            ids: Vec::new(alloc),
            empty: None,
        }
    }

    /// The names of entries that are kept, each once: also those that stand in no folder any more.
    pub fn names(&self) -> &[Vec<u8>]
        ensures value { texts result.now ≡ self.now.names }
        ensures once { (i j : ℕ) → i < length self.now.names → j < length self.now.names
            → slice_index_or self.now.names i [] ≡ slice_index_or self.now.names j [] → i ≡ j }
    {
        self.folders.names.as_slice()
    }

    /// Whether this tree stands here.
    pub fn has(&self, tree: Tree) -> bool
        ensures { IsTrue result ↔ IsTree self.now tree }
    {
        is_known(&self.opened, tree.number, self.folders.nodes.len())
    }

    /// The tree with the leaf at the path, in place of what stood there, under it, and at its proper fronts
    /// (git-fast-import(1), filemodify). The other trees whose objects were not made are given up. Fails where memory
    /// runs out, and then this one is, too.
    pub fn set(
        &mut self,
        alloc: Global,
        tree: Tree,
        path: &[u8],
        leaf: Leaf,
    ) -> Result<Tree, Memory>
        requires tree { IsTree self.old tree }
        requires path { IsPath path.now }
        requires mode { IsLeafMode leaf.mode }
        ensures keeps { Keeps self.old self.new }
        ensures names { AreAmong (kept_names self.new) (kept_names self.old ++ components path.now) }
        ensures map { IfOk result (λ t. StandsFor self.new t (set (components path.now) leaf (map_of self.old tree))) }
        ensures bounded { IfOk result (λ t. IsBounded self.old self.new (map_of self.old tree)) }
        ensures failed { OnErr result (IsEmptied self.new) }
    {
        let whole = Leaf {
            mode: leaf.mode,
            id: whole_id(&leaf.id),
        };
        let base = self.ids.len();
        let start = start_with(self.opened.take(), tree.number, self.folders.nodes.len());
        let opened = match set_in(alloc, &mut self.folders, base, start, path, whole) {
            Ok(opened) => opened,
            Err(_) => {
                drop_unmade(&mut self.folders, base);
                return Err(Memory);
            }
        };
        let number = Some(self.folders.nodes.len());
        self.opened = Some(opened);
        Ok(Tree { number })
    }

    /// The tree without what stands at the path and under it (git-fast-import(1), filedelete). The other trees whose
    /// objects were not made are given up. Fails where memory runs out, and then this one is, too.
    pub fn delete(&mut self, alloc: Global, tree: Tree, path: &[u8]) -> Result<Tree, Memory>
        requires tree { IsTree self.old tree }
        requires path { IsPath path.now }
        ensures keeps { Keeps self.old self.new }
        ensures names { AreAmong self.new.names (kept_names self.old) }
        ensures path { AreAmong self.new.path (components path.now) }
        ensures map { IfOk result (λ t. StandsFor self.new t (delete (components path.now) (map_of self.old tree))) }
        ensures bounded { IfOk result (λ t. IsBounded self.old self.new (map_of self.old tree)) }
        ensures failed { OnErr result (IsEmptied self.new) }
    {
        let base = self.ids.len();
        let start = start_with(self.opened.take(), tree.number, self.folders.nodes.len());
        let left = match delete_in(alloc, &mut self.folders, base, start, path) {
            Ok(left) => left,
            Err(_) => {
                drop_unmade(&mut self.folders, base);
                return Err(Memory);
            }
        };
        let (number, opened) = parts_of(left, self.folders.nodes.len());
        self.opened = opened;
        Ok(Tree { number })
    }

    /// The tree with what the source holds at the target too (git-fast-import(1), filecopy); none where the source
    /// holds nothing, and then the tree stands as before. The other trees whose objects were not made are given up.
    /// Fails where memory runs out, and then this one is, too.
    pub fn copy(
        &mut self,
        alloc: Global,
        tree: Tree,
        source: &[u8],
        target: &[u8],
    ) -> Result<Option<Tree>, Memory>
        requires tree { IsTree self.old tree }
        requires source { IsPath source.now }
        requires target { IsPath target.now }
        ensures keeps { Keeps self.old self.new }
        ensures names { AreAmong (kept_names self.new) (kept_names self.old
            ++ (components source.now ++ components target.now)) }
        ensures none { IfOk result (λ o. IfNone o (held (components source.now) (map_of self.old tree) ≡ [])) }
        ensures left { IfOk result (λ o. IfNone o (StandsFor self.new tree (map_of self.old tree))) }
        ensures still { IfOk result (λ o. IfNone o (IsStill self.old self.new)) }
        ensures some { IfOk result (λ o. IfSome o (λ t. held (components source.now) (map_of self.old tree) ≢ [])) }
        ensures map { IfOk result (λ o. IfSome o (λ t. StandsFor self.new t
            (copy (components source.now) (components target.now) (map_of self.old tree)))) }
        ensures bounded { IfOk result (λ o. IfSome o (λ t. IsBounded self.old self.new (map_of self.new t))) }
        ensures failed { OnErr result (IsEmptied self.new) }
    {
        self.transfer(alloc, tree, source, target, Transfer::Copy)
    }

    /// The tree with what the source holds at the target, and no more at the source, which is removed first
    /// (git-fast-import(1), filerename); none where the source holds nothing, and then the tree stands as before. The
    /// other trees whose objects were not made are given up. Fails where memory runs out, and then this one is, too.
    pub fn rename(
        &mut self,
        alloc: Global,
        tree: Tree,
        source: &[u8],
        target: &[u8],
    ) -> Result<Option<Tree>, Memory>
        requires tree { IsTree self.old tree }
        requires source { IsPath source.now }
        requires target { IsPath target.now }
        ensures keeps { Keeps self.old self.new }
        ensures names { AreAmong (kept_names self.new) (kept_names self.old
            ++ (components source.now ++ components target.now)) }
        ensures none { IfOk result (λ o. IfNone o (held (components source.now) (map_of self.old tree) ≡ [])) }
        ensures left { IfOk result (λ o. IfNone o (StandsFor self.new tree (map_of self.old tree))) }
        ensures still { IfOk result (λ o. IfNone o (IsStill self.old self.new)) }
        ensures some { IfOk result (λ o. IfSome o (λ t. held (components source.now) (map_of self.old tree) ≢ [])) }
        ensures map { IfOk result (λ o. IfSome o (λ t. StandsFor self.new t
            (rename (components source.now) (components target.now) (map_of self.old tree)))) }
        ensures bounded { IfOk result (λ o. IfSome o (λ t. IsBounded self.old self.new (map_of self.new t))) }
        ensures failed { OnErr result (IsEmptied self.new) }
    {
        self.transfer(alloc, tree, source, target, Transfer::Rename)
    }

    /// The tree after a copy or a rename; none where the source holds nothing.
    fn transfer(
        &mut self,
        alloc: Global,
        tree: Tree,
        source: &[u8],
        target: &[u8],
        way: Transfer,
    ) -> Result<Option<Tree>, Memory>
        requires tree { IsTree self.old tree }
        requires source { IsPath source.now }
        requires target { IsPath target.now }
        ensures keeps { Keeps self.old self.new }
        ensures names { AreAmong (kept_names self.new) (kept_names self.old
            ++ (components source.now ++ components target.now)) }
        ensures none { IfOk result (λ o. IfNone o (held (components source.now) (map_of self.old tree) ≡ [])) }
        ensures left { IfOk result (λ o. IfNone o (StandsFor self.new tree (map_of self.old tree))) }
        ensures still { IfOk result (λ o. IfNone o (IsStill self.old self.new)) }
        ensures some { IfOk result (λ o. IfSome o (λ t. held (components source.now) (map_of self.old tree) ≢ [])) }
        ensures map { IfOk result (λ o. IfSome o (λ t. StandsFor self.new t
            (transferred way (components source.now) (components target.now) (map_of self.old tree)))) }
        ensures bounded { IfOk result (λ o. IfSome o (λ t. IsBounded self.old self.new (map_of self.new t))) }
        ensures failed { OnErr result (IsEmptied self.new) }
    {
        let base = self.ids.len();
        let start = start_with(self.opened.take(), tree.number, self.folders.nodes.len());
        let moved = match transfer_from(
            alloc,
            &mut self.folders,
            base,
            start,
            source,
            target,
            way,
        ) {
            Ok(moved) => moved,
            Err(_) => {
                drop_unmade(&mut self.folders, base);
                return Err(Memory);
            }
        };
        match moved {
            Ok(number) => Ok(Some(Tree { number })),
            Err(left) => {
                let (_, opened) = parts_of(left, self.folders.nodes.len());
                self.opened = opened;
                Ok(None)
            }
        }
    }

    /// Makes the objects, as `make` does. After a fault folders without objects may be left.
    fn make_objects(&mut self, alloc: Global, tree: Tree) -> Result<Made<N>, TreeFault>
        requires { IsTree self.old tree }
        ensures makes { IfOk result (λ m. Makes N.id_of self.old self.new (map_of self.old tree) m.tree m.id
            m.objects.items) }
        ensures keeps { OnErr result (Keeps self.old self.new) }
        ensures names { AreAmong (kept_names self.new) (kept_names self.old) }
        ensures bounded { IfOk result (λ m. IsEmptied self.new) }
        ensures err { IfErr result (ExplainsTree N.id_of (map_of self.old tree)) }
    {
        let base = self.ids.len();
        let start = start_with(self.opened.take(), tree.number, self.folders.nodes.len());
        let there = root_from(alloc, &mut self.folders, start)?;
        let root = root_number(alloc, &mut self.folders, base, self.empty, there)?;
        let (number, objects) = make_folders(
            alloc,
            &self.namer,
            &mut self.folders,
            &mut self.ids,
            root,
        )?;
        let id = self.ids[number];
        let (tree, empty) = kept(there, self.empty, number);
        self.empty = empty;
        Ok(Made { tree, id, objects })
    }

    /// Makes the objects of the tree's directories that have none yet (git objects, tree). The other trees whose
    /// objects were not made are given up. Fails where memory runs out or the body of a directory is above the limit,
    /// and then no object was made, and this one is given up, too.
    pub fn make(&mut self, alloc: Global, tree: Tree) -> Result<Made<N>, TreeFault>
        requires { IsTree self.old tree }
        ensures makes { IfOk result (λ m. Makes N.id_of self.old self.new (map_of self.old tree) m.tree m.id
            m.objects.items) }
        ensures keeps { OnErr result (Keeps self.old self.new) }
        ensures names { AreAmong (kept_names self.new) (kept_names self.old) }
        ensures emptied { IsEmptied self.new }
        ensures err { IfErr result (ExplainsTree N.id_of (map_of self.old tree)) }
    {
        match self.make_objects(alloc, tree) {
            Ok(made) => Ok(made),
            Err(fault) => {
                self.opened = None;
                drop_unmade(&mut self.folders, self.ids.len());
                Err(fault)
            }
        }
    }
}
