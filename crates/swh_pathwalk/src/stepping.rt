//! The steps of a walk.
ghost use Rattle.std.specs.Prelude.{◌≡◌, ◌++◌, ◌∷◌, [], IfOk, IfErr, OnOk, OnErr, take};
ghost use Rattle.swh_base.specs.declared.kind.Kind.TheVariants.{Directory};
ghost use Rattle.swh_graph.specs.Holding.{IsNotHeld};
ghost use Rattle.swh_graph.specs.Path.{directory_name};
ghost use Rattle.swh_pathwalk.specs.Walk.{
  Steps,
  CannotStep,
  BeginsAt,
  IsEntered,
  Takes,
  IsLevelOf,
  Pops,
  GoesTo,
  slash,
};

use crate::walk::{Level, PathWalk};
use std::alloc::Global;
use swh_base::{Kind, Memory, Name};
use swh_dirfmt::SpelledEntry;
use swh_graph::{GraphFault, directory_at};
use swh_model::Look;

/// The mode of a folder, its digits read as a decimal number.
const FOLDER: u32 = 40_000;

/// The directory at this place of the path, of which nothing was given.
fn level_of<'a, L: Look>(
    alloc: Global,
    look: &'a L,
    directory: Name,
    front: usize,
    nested: bool,
) -> Result<Level<'a>, GraphFault>
    requires { directory.kind ≡ Directory }
    ensures ok { IfOk result (λ level. IsLevelOf (L.archive look.now).bodies directory front nested level) }
    ensures err { IfErr result (IsNotHeld (L.archive look.now).bodies directory) }
{
    let entries = directory_at(alloc, look, directory)?;
    Ok(Level {
        front,
        entries,
        next: 0,
        nested,
    })
}

fn push_level<'a>(levels: &mut Vec<Level<'a>>, level: Level<'a>) -> Result<(), Memory>
    ensures ok { OnOk result (levels.new.items ≡ levels.old.items ++ level.entry ∷ []) }
    ensures err { OnErr result (levels.new.items ≡ levels.old.items) }
{
    levels.push(level)?;
    Ok(())
}

/// Takes the innermost directory of which something is to come, with those inside of it.
fn pop_with_entries<'a>(levels: &mut Vec<Level<'a>>) -> Option<Level<'a>>
    ensures { Pops levels.old.items result levels.new.items }
{
    while let Some(level) = levels.pop() {
        if level.next < level.entries.len() {
            return Some(level);
        }
    }
    None
}

/// Goes back to the front of this length, and to the slash behind it.
fn to_front(path: &mut Vec<u8>, front: usize, nested: bool) -> Result<(), Memory>
    ensures ok { OnOk result (path.new.items ≡ take front path.old.items ++ slash nested) }
    ensures err { OnErr result (path.new.items ≡ take front path.old.items) }
{
    path.truncate(front);
    if nested {
        path.push(b'/')?;
    }
    Ok(())
}

/// Goes from the front of this length to a name behind it.
fn go_to(path: &mut Vec<u8>, front: usize, nested: bool, name: &[u8]) -> Result<(), Memory>
    ensures ok { OnOk result (path.new.items ≡ (take front path.old.items ++ slash nested) ++ name.now) }
    ensures front { GoesTo front path.old.items path.new.items }
{
    to_front(path, front, nested)?;
    path.extend_from_slice(name)?;
    Ok(())
}

impl<'a> PathWalk<'a> {
    /// A walk over the paths of the directory of this id. Fails where it is not held, or where memory runs out.
    pub fn begin<L: Look>(
        alloc: Global,
        look: &'a L,
        directory: [u8; 20],
    ) -> Result<PathWalk<'a>, GraphFault>
        ensures ok { IfOk result (λ walk. BeginsAt (L.archive look.now).bodies (directory_name directory) walk) }
        ensures err { IfErr result (IsNotHeld (L.archive look.now).bodies (directory_name directory)) }
    {
        let name = Name {
            kind: Kind::Directory,
            id: directory,
        };
        let level = level_of(alloc, look, name, 0, false)?;
        let mut levels = Vec::new(alloc);
        push_level(&mut levels, level)?;
        Ok(PathWalk {
            path: Vec::new(alloc),
            levels,
        })
    }

    /// Enters the directory at the path.
    fn enter<L: Look>(
        &mut self,
        alloc: Global,
        look: &'a L,
        directory: Name,
    ) -> Result<(), GraphFault>
        requires { directory.kind ≡ Directory }
        ensures ok { OnOk result (IsEntered (L.archive look.now).bodies directory self.old self.new) }
        ensures err { IfErr result (IsNotHeld (L.archive look.now).bodies directory) }
    {
        let level = level_of(alloc, look, directory, self.path.len(), true)?;
        push_level(&mut self.levels, level)?;
        Ok(())
    }

    /// Takes the next entry, and goes to its path.
    fn take_next(&mut self) -> Result<Option<SpelledEntry<'a>>, Memory>
        ensures { IfOk result (λ found. Takes self.old found self.new) }
    {
        let Some(mut level) = pop_with_entries(&mut self.levels) else {
            return Ok(None);
        };
        let entry = level.entries[level.next];
        level.next += 1;
        go_to(&mut self.path, level.front, level.nested, entry.name)?;
        self.levels.push(level)?;
        Ok(Some(entry))
    }

    /// The next entry, whose path is then that of the walk; none at the end. Fails where it is a folder that is not held,
    /// or where memory runs out.
    pub fn next<L: Look>(
        &mut self,
        alloc: Global,
        look: &'a L,
    ) -> Result<Option<SpelledEntry<'a>>, GraphFault>
        ensures ok { IfOk result (λ found. Steps (L.archive look.now).bodies self.old found self.new) }
        ensures err { IfErr result (CannotStep (L.archive look.now).bodies self.old) }
    {
        let Some(entry) = self.take_next()? else {
            return Ok(None);
        };
        if entry.mode == FOLDER {
            let kind = Kind::Directory;
            let id = *entry.id;
            self.enter(alloc, look, Name { kind, id })?;
        }
        Ok(Some(entry))
    }
}
