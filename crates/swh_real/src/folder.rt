// A folder of the system.
ghost use Rattle.std.specs.Prelude.{◌≡◌, string_bytes, IfOk};
ghost use Rattle.swh_outside.specs.Folder.{AreNames};
ghost use Rattle.swh_folder_names.specs.Names.{names_of};

use crate::RealSource;
use std::alloc::Global;
use std::fs::File;
use std::io;
use std::io::ErrorKind;
use std::marker::Model;
use std::rt::Files;
use swh_files::{
    Access, Count, fault_of, items_at, look_inside, look_through, open_ordinary, path_in,
};
use swh_outside::{Folder, Item, OutFault};

/// A folder of the file system. In it no link is followed, and only folders and ordinary files are opened; a path that
/// would leave it fails. Where somebody else puts a link in the place of a folder between the look and the opening, the
/// link is followed. A contract sees the count of faults and where the folder was opened.
#[derive(Drop)]
pub struct RealFolder<R: Files<File = File> + Drop> {
    rt: R,
    alloc: Global,
    path: String,
    count: Count,
}

impl<R: Files<File = File> + Drop> Model for RealFolder<R> {
    ghost use Rattle.std.specs.Prelude.{ℕ, List, string_bytes};

    ghost Value = { ℕ × List ℕ };

    ghost view = { λ folder. (folder.count, string_bytes folder.path) };
}

impl<R: Files<File = File> + Drop> RealFolder<R> {
    /// The folder that stands at a path, which may be a link to it.
    pub fn new(rt: R, alloc: Global, path: String) -> Self
        ensures no_fault { result.0 ≡ 0 }
        ensures path { result.1 ≡ string_bytes path }
    {
        RealFolder {
            rt,
            alloc,
            path,
            count: Count::new(),
        }
    }

    /// How often it has failed.
    pub fn faults(&self) -> u64
        ensures { result ≡ self.now.0 }
    {
        self.count.get()
    }

    /// Where it was opened.
    pub fn path(&self) -> &str
        ensures { result.now ≡ self.now.1 }
    {
        self.path.as_str()
    }
}

// What stands in the folder at a path of a folder.
fn items_in<R: Files + AllocGlobal + Clone + Drop>(
    rt: &R,
    alloc: Global,
    root: &str,
    dir: &str,
) -> Result<Vec<Item>, OutFault>
    ensures { IfOk result (λ items. AreNames (names_of items.items)) }
{
    if let Err(fault) = look_through(rt, alloc, root, dir) {
        return Err(fault_of(&fault));
    }
    let path = path_in(alloc, root, dir)?;
    items_at(rt, alloc, path.as_str())
}

// The ordinary file at a path of a folder.
fn file_in<R: Files<File = File>>(
    rt: &R,
    alloc: Global,
    root: &str,
    path: &str,
) -> io::Result<File> {
    look_inside(path)?;
    if let Some((folder, _)) = path.rsplit_once('/') {
        look_through(rt, alloc, root, folder)?;
    }
    let whole = path_in(alloc, root, path)?;
    match open_ordinary(rt, whole.as_str(), Access::Read)? {
        Some(file) => Ok(file),
        None => Err(io::Error::from(ErrorKind::NotFound)),
    }
}

fn source_in<R: Files<File = File>>(
    rt: &R,
    alloc: Global,
    root: &str,
    path: &str,
) -> Result<RealSource, OutFault>
    ensures path { IfOk result (λ source. source.1 ≡ path.now) }
    ensures no_fault { IfOk result (λ source. source.0 ≡ 0) }
{
    let name = String::from_str(alloc, path)?;
    match file_in(rt, alloc, root, path) {
        Ok(file) => Ok(RealSource::new(file, name)),
        Err(fault) => Err(fault_of(&fault)),
    }
}

impl<R: Files<File = File> + AllocGlobal + Clone + Drop + Send> Folder for RealFolder<R> {
    ghost use Rattle.swh_outside.specs.Folder.{nothing};

    type S = RealSource;

    ghost tells = { ⊥ };

    ghost holds = { λ _. nothing };

    ghost opened_at = { λ folder. folder.1 };

    ghost faults = { λ folder. folder.0 };

    fn list(&mut self, alloc: Global, dir: &str) -> Result<Vec<Item>, OutFault> {
        match items_in(&self.rt, alloc, self.path.as_str(), dir) {
            Ok(items) => Ok(items),
            Err(OutFault::Memory) => Err(OutFault::Memory),
            Err(OutFault::Failed) => Err(OutFault::from(self.count.refuse())),
        }
    }

    fn read(&mut self, path: &str) -> Result<RealSource, OutFault> {
        match source_in(&self.rt, self.alloc, self.path.as_str(), path) {
            Ok(source) => Ok(source),
            Err(OutFault::Memory) => Err(OutFault::Memory),
            Err(OutFault::Failed) => Err(OutFault::from(self.count.refuse())),
        }
    }

    fn back(&mut self, source: RealSource) {
        if source.faults() > 0 {
            let _ = self.count.refuse();
        }
    }
}
