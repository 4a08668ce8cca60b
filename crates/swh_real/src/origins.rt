// Files and folders of the system as inputs.
ghost use Rattle.std.specs.Prelude.{◌≡◌, ◌≢◌, ◌≤◌, ◌↔◌, ◌⊎◌, IsTrue, List, ℕ};

use crate::{RealFolder, RealSource};
use std::alloc::{AllocError, Global};
use std::fs::File;
use std::io::ErrorKind;
use std::marker::Model;
use std::rt::Files;
use std::{fs, io};
use swh_files::Count;
use swh_outside::{Opened, Origins, PathCounts};

/// Inputs in the file system. Where a folder stands no input is found, and no folder where anything else does, whoever
/// may read it. A contract sees the count of faults and those of the paths.
#[derive(Drop)]
pub struct RealOrigins<R: Files<File = File> + Drop> {
    rt: R,
    alloc: Global,
    count: Count,
    counts: PathCounts,
}

impl<R: Files<File = File> + Drop> Model for RealOrigins<R> {
    ghost use Rattle.std.specs.Prelude.{ℕ};
    ghost use Rattle.swh_outside.specs.declared.path_counts.PathCounts as counted;

    ghost Value = { ℕ × counted.PathCounts };

    ghost view = { λ origins. (origins.count, origins.counts) };
}

impl<R: Files<File = File> + Drop> RealOrigins<R> {
    ghost use Rattle.swh_outside.specs.Counts.{count_at, is_counted};
    ghost use Rattle.swh_outside.specs.Faults.{Rose, one_more};

    pub fn new(rt: R, alloc: Global) -> Self
        ensures no_fault { result.0 ≡ 0 }
        ensures no_path_fault { (p : List ℕ) → count_at result.1 p ≡ 0 }
    {
        RealOrigins {
            rt,
            alloc,
            count: Count::new(),
            counts: PathCounts::new(alloc),
        }
    }

    /// How often it has failed, what it gave included once it is given back.
    pub fn faults(&self) -> u64
        ensures { result ≡ self.now.0 }
    {
        self.count.get()
    }

    /// How often it has failed at a path.
    pub fn path_faults(&self, path: &str) -> u64
        ensures { result ≡ count_at self.now.1 path.now }
    {
        self.counts.at(path)
    }

    // Counts a fault at a path.
    fn refuse(&mut self, path: &str)
        ensures later { self.old.0 ≤ self.new.0 }
        ensures rose { Rose self.old.0 self.new.0 }
        ensures path_later { (p : List ℕ) → count_at self.old.1 p ≤ count_at self.new.1 p }
        ensures path_rose { count_at self.new.1 path.now ≡ one_more (count_at self.old.1 path.now) }
        ensures other_paths { is_counted self.old.1 path.now → (p : List ℕ) → p ≢ path.now
            → count_at self.new.1 p ≡ count_at self.old.1 p }
        ensures other_places { (p : List ℕ) → p ≢ path.now → is_counted self.old.1 p
            → count_at self.new.1 p ≡ count_at self.old.1 p }
        ensures places { (p : List ℕ) → is_counted self.old.1 p → is_counted self.new.1 p }
    {
        let _ = self.count.refuse();
        self.counts.raise(path);
    }
}

impl<R: Files<File = File> + AllocGlobal + Clone + Drop + Send> Origins for RealOrigins<R> {
    ghost use Rattle.std.specs.Prelude.{None};
    ghost use Rattle.swh_outside.specs.Counts.{count_at, is_counted};

    type S = RealSource;

    type F = RealFolder<R>;

    ghost tells = { ⊥ };

    ghost file_at = { λ _ _. None };

    ghost folder_at = { λ _ _. None };

    ghost faults = { λ origins. origins.0 };

    ghost path_faults = { λ origins. count_at origins.1 };

    ghost has_place = { λ origins. is_counted origins.1 };

    fn file(&mut self, path: &str) -> Opened<RealSource> {
        if self.counts.place(path).is_err() {
            return Opened::Memory;
        }
        let Ok(name) = String::from_str(self.alloc, path) else {
            return Opened::Memory;
        };
        match open_input(&self.rt, path) {
            Ok(Some(file)) => Opened::Found(RealSource::new(file, name)),
            Ok(None) => Opened::NotFound,
            Err(fault) if is_absence(fault.kind()) => Opened::NotFound,
            Err(_) => {
                self.refuse(path);
                Opened::Failed
            }
        }
    }

    fn folder(&mut self, path: &str) -> Opened<RealFolder<R>> {
        if self.counts.place(path).is_err() {
            return Opened::Memory;
        }
        let name = String::from_str(self.alloc, path);
        let rt: Result<R, AllocError> = self.rt.clone();
        let (Ok(name), Ok(rt)) = (name, rt) else {
            return Opened::Memory;
        };
        match is_folder(&self.rt, path) {
            Ok(true) => Opened::Found(RealFolder::new(rt, self.alloc, name)),
            Ok(false) => Opened::NotFound,
            Err(fault) if is_absence(fault.kind()) => Opened::NotFound,
            Err(_) => {
                self.refuse(path);
                Opened::Failed
            }
        }
    }

    fn back(&mut self, source: RealSource) {
        if source.faults() > 0 {
            self.refuse(source.path());
        }
    }

    fn back_folder(&mut self, folder: RealFolder<R>) {
        if folder.faults() > 0 {
            self.refuse(folder.path());
        }
    }
}

// Whether a folder stands at a path, or a link to one.
fn is_folder<R: Files>(rt: &R, path: &str) -> io::Result<bool> {
    Ok(fs::metadata(rt, path)?.is_dir())
}

// Opens the input at a path, unless a folder stands there. That is looked at before, since a folder that may not be read
// does not open, and is none the less no input.
fn open_input<R: Files<File = File>>(rt: &R, path: &str) -> io::Result<Option<File>> {
    if is_folder(rt, path)? {
        return Ok(None);
    }
    Ok(Some(File::open(rt, path)?))
}

// Nothing stands at a path that does not lead on either: one of its folders is absent, or is no folder.
fn is_absence(kind: ErrorKind) -> bool
    ensures { IsTrue result ↔ ((kind ≡ ErrorKind.NotFound) ⊎ (kind ≡ ErrorKind.NotADirectory)) }
{
    matches!(kind, ErrorKind::NotFound | ErrorKind::NotADirectory)
}
