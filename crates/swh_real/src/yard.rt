// A yard of the system.
ghost use Rattle.std.specs.Prelude.{◌≡◌};

use std::alloc::Global;
use std::fs::File;
use std::io::{ErrorKind, Write};
use std::marker::Model;
use std::rt::Files;
use std::{fs, io};
use swh_files::{Count, ends_in_name, fault_of, is_beside, is_within};
use swh_outside::{Failed, OutFault, Sink, Yard};

/// A yard of the file system. It makes one file and nothing else; or it makes one folder first, and after that what stands
/// in it, and files right beside it whose names begin with its name. Nothing of that may have stood before, and all else
/// fails. Within the folder a path
/// leads through the folder that was made last, or one above it, so that no link is followed, and by a name that may
/// stand in a folder; a link that somebody else puts in the place of such a folder is followed. A contract sees the count
/// of faults.
#[derive(Drop)]
pub struct RealYard<R: Files<File = File> + Drop> {
    rt: R,
    alloc: Global,
    /// How many bytes the path of the folder has that was made first; 0 where none was made.
    first: usize,
    /// The path of the folder that was made last.
    last: String,
    /// The file that was begun last.
    file: Option<File>,
    count: Count,
}

impl<R: Files<File = File> + Drop> Model for RealYard<R> {
    ghost use Rattle.std.specs.Prelude.{ℕ};

    ghost Value = { ℕ };

    ghost view = { λ yard. yard.count };
}

impl<R: Files<File = File> + Drop> RealYard<R> {
    pub fn new(rt: R, alloc: Global) -> Self
        ensures { result ≡ 0 }
    {
        RealYard {
            rt,
            alloc,
            first: 0,
            last: String::new(alloc),
            file: None,
            count: Count::new(),
        }
    }

    /// How often it has failed.
    pub fn faults(&self) -> u64
        ensures { result ≡ self.now }
    {
        self.count.get()
    }
}

fn no_place() -> io::Error {
    io::Error::from(ErrorKind::InvalidInput)
}

// Makes a folder: the first one where no file was begun, or one within that.
fn make_folder<R: Files>(
    rt: &R,
    first: usize,
    last: &str,
    is_begun: bool,
    path: &str,
) -> io::Result<()> {
    let may_stand = if first == 0 {
        !is_begun && ends_in_name(path)
    } else {
        is_within(first, last, path)
    };
    if may_stand {
        fs::create_dir(rt, path)
    } else {
        Err(no_place())
    }
}

// Makes a file: within the first folder, or right beside it, or where nothing was made the only one.
fn make_file<R: Files<File = File>>(
    rt: &R,
    first: usize,
    last: &str,
    is_begun: bool,
    path: &str,
) -> io::Result<File> {
    let may_stand = if first == 0 {
        !is_begun && ends_in_name(path)
    } else {
        is_within(first, last, path) || is_beside(first, last, path)
    };
    if may_stand {
        File::create_new(rt, path)
    } else {
        Err(no_place())
    }
}

fn write_to(file: &mut Option<File>, bytes: &[u8]) -> io::Result<()> {
    match file {
        Some(file) => file.write_all(bytes),
        None => Err(no_place()),
    }
}

impl<R: Files<File = File> + Drop + Send> Sink for RealYard<R> {
    ghost use Rattle.std.specs.Prelude.{[]};

    ghost tells = { ⊥ };

    ghost taken = { λ _. [] };

    ghost faults = { λ yard. yard };

    fn put(&mut self, bytes: &[u8]) -> Result<(), Failed> {
        match write_to(&mut self.file, bytes) {
            Ok(()) => Ok(()),
            Err(_) => Err(self.count.refuse()),
        }
    }
}

impl<R: Files<File = File> + Drop + Send> Yard for RealYard<R> {
    fn folder(&mut self, path: &str) -> Result<(), OutFault> {
        let last = String::from_str(self.alloc, path)?;
        let is_begun = self.file.is_some();
        if let Err(fault) = make_folder(&self.rt, self.first, self.last.as_str(), is_begun, path) {
            return match fault_of(&fault) {
                OutFault::Memory => Err(OutFault::Memory),
                OutFault::Failed => Err(OutFault::from(self.count.refuse())),
            };
        }
        if self.first == 0 {
            self.first = path.len();
        }
        self.last = last;
        Ok(())
    }

    fn file(&mut self, path: &str) -> Result<(), OutFault> {
        let is_begun = self.file.is_some();
        match make_file(&self.rt, self.first, self.last.as_str(), is_begun, path) {
            Ok(file) => {
                self.file = Some(file);
                Ok(())
            }
            Err(fault) => match fault_of(&fault) {
                OutFault::Memory => Err(OutFault::Memory),
                OutFault::Failed => Err(OutFault::from(self.count.refuse())),
            },
        }
    }
}
