// Folders of the system, with files named by their decimal numbers.
ghost use Rattle.std.specs.Prelude.{◌≡◌};

use crate::RealDisk;
use std::alloc::{AllocError, Global};
use std::fs::File;
use std::marker::Model;
use std::rt::Files;
use swh_files::{Access, Count, NumberedFile};
use swh_outside::{Depot, OutFault};

/// Archives' folders in the file system. A file that is absent is made at its first write, and its folder with it. A link
/// in the place of a file, or what is no ordinary file, is not opened: that fails. While file 0 of a folder is open for
/// writing nobody else opens it, here or in another process: that fails too. Those who open it for reading alone do not
/// shut each other out. A contract sees the count of faults.
#[derive(Drop)]
pub struct RealDepot<R: Files<File = File> + Drop> {
    rt: R,
    alloc: Global,
    access: Access,
    count: Count,
}

impl<R: Files<File = File> + Drop> Model for RealDepot<R> {
    ghost use Rattle.std.specs.Prelude.{ℕ};

    ghost Value = { ℕ };

    ghost view = { λ depot. depot.count };
}

impl<R: Files<File = File> + Drop> RealDepot<R> {
    /// Files are opened for reading and writing, and those that may not be written for reading.
    pub fn to_write(rt: R, alloc: Global) -> Self
        ensures { result ≡ 0 }
    {
        RealDepot {
            rt,
            alloc,
            access: Access::Write,
            count: Count::new(),
        }
    }

    /// As `to_write`, but that files which are absent are made, with their folder, when they are opened.
    pub fn to_make(rt: R, alloc: Global) -> Self
        ensures { result ≡ 0 }
    {
        RealDepot {
            rt,
            alloc,
            access: Access::Make,
            count: Count::new(),
        }
    }

    /// Files are opened for reading alone: each write to one fails.
    pub fn to_read(rt: R, alloc: Global) -> Self
        ensures { result ≡ 0 }
    {
        RealDepot {
            rt,
            alloc,
            access: Access::Read,
            count: Count::new(),
        }
    }

    /// How often it has failed.
    pub fn faults(&self) -> u64
        ensures { result ≡ self.now }
    {
        self.count.get()
    }
}

impl<R: Files<File = File> + Clone + Drop + Send> Depot for RealDepot<R> {
    ghost use Rattle.swh_outside.specs.Files.{absent};

    type D = RealDisk<R>;

    ghost tells = { ⊥ };

    ghost files = { λ _ _ _. absent };

    ghost has_place = { λ _ _ _. Unit {0} };

    ghost faults = { λ depot. depot };

    fn open(&mut self, dir: &str, file: u32) -> Result<RealDisk<R>, OutFault> {
        if dir.is_empty() {
            return Err(OutFault::from(self.count.refuse()));
        }
        let place = NumberedFile::new(self.alloc, dir, file);
        let rt: Result<R, AllocError> = self.rt.clone();
        let (Ok(place), Ok(rt)) = (place, rt) else {
            return Err(OutFault::Memory);
        };
        match place.open(&rt, self.access) {
            Ok(file) => Ok(RealDisk::new(rt, place, self.access, file)),
            Err(_) => Err(OutFault::from(self.count.refuse())),
        }
    }

    fn close(&mut self, _dir: &str, _file: u32, disk: RealDisk<R>) {
        if disk.faults() > 0 {
            let _ = self.count.refuse();
        }
    }
}
