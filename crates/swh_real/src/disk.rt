// A file of the system.
ghost use Rattle.std.specs.Prelude.{◌≡◌};

use std::fs::File;
use std::io;
use std::io::ErrorKind;
use std::marker::Model;
use std::os::unix::fs::FileExt;
use std::rt::Files;
use swh_files::{
    Access, Count, Names, NumberedFile, barrier_of, check_size_limit, forget_cached, read_from,
};
use swh_outside::{Disk, Failed};

/// A file that is read and written at places. One that does not stand is empty, and is made at the first write. A
/// contract sees the count of faults.
#[derive(Drop)]
pub struct RealDisk<R: Files<File = File> + Drop> {
    rt: R,
    place: NumberedFile,
    access: Access,
    file: Option<File>,
    names: Names,
    count: Count,
}

impl<R: Files<File = File> + Drop> Model for RealDisk<R> {
    ghost use Rattle.std.specs.Prelude.{ℕ};

    ghost Value = { ℕ };

    ghost view = { λ disk. disk.count };
}

impl<R: Files<File = File> + Drop> RealDisk<R> {
    /// A disk over the file of a place, as it was opened, or over none where it does not stand.
    pub(crate) fn new(rt: R, place: NumberedFile, access: Access, file: Option<File>) -> Self
        ensures { result ≡ 0 }
    {
        let names = place.names(&rt, access);
        RealDisk {
            rt,
            place,
            access,
            file,
            names,
            count: Count::new(),
        }
    }

    /// How often it has failed.
    pub fn faults(&self) -> u64
        ensures { result ≡ self.now }
    {
        self.count.get()
    }

    // Makes the file where it does not stand, and writes.
    fn write(&mut self, at: u64, bytes: &[u8]) -> io::Result<()>
        ensures { self.new ≡ self.old }
    {
        if let Access::Read = self.access {
            return Err(io::Error::from(ErrorKind::PermissionDenied));
        }
        check_size_limit(at, bytes)?;
        let file = match self.file.take() {
            Some(file) => file,
            None => self.place.make(&self.rt)?,
        };
        let written = file.write_all_at(bytes, at);
        if written.is_err() {
            forget_cached(&file);
        }
        self.file = Some(file);
        written
    }

    // The first barrier on a file that stands is one on its name too.
    fn settle(&mut self) -> io::Result<()>
        ensures { self.new ≡ self.old }
    {
        let Some(file) = &self.file else {
            return Ok(());
        };
        if let Err(fault) = sync_file(file, self.access) {
            forget_cached(file);
            return Err(fault);
        }
        self.place.sync_names(&self.rt, self.names)?;
        self.names = Names::Settled;
        Ok(())
    }
}

// A barrier on a file, which another run may have written: on its bytes and its length, and not on its times, which no
// run reads.
fn sync_file(file: &File, access: Access) -> io::Result<()> {
    barrier_of(file.sync_data(), access)
}

impl<R: Files<File = File> + Drop + Send> Disk for RealDisk<R> {
    ghost use Rattle.swh_outside.specs.Files.{absent};

    ghost tells = { ⊥ };

    ghost file = { λ _. absent };

    ghost faults = { λ disk. disk };

    ghost sees_image = { λ disk told. absurd told };

    fn len(&mut self) -> Result<u64, Failed> {
        let Some(file) = &self.file else {
            return Ok(0);
        };
        match file.metadata() {
            Ok(metadata) => Ok(metadata.len()),
            Err(_) => Err(self.count.refuse()),
        }
    }

    fn read_at(&mut self, at: u64, out: &mut [u8]) -> Result<usize, Failed> {
        let Some(file) = &self.file else {
            return Ok(0);
        };
        match read_from(file, at, out) {
            Ok(count) => Ok(count),
            Err(_) => Err(self.count.refuse()),
        }
    }

    fn write_at(&mut self, at: u64, bytes: &[u8]) -> Result<(), Failed> {
        match self.write(at, bytes) {
            Ok(()) => Ok(()),
            Err(_) => Err(self.count.refuse()),
        }
    }

    fn sync(&mut self) -> Result<(), Failed> {
        match self.settle() {
            Ok(()) => Ok(()),
            Err(_) => Err(self.count.refuse()),
        }
    }
}
