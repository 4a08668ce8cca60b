// Where a file of an archive stands, and what keeps its name.
ghost use Rattle.std.specs.Prelude.{◌≡◌, ◌↔◌, IsTrue, IsOk, if◌then◌else◌};

use crate::barrier::barrier_of;
use crate::opening::{Access, lock_file, open_ordinary};
use std::alloc::{AllocError, Global};
use std::fs::File;
use std::io::ErrorKind;
use std::os::unix::fs::FileExt;
use std::rt::Files;
use std::{fs, io};

/// What a barrier on a file owes to its name.
#[derive(Clone, Copy)]
pub enum Names {
    /// Nothing: the name is on the disk, or nothing is written.
    Settled,
    /// That the folder is synced, which holds the name of the file.
    Own,
    /// That the folders above are synced too, each of which holds the name of the one below.
    All,
}

/// A file of a folder, by its number, and the ledger beside it.
#[derive(Drop)]
pub struct NumberedFile {
    folder: String,
    path: String,
    ledger: String,
    is_ledger: bool,
}

impl NumberedFile {
    /// The place of a file in a folder that has a name.
    pub fn new(alloc: Global, folder: &str, file: u32) -> Result<Self, AllocError> {
        Ok(NumberedFile {
            folder: String::from_str(alloc, folder)?,
            path: format!(in alloc; "{folder}/{file}")?,
            ledger: format!(in alloc; "{folder}/0")?,
            is_ledger: file == 0,
        })
    }

    /// Opens the file, if it stands or is to be made.
    pub fn open<R: Files<File = File>>(&self, rt: &R, access: Access) -> io::Result<Option<File>> {
        match (self.find(rt, access)?, access) {
            (None, Access::Make) => Ok(Some(self.make(rt)?)),
            (found, _) => Ok(found),
        }
    }

    // Opens the file, if it stands. A ledger is locked for as long as it is open.
    fn find<R: Files<File = File>>(&self, rt: &R, access: Access) -> io::Result<Option<File>> {
        let Some(file) = open_ordinary(rt, self.path.as_str(), access)? else {
            return Ok(None);
        };
        if self.is_ledger {
            lock_file(&file, access)?;
        }
        Ok(Some(file))
    }

    /// Makes the file, which did not stand when it was looked for, and the folders above it. It fails where somebody
    /// else has made it since.
    pub fn make<R: Files<File = File>>(&self, rt: &R) -> io::Result<File> {
        fs::create_dir_all(rt, self.folder.as_str())?;
        let file = File::create_new(rt, self.path.as_str())?;
        if self.is_ledger {
            lock_file(&file, Access::Write)?;
        }
        Ok(file)
    }

    /// What the first barrier owes, when the file has been opened: a run before this one may have been killed between
    /// making the file and that barrier. No ledger is made before the folders above are synced.
    pub fn names<R: Files<File = File>>(&self, rt: &R, access: Access) -> Names
        ensures { (result ≡ Names.Settled) ↔ (access ≡ Access.Read) }
    {
        match access {
            Access::Read => Names::Settled,
            Access::Write | Access::Make => owed(is_made(rt, self.ledger.as_str())),
        }
    }

    /// Brings these names to the disk.
    pub fn sync_names<R: Files<File = File>>(&self, rt: &R, names: Names) -> io::Result<()> {
        match names {
            Names::Settled => Ok(()),
            Names::Own => sync_folder(rt, self.folder.as_str()),
            Names::All => {
                sync_folder(rt, self.folder.as_str())?;
                sync_above(rt, self.folder.as_str())
            }
        }
    }
}

// What is owed to the name of a file that may be written, by whether the ledger beside it has all of its beginning.
fn owed(is_made: bool) -> Names
    ensures { result ≡ (if is_made then Names.Own else Names.All) }
{
    if is_made { Names::Own } else { Names::All }
}

// Whether these are the first bytes of a ledger that has all of its beginning, by what a read of them came to.
fn begins(read: &io::Result<()>, first: u8) -> bool
    ensures { IsTrue result ↔ (IsOk read.now × (first ≡ 83)) }
{
    read.is_ok() && first == b'S'
}

// The ledger has all of its beginning, of which the first byte was written last. Where that cannot be seen it is taken
// for one that is not made, since then more is synced.
fn is_made<R: Files<File = File>>(rt: &R, ledger: &str) -> bool {
    let Ok(Some(file)) = open_ordinary(rt, ledger, Access::Read) else {
        return false;
    };
    let mut beginning = [0; 9];
    let read = file.read_exact_at(&mut beginning, 0);
    begins(&read, beginning[0])
}

fn sync_folder<R: Files<File = File>>(rt: &R, folder: &str) -> io::Result<()> {
    File::open(rt, folder)?.sync_all()
}

// Syncs the folders above one, as far as its path names them.
fn sync_above<R: Files<File = File>>(rt: &R, folder: &str) -> io::Result<()> {
    let top = if folder.starts_with('/') { "/" } else { "." };
    sync_if_allowed(rt, top)?;
    for end in 1..folder.len() {
        if let Some((above, rest)) = folder.split_at_checked(end)
            && rest.starts_with('/')
        {
            sync_if_allowed(rt, above)?;
        }
    }
    Ok(())
}

// Syncs a folder above. One that may not be opened, or whose file system knows no barrier, is left to the system: it is
// somebody else's.
fn sync_if_allowed<R: Files<File = File>>(rt: &R, folder: &str) -> io::Result<()> {
    let file = match File::open(rt, folder) {
        Ok(file) => file,
        Err(fault) if fault.kind() == ErrorKind::PermissionDenied => return Ok(()),
        Err(fault) => return Err(fault),
    };
    barrier_of(file.sync_all(), Access::Read)
}
