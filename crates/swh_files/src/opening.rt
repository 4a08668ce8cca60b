// Opening the files of an archive, which are ordinary files: no links, pipes or devices.
use std::fs::{File, Metadata, OpenOptions};
use std::io::ErrorKind;
use std::os::unix::fs::MetadataExt;
use std::rt::Files;
use std::{fs, io};

/// What the files of a depot are opened for.
#[derive(Clone, Copy)]
pub enum Access {
    Read,
    /// Reading and writing. A file that does not stand is made at its first write.
    Write,
    /// Reading and writing. A file that does not stand is made when it is opened.
    Make,
}

/// Opens the file at a path, if one stands there; one that may not be written is opened for reading. It fails where a
/// link stands there, or no ordinary file: that is looked at before, since opening a pipe may wait for ever, and again
/// afterwards, since what was opened has to be what stands there.
pub fn open_ordinary<R: Files<File = File>>(
    rt: &R,
    path: &str,
    access: Access,
) -> io::Result<Option<File>> {
    if look_at(rt, path)?.is_none() {
        return Ok(None);
    }
    let file = open_file(rt, path, access)?;
    let opened = file.metadata()?;
    match look_at(rt, path)? {
        Some(seen) if is_same(&seen, &opened) => Ok(Some(file)),
        _ => Err(not_ordinary()),
    }
}

/// Locks a file for as long as it is open: against all others for who writes, and against writers for who reads.
pub fn lock_file(file: &File, access: Access) -> io::Result<()> {
    let locked = match access {
        Access::Read => file.try_lock_shared(),
        Access::Write | Access::Make => file.try_lock(),
    };
    match locked {
        Ok(()) => Ok(()),
        Err(fault) => Err(io::Error::from(fault)),
    }
}

// The ordinary file at a path, if anything stands there.
fn look_at<R: Files<File = File>>(rt: &R, path: &str) -> io::Result<Option<Metadata>> {
    match fs::symlink_metadata(rt, path) {
        Ok(seen) if seen.is_file() => Ok(Some(seen)),
        Ok(_) => Err(not_ordinary()),
        Err(fault) if fault.kind() == ErrorKind::NotFound => Ok(None),
        Err(fault) => Err(fault),
    }
}

fn open_file<R: Files<File = File>>(rt: &R, path: &str, access: Access) -> io::Result<File> {
    match access {
        Access::Read => File::open(rt, path),
        Access::Write | Access::Make => match OpenOptions::new()
            .read(true)
            .write(true)
            .open(rt, path)
        {
            Err(fault) if may_be_read(fault.kind()) => File::open(rt, path),
            opened => opened,
        },
    }
}

// The writing alone may be what was refused.
fn may_be_read(kind: ErrorKind) -> bool {
    matches!(
        kind,
        ErrorKind::PermissionDenied | ErrorKind::ReadOnlyFilesystem
    )
}

fn is_same(one: &Metadata, other: &Metadata) -> bool {
    one.dev() == other.dev() && one.ino() == other.ino()
}

fn not_ordinary() -> io::Error {
    io::Error::from(ErrorKind::InvalidInput)
}
