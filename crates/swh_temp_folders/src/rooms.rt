// Folders for tests, and what stands in them at first.
use std::alloc::{AllocError, Global};
use std::fs::Permissions;
use std::os::unix::fs::{PermissionsExt, symlink};
use std::test::Fail;
use std::{env, fs};

/// What stands at a name in a folder.
#[derive(Clone, Copy)]
pub enum Thing {
    /// A file of these bytes.
    File(&'static [u8]),
    /// A file that may not be opened, but by who runs as root.
    Shut,
    /// A link to a path.
    Link(&'static str),
    Folder,
}

/// A name in a folder, and what stands there.
pub type Laid = (&'static str, Thing);

/// The path of a name in a folder.
pub fn path_in(alloc: Global, folder: &str, name: &str) -> Result<String, AllocError> {
    format!(in alloc; "{folder}/{name}")
}

fn shut(rt: &HostRuntime, path: &str) -> Result<(), Fail> {
    fs::write(rt, path, "abc")?;
    Ok(fs::set_permissions(rt, path, Permissions::from_mode(0))?)
}

fn lay(rt: &HostRuntime, path: &str, thing: Thing) -> Result<(), Fail> {
    match thing {
        Thing::File(bytes) => Ok(fs::write(rt, path, bytes)?),
        Thing::Shut => shut(rt, path),
        Thing::Link(target) => Ok(symlink(rt, target, path)?),
        Thing::Folder => Ok(fs::create_dir(rt, path)?),
    }
}

fn fill(rt: &HostRuntime, folder: &str, things: &[Laid]) -> Result<(), Fail> {
    let _ = fs::remove_dir_all(rt, folder);
    lay(rt, folder, Thing::Folder)?;
    for (name, thing) in things {
        let path = path_in(rt.alloc(), folder, name)?;
        lay(rt, path.as_str(), *thing)?;
    }
    Ok(())
}

/// Where the folder of this name stands.
pub fn temporary_path(rt: &HostRuntime, name: &str) -> Result<String, Fail> {
    let parent = env::temp_dir(rt)?;
    Ok(format!(in rt.alloc(); "{}/swh_real_{name}", parent.as_path().display())?)
}

/// A new folder that no other test uses, in which these things stand.
pub fn fresh_room(rt: &HostRuntime, name: &str, things: &[Laid]) -> Result<String, Fail> {
    let folder = temporary_path(rt, name)?;
    fill(rt, folder.as_str(), things)?;
    Ok(folder)
}

/// Removes a folder with what stands in it.
pub fn clear(rt: &HostRuntime, folder: &str) -> Result<(), Fail> {
    Ok(fs::remove_dir_all(rt, folder)?)
}

/// Says whether the file at a path has these bytes.
pub fn is_file(rt: &HostRuntime, path: &str, bytes: &[u8]) -> bool {
    match fs::read(rt, path) {
        Ok(read) => read.as_slice() == bytes,
        Err(_) => false,
    }
}

/// Says whether the file of a folder has these bytes.
pub fn is_file_in(
    rt: &HostRuntime,
    folder: &str,
    name: &str,
    bytes: &[u8],
) -> Result<bool, AllocError> {
    let path = path_in(rt.alloc(), folder, name)?;
    Ok(is_file(rt, path.as_str(), bytes))
}

/// Says whether something stands at a name of a folder.
pub fn stands(rt: &HostRuntime, folder: &str, name: &str) -> Result<bool, AllocError> {
    let path = path_in(rt.alloc(), folder, name)?;
    Ok(fs::symlink_metadata(rt, path.as_str()).is_ok())
}
