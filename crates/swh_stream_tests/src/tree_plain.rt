// A plain map from paths to files, changed as git-fast-import(1) says, with no folders in it.
use crate::tree_changes::Change;
use std::alloc::Global;
use swh_base::Memory;

/// A file: its path, and the byte of its content's id.
#[derive(Drop)]
pub struct File {
    pub path: Vec<u8>,
    pub byte: u8,
}

/// The rest of a path behind a front: empty where they are the same, and else it begins with a slash. None where the path
/// does not begin with the front.
fn behind<'a>(path: &'a [u8], front: &[u8]) -> Option<&'a [u8]> {
    let rest = path.strip_prefix(front)?;
    match rest.first() {
        None => Some(rest),
        Some(byte) => { if *byte == b'/' { Some(rest) } else { None } }
    }
}

fn make_file(alloc: Global, front: &[u8], rest: &[u8], byte: u8) -> Result<File, Memory> {
    let mut path = Vec::from_slice(alloc, front)?;
    path.extend_from_slice(rest)?;
    Ok(File { path, byte })
}

/// The files that are not at the path or under it.
fn without(alloc: Global, files: &[File], path: &[u8]) -> Result<Vec<File>, Memory> {
    let mut out = Vec::new(alloc);
    for one in files {
        if behind(&one.path, path).is_none() {
            out.push(make_file(alloc, &one.path, b"", one.byte)?)?;
        }
    }
    Ok(out)
}

/// The files that are not at the path, under it, or at a front of it.
fn cleared(alloc: Global, files: &[File], path: &[u8]) -> Result<Vec<File>, Memory> {
    let mut out = Vec::new(alloc);
    for one in files {
        if behind(&one.path, path).is_none() && behind(path, &one.path).is_none() {
            out.push(make_file(alloc, &one.path, b"", one.byte)?)?;
        }
    }
    Ok(out)
}

fn set(alloc: Global, files: &[File], path: &[u8], byte: u8) -> Result<Vec<File>, Memory> {
    let mut out = cleared(alloc, files, path)?;
    out.push(make_file(alloc, path, b"", byte)?)?;
    Ok(out)
}

/// With what the source holds among `all` at the target, where it holds something.
fn put(
    alloc: Global,
    all: &[File],
    left: &[File],
    source: &[u8],
    target: &[u8],
) -> Result<Option<Vec<File>>, Memory> {
    let mut out = cleared(alloc, left, target)?;
    let before = out.len();
    for one in all {
        if let Some(rest) = behind(&one.path, source) {
            out.push(make_file(alloc, target, rest, one.byte)?)?;
        }
    }
    if out.len() == before {
        return Ok(None);
    }
    Ok(Some(out))
}

/// The files after a change; none where a source holds nothing.
pub fn changed(
    alloc: Global,
    files: &[File],
    change: &Change,
) -> Result<Option<Vec<File>>, Memory> {
    match change {
        Change::Set(_, byte, path) => Ok(Some(set(alloc, files, path, *byte)?)),
        Change::Delete(path) => Ok(Some(without(alloc, files, path)?)),
        Change::Copy(source, target) => put(alloc, files, files, source, target),
        Change::Rename(source, target) => {
            let left = without(alloc, files, source)?;
            put(alloc, files, left.as_slice(), source, target)
        }
        Change::Clear => Ok(Some(Vec::new(alloc))),
    }
}

/// The files after changes; none where a source holds nothing.
pub fn after(alloc: Global, changes: &[Change]) -> Result<Option<Vec<File>>, Memory> {
    let mut files = Vec::new(alloc);
    for change in changes {
        match changed(alloc, files.as_slice(), change)? {
            Some(next) => files = next,
            None => return Ok(None),
        }
    }
    Ok(Some(files))
}
