//! A long history and a deep folder.
use std::alloc::{AllocError, Global};
use std::test::Fail;
use swh_base::{Kind, Name};
use swh_graph::{at_path, log, reach};
use swh_graph_fixtures::{add, chain};
use swh_replay::Replayed;

/// An archive, and the name of the folder that was added last to it.
#[derive(Drop)]
struct Deep {
    shown: Replayed,
    last: Name,
}

/// A folder whose one entry `a` is this folder.
fn folder_body(alloc: Global, below: &Name) -> Result<Vec<u8>, AllocError> {
    let mut body = b"40000 a\0".to_vec(alloc)?;
    body.extend_from_slice(&below.id)?;
    Ok(body)
}

/// Adds a folder, and answers its name.
fn added(alloc: Global, shown: &mut Replayed, body: Vec<u8>) -> Result<Name, Fail> {
    match add(alloc, shown, Kind::Directory, body) {
        Some(name) => Ok(name),
        None => Err(Fail::from("a folder")),
    }
}

/// An empty folder, and so many more, each with the one before as its entry.
fn folders(alloc: Global, count: u32) -> Result<Deep, Fail> {
    let mut shown = Replayed::new(alloc);
    let mut last = added(alloc, &mut shown, Vec::new(alloc))?;
    for _ in 0..count {
        let body = folder_body(alloc, &last)?;
        last = added(alloc, &mut shown, body)?;
    }
    Ok(Deep { shown, last })
}

/// How long the log of a history of 300,000 revisions is, and how many names are reached.
fn lengths(alloc: Global) -> Result<(usize, usize), Fail> {
    let Some(deep) = chain(alloc, 299_999) else {
        return Err(Fail::from("a chain"));
    };
    let Ok(names) = log(alloc, &deep.shown, deep.last.id, u32::MAX) else {
        return Err(Fail::from("a log"));
    };
    let Ok(reached) = reach(alloc, &deep.shown, deep.last) else {
        return Err(Fail::from("what is reached"));
    };
    Ok((names.len(), reached.len()))
}

#[test]
fn a_long_history_is_logged(rt: HostRuntime) -> Result<(), Fail> {
    let lengths = lengths(rt.alloc())?;
    assert!(rt; lengths == (300_000, 300_001));
    Ok(())
}

/// The path `a/a/..` of so many components.
fn path_of(alloc: Global, count: u32) -> Result<Vec<u8>, AllocError> {
    let mut path = b"a".to_vec(alloc)?;
    for _ in 1..count {
        path.extend_from_slice(b"/a")?;
    }
    Ok(path)
}

/// Whether the path of 100,000 components leads to the empty folder.
fn is_at_the_end(alloc: Global) -> Result<bool, Fail> {
    let deep = folders(alloc, 100_000)?;
    let path = path_of(alloc, 100_000)?;
    let Ok(entry) = at_path(alloc, &deep.shown, deep.last.id, path.as_slice()) else {
        return Err(Fail::from("an entry"));
    };
    Ok(entry.id == EMPTY_FOLDER)
}

/// The id of a folder without entries, as git gives it.
const EMPTY_FOLDER: [u8; 20] =
    *b"\x4b\x82\x5d\xc6\x42\xcb\x6e\xb9\xa0\x60\xe5\x4b\xf8\xd6\x92\x88\xfb\xee\x49\x04";

#[test]
fn a_deep_folder_is_walked(rt: HostRuntime) -> Result<(), Fail> {
    assert!(rt; is_at_the_end(rt.alloc())?);
    Ok(())
}
