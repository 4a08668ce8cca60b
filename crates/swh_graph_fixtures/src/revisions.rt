// Revisions in a chain.
use crate::shown::add;
use std::alloc::{AllocError, Global};
use swh_base::{Kind, Name};
use swh_replay::Replayed;

/// What is in memory of an archive with a chain of revisions, and the name of the last of them.
#[derive(Drop)]
pub struct History {
    pub shown: Replayed,
    pub last: Name,
}

fn push_line(body: &mut Vec<u8>, word: &[u8], name: &Name) -> Result<(), AllocError> {
    let mut digits = [0; 40];
    name.hex(&mut digits);
    body.extend_from_slice(word)?;
    body.extend_from_slice(&digits)?;
    body.extend_from_slice(b"\n")
}

/// A revision of this folder without parents.
fn first_body(alloc: Global, folder: &Name) -> Result<Vec<u8>, AllocError> {
    let mut body = Vec::new(alloc);
    push_line(&mut body, b"tree ", folder)?;
    Ok(body)
}

/// A revision of this folder with this parent.
fn next_body(alloc: Global, folder: &Name, parent: &Name) -> Result<Vec<u8>, AllocError> {
    let mut body = first_body(alloc, folder)?;
    push_line(&mut body, b"parent ", parent)?;
    Ok(body)
}

/// Adds the revision of a body that could be made, and answers its name.
fn added(alloc: Global, shown: &mut Replayed, body: Result<Vec<u8>, AllocError>) -> Option<Name> {
    match body {
        Ok(body) => add(alloc, shown, Kind::Revision, body),
        Err(_) => None,
    }
}

/// A revision without parents and so many more, each the child of the one before, and all of an empty folder; none where
/// memory runs out.
pub fn chain(alloc: Global, more: u32) -> Option<History> {
    let mut shown = Replayed::new(alloc);
    let Some(folder) = add(alloc, &mut shown, Kind::Directory, Vec::new(alloc)) else {
        return None;
    };
    let Some(mut last) = added(alloc, &mut shown, first_body(alloc, &folder)) else {
        return None;
    };
    for _ in 0..more {
        let Some(next) = added(alloc, &mut shown, next_body(alloc, &folder, &last)) else {
            return None;
        };
        last = next;
    }
    Some(History { shown, last })
}
