//! A long history, a deep folder and a wide snapshot.
use std::alloc::{AllocError, Global};
use std::test::Fail;
use swh_base::{Kind, Name};
use swh_graph_fixtures::add;
use swh_postorder::postorder;
use swh_replay::Replayed;

/// An archive, and the names that were added to it, each after its children.
#[derive(Drop)]
struct Added {
    shown: Replayed,
    names: Vec<Name>,
}

impl Added {
    fn new(alloc: Global) -> Added {
        Added {
            shown: Replayed::new(alloc),
            names: Vec::new(alloc),
        }
    }

    fn add(&mut self, alloc: Global, kind: Kind, body: Vec<u8>) -> Result<Name, Fail> {
        let Some(name) = add(alloc, &mut self.shown, kind, body) else {
            return Err(Fail::from("an object"));
        };
        self.names.push(name)?;
        Ok(name)
    }
}

fn push_line(body: &mut Vec<u8>, word: &[u8], name: &Name) -> Result<(), AllocError> {
    let mut digits = [0; 40];
    name.hex(&mut digits);
    body.extend_from_slice(word)?;
    body.extend_from_slice(&digits)?;
    body.extend_from_slice(b"\n")
}

/// A revision of this folder, with this parent.
fn revision_body(alloc: Global, folder: &Name, parent: &Name) -> Result<Vec<u8>, AllocError> {
    let mut body = Vec::new(alloc);
    push_line(&mut body, b"tree ", folder)?;
    push_line(&mut body, b"parent ", parent)?;
    Ok(body)
}

/// A folder whose one entry `a` is this folder.
fn folder_body(alloc: Global, below: &Name) -> Result<Vec<u8>, AllocError> {
    let mut body = b"40000 a\0".to_vec(alloc)?;
    body.extend_from_slice(&below.id)?;
    Ok(body)
}

/// An empty folder, a revision of it without parents, and so many more, each the child of the one before.
fn history(alloc: Global, count: u32) -> Result<Added, Fail> {
    let mut added = Added::new(alloc);
    let folder = added.add(alloc, Kind::Directory, Vec::new(alloc))?;
    let mut body = Vec::new(alloc);
    push_line(&mut body, b"tree ", &folder)?;
    let mut last = added.add(alloc, Kind::Revision, body)?;
    for _ in 0..count {
        let body = revision_body(alloc, &folder, &last)?;
        last = added.add(alloc, Kind::Revision, body)?;
    }
    Ok(added)
}

/// An empty folder, and so many more, each with the one before as its entry.
fn folders(alloc: Global, count: u32) -> Result<Added, Fail> {
    let mut added = Added::new(alloc);
    let mut last = added.add(alloc, Kind::Directory, Vec::new(alloc))?;
    for _ in 0..count {
        let body = folder_body(alloc, &last)?;
        last = added.add(alloc, Kind::Directory, body)?;
    }
    Ok(added)
}

/// So many contents of four bytes, and a snapshot with a branch at each, in their order.
fn branches(alloc: Global, count: u32) -> Result<Added, Fail> {
    let mut added = Added::new(alloc);
    let mut body = Vec::new(alloc);
    for number in 0..count {
        let bytes = number.to_be_bytes();
        let name = added.add(alloc, Kind::Content, bytes.to_vec(alloc)?)?;
        body.extend_from_slice(b"content ")?;
        body.extend_from_slice(&number_letters(number))?;
        body.extend_from_slice(b"\020:")?;
        body.extend_from_slice(&name.id)?;
    }
    added.add(alloc, Kind::Snapshot, body)?;
    Ok(added)
}

/// Eight letters, `a` to `p`, that ascend as the number does.
fn number_letters(number: u32) -> [u8; 8] {
    let mut letters = [b'a'; 8];
    let mut rest = number;
    for letter in letters.iter_mut().rev() {
        *letter = b"abcdefghijklmnop"[(rest % 16) as usize];
        rest /= 16;
    }
    letters
}

/// Whether the walk from the name that was added last leaves all names in the order in which they were added.
fn is_left_as_added(alloc: Global, added: &Added) -> bool {
    let Some(root) = added.names.last() else {
        return false;
    };
    match postorder(alloc, &added.shown, *root) {
        Ok(order) => order.as_slice() == added.names.as_slice(),
        Err(_) => false,
    }
}

#[test]
fn a_long_history_is_walked(rt: HostRuntime) -> Result<(), Fail> {
    let added = history(rt.alloc(), 299_999)?;
    assert!(rt; is_left_as_added(rt.alloc(), &added));
    Ok(())
}

#[test]
fn a_deep_folder_is_walked(rt: HostRuntime) -> Result<(), Fail> {
    let added = folders(rt.alloc(), 100_000)?;
    assert!(rt; is_left_as_added(rt.alloc(), &added));
    Ok(())
}

#[test]
fn a_wide_snapshot_is_walked(rt: HostRuntime) -> Result<(), Fail> {
    let added = branches(rt.alloc(), 65_536)?;
    assert!(rt; is_left_as_added(rt.alloc(), &added));
    Ok(())
}
