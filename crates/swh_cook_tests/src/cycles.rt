//! Folders that are reached from themselves, which the naming by small sums allows.
use std::alloc::Global;
use std::test::Fail;
use swh_base::{ByteNamer, Kind, Name};
use swh_graph_fixtures::archive_of;
use swh_graph_fixtures::objects::{OBJECTS, WHOLE};
use swh_object::Object;
use swh_postorder::{first_on_cycle, postorder};
use swh_replay::Replayed;
use swh_swhid::parse_core;

/// Twenty bytes, of which the last is this.
pub const fn id(last: u8) -> [u8; 20] {
    [
        0, 0, 0, 0, 0, 0, 0, 0, 0, 0, 0, 0, 0, 0, 0, 0, 0, 0, 0, last,
    ]
}

/// Folders with the last byte of the id that the sum of their bytes gives them: one whose entry is itself, and two of
/// which each is the entry of the other.
const FOLDERS: &[(u8, &[u8])] = &[
    (0, b"40000 vv\0\0\0\0\0\0\0\0\0\0\0\0\0\0\0\0\0\0\0\0\0"),
    (1, b"40000 v\0\0\0\0\0\0\0\0\0\0\0\0\0\0\0\0\0\0\0\0\x77"),
    (0x77, b"40000 b\0\0\0\0\0\0\0\0\0\0\0\0\0\0\0\0\0\0\0\0\x01"),
];

/// Roots, and the order in which the walk from each leaves names.
const ORDERS: &[(u8, &[u8])] = &[(0, &[0]), (1, &[0x77, 1]), (0x77, &[1, 0x77])];

fn folder_name(last: u8) -> Name {
    let kind = Kind::Directory;
    Name { kind, id: id(last) }
}

/// Adds an object whose id ends in this byte.
pub fn add_object(
    alloc: Global,
    shown: &mut Replayed,
    kind: Kind,
    made: &(u8, &[u8]),
) -> Result<(), Fail> {
    let (last, body) = made;
    let body = body.to_vec(alloc)?;
    let Ok(object) = Object::make(alloc, &ByteNamer, kind, body) else {
        return Err(Fail::from("an object"));
    };
    let id = id(*last);
    if object.name() != (Name { kind, id }) {
        return Err(Fail::from("the name of an object"));
    }
    match shown.store.add(&[object.into_entry()]) {
        Ok(_) => Ok(()),
        Err(_) => Err(Fail::from("a new name")),
    }
}

/// An archive of the folders.
pub fn folders(alloc: Global) -> Result<Replayed, Fail> {
    let mut shown = Replayed::new(alloc);
    for folder in FOLDERS {
        add_object(alloc, &mut shown, Kind::Directory, folder)?;
    }
    Ok(shown)
}

fn are_left(names: &[Name], lasts: &[u8]) -> bool {
    if names.len() != lasts.len() {
        return false;
    }
    for (name, last) in names.iter().zip(lasts) {
        if *name != folder_name(*last) {
            return false;
        }
    }
    true
}

/// The number of the first root with another order, or how many there are.
fn first_other(alloc: Global) -> Result<usize, Fail> {
    let shown = folders(alloc)?;
    for (number, (root, lasts)) in ORDERS.iter().enumerate() {
        let Ok(names) = postorder(alloc, &shown, folder_name(*root)) else {
            return Ok(number);
        };
        if !are_left(names.as_slice(), lasts) {
            return Ok(number);
        }
    }
    Ok(ORDERS.len())
}

/// Whether the first name on a cycle, in the order from the root, is the first of that order.
fn begins_with_cycle(alloc: Global, shown: &Replayed, root: u8, lasts: &[u8]) -> bool {
    let Ok(names) = postorder(alloc, shown, folder_name(root)) else {
        return false;
    };
    match first_on_cycle(alloc, shown, names.as_slice()) {
        Ok(Some(name)) => lasts.first() == Some(&name.id[19]),
        _ => false,
    }
}

/// The number of the first root from which another name is the first on a cycle, or how many there are.
fn first_other_cycle(alloc: Global) -> Result<usize, Fail> {
    let shown = folders(alloc)?;
    for (number, (root, lasts)) in ORDERS.iter().enumerate() {
        if !begins_with_cycle(alloc, &shown, *root, lasts) {
            return Ok(number);
        }
    }
    Ok(ORDERS.len())
}

/// Whether no name that is reached from this one is on a cycle.
fn is_without_cycle(alloc: Global, core: &[u8]) -> Result<bool, Fail> {
    let Some(shown) = archive_of(alloc, OBJECTS) else {
        return Err(Fail::from("an archive"));
    };
    let Some(root) = parse_core(core) else {
        return Err(Fail::from("a core identifier"));
    };
    let Ok(names) = postorder(alloc, &shown, root) else {
        return Err(Fail::from("an order"));
    };
    match first_on_cycle(alloc, &shown, names.as_slice()) {
        Ok(found) => Ok(found.is_none()),
        Err(_) => Err(Fail::from("memory")),
    }
}

#[test]
fn the_first_on_a_cycle_is_named(rt: HostRuntime) -> Result<(), Fail> {
    assert_eq!(rt; first_other_cycle(rt.alloc())?, ORDERS.len());
    Ok(())
}

#[test]
fn objects_of_git_have_no_cycle(rt: HostRuntime) -> Result<(), Fail> {
    assert!(rt; is_without_cycle(rt.alloc(), WHOLE)?);
    Ok(())
}

#[test]
fn a_cycle_is_entered_once(rt: HostRuntime) -> Result<(), Fail> {
    assert_eq!(rt; first_other(rt.alloc())?, ORDERS.len());
    Ok(())
}
