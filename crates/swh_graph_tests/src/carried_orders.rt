//! Folders in folders, some of which are reached from themselves: the naming by small sums allows that.
use Answer::{NotHeld, OnCycle, Order};
use std::alloc::Global;
use std::test::Fail;
use swh_base::{ByteNamer, Kind, Name};
use swh_carried::{CookFault, Why, acyclic_order};
use swh_object::Object;
use swh_replay::Replayed;

/// Folders, each with the last byte of the id that the sum of its bytes gives it, and the folders in it by theirs.
const FOLDERS: &[(u8, &[u8])] = &[
    (0, b""),
    // A chain of three.
    (0x75, b"40000 a\0\0\0\0\0\0\0\0\0\0\0\0\0\0\0\0\0\0\0\0\0"),
    (0xeb, b"40000 b\0\0\0\0\0\0\0\0\0\0\0\0\0\0\0\0\0\0\0\0\x75"),
    // A diamond of the second of these and another.
    (0x77, b"40000 c\0\0\0\0\0\0\0\0\0\0\0\0\0\0\0\0\0\0\0\0\0"),
    (
        0xd8,
        b"40000 a\0\0\0\0\0\0\0\0\0\0\0\0\0\0\0\0\0\0\0\0\x7540000 c\0\0\0\0\0\0\0\0\0\0\0\0\0\0\0\0\0\0\0\0\x77",
    ),
    // One in itself, and two of which each is in the other.
    (
        0x05,
        b"40000 vv\0\0\0\0\0\0\0\0\0\0\0\0\0\0\0\0\0\0\0\0\x05",
    ),
    (0x20, b"40000 v\0\0\0\0\0\0\0\0\0\0\0\0\0\0\0\0\0\0\0\0\x96"),
    (0x96, b"40000 b\0\0\0\0\0\0\0\0\0\0\0\0\0\0\0\0\0\0\0\0\x20"),
    // The second of the chain, and then the first of the two.
    (
        0x82,
        b"40000 a\0\0\0\0\0\0\0\0\0\0\0\0\0\0\0\0\0\0\0\0\x7540000 d\0\0\0\0\0\0\0\0\0\0\0\0\0\0\0\0\0\0\0\0\x20",
    ),
    // The one in itself, and then one that is not held.
    (
        0xe0,
        b"40000 a\0\0\0\0\0\0\0\0\0\0\0\0\0\0\0\0\0\0\0\0\x0540000 b\0\0\0\0\0\0\0\0\0\0\0\0\0\0\0\0\0\0\0\0\xf0",
    ),
    // Two that are not held.
    (
        0xcc,
        b"40000 a\0\0\0\0\0\0\0\0\0\0\0\0\0\0\0\0\0\0\0\0\xf140000 b\0\0\0\0\0\0\0\0\0\0\0\0\0\0\0\0\0\0\0\0\xf0",
    ),
];

/// What is told of a root.
#[derive(Clone, Copy)]
enum Answer {
    /// The order in which the walk leaves names.
    Order(&'static [u8]),
    /// The first name of the order that is on a cycle.
    OnCycle(u8),
    /// The first name that is entered and not held.
    NotHeld(u8),
}

const ANSWERS: &[(u8, Answer)] = &[
    (0, Order(&[0])),
    (0xeb, Order(&[0, 0x75, 0xeb])),
    (0xd8, Order(&[0, 0x75, 0x77, 0xd8])),
    (0x05, OnCycle(0x05)),
    (0x20, OnCycle(0x96)),
    (0x96, OnCycle(0x20)),
    // Neither the root nor what is left before the cycle is on it.
    (0x82, OnCycle(0x96)),
    (0xf0, NotHeld(0xf0)),
    // What is not held is told before a cycle that is met before.
    (0xe0, NotHeld(0xf0)),
    // The first that is entered, which is not the least.
    (0xcc, NotHeld(0xf1)),
];

fn folder_name(last: u8) -> Name {
    let mut id = [0; 20];
    id[19] = last;
    let kind = Kind::Directory;
    Name { kind, id }
}

fn add_folder(alloc: Global, shown: &mut Replayed, last: u8, body: &[u8]) -> Result<(), Fail> {
    let body = body.to_vec(alloc)?;
    let Ok(object) = Object::make(alloc, &ByteNamer, Kind::Directory, body) else {
        return Err(Fail::from("a folder"));
    };
    if object.name() != folder_name(last) {
        return Err(Fail::from("the name of a folder"));
    }
    match shown.store.add(&[object.into_entry()]) {
        Ok(_) => Ok(()),
        Err(_) => Err(Fail::from("a new name")),
    }
}

fn folders(alloc: Global) -> Result<Replayed, Fail> {
    let mut shown = Replayed::new(alloc);
    for (last, body) in FOLDERS {
        add_folder(alloc, &mut shown, *last, body)?;
    }
    Ok(shown)
}

fn are_left(names: &[Name], lasts: &[u8]) -> bool {
    names.len() == lasts.len()
        && names
            .iter()
            .zip(lasts)
            .all(|(name, last)| *name == folder_name(*last))
}

fn is_answer(told: &Result<Vec<Name>, CookFault>, answer: Answer) -> bool {
    match (told, answer) {
        (Ok(names), Order(lasts)) => are_left(names.as_slice(), lasts),
        (
            Err(
                CookFault::Uncarried {
                    name,
                    why: Why::Cycle,
                },
            ),
            OnCycle(last),
        ) => *name == folder_name(last),
        (Err(CookFault::NotHeld { name }), NotHeld(last)) => *name == folder_name(last),
        _ => false,
    }
}

/// The number of the first root of which something else is told, or how many there are.
fn first_other(alloc: Global) -> Result<usize, Fail> {
    let shown = folders(alloc)?;
    for (number, (root, answer)) in ANSWERS.iter().enumerate() {
        let told = acyclic_order(alloc, &shown, folder_name(*root));
        if !is_answer(&told, *answer) {
            return Ok(number);
        }
    }
    Ok(ANSWERS.len())
}

#[test]
fn orders_without_cycles(rt: HostRuntime) -> Result<(), Fail> {
    assert_eq!(rt; first_other(rt.alloc())?, ANSWERS.len());
    Ok(())
}
