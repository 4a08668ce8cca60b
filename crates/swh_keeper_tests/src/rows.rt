//! Rows kept as lists that several owners share, and where the row of a name stands among them.
ghost use Rattle.swh_rows.specs.Places.{IsPlaced};

use std::alloc::Global;
use std::test::Fail;
use swh_base::{Entry, Kind, Memory, Name, Shared};
use swh_rows::{Front, Pieces, Places, Rows, places_of};

/// The name of a content whose id has these first four bytes, and then a number in four more.
fn named(head: u32, number: u32) -> Name {
    let mut id = [0; 20];
    let (first, second) = (head.to_be_bytes(), number.to_be_bytes());
    id[..4].copy_from_slice(&first);
    id[4..8].copy_from_slice(&second);
    let kind = Kind::Content;
    Name { kind, id }
}

/// So many names from a number on, whose ids all begin with these four bytes.
fn names_from(alloc: Global, head: u32, first: u32, count: u32) -> Result<Vec<Name>, Memory> {
    let mut names = Vec::new(alloc);
    for number in 0..count {
        names.push(named(head, first.wrapping_add(number)))?;
    }
    Ok(names)
}

/// An entry of a name, with no body and no children.
fn entry_of(alloc: Global, name: Name) -> Result<Entry, Memory> {
    let body = Shared::from_vec(Vec::new(alloc))?;
    let kids = Shared::from_vec(Vec::new(alloc))?;
    Ok(Entry { name, body, kids })
}

/// A list of so many entries, whose names have their numbers from one on, and ids that begin alike or not.
fn entries_from(alloc: Global, first: u32, count: u32) -> Result<Shared<Entry>, Memory> {
    let mut entries = Vec::new(alloc);
    for number in 0..count {
        let number = first.wrapping_add(number);
        entries.push(entry_of(alloc, named(number.wrapping_mul(2_654_435_761), number))?)?;
    }
    Shared::from_vec(entries)
}

/// Pieces of lists of these lengths, whose entries are numbered through.
fn pieces_of(alloc: Global, lengths: &[u32]) -> Result<Pieces<Entry>, Memory> {
    let mut pieces = Pieces::new(alloc);
    let mut first: u32 = 0;
    for length in lengths {
        pieces.push(entries_from(alloc, first, *length)?)?;
        first = first.wrapping_add(*length);
    }
    Ok(pieces)
}

/// The number that the name at a place has in its second four bytes.
fn number_at<R: Rows>(rows: &R, place: usize) -> Option<u32> {
    let id = rows.name_at(place)?.id;
    Some(u32::from_be_bytes([id[4], id[5], id[6], id[7]]))
}

/// Whether the rows are numbered through, and end there.
fn are_numbered<R: Rows>(rows: &R, count: u32) -> bool {
    for number in 0..count {
        if number_at(rows, number as usize) != Some(number) {
            return false;
        }
    }
    rows.len() == count as usize && rows.name_at(count as usize).is_none()
}

/// Lengths of lists, one behind another, and how many rows they have together.
const LENGTHS: &[(&[u32], u32)] = &[
    (&[], 0),
    (&[0], 0),
    (&[1], 1),
    (&[0, 1, 0, 0, 1, 0], 2),
    (&[4096, 0, 1, 4096], 8193),
    (&[1, 2, 3, 4, 5], 15),
];

#[test]
fn each_row_is_at_its_place(rt: HostRuntime) -> Result<(), Fail> {
    let alloc = rt.alloc();
    for (lengths, count) in LENGTHS {
        let pieces = pieces_of(alloc, lengths)?;
        assert!(rt; are_numbered(&pieces, *count), "{lengths:?}");
        let last = pieces.last().is_some();
        assert!(rt; last == (*count > 0), "{lengths:?}");
        assert!(rt; pieces.lists().len() == lengths.len(), "{lengths:?}");
    }
    Ok(())
}

#[test]
fn one_of_two_owners_goes_on(rt: HostRuntime) -> Result<(), Fail> {
    let alloc = rt.alloc();
    let mut pieces = pieces_of(alloc, &[1, 4096])?;
    let again = pieces.again(alloc)?;
    pieces.push(entries_from(alloc, 4097, 3)?)?;
    assert!(rt; are_numbered(&pieces, 4100));
    assert!(rt; are_numbered(&again, 4097));
    let popped = pieces.pop().is_some();
    assert!(rt; popped);
    let popped = pieces.pop().is_some();
    assert!(rt; popped);
    assert!(rt; are_numbered(&pieces, 1));
    assert!(rt; are_numbered(&again, 4097));
    Ok(())
}

/// Whether places find each of the first so many rows where it stands, and no name that none of them has.
fn find_each<R: Rows>(places: &Places, rows: &R, count: usize, other: &Name) -> bool
    requires { IsPlaced places.now (R.names rows.now) }
{
    for place in 0..count {
        let Some(name) = rows.name_at(place) else {
            return false;
        };
        if places.find(rows, name) != Some(place) {
            return false;
        }
    }
    places.find(rows, other).is_none()
}

#[test]
fn names_are_found_where_they_stand(rt: HostRuntime) -> Result<(), Fail> {
    let alloc = rt.alloc();
    let pieces = pieces_of(alloc, &[0, 1, 4096, 700])?;
    let (places, fresh) = places_of(alloc, &pieces)?;
    assert_eq!(rt; fresh, 4797);
    let front = Front {
        rows: &pieces,
        count: fresh,
    };
    let found = find_each(&places, &front, fresh, &named(1, 0));
    assert!(rt; found);
    let again = places.again(alloc)?;
    let found = find_each(&again, &front, fresh, &named(1, 0));
    assert!(rt; found, "by equal places");
    Ok(())
}

/// The first bytes of names, and how many names begin with them.
const HEADS: &[(u32, u32)] = &[(0, 1), (7, 5), (u32::MAX, 300), (0, 20_000)];

#[test]
fn names_that_want_one_slot_are_found(rt: HostRuntime) -> Result<(), Fail> {
    let alloc = rt.alloc();
    for (head, count) in HEADS {
        let names = names_from(alloc, *head, 0, *count)?;
        let (places, fresh) = places_of(alloc, &names)?;
        assert_eq!(rt; fresh, *count as usize);
        let front = Front {
            rows: &names,
            count: fresh,
        };
        let found = find_each(&places, &front, fresh, &named(*head, *count));
        assert!(rt; found, "{count} names at once");
        let mut places = Places::new(alloc);
        places.add_rest(&front, 0)?;
        let found = find_each(&places, &front, fresh, &named(*head, *count));
        assert!(rt; found, "{count} names one by one");
    }
    Ok(())
}

#[test]
fn a_name_that_is_forgotten_may_come_again(rt: HostRuntime) -> Result<(), Fail> {
    let alloc = rt.alloc();
    let none: Vec<Name> = Vec::new(alloc);
    let name = named(7, 1);
    let mut places = Places::new(alloc);
    places.add(&none, &name)?;
    places.forget(&name);
    assert!(rt; places.find(&none, &name).is_none());
    places.add(&none, &name)?;
    Ok(())
}

#[test]
fn places_end_where_a_name_stands_twice(rt: HostRuntime) -> Result<(), Fail> {
    let alloc = rt.alloc();
    let mut names = names_from(alloc, 0, 0, 5)?;
    names.push(named(0, 3))?;
    names.push(named(0, 6))?;
    let (places, fresh) = places_of(alloc, &names)?;
    assert_eq!(rt; fresh, 5);
    let front = Front {
        rows: &names,
        count: fresh,
    };
    assert_eq!(rt; places.find(&front, &named(0, 3)), Some(3));
    assert_eq!(rt; places.find(&front, &named(0, 6)), None);
    Ok(())
}
