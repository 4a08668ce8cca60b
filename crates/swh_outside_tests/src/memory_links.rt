// Links and doors in memory.
ghost use Rattle.std.specs.Prelude.{All, IfOk};
ghost use Rattle.swh_memory_input.specs.Links.{IsUnused};

use std::alloc::{AllocError, Global};
use std::test::Fail;
use swh_memory::{MemoryDoors, MemoryLink};
use swh_outside::{Doors, Failed, Link, OutFault, Sink, Source};

const ROOM: usize = 6;

fn link_of(
    alloc: Global,
    text: &[u8],
    piece: usize,
    failing: &[u64],
) -> Result<MemoryLink, AllocError>
    ensures { IfOk result IsUnused }
{
    let bytes = Vec::from_slice(alloc, text)?;
    let failing = Vec::from_slice(alloc, failing)?;
    MemoryLink::new(alloc, bytes, piece, ROOM, failing)
}

fn links_of(alloc: Global, texts: &[&[u8]]) -> Result<Vec<MemoryLink>, AllocError>
    ensures { IfOk result (λ links. All IsUnused links.items) }
{
    let mut links = Vec::new(alloc);
    'texts: for text in texts {
        let link = link_of(alloc, text, 2, &[])?;
        if links.push(link).is_err() {
            return Err(AllocError);
        }
    }
    Ok(links)
}

fn doors_of(alloc: Global, texts: &[&[u8]], failing: &[u64]) -> Result<MemoryDoors, AllocError> {
    let failing = Vec::from_slice(alloc, failing)?;
    Ok(MemoryDoors::with_links(alloc, links_of(alloc, texts)?, failing))
}

// A call on a link that gives `abcde` in pieces of two bytes and has room for six, and what has come of it then.
#[derive(Clone, Copy)]
enum Call {
    Get(&'static [u8]),
    Put(&'static [u8]),
}

struct Row {
    call: Call,
    // The bytes that were given and those that were put, once the call went well.
    given: &'static [u8],
    put: &'static [u8],
}

const CALLS: [Row; 6] = [
    Row {
        call: Call::Get(b"ab"),
        given: b"ab",
        put: b"",
    },
    Row {
        call: Call::Put(b"123"),
        given: b"ab",
        put: b"123",
    },
    Row {
        call: Call::Get(b"cd"),
        given: b"abcd",
        put: b"123",
    },
    Row {
        call: Call::Get(b"e"),
        given: b"abcde",
        put: b"123",
    },
    Row {
        call: Call::Get(b""),
        given: b"abcde",
        put: b"123",
    },
    Row {
        call: Call::Put(b"456"),
        given: b"abcde",
        put: b"123456",
    },
];

fn stands_so(link: &MemoryLink, row: &Row, faults: u64) -> bool {
    link.given() == row.given && link.bytes() == row.put && link.faults() == faults
}

fn gives(link: &mut MemoryLink, bytes: &[u8]) -> bool {
    let mut out = [b'-'; 4];
    match link.get(&mut out) {
        Ok(count) => &out[..count] == bytes,
        Err(_) => false,
    }
}

fn goes_well(link: &mut MemoryLink, row: &Row) -> bool {
    match row.call {
        Call::Get(bytes) => gives(link, bytes),
        Call::Put(bytes) => link.put(bytes).is_ok(),
    }
}

fn fails(link: &mut MemoryLink, row: &Row) -> bool {
    match row.call {
        Call::Get(_) => link.get(&mut [b'-'; 4]) == Err(Failed),
        Call::Put(_) => link.put(b"9") == Err(Failed),
    }
}

// All calls go well but for the one with this number, which is made again.
fn goes_on_after(link: &mut MemoryLink, failing: u64) -> bool {
    let mut faults = 0;
    for (number, row) in CALLS.iter().enumerate() {
        if number as u64 == failing {
            if !fails(link, row) {
                return false;
            }
            faults = 1;
        }
        if !goes_well(link, row) || !stands_so(link, row, faults) {
            return false;
        }
    }
    link.has_ended() && !gives(link, b"f") && link.put(b"7") == Err(Failed)
}

/// Each call fails in turn, and the next one goes on as if it had not been; of the last put the first half of a byte is
/// taken, which is none. Number 6 is none of them. What would pass the room fails.
#[test]
fn each_call_of_a_link_fails_in_turn(rt: HostRuntime) -> Result<(), Fail> {
    for failing in 0..7 {
        let mut link = link_of(rt.alloc(), b"abcde", 2, &[failing])?;
        assert!(rt; goes_on_after(&mut link, failing), "{failing}");
    }
    Ok(())
}

fn gives_bytes(link: &mut MemoryLink, text: &[u8]) -> bool {
    for byte in text {
        if !gives(link, &[*byte]) || link.has_ended() {
            return false;
        }
    }
    gives(link, b"") && gives(link, b"") && link.has_ended() && link.given() == text
}

/// A piece of no bytes is one of one.
#[test]
fn a_link_gives_single_bytes(rt: HostRuntime) -> Result<(), Fail> {
    for piece in 0..2 {
        let mut link = link_of(rt.alloc(), b"abc", piece, &[])?;
        assert!(rt; gives_bytes(&mut link, b"abc"), "{piece}");
    }
    Ok(())
}

// What is expected of a link that was given back.
fn is_noted(link: &MemoryLink, given: &[u8], ended: bool, put: &[u8], faults: u64) -> bool {
    link.given() == given
        && link.has_ended() == ended
        && link.bytes() == put
        && link.faults() == faults
}

// Serves the next link: one piece, one put that goes well and one that passes the room.
fn serve_one(doors: &mut MemoryDoors, first: &[u8]) -> bool {
    let Ok(mut link) = doors.accept() else {
        return false;
    };
    let served = gives(&mut link, first) && link.put(b"ok").is_ok() && link.put(b"12345").is_err();
    link.finish();
    doors.back(link);
    served
}

fn are_noted(links: &[MemoryLink]) -> bool {
    match links {
        [one, two] => is_noted(one, b"ab", false, b"ok", 1) && is_noted(two, b"", true, b"ok", 1),
        _ => false,
    }
}

fn serves_both(doors: &mut MemoryDoors) -> bool {
    doors.bind("here") == Ok(())
        && serve_one(doors, b"ab")
        && serve_one(doors, b"")
        && doors.faults() == 0
        && are_noted(doors.links_back())
        && doors.accept().is_err()
        && doors.faults() == 1
}

/// Links come in in their order, and are kept in the order in which they are given back. Their own faults are not the
/// doors'; to accept one more is.
#[test]
fn a_link_given_back_is_noted(rt: HostRuntime) -> Result<(), Fail> {
    let mut doors = doors_of(rt.alloc(), &[b"abc", b""], &[])?;
    assert!(rt; serves_both(&mut doors));
    Ok(())
}

// Gives back a link that did not come in here, before one that did and behind it.
fn keeps_one_place(doors: &mut MemoryDoors, strangers: (MemoryLink, MemoryLink)) -> bool {
    let (first, second) = strangers;
    doors.back(first);
    let none = doors.links_back().is_empty();
    let served = serve_one(doors, b"ab");
    doors.back(second);
    none && served && doors.links_back().len() == 1 && doors.faults() == 0
}

#[test]
fn no_link_has_a_place_without_an_accept(rt: HostRuntime) -> Result<(), Fail> {
    let first = link_of(rt.alloc(), b"x", 1, &[])?;
    let second = link_of(rt.alloc(), b"y", 1, &[])?;
    let mut doors = doors_of(rt.alloc(), &[b"abc"], &[])?;
    assert!(rt; keeps_one_place(&mut doors, (first, second)));
    Ok(())
}

// A bind and two accepts, of which the one with this number fails and is made again.
fn opens_after(doors: &mut MemoryDoors, failing: u64) -> bool {
    if failing == 0 && doors.bind("here") != Err(OutFault::Failed) {
        return false;
    }
    let bound = doors.bind("here").is_ok();
    for number in 1..3 {
        if number == failing && doors.accept().is_ok() {
            return false;
        }
        if !serve_one(doors, b"ab") {
            return false;
        }
    }
    bound && doors.faults() == 1 && doors.links_back().len() == 2
}

#[test]
fn each_call_of_doors_fails_in_turn(rt: HostRuntime) -> Result<(), Fail> {
    for failing in 0..3 {
        let mut doors = doors_of(rt.alloc(), &[b"abc", b"abd"], &[failing])?;
        assert!(rt; opens_after(&mut doors, failing), "{failing}");
    }
    Ok(())
}

fn stay_shut(doors: &mut MemoryDoors, link: MemoryLink) -> bool {
    let shut = doors.bind("here") == Err(OutFault::Failed) && doors.accept().is_err();
    doors.back(link);
    shut && doors.faults() == 2 && doors.links_back().is_empty()
}

/// Doors that are made without links are shut.
#[test]
fn doors_without_links_are_shut(rt: HostRuntime) -> Result<(), Fail> {
    let link = link_of(rt.alloc(), b"", 1, &[])?;
    assert!(rt; stay_shut(&mut MemoryDoors::new(rt.alloc()), link));
    Ok(())
}
