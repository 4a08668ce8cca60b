// Lines of listings, taken over a folder: what stands then, the first line that may not come, and sources that fail.
use crate::folder::{file_at, folder_of, item_of, listed_at};
use What::{File, Folder};
use std::alloc::{AllocError, Global};
use std::test::Fail;
use swh_base::{Sha1Namer, Which};
use swh_dirload::{DirFault, index_of, read_files, spots_of, take_lines, walk};
use swh_dirmade::{Given, Member, Spot};
use swh_memory_input::{MemoryFolder, MemorySource};
use swh_outside::What;

/// The bytes 0x01, 0x23, .. as a revision's id.
const ID: [u8; 20] = [
    0x01, 0x23, 0x45, 0x67, 0x89, 0xab, 0xcd, 0xef, 0x01, 0x23, 0x45, 0x67, 0x89, 0xab, 0xcd, 0xef,
    0x01, 0x23, 0x45, 0x67,
];

/// A folder with a folder `a` of a file `b`, an empty folder `e`, and the files `ln` and `run`.
fn folder(alloc: Global) -> Result<MemoryFolder, AllocError> {
    let mut items = Vec::new(alloc);
    items.push(item_of(alloc, "run", File)?)?;
    items.push(item_of(alloc, "a", Folder)?)?;
    items.push(item_of(alloc, "ln", File)?)?;
    items.push(item_of(alloc, "e", Folder)?)?;
    let mut below = Vec::new(alloc);
    below.push(item_of(alloc, "b", File)?)?;
    let mut places = Vec::new(alloc);
    places.push(listed_at(alloc, "", items)?)?;
    places.push(listed_at(alloc, "a", below)?)?;
    places.push(listed_at(alloc, "e", Vec::new(alloc))?)?;
    places.push(file_at(alloc, "run", Vec::from_slice(alloc, b"hi\n")?, 2, &[])?)?;
    places.push(file_at(alloc, "ln", Vec::from_slice(alloc, b"run")?, 2, &[])?)?;
    places.push(file_at(alloc, "a/b", Vec::new(alloc), 2, &[])?)?;
    folder_of(alloc, places, &[])
}

/// The number of a folder, a name in it, and the mode of what stands there.
type Standing = (usize, &'static [u8], u32);

/// How the taking of a listing ends.
#[derive(Clone, Copy)]
enum Taking {
    /// This stands then, in the order of the table.
    Leaves(&'static [Standing]),
    IsBad(u64),
    IsOver(Which, u64),
    Fails,
}

use Taking::*;

fn has_mode(place: Member, wanted: u32) -> bool {
    match place {
        Member::File { mode, id: _ } => mode == wanted,
        Member::Folder => wanted == 40_000,
        Member::Project(id) => wanted == 160_000 && id == ID,
    }
}

fn stands(spot: &Spot, place: Member, (above, name, mode): Standing) -> bool {
    spot.above == above && spot.name.as_slice() == name && has_mode(place, mode)
}

fn all_stand(spots: &[Spot], places: &[Member], wanted: &[Standing]) -> bool {
    spots.len() == wanted.len()
        && places.len() == wanted.len()
        && spots.iter().zip(places).zip(wanted).all(|((spot, place), standing)| stands(
            spot, *place, *standing,
        ))
}

fn ends_so(ended: Result<(), DirFault>, spots: &[Spot], places: &[Member], taking: Taking) -> bool {
    match (ended, taking) {
        (Ok(()), Leaves(wanted)) => all_stand(spots, places, wanted),
        (Err(DirFault::BadModes { line }), IsBad(wanted)) => line == wanted,
        (Err(DirFault::Limit { which, number }), IsOver(wanted, most)) => {
            which == wanted && number == most
        }
        (Err(DirFault::ReadFault), Fails) => true,
        _ => false,
    }
}

/// Whether the taking of this source's lines over that folder ends so.
fn takes_so(
    alloc: Global,
    folder: &mut MemoryFolder,
    source: &mut MemorySource,
    taking: Taking,
) -> bool {
    let Ok(found) = walk(alloc, folder) else {
        return false;
    };
    let mut given = Given::new(alloc);
    let Ok(mut places) = read_files(alloc, &Sha1Namer, folder, found.as_slice(), &mut given) else {
        return false;
    };
    let Ok(mut spots) = spots_of(alloc, found.as_slice()) else {
        return false;
    };
    let Ok(mut numbers) = index_of(alloc, spots.as_slice()) else {
        return false;
    };
    let ended = take_lines(alloc, &mut spots, &mut places, &mut numbers, source);
    ends_so(ended, spots.as_slice(), places.as_slice(), taking)
}

/// A source of these bytes, in pieces of a size; the calls with these numbers fail.
fn source_of(
    alloc: Global,
    bytes: &[u8],
    piece: usize,
    failing: &[u64],
) -> Result<MemorySource, AllocError> {
    let bytes = Vec::from_slice(alloc, bytes)?;
    let failing = Vec::from_slice(alloc, failing)?;
    Ok(MemorySource::new(String::new(alloc), bytes, piece, failing))
}

/// A listing, and how its taking ends.
type Row = (&'static [u8], Taking);

const ROWS: &[Row] = &[
    (
        b"",
        Leaves(&[
            (0, b"", 40_000),
            (0, b"a", 40_000),
            (1, b"b", 100_644),
            (0, b"e", 40_000),
            (0, b"ln", 100_644),
            (0, b"run", 100_644),
        ]),
    ),
    (
        b"100755 run\n120000 ln\n",
        Leaves(&[
            (0, b"", 40_000),
            (0, b"a", 40_000),
            (1, b"b", 100_644),
            (0, b"e", 40_000),
            (0, b"ln", 120_000),
            (0, b"run", 100_755),
        ]),
    ),
    (
        b"100755 \"a/\\142\"\n160000 0123456789abcdef0123456789abcdef01234567 \"a/\\377\"\n\
160000 0123456789abcdef0123456789abcdef01234567 e/p\n",
        Leaves(&[
            (0, b"", 40_000),
            (0, b"a", 40_000),
            (1, b"b", 100_755),
            (0, b"e", 40_000),
            (0, b"ln", 100_644),
            (0, b"run", 100_644),
            (1, b"\xff", 160_000),
            (3, b"p", 160_000),
        ]),
    ),
    // No file, or one that a line names already.
    (b"100755 no\n", IsBad(1)),
    (b"100755 run\n120000 ln\n100755 no\n", IsBad(3)),
    (b"120000 a/no\n", IsBad(1)),
    (b"120000 no/b\n", IsBad(1)),
    (b"100755 run/b\n", IsBad(1)),
    (b"100755 a\n", IsBad(1)),
    (b"120000 e\n", IsBad(1)),
    (b"100755 run\n100755 run\n", IsBad(2)),
    (b"100755 run\n120000 ln\n120000 run\n", IsBad(3)),
    // A project where something stands, or in no folder.
    (
        b"160000 0123456789abcdef0123456789abcdef01234567 run\n",
        IsBad(1),
    ),
    (
        b"160000 0123456789abcdef0123456789abcdef01234567 a\n",
        IsBad(1),
    ),
    (
        b"160000 0123456789abcdef0123456789abcdef01234567 e\n",
        IsBad(1),
    ),
    (
        b"160000 0123456789abcdef0123456789abcdef01234567 run/p\n",
        IsBad(1),
    ),
    (
        b"160000 0123456789abcdef0123456789abcdef01234567 no/p\n",
        IsBad(1),
    ),
    (
        b"160000 0123456789abcdef0123456789abcdef01234567 p\n160000 0123456789abcdef0123456789abcdef01234567 p\n",
        IsBad(2),
    ),
    (
        b"160000 0123456789abcdef0123456789abcdef01234567 p\n160000 0123456789abcdef0123456789abcdef01234567 p/q\n",
        IsBad(2),
    ),
    (
        b"160000 0123456789abcdef0123456789abcdef01234567 p\n100755 p\n",
        IsBad(2),
    ),
    // The first line that breaks, by its form or by what it names.
    (b"100755 no\nx\n", IsBad(1)),
    (b"x\n100755 no\n", IsBad(1)),
    (b"100755 run\nx\n100755 no\n", IsBad(2)),
    (b"120000 ln\n100755 run", IsBad(2)),
];

/// Fails with the number of the first row, from 0, that ends in another way.
#[test]
fn lines_are_taken(rt: HostRuntime) -> Result<(), Fail> {
    for (number, (text, taking)) in ROWS.iter().enumerate() {
        let mut folder = folder(rt.alloc())?;
        let mut source = source_of(rt.alloc(), text, 5, &[])?;
        if !takes_so(rt.alloc(), &mut folder, &mut source, *taking) {
            return Err(Fail::new(number));
        }
    }
    Ok(())
}

/// The calls of a source that fail, and how the taking ends. Its first call gives the one line, its second the end.
const FAILING: &[(&[u64], Taking)] = &[(&[0], Fails), (&[1], Fails), (&[0, 1], Fails)];

#[test]
fn a_source_that_fails(rt: HostRuntime) -> Result<(), Fail> {
    for (number, (failing, taking)) in FAILING.iter().enumerate() {
        let mut folder = folder(rt.alloc())?;
        let mut source = source_of(rt.alloc(), b"100755 run\n", 64, failing)?;
        if !takes_so(rt.alloc(), &mut folder, &mut source, *taking) {
            return Err(Fail::new(number));
        }
    }
    Ok(())
}

/// A path that is too long stands behind a line that may not come.
#[test]
fn a_limit_in_its_order(rt: HostRuntime) -> Result<(), Fail> {
    for (number, (front, taking)) in [
        (b"120000 ln\n".as_slice(), IsOver(Which::Path, 65_536)),
        (b"120000 no\n".as_slice(), IsBad(1)),
    ]
    .iter()
    .enumerate()
    {
        let mut text = Vec::from_slice(rt.alloc(), front)?;
        text.extend_from_slice(b"100755 ")?;
        text.extend_from_slice(Vec::from_elem(rt.alloc(), b'a', 65_536)?.as_slice())?;
        text.push(b'\n')?;
        let mut folder = folder(rt.alloc())?;
        let mut source = source_of(rt.alloc(), text.as_slice(), 4_096, &[])?;
        if !takes_so(rt.alloc(), &mut folder, &mut source, *taking) {
            return Err(Fail::new(number));
        }
    }
    Ok(())
}
