// What is made of a folder in memory with its listing.
ghost use Rattle.std.specs.Prelude.{◌≡◌, length};
ghost use Rattle.std.specs.List.{AllByRecursion};
ghost use Rattle.swh_base.specs.Namer.{sha1_id};
ghost use Rattle.swh_dedup.specs.Making.{made, names_of_made};
ghost use Rattle.swh_dirmade.specs.Making.{IsHeld};
ghost use Rattle.swh_dirmade.specs.Spots.{IsTable};

use std::alloc::Global;
use swh_base::{Memory, Sha1Namer};
use swh_dirload::{index_of, read_files, spots_of, take_lines, walk};
use swh_dirmade::{Given, Member, Spot, first_long, make_directories, make_snapshot};
use swh_memory_input::{MemoryFolder, MemorySource};
use swh_object::Object;

/// How the making of directories ends.
#[derive(Drop)]
pub enum Outcome {
    /// These objects are made, and the folder's directory and the snapshot have these ids.
    Makes {
        objects: Vec<Object<Sha1Namer>>,
        root: [u8; 20],
        snapshot: [u8; 20],
    },
    /// The first directory that is too long has so many bytes.
    IsLong(u64),
    /// What is below did not come so far.
    Fails,
}

/// What is made of a table, of whose files the contents were given.
fn made_of(
    alloc: Global,
    spots: &[Spot],
    places: &[Member],
    given: Given<Sha1Namer>,
) -> Result<Outcome, Memory>
    requires table { IsTable spots.now }
    requires count { length places.now ≡ length spots.now }
    requires held { AllByRecursion (IsHeld (names_of_made sha1_id (made given))) places.now }
{
    if let Some(size) = first_long(alloc, spots, places)? {
        return Ok(Outcome::IsLong(size));
    }
    let mut given = given;
    let root = make_directories(alloc, &Sha1Namer, spots, places, &mut given)?;
    let snapshot = make_snapshot(alloc, &Sha1Namer, &mut given, root)?;
    let objects = given.into_objects();
    Ok(Outcome::Makes {
        objects,
        root,
        snapshot,
    })
}

/// What is made of a folder with its listing.
pub fn end_of(alloc: Global, folder: &mut MemoryFolder, listing: &mut MemorySource) -> Outcome {
    let Ok(found) = walk(alloc, folder) else {
        return Outcome::Fails;
    };
    let mut given = Given::new(alloc);
    let Ok(mut places) = read_files(alloc, &Sha1Namer, folder, found.as_slice(), &mut given) else {
        return Outcome::Fails;
    };
    let Ok(mut spots) = spots_of(alloc, found.as_slice()) else {
        return Outcome::Fails;
    };
    let Ok(mut numbers) = index_of(alloc, spots.as_slice()) else {
        return Outcome::Fails;
    };
    let Ok(()) = take_lines(alloc, &mut spots, &mut places, &mut numbers, listing) else {
        return Outcome::Fails;
    };
    match made_of(alloc, spots.as_slice(), places.as_slice(), given) {
        Ok(made) => made,
        Err(_) => Outcome::Fails,
    }
}
