//! How long the directories of a table are, before any of them is made.
ghost use Rattle.std.specs.Prelude.{◌≡◌, ◌↔◌, ◌<◌, ◌+◌, ℕ, IsTrue, IfOk, IfSome, IfNone, OnOk, length, slice_set, slice_index_or};
ghost use Rattle.swh_base.specs.Limits.{body_limit};
ghost use Rattle.swh_dirmade.specs.Directories.{entry_size, mode_digits};
ghost use Rattle.swh_dirmade.specs.Numbers.{IsFolderAt};
ghost use Rattle.swh_dirmade.specs.Sizes.{AreSizes, AreShort, IsFirstLong};
ghost use Rattle.swh_dirmade.specs.Spots.{IsTable};

use crate::member::Member;
use crate::spot::Spot;
use std::alloc::Global;
use swh_base::{BODY_LIMIT, Memory};

/// How many digits the mode of what stands there has.
fn mode_digits(place: Member) -> u64
    ensures { result ≡ mode_digits place }
{
    match place {
        Member::File { mode: _, id: _ } => 6,
        Member::Folder => 5,
        Member::Project(_) => 6,
    }
}

/// How many bytes an entry has: its mode, a space, its name, a NUL, and an id of twenty bytes.
fn entry_size(name: &[u8], place: Member) -> u64
    ensures { result ≡ entry_size name.now place }
{
    mode_digits(place) + name.len() as u64 + 22
}

/// Adds to the size of a folder's directory. More bytes than a machine can count are in no memory.
fn add_size(sizes: &mut Vec<u64>, folder: usize, size: u64) -> Result<(), Memory>
    requires { folder < length sizes.old.items }
    ensures { OnOk result (sizes.new.items
        ≡ slice_set sizes.old.items folder (slice_index_or sizes.old.items folder 0 + size)) }
{
    let Some(sum) = sizes[folder].checked_add(size) else {
        return Err(Memory);
    };
    sizes[folder] = sum;
    Ok(())
}

/// As many zeros.
fn zeros(alloc: Global, count: usize) -> Result<Vec<u64>, Memory>
    ensures count { IfOk result (λ zeros. length zeros.items ≡ count) }
    ensures zero { IfOk result (λ zeros. (k : ℕ) → slice_index_or zeros.items k 0 ≡ 0) }
{
    let mut zeros = Vec::new(alloc);
    'zeros: for _turn in 0..count {
        zeros.push(0)?;
    }
    Ok(zeros)
}

/// How long the directory of each spot is, if a folder stands there.
fn sizes_of(alloc: Global, spots: &[Spot], places: &[Member]) -> Result<Vec<u64>, Memory>
    requires table { IsTable spots.now }
    requires count { length places.now ≡ length spots.now }
    ensures { IfOk result (λ sizes. AreSizes spots.now places.now 1 sizes.items) }
{
    let count = spots.len();
    let mut sizes = zeros(alloc, count)?;
    'up: for turn in 1..count {
        let number = count - turn;
        let spot = &spots[number];
        let size = entry_size(spot.name.as_slice(), places[number]);
        add_size(&mut sizes, spot.above, size)?;
    }
    Ok(sizes)
}

/// Whether a folder stands there; the first is the folder itself.
fn is_folder(places: &[Member], number: usize) -> bool
    requires { number < length places.now }
    ensures { IsTrue result ↔ IsFolderAt places.now number }
{
    if number == 0 {
        return true;
    }
    match places[number] {
        Member::Folder => true,
        Member::File { mode: _, id: _ } => false,
        Member::Project(_) => false,
    }
}

/// Whether a folder stands there whose directory of this size is longer than a body may be.
fn is_long(places: &[Member], number: usize, size: u64) -> bool
    requires { number < length places.now }
    ensures { IsTrue result ↔ (IsFolderAt places.now number × (body_limit < size)) }
{
    if size <= BODY_LIMIT {
        return false;
    }
    is_folder(places, number)
}

/// The size of the first folder's directory that is longer than a body may be, in the order of the table.
pub fn first_long(alloc: Global, spots: &[Spot], places: &[Member]) -> Result<Option<u64>, Memory>
    requires table { IsTable spots.now }
    requires count { length places.now ≡ length spots.now }
    ensures long { IfOk result (λ long. IfSome long (IsFirstLong spots.now places.now)) }
    ensures short { IfOk result (λ long. IfNone long (AreShort spots.now places.now)) }
{
    let sizes = sizes_of(alloc, spots, places)?;
    'folders: for number in 0..spots.len() {
        let size = sizes[number];
        if is_long(places, number, size) {
            return Ok(Some(size));
        }
    }
    Ok(None)
}
