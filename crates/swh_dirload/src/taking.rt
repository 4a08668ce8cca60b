//! A line of a listing, taken where it may come.
ghost use Rattle.std.specs.Prelude.{◌≡◌, ◌≢◌, ◌<◌, ◌↔◌, ℕ, List, IsTrue, IfOk, IfSome, IfNone, OnOk, length};
ghost use Rattle.std.specs.List.{AllByRecursion};
ghost use Rattle.swh_base.specs.declared.name.Name.{Name};
ghost use Rattle.swh_base.specs.Directory.{IsEntryName};
ghost use Rattle.swh_dirmade.specs.Making.{IsHeld};
ghost use Rattle.swh_fastlex.specs.Path.{IsPath};
ghost use Rattle.swh_listing.specs.declared.listed.Mode.TheVariants.{Project as OfProject};
ghost use Rattle.swh_dirload.specs.declared.lookup.Lookup.{Lookup as Leads};
ghost use Rattle.swh_dirmade.specs.declared.member.Member.TheVariants.{File as AFile, Folder as AFolder};
ghost use Rattle.swh_dirload.specs.Index.{IsIndex, HasNone, LooksUp};
ghost use Rattle.swh_dirload.specs.Lines.{SetsMode, TakesMode, AddsProject, IsTaken, GoesOn};
ghost use Rattle.swh_dirmade.specs.Spots.{Places, IsTable, Stand};

use crate::lookup::{Lookup, add_number, look_up};
use std::alloc::Global;
use std::collections::BTreeMap;
use swh_base::{Bytes, Memory};
use swh_dirmade::{Member, Spot};
use swh_fastlex::is_path;
use swh_listing::{Listed, Mode};

/// Whether a line may come after those before it.
#[derive(Clone, Copy, Debug, PartialEq, Eq)]
pub enum Taken {
    Yes,
    No,
}

/// The id of a file that no line names.
fn unnamed_id(place: Member) -> Option<[u8; 20]>
    ensures some { IfSome result (λ id. place ≡ AFile 100644 id) }
    ensures none { IfNone result ((id : List ℕ) → place ≢ AFile 100644 id) }
{
    match place {
        Member::File { mode: 100_644, id } => Some(id),
        Member::File { mode: _, id: _ } => None,
        Member::Folder => None,
        Member::Project(_) => None,
    }
}

/// Gives the file at a number another mode, where no line named it.
fn set_mode(places: &mut Vec<Member>, number: usize, mode: u32) -> Taken
    requires { number < length places.old.items }
    ensures { SetsMode places.old.items number mode places.new.items result }
{
    let Some(id) = unnamed_id(places[number]) else {
        return Taken::No;
    };
    places[number] = Member::File { mode, id };
    Taken::Yes
}

/// Gives the file to which a path leads another mode, where it leads to one that no line named.
fn take_mode(
    alloc: Global,
    spots: &[Spot],
    places: &mut Vec<Member>,
    numbers: &BTreeMap<Vec<u8>, usize>,
    path: &[u8],
    mode: u32,
) -> Result<Taken, Memory>
    requires table { IsTable spots.now }
    requires index { IsIndex spots.now numbers.now.entries }
    requires count { length places.old.items ≡ length spots.now }
    requires path { IsPath path.now }
    ensures taken { IfOk result (λ taken. (found : Leads) × LooksUp spots.now path.now found
        × TakesMode found places.old.items mode places.new.items taken) }
    ensures same { length places.new.items ≡ length places.old.items }
{
    match look_up(alloc, spots, numbers, path)? {
        Lookup::Here(number) => Ok(set_mode(places, number, mode)),
        Lookup::Free { above: _, name: _ } => Ok(Taken::No),
        Lookup::Lost => Ok(Taken::No),
    }
}

/// Whether a folder stands there.
fn is_folder(place: Member) -> bool
    ensures { IsTrue result ↔ (place ≡ AFolder) }
{
    match place {
        Member::Folder => true,
        Member::File { mode: _, id: _ } => false,
        Member::Project(_) => false,
    }
}

/// Adds a project's revision under a name in the folder of a number, where a folder stands there.
fn add_project(
    alloc: Global,
    spots: &mut Vec<Spot>,
    places: &mut Vec<Member>,
    numbers: &mut BTreeMap<Vec<u8>, usize>,
    above: usize,
    name: Bytes,
    id: [u8; 20],
) -> Result<Taken, Memory>
    requires table { IsTable spots.old.items }
    requires index { IsIndex spots.old.items numbers.old.entries }
    requires count { length places.old.items ≡ length spots.old.items }
    requires within { above < length spots.old.items }
    requires named { IsEntryName name }
    requires none { HasNone spots.old.items above name }
    ensures adds { IfOk result (AddsProject above name id spots.old.items places.old.items spots.new.items
        places.new.items) }
    ensures table { OnOk result (IsTable spots.new.items) }
    ensures index { OnOk result (IsIndex spots.new.items numbers.new.entries) }
    ensures count { OnOk result (length places.new.items ≡ length spots.new.items) }
{
    if !is_folder(places[above]) {
        return Ok(Taken::No);
    }
    let number = spots.len();
    add_number(alloc, numbers, above, name.as_slice(), number)?;
    spots.push(Spot { above, name })?;
    places.push(Member::Project(id))?;
    Ok(Taken::Yes)
}

/// Adds a project's revision where nothing stands, in a folder.
fn take_project(
    alloc: Global,
    spots: &mut Vec<Spot>,
    places: &mut Vec<Member>,
    numbers: &mut BTreeMap<Vec<u8>, usize>,
    path: &[u8],
    id: [u8; 20],
) -> Result<Taken, Memory>
    requires table { IsTable spots.old.items }
    requires index { IsIndex spots.old.items numbers.old.entries }
    requires count { length places.old.items ≡ length spots.old.items }
    requires path { IsPath path.now }
    ensures taken { (before : Places) → Stand spots.old.items places.old.items before
        → IfOk result (IsTaken before (OfProject id) path.now spots.new.items places.new.items) }
    ensures held { (names : List Name) → AllByRecursion (IsHeld names) places.old.items
        → OnOk result (AllByRecursion (IsHeld names) places.new.items) }
    ensures goes { OnOk result (GoesOn spots.old.items places.old.items spots.new.items places.new.items) }
    ensures table { OnOk result (IsTable spots.new.items) }
    ensures index { OnOk result (IsIndex spots.new.items numbers.new.entries) }
    ensures count { OnOk result (length places.new.items ≡ length spots.new.items) }
{
    match look_up(alloc, spots.as_slice(), numbers, path)? {
        Lookup::Free { above, name } => add_project(alloc, spots, places, numbers, above, name, id),
        Lookup::Here(_) => Ok(Taken::No),
        Lookup::Lost => Ok(Taken::No),
    }
}

/// Takes a line after those before it, where it may come.
pub fn take_line(
    alloc: Global,
    spots: &mut Vec<Spot>,
    places: &mut Vec<Member>,
    numbers: &mut BTreeMap<Vec<u8>, usize>,
    listed: &Listed,
) -> Result<Taken, Memory>
    requires table { IsTable spots.old.items }
    requires index { IsIndex spots.old.items numbers.old.entries }
    requires count { length places.old.items ≡ length spots.old.items }
    ensures taken { (before : Places) → Stand spots.old.items places.old.items before
        → IfOk result (IsTaken before listed.now.mode listed.now.path spots.new.items places.new.items) }
    ensures held { (names : List Name) → AllByRecursion (IsHeld names) places.old.items
        → OnOk result (AllByRecursion (IsHeld names) places.new.items) }
    ensures goes { OnOk result (GoesOn spots.old.items places.old.items spots.new.items places.new.items) }
    ensures table { OnOk result (IsTable spots.new.items) }
    ensures index { OnOk result (IsIndex spots.new.items numbers.new.entries) }
    ensures count { OnOk result (length places.new.items ≡ length spots.new.items) }
{
    let path = listed.path.as_slice();
    // So of each source, also of one that does not tell what it has.
    if !is_path(path) {
        return Ok(Taken::No);
    }
    match listed.mode {
        Mode::Executable => take_mode(alloc, spots.as_slice(), places, numbers, path, 100_755),
        Mode::Link => take_mode(alloc, spots.as_slice(), places, numbers, path, 120_000),
        Mode::Project(id) => take_project(alloc, spots, places, numbers, path, id),
    }
}
