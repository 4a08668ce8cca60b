//! The directories of a table, from its last spot to its first.
ghost use Rattle.std.specs.Prelude.{◌≡◌, ◌<◌, ◌+◌, ◌++◌, ◌∷◌, [], ℕ, List, Some, IfOk, OnOk, Contains, length, slice_set};
ghost use Rattle.std.specs.List.{AllByRecursion};
ghost use Rattle.swh_base.specs.declared.entry.Entry.{Entry};
ghost use Rattle.swh_dirfmt.specs.Entries.{entry_view};
ghost use Rattle.swh_dedup.specs.Making.{made, names_of_made};
ghost use Rattle.swh_dirmade.specs.declared.member.Member.TheVariants.{Folder as AFolder};
ghost use Rattle.swh_dirmade.specs.Building.{list_views, list_at, Builds};
ghost use Rattle.swh_dirmade.specs.Directories.{GivesDirectories};
ghost use Rattle.swh_dirmade.specs.Making.{IsHeld, directory_name};
ghost use Rattle.swh_dirmade.specs.Sizes.{AreShort};
ghost use Rattle.swh_dirmade.specs.Spots.{Places, IsTable, Stand};

use crate::directory::{make_directory, make_entry};
use crate::given::Given;
use crate::member::Member;
use crate::spot::Spot;
use std::alloc::Global;
use swh_base::{Memory, Namer};
use swh_dirfmt::DirEntry;

/// As many empty lists.
pub fn no_lists(alloc: Global, count: usize) -> Result<Vec<Vec<DirEntry>>, Memory>
    ensures count { IfOk result (λ lists. length lists.items ≡ count) }
    ensures none { IfOk result (λ lists. (k : ℕ) → list_at (list_views lists.items) k ≡ []) }
{
    let mut lists = Vec::new(alloc);
    'lists: for _turn in 0..count {
        lists.push(Vec::new(alloc))?;
    }
    Ok(lists)
}

/// Adds an entry to the list of a folder.
pub fn put_entry(
    lists: &mut Vec<Vec<DirEntry>>,
    folder: usize,
    entry: DirEntry,
) -> Result<(), Memory>
    requires { folder < length lists.old.items }
    ensures put { OnOk result (list_views lists.new.items ≡ slice_set (list_views lists.old.items) folder
        (list_at (list_views lists.old.items) folder ++ entry_view entry ∷ [])) }
    ensures count { OnOk result (length lists.new.items ≡ length lists.old.items) }
{
    lists[folder].push(entry)?;
    Ok(())
}

/// Makes the entry of the last spot whose list is left, and its directory, where it is a folder.
fn put_next<N: Namer>(
    alloc: Global,
    namer: &N,
    spots: &[Spot],
    places: &[Member],
    lists: &mut Vec<Vec<DirEntry>>,
    given: &mut Given<N>,
) -> Result<(), Memory>
    requires table { IsTable spots.now }
    requires count { length places.now ≡ length spots.now }
    requires short { AreShort spots.now places.now }
    requires more { 1 < length lists.old.items }
    requires built { (old : List Entry) × AllByRecursion (IsHeld (names_of_made N.id_of (made old))) places.now
        × Builds N.id_of spots.now places.now (length lists.old.items) (list_views lists.old.items) old given.old }
    ensures built { (old : List Entry)
        → Builds N.id_of spots.now places.now (length lists.old.items) (list_views lists.old.items) old given.old
        → OnOk result (Builds N.id_of spots.now places.now (length lists.new.items) (list_views lists.new.items) old given.new) }
    ensures less { OnOk result (length lists.new.items + 1 ≡ length lists.old.items) }
{
    let Some(list) = lists.pop() else {
        unreachable!()
    };
    let number = lists.len();
    let spot = &spots[number];
    let entry = make_entry(alloc, namer, given, spot, places[number], list)?;
    put_entry(lists, spot.above, entry)?;
    Ok(())
}

/// Makes the directories of all folders of a table, of whose files the contents were given, and tells the id of the
/// first, the folder itself. None of them is longer than a body may be.
pub fn make_directories<N: Namer>(
    alloc: Global,
    namer: &N,
    spots: &[Spot],
    standing: &[Member],
    given: &mut Given<N>,
) -> Result<[u8; 20], Memory>
    requires table { IsTable spots.now }
    requires count { length standing.now ≡ length spots.now }
    requires short { AreShort spots.now standing.now }
    requires held { AllByRecursion (IsHeld (names_of_made N.id_of (made given.old))) standing.now }
    ensures gives { (places : Places) → Stand spots.now standing.now places → places [] ≡ Some AFolder
        → IfOk result (GivesDirectories N.id_of places given.old given.new) }
    ensures root { IfOk result (λ root. Contains (names_of_made N.id_of (made given.new)) (directory_name root)) }
{
    let mut lists = no_lists(alloc, spots.len())?;
    'up: for _turn in 1..spots.len() {
        put_next(alloc, namer, spots, standing, &mut lists, given)?;
    }
    let Some(root) = lists.pop() else {
        unreachable!()
    };
    let id = make_directory(alloc, namer, given, root)?;
    Ok(id)
}
