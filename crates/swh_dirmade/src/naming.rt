//! The directory of a table, named: no object is kept.
ghost use Rattle.std.specs.Prelude.{◌≡◌, ◌<◌, ◌+◌, ℕ, List, [], Some, IfOk, OnOk, length};
ghost use Rattle.std.specs.List.{AllByRecursion};
ghost use Rattle.swh_base.specs.declared.entry.Entry.{Entry};
ghost use Rattle.swh_base.specs.declared.name.Name.{Name};
ghost use Rattle.swh_base.specs.Directory.{DirectoryEntry, IsEntryName};
ghost use Rattle.swh_dirfmt.specs.Entries.{entry_view, entry_views};
ghost use Rattle.swh_dedup.specs.Making.{made, names_of_made};
ghost use Rattle.swh_object.specs.Object.{IsObject};
ghost use Rattle.swh_dirmade.specs.declared.member.Member.TheVariants.{Folder as AFolder};
ghost use Rattle.swh_dirmade.specs.Building.{list_views, Builds};
ghost use Rattle.swh_dirmade.specs.Directories.{GivesDirectories};
ghost use Rattle.swh_dirmade.specs.Making.{IsHeld, MayBeDirectory, GivesDirectory, MakesEntry, directory_name};
ghost use Rattle.swh_dirmade.specs.Sizes.{AreShort};
ghost use Rattle.swh_dirmade.specs.Spots.{Places, IsTable, Stand};

use crate::building::{no_lists, put_entry};
use crate::directory::directory_object;
use crate::member::Member;
use crate::spot::Spot;
use std::alloc::Global;
use swh_base::{Bytes, Memory, Namer};
use swh_dedup::whole_id;
use swh_dirfmt::DirEntry;

/// The id of the directory of these entries. Its body is let go.
fn name_directory<N: Namer>(
    alloc: Global,
    namer: &N,
    list: Vec<DirEntry>,
) -> Result<[u8; 20], Memory>
    requires { (names : List Name) × MayBeDirectory names (entry_views list.items) }
    ensures { (old : List Entry) → IfOk result (λ id. (new : List Entry) × (entries : List DirectoryEntry)
        × GivesDirectory N.id_of old (entry_views list.items) new entries id) }
{
    let object = directory_object(alloc, namer, list)?;
    Ok(whole_id(&object.name().id))
}

/// The entry of a spot where this stands. A folder has the entries of the list, of which its directory is named.
fn name_entry<N: Namer>(
    alloc: Global,
    namer: &N,
    spot: &Spot,
    place: Member,
    list: Vec<DirEntry>,
) -> Result<DirEntry, Memory>
    requires named { IsEntryName spot.now.name }
    requires held { (names : List Name) × IsHeld names place × (place ≡ AFolder → MayBeDirectory names (entry_views list.items)) }
    ensures { (old : List Entry) → IfOk result (λ entry. (new : List Entry)
        × MakesEntry N.id_of spot.now.name place old (entry_views list.items) new (entry_view entry)) }
{
    let name = Bytes::from_slice(alloc, spot.name.as_slice())?;
    match place {
        Member::File { mode, id } => {
            let id = whole_id(&id);
            Ok(DirEntry { mode, name, id })
        }
        Member::Folder => {
            let id = name_directory(alloc, namer, list)?;
            let mode = 40_000;
            Ok(DirEntry { mode, name, id })
        }
        Member::Project(id) => {
            let mode = 160_000;
            let id = whole_id(&id);
            Ok(DirEntry { mode, name, id })
        }
    }
}

/// Makes the entry of the last spot whose list is left.
fn name_next<N: Namer>(
    alloc: Global,
    namer: &N,
    spots: &[Spot],
    places: &[Member],
    lists: &mut Vec<Vec<DirEntry>>,
) -> Result<(), Memory>
    requires table { IsTable spots.now }
    requires count { length places.now ≡ length spots.now }
    requires short { AreShort spots.now places.now }
    requires more { 1 < length lists.old.items }
    requires built { (old : List Entry) × (now : List Entry) × AllByRecursion (IsHeld (names_of_made N.id_of (made old))) places.now
        × Builds N.id_of spots.now places.now (length lists.old.items) (list_views lists.old.items) old now }
    ensures built { (old now : List Entry) → AllByRecursion (IsHeld (names_of_made N.id_of (made old))) places.now
        → Builds N.id_of spots.now places.now (length lists.old.items) (list_views lists.old.items) old now
        → OnOk result ((new : List Entry)
        × Builds N.id_of spots.now places.now (length lists.new.items) (list_views lists.new.items) old new) }
    ensures less { OnOk result (length lists.new.items + 1 ≡ length lists.old.items) }
{
    let Some(list) = lists.pop() else {
        unreachable!()
    };
    let number = lists.len();
    let spot = &spots[number];
    let entry = name_entry(alloc, namer, spot, places[number], list)?;
    put_entry(lists, spot.above, entry)?;
    Ok(())
}

/// The id of the directory of the first folder of a table, the folder itself, where the files have the contents of these
/// ids. No directory is longer than a body may be. Each is let go once it has its id.
pub fn name_directories<N: Namer>(
    alloc: Global,
    namer: &N,
    spots: &[Spot],
    standing: &[Member],
) -> Result<[u8; 20], Memory>
    requires table { IsTable spots.now }
    requires count { length standing.now ≡ length spots.now }
    requires short { AreShort spots.now standing.now }
    requires held { (old : List Entry) × AllByRecursion (IsHeld (names_of_made N.id_of (made old))) standing.now }
    ensures gives { (old : List Entry) (places : Places)
        → AllByRecursion (IsHeld (names_of_made N.id_of (made old))) standing.now
        → Stand spots.now standing.now places → places [] ≡ Some AFolder
        → IfOk result (λ root. (new : List Entry) × GivesDirectories N.id_of places old new root) }
    ensures object { IfOk result (λ root. (object : Entry) × IsObject N.id_of object
        × (object.name ≡ directory_name root)) }
{
    let mut lists = no_lists(alloc, spots.len())?;
    'up: for _turn in 1..spots.len() {
        name_next(alloc, namer, spots, standing, &mut lists)?;
    }
    let Some(root) = lists.pop() else {
        unreachable!()
    };
    let id = name_directory(alloc, namer, root)?;
    Ok(id)
}
