//! A directory, made of the entries of all that stands in a folder.
ghost use Rattle.std.specs.Prelude.{◌≡◌, List, IfOk};
ghost use Rattle.std.specs.Ordering.{nat_cmp};
ghost use Rattle.std.specs.Cmp.Lexicographic.{slice_cmp};
ghost use Rattle.swh_base.specs.declared.name.Name.{Name};
ghost use Rattle.swh_base.specs.Directory.{DirectoryEntry, sort_key, suffix_of, IsEntryName};
ghost use Rattle.swh_dirfmt.specs.Entries.{entry_view, entry_views};
ghost use Rattle.swh_dedup.specs.Making.{made, names_of_made};
ghost use Rattle.swh_dirmade.specs.declared.member.Member.TheVariants.{Folder as AFolder};
ghost use Rattle.swh_dirmade.specs.Making.{IsHeld, MayBeDirectory, IsDirectoryObject, GivesDirectory, MakesEntry};

use crate::given::Given;
use crate::member::Member;
use crate::spot::Spot;
use std::alloc::Global;
use std::cmp::Ordering;
use swh_base::{Bytes, Kind, Memory, Namer};
use swh_dedup::{MakeFault, make_object, whole_id};
use swh_dirfmt::{DirEntry, Entries, write_dir};
use swh_object::Object;

/// What a name is compared with after its own bytes.
fn key_end(mode: u32) -> &'static [u8]
    ensures { result.now ≡ suffix_of mode }
{
    if mode == 40_000 { b"/" } else { b"" }
}

/// How two entries stand to each other (git objects, tree): a folder's name as if it ended in `/`.
fn order_of(a: &DirEntry, b: &DirEntry) -> Ordering
    ensures { result ≡ slice_cmp nat_cmp (sort_key (entry_view a.now)) (sort_key (entry_view b.now)) }
{
    let key = a.name.as_slice().iter().chain(key_end(a.mode));
    key.cmp(b.name.as_slice().iter().chain(key_end(b.mode)))
}

/// The directory of these entries.
pub fn directory_object<N: Namer>(
    alloc: Global,
    namer: &N,
    list: Vec<DirEntry>,
) -> Result<Object<N>, Memory>
    requires { (names : List Name) × MayBeDirectory names (entry_views list.items) }
    ensures { IfOk result (λ object. (entries : List DirectoryEntry)
        × IsDirectoryObject N.id_of (entry_views list.items) entries object) }
{
    let mut list = list;
    list.sort_unstable_by(|a, b| order_of(a, b));
    let body = write_dir(alloc, &Entries::of(list))?;
    match make_object(alloc, namer, Kind::Directory, body) {
        Ok(object) => Ok(object),
        Err(MakeFault::TooLong { len: _ }) => unreachable!(),
        Err(MakeFault::Memory) => Err(Memory),
    }
}

/// Makes the directory of these entries, whose children were given, and tells its id.
pub fn make_directory<N: Namer>(
    alloc: Global,
    namer: &N,
    given: &mut Given<N>,
    list: Vec<DirEntry>,
) -> Result<[u8; 20], Memory>
    requires { MayBeDirectory (names_of_made N.id_of (made given.old)) (entry_views list.items) }
    ensures { IfOk result (λ id. (entries : List DirectoryEntry)
        × GivesDirectory N.id_of given.old (entry_views list.items) given.new entries id) }
{
    let object = directory_object(alloc, namer, list)?;
    let id = whole_id(&object.name().id);
    given.give(alloc, object)?;
    Ok(id)
}

/// The entry of a spot where this stands. A folder has the entries of the list, of which its directory is made.
pub fn make_entry<N: Namer>(
    alloc: Global,
    namer: &N,
    given: &mut Given<N>,
    spot: &Spot,
    place: Member,
    list: Vec<DirEntry>,
) -> Result<DirEntry, Memory>
    requires named { IsEntryName spot.now.name }
    requires held { IsHeld (names_of_made N.id_of (made given.old)) place }
    requires list { place ≡ AFolder
        → MayBeDirectory (names_of_made N.id_of (made given.old)) (entry_views list.items) }
    ensures { IfOk result (λ entry. MakesEntry N.id_of spot.now.name place given.old (entry_views list.items) given.new
        (entry_view entry)) }
{
    let name = Bytes::from_slice(alloc, spot.name.as_slice())?;
    match place {
        Member::File { mode, id } => {
            let id = whole_id(&id);
            Ok(DirEntry { mode, name, id })
        }
        Member::Folder => {
            let id = make_directory(alloc, namer, given, list)?;
            let mode = 40_000;
            Ok(DirEntry { mode, name, id })
        }
        Member::Project(id) => {
            let mode = 160_000;
            let id = whole_id(&id);
            Ok(DirEntry { mode, name, id })
        }
    }
}
