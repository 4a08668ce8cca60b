// A folder in memory.
ghost use Rattle.std.specs.Prelude.{◌≡◌, ◌≤◌, ◌<◌, ◌⊎◌, [], None, Some, false, length, string_bytes, IfOk, IfSome, IfNone, IsTrue};
ghost use Rattle.std.specs.Arc.{arc_slice_items};
ghost use Rattle.std.specs.List.{position_or_len};
ghost use Rattle.swh_folder_names.specs.Names.{names_of};
ghost use Rattle.swh_outside.specs.Folder.{entries_at, bytes_at, AreNames};
ghost use Rattle.swh_memory_input.specs.Folders.{is_place_at, entries_of, tree_of, making_at, MayList};
ghost use Rattle.swh_memory_input.specs.Inputs.{
  source_left,
  source_given,
  source_ended,
  source_path,
  source_piece,
  source_tally,
  source_faults,
};

use crate::{MemorySource, PathItem, Stands};
use std::alloc::{AllocError, Global};
use std::sync::ArcSlice;
use swh_folder_names::are_names;
use swh_memory_failures::Failures;
use swh_outside::{Folder, Item, OutFault};

/// A folder of given places. Its calls with given numbers fail.
#[derive(Drop)]
pub struct MemoryFolder {
    alloc: Global,
    path: String,
    places: ArcSlice<PathItem>,
    failures: Failures,
}

impl MemoryFolder {
    ghost use Rattle.swh_memory_failures.specs.Tally.{fresh_tally};
    ghost use Rattle.swh_memory_input.specs.Folders.{
      folder_places,
      folder_tree,
      folder_path,
      folder_faults,
      folder_tally,
    };

    /// A folder opened at a path, in which these places are. Its calls of `list` and `read` with the listed numbers,
    /// from 0, will fail.
    pub fn new(alloc: Global, path: String, places: ArcSlice<PathItem>, failing: Vec<u64>) -> Self
        ensures places { folder_places result ≡ arc_slice_items places }
        ensures holds { folder_tree result ≡ tree_of (arc_slice_items places) }
        ensures path { folder_path result ≡ string_bytes path }
        ensures failing { folder_tally result ≡ fresh_tally failing.items }
        ensures no_fault { folder_faults result ≡ 0 }
    {
        MemoryFolder {
            alloc,
            path,
            places,
            failures: Failures::at(failing),
        }
    }

    /// How often it has failed.
    pub fn faults(&self) -> u64
        ensures { result ≡ folder_faults self.now }
    {
        self.failures.count()
    }

    /// Where it was opened.
    pub fn path(&self) -> &str
        ensures { result.now ≡ folder_path self.now }
    {
        self.path.as_str()
    }
}

impl Folder for MemoryFolder {
    ghost use Rattle.std.specs.Prelude.{IsErr};
    ghost use Rattle.swh_outside.specs.Causes.{HasOutCause};
    ghost use Rattle.swh_outside.specs.Faults.{Rose};
    ghost use Rattle.swh_memory_failures.specs.Answers.{has_failed, with_given_back};
    ghost use Rattle.swh_memory_failures.specs.Tally.{is_next_listed, tallied};
    ghost use Rattle.swh_memory_input.specs.Folders.{
      folder_places,
      folder_tree,
      folder_path,
      folder_faults,
      folder_tally,
    };

    type S = MemorySource;

    ghost tells = { Unit {0} };

    ghost holds = { folder_tree };

    ghost opened_at = { folder_path };

    ghost faults = { folder_faults };

    fn list(&mut self, alloc: Global, dir: &str) -> Result<Vec<Item>, OutFault>
        ensures entries { IfOk result (λ items. entries_at (folder_tree self.old) dir.now
            ≡ Some (entries_of items.items)) }
        ensures names { IfOk result (λ items. AreNames (names_of items.items)) }
        // It fails where its number is listed, and else only where no folder of good names stands there.
        ensures listed { IsTrue (is_next_listed (folder_tally self.old)) → IsErr result }
        ensures fails { IsTrue (has_failed result) → IsTrue (is_next_listed (folder_tally self.old))
            ⊎ (MayList (folder_tree self.old) dir.now → ⊥) }
        ensures counted { folder_tally self.new ≡ tallied (has_failed result) (folder_tally self.old) }
        ensures cause { HasOutCause (folder_faults self.old) (folder_faults self.new) result }
        ensures same_places { folder_places self.new ≡ folder_places self.old }
        ensures same { folder_tree self.new ≡ folder_tree self.old }
        ensures same_path { folder_path self.new ≡ folder_path self.old }
    {
        if self.failures.next_fails() {
            return Err(OutFault::from(self.failures.refuse()));
        }
        match items_at(alloc, self.places.as_slice(), dir) {
            Ok(Some(items)) => Ok(items),
            Ok(None) => Err(OutFault::from(self.failures.refuse())),
            Err(_) => Err(OutFault::Memory),
        }
    }

    fn read(&mut self, path: &str) -> Result<MemorySource, OutFault>
        ensures given { IfOk result (λ source. bytes_at (folder_tree self.old) path.now ≡ Some (source_left source)) }
        ensures source_path { IfOk result (λ source. source_path source ≡ path.now) }
        ensures no_fault { IfOk result (λ source. source_faults source ≡ 0) }
        ensures made { IfOk result (λ source. making_at (folder_places self.old) path.now
            ≡ Some (source_piece source, source_tally source)) }
        ensures nothing_given { IfOk result (λ source. source_given source ≡ []) }
        ensures not_ended { IfOk result (λ source. source_ended source ≡ false) }
        // It fails where its number is listed, and else only where no file stands there.
        ensures listed { IsTrue (is_next_listed (folder_tally self.old)) → IsErr result }
        ensures fails { IsTrue (has_failed result) → IsTrue (is_next_listed (folder_tally self.old))
            ⊎ (bytes_at (folder_tree self.old) path.now ≡ None) }
        ensures counted { folder_tally self.new ≡ tallied (has_failed result) (folder_tally self.old) }
        ensures cause { HasOutCause (folder_faults self.old) (folder_faults self.new) result }
        ensures same_places { folder_places self.new ≡ folder_places self.old }
        ensures same { folder_tree self.new ≡ folder_tree self.old }
        ensures same_path { folder_path self.new ≡ folder_path self.old }
    {
        if self.failures.next_fails() {
            return Err(OutFault::from(self.failures.refuse()));
        }
        match source_at(self.alloc, self.places.as_slice(), path) {
            Ok(Some(source)) => Ok(source),
            Ok(None) => Err(OutFault::from(self.failures.refuse())),
            Err(_) => Err(OutFault::Memory),
        }
    }

    fn back(&mut self, source: MemorySource)
        ensures counted { folder_tally self.new ≡ with_given_back (source_faults source) (folder_tally self.old) }
        ensures same_places { folder_places self.new ≡ folder_places self.old }
        ensures same { folder_tree self.new ≡ folder_tree self.old }
        ensures same_path { folder_path self.new ≡ folder_path self.old }
        ensures later { folder_faults self.old ≤ folder_faults self.new }
        ensures cause { 0 < source_faults source → Rose (folder_faults self.old) (folder_faults self.new) }
        ensures quiet { source_faults source ≡ 0 → folder_faults self.new ≡ folder_faults self.old }
    {
        if source.faults() > 0 {
            let _ = self.failures.refuse();
        }
    }
}

// The number of the first place at a path, or of places.
fn find_place(places: &[PathItem], path: &str) -> usize
    ensures first { result ≡ position_or_len (is_place_at path.now) places.now }
    ensures within { result ≤ length places.now }
{
    for (i, place) in places.iter().enumerate() {
        if place.is_at(path) {
            return i;
        }
    }
    places.len()
}

fn copy_items(alloc: Global, items: &[Item]) -> Result<Vec<Item>, AllocError>
    ensures { IfOk result (λ copy. entries_of copy.items ≡ entries_of items.now) }
{
    let mut copy = Vec::with_capacity(alloc, items.len())?;
    for item in items {
        let name = String::from_str(alloc, item.name.as_str())?;
        let what = item.what;
        copy.push(Item { name, what })?;
    }
    Ok(copy)
}

// The items of a folder's list, where the names are good.
fn good_items(alloc: Global, items: &[Item]) -> Result<Option<Vec<Item>>, AllocError>
    ensures some { IfOk result (λ found. IfSome found (λ copy. (entries_of copy.items ≡ entries_of items.now)
        × AreNames (names_of copy.items))) }
    ensures none { IfOk result (λ found. IfNone found (AreNames (names_of items.now) → ⊥)) }
{
    let copy = copy_items(alloc, items)?;
    if are_names(alloc, &copy)? {
        Ok(Some(copy))
    } else {
        Ok(None)
    }
}

// What the list of a folder at a path gives: none where no folder of good names stands there.
fn items_at(alloc: Global, places: &[PathItem], dir: &str) -> Result<Option<Vec<Item>>, AllocError>
    ensures some { IfOk result (λ found. IfSome found (λ items. (entries_at (tree_of places.now) dir.now
        ≡ Some (entries_of items.items)) × AreNames (names_of items.items))) }
    ensures none { IfOk result (λ found. IfNone found (MayList (tree_of places.now) dir.now → ⊥)) }
{
    let i = find_place(places, dir);
    if i == places.len() {
        return Ok(None);
    }
    match &places[i].stands {
        Stands::Folder(items) => good_items(alloc, items.as_slice()),
        Stands::File { .. } => Ok(None),
    }
}

// A source of the file at a path, if one stands there.
fn source_at(
    alloc: Global,
    places: &[PathItem],
    path: &str,
) -> Result<Option<MemorySource>, AllocError>
    ensures given { IfOk result (λ found. IfSome found (λ source. bytes_at (tree_of places.now) path.now
        ≡ Some (source_left source))) }
    ensures path { IfOk result (λ found. IfSome found (λ source. source_path source ≡ path.now)) }
    ensures no_fault { IfOk result (λ found. IfSome found (λ source. source_faults source ≡ 0)) }
    ensures made { IfOk result (λ found. IfSome found (λ source. making_at places.now path.now
        ≡ Some (source_piece source, source_tally source))) }
    ensures nothing_given { IfOk result (λ found. IfSome found (λ source. source_given source ≡ [])) }
    ensures not_ended { IfOk result (λ found. IfSome found (λ source. source_ended source ≡ false)) }
    ensures none { IfOk result (λ found. IfNone found (bytes_at (tree_of places.now) path.now ≡ None)) }
{
    let i = find_place(places, path);
    if i == places.len() {
        return Ok(None);
    }
    match &places[i].stands {
        Stands::File {
            bytes,
            piece,
            failing,
        } => {
            let name = String::from_str(alloc, path)?;
            let bytes = bytes.to_vec(alloc)?;
            let failing = failing.to_vec(alloc)?;
            Ok(Some(MemorySource::new(name, bytes, *piece, failing)))
        }
        Stands::Folder(_) => Ok(None),
    }
}
