//! Names that make a path too long.
ghost use Rattle.std.specs.Prelude.{◌↔◌, ◌⊎◌, ◌+◌, ◌≤◌, ◌<◌, IsTrue, IfSome, IfNone, Contains, length};
ghost use Rattle.swh_base.specs.Limits.{path_limit};
ghost use Rattle.swh_dirfmt.specs.declared.entry.SpelledEntry.{SpelledEntry as Spelled};
ghost use Rattle.swh_dirfmt.specs.Entries.{entries_in_body};
ghost use Rattle.swh_carried.specs.Ways.{HaveLong};

use swh_base::PATH_LIMIT;
use swh_dirfmt::SpelledEntry;

/// Whether a path of so many bytes and this name is longer than a path may be.
fn is_long(way: u64, name: &[u8]) -> bool
    ensures { IsTrue result ↔ (path_limit < way + length name.now) }
{
    if way > PATH_LIMIT as u64 {
        return true;
    }
    name.len() as u64 > PATH_LIMIT as u64 - way
}

/// The first of these entries that makes a path of so many bytes longer than a path may be.
fn first_long<'a>(way: u64, entries: &[SpelledEntry<'a>]) -> Option<SpelledEntry<'a>>
    ensures some { IfSome result (λ e. Contains entries.now e × (path_limit < way + length e.name.now)) }
    ensures none { IfNone result ((e : Spelled) → Contains entries.now e → path_limit < way + length e.name.now → ⊥) }
{
    for entry in entries {
        if is_long(way, entry.name) {
            return Some(*entry);
        }
    }
    None
}

/// Whether one of these entries makes a path of so many bytes longer than a path may be.
pub fn have_long(way: u64, entries: &[SpelledEntry<'_>]) -> bool
    ensures { IsTrue result ↔ HaveLong way (entries_in_body entries.now) }
{
    match first_long(way, entries) {
        Some(_) => true,
        None => false,
    }
}

/// The bytes of a path that goes on over a folder of this name, a slash behind it. Above the limit of a path no more is
/// counted.
pub fn way_over(way: u64, name: &[u8]) -> u64
    ensures least { result ≤ way + (length name.now + 1) }
    ensures most { (way + (length name.now + 1) ≤ result) ⊎ (path_limit < result) }
{
    if is_long(way, name) {
        return PATH_LIMIT as u64 + 1;
    }
    way + name.len() as u64 + 1
}
