//! Bodies read into entries.

ghost use Rattle.std.specs.Prelude.{◌≡◌, ◌≢◌, List, [], ◌++◌, IfOk, IfErr};
ghost use Rattle.swh_base.specs.Directory.{DirectoryEntry, AreEntries, MayFollowEntries, entry_text, IsDirectory};
ghost use Rattle.swh_dirfmt.specs.Entries.{entry_views, entry_of, entries_in_body};
ghost use Rattle.swh_dirfmt.specs.Fault.{EntryBreaks};
ghost use Rattle.swh_dirfmt.specs.Reading.{ExplainsDir, GivesEntries};

use crate::entries::Entries;
use crate::entry::{DirEntry, SpelledEntry};
use crate::fault::{BadDir, DirWhy, ReadDirFault};
use crate::front::front_entry;
use crate::order::{is_after, is_fresh};
use std::alloc::Global;
use swh_base::{Bytes, Memory};

/// The entry at the front of these bytes, which may follow the entries before it, and the bytes after it.
fn next_entry<'a>(
    before: &[SpelledEntry<'_>],
    bytes: &'a [u8],
) -> Result<(SpelledEntry<'a>, &'a [u8]), DirWhy>
    requires some { bytes.now ≢ [] }
    requires good { AreEntries (entries_in_body before.now) }
    ensures ok { IfOk result (λ x. MayFollowEntries (entries_in_body before.now) (entry_of x.0)
        × (bytes.now ≡ entry_text (entry_of x.0) ++ x.1.now)) }
    ensures err { IfErr result (λ why. EntryBreaks (entries_in_body before.now) bytes.now why) }
{
    let (next, rest) = front_entry(bytes)?;
    if !is_fresh(before, next.name) {
        return Err(DirWhy::Twice);
    }
    if !is_after(before, &next) {
        return Err(DirWhy::Order);
    }
    Ok((next, rest))
}

/// The entries as they stand in a directory's body, in time n log n of their number. No byte of it is copied. Fails
/// with the first entry that breaks, or where memory runs out.
pub fn spelled_dir(alloc: Global, body: &[u8]) -> Result<Vec<SpelledEntry<'_>>, ReadDirFault>
    ensures ok { IfOk result (λ list. IsDirectory body.now (entries_in_body list.items)) }
    ensures err { IfErr result (ExplainsDir body.now) }
{
    let mut list = Vec::new(alloc);
    let mut rest = body;
    while !rest.is_empty() {
        let at = (body.len() - rest.len()) as u64;
        let (next, after) = match next_entry(&list, rest) {
            Ok(next) => next,
            Err(why) => return Err(ReadDirFault::Bad(BadDir { at, why })),
        };
        list.push(next)?;
        rest = after;
    }
    Ok(list)
}

fn owned(alloc: Global, spelled: &[SpelledEntry<'_>]) -> Result<Vec<DirEntry>, Memory>
    ensures { IfOk result (λ list. entry_views list.items ≡ entries_in_body spelled.now) }
{
    let mut list = Vec::new(alloc);
    for entry in spelled {
        list.push(DirEntry {
            mode: entry.mode,
            name: Bytes::from_slice(alloc, entry.name)?,
            id: *entry.id,
        })?;
    }
    Ok(list)
}

fn read(alloc: Global, body: &[u8]) -> Result<Entries, ReadDirFault>
    ensures ok { IfOk result (λ entries. IsDirectory body.now entries) }
    ensures err { IfErr result (ExplainsDir body.now) }
{
    let spelled = spelled_dir(alloc, body)?;
    let list = owned(alloc, &spelled)?;
    Ok(Entries::of(list))
}

/// The entries of a directory's body (git objects, tree), in time n log n of their number. Fails with the first entry
/// that breaks, or where memory runs out.
pub fn read_dir(alloc: Global, body: &[u8]) -> Result<Entries, ReadDirFault>
    // What is read is the body's entries.
    ensures ok { IfOk result (λ entries. IsDirectory body.now entries) }
    // What is a directory is read, unless memory runs out.
    ensures only { (entries : List DirectoryEntry) → IsDirectory body.now entries → GivesEntries result entries }
    // What is refused has this fault first.
    ensures err { IfErr result (ExplainsDir body.now) }
{
    read(alloc, body)
}
