//! The entry at a path.
ghost use Rattle.std.specs.Prelude.{◌≡◌, IfOk, IfErr};
ghost use Rattle.swh_dirfmt.specs.Entries.{entry_of, entry_view};
ghost use Rattle.swh_graph.specs.Answer.{Found, Refuses};
ghost use Rattle.swh_graph.specs.Path.{directory_name, target_of, HasEntry, IsPathAnswer};
ghost use Rattle.swh_graph.specs.Way.{StepFails, Arrives};

use crate::fault::GraphFault;
use crate::named::find_entry;
use crate::reading::directory_body;
use std::alloc::Global;
use swh_base::{Bytes, Kind, Memory, Name, split_at_byte};
use swh_dirfmt::{DirEntry, SpelledEntry};
use swh_model::Look;

/// The entry to which components lead, and the number of the last of them, from 0.
#[derive(Clone, Copy)]
pub struct Arrival<'a> {
    pub entry: SpelledEntry<'a>,
    pub number: u64,
}

/// The object that an entry leads to.
pub fn target_of(entry: &SpelledEntry<'_>) -> Name
    ensures { result ≡ target_of (entry_of entry.now) }
{
    let kind = match entry.mode {
        40_000 => Kind::Directory,
        160_000 => Kind::Revision,
        _ => Kind::Content,
    };
    Name {
        kind,
        id: *entry.id,
    }
}

/// The entry to which the component of this number leads from a place.
fn entry_in<'a, L: Look>(
    look: &'a L,
    place: Name,
    component: &[u8],
    number: u64,
) -> Result<SpelledEntry<'a>, GraphFault>
    ensures ok { IfOk result (λ entry. HasEntry (L.archive look.now).bodies place component.now (entry_of entry)) }
    ensures err { IfErr result (StepFails (L.archive look.now).bodies place component.now number) }
{
    if place.kind != Kind::Directory {
        return Err(GraphFault::NoPath { component: number });
    }
    let body = directory_body(look, place)?;
    match find_entry(body, component) {
        Some(entry) => Ok(entry),
        None => Err(GraphFault::NoPath { component: number }),
    }
}

/// The entry to which a path leads from a place, and the number of its last component. Each directory on the path is read
/// once, up to the entry; no list of its entries is made.
pub fn follow<'a, L: Look>(look: &'a L, root: Name, path: &[u8]) -> Result<Arrival<'a>, GraphFault>
    ensures ok { IfOk result (λ arrival.
        Arrives (L.archive look.now).bodies root path.now (entry_of arrival.entry) arrival.number) }
    ensures err { IfErr result (Refuses (IsPathAnswer (L.archive look.now).bodies root path.now)) }
{
    let _length = path.len();
    let mut place = root;
    let mut number: u64 = 0;
    let mut rest = path;
    'components: while let Some((component, behind)) = split_at_byte(rest, b'/') {
        let entry = entry_in(look, place, component, number)?;
        place = target_of(&entry);
        number += 1;
        rest = behind;
    }
    let entry = entry_in(look, place, rest, number)?;
    Ok(Arrival { entry, number })
}

/// A copy of an entry that stands in a body.
fn owned(alloc: Global, entry: &SpelledEntry<'_>) -> Result<DirEntry, Memory>
    ensures { IfOk result (λ owned. entry_view owned ≡ entry_of entry.now) }
{
    let name = Bytes::from_slice(alloc, entry.name)?;
    Ok(DirEntry {
        mode: entry.mode,
        name,
        id: *entry.id,
    })
}

/// The entry to which a path leads from a directory: its components stand between slashes. Fails with the first directory
/// on the path, not its end, that is not held, with the number, from 0, of the first component that leads nowhere, or
/// where memory runs out.
pub fn at_path<L: Look>(
    alloc: Global,
    look: &L,
    dir: [u8; 20],
    path: &[u8],
) -> Result<DirEntry, GraphFault>
    ensures ok { IfOk result (λ entry.
        IsPathAnswer (L.archive look.now).bodies (directory_name dir) path.now (Found (entry_view entry))) }
    ensures err { IfErr result (Refuses (IsPathAnswer (L.archive look.now).bodies (directory_name dir) path.now)) }
{
    let kind = Kind::Directory;
    let arrival = follow(look, Name { kind, id: dir }, path)?;
    let entry = owned(alloc, &arrival.entry)?;
    Ok(entry)
}
