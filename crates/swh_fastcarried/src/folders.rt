//! Whether a directory is an entry of others.
ghost use Rattle.std.specs.Prelude.{◌≡◌, ◌↔◌, IsTrue, IfOk, IfSome, IfNone};
ghost use Rattle.swh_base.specs.declared.kind.Kind.TheVariants.{Directory as DirectoryKind};
ghost use Rattle.swh_base.specs.declared.name.Name.{Name as Named};
ghost use Rattle.swh_dirfmt.specs.Entries.{entry_of, entries_in_body};
ghost use Rattle.swh_fastcarried.specs.First.{IsFolderOf, IsOneOf, IsFolderAt};

use std::alloc::Global;
use swh_base::{Kind, Memory, Name};
use swh_dirfmt::SpelledEntry;
use swh_graph::{GraphFault, directory_at};
use swh_model::Look;

/// The directory of an entry, where that is a folder.
fn folder_of(entry: &SpelledEntry<'_>) -> Option<Name>
    ensures some { IfSome result (λ name. IsFolderOf (entry_of entry.now) name) }
    ensures none { IfNone result ((n : Named) → IsFolderOf (entry_of entry.now) n → ⊥) }
{
    if entry.mode != 40_000 {
        return None;
    }
    let kind = Kind::Directory;
    Some(Name {
        kind,
        id: *entry.id,
    })
}

/// Whether an entry is a folder, and the directory is its.
fn leads_to(entry: &SpelledEntry<'_>, name: Name) -> bool
    ensures { IsTrue result ↔ IsFolderOf (entry_of entry.now) name }
{
    match folder_of(entry) {
        Some(folder) => folder == name,
        None => false,
    }
}

/// Whether the directory is one of these entries.
fn lead_to(entries: &[SpelledEntry<'_>], name: Name) -> bool
    ensures { IsTrue result ↔ IsOneOf IsFolderOf (entries_in_body entries.now) name }
{
    for entry in entries {
        if leads_to(entry, name) {
            return true;
        }
    }
    false
}

/// Whether the directory is an entry of another.
fn is_in_directory<L: Look>(
    alloc: Global,
    look: &L,
    parent: Name,
    name: Name,
) -> Result<bool, Memory>
    requires { parent.kind ≡ DirectoryKind }
    ensures { IfOk result (λ is. IsTrue is ↔ IsFolderAt (L.archive look.now).bodies parent name) }
{
    let entries = match directory_at(alloc, look, parent) {
        Ok(entries) => entries,
        Err(GraphFault::Memory) => return Err(Memory),
        Err(GraphFault::NotHeld { .. }) => return Ok(false),
        Err(GraphFault::NoPath { .. }) => unreachable!(),
    };
    Ok(lead_to(entries.as_slice(), name))
}

fn is_directory(kind: Kind) -> bool
    ensures { IsTrue result ↔ (kind ≡ DirectoryKind) }
{
    match kind {
        Kind::Directory => true,
        Kind::Content | Kind::Revision | Kind::Release | Kind::Snapshot => false,
    }
}

/// Whether the directory is an entry of what is held under the name of the parent.
fn is_in<L: Look>(alloc: Global, look: &L, parent: Name, name: Name) -> Result<bool, Memory>
    ensures { IfOk result (λ is. IsTrue is ↔ IsFolderAt (L.archive look.now).bodies parent name) }
{
    if is_directory(parent.kind) {
        return is_in_directory(alloc, look, parent, name);
    }
    Ok(false)
}

/// Whether the directory is an entry of one of these names. It reads what is held under them, in their order, up to the
/// first of which it is.
pub fn is_folder<L: Look>(
    alloc: Global,
    look: &L,
    order: &[Name],
    name: Name,
) -> Result<bool, Memory>
    ensures { IfOk result (λ is. IsTrue is ↔ IsOneOf (IsFolderAt (L.archive look.now).bodies) order.now name) }
{
    for parent in order {
        if is_in(alloc, look, *parent, name)? {
            return Ok(true);
        }
    }
    Ok(false)
}
