//! The children of a body, by its kind's reader, which copies nothing of the body.

ghost use Rattle.std.specs.Prelude.{◌≡◌, ◌++◌, IfOk, IfErr, OnOk, option_to_list};
ghost use Rattle.std.specs.List.{filter_map};
ghost use Rattle.swh_base.specs.Directory.{AreDirectoryChildren};
ghost use Rattle.swh_base.specs.Revision.{revision_children, AreRevisionChildren};
ghost use Rattle.swh_base.specs.Release.{AreReleaseChildren};
ghost use Rattle.swh_base.specs.Snapshot.{AreSnapshotChildren};
ghost use Rattle.swh_base.specs.Manifest.{AreChildren};
ghost use Rattle.swh_revfmt.specs.Reading.{revision_spelled};
ghost use Rattle.swh_object.specs.Object.{ExplainsBad, directory_child, snapshot_child};
ghost use Rattle.swh_base.specs.declared.kind.Kind.TheVariants.{Directory, Revision, Release, Snapshot};

use crate::fault::ObjectFault;
use std::alloc::Global;
use swh_base::{Kind, Memory, Name};
use swh_dirfmt::{ReadDirFault, SpelledEntry, spelled_dir};
use swh_revfmt::{ReadRevFault, SpelledRev, spelled_rel, spelled_rev};
use swh_snpfmt::{ReadSnpFault, SpelledBranch, SpelledTarget, spelled_snp};

/// The child of an entry of a directory: none for a revision of another project.
fn child_of_entry(entry: &SpelledEntry<'_>) -> Option<Name>
    ensures { result ≡ directory_child entry.now }
{
    let id = *entry.id;
    match entry.mode {
        160_000 => None,
        40_000 => Some(Name {
            kind: Kind::Directory,
            id,
        }),
        _ => Some(Name {
            kind: Kind::Content,
            id,
        }),
    }
}

fn push_child(kids: &mut Vec<Name>, child: Option<Name>) -> Result<(), Memory>
    ensures { OnOk result (kids.new.items ≡ kids.old.items ++ option_to_list child) }
{
    match child {
        Some(child) => Ok(kids.push(child)?),
        None => Ok(()),
    }
}

fn children_of_entries(alloc: Global, entries: &[SpelledEntry<'_>]) -> Result<Vec<Name>, Memory>
    ensures { IfOk result (λ kids. kids.items ≡ filter_map directory_child entries.now) }
{
    let mut kids = Vec::with_capacity(alloc, entries.len())?;
    for entry in entries {
        push_child(&mut kids, child_of_entry(entry))?;
    }
    Ok(kids)
}

fn directory_children(alloc: Global, body: &[u8]) -> Result<Vec<Name>, ObjectFault>
    ensures ok { IfOk result (λ kids. AreDirectoryChildren body.now kids.items) }
    ensures err { IfErr result (ExplainsBad Directory body.now) }
{
    match spelled_dir(alloc, body) {
        Ok(entries) => Ok(children_of_entries(alloc, &entries)?),
        Err(ReadDirFault::Memory) => Err(ObjectFault::Memory),
        Err(ReadDirFault::Bad(bad)) => Err(ObjectFault::BadBody { at: bad.at }),
    }
}

/// The directory, then the parents.
fn children_of_rev(alloc: Global, rev: &SpelledRev<'_>) -> Result<Vec<Name>, Memory>
    ensures { IfOk result (λ kids. kids.items ≡ revision_children (revision_spelled rev.now)) }
{
    let mut kids = Vec::new(alloc);
    let id = rev.directory;
    kids.push(Name {
        kind: Kind::Directory,
        id,
    })?;
    for parent in rev.parents.as_slice() {
        let id = *parent;
        kids.push(Name {
            kind: Kind::Revision,
            id,
        })?;
    }
    Ok(kids)
}

fn revision_children(alloc: Global, body: &[u8]) -> Result<Vec<Name>, ObjectFault>
    ensures ok { IfOk result (λ kids. AreRevisionChildren body.now kids.items) }
    ensures err { IfErr result (ExplainsBad Revision body.now) }
{
    match spelled_rev(alloc, body) {
        Ok(rev) => Ok(children_of_rev(alloc, &rev)?),
        Err(ReadRevFault::Memory) => Err(ObjectFault::Memory),
        Err(ReadRevFault::Bad(bad)) => Err(ObjectFault::BadBody { at: bad.at }),
    }
}

fn release_children(alloc: Global, body: &[u8]) -> Result<Vec<Name>, ObjectFault>
    ensures ok { IfOk result (λ kids. AreReleaseChildren body.now kids.items) }
    ensures err { IfErr result (ExplainsBad Release body.now) }
{
    let rel = match spelled_rel(body) {
        Ok(rel) => rel,
        Err(bad) => return Err(ObjectFault::BadBody { at: bad.at }),
    };
    let mut kids = Vec::new(alloc);
    kids.push(rel.object)?;
    Ok(kids)
}

/// The child of a branch: none for an alias and for nothing.
fn child_of_branch(branch: &SpelledBranch<'_>) -> Option<Name>
    ensures { result ≡ snapshot_child branch.now }
{
    match branch.target {
        SpelledTarget::Object(kind, id) => Some(Name { kind, id: *id }),
        SpelledTarget::Alias(_) | SpelledTarget::Dangling => None,
    }
}

fn children_of_branches(alloc: Global, branches: &[SpelledBranch<'_>]) -> Result<Vec<Name>, Memory>
    ensures { IfOk result (λ kids. kids.items ≡ filter_map snapshot_child branches.now) }
{
    let mut kids = Vec::with_capacity(alloc, branches.len())?;
    for branch in branches {
        push_child(&mut kids, child_of_branch(branch))?;
    }
    Ok(kids)
}

fn snapshot_children(alloc: Global, body: &[u8]) -> Result<Vec<Name>, ObjectFault>
    ensures ok { IfOk result (λ kids. AreSnapshotChildren body.now kids.items) }
    ensures err { IfErr result (ExplainsBad Snapshot body.now) }
{
    match spelled_snp(alloc, body) {
        Ok(branches) => Ok(children_of_branches(alloc, &branches)?),
        Err(ReadSnpFault::Memory) => Err(ObjectFault::Memory),
        Err(ReadSnpFault::Bad(bad)) => Err(ObjectFault::BadBody { at: bad.at }),
    }
}

/// The children of a body of this kind, in its order. Fails with the place that the reader of the kind names, or where
/// memory runs out.
pub fn children_of(alloc: Global, kind: Kind, body: &[u8]) -> Result<Vec<Name>, ObjectFault>
    ensures ok { IfOk result (λ kids. AreChildren kind body.now kids.items) }
    ensures err { IfErr result (ExplainsBad kind body.now) }
{
    match kind {
        Kind::Content => Ok(Vec::new(alloc)),
        Kind::Directory => directory_children(alloc, body),
        Kind::Revision => revision_children(alloc, body),
        Kind::Release => release_children(alloc, body),
        Kind::Snapshot => snapshot_children(alloc, body),
    }
}
