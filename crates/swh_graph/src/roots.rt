//! The directory at which a path from an artifact begins.
ghost use Rattle.std.specs.Prelude.{◌≡◌, IfOk, IfErr, MatchOption};
ghost use Rattle.swh_base.specs.declared.kind.Kind.TheVariants.{Revision, Release, Snapshot};
ghost use Rattle.swh_base.specs.declared.name.Name.{Name};
ghost use Rattle.swh_graph.specs.Holding.{IsNotHeld};
ghost use Rattle.swh_graph.specs.Root.{HasTree, HasObject, HasHead, HasRootOf, IsRoot, HasNoRoot};
ghost use Rattle.swh_graph.specs.Rounds.{LeadsNext, RootFails, NextFails};

use crate::fault::GraphFault;
use crate::head::head_of;
use crate::reading::{release_at, revision_at, snapshot_at};
use std::alloc::Global;
use swh_base::{Kind, Name};
use swh_closure::Closed;
use swh_model::Look;

/// The directory of a revision.
fn tree_of<L: Look>(alloc: Global, look: &L, name: Name) -> Result<Name, GraphFault>
    requires { name.kind ≡ Revision }
    ensures ok { IfOk result (HasTree (L.archive look.now).bodies name) }
    ensures err { IfErr result (IsNotHeld (L.archive look.now).bodies name) }
{
    let rev = revision_at(alloc, look, name)?;
    let kind = Kind::Directory;
    Ok(Name {
        kind,
        id: rev.directory,
    })
}

/// The object of a release.
fn object_of<L: Look>(look: &L, name: Name) -> Result<Name, GraphFault>
    requires { name.kind ≡ Release }
    ensures ok { IfOk result (HasObject (L.archive look.now).bodies name) }
    ensures err { IfErr result (IsNotHeld (L.archive look.now).bodies name) }
{
    let rel = release_at(look, name)?;
    Ok(rel.object)
}

/// The object to which the branch HEAD of a snapshot leads.
fn target_of_head<L: Look>(alloc: Global, look: &L, name: Name) -> Result<Option<Name>, GraphFault>
    requires { name.kind ≡ Snapshot }
    ensures ok { IfOk result (LeadsNext (HasHead (L.archive look.now).bodies name)
        (L.archive look.now).bodies name) }
    ensures err { IfErr result (IsNotHeld (L.archive look.now).bodies name) }
{
    let branches = snapshot_at(alloc, look, name)?;
    let head = head_of(alloc, branches.as_slice())?;
    Ok(head)
}

/// Where a name leads on its way to a root; none where it leads nowhere.
fn next_of<L: Look>(alloc: Global, look: &L, name: Name) -> Result<Option<Name>, GraphFault>
    ensures ok { IfOk result (LeadsNext (HasRootOf (L.archive look.now).bodies name)
        (L.archive look.now).bodies name) }
    ensures err { IfErr result (NextFails (L.archive look.now).bodies name) }
{
    match name.kind {
        Kind::Content => Ok(None),
        Kind::Directory => Ok(None),
        Kind::Revision => {
            let tree = tree_of(alloc, look, name)?;
            Ok(Some(tree))
        }
        Kind::Release => {
            let object = object_of(look, name)?;
            Ok(Some(object))
        }
        Kind::Snapshot => target_of_head(alloc, look, name),
    }
}

/// The root of an artifact: a directory is its own, a revision has its tree as root, a release the root of its object, and
/// a snapshot that of what its branch HEAD leads to. There is none where it leads to anything else, or in a circle. Fails
/// with the first name on the way that is not held, or where memory runs out.
pub fn root_of<L: Look>(alloc: Global, look: &L, anchor: Name) -> Result<Option<Name>, GraphFault>
    ensures ok { IfOk result (λ root. MatchOption root (HasNoRoot (L.archive look.now).bodies anchor)
        (IsRoot (L.archive look.now).bodies anchor)) }
    ensures err { IfErr result (RootFails (L.archive look.now).bodies anchor) }
{
    let mut seen = Closed::new(alloc);
    let mut place = anchor;
    for _round in 0..usize::MAX {
        if place.kind == Kind::Directory {
            return Ok(Some(place));
        }
        if seen.contains(&place) {
            return Ok(None);
        }
        let found = next_of(alloc, look, place)?;
        let Some(next) = found else {
            return Ok(None);
        };
        seen.add(place)?;
        place = next;
    }
    let _count = seen.len();
    unreachable!()
}
