//! Releases that stand at their own branch of a snapshot.
ghost use Rattle.std.specs.Prelude.{◌≡◌, ◌↔◌, ◌⊎◌, IsTrue, OnOk, IfOk, IfSome, IfNone, Contains};
ghost use Rattle.swh_base.specs.declared.kind.Kind.TheVariants.{Release as ReleaseKind, Snapshot as SnapshotKind};
ghost use Rattle.swh_base.specs.declared.name.Name.{Name as Named};
ghost use Rattle.swh_snpfmt.specs.Branches.{branch_of, branches_in_body};
ghost use Rattle.swh_fastcarried.specs.First.{IsOneOf, IsOwnTag};
ghost use Rattle.swh_fastcarried.specs.Rules.{IsAtOwnBranch, StandsAtBranch};

use crate::branches::is_at_own_branch;
use std::alloc::Global;
use swh_base::{Kind, Memory, Name};
use swh_closure::Closed;
use swh_graph::{GraphFault, snapshot_at};
use swh_model::Look;
use swh_snpfmt::{SpelledBranch, SpelledTarget};

/// Whether the name is that of a release whose own branch this is.
fn is_own<L: Look>(look: &L, branch: &[u8], name: Name) -> bool
    ensures { IsTrue result ↔ ((name.kind ≡ ReleaseKind) × IsAtOwnBranch (L.archive look.now).bodies branch.now name) }
{
    match name.kind {
        Kind::Release => is_at_own_branch(look, branch, name),
        Kind::Content | Kind::Directory | Kind::Revision | Kind::Snapshot => false,
    }
}

/// The object, where it is a release whose own branch this is.
fn own_object<L: Look>(look: &L, branch: &[u8], name: Name) -> Option<Name>
    ensures some { IfSome result (λ it. (it ≡ name) × (name.kind ≡ ReleaseKind)
        × IsAtOwnBranch (L.archive look.now).bodies branch.now name) }
    ensures none { IfNone result (name.kind ≡ ReleaseKind → IsAtOwnBranch (L.archive look.now).bodies branch.now name → ⊥) }
{
    if is_own(look, branch, name) {
        return Some(name);
    }
    None
}

/// The release that a branch leads to, where the branch is its own.
fn own_release<L: Look>(look: &L, branch: &SpelledBranch<'_>) -> Option<Name>
    ensures some { IfSome result (λ name. IsOwnTag (L.archive look.now).bodies (branch_of branch.now) name) }
    ensures none { IfNone result ((n : Named) → IsOwnTag (L.archive look.now).bodies (branch_of branch.now) n → ⊥) }
{
    match branch.target {
        SpelledTarget::Object(kind, id) => own_object(look, branch.name, Name { kind, id: *id }),
        SpelledTarget::Alias(_) | SpelledTarget::Dangling => None,
    }
}

/// Adds the release that a branch leads to, where the branch is its own.
fn add_own<L: Look>(look: &L, tagged: &mut Closed, branch: &SpelledBranch<'_>) -> Result<(), Memory>
    ensures { OnOk result ((n : Named) → Contains tagged.new n
        ↔ (Contains tagged.old n ⊎ IsOwnTag (L.archive look.now).bodies (branch_of branch.now) n)) }
{
    match own_release(look, branch) {
        Some(name) => tagged.add(name),
        None => Ok(()),
    }
}

/// The releases that stand at their own branch of these.
fn tagged_by<L: Look>(
    alloc: Global,
    look: &L,
    branches: &[SpelledBranch<'_>],
) -> Result<Closed, Memory>
    ensures { IfOk result (λ tagged. (n : Named) → Contains tagged n
        ↔ IsOneOf (IsOwnTag (L.archive look.now).bodies) (branches_in_body branches.now) n) }
{
    let mut tagged = Closed::new(alloc);
    for branch in branches {
        add_own(look, &mut tagged, branch)?;
    }
    Ok(tagged)
}

/// The releases that stand at their own branch of a snapshot.
pub fn tagged_of<L: Look>(alloc: Global, look: &L, root: Name) -> Result<Closed, Memory>
    requires { root.kind ≡ SnapshotKind }
    ensures { IfOk result (λ tagged. (n : Named) → n.kind ≡ ReleaseKind
        → Contains tagged n ↔ StandsAtBranch (L.archive look.now).bodies root n) }
{
    let branches = match snapshot_at(alloc, look, root) {
        Ok(branches) => branches,
        Err(GraphFault::Memory) => return Err(Memory),
        Err(GraphFault::NotHeld { .. }) => return Ok(Closed::new(alloc)),
        Err(GraphFault::NoPath { .. }) => unreachable!(),
    };
    tagged_by(alloc, look, branches.as_slice())
}
