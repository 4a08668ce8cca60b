//! What is known of all that is reached from a root.
ghost use Rattle.std.specs.Prelude.{◌≡◌, ◌↔◌, IfOk, Contains};
ghost use Rattle.swh_base.specs.declared.kind.Kind.TheVariants.{Release as ReleaseKind, Snapshot as SnapshotKind};
ghost use Rattle.swh_base.specs.declared.name.Name.{Name as Named};
ghost use Rattle.swh_fastcarried.specs.Rules.{StandsAtBranch};
ghost use Rattle.swh_fastcarried.specs.Known.{Knows};

use crate::tagged::tagged_of;
use std::alloc::Global;
use swh_base::{Kind, Memory, Name};
use swh_closure::Closed;
use swh_model::Look;

/// A root, the names that are reached from it in their order, and the releases that stand at their own branch of the root.
#[derive(Drop)]
pub(crate) struct Reached<'a> {
    pub(crate) root: Name,
    pub(crate) order: &'a [Name],
    pub(crate) tagged: Closed,
}

/// The releases that stand at their own branch of the root, where that is a snapshot.
fn tags_of<L: Look>(alloc: Global, look: &L, root: Name) -> Result<Closed, Memory>
    ensures { IfOk result (λ tagged. root.kind ≡ SnapshotKind → (n : Named) → n.kind ≡ ReleaseKind
        → Contains tagged n ↔ StandsAtBranch (L.archive look.now).bodies root n) }
{
    match root.kind {
        Kind::Snapshot => tagged_of(alloc, look, root),
        Kind::Content | Kind::Directory | Kind::Revision | Kind::Release => Ok(Closed::new(alloc)),
    }
}

/// What is known of names that are reached from a root.
pub(crate) fn survey<'a, L: Look>(
    alloc: Global,
    look: &L,
    order: &'a [Name],
    root: Name,
) -> Result<Reached<'a>, Memory>
    ensures knows { IfOk result (Knows (L.archive look.now).bodies) }
    ensures root { IfOk result (λ r. r.root ≡ root) }
    ensures order { IfOk result (λ r. r.order.now ≡ order.now) }
{
    let tagged = tags_of(alloc, look, root)?;
    Ok(Reached {
        root,
        order,
        tagged,
    })
}
