//! The head of a snapshot.
ghost use Rattle.std.specs.Prelude.{◌≡◌, ◌≢◌, ℕ, List, IfOk, IfSome, IfNone, Contains, codes};
ghost use Rattle.swh_base.specs.declared.kind.Kind.TheVariants.{Snapshot as SnapshotKind};
ghost use Rattle.swh_base.specs.Snapshot.{ToBranch};
ghost use Rattle.swh_snpfmt.specs.declared.branch.SpelledBranch.{SpelledBranch as Spelled};
ghost use Rattle.swh_snpfmt.specs.Branches.{branch_of};
ghost use Rattle.swh_fastcook.specs.Cook.{IsHeadOf};

use std::alloc::Global;
use swh_base::{Bytes, Kind, Memory, Name};
use swh_graph::{GraphFault, snapshot_at};
use swh_model::Look;
use swh_snpfmt::{SpelledBranch, SpelledTarget};

/// Where a branch leads, if it is the alias `HEAD`.
fn head_target<'a>(branch: &SpelledBranch<'a>) -> Option<&'a [u8]>
    ensures some { IfSome result (λ target. ((branch_of branch.now).name ≡ codes "HEAD")
        × ((branch_of branch.now).target ≡ ToBranch target.now)) }
    ensures none { IfNone result ((target : List ℕ) → (branch_of branch.now).name ≡ codes "HEAD"
        → (branch_of branch.now).target ≢ ToBranch target) }
{
    if branch.name != b"HEAD".as_slice() {
        return None;
    }
    match branch.target {
        SpelledTarget::Alias(target) => Some(target),
        SpelledTarget::Object(_, _) | SpelledTarget::Dangling => None,
    }
}

/// Where the first of the branches leads that is the alias `HEAD`.
fn find_head<'a>(branches: &[SpelledBranch<'a>]) -> Option<&'a [u8]>
    ensures some { IfSome result (λ target. (b : Spelled) × Contains branches.now b
        × ((branch_of b).name ≡ codes "HEAD") × ((branch_of b).target ≡ ToBranch target.now)) }
    ensures none { IfNone result ((b : Spelled) → Contains branches.now b → (target : List ℕ)
        → (branch_of b).name ≡ codes "HEAD" → (branch_of b).target ≢ ToBranch target) }
{
    for branch in branches {
        if let Some(target) = head_target(branch) {
            return Some(target);
        }
    }
    None
}

/// Where the alias `HEAD` of a snapshot leads, if it is held and has one.
fn snapshot_head<L: Look>(alloc: Global, look: &L, root: Name) -> Result<Option<Bytes>, Memory>
    requires { root.kind ≡ SnapshotKind }
    ensures { IfOk result (IsHeadOf (L.archive look.now).bodies root) }
{
    let branches = match snapshot_at(alloc, look, root) {
        Ok(branches) => branches,
        Err(GraphFault::Memory) => return Err(Memory),
        Err(GraphFault::NotHeld { .. }) => return Ok(None),
        Err(GraphFault::NoPath { .. }) => unreachable!(),
    };
    match find_head(branches.as_slice()) {
        Some(target) => Ok(Some(Bytes::from_slice(alloc, target)?)),
        None => Ok(None),
    }
}

/// Where the alias `HEAD` leads, if the root is a snapshot that has one.
pub fn head_of<L: Look>(alloc: Global, look: &L, root: Name) -> Result<Option<Bytes>, Memory>
    ensures { IfOk result (IsHeadOf (L.archive look.now).bodies root) }
{
    match root.kind {
        Kind::Snapshot => snapshot_head(alloc, look, root),
        Kind::Content | Kind::Directory | Kind::Revision | Kind::Release => Ok(None),
    }
}
