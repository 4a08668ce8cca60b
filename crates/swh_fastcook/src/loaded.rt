//! Whether a stream loads more branches than may be loaded.
ghost use Rattle.std.specs.Prelude.{◌≡◌, ◌↔◌, ◌<◌, ℕ, List, Some, IsTrue, IfOk, Contains, length, codes};
ghost use Rattle.std.specs.BTreeMap.{is_at};
ghost use Rattle.std.specs.Cmp.Lexicographic.{slice_cmp};
ghost use Rattle.std.specs.Ordering.{nat_cmp};
ghost use Rattle.swh_base.specs.declared.kind.Kind.TheVariants.{Snapshot as SnapshotKind};
ghost use Rattle.swh_base.specs.declared.name.Name.{Name as Named};
ghost use Rattle.swh_base.specs.Limits.{body_limit};
ghost use Rattle.swh_base.specs.Snapshot.{SnapshotBranch};
ghost use Rattle.swh_graph.specs.Holding.{HoldsSnapshot};
ghost use Rattle.swh_model.specs.Archive.{body_of, IsHeld};
ghost use Rattle.swh_snpfmt.specs.Branches.{branches_in_body};
ghost use Rattle.swh_fastcook.specs.Loaded.{without_head, AreMany, LoadsMany};

use crate::tags::{BRANCHES_LIMIT, make_many};
use std::alloc::Global;
use swh_base::{BODY_LIMIT, Kind, Memory, Name};
use swh_graph::{GraphFault, snapshot_at};
use swh_model::Look;
use swh_snpfmt::SpelledBranch;

/// Whether a branch of this name is the head.
fn is_head(name: &[u8]) -> bool
    ensures { result ≡ is_at (slice_cmp nat_cmp (codes "HEAD")) name.now }
{
    name == b"HEAD".as_slice()
}

/// How many of the branches are not the head.
fn count_others(branches: &[SpelledBranch<'_>]) -> usize
    ensures { result ≡ length (without_head (branches_in_body branches.now)) }
{
    let mut count: usize = 0;
    for branch in branches {
        if !is_head(branch.name) {
            count += 1;
        }
    }
    count
}

/// Whether a body is held under the name that is longer than a body may be.
fn has_long_body<L: Look>(look: &L, name: Name) -> bool
    ensures { IsTrue result ↔ ((body : List ℕ) × (body_of (L.archive look.now).bodies name ≡ Some body)
        × (body_limit < length body)) }
{
    match look.body(&name) {
        Some(body) => body.as_slice().len() as u64 > BODY_LIMIT,
        None => false,
    }
}

/// Whether a snapshot is held whose branches are more than may be loaded.
fn has_many<L: Look>(alloc: Global, look: &L, root: Name) -> Result<bool, Memory>
    requires { root.kind ≡ SnapshotKind }
    ensures { IfOk result (λ many. IsTrue many ↔ ((branches : List SnapshotBranch)
        × HoldsSnapshot (L.archive look.now).bodies root branches × AreMany branches)) }
{
    let branches = match snapshot_at(alloc, look, root) {
        Ok(branches) => branches,
        Err(GraphFault::Memory) => return Err(Memory),
        Err(GraphFault::NotHeld { .. }) => return Ok(false),
        Err(GraphFault::NoPath { .. }) => unreachable!(),
    };
    if count_others(branches.as_slice()) > BRANCHES_LIMIT {
        return Ok(true);
    }
    Ok(has_long_body(look, root))
}

/// Whether the stream of these names, which are held and reached from the root, loads more branches than may be loaded.
pub fn loads_many<L: Look>(
    alloc: Global,
    look: &L,
    order: &[Name],
    root: Name,
) -> Result<bool, Memory>
    requires { (n : Named) → Contains order.now n → IsHeld (L.archive look.now).bodies n }
    ensures { IfOk result (λ many. IsTrue many ↔ LoadsMany (L.archive look.now).bodies order.now root) }
{
    let id: &[u8] = &root.id;
    prove!(id.len() == 20);
    match root.kind {
        Kind::Snapshot => has_many(alloc, look, root),
        Kind::Release => make_many(alloc, look, order),
        Kind::Content | Kind::Directory | Kind::Revision => Ok(false),
    }
}
