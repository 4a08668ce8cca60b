//! What stands against a snapshot: it is not held, or a full visit's leads to a name that is not.
ghost use Rattle.std.specs.Prelude.{◌≡◌, IsTrue, None, Some, IfOk, IfSome, IfNone};
ghost use Rattle.swh_base.specs.Snapshot.{snapshot_name};
ghost use Rattle.swh_base.specs.declared.visit.Status.TheVariants.{Full, Partial};
ghost use Rattle.swh_model.specs.Archive.{IsClosed};
ghost use Rattle.swh_model.specs.Judged.{IsSnapshotRefusal, SuitsStatus};
ghost use Rattle.swh_plan.specs.Plan.{status_of, snapshot_of, IsFullRefusal};

use crate::how::How;
use std::alloc::Global;
use swh_base::{Kind, Memory, Name};
use swh_closure::{Cert, Closed, WalkFault, check, walk};
use swh_model::No;
use swh_store::Store;

fn name_of(snapshot: &[u8; 20]) -> Name
    ensures { result ≡ snapshot_name snapshot.now }
{
    Name {
        kind: Kind::Snapshot,
        id: *snapshot,
    }
}

/// Whether a certificate shows that all that is reached from the name is held.
fn is_certified(alloc: Global, store: &Store, name: &Name, cert: &Cert) -> bool
    ensures { IsTrue result → IsClosed store.now.bodies name.now }
{
    store.is_graph();
    if cert.root != *name {
        return false;
    }
    let nothing = Closed::new(alloc);
    match check(store, &nothing, cert) {
        Ok(()) => true,
        Err(_) => false,
    }
}

/// What a walk finds against a full visit's snapshot of this name.
fn walk_refusal(alloc: Global, store: &Store, name: Name) -> Result<Option<No>, Memory>
    ensures some { IfOk result (λ no. IfSome no (IsFullRefusal store.now.bodies name)) }
    ensures none { IfOk result (λ no. IfNone no (IsClosed store.now.bodies name)) }
{
    store.is_graph();
    let nothing = Closed::new(alloc);
    match walk(alloc, store, name, &nothing) {
        Ok(_) => Ok(None),
        Err(
            WalkFault::Missing {
                parent: Some(parent),
                child,
            },
        ) => Ok(Some(No::NotClosed { parent, child })),
        Err(
            WalkFault::Missing {
                parent: None,
                child,
            },
        ) => Ok(Some(No::NoSnapshot { name: child })),
        Err(WalkFault::Memory) => Err(Memory),
    }
}

/// The cause against a full visit's snapshot. A certificate that shows that all is held spares the walk.
fn full_refusal(
    alloc: Global,
    store: &Store,
    snapshot: &[u8; 20],
    cert: &Cert,
) -> Result<Option<No>, Memory>
    ensures some { IfOk result (λ no. IfSome no (IsSnapshotRefusal store.now.bodies Full (Some snapshot.now))) }
    ensures none { IfOk result (λ no. IfNone no (SuitsStatus store.now.bodies Full (Some snapshot.now))) }
{
    let name = name_of(snapshot);
    if is_certified(alloc, store, &name, cert) {
        return Ok(None);
    }
    walk_refusal(alloc, store, name)
}

/// The cause against a partial visit's snapshot.
fn partial_refusal(store: &Store, snapshot: &Option<[u8; 20]>) -> Option<No>
    ensures some { IfSome result (IsSnapshotRefusal store.now.bodies Partial snapshot.now) }
    ensures none { IfNone result (SuitsStatus store.now.bodies Partial snapshot.now) }
{
    let Some(id) = snapshot else {
        return None;
    };
    let name = name_of(id);
    if store.has(&name) {
        return None;
    }
    Some(No::NoSnapshot { name })
}

/// The cause against a mark's snapshot.
pub fn snapshot_refusal(alloc: Global, store: &Store, how: &How) -> Result<Option<No>, Memory>
    ensures some { IfOk result (λ no. IfSome no (IsSnapshotRefusal store.now.bodies (status_of how.now)
        (snapshot_of how.now))) }
    ensures none { IfOk result (λ no. IfNone no (SuitsStatus store.now.bodies (status_of how.now)
        (snapshot_of how.now))) }
{
    match how {
        How::Full { snapshot, cert } => full_refusal(alloc, store, snapshot, cert),
        How::Partial { snapshot } => Ok(partial_refusal(store, snapshot)),
        How::Ongoing | How::NotFound | How::Failed => Ok(None),
    }
}
