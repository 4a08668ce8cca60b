//! Which snapshots may stand beside a status.
ghost use Rattle.std.specs.Prelude.{◌≡◌, ◌↔◌, IsTrue, IfOk, IfSome, IfNone};
ghost use Rattle.swh_model.specs.Archive.{IsHeld, IsClosed};
ghost use Rattle.swh_model.specs.Step.{FitsStatus};
ghost use Rattle.swh_model.specs.Judge.{StatusAllows};
ghost use Rattle.swh_model.specs.Judged.{IsGapRefusal, IsSnapshotRefusal, SuitsStatus};

use crate::event::No;
use crate::state::State;
use crate::walking::find_gap;
use std::alloc::Global;
use swh_base::{Kind, Memory, Name, Status};

/// Says whether a visit may be marked with the status and the snapshot, whatever is held.
pub fn status_allows(status: Status, snapshot: &Option<[u8; 20]>) -> bool
    ensures { IsTrue result ↔ StatusAllows status snapshot.now }
{
    match status {
        Status::Created => false,
        Status::Full => snapshot.is_some(),
        Status::Partial => true,
        Status::Ongoing | Status::NotFound | Status::Failed => snapshot.is_none(),
    }
}

fn gap_refusal(alloc: Global, state: &State, name: &Name) -> Result<Option<No>, Memory>
    requires { IsHeld state.now.bodies name.now }
    ensures some { IfOk result (λ no. IfSome no (IsGapRefusal state.now.bodies name.now)) }
    ensures none { IfOk result (λ no. IfNone no (IsClosed state.now.bodies name.now)) }
{
    match find_gap(alloc, state, name)? {
        Some((parent, child)) => Ok(Some(No::NotClosed { parent, child })),
        None => Ok(None),
    }
}

/// The cause against a snapshot with this status: it is not held, or it is not closed where the status is full.
pub fn snapshot_refusal(
    alloc: Global,
    state: &State,
    status: Status,
    snapshot: &Option<[u8; 20]>,
) -> Result<Option<No>, Memory>
    ensures some { IfOk result (λ no. IfSome no (IsSnapshotRefusal state.now.bodies status snapshot.now)) }
    ensures none { IfOk result (λ no. IfNone no (SuitsStatus state.now.bodies status snapshot.now)) }
{
    let Some(id) = snapshot else {
        return Ok(None);
    };
    let name = Name {
        kind: Kind::Snapshot,
        id: *id,
    };
    if !state.has(&name) {
        return Ok(Some(No::NoSnapshot { name }));
    }
    match status {
        Status::Full => gap_refusal(alloc, state, &name),
        _ => Ok(None),
    }
}

/// Says whether what the status needs is held.
pub fn fits_status(
    alloc: Global,
    state: &State,
    status: Status,
    snapshot: &Option<[u8; 20]>,
) -> Result<bool, Memory>
    ensures { IfOk result (λ fits. IsTrue fits ↔ FitsStatus state.now.bodies status snapshot.now) }
{
    if !status_allows(status, snapshot) {
        return Ok(false);
    }
    match snapshot_refusal(alloc, state, status, snapshot)? {
        Some(_) => Ok(false),
        None => Ok(true),
    }
}
