//! One event of a replay: whether it may happen, and where it may, what is in memory after it.
ghost use Rattle.std.specs.Prelude.{◌≡◌, ◌↔◌, false, IsTrue, Contains, IfOk, OnOk, length, take, drop};
ghost use Rattle.swh_base.specs.declared.name.Name.{Name};
ghost use Rattle.swh_base.specs.Snapshot.{snapshot_name};
ghost use Rattle.swh_model.specs.Archive.{visits_of, IsHeld, Reaches, IsClosed};
ghost use Rattle.swh_model.specs.Limits.{IsWithinLimits};
ghost use Rattle.swh_model.specs.Judged.{MayBeMarked};
ghost use Rattle.swh_model.specs.Step.{AreNew, FitsStatus, added, marked};
ghost use Rattle.swh_model.specs.Entries.{entries_of};
ghost use Rattle.swh_model.specs.Happens.{CanHappen};
ghost use Rattle.swh_replay.specs.Happened.{archive_in, Happened, AreWhole};

use std::alloc::Global;
use swh_base::{Entry, Kind, Memory, Name, Status, Url};
use swh_closure::{Closed, close};
use swh_model::{Event, EventKind, are_within_limits};
use swh_store::Preloaded;
use swh_visits::{VisitFault, Visits};

/// Shows a batch, whose entries are the next to come, where it may be added.
fn show_batch(preloaded: &mut Preloaded, entries: &[Entry]) -> bool
    requires { take (length entries.now) preloaded.old.rest ≡ entries.now }
    ensures may { IsTrue result ↔ IsWithinLimits entries.now × AreNew preloaded.old.shown.bodies entries.now }
    ensures bodies { IsTrue result → preloaded.new.shown.bodies ≡ added preloaded.old.shown.bodies entries.now }
    ensures rest { IsTrue result → preloaded.new.rest ≡ drop (length entries.now) preloaded.old.rest }
{
    if !are_within_limits(entries) {
        return false;
    }
    preloaded.show(entries.len())
}

fn name_of(id: [u8; 20]) -> Name
    ensures { result ≡ snapshot_name id }
{
    let kind = Kind::Snapshot;
    Name { kind, id }
}

/// Whether all that is reached from a name is held. Where it is, it joins the names that are known to be closed, and of
/// those none is let go.
fn is_closed(
    alloc: Global,
    preloaded: &Preloaded,
    closed: &mut Closed,
    name: Name,
) -> Result<bool, Memory>
    requires { AreWhole preloaded.now.shown.bodies closed.old }
    ensures value { IfOk result (λ yes. IsTrue yes ↔ IsClosed preloaded.now.shown.bodies name) }
    ensures whole { OnOk result (AreWhole preloaded.now.shown.bodies closed.new) }
    ensures stays { (n : Name) → Contains closed.old n → Contains closed.new n }
    ensures joins { IfOk result (λ yes. IsTrue yes → (n : Name) → Reaches preloaded.now.shown.bodies name n
        → Contains closed.new n) }
{
    preloaded.is_graph();
    close(alloc, preloaded, name, closed)
}

/// Whether what a status needs is held.
fn fits_status(
    alloc: Global,
    preloaded: &Preloaded,
    closed: &mut Closed,
    status: Status,
    snapshot: &Option<[u8; 20]>,
) -> Result<bool, Memory>
    requires { AreWhole preloaded.now.shown.bodies closed.old }
    ensures fits { IfOk result (λ yes. IsTrue yes ↔ FitsStatus preloaded.now.shown.bodies status snapshot.now) }
    ensures whole { OnOk result (AreWhole preloaded.now.shown.bodies closed.new) }
{
    match (status, snapshot) {
        (Status::Created, _) => Ok(false),
        (Status::Full, Some(id)) => is_closed(alloc, preloaded, closed, name_of(*id)),
        (Status::Full, None) => Ok(false),
        (Status::Partial, Some(id)) => Ok(preloaded.has(&name_of(*id))),
        (Status::Partial, None) => Ok(true),
        (Status::Ongoing | Status::NotFound | Status::Failed, _) => Ok(snapshot.is_none()),
    }
}

/// Adds a status to a visit that may be marked.
fn add_status(
    visits: &mut Visits,
    by: u32,
    origin: &Url,
    visit: u64,
    mark: (Status, Option<[u8; 20]>),
) -> Result<bool, Memory>
    ensures yes { IfOk result (λ yes. IsTrue yes → MayBeMarked (visits_of visits.old origin.now) by visit
        × (visits.new ≡ marked visits.old origin.now visit mark.0 mark.1)) }
    ensures no { IfOk result (λ yes. yes ≡ false → MayBeMarked (visits_of visits.old origin.now) by visit → ⊥) }
{
    let (status, snapshot) = mark;
    match visits.status(origin, visit, by, status, snapshot) {
        Ok(()) => Ok(true),
        Err(VisitFault::Memory) => Err(Memory),
        Err(_) => Ok(false),
    }
}

/// Lets an event happen, where it may. Its entries are the next to come. Where it may not, or memory runs out, what is in
/// memory is to be let go.
pub fn happen(
    alloc: Global,
    preloaded: &mut Preloaded,
    visits: &mut Visits,
    closed: &mut Closed,
    event: &Event,
) -> Result<bool, Memory>
    requires next { take (length (entries_of event.now.what)) preloaded.old.rest ≡ entries_of event.now.what }
    requires whole { AreWhole preloaded.old.shown.bodies closed.old }
    ensures yes { IfOk result (λ yes. IsTrue yes
        → Happened (archive_in preloaded.old.shown visits.old) event.now (archive_in preloaded.new.shown visits.new)) }
    ensures no { IfOk result (λ yes. yes ≡ false → CanHappen (archive_in preloaded.old.shown visits.old) event.now → ⊥) }
    ensures rest { IfOk result (λ yes. IsTrue yes
        → preloaded.new.rest ≡ drop (length (entries_of event.now.what)) preloaded.old.rest) }
    ensures whole { IfOk result (λ yes. IsTrue yes → AreWhole preloaded.new.shown.bodies closed.new) }
{
    match &event.what {
        EventKind::Batch(entries) => Ok(show_batch(preloaded, entries.as_slice())),
        EventKind::Open { origin, kind, date } => {
            visits.open(alloc, origin, *kind, *date, event.by)?;
            Ok(true)
        }
        EventKind::Mark {
            origin,
            visit,
            status,
            snapshot,
        } => {
            if !fits_status(alloc, preloaded, closed, *status, snapshot)? {
                return Ok(false);
            }
            add_status(visits, event.by, origin, *visit, (*status, *snapshot))
        }
    }
}
