//! Plans, one function a kind.
ghost use Rattle.std.specs.Prelude.{◌≡◌, ◌+◌, ◌<◌, ◌^◌, [], List, length, IfOk, IfErr, IfSome, IfNone, OnOk};
ghost use Rattle.std.specs.List.{AllByRecursion};
ghost use Rattle.swh_model.specs.declared.event.Event.{Event};
ghost use Rattle.swh_model.specs.declared.event.Wish.TheVariants.{Batch, Open, Mark};
ghost use Rattle.swh_model.specs.Archive.{visits_of};
ghost use Rattle.swh_format.specs.EventRecord.{packed_objects, IsCodable};
ghost use Rattle.swh_model.specs.Step.{HasItsChildren};
ghost use Rattle.swh_model.specs.Judge.{FilePasses, IsWish, StatusAllows};
ghost use Rattle.swh_model.specs.Judged.{NonePasses, IsVisitRefusal, MayBeMarked};
ghost use Rattle.swh_replay.specs.Replay.{IsReplayOf, IsInFiles};
ghost use Rattle.swh_plan.specs.Plan.{wish_of, status_of, snapshot_of};
ghost use Rattle.swh_plan.specs.Planned.{
  IsPlanned,
  IsRefusedPlan,
  EncodesEvent,
  PassesFileEnd,
};

use crate::entries::entries_of;
use crate::fresh::{Split, split_fresh};
use crate::how::How;
use crate::lengths::limit_of_files;
use crate::planning::{PlanFault, Planned};
use crate::proposal::Plan;
use crate::snapshots::snapshot_refusal;
use std::alloc::Global;
use swh_base::{Entry, Items, Namer, Url, VisitKind};
use swh_format::{
    entries_are_codable, origin_is_codable, record_of_event, run_of_entries, snapshot_is_codable,
};
use swh_model::{Event, EventKind, No, Outcome, limit_of_batch, visit_refusal};
use swh_object::Object;
use swh_replay::Replayed;
use swh_visits::Visits;

fn number_of_visits(visits: &Visits, origin: &Url) -> u64
    ensures value { result ≡ length (visits_of visits.now origin.now) }
    ensures small { result < 2 ^ 63 }
{
    match visits.list(origin) {
        Some(visits) => visits.len() as u64,
        None => 0,
    }
}

fn mark_visit_refusal(visits: &Visits, origin: &Url, by: u32, visit: u64) -> Option<No>
    ensures some { IfSome result (IsVisitRefusal (visits_of visits.now origin.now) by visit) }
    ensures none { IfNone result (MayBeMarked (visits_of visits.now origin.now) by visit) }
{
    match visits.list(origin) {
        Some(visits) => visit_refusal(visits, by, visit),
        None => visit_refusal(&[], by, visit),
    }
}

/// The bytes of an event for the ledger, or the file that it would make too long.
fn encode(
    alloc: Global,
    replayed: &Replayed,
    event: &Event,
    run: &[u8],
) -> Result<Vec<u8>, PlanFault>
    requires in_files { IsInFiles replayed.now }
    requires run { run.now ≡ packed_objects event.now.what }
    requires codable { IsCodable replayed.now.store_end event.now }
    ensures ok { (h : List Event) → IsReplayOf replayed.now h
        → IfOk result (λ bytes. NonePasses (FilePasses h event.now.what)) }
    ensures bytes { IfOk result (EncodesEvent replayed.now event.now run.now) }
    ensures err { (h : List Event) → IsReplayOf replayed.now h → IfErr result (PassesFileEnd h event.now.what) }
{
    let run_length = run.len() as u64;
    let at = replayed.store_end;
    let bytes = record_of_event(alloc, at, at + run_length, event)?;
    let length = bytes.as_slice().len() as u64;
    match limit_of_files(at, run_length, replayed.ledger_end, length) {
        Some((which, number)) => Err(PlanFault::Refused(No::Limit { which, number })),
        None => Ok(bytes),
    }
}

/// Opens a visit of an origin.
fn plan_open(
    alloc: Global,
    replayed: &Replayed,
    number: u64,
    by: u32,
    origin: Url,
    kind: VisitKind,
    date: u64,
) -> Result<Planned, PlanFault>
    requires { IsInFiles replayed.now }
    ensures ok { (h : List Event) → IsReplayOf replayed.now h → number ≡ length h + 1
        → IfOk result (IsPlanned h by (Open origin kind date) replayed.now) }
    ensures err { (h : List Event) → IsReplayOf replayed.now h
        → IfErr result (IsRefusedPlan h by (Open origin kind date)) }
{
    let have = number_of_visits(&replayed.visits, &origin);
    origin_is_codable(&origin);
    let event = Event {
        by,
        what: EventKind::Open { origin, kind, date },
    };
    let bytes = encode(alloc, replayed, &event, &[])?;
    Ok(Planned {
        event,
        outcome: Outcome::Opened {
            event: number,
            visit: have + 1,
        },
        run: Vec::new(alloc),
        bytes,
    })
}

/// The event that adds those of these entries that are not held, or the first cause against it. Its run is written in the
/// room that is given.
fn plan_entries(
    alloc: Global,
    replayed: &Replayed,
    number: u64,
    by: u32,
    entries: &[Entry],
    room: Vec<u8>,
) -> Result<Planned, PlanFault>
    requires in_files { IsInFiles replayed.now }
    requires good { AllByRecursion HasItsChildren entries.now }
    ensures ok { (h : List Event) → IsReplayOf replayed.now h → number ≡ length h + 1
        → IfOk result (IsPlanned h by (Batch entries.now) replayed.now) }
    ensures err { (h : List Event) → IsReplayOf replayed.now h → IfErr result (IsRefusedPlan h by (Batch entries.now)) }
{
    if let Some((which, number)) = limit_of_batch(entries) {
        return Err(PlanFault::Refused(No::Limit { which, number }));
    }
    let split = split_fresh(alloc, &replayed.store, entries)?;
    let Split { fresh, collision } = split;
    entries_are_codable(&fresh);
    let new = fresh.as_slice().len() as u32;
    let run = run_of_entries(room, &fresh)?;
    let event = Event {
        by,
        what: EventKind::Batch(Items::from_vec(fresh)),
    };
    let bytes = encode(alloc, replayed, &event, &run)?;
    if let Some(name) = collision {
        return Err(PlanFault::Refused(No::Collision { name }));
    }
    Ok(Planned {
        event,
        outcome: Outcome::Added { event: number, new },
        run,
        bytes,
    })
}

/// Adds what is new of a batch.
fn plan_batch<N: Namer>(
    alloc: Global,
    replayed: &Replayed,
    number: u64,
    by: u32,
    objects: Vec<Object<N>>,
    room: Vec<u8>,
) -> Result<Planned, PlanFault>
    requires { IsInFiles replayed.now }
    ensures ok { (h : List Event) → IsReplayOf replayed.now h → number ≡ length h + 1
        → IfOk result (IsPlanned h by (Batch objects.items) replayed.now) }
    ensures good { OnOk result (IsWish N.id_of (Batch objects.items)) }
    ensures err { (h : List Event) → IsReplayOf replayed.now h → IfErr result (IsRefusedPlan h by (Batch objects.items)) }
{
    let entries = entries_of(alloc, objects)?;
    plan_entries(alloc, replayed, number, by, &entries, room)
}

/// Marks a visit. What is reached from the snapshot is looked at where nothing else is against the plan.
fn plan_mark(
    alloc: Global,
    replayed: &Replayed,
    number: u64,
    by: u32,
    origin: Url,
    visit: u64,
    how: How,
) -> Result<Planned, PlanFault>
    requires { IsInFiles replayed.now }
    ensures ok { (h : List Event) → IsReplayOf replayed.now h → number ≡ length h + 1
        → IfOk result (IsPlanned h by (Mark origin visit (status_of how) (snapshot_of how)) replayed.now) }
    ensures good { StatusAllows (status_of how) (snapshot_of how) }
    ensures err { (h : List Event) → IsReplayOf replayed.now h
        → IfErr result (IsRefusedPlan h by (Mark origin visit (status_of how) (snapshot_of how))) }
{
    let (status, snapshot) = how.mark();
    let refusal = mark_visit_refusal(&replayed.visits, &origin, by, visit);
    origin_is_codable(&origin);
    snapshot_is_codable(&snapshot);
    let event = Event {
        by,
        what: EventKind::Mark {
            origin,
            visit,
            status,
            snapshot,
        },
    };
    let bytes = encode(alloc, replayed, &event, &[])?;
    if let Some(cause) = refusal {
        return Err(PlanFault::Refused(cause));
    }
    if let Some(cause) = snapshot_refusal(alloc, &replayed.store, &how)? {
        return Err(PlanFault::Refused(cause));
    }
    Ok(Planned {
        event,
        outcome: Outcome::Marked { event: number },
        run: Vec::new(alloc),
        bytes,
    })
}

/// The event of a plan with its bytes, or the first cause against the plan. A batch's run is written in the room that is
/// given; of another plan that room is freed.
pub fn judge_plan<N: Namer>(
    alloc: Global,
    replayed: &Replayed,
    number: u64,
    by: u32,
    plan: Plan<N>,
    room: Vec<u8>,
) -> Result<Planned, PlanFault>
    requires { IsInFiles replayed.now }
    ensures ok { (h : List Event) → IsReplayOf replayed.now h → number ≡ length h + 1
        → IfOk result (IsPlanned h by (wish_of plan) replayed.now) }
    ensures good { OnOk result (IsWish N.id_of (wish_of plan)) }
    ensures err { (h : List Event) → IsReplayOf replayed.now h → IfErr result (IsRefusedPlan h by (wish_of plan)) }
{
    match plan {
        Plan::Batch(objects) => plan_batch(alloc, replayed, number, by, objects, room),
        Plan::Open { origin, kind, date } => {
            plan_open(alloc, replayed, number, by, origin, kind, date)
        }
        Plan::Mark { origin, visit, how } => {
            plan_mark(alloc, replayed, number, by, origin, visit, how)
        }
    }
}
