//! What a history's replay is counted by: its store, and its events.
ghost use Rattle.std.specs.Prelude.{◌≡◌, ◌⊎◌, ◌↔◌, ℕ, List, Contains, IfOk, IfSome, OnOk};
ghost use Rattle.swh_base.specs.declared.name.Name.{Name};
ghost use Rattle.swh_base.specs.Reach.{ReachesIn, IsClosedIn};
ghost use Rattle.swh_base.specs.Snapshot.{snapshot_name};
ghost use Rattle.swh_closure.specs.Whole.{IsWholeIn};
ghost use Rattle.swh_model.specs.Step.{replay};
ghost use Rattle.swh_model.specs.Happens.{IsSomeHistory};
ghost use Rattle.swh_store.specs.Stored.{children_in};
ghost use Rattle.swh_check.specs.Counts.{bodies_in, opened_by, IsFullMark, IsReport};

use crate::report::Report;
use std::alloc::Global;
use swh_base::{Kind, Memory, Name, Status};
use swh_closure::{Closed, close};
use swh_model::{Event, EventKind};
use swh_store::Store;

/// How many visits the event opened.
fn visits_opened(event: &EventKind) -> u64
    ensures { result ≡ opened_by event.now }
{
    match event {
        EventKind::Open { .. } => 1,
        _ => 0,
    }
}

/// The snapshot with which the event makes a visit full.
fn full_snapshot(event: &EventKind) -> Option<Name>
    ensures some { IfSome result (λ name. (id : List ℕ) × IsFullMark event.now id × (name ≡ snapshot_name id)) }
    ensures only { (id : List ℕ) → IsFullMark event.now id → result ≡ Some (snapshot_name id) }
{
    match event {
        EventKind::Mark {
            status: Status::Full,
            snapshot: Some(id),
            ..
        } => {
            let kind = Kind::Snapshot;
            Some(Name { kind, id: *id })
        }
        _ => None,
    }
}

/// What is reached from the snapshot with which the event makes a visit full joins the names that are known to be closed.
fn join_full(
    alloc: Global,
    store: &Store,
    closed: &mut Closed,
    event: &EventKind,
) -> Result<(), Memory>
    requires whole { IsWholeIn (children_in store.now) closed.old }
    requires closed { (id : List ℕ) → IsFullMark event.now id → IsClosedIn (children_in store.now) (snapshot_name id) }
    ensures whole { OnOk result (IsWholeIn (children_in store.now) closed.new) }
    ensures joins { OnOk result ((n : Name) → Contains closed.new n ↔ (Contains closed.old n
        ⊎ ((id : List ℕ) × IsFullMark event.now id × ReachesIn (children_in store.now) (snapshot_name id) n))) }
{
    if let Some(name) = full_snapshot(event) {
        let _closed = close(alloc, store, name, closed)?;
    }
    Ok(())
}

/// What the replay of a history holds, in which so many objects were counted.
pub fn report_of(
    alloc: Global,
    store: &Store,
    history: &[Event],
    objects: u64,
) -> Result<Report, Memory>
    requires history { IsSomeHistory history.now }
    requires counted { objects ≡ bodies_in history.now }
    requires replayed { store.now.bodies ≡ (replay history.now).bodies }
    ensures { IfOk result (IsReport (replay history.now)) }
{
    store.is_graph();
    let mut visits: u64 = 0;
    let mut closed = Closed::new(alloc);
    for event in history {
        visits += visits_opened(&event.what);
        join_full(alloc, store, &mut closed, &event.what)?;
    }
    Ok(Report {
        objects,
        closed: closed.len() as u64,
        visits,
    })
}
