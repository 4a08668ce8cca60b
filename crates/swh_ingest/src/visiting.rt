// The visit of a load: opened, marked and ended.
ghost use Rattle.std.specs.Prelude.{◌≡◌, ◌∷◌, [], IfOk, IfErr, OnOk};
ghost use Rattle.swh_model.specs.Step.{FitsStatus};
ghost use Rattle.swh_model.specs.declared.event.Wish.TheVariants.{Open as WishToOpen, Mark as WishToMark};
ghost use Rattle.swh_plan.specs.Plan.{status_of, snapshot_of};
ghost use Rattle.swh_ingest.specs.Knowing.{held_in};
ghost use Rattle.swh_ingest.specs.Owning.{attempt, attempt_of, mark_of, IsKind, IsWished};
ghost use Rattle.swh_ingest.specs.Visiting.{IsMine, HasLast};
ghost use Rattle.swh_ingest.specs.Walking.{Opens, Adds, StopsNow};

use crate::destination::Destination;
use crate::stop::{Stop, stopped};
use std::alloc::Global;
use swh_base::{Namer, Url, VisitKind};
use swh_model::Outcome;
use swh_plan::{How, Plan};

/// A visit that was opened: by whom, of which origin, its kind, when, and its number.
#[derive(Clone, Copy)]
pub struct OpenVisit<'a> {
    pub by: u32,
    pub origin: &'a Url,
    pub kind: VisitKind,
    pub date: u64,
    pub number: u64,
}

/// Opens a visit of an origin of this kind, and answers its number.
pub fn open_visit<N: Namer, S, P: Destination<Plan<N>, S>>(
    alloc: Global,
    destination: &P,
    writer: &mut S,
    origin: &Url,
    kind: VisitKind,
    date: u64,
) -> Result<u64, Stop>
    requires { P.fits destination.now }
    ensures opened { IfOk result (Opens N.id_of (P.protocol destination.now)
        (attempt ((P.protocol destination.now).known writer.old).number origin.now kind date) writer.old writer.new) }
    ensures stops { IfErr result (StopsNow N.id_of (P.protocol destination.now) (IsWished (WishToOpen origin.now kind date))
        writer.old writer.new) }
{
    let Ok(origin) = origin.again(alloc) else {
        return Err(Stop::Memory);
    };
    match destination.apply(writer, Plan::Open { origin, kind, date }) {
        Ok(Outcome::Opened { event: _, visit }) => Ok(visit),
        Ok(_) => unreachable!(),
        Err(refusal) => Err(stopped(refusal)),
    }
}

/// Adds a status to a visit.
pub fn mark<N: Namer, S, P: Destination<Plan<N>, S>>(
    alloc: Global,
    destination: &P,
    writer: &mut S,
    visit: &OpenVisit,
    how: How,
) -> Result<(), Stop>
    requires fits { P.fits destination.now }
    requires mine { IsMine ((P.protocol destination.now).known writer.old) (attempt_of visit.now) visit.now.number }
    requires allowed { FitsStatus (held_in ((P.protocol destination.now).known writer.old)) (status_of how) (snapshot_of how) }
    ensures marked { OnOk result (HasLast ((P.protocol destination.now).known writer.new).front
        (attempt_of visit.now) visit.now.number (status_of how, snapshot_of how)) }
    ensures adds { OnOk result (Adds (P.protocol destination.now)
        (IsKind (mark_of (attempt_of visit.now) visit.now.number (status_of how) (snapshot_of how)))
        ((status_of how, snapshot_of how) ∷ []) writer.old writer.new) }
    ensures stops { IfErr result (StopsNow N.id_of (P.protocol destination.now)
        (IsWished (WishToMark visit.now.origin.now visit.now.number (status_of how) (snapshot_of how)))
        writer.old writer.new) }
{
    let Ok(origin) = visit.origin.again(alloc) else {
        return Err(Stop::Memory);
    };
    let plan = Plan::Mark {
        origin,
        visit: visit.number,
        how,
    };
    match destination.apply(writer, plan) {
        Ok(_) => Ok(()),
        Err(refusal) => Err(stopped(refusal)),
    }
}
