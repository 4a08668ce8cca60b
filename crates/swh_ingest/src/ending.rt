// The end of a visit.
ghost use Rattle.std.specs.Prelude.{◌≡◌, ◌∷◌, [], Some, IfOk, IfErr, OnOk};
ghost use Rattle.swh_base.specs.Snapshot.{snapshot_name};
ghost use Rattle.swh_base.specs.declared.visit.Status.TheVariants.{Full};
ghost use Rattle.swh_model.specs.Archive.{IsClosed};
ghost use Rattle.swh_model.specs.Step.{FitsStatus};
ghost use Rattle.swh_model.specs.declared.event.Wish.TheVariants.{Mark as WishToMark};
ghost use Rattle.swh_plan.specs.Plan.{status_of, snapshot_of};
ghost use Rattle.swh_ingest.specs.Knowing.{held_in};
ghost use Rattle.swh_ingest.specs.Owning.{IsWished, attempt_of};
ghost use Rattle.swh_ingest.specs.Visiting.{IsMine, HasLast};
ghost use Rattle.swh_ingest.specs.Walking.{Adds, StopsNow, StopsAfter};
ghost use Rattle.swh_ingest.specs.Ending.{IsMarkOf, IsMarkAsked};

use crate::destination::Destination;
use crate::stop::Stop;
use crate::turn::Turn;
use crate::visiting::{OpenVisit, mark};
use std::alloc::Global;
use swh_base::{Name, Namer};
use swh_outside::Gate;
use swh_plan::{How, Plan};

/// A snapshot, and names among which all stands that is reached from it.
#[derive(Drop)]
pub struct Reached {
    pub snapshot: [u8; 20],
    pub names: Vec<Name>,
}

/// Ends a visit whose input is all held, on both sides of the gate.
pub fn end_full<N: Namer, S, P: Destination<Plan<N>, S>, G: Gate>(
    alloc: Global,
    destination: &P,
    writer: &mut S,
    visit: &OpenVisit,
    reached: Reached,
    turn: &Turn<G>,
) -> Result<(), Stop>
    requires fits { P.fits destination.now }
    requires ready { (P.protocol destination.now).ready writer.old }
    requires mine { IsMine ((P.protocol destination.now).known writer.old) (attempt_of visit.now) visit.now.number }
    requires closed { IsClosed (held_in ((P.protocol destination.now).known writer.old)) (snapshot_name reached.snapshot) }
    ensures last { OnOk result (HasLast ((P.protocol destination.now).known writer.new).front
        (attempt_of visit.now) visit.now.number (Full, Some reached.snapshot)) }
    ensures adds { OnOk result (Adds (P.protocol destination.now) (IsMarkOf (attempt_of visit.now) visit.now.number)
        ((Full, Some reached.snapshot) ∷ []) writer.old writer.new) }
    ensures stops { IfErr result (StopsAfter N.id_of (P.protocol destination.now)
        (IsMarkOf (attempt_of visit.now) visit.now.number) (IsMarkAsked (attempt_of visit.now) visit.now.number) []
        writer.old writer.new) }
{
    let Reached { snapshot, names } = reached;
    let Ok(cert) = destination.certify(alloc, writer, snapshot, names) else {
        return Err(Stop::Memory);
    };
    let gate = turn.worker.gate;
    gate.before(turn.worker.number, turn.job);
    match mark(
        alloc,
        destination,
        writer,
        visit,
        How::Full { snapshot, cert },
    ) {
        Ok(()) => {
            gate.after(turn.worker.number, turn.job);
            Ok(())
        }
        Err(why) => Err(why),
    }
}

/// Adds the last status of a visit, and answers what is told then.
pub fn end_as<N: Namer, S, P: Destination<Plan<N>, S>, T: Drop>(
    alloc: Global,
    destination: &P,
    writer: &mut S,
    visit: &OpenVisit,
    how: How,
    told: T,
) -> Result<T, Stop>
    requires fits { P.fits destination.now }
    requires mine { IsMine ((P.protocol destination.now).known writer.old) (attempt_of visit.now) visit.now.number }
    requires allowed { FitsStatus (held_in ((P.protocol destination.now).known writer.old)) (status_of how) (snapshot_of how) }
    ensures is { IfOk result (λ t. t ≡ told) }
    ensures last { OnOk result (HasLast ((P.protocol destination.now).known writer.new).front
        (attempt_of visit.now) visit.now.number (status_of how, snapshot_of how)) }
    ensures adds { OnOk result (Adds (P.protocol destination.now) (IsMarkOf (attempt_of visit.now) visit.now.number)
        ((status_of how, snapshot_of how) ∷ []) writer.old writer.new) }
    ensures stops { IfErr result (StopsNow N.id_of (P.protocol destination.now)
        (IsMarkAsked (attempt_of visit.now) visit.now.number) writer.old writer.new) }
    ensures stops_so { IfErr result (StopsNow N.id_of (P.protocol destination.now)
        (IsWished (WishToMark visit.now.origin.now visit.now.number (status_of how) (snapshot_of how)))
        writer.old writer.new) }
{
    match mark(alloc, destination, writer, visit, how) {
        Ok(()) => Ok(told),
        Err(why) => Err(why),
    }
}
