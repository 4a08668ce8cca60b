// A load of an input that is read part by part: what it makes is sent while it is read.
ghost use Rattle.std.specs.Prelude.{◌≡◌, ◌⊎◌, ◌∷◌, [], List, ℕ, None, IfOk, IfErr, OnOk};
ghost use Rattle.swh_base.specs.Snapshot.{snapshot_name};
ghost use Rattle.swh_base.specs.declared.entry.Entry.{Entry};
ghost use Rattle.swh_base.specs.declared.visit.Status.TheVariants.{Ongoing, Failed as FailedStatus};
ghost use Rattle.swh_model.specs.Archive.{IsClosed};
ghost use Rattle.swh_ingest.specs.Knowing.{held_in};
ghost use Rattle.swh_ingest.specs.declared.input.Opening.TheVariants.{Found};
ghost use Rattle.swh_ingest.specs.declared.end.End.TheVariants.{Unread as EndUnread};
ghost use Rattle.swh_ingest.specs.Ending.{IsMarkOf, IsMarkAsked};
ghost use Rattle.swh_ingest.specs.Loading.{EndsOwn, IsOwn, IsOwnAsked, StopsFailing, StopsLoad, StopsUnended, last_at, statuses_of};
ghost use Rattle.swh_ingest.specs.Owning.{attempt, attempt_of};
ghost use Rattle.swh_ingest.specs.Parts.{AreAllowed, AreGiven, GaveAll, IfAll, IfBad, IsGivenEndAt, IsGivenEnd, IsReadOn, IsSameOrReadOn, IsSameOrUnbroken, IsUnbroken, ReachesAll, end_of};
ghost use Rattle.swh_ingest.specs.Visiting.{IsMine, HasLast};
ghost use Rattle.swh_ingest.specs.Walking.{Adds, StopsAfter};

use crate::destination::Destination;
use crate::end::{End, LoadFault, Loaded};
use crate::ending::{end_as, end_full};
use crate::input::{Job, Opening};
use crate::parts::{Next, ReadsParts};
use crate::sending_parts::{Sent, send_parts};
use crate::stop::Stop;
use crate::turn::Turn;
use crate::visiting::{OpenVisit, mark, open_visit};
use std::alloc::Global;
use swh_base::Namer;
use swh_outside::Gate;
use swh_plan::{How, Plan};

/// An open visit, and the turn at which its input is loaded.
#[derive(Drop)]
struct Task<'a, G: Gate> {
    visit: OpenVisit<'a>,
    turn: &'a Turn<'a, G>,
}

/// Ends a visit whose input does not open.
fn end_unread<N: Namer, S, P: Destination<Plan<N>, S>, B: Drop>(
    alloc: Global,
    destination: &P,
    writer: &mut S,
    visit: &OpenVisit,
) -> Result<End<B>, Stop>
    requires fits { P.fits destination.now }
    requires ready { (P.protocol destination.now).ready writer.old }
    requires mine { IsMine ((P.protocol destination.now).known writer.old) (attempt_of visit.now) visit.now.number }
    ensures is { IfOk result (λ end. end ≡ EndUnread) }
    ensures last { OnOk result (HasLast ((P.protocol destination.now).known writer.new).front
        (attempt_of visit.now) visit.now.number (FailedStatus, None)) }
    ensures adds { OnOk result (Adds (P.protocol destination.now) (IsMarkOf (attempt_of visit.now) visit.now.number)
        ((Ongoing, None) ∷ (FailedStatus, None) ∷ []) writer.old writer.new) }
    ensures stops { IfErr result (StopsUnended N.id_of (P.protocol destination.now)
        (IsMarkOf (attempt_of visit.now) visit.now.number) (IsMarkAsked (attempt_of visit.now) visit.now.number)
        writer.old writer.new) }
{
    match mark(alloc, destination, writer, visit, How::Ongoing) {
        Ok(()) => end_as(alloc, destination, writer, visit, How::Failed, End::Unread),
        Err(why) => Err(why),
    }
}

/// Ends a visit by what became of its input's objects.
fn end_sent<N: Namer, S, P: Destination<Plan<N>, S>, B: Drop, G: Gate>(
    alloc: Global,
    destination: &P,
    writer: &mut S,
    visit: &OpenVisit,
    sent: Sent<B>,
    turn: &Turn<G>,
) -> Result<End<B>, Stop>
    requires fits { P.fits destination.now }
    requires ready { (P.protocol destination.now).ready writer.old }
    requires mine { IsMine ((P.protocol destination.now).known writer.old) (attempt_of visit.now) visit.now.number }
    requires closed { IfAll sent (λ snapshot. IsClosed (held_in ((P.protocol destination.now).known writer.old))
        (snapshot_name snapshot)) }
    ensures is { IfOk result (λ end. end ≡ end_of sent) }
    ensures last { IfOk result (λ end. HasLast ((P.protocol destination.now).known writer.new).front
        (attempt_of visit.now) visit.now.number (last_at end)) }
    ensures adds { IfOk result (λ end. Adds (P.protocol destination.now) (IsMarkOf (attempt_of visit.now) visit.now.number)
        (last_at end ∷ []) writer.old writer.new) }
    ensures ongoing { IfOk result (λ end. statuses_of end ≡ (Ongoing, None) ∷ (last_at end ∷ [])) }
    ensures stops { IfErr result (StopsAfter N.id_of (P.protocol destination.now)
        (IsMarkOf (attempt_of visit.now) visit.now.number) (IsMarkAsked (attempt_of visit.now) visit.now.number) []
        writer.old writer.new) }
    ensures failing { IfErr result (λ why. IfBad sent (StopsFailing N.id_of (P.protocol destination.now)
        (attempt_of visit.now) visit.now.number writer.new why)) }
{
    match sent {
        Sent::All(reached) => {
            let snapshot = reached.snapshot;
            match end_full(alloc, destination, writer, visit, reached, turn) {
                Ok(()) => Ok(End::Full { snapshot }),
                Err(why) => Err(why),
            }
        }
        Sent::Met(name) => end_as(
            alloc,
            destination,
            writer,
            visit,
            How::Failed,
            End::Met(name),
        ),
        Sent::Bad(bad) => end_as(
            alloc,
            destination,
            writer,
            visit,
            How::Failed,
            End::Bad(bad),
        ),
    }
}

/// Sends what an input gives, and ends its visit.
fn send_and_end<
    N: Namer,
    S,
    P: Destination<Plan<N>, S>,
    I,
    B: Drop,
    R: ReadsParts<I, Next<N, B>>,
    G: Gate,
>(
    alloc: Global,
    destination: &P,
    writer: &mut S,
    task: &Task<G>,
    read: &R,
    input: &mut I,
) -> Result<End<B>, Stop>
    requires fits { P.fits destination.now }
    requires ready { (P.protocol destination.now).ready writer.old }
    requires mine { IsMine ((P.protocol destination.now).known writer.old) (attempt_of task.now.visit) task.now.visit.number }
    requires takes { R.takes read.now input.old }
    requires whole { (objects : List Entry) (snapshot : List ℕ) (now : _) → GaveAll (R.gives read.now) input.old objects snapshot now
        → ReachesAll N.id_of objects snapshot }
    ensures end { IfOk result (IsGivenEnd (R.gives read.now) (held_in ((P.protocol destination.now).known writer.new))
        input.old input.new) }
    ensures last { IfOk result (λ end. HasLast ((P.protocol destination.now).known writer.new).front
        (attempt_of task.now.visit) task.now.visit.number (last_at end)) }
    ensures adds { IfOk result (λ end. Adds (P.protocol destination.now) (IsOwn (P.protocol destination.now).alone
        (AreGiven (R.gives read.now) input.old) (attempt_of task.now.visit) task.now.visit.number)
        (last_at end ∷ []) writer.old writer.new) }
    ensures ongoing { IfOk result (λ end. statuses_of end ≡ (Ongoing, None) ∷ (last_at end ∷ [])) }
    ensures stops { IfErr result (StopsAfter N.id_of (P.protocol destination.now) (IsOwn (P.protocol destination.now).alone
        (AreGiven (R.gives read.now) input.old) (attempt_of task.now.visit) task.now.visit.number)
        (IsOwnAsked (AreGiven (R.gives read.now) input.old) (attempt_of task.now.visit)
        task.now.visit.number) [] writer.old writer.new) }
    ensures input { IsReadOn (R.gives read.now) input.old input.new }
    ensures heard { IfErr result (λ why. IsUnbroken (R.gives read.now) input.old input.new
        ⊎ StopsFailing N.id_of (P.protocol destination.now) (attempt_of task.now.visit) task.now.visit.number writer.new why) }
{
    match send_parts(alloc, destination, writer, read, input) {
        Ok(sent) => end_sent(alloc, destination, writer, &task.visit, sent, task.turn),
        Err(why) => Err(why),
    }
}

/// Loads an input that is found, of an open visit.
fn load_found<
    N: Namer,
    S,
    P: Destination<Plan<N>, S>,
    I,
    B: Drop,
    R: ReadsParts<I, Next<N, B>>,
    G: Gate,
>(
    alloc: Global,
    destination: &P,
    writer: &mut S,
    task: &Task<G>,
    read: &R,
    input: &mut I,
) -> Result<End<B>, Stop>
    requires fits { P.fits destination.now }
    requires ready { (P.protocol destination.now).ready writer.old }
    requires mine { IsMine ((P.protocol destination.now).known writer.old) (attempt_of task.now.visit) task.now.visit.number }
    requires takes { R.takes read.now input.old }
    requires whole { (objects : List Entry) (snapshot : List ℕ) (now : _) → GaveAll (R.gives read.now) input.old objects snapshot now
        → ReachesAll N.id_of objects snapshot }
    ensures end { IfOk result (IsGivenEnd (R.gives read.now) (held_in ((P.protocol destination.now).known writer.new))
        input.old input.new) }
    ensures last { IfOk result (λ end. HasLast ((P.protocol destination.now).known writer.new).front
        (attempt_of task.now.visit) task.now.visit.number (last_at end)) }
    ensures adds { IfOk result (λ end. Adds (P.protocol destination.now) (IsOwn (P.protocol destination.now).alone
        (AreGiven (R.gives read.now) input.old) (attempt_of task.now.visit) task.now.visit.number)
        (statuses_of end) writer.old writer.new) }
    ensures stops { IfErr result (StopsUnended N.id_of (P.protocol destination.now) (IsOwn (P.protocol destination.now).alone
        (AreGiven (R.gives read.now) input.old) (attempt_of task.now.visit) task.now.visit.number)
        (IsOwnAsked (AreGiven (R.gives read.now) input.old) (attempt_of task.now.visit)
        task.now.visit.number) writer.old writer.new) }
    ensures input { IsSameOrReadOn (R.gives read.now) Found input.old input.new }
    ensures heard { IfErr result (λ why. IsSameOrUnbroken (R.gives read.now) input.old input.new
        ⊎ StopsFailing N.id_of (P.protocol destination.now) (attempt_of task.now.visit) task.now.visit.number writer.new why) }
{
    match mark(alloc, destination, writer, &task.visit, How::Ongoing) {
        Ok(()) => send_and_end(alloc, destination, writer, task, read, input),
        Err(why) => Err(why),
    }
}

/// Loads what an input is, of an open visit.
fn load_opened<
    N: Namer,
    S,
    P: Destination<Plan<N>, S>,
    I,
    B: Drop,
    R: ReadsParts<I, Next<N, B>>,
    G: Gate,
>(
    alloc: Global,
    destination: &P,
    writer: &mut S,
    task: &Task<G>,
    job: &Job<R>,
    input: &mut I,
) -> Result<End<B>, Stop>
    requires fits { P.fits destination.now }
    requires ready { (P.protocol destination.now).ready writer.old }
    requires mine { IsMine ((P.protocol destination.now).known writer.old) (attempt_of task.now.visit) task.now.visit.number }
    requires takes { job.now.opening ≡ Found → R.takes job.now.read input.old }
    requires whole { (objects : List Entry) (snapshot : List ℕ) (now : _)
        → GaveAll (R.gives job.now.read) input.old objects snapshot now → ReachesAll N.id_of objects snapshot }
    ensures end { IfOk result (IsGivenEndAt (R.gives job.now.read) job.now.opening
        (held_in ((P.protocol destination.now).known writer.new)) input.old input.new) }
    ensures last { IfOk result (λ end. HasLast ((P.protocol destination.now).known writer.new).front
        (attempt_of task.now.visit) task.now.visit.number (last_at end)) }
    ensures adds { IfOk result (λ end. Adds (P.protocol destination.now) (IsOwn (P.protocol destination.now).alone
        (AreAllowed (R.gives job.now.read) job.now.opening input.old)
        (attempt_of task.now.visit) task.now.visit.number) (statuses_of end) writer.old writer.new) }
    ensures stops { IfErr result (StopsUnended N.id_of (P.protocol destination.now) (IsOwn (P.protocol destination.now).alone
        (AreAllowed (R.gives job.now.read) job.now.opening input.old)
        (attempt_of task.now.visit) task.now.visit.number)
        (IsOwnAsked (AreAllowed (R.gives job.now.read) job.now.opening input.old)
        (attempt_of task.now.visit) task.now.visit.number) writer.old writer.new) }
    ensures input { IsSameOrReadOn (R.gives job.now.read) job.now.opening input.old input.new }
    ensures heard { IfErr result (λ why. IsSameOrUnbroken (R.gives job.now.read) input.old input.new
        ⊎ StopsFailing N.id_of (P.protocol destination.now) (attempt_of task.now.visit) task.now.visit.number writer.new why) }
{
    match job.opening {
        Opening::Found => load_found(alloc, destination, writer, task, &job.read, input),
        Opening::NotFound => {
            end_as(
                alloc,
                destination,
                writer,
                &task.visit,
                How::NotFound,
                End::NotFound,
            )
        }
        Opening::Failed => end_unread(alloc, destination, writer, &task.visit),
        Opening::Memory => Err(Stop::Memory),
    }
}

/// Loads the input of an origin, as a new visit of it, and sends what is new of its objects while it is read. The visit
/// goes on before the input is read.
pub fn load_parts<
    N: Namer,
    S,
    P: Destination<Plan<N>, S>,
    I,
    B: Drop,
    R: ReadsParts<I, Next<N, B>>,
    G: Gate,
>(
    alloc: Global,
    destination: &P,
    writer: &mut S,
    turn: &Turn<G>,
    job: &Job<R>,
    input: &mut I,
) -> Result<Loaded<B>, LoadFault>
    requires fits { P.fits destination.now }
    // The turn is that of the loader whose writer it is.
    requires number { ((P.protocol destination.now).known writer.old).number ≡ turn.now.worker.now.by }
    // An input that is found may be read, and what it gives in all has all that is reached from its snapshot.
    requires takes { job.now.opening ≡ Found → R.takes job.now.read input.old }
    requires whole { (objects : List Entry) (snapshot : List ℕ) (now : _)
        → GaveAll (R.gives job.now.read) input.old objects snapshot now → ReachesAll N.id_of objects snapshot }
    // The visit is the next of its origin, and has the statuses of the end that is told. Its batches hold only what the
    // input may have given where its reading stopped.
    ensures ended { IfOk result (EndsOwn N.id_of (P.protocol destination.now)
        (AreAllowed (R.gives job.now.read) job.now.opening input.old)
        (attempt turn.now.worker.now.by job.now.origin.now job.now.kind job.now.date) writer.old writer.new) }
    // The end says what the input gave, and what is held: where the input is bad, all that it gave, but for a batch at most.
    ensures end { IfOk result (λ loaded. IsGivenEndAt (R.gives job.now.read) job.now.opening
        (held_in ((P.protocol destination.now).known writer.new)) input.old input.new loaded.end) }
    // Why it stopped, and what is added then.
    ensures stops { IfErr result (StopsLoad N.id_of (P.protocol destination.now)
        (AreAllowed (R.gives job.now.read) job.now.opening input.old)
        (attempt turn.now.worker.now.by job.now.origin.now job.now.kind job.now.date) writer.old writer.new) }
    ensures input { IsSameOrReadOn (R.gives job.now.read) job.now.opening input.old input.new }
    // It stops behind no input that was found bad, unless the visit was to be marked as failed and was not.
    ensures heard { IfErr result (λ fault. IsSameOrUnbroken (R.gives job.now.read) input.old input.new
        ⊎ StopsFailing N.id_of (P.protocol destination.now)
        (attempt turn.now.worker.now.by job.now.origin.now job.now.kind job.now.date) fault.visit writer.new fault.why) }
{
    let number = match open_visit(alloc, destination, writer, job.origin, job.kind, job.date) {
        Ok(number) => number,
        Err(why) => return Err(LoadFault { visit: 0, why }),
    };
    let visit = OpenVisit {
        by: turn.worker.by,
        origin: job.origin,
        kind: job.kind,
        date: job.date,
        number,
    };
    match load_opened(
        alloc,
        destination,
        writer,
        &Task { visit, turn },
        job,
        input,
    ) {
        Ok(end) => Ok(Loaded { visit: number, end }),
        Err(why) => Err(LoadFault { visit: number, why }),
    }
}
