// A load over a keeper, of an input that is read part by part.
ghost use Rattle.std.specs.Prelude.{◌≡◌, ◌⊎◌, ℕ, List, [], Some, None, IfOk, IfErr, IfSome};
ghost use Rattle.swh_base.specs.Snapshot.{snapshot_name};
ghost use Rattle.swh_base.specs.declared.entry.Entry.{Entry};
ghost use Rattle.swh_plan.specs.Plan.{wish_of};
ghost use Rattle.swh_store.specs.Adding.{IsStanding};
ghost use Rattle.swh_ingest.specs.Knowing.{CarriesOut, RefusesPlan};
ghost use Rattle.swh_outside.specs.Views.{disks};
ghost use Rattle.swh_model.specs.Archive.{body_of};
ghost use Rattle.swh_model.specs.Step.{replay};
ghost use Rattle.swh_ingest.specs.declared.input.Opening.TheVariants.{Found};
ghost use Rattle.swh_ingest.specs.Loading.{StopsFailing, statuses_of};
ghost use Rattle.swh_ingest.specs.Parts.{AreAllowed, GaveAll, IsGivenEndAt, IsSameOrReadOn, IsSameOrUnbroken, ReachesAll};
ghost use Rattle.swh_ingest.specs.Owning.{attempt};
ghost use Rattle.swh_keeperload.specs.Alone.{AddsOn, alone_protocol};
ghost use Rattle.swh_keeperload.specs.Loading.{AddsVisit, EndsVisit, IsHeldBack, MakesVisitCalls, NoCountFell, Stops};

use crate::keeping::{body_in, carry_out, certificate_in, standing_in};
use crate::protocol::Alone;
use std::alloc::Global;
use swh_base::{Entry, Memory, Name, Namer, Shared};
use swh_closure::Cert;
use swh_ingest::{Calls, Job, LoadFault, Loaded, Next, ReadsParts, Refusal, Turn, load_parts};
use swh_keeper::Keeper;
use swh_model::Outcome;
use swh_outside::{Disk, Gate};
use swh_plan::Plan;
use swh_store::Standing;

/// Loads the input of an origin into a keeper, as a new visit of it, and sends what is new of its objects while it is read.
pub fn load_kept_parts<N: Namer, D: Disk, I, B: Drop, R: ReadsParts<I, Next<N, B>>, G: Gate>(
    alloc: Global,
    keeper: &mut Keeper<N, D>,
    turn: &Turn<G>,
    job: &Job<R>,
    input: &mut I,
) -> Result<Loaded<B>, LoadFault>
    // An input that is found may be read, and what it gives in all has all that is reached from its snapshot.
    requires takes { job.now.opening ≡ Found → R.takes job.now.read input.old }
    requires whole { (objects : List Entry) (snapshot : List ℕ) (now : _)
        → GaveAll (R.gives job.now.read) input.old objects snapshot now → ReachesAll N.id_of objects snapshot }
    // The visit is the next of its origin, and its end is the one told. Nothing that was held is lost.
    ensures ended { IfOk result (λ loaded. EndsVisit
        (attempt turn.now.worker.now.by job.now.origin.now job.now.kind job.now.date) keeper.old keeper.new
        loaded.visit (statuses_of loaded.end)) }
    // The end says what the input gave, and what is held: where the input is bad, all that it gave, but for a batch at most.
    ensures end { IfOk result (λ loaded. IsGivenEndAt (R.gives job.now.read) job.now.opening
        (replay keeper.new.history).bodies input.old input.new loaded.end) }

    // Whatever it answers, it adds its visit's events alone, with nothing but what the input may have given.
    ensures adds { AddsVisit (AreAllowed (R.gives job.now.read) job.now.opening input.old)
        (attempt turn.now.worker.now.by job.now.origin.now job.now.kind job.now.date) keeper.old.history keeper.new.history }
    // The device calls that it makes: those of its events, in order; where a disk fails, up to one of the next event.
    ensures calls { D.tells → MakesVisitCalls N.id_of (disks D.tells D.file D.faults)
        (AreAllowed (R.gives job.now.read) job.now.opening input.old)
        (attempt turn.now.worker.now.by job.now.origin.now job.now.kind job.now.date) keeper.old keeper.new }
    // Where a disk had failed before, it opens no visit and changes nothing.
    ensures wounded { (n : ℕ) → keeper.old.wounded ≡ Some n → IsHeldBack keeper.old keeper.new result }
    // Why it stopped, and what is left then.
    ensures stops { IfErr result (Stops N.id_of (disks D.tells D.file D.faults)
        (AreAllowed (R.gives job.now.read) job.now.opening input.old)
        (attempt turn.now.worker.now.by job.now.origin.now job.now.kind job.now.date) keeper.old keeper.new) }
    // The counts of faults, and the input.
    ensures later { NoCountFell (disks D.tells D.file D.faults) keeper.old keeper.new }
    ensures input { IsSameOrReadOn (R.gives job.now.read) job.now.opening input.old input.new }
    // It stops behind no input that was found bad, unless the visit was to be marked as failed and was not.
    ensures heard { IfErr result (λ fault. IsSameOrUnbroken (R.gives job.now.read) input.old input.new
        ⊎ StopsFailing N.id_of (alone_protocol N.id_of (disks D.tells D.file D.faults) turn.now.worker.now.by)
        (attempt turn.now.worker.now.by job.now.origin.now job.now.kind job.now.date) fault.visit keeper.new fault.why) }
{
    let by = turn.worker.by;
    let destination = Calls {
        by,
        said: Alone,
        standing: |keeper: &mut Keeper<N, D>, entry: &Entry| -> Result<Standing, Memory>
            requires { keeper.old.wounded ≡ None }
            ensures looks { AddsOn N.id_of (disks D.tells D.file D.faults) [] keeper.old keeper.new }
            ensures standing { IfOk result (IsStanding (replay keeper.new.history).bodies entry.now) }
        { Ok(standing_in(keeper, entry)) },
        body: |keeper: &mut Keeper<N, D>, name: &Name| -> Option<Shared<u8>>
            requires { keeper.old.wounded ≡ None }
            ensures looks { AddsOn N.id_of (disks D.tells D.file D.faults) [] keeper.old keeper.new }
            ensures held { IfSome result (λ body. body_of (replay keeper.new.history).bodies name.now ≡ Some body) }
        { body_in(keeper, name) },
        certify: |keeper: &mut Keeper<N, D>, root: [u8; 20], names: Vec<Name>| -> Result<
            Cert,
            Memory,
        >
            requires { keeper.old.wounded ≡ None }
            ensures looks { AddsOn N.id_of (disks D.tells D.file D.faults) [] keeper.old keeper.new }
            ensures root { IfOk result (λ cert. cert.root ≡ snapshot_name root) }
        { Ok(certificate_in(keeper, root, names)) },
        apply: move |keeper: &mut Keeper<N, D>, plan: Plan<N>| -> Result<Outcome, Refusal>
            ensures ok { IfOk result (CarriesOut N.id_of (alone_protocol N.id_of (disks D.tells D.file D.faults) by)
                (wish_of plan) keeper.old keeper.new) }
            ensures err { IfErr result (RefusesPlan N.id_of (alone_protocol N.id_of (disks D.tells D.file D.faults) by)
                (wish_of plan) keeper.old keeper.new) }
        { carry_out(by, keeper, plan) },
    };
    load_parts(alloc, &destination, keeper, turn, job, input)
}
