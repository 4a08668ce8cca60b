// What a keeper answers to its one loader.
ghost use Rattle.std.specs.Prelude.{◌≡◌, [], Some, None, IfOk, IfErr, IfSome};
ghost use Rattle.swh_base.specs.Snapshot.{snapshot_name};
ghost use Rattle.swh_model.specs.Archive.{body_of};
ghost use Rattle.swh_model.specs.Step.{replay};
ghost use Rattle.swh_store.specs.Adding.{IsStanding};
ghost use Rattle.swh_outside.specs.Views.{disks};
ghost use Rattle.swh_plan.specs.Plan.{wish_of};
ghost use Rattle.swh_ingest.specs.Knowing.{CarriesOut, RefusesPlan};
ghost use Rattle.swh_keeperload.specs.Alone.{AddsOn, alone_protocol};

use crate::fitting::plan_fits;
use crate::refusing::refused;
use swh_base::{Entry, Kind, Name, Namer, Shared};
use swh_closure::Cert;
use swh_ingest::Refusal;
use swh_keeper::Keeper;
use swh_model::Outcome;
use swh_outside::Disk;
use swh_plan::Plan;
use swh_store::Standing;

/// How an entry stands to what a keeper holds.
pub fn standing_in<N: Namer, D: Disk>(keeper: &mut Keeper<N, D>, entry: &Entry) -> Standing
    requires { keeper.old.wounded ≡ None }
    ensures looks { AddsOn N.id_of (disks D.tells D.file D.faults) [] keeper.old keeper.new }
    ensures standing { IsStanding (replay keeper.new.history).bodies entry.now result }
{
    keeper.store().standing(entry)
}

/// The body that a keeper holds under a name, shared; none where there is none, or memory is short.
pub fn body_in<N: Namer, D: Disk>(keeper: &mut Keeper<N, D>, name: &Name) -> Option<Shared<u8>>
    requires { keeper.old.wounded ≡ None }
    ensures looks { AddsOn N.id_of (disks D.tells D.file D.faults) [] keeper.old keeper.new }
    ensures held { IfSome result (λ body. body_of (replay keeper.new.history).bodies name.now ≡ Some body) }
{
    let Some(entry) = keeper.store().get(name) else {
        return None;
    };
    match entry.body.again() {
        Ok(body) => Some(body),
        Err(_) => None,
    }
}

/// A certificate that all that is reached from a snapshot is held, where all of it stands among these names. Whoever applies
/// a mark checks it, so that nothing is walked here.
pub fn certificate_in<N: Namer, D: Disk>(
    keeper: &mut Keeper<N, D>,
    snapshot: [u8; 20],
    names: Vec<Name>,
) -> Cert
    requires { keeper.old.wounded ≡ None }
    ensures looks { AddsOn N.id_of (disks D.tells D.file D.faults) [] keeper.old keeper.new }
    ensures root { result.root ≡ snapshot_name snapshot }
    ensures names { result.names.items ≡ names.items }
{
    let _history = keeper.history();
    let kind = Kind::Snapshot;
    let root = Name { kind, id: snapshot };
    Cert { root, names }
}

/// Lets a keeper carry out a plan under a number.
pub fn carry_out<N: Namer, D: Disk>(
    by: u32,
    keeper: &mut Keeper<N, D>,
    plan: Plan<N>,
) -> Result<Outcome, Refusal>
    ensures ok { IfOk result (CarriesOut N.id_of (alone_protocol N.id_of (disks D.tells D.file D.faults) by)
        (wish_of plan) keeper.old keeper.new) }
    ensures err { IfErr result (RefusesPlan N.id_of (alone_protocol N.id_of (disks D.tells D.file D.faults) by)
        (wish_of plan) keeper.old keeper.new) }
{
    plan_fits(&plan);
    let _before = keeper.history();
    match keeper.apply(by, plan) {
        Ok(outcome) => {
            let _after = keeper.history();
            Ok(outcome)
        }
        Err(refusal) => Err(refused(refusal)),
    }
}
