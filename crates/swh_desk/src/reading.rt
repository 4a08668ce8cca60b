// The reply to a request that is no load.
ghost use Rattle.std.specs.Prelude.{◌≡◌, IfOk};
ghost use Rattle.std.specs.List.{AllByRecursion};
ghost use Rattle.swh_model.specs.Happens.{IsGoodEvent};
ghost use Rattle.swh_model.specs.Step.{replay};
ghost use Rattle.swh_replay.specs.Replay.{archive_of};
ghost use Rattle.swh_api.specs.Answer.{IsAnswer};
ghost use Rattle.swh_api.specs.Route.{AsksNoLoad};

use std::alloc::Global;
use swh_api::reply;
use swh_base::{FILE_LIMIT, Memory, Namer, Reply, Request};
use swh_keeper::Keeper;
use swh_model::{Event, length_of_ledger, length_of_store};
use swh_outside::Disk;
use swh_replay::{Replayed, replay_all};

// What a history makes of an archive, anew. No file is longer than its limit.
fn replay_anew(alloc: Global, history: &[Event]) -> Result<Replayed, Memory>
    requires { AllByRecursion IsGoodEvent history.now }
    ensures { IfOk result (λ replayed. archive_of replayed ≡ replay history.now) }
{
    let store = length_of_store(history)?;
    let ledger = length_of_ledger(history)?;
    if FILE_LIMIT < store || FILE_LIMIT < ledger {
        return Err(Memory);
    }
    match replay_all(alloc, history) {
        Ok(replayed) => Ok(replayed),
        Err(_) => Err(Memory),
    }
}

/// The reply to a request that is no load, by what the history of a keeper makes. Where a disk has failed, what lies in
/// memory may have an event that is on no disk: then the history is replayed anew for the reply. Fails where memory runs out.
pub fn read_reply<N: Namer, D: Disk>(
    alloc: Global,
    keeper: &Keeper<N, D>,
    request: &Request,
) -> Result<Reply, Memory>
    requires { AsksNoLoad request.now }
    ensures { IfOk result (IsAnswer (replay keeper.now.history) request.now) }
{
    match keeper.wounded() {
        None => reply(alloc, keeper.replayed(), request),
        Some(_) => {
            let replayed = replay_anew(alloc, keeper.history())?;
            reply(alloc, &replayed, request)
        }
    }
}
