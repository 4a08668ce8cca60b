//! What the records that were read make of an archive in memory.
ghost use Rattle.std.specs.Prelude.{◌≡◌, ◌≤◌, ◌<◌, IfOk, IfErr, length};
ghost use Rattle.swh_model.specs.declared.event.Event.{Event};
ghost use Rattle.swh_recovery.specs.Records.{AreWhole};
ghost use Rattle.swh_keeper.specs.Damage.{
  IfDamagedAt,
  IsReplayWhy,
  IsGateOf,
  IsRefusedEvent,
  IsHarmBehind,
};
ghost use Rattle.swh_keeper.specs.Opening.{IsReadWhole};

use crate::opening::{OpenWhy, Opened};
use std::alloc::Global;
use swh_base::Namer;
use swh_model::{Event, length_of_ledger};
use swh_recovery::Harm;
use swh_replay::{ReplayFault, replay_all};

// The harm at the record of the event of a number, from 1, which may not happen.
fn refused(events: &[Event], number: u64) -> OpenWhy
    requires some { 0 < number }
    requires among { number ≤ length events.now }
    ensures at { IfDamagedAt result (IsGateOf events.now number) }
    ensures why { IsReplayWhy result }
{
    match length_of_ledger(&events[..(number - 1) as usize]) {
        Ok(length) => OpenWhy::Damaged {
            file: 0,
            at: length - 1,
            harm: Harm::Refused { event: number },
        },
        Err(_memory) => OpenWhy::Memory,
    }
}

/// The events that were read, and their replay; else the first of them that may not happen.
pub fn replay_records<N: Namer>(
    alloc: Global,
    _namer: &N,
    history: Vec<Event>,
) -> Result<Opened, OpenWhy>
    requires { AreWhole N.id_of history.items }
    ensures history { IfOk result (λ opened. opened.history.items ≡ history.items) }
    ensures whole { IfOk result (IsReadWhole N.id_of) }
    ensures refused { IfErr result (λ why. IfDamagedAt why (IsRefusedEvent N.id_of history.items)) }
    ensures why { IfErr result IsReplayWhy }
{
    let fault = match replay_all(alloc, history.as_slice()) {
        Ok(replayed) => return Ok(Opened { replayed, history }),
        Err(fault) => fault,
    };
    match fault {
        ReplayFault::Memory => Err(OpenWhy::Memory),
        ReplayFault::Refused { event } => Err(refused(history.as_slice(), event)),
    }
}

/// A harm behind the events that were read before it, in the file of a number and at a place of it; else the first of
/// them that may not happen.
pub fn harm_behind<N: Namer>(
    alloc: Global,
    namer: &N,
    before: Vec<Event>,
    file: u32,
    at: u64,
    harm: Harm,
) -> OpenWhy
    requires { AreWhole N.id_of before.items }
    ensures at { IfDamagedAt result (IsHarmBehind N.id_of before.items file at harm) }
    ensures why { IsReplayWhy result }
{
    match replay_records(alloc, namer, before) {
        Ok(_opened) => OpenWhy::Damaged { file, at, harm },
        Err(why) => why,
    }
}
