//! The runs of a history, read again event by event.
ghost use Rattle.std.specs.Prelude.{◌≡◌, ◌+◌, ◌^◌, ◌<◌, ◌≤◌, None, length, take, get_or, IfOk, OnOk, OnErr};
ghost use Rattle.swh_model.specs.declared.event.Event.{Event};
ghost use Rattle.swh_model.specs.Step.{IsHistory};
ghost use Rattle.swh_check.specs.Bodies.{IsCompared, AreCompared};
ghost use Rattle.swh_check.specs.Counts.{bodies_in};
ghost use Rattle.swh_check.specs.Check.{IsProgress, Rereads};

use crate::bodies::check_objects;
use crate::fault::CheckFault;
use std::alloc::Global;
use swh_base::{Memory, Namer};
use swh_keeper::Keeper;
use swh_model::length_in_store;
use swh_outside::Disk;

/// How far a history was compared: where the next run begins, and how many bodies there were.
#[derive(Clone, Copy)]
pub struct Progress {
    pub at: u64,
    pub bodies: u64,
}

/// The sum, or want of memory where it passes 64 bits: no machine holds files of such a length.
fn plus(a: u64, b: u64) -> Result<u64, Memory>
    ensures ok { IfOk result (λ sum. sum ≡ a + b) }
    ensures err { OnErr result (2 ^ 64 ≤ a + b) }
{
    a.checked_add(b).ok_or(Memory)
}

/// Reads the run of the event at a place of the history again, and compares its bodies, once the events in front of it
/// are compared. Answers how far the history is then compared.
fn check_event<N: Namer, D: Disk>(
    alloc: Global,
    namer: &N,
    keeper: &mut Keeper<N, D>,
    place: usize,
    done: Progress,
) -> Result<Progress, CheckFault>
    requires unwounded { keeper.old.wounded ≡ None }
    requires place { place < length keeper.old.history }
    requires done { IsProgress (take place keeper.old.history) done }
    ensures done { IfOk result (IsProgress (take (place + 1) keeper.old.history)) }
    ensures compared { OnOk result ((e : Event) → e ≡ get_or keeper.old.history place e → IsCompared N.id_of D.tells e) }
    ensures again { Rereads N.id_of D.tells D.file D.faults keeper.old keeper.new result }
{
    let size = length_in_store(&keeper.history()[place].what)?;
    let at = plus(done.at, size)?;
    let run = keeper.stored_bytes(alloc, done.at, size as usize)?;
    match check_objects(namer, &run, &keeper.history()[place].what) {
        Ok(count) => Ok(Progress {
            at,
            bodies: done.bodies + count,
        }),
        Err(fault) => Err(fault),
    }
}

/// Reads all runs again, and compares all bodies, up to the first of another id. Answers how many there were.
pub fn check_bodies<N: Namer, D: Disk>(
    alloc: Global,
    namer: &N,
    keeper: &mut Keeper<N, D>,
) -> Result<u64, CheckFault>
    requires { keeper.old.wounded ≡ None }
    ensures history { IsHistory N.id_of keeper.old.history }
    ensures count { IfOk result (λ count. count ≡ bodies_in keeper.old.history) }
    ensures compared { OnOk result (AreCompared N.id_of D.tells keeper.old.history) }
    ensures again { Rereads N.id_of D.tells D.file D.faults keeper.old keeper.new result }
{
    let mut done = Progress { at: 0, bodies: 0 };
    for place in 0..keeper.history().len() {
        done = check_event(alloc, namer, keeper, place, done)?;
    }
    Ok(done.bodies)
}
