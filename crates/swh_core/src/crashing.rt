//! Crashes: what they may leave, and what it stands for.
ghost use Rattle.std.specs.Prelude.{◌≡◌, ◌↔◌, ◌+◌, ℕ, List, Some, None, Ok, Err, IfOk, IfErr, IsTrue, length, get_or};
ghost use Rattle.swh_base.specs.declared.kind.Kind.{Kind};
ghost use Rattle.swh_outside.specs.Files.{Images};
ghost use Rattle.swh_model.specs.declared.event.Event.{Event as AnEvent};
ghost use Rattle.swh_model.specs.declared.event.Wish.{Wish as AWish};
ghost use Rattle.swh_model.specs.Limits.{records_length};
ghost use Rattle.swh_model.specs.Happens.{IsSomeHistory};
ghost use Rattle.swh_model.specs.Step.{May, IsHistory, replay};
ghost use Rattle.swh_format.specs.Stands.{StandsFor};
ghost use Rattle.swh_core.specs.declared.step.Step.TheVariants.{Crash};
ghost use Rattle.swh_core.specs.Step.{IsCaught, IsWorldStep, IsMeant};
ghost use Rattle.swh_core.specs.Kept.{MayStand, IsWorld};
ghost use Rattle.swh_core.specs.Answers.{IsSomeWish};

use crate::copies::events_again;
use crate::disk::{Disks, disks_again, is_image, make_first};
use crate::judging::{Judgement, judge_wish};
use crate::parts::{Parts, reopen};
use crate::step::{StepFault, Told};
use std::alloc::Global;
use swh_base::{Items, Memory, Namer};
use swh_model::{Event, Wish, length_of_ledger};

/// The files at the moment of a crash, and the event that they may have besides the history.
#[derive(Drop)]
pub struct Caught {
    disks: Disks,
    more: Option<Event>,
}

/// With so many device calls of a wish's event made.
fn catch_flight(
    alloc: Global,
    parts: &Parts,
    actor: u32,
    wish: &Wish,
    made: u32,
) -> Result<Caught, Memory>
    requires history { IsSomeHistory parts.now.history }
    requires wish { IsSomeWish wish.now }
    ensures { IfOk result (λ c. IsCaught None (Some (actor, wish.now, made)) parts.now c.disks c.more) }
{
    let mut disks = disks_again(alloc, &parts.disks)?;
    match judge_wish(alloc, parts.history.as_slice(), actor, wish)? {
        Judgement::Refused(_) => Ok(Caught { disks, more: None }),
        Judgement::Allowed { event, calls, .. } => {
            make_first(alloc, &mut disks, &calls, made)?;
            Ok(Caught {
                disks,
                more: Some(event),
            })
        }
    }
}

/// With nothing in doubt.
fn catch_undoubted(
    alloc: Global,
    parts: &Parts,
    flight: &Option<(u32, Wish, u32)>,
) -> Result<Caught, Memory>
    requires history { IsSomeHistory parts.now.history }
    requires flight { (f : ℕ × AWish × ℕ) → flight.now ≡ Some f → IsSomeWish f.1 }
    ensures { IfOk result (λ c. IsCaught None flight.now parts.now c.disks c.more) }
{
    match flight {
        Some((actor, wish, made)) => catch_flight(alloc, parts, *actor, wish, *made),
        None => Ok(Caught {
            disks: disks_again(alloc, &parts.disks)?,
            more: None,
        }),
    }
}

/// An event in doubt may be there, and no other has begun.
fn catch_files(
    alloc: Global,
    parts: &Parts,
    flight: &Option<(u32, Wish, u32)>,
) -> Result<Caught, Memory>
    requires history { IsSomeHistory parts.now.history }
    requires flight { (f : ℕ × AWish × ℕ) → flight.now ≡ Some f → IsSomeWish f.1 }
    ensures { IfOk result (λ c. IsCaught parts.now.doubt flight.now parts.now c.disks c.more) }
{
    match &parts.doubt {
        Some(event) => Ok(Caught {
            disks: disks_again(alloc, &parts.disks)?,
            more: Some(event.again(alloc)?),
        }),
        None => catch_undoubted(alloc, parts, flight),
    }
}

/// The place of the gate after a history's records.
fn gate_of(history: &[Event]) -> Result<usize, Memory>
    ensures { IfOk result (λ place. place ≡ 8 + records_length history.now) }
{
    let length = length_of_ledger(history)?;
    Ok(length as usize - 1)
}

fn is_open_at(ledger: &[u8], place: usize) -> bool
    ensures { IsTrue result ↔ (get_or ledger.now place 0 ≡ 1) }
{
    if place < ledger.len() {
        ledger[place] == 1
    } else {
        false
    }
}

/// The history, or with the event where the gate after the history's records is open.
fn history_left(
    alloc: Global,
    history: &[Event],
    more: &Option<Event>,
    ledger: &[u8],
) -> Result<Items<Event>, Memory>
    ensures stands { (images : Images) → images 0 ≡ ledger.now → MayStand history.now more.now images
        → IfOk result (λ left. StandsFor (images 0) (images 1) left) }
    ensures history { (id_of : Kind → List ℕ → List ℕ) → IsHistory id_of history.now
        → ((e : AnEvent) → more.now ≡ Some e → May id_of (replay history.now) e)
        → IfOk result (IsHistory id_of) }
{
    let gate = gate_of(history)?;
    let mut left = events_again(alloc, history)?;
    let Some(event) = more else {
        return Ok(left);
    };
    if !is_open_at(ledger, gate) {
        return Ok(left);
    }
    let joined = event.again(alloc)?;
    left.push(joined)?;
    Ok(left)
}

/// What is left is opened, if a crash may leave it.
pub fn crash_step<N: Namer>(
    alloc: Global,
    _namer: N,
    parts: &Parts,
    flight: &Option<(u32, Wish, u32)>,
    store: &[u8],
    ledger: &[u8],
) -> Result<(Told, Parts), StepFault>
    requires world { IsWorld N.id_of parts.now }
    requires meant { IsMeant N.id_of (length parts.now.seen) (Crash flight.now store.now ledger.now) }
    ensures ok { IfOk result (λ r. IsWorldStep N.id_of parts.now (Crash flight.now store.now ledger.now) (Ok r.0) r.1) }
    ensures err { IfErr result (λ f. IsWorldStep N.id_of parts.now (Crash flight.now store.now ledger.now) (Err f) parts.now) }
{
    let caught = catch_files(alloc, parts, flight)?;
    if !is_image(&caught.disks.ledger, ledger) {
        return Err(StepFault::NotImage { file: 0 });
    }
    if !is_image(&caught.disks.store, store) {
        return Err(StepFault::NotImage { file: 1 });
    }
    let history = history_left(alloc, parts.history.as_slice(), &caught.more, ledger)?;
    let events = history.as_slice().len() as u64;
    let next = reopen(alloc, parts, history, ledger, store)?;
    Ok((Told::Opened { events }, next))
}
