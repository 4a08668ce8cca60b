//! Wishes that are carried out, or of which a device call fails.
ghost use Rattle.std.specs.Prelude.{◌≡◌, ◌↔◌, ◌≤◌, ◌+◌, ◌<◌, IfOk, IsTrue, length, map, take};
ghost use Rattle.swh_model.specs.Happens.{IsSomeHistory};
ghost use Rattle.swh_segment.specs.Calls.{calls_for};
ghost use Rattle.swh_core.specs.declared.step.Held.TheVariants.{Older};
ghost use Rattle.swh_core.specs.declared.step.Told.TheVariants as told;
ghost use Rattle.swh_core.specs.World.{sees, all_shown, sees_all, joined, in_doubt};
ghost use Rattle.swh_core.specs.Step.{Applies, Faults};
ghost use Rattle.swh_core.specs.Answers.{file_call, IsSomeWish};

use crate::call::EventCall;
use crate::copies::events_again;
use crate::judging::{Judgement, judge_wish};
use crate::parts::{Parts, join, leave_in_doubt, parts_again, see, show_all};
use crate::step::{Held, Told};
use std::alloc::Global;
use swh_base::Memory;
use swh_model::{Event, No, Outcome, Wish};

/// Shows all that waited, and lets the actor see it.
fn refuse(alloc: Global, parts: &Parts, actor: u32, cause: No) -> Result<(Told, Parts), Memory>
    requires { actor < length parts.now.seen }
    ensures { IfOk result (λ r. r ≡ (told.No cause, sees_all actor parts.now)) }
{
    let mut next = parts_again(alloc, parts)?;
    show_all(&mut next);
    let front = events_again(alloc, next.history.as_slice())?;
    see(alloc, &mut next, actor, front)?;
    Ok((Told::No(cause), next))
}

/// Adds an event, and lets the actor see it.
fn finish(
    alloc: Global,
    parts: &Parts,
    actor: u32,
    event: Event,
    outcome: Outcome,
    calls: &[EventCall],
) -> Result<(Told, Parts), Memory>
    requires actor { actor < length parts.now.seen }
    requires calls { map file_call calls.now ≡ calls_for parts.now.history event }
    ensures { IfOk result (λ r. r ≡ (told.Done outcome, sees_all actor (joined event parts.now))) }
{
    let mut next = parts_again(alloc, parts)?;
    join(alloc, &mut next, event, calls)?;
    show_all(&mut next);
    let front = events_again(alloc, next.history.as_slice())?;
    see(alloc, &mut next, actor, front)?;
    Ok((Told::Done(outcome), next))
}

/// Adds an event, which waits to be shown.
fn wait(
    alloc: Global,
    parts: &Parts,
    event: Event,
    calls: &[EventCall],
) -> Result<(Told, Parts), Memory>
    requires { map file_call calls.now ≡ calls_for parts.now.history event }
    ensures { IfOk result (λ r. r ≡ (told.Waits (length parts.now.history + 1), joined event (all_shown parts.now))) }
{
    let mut next = parts_again(alloc, parts)?;
    show_all(&mut next);
    join(alloc, &mut next, event, calls)?;
    let event = next.history.as_slice().len() as u64;
    Ok((Told::Waits { event }, next))
}

/// Leaves an event in doubt.
fn doubt(
    alloc: Global,
    parts: &Parts,
    event: Event,
    calls: &[EventCall],
    call: u32,
) -> Result<(Told, Parts), Memory>
    requires { map file_call calls.now ≡ calls_for parts.now.history event }
    ensures { IfOk result (λ r. r ≡ (told.Doubt (length parts.now.history + 1), in_doubt event call (all_shown parts.now))) }
{
    let mut next = parts_again(alloc, parts)?;
    show_all(&mut next);
    leave_in_doubt(alloc, &mut next, event, calls, call)?;
    let event = next.history.as_slice().len() as u64 + 1;
    Ok((Told::Doubt { event }, next))
}

/// Says whether events wait, and showing them is refused.
fn is_held_back(parts: &Parts, held: Held) -> bool
    ensures { IsTrue result ↔ (held ≡ Older) × (parts.now.shown < length parts.now.history) }
{
    match held {
        Held::Older => parts.shown < parts.history.as_slice().len(),
        Held::No => false,
        Held::Newest => false,
    }
}

/// An actor's wish.
pub fn apply_step(
    alloc: Global,
    parts: &Parts,
    actor: u32,
    wish: &Wish,
    held: Held,
) -> Result<(Told, Parts), Memory>
    requires actor { actor < length parts.now.seen }
    requires shown { parts.now.shown ≤ length parts.now.history }
    requires history { IsSomeHistory parts.now.history }
    requires wish { IsSomeWish wish.now }
    ensures { IfOk result (λ r. Applies actor wish.now held parts.now r.0 r.1) }
{
    if parts.doubt.is_some() {
        return Ok((Told::Wounded, parts_again(alloc, parts)?));
    }
    if is_held_back(parts, held) {
        return Ok((Told::Untaken, parts_again(alloc, parts)?));
    }
    match judge_wish(alloc, parts.history.as_slice(), actor, wish)? {
        Judgement::Refused(cause) => refuse(alloc, parts, actor, cause),
        Judgement::Allowed {
            event,
            outcome,
            calls,
        } => match held {
            Held::Newest => wait(alloc, parts, event, &calls),
            Held::No => finish(alloc, parts, actor, event, outcome, &calls),
            Held::Older => finish(alloc, parts, actor, event, outcome, &calls),
        },
    }
}

/// An actor's wish, of whose event a device call fails.
pub fn fault_step(
    alloc: Global,
    parts: &Parts,
    actor: u32,
    wish: &Wish,
    call: u32,
) -> Result<(Told, Parts), Memory>
    requires history { IsSomeHistory parts.now.history }
    requires wish { IsSomeWish wish.now }
    ensures { IfOk result (λ r. Faults actor wish.now call parts.now r.0 r.1) }
{
    if parts.doubt.is_some() {
        return Ok((Told::Wounded, parts_again(alloc, parts)?));
    }
    match judge_wish(alloc, parts.history.as_slice(), actor, wish)? {
        Judgement::Refused(cause) => {
            let mut next = parts_again(alloc, parts)?;
            show_all(&mut next);
            Ok((Told::No(cause), next))
        }
        Judgement::Allowed { event, calls, .. } => doubt(alloc, parts, event, &calls, call),
    }
}

/// An actor sees what is shown.
pub fn look_step(alloc: Global, parts: &Parts, actor: u32) -> Result<(Told, Parts), Memory>
    requires actor { actor < length parts.now.seen }
    requires shown { parts.now.shown ≤ length parts.now.history }
    ensures { IfOk result (λ r. r ≡ (told.Front parts.now.shown, sees actor (take parts.now.shown parts.now.history) parts.now)) }
{
    let mut next = parts_again(alloc, parts)?;
    let front = events_again(alloc, &parts.history.as_slice()[..parts.shown])?;
    see(alloc, &mut next, actor, front)?;
    let front = next.shown as u64;
    Ok((Told::Front { front }, next))
}
