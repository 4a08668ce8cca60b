//! The verdict of a history on a wish, one function a kind.
ghost use Rattle.std.specs.Prelude.{◌≡◌, ◌+◌, IfOk, IfErr, Ok, length};
ghost use Rattle.swh_model.specs.declared.event.Wish.TheVariants.{Batch, Open, Mark};
ghost use Rattle.swh_model.specs.Step.{replay};
ghost use Rattle.swh_model.specs.Judge.{IsVerdict, FilePasses};
ghost use Rattle.swh_model.specs.Judged.{NonePasses};
ghost use Rattle.swh_model.specs.Happens.{IsSomeHistory, IsRefusedWish, PassesFile};

use crate::adding::limit_of_batch;
use crate::event::{Event, EventKind, No, Outcome, Wish};
use crate::fault::JudgeFault;
use crate::fresh::{find_collision, fresh_of};
use crate::lengths::file_limit;
use crate::marking::visit_refusal;
use crate::replaying::replay;
use crate::standing::snapshot_refusal;
use crate::state::State;
use std::alloc::Global;
use swh_base::{Entry, Items, Status, Url, VisitKind};

/// Refuses an event that would make a file too long.
fn fit_files(history: &[Event], event: &EventKind) -> Result<(), JudgeFault>
    ensures ok { IfOk result (λ _. NonePasses (FilePasses history.now event.now)) }
    ensures err { IfErr result (PassesFile history.now event.now) }
{
    match file_limit(history, event)? {
        Some((which, number)) => Err(JudgeFault::Refused(No::Limit { which, number })),
        None => Ok(()),
    }
}

fn judge_batch(
    alloc: Global,
    history: &[Event],
    state: &State,
    by: u32,
    entries: &[Entry],
) -> Result<(Event, Outcome), JudgeFault>
    requires { state.now ≡ replay history.now }
    ensures ok { IfOk result (λ given. IsVerdict history.now by (Batch entries.now) (Ok given)) }
    ensures err { IfErr result (IsRefusedWish history.now by (Batch entries.now)) }
{
    if let Some((which, number)) = limit_of_batch(entries) {
        return Err(JudgeFault::Refused(No::Limit { which, number }));
    }
    let fresh = fresh_of(alloc, state, entries)?;
    let collision = find_collision(state, fresh.as_slice(), entries);
    let new = fresh.as_slice().len() as u32;
    let what = EventKind::Batch(Items::from_vec(fresh));
    fit_files(history, &what)?;
    if let Some(name) = collision {
        return Err(JudgeFault::Refused(No::Collision { name }));
    }
    let event = history.len() as u64 + 1;
    Ok((Event { by, what }, Outcome::Added { event, new }))
}

fn judge_open(
    alloc: Global,
    history: &[Event],
    state: &State,
    by: u32,
    origin: &Url,
    kind: VisitKind,
    date: u64,
) -> Result<(Event, Outcome), JudgeFault>
    requires { state.now ≡ replay history.now }
    ensures ok { IfOk result (λ given. IsVerdict history.now by (Open origin.now kind date) (Ok given)) }
    ensures err { IfErr result (IsRefusedWish history.now by (Open origin.now kind date)) }
{
    let visit = state.visits(origin).len() as u64 + 1;
    let origin = origin.again(alloc)?;
    let what = EventKind::Open { origin, kind, date };
    fit_files(history, &what)?;
    let event = history.len() as u64 + 1;
    Ok((Event { by, what }, Outcome::Opened { event, visit }))
}

fn judge_mark(
    alloc: Global,
    history: &[Event],
    state: &State,
    by: u32,
    origin: &Url,
    visit: u64,
    mark: (Status, Option<[u8; 20]>),
) -> Result<(Event, Outcome), JudgeFault>
    requires { state.now ≡ replay history.now }
    ensures ok { IfOk result (λ given. IsVerdict history.now by (Mark origin.now visit mark.0 mark.1) (Ok given)) }
    ensures err { IfErr result (IsRefusedWish history.now by (Mark origin.now visit mark.0 mark.1)) }
{
    let (status, snapshot) = mark;
    let what = EventKind::Mark {
        origin: origin.again(alloc)?,
        visit,
        status,
        snapshot,
    };
    fit_files(history, &what)?;
    if let Some(cause) = visit_refusal(state.visits(origin), by, visit) {
        return Err(JudgeFault::Refused(cause));
    }
    if let Some(cause) = snapshot_refusal(alloc, state, status, &snapshot)? {
        return Err(JudgeFault::Refused(cause));
    }
    let event = history.len() as u64 + 1;
    Ok((Event { by, what }, Outcome::Marked { event }))
}

/// The event of a wish and what comes of it, or the first cause against the wish, in the order of `No`. It is asked that
/// the events are a history.
pub fn judge(
    alloc: Global,
    history: &[Event],
    by: u32,
    wish: &Wish,
) -> Result<(Event, Outcome), JudgeFault>
    requires { IsSomeHistory history.now }
    ensures ok { IfOk result (λ given. IsVerdict history.now by wish.now (Ok given)) }
    ensures err { IfErr result (IsRefusedWish history.now by wish.now) }
{
    let Some(state) = replay(alloc, history)? else {
        unreachable!()
    };
    match wish {
        Wish::Batch(entries) => judge_batch(alloc, history, &state, by, entries.as_slice()),
        Wish::Open { origin, kind, date } => {
            judge_open(alloc, history, &state, by, origin, *kind, *date)
        }
        Wish::Mark {
            origin,
            visit,
            status,
            snapshot,
        } => judge_mark(
            alloc,
            history,
            &state,
            by,
            origin,
            *visit,
            (*status, *snapshot),
        ),
    }
}
