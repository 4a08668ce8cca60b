//! Random lists of steps: the world and the naive machine are told the same, and have the same history.
ghost use Rattle.std.specs.Prelude.{◌≡◌, length};
ghost use Rattle.swh_core.specs.Step.{IsMeant};

use crate::doing::ACTORS;
use crate::drawing::{Draws, draw_step};
use std::alloc::Global;
use std::test::Fail;
use swh_base::{Namer, Sha1Namer};
use swh_core::{Step, World};
use swh_naive_core::{Machine, Said, are_events, first_machine, said_of, take};

const LISTS: u64 = 200;

const STEPS: u32 = 40;

/// How many kinds of steps are told apart.
const KINDS: usize = 22;

/// The number of a cause against a wish.
fn kind_of_cause(said: Said) -> usize {
    match said {
        Said::NoVisit(_) => 3,
        Said::NotYours(_) => 4,
        Said::Ended(_) => 5,
        Said::NoSnapshot(_) => 6,
        Said::NotClosed(_, _) => 7,
        _ => 0,
    }
}

fn kind_of_crash(said: Said, is_flying: bool, before: usize) -> usize {
    match said {
        Said::NotImage(0) => 10,
        Said::NotImage(_) => 11,
        Said::Opened(events) => {
            if events > before as u64 {
                12
            } else {
                if is_flying { 13 } else { 14 }
            }
        }
        _ => 0,
    }
}

/// The number of the kind of step that this was: what was told, and of a batch that adds objects which device call failed.
fn kind_of(step: &Step, said: Said, machine: &Machine, before: usize) -> usize {
    match step {
        Step::Apply { .. } => match said {
            Said::Waits(_) => 1,
            Said::Untaken => 2,
            Said::Wounded => 8,
            cause => kind_of_cause(cause),
        },
        Step::Look { .. } => 9,
        Step::Fault { call, .. } => match &machine.doubt {
            Some(event) => {
                if event.run.is_empty() || said == Said::Wounded {
                    0
                } else {
                    (*call as usize).saturating_add(14)
                }
            }
            None => 0,
        },
        Step::Crash { flight, .. } => kind_of_crash(said, flight.is_some(), before),
    }
}

fn no_counts(alloc: Global) -> Result<Vec<u32>, Fail> {
    let mut counts = Vec::new(alloc);
    for _kind in 0..KINDS {
        counts.push(0)?;
    }
    Ok(counts)
}

fn count(counts: &mut Vec<u32>, kind: usize) {
    if let Some(number) = counts.get_mut(kind) {
        *number = number.saturating_add(1);
    }
}

/// Lets both take a step, and says whether they agree.
fn agree<N: Namer>(
    alloc: Global,
    world: &mut World<N>,
    machine: &mut Machine,
    step: Step,
    counts: &mut Vec<u32>,
) -> Result<bool, Fail>
    requires { IsMeant N.id_of (length world.old.seen) step }
    ensures { length world.new.seen ≡ length world.old.seen }
{
    let before = machine.events.len();
    let wanted = take(alloc, machine, &step)?;
    count(counts, kind_of(&step, wanted, machine, before));
    let said = said_of(world.step(step));
    Ok(said == wanted && are_events(world.history(), &machine.events))
}

/// Takes a drawn step.
fn draw_and_agree<N: Namer>(
    alloc: Global,
    namer: N,
    draws: &mut Draws,
    world: &mut World<N>,
    machine: &mut Machine,
    counts: &mut Vec<u32>,
) -> Result<bool, Fail>
    requires { length world.old.seen ≡ 3 }
    ensures { length world.new.seen ≡ 3 }
{
    let step = draw_step(alloc, namer, draws, machine)?;
    agree(alloc, world, machine, step, counts)
}

/// Says whether both agree over a list of steps of this seed, from an empty archive on.
fn agree_over<N: Namer>(
    alloc: Global,
    namer: N,
    seed: u64,
    counts: &mut Vec<u32>,
) -> Result<bool, Fail> {
    let mut draws = Draws::new(seed);
    let mut world = World::new(alloc, namer, ACTORS)?;
    let mut machine = first_machine(alloc, ACTORS)?;
    for _step in 0..STEPS {
        if !draw_and_agree(alloc, namer, &mut draws, &mut world, &mut machine, counts)? {
            return Ok(false);
        }
    }
    Ok(true)
}

#[test]
fn random_lists_of_steps(rt: HostRuntime) -> Result<(), Fail> {
    let mut counts = no_counts(rt.alloc())?;
    for seed in 0..LISTS {
        assert!(rt;
            agree_over(rt.alloc(), Sha1Namer, seed, &mut counts)?,
            "seed {seed}"
        );
    }
    for count in &counts {
        assert!(rt; *count >= 5, "{counts:?}");
    }
    Ok(())
}
