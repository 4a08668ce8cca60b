//! Steps that are drawn at random.
ghost use Rattle.std.specs.Prelude.{◌<◌, IfOk};
ghost use Rattle.swh_core.specs.Step.{IsMeant};

use crate::doing::{ACTORS, Doing, step_of};
use crate::images::draw_image;
use crate::wished::{Mark, Wished, wish_of};
use crate::worked::{
    Body, CONTENT, DIRECTORY, OTHER_CONTENT, OTHER_DIRECTORY, OTHER_SNAPSHOT, OTHER_SNAPSHOT_ID,
    SNAPSHOT, SNAPSHOT_ID,
};
use std::alloc::Global;
use std::test::Fail;
use swh_base::Namer;
use swh_core::{Held, Step};
use swh_model::Wish;
use swh_naive_core::{Machine, files_at_crash};

/// The numbers of a linear congruential generator.
#[derive(Drop)]
pub struct Draws {
    state: u64,
}

impl Draws {
    pub fn new(seed: u64) -> Draws {
        Draws { state: seed }
    }

    /// A number below another, or 0 where there is none.
    pub fn below(&mut self, bound: usize) -> usize {
        self.state = self
            .state
            .wrapping_mul(6_364_136_223_846_793_005)
            .wrapping_add(1_442_695_040_888_963_407);
        let drawn = (self.state >> 32) as usize;
        drawn.checked_rem(bound).unwrap_or(0)
    }

    fn actor(&mut self) -> u32 {
        u32::try_from(self.below(ACTORS as usize)).unwrap_or(0)
    }

    fn number(&mut self, bound: usize) -> u32 {
        u32::try_from(self.below(bound)).unwrap_or(0)
    }
}

const ORIGINS: &[&str] = &["https://e.org/p", "https://e.org/q"];

const BATCHES: &[&[Body]] = &[
    &[],
    &[CONTENT],
    &[DIRECTORY],
    &[SNAPSHOT],
    &[OTHER_CONTENT, OTHER_CONTENT],
    &[OTHER_SNAPSHOT, OTHER_DIRECTORY],
    &[CONTENT, DIRECTORY, SNAPSHOT],
    &[OTHER_CONTENT, OTHER_DIRECTORY, OTHER_SNAPSHOT],
];

const MARKS: &[Mark] = &[
    Mark::Ongoing,
    Mark::Ongoing,
    Mark::Full(SNAPSHOT_ID),
    Mark::Full(OTHER_SNAPSHOT_ID),
    Mark::Partial(None),
    Mark::Partial(Some(SNAPSHOT_ID)),
    Mark::NotFound,
    Mark::Failed,
];

fn draw_origin(draws: &mut Draws) -> &'static str {
    let place = draws.below(ORIGINS.len());
    ORIGINS.get(place).copied().unwrap_or("https://e.org/")
}

fn draw_batch(draws: &mut Draws) -> &'static [Body] {
    let place = draws.below(BATCHES.len());
    BATCHES.get(place).copied().unwrap_or(&[])
}

fn draw_mark(draws: &mut Draws) -> Mark {
    let place = draws.below(MARKS.len());
    MARKS.get(place).copied().unwrap_or(Mark::Failed)
}

fn draw_wish(draws: &mut Draws) -> Wished {
    match draws.below(4) {
        0 => Wished::Open(draw_origin(draws)),
        1 => Wished::Batch(draw_batch(draws)),
        _ => {
            let origin = draw_origin(draws);
            let visit = draws.below(4) as u64;
            Wished::Mark(origin, visit, draw_mark(draws))
        }
    }
}

fn draw_held(draws: &mut Draws) -> Held {
    match draws.below(4) {
        0 => Held::Older,
        1 => Held::Newest,
        _ => Held::No,
    }
}

fn draw_flight(draws: &mut Draws) -> Option<(u32, Wished, u32)> {
    if draws.below(3) == 0 {
        return None;
    }
    let actor = draws.actor();
    let wished = draw_wish(draws);
    Some((actor, wished, draws.number(7)))
}

fn flight_of<N: Namer>(
    alloc: Global,
    namer: N,
    flight: Option<(u32, Wished, u32)>,
) -> Result<Option<(u32, Wish, u32)>, Fail> {
    match flight {
        Some((actor, wished, made)) => Ok(Some((actor, wish_of(alloc, namer, wished)?, made))),
        None => Ok(None),
    }
}

fn draw_crash<N: Namer>(
    alloc: Global,
    namer: N,
    draws: &mut Draws,
    machine: &Machine,
) -> Result<Step, Fail>
    ensures { IfOk result (IsMeant N.id_of 3) }
{
    let flight = draw_flight(draws);
    let in_flight = flight_of(alloc, namer, flight)?;
    let (files, _event) = files_at_crash(alloc, machine, &in_flight)?;
    let ledger = draw_image(alloc, draws, &files.ledger)?;
    let store = draw_image(alloc, draws, &files.store)?;
    step_of(alloc, namer, Doing::Crash(flight, &store, &ledger))
}

/// A step of the world as the machine has it.
pub fn draw_step<N: Namer>(
    alloc: Global,
    namer: N,
    draws: &mut Draws,
    machine: &Machine,
) -> Result<Step, Fail>
    ensures { IfOk result (IsMeant N.id_of 3) }
{
    let actor = draws.actor();
    match draws.below(10) {
        0 => step_of(alloc, namer, Doing::Look(actor)),
        1 => draw_crash(alloc, namer, draws, machine),
        2 => draw_crash(alloc, namer, draws, machine),
        3 => {
            let wished = draw_wish(draws);
            let call = draws.number(7).saturating_add(1);
            step_of(alloc, namer, Doing::Fault(actor, wished, call))
        }
        _ => {
            let wished = draw_wish(draws);
            let held = draw_held(draws);
            step_of(alloc, namer, Doing::Apply(actor, wished, held))
        }
    }
}
