//! The world, and its steps.
ghost use Rattle.std.specs.Prelude.{Ok, Err, IfOk, IfErr, length};
ghost use Rattle.swh_core.specs.Step.{IsWorldStep, IsMeant};
ghost use Rattle.swh_core.specs.Kept.{IsWorld};

use crate::applying::{apply_step, fault_step, look_step};
use crate::crashing::crash_step;
use crate::parts::{Parts, first_parts};
use crate::step::{Step, StepFault, Told};
use std::alloc::Global;
use std::collections::VecDeque;
use std::marker::Model;
use swh_base::{Memory, Namer};
use swh_model::Event;

/// One archive, its two files and what each actor has seen. Every world keeps that the replay of its history is sound, that
/// all that was shown or seen is a front of it, and that all a crash may leave of the files stands for it: where an event is
/// in doubt, with that event or without it.
#[derive(Drop)]
pub struct World<N: Namer> {
    alloc: Global,
    namer: N,
    parts: Parts,
}

impl<N: Namer> Model for World<N> {
    ghost use Rattle.swh_core.specs.declared.parts.Parts.{Parts};
    ghost use Rattle.swh_core.specs.Kept.{IsWorld};

    ghost Value = { Parts };

    ghost view = { λ w. w.parts };

    ghost invariant = { λ w. IsWorld N.id_of w.parts };
}

fn take_step<N: Namer>(
    alloc: Global,
    namer: N,
    parts: &Parts,
    step: Step,
) -> Result<(Told, Parts), StepFault>
    requires world { IsWorld N.id_of parts.now }
    requires meant { IsMeant N.id_of (length parts.now.seen) step }
    ensures ok { IfOk result (λ r. IsWorldStep N.id_of parts.now step (Ok r.0) r.1) }
    ensures err { IfErr result (λ f. IsWorldStep N.id_of parts.now step (Err f) parts.now) }
{
    match step {
        Step::Apply { actor, wish, held } => Ok(apply_step(alloc, parts, actor, &wish, held)?),
        Step::Look { actor } => Ok(look_step(alloc, parts, actor)?),
        Step::Fault { actor, wish, call } => Ok(fault_step(alloc, parts, actor, &wish, call)?),
        Step::Crash {
            flight,
            store,
            ledger,
        } => crash_step(
            alloc,
            namer,
            parts,
            &flight,
            store.as_slice(),
            ledger.as_slice(),
        ),
    }
}

impl<N: Namer> World<N> {
    ghost use Rattle.std.specs.Prelude.{◌≡◌, Ok, Err, IfOk, IfErr, length};
    ghost use Rattle.std.specs.List.{AllByRecursion};
    ghost use Rattle.swh_core.specs.World.{first_world};
    ghost use Rattle.swh_core.specs.Step.{IsWorldStep, IsRun, IsMeant};
    ghost use Rattle.swh_core.specs.Kept.{IsWorld, IsLater};

    /// A made, empty archive, of which so many actors have seen nothing.
    pub fn new(alloc: Global, namer: N, actors: u32) -> Result<World<N>, Memory>
        ensures { IfOk result (λ world. world ≡ first_world actors) }
    {
        Ok(World {
            alloc,
            namer,
            parts: first_parts(alloc, actors)?,
        })
    }

    /// Takes one step. Where it is refused the world is as it was.
    pub fn step(&mut self, step: Step) -> Result<Told, StepFault>
        requires { IsMeant N.id_of (length self.old.seen) step }
        ensures step { IsWorldStep N.id_of self.old step result self.new }
        ensures kept { IsWorld N.id_of self.new }
        ensures later { IsLater self.old self.new }
    {
        let (told, parts) = take_step(self.alloc, self.namer, &self.parts, step)?;
        self.parts = parts;
        Ok(told)
    }

    /// Takes these steps, one after another, up to the first that is refused. The world is then as those before it made it. A
    /// list without steps is never refused.
    pub fn run(&mut self, steps: Vec<Step>) -> Result<Vec<Told>, StepFault>
        requires { AllByRecursion (IsMeant N.id_of (length self.old.seen)) steps.items }
        ensures ok { IfOk result (λ told. IsRun N.id_of self.old steps.items (Ok told.items) self.new) }
        ensures err { IfErr result (λ fault. IsRun N.id_of self.old steps.items (Err fault) self.new) }
        ensures kept { IsWorld N.id_of self.new }
        ensures later { IsLater self.old self.new }
    {
        if steps.is_empty() {
            return Ok(Vec::new(self.alloc));
        }
        let mut told = match Vec::with_capacity(self.alloc, steps.len()) {
            Ok(told) => told,
            Err(_) => return Err(StepFault::Memory),
        };
        let mut left = VecDeque::from_vec(steps);
        'steps: while let Some(step) = left.pop_front() {
            match self.step(step) {
                Ok(answer) => told.push_reserved(answer),
                Err(fault) => return Err(fault),
            }
        }
        Ok(told)
    }

    /// The events so far, the newest last, and what every world keeps.
    pub fn history(&self) -> &[Event]
        ensures value { result.now ≡ self.now.history }
        ensures kept { IsWorld N.id_of self.now }
    {
        self.parts.history.as_slice()
    }
}
