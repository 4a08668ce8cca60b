//! What is answered to a wish, as a value that is compared.
use swh_base::{Name, Status, Which};
use swh_model::{JudgeFault, No, Outcome};

/// The number of the event with what came of it, or the cause against it.
#[derive(Clone, Copy, PartialEq, Eq)]
pub enum Told {
    Opened(u64, u64),
    Added(u64, u32),
    Marked(u64),
    Limit(Which, u64),
    NoVisit(u64),
    NotYours(u32),
    Ended(Status),
    NoSnapshot(Name),
    NotClosed(Name, Name),
    Collision(Name),
    Memory,
}

fn told_of_outcome(outcome: Outcome) -> Told {
    match outcome {
        Outcome::Opened { event, visit } => Told::Opened(event, visit),
        Outcome::Added { event, new } => Told::Added(event, new),
        Outcome::Marked { event } => Told::Marked(event),
    }
}

fn told_of_cause(cause: No) -> Told {
    match cause {
        No::Limit { which, number } => Told::Limit(which, number),
        No::NoVisit { have } => Told::NoVisit(have),
        No::NotYours { by } => Told::NotYours(by),
        No::Ended { status } => Told::Ended(status),
        No::NoSnapshot { name } => Told::NoSnapshot(name),
        No::NotClosed { parent, child } => Told::NotClosed(parent, child),
        No::Collision { name } => Told::Collision(name),
    }
}

pub fn told_of(answer: Result<Outcome, JudgeFault>) -> Told {
    match answer {
        Ok(outcome) => told_of_outcome(outcome),
        Err(JudgeFault::Refused(cause)) => told_of_cause(cause),
        Err(JudgeFault::Memory) => Told::Memory,
    }
}
