//! What a keeper answers to a plan, as a value that is compared.
use swh_base::{Name, Status};
use swh_keeper::{Outcome, Refusal};

/// The number of the event with what came of it, or why there is none.
#[derive(Clone, Copy, PartialEq, Eq)]
pub enum Told {
    Opened(u64, u64),
    Added(u64, u32),
    Marked(u64),
    Wounded(u64),
    NoVisit(u64),
    NotYours(u32),
    Ended(Status),
    NoSnapshot(Name),
    NotClosed(Name, Name),
    Collision(Name),
    DiskFault,
    /// A limit, or memory.
    Other,
}

fn told_of_outcome(outcome: Outcome) -> Told {
    match outcome {
        Outcome::Opened { event, visit } => Told::Opened(event, visit),
        Outcome::Added { event, new } => Told::Added(event, new),
        Outcome::Marked { event } => Told::Marked(event),
    }
}

fn told_of_refusal(refusal: Refusal) -> Told {
    match refusal {
        Refusal::Wounded { first } => Told::Wounded(first),
        Refusal::NoVisit { have } => Told::NoVisit(have),
        Refusal::NotYours { by } => Told::NotYours(by),
        Refusal::Ended { status } => Told::Ended(status),
        Refusal::NoSnapshot { name } => Told::NoSnapshot(name),
        Refusal::NotClosed { parent, child } => Told::NotClosed(parent, child),
        Refusal::Collision { name } => Told::Collision(name),
        Refusal::DiskFault => Told::DiskFault,
        Refusal::Limit { .. } | Refusal::Memory { .. } => Told::Other,
    }
}

pub fn told_of(answer: Result<Outcome, Refusal>) -> Told {
    match answer {
        Ok(outcome) => told_of_outcome(outcome),
        Err(refusal) => told_of_refusal(refusal),
    }
}
