//! What is told of a step, as a value that is compared.
use swh_base::{Name, Status};
use swh_core::{StepFault, Told};
use swh_model::{No, Outcome};

/// What happened, with the number of the event and of the visit, or how many objects are new; or why nothing did.
#[derive(Clone, Copy, Debug, PartialEq, Eq)]
pub enum Said {
    Visit(u64, u64),
    Objects(u64, u32),
    Marked(u64),
    Waits(u64),
    Untaken,
    NoVisit(u64),
    NotYours(u32),
    Ended(Status),
    NoSnapshot(Name),
    NotClosed(Name, Name),
    /// A limit or a collision, which no test here meets.
    Other,
    Wounded,
    Front(u64),
    Doubt(u64),
    Opened(u64),
    NotImage(u32),
    /// What a crash left stands for no history that the naive machine knows.
    Broken,
    Memory,
}

fn said_of_outcome(outcome: Outcome) -> Said {
    match outcome {
        Outcome::Opened { event, visit } => Said::Visit(event, visit),
        Outcome::Added { event, new } => Said::Objects(event, new),
        Outcome::Marked { event } => Said::Marked(event),
    }
}

fn said_of_cause(cause: No) -> Said {
    match cause {
        No::Limit { .. } => Said::Other,
        No::NoVisit { have } => Said::NoVisit(have),
        No::NotYours { by } => Said::NotYours(by),
        No::Ended { status } => Said::Ended(status),
        No::NoSnapshot { name } => Said::NoSnapshot(name),
        No::NotClosed { parent, child } => Said::NotClosed(parent, child),
        No::Collision { .. } => Said::Other,
    }
}

pub fn said_of_told(told: Told) -> Said {
    match told {
        Told::Done(outcome) => said_of_outcome(outcome),
        Told::Waits { event } => Said::Waits(event),
        Told::Untaken => Said::Untaken,
        Told::No(cause) => said_of_cause(cause),
        Told::Wounded => Said::Wounded,
        Told::Front { front } => Said::Front(front),
        Told::Doubt { event } => Said::Doubt(event),
        Told::Opened { events } => Said::Opened(events),
    }
}

pub fn said_of(answer: Result<Told, StepFault>) -> Said {
    match answer {
        Ok(told) => said_of_told(told),
        Err(StepFault::NotImage { file }) => Said::NotImage(file),
        Err(StepFault::Memory) => Said::Memory,
    }
}
