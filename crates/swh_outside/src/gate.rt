// A place where a worker is held in tests, so that a test chooses who goes first.

/// A gate on both sides of the mark of a full visit. Both calls are told the number of the worker and that of the job,
/// each from 1. They answer nothing, and may hold the caller.
pub trait Gate: Sync {
    /// The worker is about to have the mark applied that makes the visit of the job full.
    fn before(&self, worker: u32, job: u32);

    /// That mark is acknowledged.
    fn after(&self, worker: u32, job: u32);
}

/// Holds nobody.
#[derive(Clone, Copy, Debug, PartialEq, Eq)]
pub struct OpenGate;

impl Gate for OpenGate {
    fn before(&self, _worker: u32, _job: u32) {}

    fn after(&self, _worker: u32, _job: u32) {}
}
