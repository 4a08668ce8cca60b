// Who loads, and what a gate is told of it.
use swh_outside::Gate;

/// A worker: by whom its events are, and its gate, with the worker's number there.
#[derive(Drop)]
pub struct Worker<'a, G: Gate> {
    pub by: u32,
    pub gate: &'a G,
    pub number: u32,
}

/// A worker at one of its jobs, which are numbered from 1.
#[derive(Drop)]
pub struct Turn<'a, G: Gate> {
    pub worker: &'a Worker<'a, G>,
    pub job: u32,
}
