// What loads of all kinds of input have in common.
use std::alloc::Global;
use swh_base::{Namer, Url};
use swh_ingest::Turn;
use swh_outside::Gate;

/// A load that is to be done: with what its objects are made and named, at whose turn, of which origin, and when.
#[derive(Drop)]
pub struct Task<'a, N: Namer, G: Gate> {
    pub alloc: Global,
    pub namer: &'a N,
    pub turn: &'a Turn<'a, G>,
    pub origin: &'a Url,
    pub date: u64,
}
