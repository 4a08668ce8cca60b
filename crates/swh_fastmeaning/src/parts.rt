//! What a loader is made of.

use crate::aims::MarksAndTips;
use swh_base::Namer;
use swh_dedup::Seen;
use swh_trees::Trees;

/// The parts of a loader: the trees of commits, what marks and tips lead to, and the objects that were given.
#[derive(Drop)]
pub struct Parts<N: Namer> {
    pub namer: N,
    pub trees: Trees<N>,
    pub aims: MarksAndTips,
    pub seen: Seen<N>,
}
