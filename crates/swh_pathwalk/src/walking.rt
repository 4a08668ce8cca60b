//! The steps of such a walk.
ghost use Rattle.std.specs.Prelude.{◌≡◌, IfOk, Contains};
ghost use Rattle.swh_graph.specs.Path.{directory_name};
ghost use Rattle.swh_pathwalk.specs.Walk.{BeginsAt, Steps};
ghost use Rattle.swh_pathwalk.specs.Weight.{LeadInto};
ghost use Rattle.swh_pathwalk.specs.Held.{IsHeldOrder};

use crate::walk::PathWalk;
use std::alloc::Global;
use swh_base::{Memory, Name};
use swh_dirfmt::SpelledEntry;
use swh_graph::GraphFault;
use swh_model::Look;

/// A walk over the paths of a directory in the order. Fails where memory runs out.
pub fn begin<'a, L: Look>(
    alloc: Global,
    look: &'a L,
    order: &[Name],
    directory: [u8; 20],
) -> Result<PathWalk<'a>, Memory>
    requires order { IsHeldOrder (L.children_of look.now) order.now }
    requires there { Contains order.now (directory_name directory) }
    ensures { IfOk result (λ walk. BeginsAt (L.archive look.now).bodies (directory_name directory) walk) }
{
    look.is_graph();
    match PathWalk::begin(alloc, look, directory) {
        Ok(walk) => Ok(walk),
        Err(GraphFault::Memory) => Err(Memory),
        Err(GraphFault::NotHeld { .. }) => unreachable!(),
        Err(GraphFault::NoPath { .. }) => unreachable!(),
    }
}

/// The next entry of a walk whose folders are in the order; none at the end. Fails where memory runs out.
pub fn next<'a, L: Look>(
    alloc: Global,
    look: &'a L,
    order: &[Name],
    walk: &mut PathWalk<'a>,
) -> Result<Option<SpelledEntry<'a>>, Memory>
    requires order { IsHeldOrder (L.children_of look.now) order.now }
    requires leads { LeadInto order.now walk.old.levels }
    ensures { IfOk result (λ found. Steps (L.archive look.now).bodies walk.old found walk.new) }
{
    look.is_graph();
    match walk.next(alloc, look) {
        Ok(found) => Ok(found),
        Err(GraphFault::Memory) => Err(Memory),
        Err(GraphFault::NotHeld { .. }) => unreachable!(),
        Err(GraphFault::NoPath { .. }) => unreachable!(),
    }
}
