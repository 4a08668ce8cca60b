//! Names that are known to be closed, of which walks make more.
ghost use Rattle.std.specs.Prelude.{◌≡◌, ◌↔◌, ◌⊎◌, false, IsTrue, IfOk, OnOk, Contains};
ghost use Rattle.swh_base.specs.declared.name.Name.{Name};
ghost use Rattle.swh_base.specs.Reach.{ReachesIn, IsClosedIn};
ghost use Rattle.swh_closure.specs.Whole.{IsWholeIn};

use crate::closed::Closed;
use crate::walking::{WalkFault, reached};
use std::alloc::Global;
use swh_base::{Graph, Memory, Name};

/// Whether all that is reached from the root is held, where the names that are known to be closed have with each name
/// all that is reached from it. Where the root is closed, what is reached from it joins them. Where memory runs out, some
/// of it may have joined.
pub fn close<G: Graph>(
    alloc: Global,
    graph: &G,
    root: Name,
    closed: &mut Closed,
) -> Result<bool, Memory>
    requires { IsWholeIn (G.children_of graph.now) closed.old }
    ensures value { IfOk result (λ yes. IsTrue yes ↔ IsClosedIn (G.children_of graph.now) root) }
    ensures whole { OnOk result (IsWholeIn (G.children_of graph.now) closed.new) }
    ensures stays { (n : Name) → Contains closed.old n → Contains closed.new n }
    ensures only { (n : Name) → Contains closed.new n → Contains closed.old n ⊎ ReachesIn (G.children_of graph.now) root n }
    ensures all { IfOk result (λ yes. IsTrue yes → (n : Name) → ReachesIn (G.children_of graph.now) root n
        → Contains closed.new n) }
    ensures same { IfOk result (λ yes. yes ≡ false → closed.new ≡ closed.old) }
{
    match reached(alloc, graph, root, closed) {
        Ok(names) => {
            closed.join(names)?;
            Ok(true)
        }
        Err(WalkFault::Missing { .. }) => Ok(false),
        Err(WalkFault::Memory) => Err(Memory),
    }
}
