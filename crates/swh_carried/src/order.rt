//! The order of what is reached, where all of it is held and nothing is reached from itself.
ghost use Rattle.std.specs.Prelude.{IfOk, IfErr};
ghost use Rattle.swh_postorder.specs.Postorder.{IsPostorder};
ghost use Rattle.swh_carried.specs.Uncarried.{HasNoCycle, ExplainsNoOrder};

use crate::fault::{CookFault, Why};
use std::alloc::Global;
use swh_base::{Graph, Name};
use swh_postorder::{OrderFault, first_on_cycle, postorder};

/// The names that are reached from the root, in the order in which a walk leaves them. Fails with the first name that the
/// walk enters and that is not held; where all are held, with the first in the order that is reached from itself; or where
/// memory runs out.
pub fn acyclic_order<G: Graph>(alloc: Global, graph: &G, root: Name) -> Result<Vec<Name>, CookFault>
    ensures ok { IfOk result (λ order. IsPostorder (G.children_of graph.now) root order.items) }
    ensures acyclic { IfOk result (λ order. HasNoCycle (G.children_of graph.now) order.items) }
    ensures err { IfErr result (ExplainsNoOrder (G.children_of graph.now) root) }
{
    let order = match postorder(alloc, graph, root) {
        Ok(order) => order,
        Err(OrderFault::NotHeld { name }) => return Err(CookFault::NotHeld { name }),
        Err(OrderFault::Memory) => return Err(CookFault::Memory),
    };
    match first_on_cycle(alloc, graph, order.as_slice()) {
        Ok(None) => Ok(order),
        Ok(Some(name)) => Err(CookFault::Uncarried {
            name,
            why: Why::Cycle,
        }),
        Err(_) => Err(CookFault::Memory),
    }
}
