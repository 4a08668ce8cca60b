//! The first name that is reached from itself.
ghost use Rattle.std.specs.Prelude.{IsTrue, IfOk, IfSome, IfNone, Contains};
ghost use Rattle.swh_base.specs.declared.name.Name.{Name};
ghost use Rattle.swh_base.specs.Reach.{IsHeldIn, IsChildIn};
ghost use Rattle.swh_postorder.specs.Cycle.{IsOnCycle, IsFirstOnCycle, IsSomePostorder, ArePreceded};

use crate::places::Places;
use std::alloc::Global;
use swh_base::{Graph, Memory, Name};
use swh_closure::Closed;

/// The first of these names that is not in the set.
fn first_outside(set: &Closed, names: &[Name]) -> Option<Name>
    ensures some { IfSome result (λ name. Contains names.now name × (Contains set.now name → ⊥)) }
    ensures none { IfNone result ((n : Name) → Contains names.now n → Contains set.now n) }
{
    for name in names {
        if !set.contains(name) {
            return Some(*name);
        }
    }
    None
}

/// The first child of a name that is not in the set.
fn child_outside<G: Graph>(graph: &G, set: &Closed, name: &Name) -> Option<Name>
    requires { IsHeldIn (G.children_of graph.now) name.now }
    ensures some { IfSome result (λ child. IsChildIn (G.children_of graph.now) name.now child × (Contains set.now child → ⊥)) }
    ensures none { IfNone result ((n : Name) → IsChildIn (G.children_of graph.now) name.now n → Contains set.now n) }
{
    match graph.children_of(name) {
        Some(kids) => first_outside(set, kids),
        None => unreachable!(),
    }
}

/// Whether these children are all seen among the names before their parent.
fn are_seen(places: &Places, before: &[Name], kids: &[Name]) -> bool
    ensures { IsTrue result → (n : Name) → Contains kids.now n → Contains before.now n }
{
    for kid in kids {
        if !places.lead(before, kid) {
            return false;
        }
    }
    true
}

/// Whether the children of a name are all seen among the names before it.
fn has_seen_kids<G: Graph>(graph: &G, places: &Places, before: &[Name], name: &Name) -> bool
    ensures { IsTrue result → (n : Name) → IsChildIn (G.children_of graph.now) name.now n → Contains before.now n }
{
    match graph.children_of(name) {
        Some(kids) => are_seen(places, before, kids),
        None => false,
    }
}

/// Whether each child of these names is seen before its parent. Where it is not, it may stand there all the same.
fn are_seen_preceded<G: Graph>(alloc: Global, graph: &G, order: &[Name]) -> bool
    ensures { IsTrue result → ArePreceded (G.children_of graph.now) order.now }
{
    let mut places = Places::new(alloc, order.len());
    for (place, name) in order.iter().enumerate() {
        if !has_seen_kids(graph, &places, &order[..place], name) {
            return false;
        }
        places.note(name, place);
    }
    true
}

/// The first name in the order of which a child does not stand before it.
fn first_unpreceded<G: Graph>(
    alloc: Global,
    graph: &G,
    order: &[Name],
) -> Result<Option<Name>, Memory>
    requires { IsSomePostorder (G.children_of graph.now) order.now }
    ensures some { IfOk result (λ found. IfSome found (λ name. IsFirstOnCycle (G.children_of graph.now) order.now name)) }
    ensures none { IfOk result (λ found. IfNone found ((n : Name) → Contains order.now n
        → IsOnCycle (G.children_of graph.now) n → ⊥)) }
{
    let mut left = Closed::new(alloc);
    for name in order {
        if child_outside(graph, &left, name).is_some() {
            return Ok(Some(*name));
        }
        left.add(*name)?;
    }
    Ok(None)
}

/// The first name in the order that a walk leads back to from one of its children, if there is one. The order is that in
/// which a walk leaves names. Its time is n log n in the names and their children, and mostly linear: only where a name is on
/// a cycle, or strangers have chosen ids that begin alike, a set is asked for each child.
pub fn first_on_cycle<G: Graph>(
    alloc: Global,
    graph: &G,
    order: &[Name],
) -> Result<Option<Name>, Memory>
    requires { IsSomePostorder (G.children_of graph.now) order.now }
    ensures some { IfOk result (λ found. IfSome found (λ name. IsFirstOnCycle (G.children_of graph.now) order.now name)) }
    ensures none { IfOk result (λ found. IfNone found ((n : Name) → Contains order.now n
        → IsOnCycle (G.children_of graph.now) n → ⊥)) }
{
    if are_seen_preceded(alloc, graph, order) {
        return Ok(None);
    }
    first_unpreceded(alloc, graph, order)
}
