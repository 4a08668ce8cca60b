//! The walk itself: a stack of frames in place of a recursion.
ghost use Rattle.std.specs.Prelude.{◌≡◌, ◌↔◌, ◌++◌, ◌∷◌, [], IsTrue, None, IfOk, IfErr, IfSome, IfNone, OnOk, Contains};
ghost use Rattle.swh_base.specs.declared.name.Name.{Name};
ghost use Rattle.swh_postorder.specs.declared.fault.OrderFault.TheVariants.{Memory as OutOfMemory};
ghost use Rattle.swh_postorder.specs.Postorder.{IsPostorder};
ghost use Rattle.swh_postorder.specs.Walk.{
  HasEntered,
  CannotEnter,
  IsFirstFresh,
  GoesOn,
  CannotGoOn,
  ExplainsOrder,
};

use crate::fault::OrderFault;
use crate::walk::{Frame, Walk};
use std::alloc::Global;
use swh_base::{Graph, Name};
use swh_closure::Closed;

/// Whether a name was entered. One that was left is mostly found at once.
fn was_entered(walk: &Walk<'_>, name: &Name) -> bool
    requires { (n : Name) → Contains walk.now.left.items n → Contains walk.now.entered n }
    ensures { IsTrue result ↔ Contains walk.now.entered name.now }
{
    if walk.places.lead(walk.left.as_slice(), name) {
        return true;
    }
    walk.entered.contains(name)
}

/// The first of these names that was not entered, and those behind it.
fn first_fresh<'a>(walk: &Walk<'_>, names: &'a [Name]) -> Option<(Name, &'a [Name])>
    requires { (n : Name) → Contains walk.now.left.items n → Contains walk.now.entered n }
    ensures some { IfSome result (λ x. IsFirstFresh walk.now.entered names.now x.0 x.1.now) }
    ensures none { IfNone result ((n : Name) → Contains names.now n → Contains walk.now.entered n) }
{
    for (place, name) in names.iter().enumerate() {
        if !was_entered(walk, name) {
            return Some((*name, &names[place + 1..]));
        }
    }
    None
}

/// Enters a name that was not entered.
fn enter<'a, G: Graph>(graph: &'a G, walk: &mut Walk<'a>, name: Name) -> Result<(), OrderFault>
    requires { Contains walk.old.entered name → ⊥ }
    ensures ok { OnOk result (HasEntered (G.children_of graph.now) name walk.old walk.new) }
    ensures err { IfErr result (CannotEnter (G.children_of graph.now) name) }
{
    let Some(kids) = graph.children_of(&name) else {
        return Err(OrderFault::NotHeld { name });
    };
    walk.entered.add(name)?;
    walk.frames.push(Frame { name, kids })?;
    Ok(())
}

/// Leaves a name.
fn leave(walk: &mut Walk<'_>, name: Name) -> Result<(), OrderFault>
    ensures left { OnOk result (walk.new.left.items ≡ walk.old.left.items ++ name ∷ []) }
    ensures frames { walk.new.frames ≡ walk.old.frames }
    ensures entered { walk.new.entered ≡ walk.old.entered }
    ensures err { IfErr result (λ fault. fault ≡ OutOfMemory) }
{
    walk.left.push(name)?;
    walk.places.follow(walk.left.as_slice());
    Ok(())
}

/// Goes on with the frame that stood on top: enters the first of its children that was not entered, or leaves its name
/// where there is none.
fn go_on<'a, G: Graph>(graph: &'a G, walk: &mut Walk<'a>, top: Frame<'a>) -> Result<(), OrderFault>
    requires { (n : Name) → Contains walk.old.left.items n → Contains walk.old.entered n }
    ensures ok { OnOk result (GoesOn (G.children_of graph.now) top.entry walk.old walk.new) }
    ensures err { IfErr result (CannotGoOn (G.children_of graph.now) top.entry walk.old) }
{
    let Some((name, kids)) = first_fresh(walk, top.kids) else {
        return leave(walk, top.name);
    };
    let rest = Frame {
        name: top.name,
        kids,
    };
    walk.frames.push(rest)?;
    enter(graph, walk, name)
}

/// The names that are reached from the root, in the order in which a walk leaves them: depth first, the children of a
/// name in its own order, each name entered once and left after its children. Fails with the first name that the walk
/// enters and that is not held, or where memory runs out. Its time is n log n in the names and their children.
pub fn postorder<G: Graph>(alloc: Global, graph: &G, root: Name) -> Result<Vec<Name>, OrderFault>
    ensures ok { IfOk result (λ order. IsPostorder (G.children_of graph.now) root order.items) }
    ensures err { IfErr result (ExplainsOrder (G.children_of graph.now) root) }
{
    let mut walk = Walk::new(alloc);
    enter(graph, &mut walk, root)?;
    for _round in 0..usize::MAX {
        let Some(top) = walk.frames.pop() else {
            return Ok(walk.left);
        };
        go_on(graph, &mut walk, top)?;
    }
    let _count = walk.entered.len();
    unreachable!()
}
