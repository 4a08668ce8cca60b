//! All that is to be known of a stream before its first byte is written.
ghost use Rattle.std.specs.Prelude.{◌≢◌, IfOk, IfErr, IfNone};
ghost use Rattle.swh_base.specs.declared.kind.Kind.TheVariants.{Content as ContentKind};
ghost use Rattle.swh_postorder.specs.Cycle.{ArePreceded};
ghost use Rattle.swh_postorder.specs.Postorder.{IsPostorder};
ghost use Rattle.swh_carried.specs.Uncarried.{HasNoCycle, ExplainsNoOrder};
ghost use Rattle.swh_fastcarried.specs.First.{IsFirstFound};
ghost use Rattle.swh_fastcook.specs.Cook.{BreaksStream};
ghost use Rattle.swh_fastcook.specs.Length.{HasText};
ghost use Rattle.swh_fastcook.specs.Ready.{IsReady, ExplainsNotReady};

use crate::heads::head_of;
use crate::length::is_long_stream;
use crate::loaded::loads_many;
use std::alloc::Global;
use swh_base::{Bytes, Memory, Name};
use swh_carried::{CookFault, Why, acyclic_order};
use swh_fastcarried::first_uncarried;
use swh_marks::Marks;
use swh_model::Look;

/// The names that are reached from a root, with their marks, and the head of what is cooked.
#[derive(Drop)]
pub struct Ready {
    pub marks: Marks,
    pub head: Option<Bytes>,
}

/// The first of the names, which are reached from the root and stand in this order, that a stream cannot carry, and why.
fn find_uncarried<L: Look>(
    alloc: Global,
    look: &L,
    marks: &Marks,
    root: Name,
) -> Result<Option<(Name, Why)>, Memory>
    requires order { IsPostorder (L.children_of look.now) root marks.now }
    requires preceded { ArePreceded (L.children_of look.now) marks.now }
    requires kind { root.kind ≢ ContentKind }
    ensures found { IfOk result (IsFirstFound (BreaksStream (L.archive look.now).bodies root marks.now) marks.now) }
    ensures text { IfOk result (λ found. IfNone found (HasText (L.archive look.now).bodies marks.now root)) }
{
    look.is_graph();
    let many = loads_many(alloc, look, marks.order(), root)?;
    if let Some(found) = first_uncarried(alloc, look, marks.order(), root, many)? {
        return Ok(Some(found));
    }
    if is_long_stream(alloc, look, marks, root)? {
        return Ok(Some((root, Why::Length)));
    }
    Ok(None)
}

/// The names that are reached from a root, of which none is reached from itself, with their marks.
fn marks_of<L: Look>(alloc: Global, look: &L, root: Name) -> Result<Marks, CookFault>
    ensures ok { IfOk result (IsPostorder (L.children_of look.now) root) }
    ensures acyclic { IfOk result (HasNoCycle (L.children_of look.now)) }
    ensures err { IfErr result (ExplainsNoOrder (L.children_of look.now) root) }
{
    let order = match acyclic_order(alloc, look, root) {
        Ok(order) => order,
        Err(fault) => return Err(fault),
    };
    Ok(Marks::new(alloc, order)?)
}

/// All that is to be known of a stream before its first byte is written; or why it is not.
pub fn make_ready<L: Look>(alloc: Global, look: &L, root: Name) -> Result<Ready, CookFault>
    requires { root.kind ≢ ContentKind }
    ensures ok { IfOk result (λ r. IsReady (L.archive look.now).bodies (L.children_of look.now) root r.marks r.head) }
    ensures err { IfErr result (ExplainsNotReady (L.archive look.now).bodies (L.children_of look.now) root) }
{
    let marks = match marks_of(alloc, look, root) {
        Ok(marks) => marks,
        Err(fault) => return Err(fault),
    };
    match find_uncarried(alloc, look, &marks, root)? {
        Some((name, why)) => Err(CookFault::Uncarried { name, why }),
        None => {
            let head = head_of(alloc, look, root)?;
            Ok(Ready { marks, head })
        }
    }
}
