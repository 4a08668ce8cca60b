//! All that is reached from a name.
ghost use Rattle.std.specs.Prelude.{◌↔◌, IfOk, IfErr, IfSome, IfNone, OnOk, Contains};
ghost use Rattle.std.specs.List.{IsDistinct};
ghost use Rattle.std.specs.List.Sorted.{IsStrictlySortedBy};
ghost use Rattle.std.specs.Ordering.{eq_by_cmp};
ghost use Rattle.swh_base.specs.declared.name.Name.{Name};
ghost use Rattle.swh_base.specs.Name.{name_cmp};
ghost use Rattle.swh_base.specs.Reach.{ReachesIn};
ghost use Rattle.swh_model.specs.Archive.{IsHeld};
ghost use Rattle.swh_graph.specs.Answer.{Found, Refuses};
ghost use Rattle.swh_graph.specs.Met.{MeetsChildren};
ghost use Rattle.swh_graph.specs.Reached.{IsReachAnswer};
ghost use Rattle.swh_graph.specs.Resolve.{IsFirstMissing};

use crate::fault::GraphFault;
use crate::met::Met;
use std::alloc::Global;
use swh_base::{Memory, Name};
use swh_model::Look;

/// Meets the children of this name, where it is held.
fn meet_children<L: Look>(look: &L, met: &mut Met, name: Name) -> Result<(), Memory>
    ensures { OnOk result (MeetsChildren (L.children_of look.now) name met.old met.new) }
{
    match look.children_of(&name) {
        Some(kids) => met.meet_all(kids),
        None => Ok(()),
    }
}

/// All names that are reached from one, held or not, each once. Each is looked up once.
fn reached<L: Look>(alloc: Global, look: &L, root: Name) -> Result<Vec<Name>, Memory>
    ensures are { IfOk result (λ names. (n : Name) → Contains names.items n ↔ ReachesIn (L.children_of look.now) root n) }
    ensures once { IfOk result (λ names. IsDistinct (eq_by_cmp name_cmp) names.items) }
{
    let mut met = Met::new(alloc);
    met.meet(root)?;
    for place in 0..usize::MAX {
        let Some(name) = met.at(place) else {
            return Ok(met.into_front(place));
        };
        meet_children(look, &mut met, name)?;
    }
    let _count = met.len();
    unreachable!()
}

/// Names, of which no two are one, in ascending order.
fn sorted(mut names: Vec<Name>) -> Vec<Name>
    requires { IsDistinct (eq_by_cmp name_cmp) names.items }
    ensures ascending { IsStrictlySortedBy name_cmp result.items }
    ensures same { (n : Name) → Contains result.items n ↔ Contains names.items n }
{
    names.sort_unstable();
    names
}

/// The first of these names that is not held.
fn first_missing<L: Look>(look: &L, names: &[Name]) -> Option<Name>
    ensures some { IfSome result (IsFirstMissing (L.archive look.now).bodies names.now) }
    ensures none { IfNone result ((n : Name) → Contains names.now n → IsHeld (L.archive look.now).bodies n) }
{
    for name in names {
        if !look.has(name) {
            return Some(*name);
        }
    }
    None
}

/// The names that are reached from a name, itself among them, in ascending order. Fails with the first of them, in this
/// order, that is not held, or where memory runs out. Its time is n log n in the names and their children.
pub fn reach<L: Look>(alloc: Global, look: &L, name: Name) -> Result<Vec<Name>, GraphFault>
    ensures ok { IfOk result (λ names. IsReachAnswer (L.archive look.now).bodies name (Found names.items)) }
    ensures err { IfErr result (Refuses (IsReachAnswer (L.archive look.now).bodies name)) }
{
    look.is_graph();
    let names = sorted(reached(alloc, look, name)?);
    match first_missing(look, names.as_slice()) {
        None => Ok(names),
        Some(name) => Err(GraphFault::NotHeld { name }),
    }
}
