//! The log of a revision.
ghost use Rattle.std.specs.Prelude.{◌≡◌, IfOk, IfErr, OnOk, map};
ghost use Rattle.swh_base.specs.declared.kind.Kind.TheVariants.{Revision};
ghost use Rattle.swh_base.specs.Revision.{revision_name};
ghost use Rattle.swh_graph.specs.Answer.{Found, Refuses};
ghost use Rattle.swh_graph.specs.Holding.{IsNotHeld};
ghost use Rattle.swh_graph.specs.Log.{IsLogAnswer};
ghost use Rattle.swh_graph.specs.Met.{MeetsUpTo, MeetsParents};

use crate::fault::GraphFault;
use crate::met::Met;
use crate::reading::revision_at;
use std::alloc::Global;
use swh_base::{Kind, Memory, Name};
use swh_model::Look;

fn revision_name(id: [u8; 20]) -> Name
    ensures { result ≡ revision_name id }
{
    let kind = Kind::Revision;
    Name { kind, id }
}

/// Meets the revisions of these ids, until so many names are met: what stands behind these no log of this limit lists.
fn meet_ids(met: &mut Met, ids: &[[u8; 20]], limit: usize) -> Result<(), Memory>
    ensures { OnOk result (MeetsUpTo limit met.old (map revision_name ids.now) met.new) }
{
    for id in ids {
        if met.len() >= limit {
            return Ok(());
        }
        met.meet(revision_name(*id))?;
    }
    Ok(())
}

/// Meets the parents of the revision of this name, until so many names are met.
fn meet_parents<L: Look>(
    alloc: Global,
    look: &L,
    met: &mut Met,
    name: Name,
    limit: usize,
) -> Result<(), GraphFault>
    requires { name.kind ≡ Revision }
    ensures ok { OnOk result (MeetsParents (L.archive look.now).bodies name limit met.old met.new) }
    ensures err { IfErr result (IsNotHeld (L.archive look.now).bodies name) }
{
    let rev = revision_at(alloc, look, name)?;
    meet_ids(met, rev.parents.as_slice(), limit)?;
    Ok(())
}

/// The revision, its parents in their order, their parents in the order of these, and so on: each name once, and at most
/// so many. Fails with the first of them that is not held, or where memory runs out. It keeps no more names than it lists,
/// and beside them the parts of one revision; its time is n log n in the names, and linear in the bodies of these.
pub fn log<L: Look>(
    alloc: Global,
    look: &L,
    rev: [u8; 20],
    limit: u32,
) -> Result<Vec<Name>, GraphFault>
    ensures ok { IfOk result (λ names.
        IsLogAnswer (L.archive look.now).bodies (revision_name rev) limit (Found names.items)) }
    ensures err { IfErr result (Refuses (IsLogAnswer (L.archive look.now).bodies (revision_name rev) limit)) }
{
    let most = limit as usize;
    let mut met = Met::new(alloc);
    meet_ids(&mut met, &[rev], most)?;
    for place in 0..most {
        let Some(name) = met.at(place) else {
            return Ok(met.into_front(place));
        };
        meet_parents(alloc, look, &mut met, name, most)?;
    }
    Ok(met.into_front(most))
}
