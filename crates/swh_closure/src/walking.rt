//! A walk over all that is reached from a name: each name is looked up once, and none that is known to be closed.
ghost use Rattle.std.specs.Prelude.{◌≡◌, false, IsTrue, [], ◌∷◌, None, IfOk, IfErr, IfSome, IfNone, OnOk, Contains};
ghost use Rattle.std.specs.List.Sorted.{IsStrictlySortedBy};
ghost use Rattle.swh_base.specs.declared.name.Name.{Name};
ghost use Rattle.swh_base.specs.Name.{name_cmp};
ghost use Rattle.swh_base.specs.Reach.{ReachesIn, IsClosedIn, AreClosedIn, CertifiesIn};
ghost use Rattle.swh_closure.specs.Certificate.{IsWalkFault};
ghost use Rattle.swh_closure.specs.Walk.{Meets};

use crate::certificate::Cert;
use crate::closed::Closed;
use crate::met::{Met, Turn};
use std::alloc::Global;
use swh_base::{Graph, Memory, Name};

/// Why there is no certificate.
#[derive(Clone, Copy, Debug, PartialEq, Eq)]
pub enum WalkFault {
    /// A name that is reached is not held. The parent is held and reached, and has it as a child; there is none exactly
    /// where the root itself is not held.
    Missing { parent: Option<Name>, child: Name },
    /// Memory ran out.
    Memory,
}

impl From<Memory> for WalkFault {
    ghost use Rattle.std.specs.Prelude.{◌≡◌};
    ghost use Rattle.swh_closure.specs.declared.walking.WalkFault.TheVariants.{Memory as OutOfMemory};

    ghost from_gives = { λ _ e. e ≡ OutOfMemory };

    fn from(_e: Memory) -> WalkFault {
        WalkFault::Memory
    }
}

/// Lists a name that is held, with its turn where it has children, unless it is listed or known to be closed. Answers
/// false where it is none of the three: the walk is then at its end, and what it met is to be let go.
fn meet<'a, G: Graph>(
    graph: &'a G,
    closed: &Closed,
    met: &mut Met<'a>,
    name: Name,
) -> Result<bool, Memory>
    ensures yes { IfOk result (λ yes. IsTrue yes → Meets (G.children_of graph.now) closed.now (name ∷ []) met.old met.new) }
    ensures no { IfOk result (λ yes. yes ≡ false → G.children_of graph.now name ≡ None) }
{
    if closed.contains(&name) {
        return Ok(true);
    }
    if !met.names.insert(name)? {
        return Ok(true);
    }
    let Some(kids) = graph.children_of(&name) else {
        return Ok(false);
    };
    if !kids.is_empty() {
        met.turns.push(Turn { name, kids })?;
    }
    Ok(true)
}

/// Meets these names, up to the first that is missing, which is answered.
fn meet_all<'a, G: Graph>(
    graph: &'a G,
    closed: &Closed,
    met: &mut Met<'a>,
    names: &[Name],
) -> Result<Option<Name>, Memory>
    ensures meets { IfOk result (λ missing. IfNone missing
        (Meets (G.children_of graph.now) closed.now names.now met.old met.new)) }
    ensures missing { IfOk result (λ missing. IfSome missing (λ name. Contains names.now name
        × (G.children_of graph.now name ≡ None))) }
{
    for name in names {
        if !meet(graph, closed, met, *name)? {
            return Ok(Some(*name));
        }
    }
    Ok(None)
}

/// The names that are reached from the root and not known to be closed, where each of them is held.
pub fn reached<G: Graph>(
    alloc: Global,
    graph: &G,
    root: Name,
    closed: &Closed,
) -> Result<Closed, WalkFault>
    ensures ok { IfOk result (λ names. CertifiesIn (G.children_of graph.now) closed.now names root) }
    ensures reached { IfOk result (λ names. (n : Name) → Contains names n
        → ReachesIn (G.children_of graph.now) root n × (Contains closed.now n → ⊥)) }
    ensures missing { IfErr result (IsWalkFault (G.children_of graph.now) root) }
{
    let mut met = Met::new(alloc);
    if !meet(graph, closed, &mut met, root)? {
        let parent = None;
        return Err(WalkFault::Missing {
            parent,
            child: root,
        });
    }
    for _round in 0..usize::MAX {
        let Some(turn) = met.turns.pop() else {
            return Ok(met.names);
        };
        if let Some(child) = meet_all(graph, closed, &mut met, turn.kids)? {
            let parent = Some(turn.name);
            return Err(WalkFault::Missing { parent, child });
        }
    }
    let _count = met.names.len();
    unreachable!()
}

/// A certificate that all that is reached from the root is held; there is one exactly where it is. The walk goes into no
/// name that is known to be closed, and lists none. Its time is n log n in the names and children that it sees.
pub fn walk<G: Graph>(
    alloc: Global,
    graph: &G,
    root: Name,
    closed: &Closed,
) -> Result<Cert, WalkFault>
    ensures ok { IfOk result (λ cert. (cert.root ≡ root)
        × CertifiesIn (G.children_of graph.now) closed.now cert.names.items root) }
    ensures reached { IfOk result (λ cert. (n : Name) → Contains cert.names.items n
        → ReachesIn (G.children_of graph.now) root n × (Contains closed.now n → ⊥)) }
    ensures ascending { IfOk result (λ cert. IsStrictlySortedBy name_cmp cert.names.items) }
    ensures closed { OnOk result (AreClosedIn (G.children_of graph.now) closed.now
        → IsClosedIn (G.children_of graph.now) root) }
    ensures missing { IfErr result (IsWalkFault (G.children_of graph.now) root) }
{
    let names = reached(alloc, graph, root, closed)?.list(alloc)?;
    Ok(Cert { root, names })
}
