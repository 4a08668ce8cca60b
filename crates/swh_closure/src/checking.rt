//! Whether a certificate shows what it is to show.
ghost use Rattle.std.specs.Prelude.{◌≡◌, ◌↔◌, IsTrue, IfErr, OnOk, Contains};
ghost use Rattle.std.specs.Ordering.{is_lt};
ghost use Rattle.swh_base.specs.declared.name.Name.{Name};
ghost use Rattle.swh_base.specs.Name.{name_cmp};
ghost use Rattle.swh_base.specs.Reach.{IsHeldIn, IsChildIn, IsCovered, IsClosedIn, AreClosedIn, CertifiesIn};
ghost use Rattle.swh_closure.specs.Certificate.{IsGap, IsAscending};

use crate::certificate::{Cert, Gap};
use crate::closed::Closed;
use crate::hints::Hints;
use std::cmp::Ordering;
use swh_base::{Graph, Name};

fn is_before(a: &Name, b: &Name) -> bool
    ensures { result ≡ is_lt (name_cmp a.now b.now) }
{
    a.cmp(b) == Ordering::Less
}

fn is_ascending(names: &[Name]) -> bool
    ensures { IsTrue result ↔ IsAscending names.now }
{
    for place in 1..names.len() {
        if is_before(&names[place], &names[place - 1]) {
            return false;
        }
    }
    true
}

/// Whether an ascending list has a name: where it was found before, or else by halves.
fn is_found(names: &[Name], hints: &mut Hints, name: &Name) -> bool
    requires { IsAscending names.now }
    ensures { IsTrue result ↔ Contains names.now name.now }
{
    if hints.leads(names, name) {
        return true;
    }
    match names.binary_search(name) {
        Ok(place) => {
            hints.note(name, place);
            true
        }
        Err(_) => false,
    }
}

/// Whether a name is listed: one by one where the list does not ascend.
fn is_listed(names: &[Name], ascending: bool, hints: &mut Hints, name: &Name) -> bool
    requires { IsTrue ascending → IsAscending names.now }
    ensures { IsTrue result ↔ Contains names.now name.now }
{
    if ascending {
        is_found(names, hints, name)
    } else {
        names.contains(name)
    }
}

fn is_covered(
    names: &[Name],
    ascending: bool,
    hints: &mut Hints,
    closed: &Closed,
    name: &Name,
) -> bool
    requires { IsTrue ascending → IsAscending names.now }
    ensures { IsTrue result ↔ IsCovered closed.now names.now name.now }
{
    is_listed(names, ascending, hints, name) || closed.contains(name)
}

/// Whether a listed name is held, and its children are listed or closed.
fn check_listed<G: Graph>(
    graph: &G,
    closed: &Closed,
    names: &[Name],
    ascending: bool,
    hints: &mut Hints,
    name: &Name,
) -> Result<(), Gap>
    requires order { IsTrue ascending → IsAscending names.now }
    requires listed { Contains names.now name.now }
    ensures held { OnOk result (IsHeldIn (G.children_of graph.now) name.now) }
    ensures kids { OnOk result ((child : Name) → IsChildIn (G.children_of graph.now) name.now child
        → IsCovered closed.now names.now child) }
    ensures err { IfErr result (λ gap. (root : Name) → IsGap (G.children_of graph.now) closed.now names.now root gap) }
{
    let Some(kids) = graph.children_of(name) else {
        return Err(Gap::NotHeld { name: *name });
    };
    for kid in kids {
        if !is_covered(names, ascending, hints, closed, kid) {
            let parent = Some(*name);
            return Err(Gap::Unlisted {
                parent,
                child: *kid,
            });
        }
    }
    Ok(())
}

/// Passes exactly where each listed name is held, and each of its children, and the root, is listed or known to be closed.
/// It takes time n log n in the names and children that it sees, and less where many have the same children; a list that
/// does not ascend takes n squared. It needs no memory: where there is some, it remembers where names were found.
pub fn check<G: Graph>(graph: &G, closed: &Closed, cert: &Cert) -> Result<(), Gap>
    ensures ok { OnOk result (CertifiesIn (G.children_of graph.now) closed.now cert.now.names.items cert.now.root) }
    ensures closed { OnOk result (AreClosedIn (G.children_of graph.now) closed.now
        → IsClosedIn (G.children_of graph.now) cert.now.root) }
    ensures err { IfErr result (IsGap (G.children_of graph.now) closed.now cert.now.names.items cert.now.root) }
{
    let names = cert.names.as_slice();
    let ascending = is_ascending(names);
    let mut hints = Hints::new(*cert.names.allocator(), names);
    if !is_covered(names, ascending, &mut hints, closed, &cert.root) {
        let parent = None;
        return Err(Gap::Unlisted {
            parent,
            child: cert.root,
        });
    }
    for name in names {
        if let Err(gap) = check_listed(graph, closed, names, ascending, &mut hints, name) {
            return Err(gap);
        }
    }
    Ok(())
}
