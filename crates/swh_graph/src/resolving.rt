//! What a SWHID resolves to.
ghost use Rattle.std.specs.Prelude.{◌≡◌, ◌≢◌, ◌↔◌, None, Some, IsTrue, IfOk, IfErr, IfSome, IfNone, option_to_list};
ghost use Rattle.std.specs.List.{AllByRecursion};
ghost use Rattle.swh_model.specs.Archive.{body_of, IsHeld};
ghost use Rattle.swh_graph.specs.Answer.{Found, Refuses};
ghost use Rattle.swh_graph.specs.Resolve.{names_in, behind_slash, IsFirstMissing, IsResolveAnswer};
ghost use Rattle.swh_graph.specs.Way.{Ends, EndFails, WayAnswers};

use crate::fault::GraphFault;
use crate::paths::{follow, target_of};
use crate::roots::root_of;
use std::alloc::Global;
use swh_base::Name;
use swh_model::Look;
use swh_swhid::Swhid;

/// Where components lead, and how many they are.
#[derive(Clone, Copy)]
struct End {
    name: Name,
    number: u64,
}

/// The name, where there is one and it is not held.
fn missing<L: Look>(look: &L, name: &Option<Name>) -> Option<Name>
    ensures some { IfSome result (λ missing. (name.now ≡ Some missing)
        × (body_of (L.archive look.now).bodies missing ≡ None)) }
    ensures none { IfNone result (AllByRecursion (IsHeld (L.archive look.now).bodies) (option_to_list name.now)) }
{
    match name {
        Some(name) => { if look.has(name) { None } else { Some(*name) } }
        None => None,
    }
}

/// The first of core, visit and anchor that is not held.
fn first_missing<L: Look>(look: &L, swhid: &Swhid) -> Option<Name>
    ensures some { IfSome result (IsFirstMissing (L.archive look.now).bodies (names_in swhid.now)) }
    ensures none { IfNone result (AllByRecursion (IsHeld (L.archive look.now).bodies) (names_in swhid.now)) }
{
    if !look.has(&swhid.core) {
        return Some(swhid.core);
    }
    if let Some(name) = missing(look, &swhid.visit) {
        return Some(name);
    }
    missing(look, &swhid.anchor)
}

/// What stands behind the first byte of a path, its slash.
fn behind_slash(path: &[u8]) -> &[u8]
    ensures { result.now ≡ behind_slash path.now }
{
    if path.is_empty() { path } else { &path[1..] }
}

/// Where a SWHID's path leads from a root, and by how many components.
fn end_of<L: Look>(look: &L, root: Name, path: &[u8]) -> Result<End, GraphFault>
    ensures ok { IfOk result (λ end. Ends (L.archive look.now).bodies root path.now end.name end.number) }
    ensures err { IfErr result (EndFails (L.archive look.now).bodies root path.now) }
{
    let below = behind_slash(path);
    if below.is_empty() {
        let number = 0;
        return Ok(End { name: root, number });
    }
    let arrival = follow(look, root, below)?;
    let name = target_of(&arrival.entry);
    let number = arrival.number + 1;
    Ok(End { name, number })
}

fn is_same(a: &Name, b: &Name) -> bool
    ensures { IsTrue result ↔ (a.now ≡ b.now) }
{
    a == b
}

/// The core, where the path leads there from the anchor's root.
fn arrive<L: Look>(
    alloc: Global,
    look: &L,
    anchor: Name,
    path: &[u8],
    core: Name,
) -> Result<Name, GraphFault>
    ensures ok { IfOk result (λ name. WayAnswers (L.archive look.now).bodies anchor path.now core (Found name)) }
    ensures err { IfErr result (Refuses (WayAnswers (L.archive look.now).bodies anchor path.now core)) }
{
    let found = root_of(alloc, look, anchor)?;
    let Some(root) = found else {
        let component = 0;
        return Err(GraphFault::NoPath { component });
    };
    let end = end_of(look, root, path)?;
    if is_same(&end.name, &core) {
        Ok(core)
    } else {
        let component = end.number;
        Err(GraphFault::NoPath { component })
    }
}

/// The core object of a SWHID (SWHID v1.2, qualified identifiers), where it, the visit and the anchor are held, and its
/// path leads there from the anchor's root: a directory is its own root, a revision has its tree as root, a release the
/// root of its object, and a snapshot that of what its branch HEAD leads to, through aliases. The path `/` is the root
/// itself. Origin, lines and bytes are not looked at.
///
/// Fails with the first name that is not held: core, visit and anchor in this order, then those on the way. Fails with the
/// number, from 0, of the first component that leads nowhere, which is 0 where there is no root, and the number of the
/// components where they lead to another object. Fails where memory runs out.
pub fn resolve<L: Look>(alloc: Global, look: &L, swhid: &Swhid) -> Result<Name, GraphFault>
    ensures ok { IfOk result (λ name. IsResolveAnswer (L.archive look.now).bodies swhid.now (Found name)) }
    ensures err { IfErr result (Refuses (IsResolveAnswer (L.archive look.now).bodies swhid.now)) }
{
    if let Some(name) = first_missing(look, swhid) {
        return Err(GraphFault::NotHeld { name });
    }
    let Some(anchor) = swhid.anchor else {
        return Ok(swhid.core);
    };
    let Some(path) = &swhid.path else {
        return Ok(swhid.core);
    };
    arrive(alloc, look, anchor, path.as_slice(), swhid.core)
}
