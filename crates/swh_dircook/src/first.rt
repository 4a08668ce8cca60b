//! The first directory that a folder cannot carry, by its entries.
ghost use Rattle.std.specs.Prelude.{◌≡◌, ◌↔◌, IsTrue, IfOk, IfSome, IfNone, Contains, ◌∷◌, []};
ghost use Rattle.std.specs.Map.{lookup};
ghost use Rattle.std.specs.BTreeMap.{is_at};
ghost use Rattle.swh_base.specs.declared.kind.Kind.TheVariants.{Directory as DirectoryKind};
ghost use Rattle.swh_base.specs.declared.name.Name.{Name as Named};
ghost use Rattle.swh_base.specs.Name.{name_cmp};
ghost use Rattle.swh_carried.specs.Rules.{HasDots, HasLongPath};
ghost use Rattle.swh_carried.specs.Uncarried.{IsFirstToBreak, BreaksNone};
ghost use Rattle.swh_dirfmt.specs.Entries.{entries_in_body};
ghost use Rattle.swh_postorder.specs.Cycle.{ArePreceded};
ghost use Rattle.swh_postorder.specs.Postorder.{Precedes};
ghost use Rattle.swh_carried.specs.Ways.{IsWay, TellAll};
ghost use Rattle.swh_dircook.specs.Names.{HaveDots, HaveOtherText};
ghost use Rattle.swh_dircook.specs.Rules.{HasOtherText, BreaksIn, IsFirstOf, IsLongOver};

use crate::names::rule_of_names;
use std::alloc::Global;
use std::collections::BTreeMap;
use swh_base::{Kind, Memory, Name};
use swh_carried::{Why, have_long, way_to, ways_from};
use swh_dirfmt::SpelledEntry;
use swh_graph::{GraphFault, directory_at};
use swh_model::Look;

/// Whether one of these entries makes a way too long, if one leads to them.
fn is_long_over(way: Option<u64>, entries: &[SpelledEntry<'_>]) -> bool
    ensures { IsTrue result ↔ IsLongOver way (entries_in_body entries.now) }
{
    match way {
        Some(way) => have_long(way, entries),
        None => false,
    }
}

/// The first rule that a directory of these entries breaks, if it breaks one. The longest way to it has so many bytes.
fn rule_of_entries(way: Option<u64>, entries: &[SpelledEntry<'_>]) -> Option<Why>
    ensures { IsFirstOf (HaveDots entries.now) (HaveOtherText entries.now) (IsLongOver way (entries_in_body entries.now))
        result }
{
    if let Some(why) = rule_of_names(entries) {
        return Some(why);
    }
    if is_long_over(way, entries) {
        return Some(Why::Path);
    }
    None
}

/// The first rule that a directory breaks, if it breaks one.
fn rule_of_directory<L: Look>(
    alloc: Global,
    look: &L,
    root: Name,
    ways: &BTreeMap<Name, u64>,
    name: Name,
) -> Result<Option<Why>, Memory>
    requires kind { name.kind ≡ DirectoryKind }
    requires ways { TellAll (IsWay (L.archive look.now).bodies (root ∷ [])) ways.now.entries }
    ensures { IfOk result (IsFirstOf (HasDots (L.archive look.now).bodies name)
        (HasOtherText (L.archive look.now).bodies name)
        (HasLongPath (L.archive look.now).bodies (λ start. start ≡ root) name)) }
{
    let entries = match directory_at(alloc, look, name) {
        Ok(entries) => entries,
        Err(GraphFault::Memory) => return Err(Memory),
        Err(GraphFault::NotHeld { .. }) => return Ok(None),
        Err(GraphFault::NoPath { .. }) => unreachable!(),
    };
    Ok(rule_of_entries(way_to(ways, &name), entries.as_slice()))
}

/// The first rule that an object breaks, if it breaks one; the length of all that is under the root is left out.
fn rule_of<L: Look>(
    alloc: Global,
    look: &L,
    root: Name,
    ways: &BTreeMap<Name, u64>,
    name: Name,
) -> Result<Option<Why>, Memory>
    requires { TellAll (IsWay (L.archive look.now).bodies (root ∷ [])) ways.now.entries }
    ensures { IfOk result (IsFirstOf (HasDots (L.archive look.now).bodies name)
        (HasOtherText (L.archive look.now).bodies name)
        (HasLongPath (L.archive look.now).bodies (λ start. start ≡ root) name)) }
{
    match name.kind {
        Kind::Directory => rule_of_directory(alloc, look, root, ways, name),
        Kind::Content | Kind::Revision | Kind::Release | Kind::Snapshot => Ok(None),
    }
}

/// The first of these names that breaks a rule, and the first rule that it breaks.
fn first_in<L: Look>(
    alloc: Global,
    look: &L,
    root: Name,
    ways: &BTreeMap<Name, u64>,
    names: &[Name],
) -> Result<Option<(Name, Why)>, Memory>
    requires { TellAll (IsWay (L.archive look.now).bodies (root ∷ [])) ways.now.entries }
    ensures some { IfOk result (λ found. IfSome found (λ x.
        IsFirstToBreak (BreaksIn (L.archive look.now).bodies root ⊥) names.now x.0 x.1)) }
    ensures none { IfOk result (λ found. IfNone found ((n : Named) → Contains names.now n
        → BreaksNone (BreaksIn (L.archive look.now).bodies root ⊥) n)) }
{
    for name in names {
        if let Some(why) = rule_of(alloc, look, root, ways, *name)? {
            return Ok(Some((*name, why)));
        }
    }
    Ok(None)
}

/// The first object that a folder cannot carry, of those that are reached from the root in this order, each once and behind
/// its children; and the first rule that it breaks. How long all that is under the root is remains to be seen.
pub fn first_in_order<L: Look>(
    alloc: Global,
    look: &L,
    order: &[Name],
    root: Name,
) -> Result<Option<(Name, Why)>, Memory>
    requires preceded { ArePreceded (L.children_of look.now) order.now }
    requires once { (n : Named) → Precedes order.now n n → ⊥ }
    requires there { Contains order.now root }
    ensures some { IfOk result (λ found. IfSome found (λ x.
        IsFirstToBreak (BreaksIn (L.archive look.now).bodies root ⊥) order.now x.0 x.1)) }
    ensures none { IfOk result (λ found. IfNone found ((n : Named) → Contains order.now n
        → BreaksNone (BreaksIn (L.archive look.now).bodies root ⊥) n)) }
{
    let ways = ways_from(alloc, look, order, &[root])?;
    first_in(alloc, look, root, &ways, order)
}
