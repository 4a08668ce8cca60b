//! The first object that a stream cannot carry, and why.
ghost use Rattle.std.specs.Prelude.{◌≡◌, ◌↔◌, Some, List, IsTrue, OnOk, IfOk, IfSome, IfNone, Contains};
ghost use Rattle.std.specs.Map.{lookup};
ghost use Rattle.std.specs.BTreeMap.{is_at};
ghost use Rattle.swh_base.specs.declared.kind.Kind.TheVariants.{
  Directory as DirectoryKind,
  Revision as RevisionKind,
  Release as ReleaseKind,
  Snapshot as SnapshotKind,
};
ghost use Rattle.swh_base.specs.declared.name.Name.{Name as Named};
ghost use Rattle.swh_base.specs.Name.{name_cmp};
ghost use Rattle.swh_dirfmt.specs.Entries.{entries_in_body};
ghost use Rattle.swh_postorder.specs.Cycle.{ArePreceded};
ghost use Rattle.swh_postorder.specs.Postorder.{Precedes};
ghost use Rattle.swh_carried.specs.Rules.{HasDots, HasLongPath};
ghost use Rattle.swh_carried.specs.Ways.{Tells, TellsOf, TellsOfFolders, RaisesOverAll};
ghost use Rattle.swh_fastcarried.specs.First.{HaveDots, IsOneOf, IsFolderAt, IsFirstRule, IsFirstFound};
ghost use Rattle.swh_fastcarried.specs.Known.{Knows, IsEmptyFolder, IsLongOver, IsFolderRule};
ghost use Rattle.swh_fastcarried.specs.RevisionWays.{IsWay};
ghost use Rattle.swh_fastcarried.specs.Rules.{
  IsEmptyEntry,
  IsRevisionRoot,
  HasOddBranch,
  BreaksIn,
};

use crate::branches::have_odd_branch;
use crate::directories::have_dots;
use crate::folders::is_folder;
use crate::plain::{is_odd_release, is_odd_revision};
use crate::reached::{Reached, survey};
use crate::roots::roots_of;
use std::alloc::Global;
use std::collections::BTreeMap;
use swh_base::{Kind, Memory, Name};
use swh_carried::{Why, have_long, raise_over_all, starts_of, way_to};
use swh_dirfmt::SpelledEntry;
use swh_graph::{GraphFault, directory_at, snapshot_at};
use swh_model::Look;

/// Whether a directory of these entries is empty, and an entry of one of the names. Only where it is empty they are read: all
/// directories without entries have one name, so this is once at most in an order.
fn is_empty_folder<L: Look>(
    alloc: Global,
    look: &L,
    order: &[Name],
    name: Name,
    entries: &[SpelledEntry<'_>],
) -> Result<bool, Memory>
    ensures { IfOk result (λ is. IsTrue is ↔ IsEmptyFolder (IsOneOf (IsFolderAt (L.archive look.now).bodies) order.now)
        name (entries_in_body entries.now)) }
{
    if entries.is_empty() {
        return is_folder(alloc, look, order, name);
    }
    Ok(false)
}

/// Whether one of a directory's entries makes a path to it longer than a path may be. It is handed in how long the longest
/// way to the directory is, if one leads there.
fn is_long_over(way: Option<u64>, entries: &[SpelledEntry<'_>]) -> bool
    ensures { IsTrue result ↔ IsLongOver way (entries_in_body entries.now) }
{
    match way {
        Some(way) => have_long(way, entries),
        None => false,
    }
}

/// Notes the ways that go on over a directory's entries, if a way leads to it.
fn pass_on(
    ways: &mut BTreeMap<Name, u64>,
    way: Option<u64>,
    entries: &[SpelledEntry<'_>],
) -> Result<(), Memory>
    ensures some { OnOk result (IfSome way (λ w. RaisesOverAll w (entries_in_body entries.now) ways.old.entries ways.new.entries)) }
    ensures none { OnOk result (IfNone way (ways.new.entries ≡ ways.old.entries)) }
{
    match way {
        Some(way) => raise_over_all(ways, way, entries),
        None => Ok(()),
    }
}

/// The first rule that a directory of these entries breaks, if it breaks one.
fn rule_of_entries<L: Look>(
    alloc: Global,
    look: &L,
    reached: &Reached<'_>,
    name: Name,
    way: Option<u64>,
    entries: &[SpelledEntry<'_>],
) -> Result<Option<Why>, Memory>
    ensures { IfOk result (IsFolderRule
        (IsEmptyFolder (IsOneOf (IsFolderAt (L.archive look.now).bodies) reached.now.order.now) name (entries_in_body entries.now))
        (HaveDots (entries_in_body entries.now)) (IsLongOver way (entries_in_body entries.now))) }
{
    if is_empty_folder(alloc, look, reached.order, name, entries)? {
        return Ok(Some(Why::Empty));
    }
    if have_dots(entries) {
        return Ok(Some(Why::Dots));
    }
    if is_long_over(way, entries) {
        return Ok(Some(Why::Path));
    }
    Ok(None)
}

/// The first rule that a directory breaks, if it breaks one, once all ways to it are known. It notes those that go on over
/// its folders, so that it is read once.
fn rule_of_directory<L: Look>(
    alloc: Global,
    look: &L,
    reached: &Reached<'_>,
    name: Name,
    ways: &mut BTreeMap<Name, u64>,
) -> Result<Option<Why>, Memory>
    requires kind { name.kind ≡ DirectoryKind }
    requires known { Tells (IsWay (L.archive look.now).bodies reached.now.order.now name) (lookup (is_at (name_cmp name)) ways.old.entries) }
    ensures rule { IfOk result (IsFolderRule (IsEmptyEntry (L.archive look.now).bodies reached.now.order.now name)
        (HasDots (L.archive look.now).bodies name)
        (HasLongPath (L.archive look.now).bodies (IsRevisionRoot (L.archive look.now).bodies reached.now.order.now) name)) }
    ensures ways { OnOk result (TellsOfFolders (L.archive look.now).bodies name
        (lookup (is_at (name_cmp name)) ways.old.entries) ways.old.entries ways.new.entries) }
{
    let entries = match directory_at(alloc, look, name) {
        Ok(entries) => entries,
        Err(GraphFault::Memory) => return Err(Memory),
        Err(GraphFault::NotHeld { .. }) => return Ok(None),
        Err(GraphFault::NoPath { .. }) => unreachable!(),
    };
    let way = way_to(ways, &name);
    pass_on(ways, way, entries.as_slice())?;
    rule_of_entries(alloc, look, reached, name, way, entries.as_slice())
}

/// Whether a release does not stand at its own branch of the root, where that is a snapshot.
fn is_tagless(reached: &Reached<'_>, name: Name) -> bool
    ensures { IsTrue result ↔ ((reached.now.root.kind ≡ SnapshotKind) × (Contains reached.now.tagged name → ⊥)) }
{
    match reached.root.kind {
        Kind::Snapshot => !reached.tagged.contains(&name),
        Kind::Content | Kind::Directory | Kind::Revision | Kind::Release => false,
    }
}

fn is_same(name: Name, root: Name) -> bool
    ensures { IsTrue result ↔ (name ≡ root) }
{
    name == root
}

/// Whether a snapshot has a branch that a stream cannot carry.
fn has_odd_branch<L: Look>(alloc: Global, look: &L, root: Name) -> Result<bool, Memory>
    requires { root.kind ≡ SnapshotKind }
    ensures { IfOk result (λ odd. (top : Named) → IsTrue odd ↔ HasOddBranch (L.archive look.now).bodies top root) }
{
    let branches = match snapshot_at(alloc, look, root) {
        Ok(branches) => branches,
        Err(GraphFault::Memory) => return Err(Memory),
        Err(GraphFault::NotHeld { .. }) => return Ok(false),
        Err(GraphFault::NoPath { .. }) => unreachable!(),
    };
    Ok(have_odd_branch(look, branches.as_slice()))
}

/// The first rule that a revision breaks, if it breaks one.
fn rule_of_revision<L: Look>(alloc: Global, look: &L, name: Name) -> Result<Option<Why>, Memory>
    requires { name.kind ≡ RevisionKind }
    ensures { IfOk result (λ rule. (root : Named) (order : List Named)
        → IsFirstRule (BreaksIn (L.archive look.now).bodies root order ⊥ ⊥) name rule) }
{
    if is_odd_revision(alloc, look, name)? {
        return Ok(Some(Why::Revision));
    }
    Ok(None)
}

/// The first rule that a release breaks, if it breaks one.
fn rule_of_release<L: Look>(
    alloc: Global,
    look: &L,
    reached: &Reached<'_>,
    name: Name,
) -> Result<Option<Why>, Memory>
    requires kind { name.kind ≡ ReleaseKind }
    requires knows { Knows (L.archive look.now).bodies reached.now }
    ensures { IfOk result (IsFirstRule
        (BreaksIn (L.archive look.now).bodies reached.now.root reached.now.order.now ⊥ ⊥) name) }
{
    if is_odd_release(alloc, look, name)? {
        return Ok(Some(Why::Release));
    }
    if is_tagless(reached, name) {
        return Ok(Some(Why::Tagless));
    }
    Ok(None)
}

/// The first rule that a snapshot breaks, if it breaks one.
fn rule_of_snapshot<L: Look>(
    alloc: Global,
    look: &L,
    root: Name,
    name: Name,
) -> Result<Option<Why>, Memory>
    requires { name.kind ≡ SnapshotKind }
    ensures { IfOk result (λ rule. (order : List Named)
        → IsFirstRule (BreaksIn (L.archive look.now).bodies root order ⊥ ⊥) name rule) }
{
    if !is_same(name, root) {
        return Ok(Some(Why::Branch));
    }
    if has_odd_branch(alloc, look, name)? {
        return Ok(Some(Why::Branch));
    }
    Ok(None)
}

/// The first rule that an object breaks by itself, if it breaks one, once all ways to it are known.
fn rule_of_object<L: Look>(
    alloc: Global,
    look: &L,
    reached: &Reached<'_>,
    name: Name,
    ways: &mut BTreeMap<Name, u64>,
) -> Result<Option<Why>, Memory>
    requires knows { Knows (L.archive look.now).bodies reached.now }
    requires known { Tells (IsWay (L.archive look.now).bodies reached.now.order.now name) (lookup (is_at (name_cmp name)) ways.old.entries) }
    ensures rule { IfOk result (IsFirstRule
        (BreaksIn (L.archive look.now).bodies reached.now.root reached.now.order.now ⊥ ⊥) name) }
    ensures ways { OnOk result (TellsOf (L.archive look.now).bodies name name.kind ways.old.entries ways.new.entries) }
{
    match name.kind {
        Kind::Content => Ok(None),
        Kind::Directory => rule_of_directory(alloc, look, reached, name, ways),
        Kind::Revision => rule_of_revision(alloc, look, name),
        Kind::Release => rule_of_release(alloc, look, reached, name),
        Kind::Snapshot => rule_of_snapshot(alloc, look, reached.root, name),
    }
}

/// The first rule that an object breaks, if it breaks one, once all ways to it are known; the root breaks one where its
/// stream loads too many branches.
fn rule_of<L: Look>(
    alloc: Global,
    look: &L,
    reached: &Reached<'_>,
    name: Name,
    ways: &mut BTreeMap<Name, u64>,
    many: bool,
) -> Result<Option<Why>, Memory>
    requires knows { Knows (L.archive look.now).bodies reached.now }
    requires known { Tells (IsWay (L.archive look.now).bodies reached.now.order.now name) (lookup (is_at (name_cmp name)) ways.old.entries) }
    ensures rule { IfOk result (IsFirstRule
        (BreaksIn (L.archive look.now).bodies reached.now.root reached.now.order.now (IsTrue many) ⊥) name) }
    ensures ways { OnOk result (TellsOf (L.archive look.now).bodies name name.kind ways.old.entries ways.new.entries) }
{
    if let Some(why) = rule_of_object(alloc, look, reached, name, ways)? {
        return Ok(Some(why));
    }
    if many && is_same(name, reached.root) {
        return Ok(Some(Why::Refs));
    }
    Ok(None)
}

/// What is found once the rule is known that a name breaks which stands before the others.
fn found_with(name: Name, rule: Option<Why>, found: Option<(Name, Why)>) -> Option<(Name, Why)>
    ensures some { IfSome rule (λ why. result ≡ Some (name, why)) }
    ensures none { IfNone rule (result ≡ found) }
{
    match rule {
        Some(why) => Some((name, why)),
        None => found,
    }
}

/// The first of the names of the order that breaks a rule of streams, and the first rule that it breaks. They are gone over
/// from their end, where each directory stands behind those that lead to it, so all ways to it are known once it is read.
fn first_in<L: Look>(
    alloc: Global,
    look: &L,
    reached: &Reached<'_>,
    many: bool,
) -> Result<Option<(Name, Why)>, Memory>
    requires knows { Knows (L.archive look.now).bodies reached.now }
    requires preceded { ArePreceded (L.children_of look.now) reached.now.order.now }
    requires once { (n : Named) → Precedes reached.now.order.now n n → ⊥ }
    ensures { IfOk result (IsFirstFound
        (BreaksIn (L.archive look.now).bodies reached.now.root reached.now.order.now (IsTrue many) ⊥) reached.now.order.now) }
{
    look.is_graph();
    let order = reached.order;
    let roots = roots_of(alloc, look, order)?;
    let mut ways = starts_of(alloc, roots.as_slice())?;
    let mut found = None;
    let mut left = order.len();
    'names: while left > 0 {
        left -= 1;
        let rule = rule_of(alloc, look, reached, order[left], &mut ways, many)?;
        found = found_with(order[left], rule, found);
    }
    Ok(found)
}

/// The first object that a stream cannot carry, of those that are reached from the root in this order, each once and behind
/// its children; and the first rule that it breaks. It is handed in whether the stream loads too many branches; how long the
/// stream is remains to be seen.
pub fn first_uncarried<L: Look>(
    alloc: Global,
    look: &L,
    order: &[Name],
    root: Name,
    many: bool,
) -> Result<Option<(Name, Why)>, Memory>
    requires preceded { ArePreceded (L.children_of look.now) order.now }
    requires once { (n : Named) → Precedes order.now n n → ⊥ }
    ensures { IfOk result (IsFirstFound (BreaksIn (L.archive look.now).bodies root order.now (IsTrue many) ⊥) order.now) }
{
    let reached = survey(alloc, look, order, root)?;
    first_in(alloc, look, &reached, many)
}
