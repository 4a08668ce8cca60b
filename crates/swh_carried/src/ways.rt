//! How long the paths to each directory are.
ghost use Rattle.std.specs.Prelude.{◌≡◌, ◌≤◌, ℕ, Some, IsTrue, OnOk, IfOk, Contains};
ghost use Rattle.std.specs.Map.{lookup};
ghost use Rattle.std.specs.BTreeMap.{is_at};
ghost use Rattle.swh_base.specs.declared.kind.Kind.TheVariants.{Directory as DirectoryKind};
ghost use Rattle.swh_base.specs.declared.name.Name.{Name as Named};
ghost use Rattle.swh_base.specs.Name.{name_cmp};
ghost use Rattle.swh_dirfmt.specs.Entries.{entry_of, entries_in_body};
ghost use Rattle.swh_postorder.specs.Cycle.{ArePreceded};
ghost use Rattle.swh_postorder.specs.Postorder.{Precedes};
ghost use Rattle.swh_carried.specs.Ways.{
  IsStart,
  IsWay,
  TellAll,
  Raises,
  RaisesOver,
  RaisesOverAll,
  TellsOfFolders,
  TellsOf,
};

use crate::long::way_over;
use std::alloc::Global;
use std::collections::BTreeMap;
use swh_base::{Kind, Memory, Name};
use swh_dirfmt::SpelledEntry;
use swh_graph::{GraphFault, directory_at};
use swh_model::Look;

/// How long the longest way is that is known to a directory.
pub fn way_to(ways: &BTreeMap<Name, u64>, name: &Name) -> Option<u64>
    ensures { result ≡ lookup (is_at (name_cmp name.now)) ways.now.entries }
{
    match ways.get(name) {
        Some(way) => Some(*way),
        None => None,
    }
}

/// Whether a way to a directory is known that is at least as long.
fn is_known(ways: &BTreeMap<Name, u64>, name: &Name, way: u64) -> bool
    ensures known { IsTrue result → (known : ℕ) × (lookup (is_at (name_cmp name.now)) ways.now.entries ≡ Some known) × (way ≤ known) }
    ensures less { (IsTrue result → ⊥) → (known : ℕ) → lookup (is_at (name_cmp name.now)) ways.now.entries ≡ Some known
        → known ≤ way }
{
    match way_to(ways, name) {
        Some(known) => known >= way,
        None => false,
    }
}

/// Notes a way to a directory, where none that is as long is known.
fn raise(ways: &mut BTreeMap<Name, u64>, name: Name, way: u64) -> Result<(), Memory>
    ensures { OnOk result (Raises name way ways.old.entries ways.new.entries) }
{
    if is_known(ways, &name, way) {
        return Ok(());
    }
    ways.insert(name, way)?;
    Ok(())
}

/// Notes that a way goes on over an entry, where that is a folder.
fn raise_over(
    ways: &mut BTreeMap<Name, u64>,
    way: u64,
    entry: &SpelledEntry<'_>,
) -> Result<(), Memory>
    ensures { OnOk result (RaisesOver way (entry_of entry.now) ways.old.entries ways.new.entries) }
{
    if entry.mode != 40_000 {
        return Ok(());
    }
    let kind = Kind::Directory;
    let name = Name {
        kind,
        id: *entry.id,
    };
    raise(ways, name, way_over(way, entry.name))
}

/// Notes that a way goes on over each of these entries that is a folder.
pub fn raise_over_all(
    ways: &mut BTreeMap<Name, u64>,
    way: u64,
    entries: &[SpelledEntry<'_>],
) -> Result<(), Memory>
    ensures { OnOk result (RaisesOverAll way (entries_in_body entries.now) ways.old.entries ways.new.entries) }
{
    for entry in entries {
        raise_over(ways, way, entry)?;
    }
    Ok(())
}

/// Notes the ways over the folders of a directory, if one leads to it.
fn tell_folders<L: Look>(
    alloc: Global,
    look: &L,
    name: Name,
    ways: &mut BTreeMap<Name, u64>,
) -> Result<(), Memory>
    requires { name.kind ≡ DirectoryKind }
    ensures { OnOk result (TellsOfFolders (L.archive look.now).bodies name (lookup (is_at (name_cmp name)) ways.old.entries)
        ways.old.entries ways.new.entries) }
{
    let Some(way) = way_to(ways, &name) else {
        return Ok(());
    };
    let entries = match directory_at(alloc, look, name) {
        Ok(entries) => entries,
        Err(GraphFault::Memory) => return Err(Memory),
        Err(GraphFault::NotHeld { .. }) => return Ok(()),
        Err(GraphFault::NoPath { .. }) => unreachable!(),
    };
    raise_over_all(ways, way, entries.as_slice())
}

/// Notes the ways whose last step is from a name, once all ways to it are known.
fn tell<L: Look>(
    alloc: Global,
    look: &L,
    name: Name,
    ways: &mut BTreeMap<Name, u64>,
) -> Result<(), Memory>
    ensures { OnOk result (TellsOf (L.archive look.now).bodies name name.kind ways.old.entries ways.new.entries) }
{
    match name.kind {
        Kind::Directory => tell_folders(alloc, look, name, ways),
        Kind::Content | Kind::Revision | Kind::Release | Kind::Snapshot => Ok(()),
    }
}

/// The ways of no bytes to where they start.
pub fn starts_of(alloc: Global, starts: &[Name]) -> Result<BTreeMap<Name, u64>, Memory>
    ensures { IfOk result (λ ways. TellAll (IsStart starts.now) ways.entries) }
{
    let mut ways = BTreeMap::new(alloc);
    for start in starts {
        raise(&mut ways, *start, 0)?;
    }
    Ok(ways)
}

/// How long the ways are that lead from one of the starts to each directory of the order, in which each name stands once and
/// behind its children. Above the limit of a path no more is counted.
pub fn ways_from<L: Look>(
    alloc: Global,
    look: &L,
    order: &[Name],
    starts: &[Name],
) -> Result<BTreeMap<Name, u64>, Memory>
    requires preceded { ArePreceded (L.children_of look.now) order.now }
    requires once { (n : Named) → Precedes order.now n n → ⊥ }
    requires there { (n : Named) → Contains starts.now n → Contains order.now n }
    ensures { IfOk result (λ ways. TellAll (IsWay (L.archive look.now).bodies starts.now) ways.entries) }
{
    look.is_graph();
    let mut ways = starts_of(alloc, starts)?;
    let mut left = order.len();
    'names: while left > 0 {
        left -= 1;
        tell(alloc, look, order[left], &mut ways)?;
    }
    Ok(ways)
}
