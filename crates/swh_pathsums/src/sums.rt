//! The lengths of all rows under directories.
ghost use Rattle.std.specs.Prelude.{◌≡◌, List, IfOk, OnOk, Contains};
ghost use Rattle.swh_base.specs.Directory.{DirectoryEntry};
ghost use Rattle.swh_base.specs.declared.kind.Kind.TheVariants.{Directory as DirectoryKind};
ghost use Rattle.swh_base.specs.declared.name.Name.{Name as Named};
ghost use Rattle.swh_dirfmt.specs.Entries.{entry_of, entries_in_body};
ghost use Rattle.swh_model.specs.Archive.{Bodies};
ghost use Rattle.swh_graph.specs.Holding.{HoldsDirectory};
ghost use Rattle.swh_graph.specs.Path.{directory_name};
ghost use Rattle.swh_pathwalk.specs.Tree.{Row, IsPathWalk};
ghost use Rattle.swh_pathwalk.specs.Held.{IsHeldOrder};
ghost use Rattle.swh_pathsums.specs.declared.tally.Tally.{Tally as Tallied};
ghost use Rattle.swh_pathsums.specs.Lengths.{IsLengthUnder};
ghost use Rattle.swh_pathsums.specs.Sums.{MayWeighAll, AreLengths};
ghost use Rattle.swh_pathsums.specs.Tallies.{Tallies, AreEntryRows, AreRowsOver, IsTallyAt, HasTally, HaveKids, GetsTally, GetsTallyOf};

use crate::tally::{Tally, behind, both, length_of, of_row, spell};
use crate::weight::Weigh;
use std::alloc::Global;
use std::collections::BTreeMap;
use swh_base::{Kind, Memory, Name};
use swh_dirfmt::SpelledEntry;
use swh_graph::{GraphFault, directory_at};
use swh_model::Look;

/// The mode of a folder, its digits read as a decimal number.
const FOLDER: u32 = 40_000;

/// How long the texts of all rows under a directory are together, by the directories.
#[derive(Drop)]
pub struct PathSums {
    sums: BTreeMap<Name, Tally>,
}

/// The sums of a directory that was taken apart.
fn tally_at(sums: &BTreeMap<Name, Tally>, directory: [u8; 20]) -> Tally
    requires { (t : Tallied) × IsTallyAt sums.now directory t }
    ensures { IsTallyAt sums.now directory result }
{
    let name = Name {
        kind: Kind::Directory,
        id: directory,
    };
    match sums.get(&name) {
        Some(tally) => *tally,
        None => unreachable!(),
    }
}

/// What the rows of an entry sum up to: its own, and those under it, whose directory was taken apart.
fn entry_tally<W: Weigh>(
    weigher: &W,
    sums: &BTreeMap<Name, Tally>,
    entry: &SpelledEntry<'_>,
) -> Tally
    requires may { W.may_weigh weigher.now (entry_of entry.now) }
    requires there { entry.now.mode ≡ 40000 → (t : Tallied) × IsTallyAt sums.now entry.now.id.now t }
    ensures { (bodies : Bodies) (rows : List Row)
        → (entry.now.mode ≡ 40000 → HasTally bodies (W.weight_of weigher.now) sums.now entry.now.id.now)
        → AreEntryRows bodies (entry_of entry.now) rows → Tallies (W.weight_of weigher.now) rows result }
{
    let name = spell(entry.name);
    let own = of_row(weigher.weigh(entry), name);
    if entry.mode != FOLDER {
        return own;
    }
    both(own, behind(name, tally_at(sums, *entry.id)))
}

/// The entries of a directory in the order.
fn entries_at<'a, L: Look>(
    alloc: Global,
    look: &'a L,
    order: &[Name],
    directory: [u8; 20],
) -> Result<Vec<SpelledEntry<'a>>, Memory>
    requires order { IsHeldOrder (L.children_of look.now) order.now }
    requires there { Contains order.now (directory_name directory) }
    ensures { IfOk result (λ entries. HoldsDirectory (L.archive look.now).bodies (directory_name directory)
        (entries_in_body entries.items)) }
{
    look.is_graph();
    let kind = Kind::Directory;
    match directory_at(
        alloc,
        look,
        Name {
            kind,
            id: directory,
        },
    ) {
        Ok(entries) => Ok(entries),
        Err(GraphFault::Memory) => Err(Memory),
        Err(GraphFault::NotHeld { .. }) => unreachable!(),
        Err(GraphFault::NoPath { .. }) => unreachable!(),
    }
}

/// What the rows of entries sum up to, of whose folders the directories were taken apart.
fn entries_tally<W: Weigh>(
    weigher: &W,
    sums: &BTreeMap<Name, Tally>,
    entries: &[SpelledEntry<'_>],
) -> Tally
    requires may { (e : DirectoryEntry) → Contains (entries_in_body entries.now) e → W.may_weigh weigher.now e }
    requires there { (e : DirectoryEntry) → Contains (entries_in_body entries.now) e → e.mode ≡ 40000
        → (t : Tallied) × IsTallyAt sums.now e.id t }
    ensures { (bodies : Bodies) (rows : List Row)
        → ((e : DirectoryEntry) → Contains (entries_in_body entries.now) e → e.mode ≡ 40000
        → HasTally bodies (W.weight_of weigher.now) sums.now e.id)
        → AreRowsOver bodies (entries_in_body entries.now) rows → Tallies (W.weight_of weigher.now) rows result }
{
    let mut tally = Tally::NONE;
    for entry in entries {
        tally = both(tally, entry_tally(weigher, sums, entry));
    }
    tally
}

/// What all rows under a directory in the order sum up to, of whose folders the directories were taken apart.
fn directory_tally<L: Look, W: Weigh>(
    alloc: Global,
    look: &L,
    order: &[Name],
    weigher: &W,
    sums: &BTreeMap<Name, Tally>,
    directory: [u8; 20],
) -> Result<Tally, Memory>
    requires order { IsHeldOrder (L.children_of look.now) order.now }
    requires may { MayWeighAll (L.archive look.now).bodies order.now (W.may_weigh weigher.now) }
    requires there { Contains order.now (directory_name directory) }
    requires known { HaveKids (L.archive look.now).bodies (W.weight_of weigher.now) (L.children_of look.now) sums.now directory }
    ensures { IfOk result (λ t. (rows : List Row) → IsPathWalk (L.archive look.now).bodies (directory_name directory) rows
        → Tallies (W.weight_of weigher.now) rows t) }
{
    look.is_graph();
    let entries = entries_at(alloc, look, order, directory)?;
    Ok(entries_tally(weigher, sums, entries.as_slice()))
}

/// Takes the directory at this place of the order apart. Those before it were taken apart.
fn add_directory<L: Look, W: Weigh>(
    alloc: Global,
    look: &L,
    order: &[Name],
    weigher: &W,
    sums: &mut BTreeMap<Name, Tally>,
    directory: [u8; 20],
) -> Result<(), Memory>
    requires order { IsHeldOrder (L.children_of look.now) order.now }
    requires may { MayWeighAll (L.archive look.now).bodies order.now (W.may_weigh weigher.now) }
    requires there { Contains order.now (directory_name directory) }
    requires known { HaveKids (L.archive look.now).bodies (W.weight_of weigher.now) (L.children_of look.now) sums.old directory }
    ensures { OnOk result (GetsTally (L.archive look.now).bodies (W.weight_of weigher.now) sums.old directory sums.new) }
{
    let tally = directory_tally(alloc, look, order, weigher, sums, directory)?;
    let kind = Kind::Directory;
    let id = directory;
    sums.insert(Name { kind, id }, tally)?;
    Ok(())
}

/// Takes a name of the order apart, where it is a directory's.
fn add_name<L: Look, W: Weigh>(
    alloc: Global,
    look: &L,
    order: &[Name],
    weigher: &W,
    sums: &mut BTreeMap<Name, Tally>,
    name: Name,
) -> Result<(), Memory>
    requires order { IsHeldOrder (L.children_of look.now) order.now }
    requires may { MayWeighAll (L.archive look.now).bodies order.now (W.may_weigh weigher.now) }
    requires there { Contains order.now name }
    requires known { name.kind ≡ DirectoryKind → HaveKids (L.archive look.now).bodies (W.weight_of weigher.now)
        (L.children_of look.now) sums.old name.id }
    ensures { OnOk result (GetsTallyOf (L.archive look.now).bodies (W.weight_of weigher.now) sums.old name sums.new) }
{
    match name.kind {
        Kind::Directory => add_directory(alloc, look, order, weigher, sums, name.id),
        Kind::Content | Kind::Revision | Kind::Release | Kind::Snapshot => Ok(()),
    }
}

/// How long the texts of all rows under each directory in the order are together. Each is taken apart once. Fails where memory
/// runs out.
pub fn path_sums<L: Look, W: Weigh>(
    alloc: Global,
    look: &L,
    order: &[Name],
    weigher: &W,
) -> Result<PathSums, Memory>
    requires order { IsHeldOrder (L.children_of look.now) order.now }
    requires may { MayWeighAll (L.archive look.now).bodies order.now (W.may_weigh weigher.now) }
    ensures { IfOk result (AreLengths (L.archive look.now).bodies (W.weight_of weigher.now) order.now) }
{
    look.is_graph();
    let mut sums = BTreeMap::new(alloc);
    for name in order {
        add_name(alloc, look, order, weigher, &mut sums, *name)?;
    }
    Ok(PathSums { sums })
}

impl PathSums {
    ghost use Rattle.std.specs.Prelude.{◌≡◌};
    ghost use Rattle.swh_pathsums.specs.Sums.{length_at};

    /// The length of a directory, if it was found.
    pub fn get(&self, directory: [u8; 20]) -> Option<u64>
        ensures { result ≡ length_at self.now directory }
    {
        let kind = Kind::Directory;
        let id = directory;
        match self.sums.get(&Name { kind, id }) {
            Some(tally) => Some(length_of(*tally)),
            None => None,
        }
    }
}

/// How long the texts of all rows under a directory in the order are together, or a number above 2 to the 32nd where that is.
/// Each directory is taken apart once. Fails where memory runs out.
pub fn length_under<L: Look, W: Weigh>(
    alloc: Global,
    look: &L,
    order: &[Name],
    weigher: &W,
    directory: [u8; 20],
) -> Result<u64, Memory>
    requires order { IsHeldOrder (L.children_of look.now) order.now }
    requires may { MayWeighAll (L.archive look.now).bodies order.now (W.may_weigh weigher.now) }
    requires there { Contains order.now (directory_name directory) }
    ensures { IfOk result (IsLengthUnder (L.archive look.now).bodies (W.weight_of weigher.now) directory) }
{
    let sums = path_sums(alloc, look, order, weigher)?;
    match sums.get(directory) {
        Some(length) => Ok(length),
        None => unreachable!(),
    }
}
