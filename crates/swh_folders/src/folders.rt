//! Folders at work: the changes of a commit made to them, and what is no longer needed dropped now and then.

ghost use Rattle.std.specs.Prelude.{◌≡◌, ◌≢◌, ◌≤◌, ◌<◌, ◌+◌, ◌*◌, ◌++◌, [], ℕ, IsFalse, IfOk, IfSome, IfNone};
ghost use Rattle.swh_entries.specs.Listed.{cost_of};
ghost use Rattle.swh_entries.specs.Keys.{texts};
ghost use Rattle.swh_forest.specs.Kept.{AreAmong};
ghost use Rattle.swh_forest.specs.Roots.{IsBelow};
ghost use Rattle.swh_fastlex.specs.Path.{components, IsPath};
ghost use Rattle.swh_forest.specs.PathMap.{set, delete, held};
ghost use Rattle.swh_forest.specs.Transfer.{transferred};
ghost use Rattle.swh_forest.specs.Sound.{IsLeaf};
ghost use Rattle.swh_folders.specs.Working.{
  AreFolders,
  count_of,
  cost_from,
  root_map,
  StaysBelow,
  spare,
  IsTallied,
  KeepsCounts,
  IsWithin,
  IsBounded,
};

use crate::compacting::compact;
use std::alloc::{AllocError, Global};
use swh_entries::{Known, Names, Packed};
use swh_forest::{Transfer, transfer_path};

/// How many folders more than twice those that are needed may stand, and how many entries more than three times those.
const SPARE: usize = 65_536;

/// Folders by their numbers, with the names of their entries.
#[derive(Drop)]
pub struct Folders {
    pub names: Names,
    pub nodes: Vec<Packed>,
    /// Those whose objects were made.
    pub known: Known,
    /// The number of the first folder whose list is not counted.
    pub counted: usize,
    /// What the lists cost that were counted.
    pub entries: usize,
    /// What they may cost before folders are dropped again.
    pub room: usize,
    /// How many folders there may be before.
    pub most: usize,
}

impl Folders {
    pub fn new(alloc: Global) -> Folders
        ensures good { AreFolders result }
        ensures none { result.nodes.items ≡ [] }
        ensures names { result.names.items ≡ [] }
        ensures tallied { IsTallied 0 result }
        ensures room { result.room ≡ spare }
        ensures most { result.most ≡ spare }
    {
        Folders {
            names: Names::new(alloc),
            nodes: Vec::new(alloc),
            known: Known::new(alloc),
            counted: 0,
            entries: 0,
            room: SPARE,
            most: SPARE,
        }
    }
}

/// What these lists cost, where a `usize` holds it.
fn sum_of(nodes: &[Packed]) -> Option<usize>
    ensures sum { IfSome result (λ n. n ≡ cost_of nodes.now) }
    ensures long { IfNone result (usize.MAX < cost_of nodes.now) }
{
    let mut sum: usize = 0;
    for node in nodes {
        sum = sum.checked_add(node.cost())?;
    }
    Some(sum)
}

/// What is counted, with the lists that are not.
fn more_of(folders: &Folders) -> Option<usize>
    requires { folders.now.counted ≤ count_of folders.now }
    ensures sum { IfSome result (λ n. n ≡ folders.now.entries + cost_from folders.now.counted folders.now) }
    ensures long { IfNone result (usize.MAX < folders.now.entries + cost_from folders.now.counted folders.now) }
{
    let (_, rest) = folders.nodes.as_slice().split_at(folders.counted);
    folders.entries.checked_add(sum_of(rest)?)
}

/// Whether so many folders stand, or their lists from the base on cost so much, that those no longer needed are to be dropped.
fn is_full(folders: &mut Folders) -> bool
    requires { folders.old.counted ≤ count_of folders.old }
    ensures names { folders.new.names.items ≡ folders.old.names.items }
    ensures nodes { folders.new.nodes.items ≡ folders.old.nodes.items }
    ensures most { folders.new.most ≡ folders.old.most }
    ensures room { folders.new.room ≡ folders.old.room }
    ensures tallied { (base : ℕ) → IsTallied base folders.old → IsTallied base folders.new }
    ensures few { IsFalse result → count_of folders.old ≤ folders.old.most }
    ensures small { IsFalse result → (base : ℕ) → IsTallied base folders.old
        → cost_from base folders.old ≤ folders.old.room }
    ensures within { (base : ℕ) → IsTallied base folders.old → IsWithin base folders.old → IsFalse result }
{
    let room = folders.room;
    let Some(entries) = more_of(folders) else {
        return true;
    };
    folders.counted = folders.nodes.len();
    folders.entries = entries;
    if entries > room {
        return true;
    }
    folders.nodes.len() > folders.most
}

/// Counts anew the lists of the folders from this one on, and sets how much may stand by what they cost.
pub fn count_from(folders: &mut Folders, first: usize)
    requires { first ≤ count_of folders.old }
    ensures names { folders.new.names.items ≡ folders.old.names.items }
    ensures nodes { folders.new.nodes.items ≡ folders.old.nodes.items }
    ensures tallied { IsTallied first folders.new }
    ensures most { folders.new.most + first ≤ 2 * count_of folders.new + spare }
    ensures room { folders.new.room ≤ 3 * cost_from first folders.new + spare }
{
    let count = folders.nodes.len();
    folders.counted = first;
    folders.entries = 0;
    folders.room = SPARE;
    let fresh = count.saturating_sub(first);
    folders.most = first
        .saturating_add(fresh.saturating_mul(2))
        .saturating_add(SPARE);
    if let Some(entries) = more_of(folders) {
        folders.counted = count;
        folders.entries = entries;
        folders.room = entries.saturating_mul(3).saturating_add(SPARE);
    }
}

/// The root, after folders that it does not need were dropped where there are many of them. Where there are not, all stay.
pub fn settled(
    alloc: Global,
    folders: &mut Folders,
    base: usize,
    root: Option<usize>,
) -> Result<Option<usize>, AllocError>
    requires good { AreFolders folders.old }
    requires tallied { IsTallied base folders.old }
    requires root { IsBelow (count_of folders.old) root }
    ensures stays { StaysBelow base folders.old folders.new }
    ensures tallied { IsTallied base folders.new }
    ensures names { folders.new.names.items ≡ folders.old.names.items }
    ensures inside { IfOk result (λ r. IsBelow (count_of folders.new) r) }
    ensures bounded { IfOk result (IsBounded base folders.old folders.new) }
    ensures within { IsWithin base folders.old → (folders.new.nodes.items ≡ folders.old.nodes.items) × (result ≡ Ok root) }
    ensures map { IfOk result (λ r. root_map folders.new r ≡ root_map folders.old root) }
{
    if !is_full(folders) {
        return Ok(root);
    }
    let Some(number) = root else {
        folders.nodes.truncate(base);
        count_from(folders, base);
        return Ok(None);
    };
    let there = compact(alloc, &mut folders.nodes, &folders.known, base, number);
    count_from(folders, base);
    Ok(Some(there?))
}

/// The tree with what the source holds at the target, and at the source too where the transfer is a copy. None where the
/// source holds nothing.
pub fn transfer_in(
    alloc: Global,
    folders: &mut Folders,
    base: usize,
    root: Option<usize>,
    source: &[u8],
    target: &[u8],
    way: Transfer,
) -> Result<Option<Option<usize>>, AllocError>
    requires good { AreFolders folders.old }
    requires tallied { IsTallied base folders.old }
    requires root { IsBelow (count_of folders.old) root }
    requires source { IsPath source.now }
    requires target { IsPath target.now }
    ensures stays { StaysBelow base folders.old folders.new }
    ensures tallied { IsTallied base folders.new }
    ensures kept { AreAmong (texts folders.new.names.items) (texts folders.old.names.items
        ++ (components source.now ++ components target.now)) }
    ensures none { IfOk result (λ o. IfNone o (held (components source.now) (root_map folders.old root) ≡ [])) }
    ensures left { IfOk result (λ o. IfNone o (IsBelow (count_of folders.new) root)) }
    ensures lists { IfOk result (λ o. IfNone o (folders.new.nodes.items ≡ folders.old.nodes.items)) }
    ensures counts { IfOk result (λ o. IfNone o (KeepsCounts folders.old folders.new)) }
    ensures same { IfOk result (λ o. IfNone o (root_map folders.new root ≡ root_map folders.old root)) }
    ensures some { IfOk result (λ o. IfSome o (λ r. held (components source.now) (root_map folders.old root) ≢ [])) }
    ensures inside { IfOk result (λ o. IfSome o (λ r. IsBelow (count_of folders.new) r)) }
    ensures bounded { IfOk result (λ o. IfSome o (IsBounded base folders.old folders.new)) }
    ensures map { IfOk result (λ o. IfSome o (λ r. root_map folders.new r
        ≡ transferred way (components source.now) (components target.now) (root_map folders.old root))) }
{
    let (names, nodes) = (&mut folders.names, &mut folders.nodes);
    let Some(there) = transfer_path(alloc, names, nodes, root, source, target, way)? else {
        return Ok(None);
    };
    Ok(Some(settled(alloc, folders, base, there)?))
}
