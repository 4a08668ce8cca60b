//! The walk over the paths of a directory that is made in a yard.
ghost use Rattle.std.specs.Prelude.{◌≡◌, ◌++◌, IfOk, IfErr, OnOk, Contains};
ghost use Rattle.swh_dirfmt.specs.Entries.{entry_of};
ghost use Rattle.swh_graph.specs.Path.{directory_name};
ghost use Rattle.swh_pathwalk.specs.Held.{IsHeldOrder};
ghost use Rattle.swh_outside.specs.declared.fault.OutFault.TheVariants.{Memory as OutOfMemory};
ghost use Rattle.swh_pathwalk.specs.Walk.{BeginsAt, Steps};
ghost use Rattle.swh_pathwalk.specs.Weight.{LeadInto};
ghost use Rattle.swh_dircook.specs.Listing.{line_or_none, with_path, mode_of};

use crate::listing::push_listed;
use std::alloc::Global;
use swh_base::Name;
use swh_dirfmt::SpelledEntry;
use swh_model::Look;
use swh_outside::OutFault;
use swh_pathwalk::{PathWalk, begin, next};

/// A walk over the paths of a directory in the order.
pub fn begin_walk<'a, L: Look>(
    alloc: Global,
    look: &'a L,
    order: &[Name],
    directory: [u8; 20],
) -> Result<PathWalk<'a>, OutFault>
    requires order { IsHeldOrder (L.children_of look.now) order.now }
    requires there { Contains order.now (directory_name directory) }
    ensures ok { IfOk result (λ walk. BeginsAt (L.archive look.now).bodies (directory_name directory) walk) }
    ensures err { IfErr result (λ fault. fault ≡ OutOfMemory) }
{
    match begin(alloc, look, order, directory) {
        Ok(walk) => Ok(walk),
        Err(_) => Err(OutFault::Memory),
    }
}

/// The next entry of a walk whose folders are in the order; none at the end.
pub fn next_entry<'a, L: Look>(
    alloc: Global,
    look: &'a L,
    order: &[Name],
    walk: &mut PathWalk<'a>,
) -> Result<Option<SpelledEntry<'a>>, OutFault>
    requires order { IsHeldOrder (L.children_of look.now) order.now }
    requires leads { LeadInto order.now walk.old.levels }
    ensures ok { IfOk result (λ found. Steps (L.archive look.now).bodies walk.old found walk.new) }
    ensures err { IfErr result (λ fault. fault ≡ OutOfMemory) }
{
    match next(alloc, look, order, walk) {
        Ok(found) => Ok(found),
        Err(_) => Err(OutFault::Memory),
    }
}

/// Appends the line of an entry, by its path in the folder.
pub fn list_entry(held: &mut Vec<u8>, path: &[u8], entry: &SpelledEntry<'_>) -> Result<(), OutFault>
    ensures ok { OnOk result (held.new.items ≡ held.old.items ++ line_or_none (with_path path.now (mode_of (entry_of entry.now)))) }
    ensures err { IfErr result (λ fault. fault ≡ OutOfMemory) }
{
    match push_listed(held, path, entry) {
        Ok(()) => Ok(()),
        Err(_) => Err(OutFault::Memory),
    }
}
