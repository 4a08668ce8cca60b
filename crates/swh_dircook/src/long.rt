//! Whether all that is under a directory is too long.
ghost use Rattle.std.specs.Prelude.{◌≡◌, ◌↔◌, ◌<◌, ◌^◌, IsTrue, List, IfOk};
ghost use Rattle.swh_carried.specs.Uncarried.{HasNoCycle};
ghost use Rattle.swh_base.specs.Directory.{DirectoryEntry};
ghost use Rattle.swh_dirfmt.specs.Entries.{entry_of};
ghost use Rattle.swh_graph.specs.Path.{directory_name};
ghost use Rattle.swh_pathsums.specs.Lengths.{rows_length};
ghost use Rattle.swh_pathwalk.specs.Tree.{Row, IsPathWalk};
ghost use Rattle.swh_postorder.specs.Postorder.{IsPostorder};
ghost use Rattle.swh_dircook.specs.Rules.{IsLongFolder};

use crate::weights::{FileBytes, ListedLines, Rows};
use std::alloc::Global;
use swh_base::{Memory, Name};
use swh_model::Look;
use swh_pathsums::{Weigh, length_under};

/// The bytes of the files of a folder together, of its listing, and the entries under it.
const FOLDER_LIMIT: u64 = 1 << 32;

/// Whether the texts of all rows under a directory, which may all be weighed, are together more than the limit.
fn is_above<L: Look, W: Weigh>(
    alloc: Global,
    look: &L,
    order: &[Name],
    weigher: &W,
    directory: [u8; 20],
) -> Result<bool, Memory>
    requires order { IsPostorder (L.children_of look.now) (directory_name directory) order.now }
    requires acyclic { HasNoCycle (L.children_of look.now) order.now }
    requires may { (e : DirectoryEntry) → W.may_weigh weigher.now e }
    ensures { IfOk result (λ above. (rows : List Row) → IsPathWalk (L.archive look.now).bodies (directory_name directory) rows
        → IsTrue above ↔ (2 ^ 32 < rows_length (W.weight_of weigher.now) rows)) }
{
    let length = length_under(alloc, look, order, weigher, directory)?;
    Ok(length > FOLDER_LIMIT)
}

/// Whether the files under a directory together, or their listing, have more than 2 to the 32nd bytes, or there are more
/// entries than that. Each directory is taken apart three times, however many paths lead to it.
pub fn is_long<L: Look>(
    alloc: Global,
    look: &L,
    order: &[Name],
    directory: [u8; 20],
) -> Result<bool, Memory>
    requires order { IsPostorder (L.children_of look.now) (directory_name directory) order.now }
    requires acyclic { HasNoCycle (L.children_of look.now) order.now }
    ensures { IfOk result (λ long. IsTrue long ↔ IsLongFolder (L.archive look.now).bodies (directory_name directory)) }
{
    look.is_graph();
    let many = is_above(alloc, look, order, &Rows, directory)?;
    if many {
        return Ok(true);
    }
    let large = is_above(alloc, look, order, &FileBytes { look }, directory)?;
    if large {
        return Ok(true);
    }
    let listed = is_above(alloc, look, order, &ListedLines, directory)?;
    Ok(listed)
}
