//! The files of a revision's tree.
ghost use Rattle.std.specs.Prelude.{◌≡◌, ◌≤◌, ◌++◌, OnOk, Contains, length, max};
ghost use Rattle.swh_dirfmt.specs.Entries.{entry_of};
ghost use Rattle.swh_graph.specs.Path.{directory_name};
ghost use Rattle.swh_postorder.specs.Cycle.{IsSomePostorder, ArePreceded};
ghost use Rattle.swh_fastcook.specs.Cause.{HasWriteCause};
ghost use Rattle.swh_fastcook.specs.Files.{IsFileIn, row_at, AreFilesOf};
ghost use Rattle.swh_fastwrite.specs.Held.{WroteSome, kept};
ghost use Rattle.swh_fastcook.specs.Stream.{file_text};

use std::alloc::Global;
use swh_base::{Kind, Memory, Name};
use swh_carried::CookFault;
use swh_dirfmt::SpelledEntry;
use swh_fastwrite::{Taker, push_file, push_project, settle};
use swh_marks::Marks;
use swh_model::Look;
use swh_pathwalk::{begin, next};

/// Appends what stands for an entry of a tree: nothing for a folder.
fn push_entry(
    held: &mut Vec<u8>,
    marks: &Marks,
    path: &[u8],
    entry: &SpelledEntry<'_>,
) -> Result<(), Memory>
    requires { IsFileIn marks.now (entry_of entry.now) }
    ensures { OnOk result (held.new.items ≡ held.old.items ++ file_text marks.now (row_at path.now entry.now)) }
{
    if entry.mode == 40_000 {
        return Ok(());
    }
    if entry.mode == 160_000 {
        return push_project(held, entry.id, path);
    }
    let kind = Kind::Content;
    let id = *entry.id;
    push_file(held, entry.mode, marks.get(&Name { kind, id }), path)
}

/// Writes the lines of the files of a directory, in the order of the walk over its paths. Few bytes are held behind each line.
pub fn write_files<L: Look, T: Taker>(
    alloc: Global,
    look: &L,
    marks: &Marks,
    directory: [u8; 20],
    taker: &mut T,
    held: &mut Vec<u8>,
) -> Result<(), CookFault>
    requires order { IsSomePostorder (L.children_of look.now) marks.now }
    requires preceded { ArePreceded (L.children_of look.now) marks.now }
    requires there { Contains marks.now (directory_name directory) }
    ensures bytes { WroteSome T.takes T.takes_front (kept taker.old held.old.items)
        (AreFilesOf (L.archive look.now).bodies marks.now directory) (kept taker.new held.new.items) result }
    ensures few { OnOk result (length held.new.items ≤ max (length held.old.items) 65535) }
    ensures cause { HasWriteCause (T.failures taker.old) (T.failures taker.new) result }
{
    look.is_graph();
    let order = marks.order();
    let mut walk = begin(alloc, look, order, directory)?;
    'entries: while let Some(entry) = next(alloc, look, order, &mut walk)? {
        push_entry(held, marks, walk.path(), &entry)?;
        settle(taker, held)?;
    }
    Ok(())
}
