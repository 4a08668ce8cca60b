//! All that is under a directory, made in a yard.
ghost use Rattle.std.specs.Prelude.{◌≡◌, ◌<◌, ◌∷◌, [], List, IfOk, OnOk, length, string_bytes};
ghost use Rattle.swh_carried.specs.Uncarried.{AreCarried};
ghost use Rattle.swh_graph.specs.Path.{directory_name};
ghost use Rattle.swh_outside.specs.Causes.{HasOutCause};
ghost use Rattle.swh_pathwalk.specs.Tree.{Row, IsPathWalk};
ghost use Rattle.swh_postorder.specs.Postorder.{IsPostorder};
ghost use Rattle.swh_fastwrite.specs.Held.{Wrote, kept};
ghost use Rattle.swh_dircook.specs.Listing.{listing_text};
ghost use Rattle.swh_dircook.specs.Made.{FileMade, all_made, folder_made, listing_path, yarded, Makes};
ghost use Rattle.swh_dircook.specs.Rules.{BreaksInFolder};

use crate::rows::make_row;
use crate::walk::{begin_walk, list_entry, next_entry};
use std::alloc::{AllocError, Global};
use swh_base::Name;
use swh_fastwrite::{Taker, flush, settle};
use swh_model::Look;
use swh_outside::{OutFault, Yard};

/// Makes what stands in a folder for the entries under a directory, in the order of the walk over its paths.
fn make_rows<L: Look, Y: Yard>(
    alloc: Global,
    look: &L,
    order: &[Name],
    directory: [u8; 20],
    yard: &mut Y,
    out: &str,
) -> Result<(), OutFault>
    requires order { IsPostorder (L.children_of look.now) (directory_name directory) order.now }
    requires carried { AreCarried (L.children_of look.now) (BreaksInFolder (L.archive look.now).bodies (directory_name directory)) order.now }
    ensures made { (rows : List Row) → IsPathWalk (L.archive look.now).bodies (directory_name directory) rows
        → Makes Y.Sink.tells (yarded (Y.Sink.begun yard.old) (Y.Sink.taken yard.old))
        (all_made (L.archive look.now).bodies out.now rows)
        (yarded (Y.Sink.begun yard.new) (Y.Sink.taken yard.new)) result }
    ensures cause { HasOutCause (Y.Sink.faults yard.old) (Y.Sink.faults yard.new) result }
{
    look.is_graph();
    let mut walk = begin_walk(alloc, look, order, directory)?;
    'entries: while let Some(entry) = next_entry(alloc, look, order, &mut walk)? {
        make_row(alloc, look, yard, out, walk.path(), &entry)?;
    }
    Ok(())
}

/// Writes the listing of the entries under a directory, in the order of the walk over its paths. Its last lines may be held, of
/// fewer than 65,536 bytes.
fn write_listing<L: Look, T: Taker>(
    alloc: Global,
    look: &L,
    order: &[Name],
    directory: [u8; 20],
    taker: &mut T,
    held: &mut Vec<u8>,
) -> Result<(), OutFault>
    requires order { IsPostorder (L.children_of look.now) (directory_name directory) order.now }
    requires carried { AreCarried (L.children_of look.now) (BreaksInFolder (L.archive look.now).bodies (directory_name directory)) order.now }
    ensures bytes { (rows : List Row) → IsPathWalk (L.archive look.now).bodies (directory_name directory) rows
        → Wrote T.takes T.takes_front (kept taker.old held.old.items) (listing_text rows) (kept taker.new held.new.items) result }
    ensures few { length held.old.items < 65536 → OnOk result (length held.new.items < 65536) }
    ensures cause { HasOutCause (T.failures taker.old) (T.failures taker.new) result }
{
    look.is_graph();
    let mut walk = begin_walk(alloc, look, order, directory)?;
    'entries: while let Some(entry) = next_entry(alloc, look, order, &mut walk)? {
        list_entry(held, walk.path(), &entry)?;
        settle(taker, held)?;
    }
    Ok(())
}

/// Where the listing of a folder stands.
fn listing_place(alloc: Global, out: &str) -> Result<String, AllocError>
    ensures { IfOk result (λ text. string_bytes text ≡ listing_path out.now) }
{
    let mut text = String::from_str(alloc, out)?;
    text.push_str(".modes")?;
    Ok(text)
}

/// Makes the listing of the entries under a directory.
fn make_listing<L: Look, Y: Yard>(
    alloc: Global,
    look: &L,
    order: &[Name],
    directory: [u8; 20],
    yard: &mut Y,
    out: &str,
) -> Result<(), OutFault>
    requires order { IsPostorder (L.children_of look.now) (directory_name directory) order.now }
    requires carried { AreCarried (L.children_of look.now) (BreaksInFolder (L.archive look.now).bodies (directory_name directory)) order.now }
    ensures made { (rows : List Row) → IsPathWalk (L.archive look.now).bodies (directory_name directory) rows
        → Makes Y.Sink.tells (yarded (Y.Sink.begun yard.old) (Y.Sink.taken yard.old))
        (FileMade (listing_path out.now) (listing_text rows) ∷ [])
        (yarded (Y.Sink.begun yard.new) (Y.Sink.taken yard.new)) result }
    ensures cause { HasOutCause (Y.Sink.faults yard.old) (Y.Sink.faults yard.new) result }
{
    let place = listing_place(alloc, out)?;
    yard.file(place.as_str())?;
    let mut held = Vec::new(alloc);
    write_listing(alloc, look, order, directory, yard, &mut held)?;
    flush(yard, &mut held)?;
    Ok(())
}

/// Makes the folder of a directory of which a folder carries all that is reached, in this order: the folder itself, what
/// stands in it, and its listing. Fails where the yard does, which has then a front of it, or where memory runs out.
pub fn make_whole<L: Look, Y: Yard>(
    alloc: Global,
    look: &L,
    order: &[Name],
    directory: [u8; 20],
    yard: &mut Y,
    out: &str,
) -> Result<(), OutFault>
    requires order { IsPostorder (L.children_of look.now) (directory_name directory) order.now }
    requires carried { AreCarried (L.children_of look.now) (BreaksInFolder (L.archive look.now).bodies (directory_name directory)) order.now }
    ensures made { (rows : List Row) → IsPathWalk (L.archive look.now).bodies (directory_name directory) rows
        → Makes Y.Sink.tells (yarded (Y.Sink.begun yard.old) (Y.Sink.taken yard.old))
        (folder_made (L.archive look.now).bodies out.now rows)
        (yarded (Y.Sink.begun yard.new) (Y.Sink.taken yard.new)) result }
    ensures cause { HasOutCause (Y.Sink.faults yard.old) (Y.Sink.faults yard.new) result }
{
    yard.folder(out)?;
    make_rows(alloc, look, order, directory, yard, out)?;
    make_listing(alloc, look, order, directory, yard, out)
}
