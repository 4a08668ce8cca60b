//! The items of a folder's list in the order of a directory.
ghost use Rattle.std.specs.Prelude.{◌≡◌, ◌++◌, IfOk, map};
ghost use Rattle.std.specs.Ordering.{nat_cmp};
ghost use Rattle.std.specs.Cmp.Lexicographic.{slice_cmp};
ghost use Rattle.swh_outside.specs.Causes.{HasOutCause};
ghost use Rattle.swh_outside.specs.Listing.{listed};
ghost use Rattle.swh_dirload.specs.Items.{key_end, entry_key, AreInOrder, HasItems, item_in};

use std::alloc::Global;
use std::cmp::Ordering;
use swh_outside::{Folder, Item, OutFault, What};

/// What a name is compared with after its own bytes.
fn key_end(what: What) -> &'static [u8]
    ensures { result.now ≡ key_end what }
{
    match what {
        What::Folder => b"/",
        What::File => b"",
        What::Other => b"",
    }
}

/// How two items of a list stand to each other.
fn order_of(a: &Item, b: &Item) -> Ordering
    ensures { result ≡ slice_cmp nat_cmp (entry_key (listed a.now)) (entry_key (listed b.now)) }
{
    let key = a.name.as_bytes().iter().chain(key_end(a.what));
    key.cmp(b.name.as_bytes().iter().chain(key_end(b.what)))
}

/// What stands in the folder at a path, in the order of a directory.
///
/// # Errors
///
/// The folder fails, or memory runs out.
pub fn list_in_order<F: Folder>(
    alloc: Global,
    folder: &mut F,
    dir: &str,
) -> Result<Vec<Item>, OutFault>
    ensures items { F.tells → IfOk result (λ items. HasItems (F.holds folder.old) dir.now
        (map (λ item. item_in dir.now (listed item)) items.items)) }
    // Also of a folder that does not tell what it holds.
    ensures order { IfOk result (λ items. AreInOrder (map listed items.items)) }
    ensures same { F.tells → F.holds folder.new ≡ F.holds folder.old }
    ensures same_path { F.opened_at folder.new ≡ F.opened_at folder.old }
    ensures cause { HasOutCause (F.faults folder.old) (F.faults folder.new) result }
{
    match folder.list(alloc, dir) {
        Ok(mut items) => {
            items.sort_unstable_by(|a, b| order_of(a, b));
            Ok(items)
        }
        Err(fault) => Err(fault),
    }
}
