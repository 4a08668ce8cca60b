//! What stands in a folder, found before any file is read.
ghost use Rattle.std.specs.Prelude.{◌≡◌, ◌≢◌, ◌++◌, ◌∷◌, [], ◌<◌, IfOk, IfErr, OnOk, length, map, string_bytes};
ghost use Rattle.swh_fastlex.specs.ReadOn.{IsReadOn};
ghost use Rattle.swh_dirload.specs.declared.fault.DirFault.TheVariants.{ReadFault as NotRead, Memory as NoRoom};
ghost use Rattle.swh_dirload.specs.Items.{Fits};
ghost use Rattle.swh_dirload.specs.Found.{path_in, paths_of, items_of, IsPlaced, ArePlaced, AreBelow, AreNamedBehind, found_in, items_under};
ghost use Rattle.swh_dirload.specs.May.{MayRefusePlain};
ghost use Rattle.swh_dirload.specs.Walk.{Visits, AllFit, IsWalk, ExplainsItem, ExplainsWalk};

use crate::fault::DirFault;
use crate::found::Found;
use crate::order::list_in_order;
use crate::path::path_of;
use std::alloc::{AllocError, Global};
use std::collections::VecDeque;
use swh_base::{Bytes, PATH_LIMIT, Which};
use swh_outside::{Folder, Item, What};

/// The path, unless it is too long, or no folder may have an item of this kind.
fn fitting(path: String, what: What) -> Result<String, DirFault>
    ensures ok { IfOk result (λ kept. (kept ≡ path) × Fits (string_bytes path) what) }
    ensures err { IfErr result (ExplainsItem (string_bytes path) what) }
    ensures not_read { IfErr result (λ fault. fault ≢ NotRead) }
    ensures not_memory { IfErr result (λ fault. fault ≢ NoRoom) }
{
    let number = path.as_bytes().len();
    if number > PATH_LIMIT {
        return Err(DirFault::Limit {
            which: Which::Path,
            number: number as u64,
        });
    }
    match what {
        What::File | What::Folder => Ok(path),
        What::Other => Err(DirFault::OtherKind {
            path: Bytes::from_vec(path.into_bytes()),
        }),
    }
}

/// Lets the items of the folder of this number wait, before all others and in their order.
fn wait_first(
    waiting: &mut VecDeque<Found>,
    number: usize,
    mut items: Vec<Item>,
) -> Result<(), AllocError>
    ensures { OnOk result (waiting.new.items ≡ map (found_in number) items.items ++ waiting.old.items) }
{
    'items: while let Some(item) = items.pop() {
        let Item { name, what } = item;
        waiting.push_front(Found {
            above: number,
            name,
            what,
        })?;
    }
    Ok(())
}

/// Visits the item that comes next: it is found, and the items of a folder wait before all others.
fn visit<F: Folder>(
    alloc: Global,
    folder: &mut F,
    found: &mut Vec<Found>,
    waiting: &mut VecDeque<Found>,
    next: Found,
) -> Result<(), DirFault>
    requires placed { ArePlaced 0 found.old.items }
    requires next { IsPlaced (length found.old.items) next }
    requires waiting { AreBelow (length found.old.items) waiting.old.items }
    requires named { AreNamedBehind (found.old.items ++ next ∷ waiting.old.items) }
    ensures found { OnOk result (found.new.items ≡ found.old.items ++ next ∷ []) }
    ensures below { OnOk result (AreBelow (length found.new.items) waiting.new.items) }
    ensures named { OnOk result (AreNamedBehind (found.new.items ++ waiting.new.items)) }
    ensures fits { OnOk result (Fits (path_in (paths_of found.old.items) next) next.what) }
    ensures visits { F.tells → OnOk result (Visits (F.holds folder.old) (path_in (paths_of found.old.items) next) next.what
        (items_under (paths_of found.old.items) waiting.old.items)
        (items_under (paths_of found.new.items) waiting.new.items)) }
    ensures err { IfErr result (ExplainsItem (path_in (paths_of found.old.items) next) next.what) }

    ensures same { F.tells → F.holds folder.new ≡ F.holds folder.old }
    ensures on { IsReadOn F.opened_at F.faults folder.old folder.new NotRead result }
{
    let path = fitting(path_of(alloc, found.as_slice(), &next)?, next.what)?;
    let number = found.len();
    let what = next.what;
    found.push(next)?;
    if let What::Folder = what {
        let items = list_in_order(alloc, folder, path.as_str())?;
        wait_first(waiting, number, items)?;
    }
    Ok(())
}

/// All that stands in a folder, in the order of its path walk: the folder itself first, and the items of each folder in the
/// order of a directory, each folder followed at once by its own. No file is read.
///
/// # Errors
///
/// The first item of the walk that is neither file nor folder, or whose path is too long; the folder fails, or memory
/// runs out.
pub fn walk<F: Folder>(alloc: Global, folder: &mut F) -> Result<Vec<Found>, DirFault>
    ensures ok { F.tells → IfOk result (λ found. IsWalk (F.holds folder.old) (items_of found.items)) }
    // Also of a folder that does not tell what it holds.
    ensures some { IfOk result (λ found. 0 < length found.items) }
    ensures placed { IfOk result (λ found. ArePlaced 0 found.items) }
    ensures named { IfOk result (λ found. AreNamedBehind found.items) }
    ensures fit { IfOk result (λ found. AllFit (items_of found.items)) }
    ensures may { IfErr result MayRefusePlain }
    ensures err { F.tells → IfErr result (ExplainsWalk (F.holds folder.old)) }

    ensures same { F.tells → F.holds folder.new ≡ F.holds folder.old }
    ensures on { IsReadOn F.opened_at F.faults folder.old folder.new NotRead result }
{
    let mut found = Vec::new(alloc);
    let mut waiting = VecDeque::new(alloc);
    let itself = Found {
        above: 0,
        name: String::new(alloc),
        what: What::Folder,
    };
    visit(alloc, folder, &mut found, &mut waiting, itself)?;
    'items: for _turn in 0..usize::MAX {
        let Some(next) = waiting.pop_front() else {
            return Ok(found);
        };
        visit(alloc, folder, &mut found, &mut waiting, next)?;
    }
    let _count = found.len();
    unreachable!()
}
