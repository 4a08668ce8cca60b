//! The listing of a folder, taken line by line.
ghost use Rattle.std.specs.Prelude.{◌≡◌, IfErr, List, OnOk, length};
ghost use Rattle.std.specs.List.{AllByRecursion};
ghost use Rattle.swh_base.specs.declared.name.Name.{Name};
ghost use Rattle.swh_dirmade.specs.Making.{IsHeld};
ghost use Rattle.swh_fastlex.specs.ReadOn.{IsReadOn};
ghost use Rattle.swh_dirload.specs.declared.fault.DirFault.TheVariants.{ReadFault as NotRead};
ghost use Rattle.swh_dirload.specs.Index.{IsIndex};
ghost use Rattle.swh_dirload.specs.May.{MayRefuse};
ghost use Rattle.swh_dirload.specs.Lines.{AreTaken, ExplainsLines, GoesOn};
ghost use Rattle.swh_dirmade.specs.Spots.{Places, IsTable, Stand};

use crate::fault::DirFault;
use crate::taking::{Taken, take_line};
use std::alloc::Global;
use std::collections::BTreeMap;
use swh_dirmade::{Member, Spot};
use swh_fastlex::Window;
use swh_listing::next_listed;
use swh_outside::Source;

/// Takes the lines of a listing, which is all that is left of the source, one after another.
///
/// # Errors
///
/// The first line that is none of a listing or may not come after those before it, or the first limit that the listing
/// passes; the source fails, or memory runs out.
pub fn take_lines<S: Source>(
    alloc: Global,
    spots: &mut Vec<Spot>,
    places: &mut Vec<Member>,
    numbers: &mut BTreeMap<Vec<u8>, usize>,
    source: &mut S,
) -> Result<(), DirFault>
    requires table { IsTable spots.old.items }
    requires index { IsIndex spots.old.items numbers.old.entries }
    requires count { length places.old.items ≡ length spots.old.items }
    ensures taken { S.tells → (before : Places) → Stand spots.old.items places.old.items before
        → OnOk result (AreTaken before (S.left source.old) spots.new.items places.new.items) }
    ensures may { IfErr result MayRefuse }
    ensures err { S.tells → (before : Places) → Stand spots.old.items places.old.items before
        → IfErr result (ExplainsLines before (S.left source.old)) }
    ensures held { (names : List Name) → AllByRecursion (IsHeld names) places.old.items
        → OnOk result (AllByRecursion (IsHeld names) places.new.items) }
    ensures goes { OnOk result (GoesOn spots.old.items places.old.items spots.new.items places.new.items) }
    ensures table { OnOk result (IsTable spots.new.items) }
    ensures count { OnOk result (length places.new.items ≡ length spots.new.items) }

    ensures on { IsReadOn S.path S.faults source.old source.new NotRead result }
{
    let mut window = Window::new(alloc)?;
    let mut line = 1;
    'lines: while let Some(listed) = next_listed(alloc, &mut window, source, line)? {
        match take_line(alloc, spots, places, numbers, &listed)? {
            Taken::Yes => line += 1,
            Taken::No => return Err(DirFault::BadModes { line }),
        }
    }
    Ok(())
}
