//! The directory of a folder, named.
ghost use Rattle.std.specs.Prelude.{◌≡◌, ◌≤◌, [], IfOk, IfErr, IsErrOf};
ghost use Rattle.swh_outside.specs.Faults.{Rose};
ghost use Rattle.swh_fastlex.specs.ReadOn.{IsQuietBut};
ghost use Rattle.swh_dirload.specs.declared.fault.DirFault.TheVariants.{ReadFault as NotRead};
ghost use Rattle.swh_dirload.specs.May.{MayRefusePlain};
ghost use Rattle.swh_dirload.specs.Meaning.{ExplainsFolder};
ghost use Rattle.swh_dirload.specs.Root.{HasRoot, IsOfDirectory};

use crate::fault::DirFault;
use crate::loading::{Standing, check_lengths, name_standing};
use std::alloc::Global;
use swh_base::Namer;
use swh_dirmade::name_directories;
use swh_outside::Folder;

/// The id of the directory of a folder that has no listing. No more than one file is held at a time.
///
/// # Errors
///
/// The first item of the folder's walk that is neither file nor folder, or whose path is too long; then the first file
/// that is too long, or with which the files are too long together; then the first directory that is longer than a body
/// may be. The folder or a file fails, or memory runs out.
pub fn name_folder<N: Namer, F: Folder>(
    alloc: Global,
    namer: &N,
    folder: &mut F,
) -> Result<[u8; 20], DirFault>
    ensures ok { F.tells → IfOk result (HasRoot N.id_of (F.holds folder.old) []) }
    ensures err { F.tells → IfErr result (ExplainsFolder N.id_of (F.holds folder.old) []) }
    // Also of a folder that does not tell what it holds.
    ensures named { IfOk result (IsOfDirectory N.id_of) }
    ensures may { IfErr result MayRefusePlain }

    ensures same { F.tells → F.holds folder.new ≡ F.holds folder.old }
    ensures same_path { F.opened_at folder.new ≡ F.opened_at folder.old }
    ensures later { F.faults folder.old ≤ F.faults folder.new }
    ensures quiet { IsQuietBut (F.faults folder.old) (F.faults folder.new) NotRead result }
    ensures cause { IsErrOf result NotRead → Rose (F.faults folder.old) (F.faults folder.new) }
{
    let Standing { spots, places } = name_standing(alloc, namer, folder)?;
    check_lengths(alloc, spots.as_slice(), places.as_slice())?;
    let root = name_directories(alloc, namer, spots.as_slice(), places.as_slice())?;
    Ok(root)
}
