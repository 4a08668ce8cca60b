//! The files of a folder, each read once into a buffer of its own.
ghost use Rattle.std.specs.Prelude.{◌≡◌, ◌≤◌, IfOk, IfErr, IsErrOf, Some, length};
ghost use Rattle.swh_base.specs.Limits.{body_limit};
ghost use Rattle.swh_outside.specs.Faults.{Rose};
ghost use Rattle.swh_fastlex.specs.ReadOn.{IsQuietBut};
ghost use Rattle.swh_outside.specs.Folder.{bytes_at};
ghost use Rattle.swh_dirload.specs.declared.fault.DirFault.TheVariants.{ReadFault as NotRead};
ghost use Rattle.swh_dirload.specs.Files.{MayRefuseFile, ExplainsFile};

use crate::fault::DirFault;
use std::alloc::Global;
use swh_base::{BODY_LIMIT, Which};
use swh_fastlex::{SourceFault, read_source};
use swh_outside::Folder;

/// All bytes of the file at a path of a folder.
///
/// # Errors
///
/// The file is longer than a body may be, and no more than a window above the limit was read; the folder or the file
/// fails, or memory runs out.
pub fn read_file<F: Folder>(alloc: Global, folder: &mut F, path: &str) -> Result<Vec<u8>, DirFault>
    ensures bytes { F.tells → IfOk result (λ bytes. bytes_at (F.holds folder.old) path.now ≡ Some bytes.items) }
    ensures short { IfOk result (λ bytes. length bytes.items ≤ body_limit) }
    ensures err { F.tells → IfErr result (ExplainsFile (F.holds folder.old) path.now) }
    // Also of a folder that does not tell what it holds.
    ensures may { IfErr result MayRefuseFile }

    ensures same { F.tells → F.holds folder.new ≡ F.holds folder.old }
    ensures same_path { F.opened_at folder.new ≡ F.opened_at folder.old }
    ensures later { F.faults folder.old ≤ F.faults folder.new }
    ensures quiet { IsQuietBut (F.faults folder.old) (F.faults folder.new) NotRead result }
    ensures cause { IsErrOf result NotRead → Rose (F.faults folder.old) (F.faults folder.new) }
{
    let mut source = folder.read(path)?;
    let read = read_source(alloc, &mut source, BODY_LIMIT as usize);
    folder.back(source);
    match read {
        Ok(bytes) => Ok(bytes),
        Err(SourceFault::Limit) => Err(DirFault::Limit {
            which: Which::Body,
            number: BODY_LIMIT + 1,
        }),
        Err(SourceFault::Failed) => Err(DirFault::ReadFault),
        Err(SourceFault::Memory) => Err(DirFault::Memory),
    }
}
