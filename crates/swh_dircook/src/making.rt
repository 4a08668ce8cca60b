//! What stands in a folder for an entry.
ghost use Rattle.std.specs.Prelude.{◌∷◌, []};
ghost use Rattle.swh_outside.specs.Causes.{HasOutCause};
ghost use Rattle.swh_dirfmt.specs.Entries.{entry_of};
ghost use Rattle.swh_dircook.specs.Made.{Made, FolderMade, FileMade, made_at, IsFileHeld, yarded, Makes};

use swh_base::{Kind, Name};
use swh_dirfmt::SpelledEntry;
use swh_model::Look;
use swh_outside::{OutFault, Yard};

/// Makes a folder.
fn make_folder<Y: Yard>(yard: &mut Y, path: &str) -> Result<(), OutFault>
    ensures made { Makes Y.Sink.tells (yarded (Y.Sink.begun yard.old) (Y.Sink.taken yard.old)) (FolderMade path.now ∷ [])
        (yarded (Y.Sink.begun yard.new) (Y.Sink.taken yard.new)) result }
    ensures cause { HasOutCause (Y.Sink.faults yard.old) (Y.Sink.faults yard.new) result }
{
    yard.folder(path)
}

/// Makes a file of these bytes.
fn make_file<Y: Yard>(yard: &mut Y, path: &str, bytes: &[u8]) -> Result<(), OutFault>
    ensures made { Makes Y.Sink.tells (yarded (Y.Sink.begun yard.old) (Y.Sink.taken yard.old)) (FileMade path.now bytes.now ∷ [])
        (yarded (Y.Sink.begun yard.new) (Y.Sink.taken yard.new)) result }
    ensures cause { HasOutCause (Y.Sink.faults yard.old) (Y.Sink.faults yard.new) result }
{
    yard.file(path)?;
    match yard.put(bytes) {
        Ok(()) => Ok(()),
        Err(_) => Err(OutFault::Failed),
    }
}

/// Makes what stands at a path for an entry: a folder for a folder, nothing for a revision of another project, and else a
/// file of the bytes that are held. Fails where the yard does, which has then a front of it.
pub fn make_entry<L: Look, Y: Yard>(
    look: &L,
    yard: &mut Y,
    path: &str,
    entry: &SpelledEntry<'_>,
) -> Result<(), OutFault>
    requires { IsFileHeld (L.archive look.now).bodies (entry_of entry.now) }
    ensures made { Makes Y.Sink.tells (yarded (Y.Sink.begun yard.old) (Y.Sink.taken yard.old))
        (made_at (L.archive look.now).bodies path.now (entry_of entry.now))
        (yarded (Y.Sink.begun yard.new) (Y.Sink.taken yard.new)) result }
    ensures cause { HasOutCause (Y.Sink.faults yard.old) (Y.Sink.faults yard.new) result }
{
    if entry.mode == 40_000 {
        return make_folder(yard, path);
    }
    if entry.mode == 160_000 {
        return Ok(());
    }
    let kind = Kind::Content;
    let id = *entry.id;
    match look.body(&Name { kind, id }) {
        Some(body) => make_file(yard, path, body.as_slice()),
        None => unreachable!(),
    }
}
