//! The lines of a listing.
ghost use Rattle.std.specs.Prelude.{◌≡◌, ◌++◌, ◌∷◌, [], OnOk};
ghost use Rattle.swh_dirfmt.specs.Entries.{entry_of};
ghost use Rattle.swh_fastwrite.specs.Quoted.{quoted_path};
ghost use Rattle.swh_listing.specs.Line.{mode_text};
ghost use Rattle.swh_dircook.specs.Listing.{mode_of, with_path, line_or_none};

use swh_base::Memory;
use swh_dirfmt::SpelledEntry;
use swh_fastwrite::push_path;
use swh_listing::Mode;

/// What a listing says of an entry.
fn mode_of(entry: &SpelledEntry<'_>) -> Option<Mode>
    ensures { result ≡ mode_of (entry_of entry.now) }
{
    if entry.mode == 100_755 {
        return Some(Mode::Executable);
    }
    if entry.mode == 120_000 {
        return Some(Mode::Link);
    }
    if entry.mode == 160_000 {
        return Some(Mode::Project(*entry.id));
    }
    None
}

/// What a line has for a revision of another project before its path.
fn push_project(out: &mut Vec<u8>, id: &[u8; 20]) -> Result<(), Memory>
    ensures { OnOk result (out.new.items ≡ out.old.items ++ mode_text (Mode.Project id.now)) }
{
    let mut digits = [0; 40];
    let _ = hex::encode_to_slice(id, &mut digits);
    out.extend_from_slice(b"160000 ")?;
    out.extend_from_slice(&digits)?;
    out.extend_from_slice(b" ")?;
    Ok(())
}

/// What a line has before its path.
fn push_mode(out: &mut Vec<u8>, mode: &Mode) -> Result<(), Memory>
    ensures { OnOk result (out.new.items ≡ out.old.items ++ mode_text mode.now) }
{
    match mode {
        Mode::Executable => out.extend_from_slice(b"100755 ")?,
        Mode::Link => out.extend_from_slice(b"120000 ")?,
        Mode::Project(id) => push_project(out, id)?,
    }
    Ok(())
}

/// A path and the end of its line.
fn push_path_line(out: &mut Vec<u8>, path: &[u8]) -> Result<(), Memory>
    ensures { OnOk result (out.new.items ≡ out.old.items ++ (quoted_path path.now ++ 10 ∷ [])) }
{
    push_path(out, path)?;
    out.push(b'\n')?;
    Ok(())
}

/// Appends the line of an entry, by its path in the folder: nothing for a folder, and for a file that is no program and no
/// link.
pub fn push_listed(out: &mut Vec<u8>, path: &[u8], entry: &SpelledEntry<'_>) -> Result<(), Memory>
    ensures { OnOk result (out.new.items
        ≡ out.old.items ++ line_or_none (with_path path.now (mode_of (entry_of entry.now)))) }
{
    let Some(mode) = mode_of(entry) else {
        return Ok(());
    };
    push_mode(out, &mode)?;
    push_path_line(out, path)
}
