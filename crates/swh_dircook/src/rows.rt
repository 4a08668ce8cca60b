//! What stands in a folder for an entry, by its path from the folder.
ghost use Rattle.std.specs.Prelude.{◌≡◌, IfOk, string_bytes};
ghost use Rattle.std.specs.Str.{IsUtf8};
ghost use Rattle.swh_outside.specs.Causes.{HasOutCause};
ghost use Rattle.swh_dirfmt.specs.Entries.{entry_of};
ghost use Rattle.swh_dircook.specs.Made.{made_at, path_in, IsFileHeld, yarded, Makes};

use crate::making::make_entry;
use std::alloc::{AllocError, Global};
use swh_dirfmt::SpelledEntry;
use swh_model::Look;
use swh_outside::{OutFault, Yard};

/// The path of what stands in a folder.
fn text_in(alloc: Global, out: &str, path: &[u8]) -> Result<String, AllocError>
    requires { IsUtf8 path.now }
    ensures { IfOk result (λ text. string_bytes text ≡ path_in out.now path.now) }
{
    let Ok(path) = str::from_utf8(path) else {
        unreachable!()
    };
    let mut text = String::from_str(alloc, out)?;
    text.push_str("/")?;
    text.push_str(path)?;
    Ok(text)
}

/// Makes what stands in a folder for an entry, whose path from there is UTF-8. Fails where the yard does, which has then a
/// front of it, or where memory runs out.
pub fn make_row<L: Look, Y: Yard>(
    alloc: Global,
    look: &L,
    yard: &mut Y,
    out: &str,
    path: &[u8],
    entry: &SpelledEntry<'_>,
) -> Result<(), OutFault>
    requires text { IsUtf8 path.now }
    requires held { IsFileHeld (L.archive look.now).bodies (entry_of entry.now) }
    ensures made { Makes Y.Sink.tells (yarded (Y.Sink.begun yard.old) (Y.Sink.taken yard.old))
        (made_at (L.archive look.now).bodies (path_in out.now path.now) (entry_of entry.now))
        (yarded (Y.Sink.begun yard.new) (Y.Sink.taken yard.new)) result }
    ensures cause { HasOutCause (Y.Sink.faults yard.old) (Y.Sink.faults yard.new) result }
{
    let text = match text_in(alloc, out, path) {
        Ok(text) => text,
        Err(_) => return Err(OutFault::Memory),
    };
    make_entry(look, yard, text.as_str(), entry)
}
