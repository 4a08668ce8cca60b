//! The entry that bytes begin with, cut off part by part.

ghost use Rattle.std.specs.Prelude.{
  ◌≡◌,
  ◌≢◌,
  ◌↔◌,
  List,
  [],
  ◌++◌,
  ℕ,
  Contains,
  IsTrue,
  IfOk,
  IfErr,
  IfSome,
  IfNone,
  decimal,
};
ghost use Rattle.swh_base.specs.Directory.{DirectoryEntry, IsMode, IsEntryName, IsEntry, entry_text};
ghost use Rattle.swh_dirfmt.specs.Fault.{EntryBreaks};
ghost use Rattle.swh_dirfmt.specs.Entries.{entry_of};

use crate::entry::SpelledEntry;
use crate::fault::DirWhy;
use swh_base::split_at_byte;

/// The mode of these digits.
#[tactic(auto, using(crate::proofs::Modes::modes))]
fn mode_of(digits: &[u8]) -> Option<u32>
    ensures some { IfSome result (λ mode. IsMode mode × (digits.now ≡ decimal mode)) }
    ensures none { IfNone result ((mode : ℕ) → IsMode mode → digits.now ≢ decimal mode) }
{
    if digits == b"100644".as_slice() {
        Some(100_644)
    } else if digits == b"100755".as_slice() {
        Some(100_755)
    } else if digits == b"120000".as_slice() {
        Some(120_000)
    } else if digits == b"40000".as_slice() {
        Some(40_000)
    } else if digits == b"160000".as_slice() {
        Some(160_000)
    } else {
        None
    }
}

fn is_name(name: &[u8]) -> bool
    requires { Contains name.now 0 → ⊥ }
    ensures { IsTrue result ↔ IsEntryName name.now }
{
    !name.is_empty() && !name.contains(&b'/')
}

/// The entry at the front of these bytes, and the bytes after it.
pub fn front_entry(bytes: &[u8]) -> Result<(SpelledEntry<'_>, &[u8]), DirWhy>
    requires { bytes.now ≢ [] }
    ensures ok { IfOk result (λ x. IsEntry (entry_of x.0) × (bytes.now ≡ entry_text (entry_of x.0) ++ x.1.now)) }
    // Whatever entries stand before it, it breaks by its mode, its name or its id.
    ensures err { IfErr result (λ why. (before : List DirectoryEntry) → EntryBreaks before bytes.now why) }
{
    let Some((digits, rest)) = split_at_byte(bytes, b' ') else {
        return Err(DirWhy::Mode);
    };
    let Some(mode) = mode_of(digits) else {
        return Err(DirWhy::Mode);
    };
    let Some((name, rest)) = split_at_byte(rest, b'\0') else {
        return Err(DirWhy::Name);
    };
    if !is_name(name) {
        return Err(DirWhy::Name);
    }
    let Some((id, rest)) = rest.split_first_chunk::<20>() else {
        return Err(DirWhy::Short);
    };
    Ok((SpelledEntry { mode, name, id }, rest))
}
