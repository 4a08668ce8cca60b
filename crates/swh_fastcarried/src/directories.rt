//! Entries of directories that a stream cannot carry.
ghost use Rattle.std.specs.Prelude.{◌≡◌, ◌↔◌, IsTrue, IfSome, IfNone, Contains, ◌∷◌, []};
ghost use Rattle.swh_carried.specs.Rules.{IsDots};
ghost use Rattle.swh_dirfmt.specs.declared.entry.SpelledEntry.{SpelledEntry as Spelled};
ghost use Rattle.swh_dirfmt.specs.Entries.{entries_in_body};
ghost use Rattle.swh_fastcarried.specs.First.{HaveDots};

use swh_dirfmt::SpelledEntry;

fn is_dot(name: &[u8]) -> bool
    ensures { IsTrue result ↔ (name.now ≡ 46 ∷ []) }
{
    name == b".".as_slice()
}

fn is_dot_dot(name: &[u8]) -> bool
    ensures { IsTrue result ↔ (name.now ≡ 46 ∷ 46 ∷ []) }
{
    name == b"..".as_slice()
}

/// Whether a name is `.` or `..`.
fn is_dots(name: &[u8]) -> bool
    ensures { IsTrue result ↔ IsDots name.now }
{
    if is_dot(name) {
        return true;
    }
    is_dot_dot(name)
}

/// The first of these entries that is `.` or `..`.
fn first_dots<'a>(entries: &[SpelledEntry<'a>]) -> Option<SpelledEntry<'a>>
    ensures some { IfSome result (λ e. Contains entries.now e × IsDots e.name.now) }
    ensures none { IfNone result ((e : Spelled) → Contains entries.now e → IsDots e.name.now → ⊥) }
{
    for entry in entries {
        if is_dots(entry.name) {
            return Some(*entry);
        }
    }
    None
}

/// Whether one of these entries is `.` or `..`.
pub fn have_dots(entries: &[SpelledEntry<'_>]) -> bool
    ensures { IsTrue result ↔ HaveDots (entries_in_body entries.now) }
{
    match first_dots(entries) {
        Some(_) => true,
        None => false,
    }
}
