//! Names that no folder can have.
ghost use Rattle.std.specs.Prelude.{◌↔◌, IsTrue, IfSome, IfNone, Contains};
ghost use Rattle.std.specs.Str.{IsUtf8};
ghost use Rattle.swh_dirfmt.specs.declared.entry.SpelledEntry.{SpelledEntry as Spelled};
ghost use Rattle.swh_dircook.specs.Names.{IsPlainName, BreaksByName};

use swh_carried::Why;
use swh_dirfmt::SpelledEntry;

#[tactic(auto, unfolding(crate::specs::Names::IsPlainName))]
fn is_plain(name: &[u8]) -> bool
    ensures { IsTrue result ↔ IsPlainName name.now }
{
    if name == b".".as_slice() {
        return false;
    }
    name != b"..".as_slice()
}

fn is_text(name: &[u8]) -> bool
    ensures { IsTrue result ↔ IsUtf8 name.now }
{
    match str::from_utf8(name) {
        Ok(_) => true,
        Err(_) => false,
    }
}

/// The first of these entries that is `.` or `..`.
fn first_dots<'a>(entries: &[SpelledEntry<'a>]) -> Option<SpelledEntry<'a>>
    ensures some { IfSome result (λ e. Contains entries.now e × (IsPlainName e.name.now → ⊥)) }
    ensures none { IfNone result ((e : Spelled) → Contains entries.now e → IsPlainName e.name.now) }
{
    for entry in entries {
        if !is_plain(entry.name) {
            return Some(*entry);
        }
    }
    None
}

/// The first of these entries whose name is no UTF-8.
fn first_other<'a>(entries: &[SpelledEntry<'a>]) -> Option<SpelledEntry<'a>>
    ensures some { IfSome result (λ e. Contains entries.now e × (IsUtf8 e.name.now → ⊥)) }
    ensures none { IfNone result ((e : Spelled) → Contains entries.now e → IsUtf8 e.name.now) }
{
    for entry in entries {
        if !is_text(entry.name) {
            return Some(*entry);
        }
    }
    None
}

/// The first of the rules on names that one of these entries breaks: none is `.` or `..`, and each is UTF-8.
pub fn rule_of_names(entries: &[SpelledEntry<'_>]) -> Option<Why>
    ensures { BreaksByName entries.now result }
{
    match first_dots(entries) {
        Some(_) => Some(Why::Dots),
        None => match first_other(entries) {
            Some(_) => Some(Why::Text),
            None => None,
        },
    }
}
