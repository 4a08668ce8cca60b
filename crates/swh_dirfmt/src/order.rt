//! Where an entry stands among others: its name is new, and it comes after them.

ghost use Rattle.std.specs.Prelude.{◌≡◌, ◌≢◌, ◌↔◌, ◌++◌, true, false, length, All, IsTrue};
ghost use Rattle.std.specs.List.{AllWithin};
ghost use Rattle.std.specs.Ordering.{nat_cmp, is_lt};
ghost use Rattle.std.specs.Cmp.Lexicographic.{slice_cmp};
ghost use Rattle.swh_base.specs.Directory.{IsAfter, AreEntries, suffix_of};
ghost use Rattle.swh_dirfmt.specs.Entries.{entry_of, entries_in_body, comes_before};

use crate::entry::SpelledEntry;

/// What a name is compared with after its own bytes.
fn suffix(mode: u32) -> &'static [u8]
    ensures { result.now ≡ suffix_of mode }
{
    if mode == 40_000 { b"/" } else { b"" }
}

/// Whether the first name comes before the second.
fn is_before(mode: u32, name: &[u8], next_mode: u32, next_name: &[u8]) -> bool
    ensures { result ≡ is_lt (slice_cmp nat_cmp (name.now ++ suffix_of mode) (next_name.now ++ suffix_of next_mode)) }
{
    let key = name.iter().chain(suffix(mode));
    key.cmp(next_name.iter().chain(suffix(next_mode))).is_lt()
}

/// How many of the entries, which ascend, come before this name.
fn count_before(entries: &[SpelledEntry<'_>], mode: u32, name: &[u8]) -> usize
    requires { AreEntries (entries_in_body entries.now) }
    ensures before { AllWithin (λ e. comes_before (name.now ++ suffix_of mode) e ≡ true) entries.now 0 result }
    ensures others { AllWithin (λ e. comes_before (name.now ++ suffix_of mode) e ≡ false) entries.now result
        (length entries.now) }
{
    let mut low = 0;
    let mut high = entries.len();
    'halves: while low < high {
        let middle = low + (high - low) / 2;
        let entry = &entries[middle];
        if is_before(entry.mode, entry.name, mode, name) {
            low = middle + 1;
        } else {
            high = middle;
        }
    }
    low
}

/// Whether one of the entries, which ascend, has this name and is ordered as this mode is.
fn has_name(entries: &[SpelledEntry<'_>], mode: u32, name: &[u8]) -> bool
    requires { AreEntries (entries_in_body entries.now) }
    ensures found { IsTrue result → All (λ e. e.name.now ≢ name.now) entries.now → ⊥ }
    ensures none { (IsTrue result → ⊥) → All (λ e. suffix_of e.mode ≡ suffix_of mode
        → e.name.now ≢ name.now) entries.now }
{
    match entries.get(count_before(entries, mode, name)) {
        Some(entry) => entry.name == name,
        None => false,
    }
}

/// Whether this name, as a file's, comes after all of the entries: then none of them has it, neither as a file nor as a
/// folder.
fn is_past(before: &[SpelledEntry<'_>], name: &[u8]) -> bool
    requires { AreEntries (entries_in_body before.now) }
    ensures { IsTrue result → All (λ other. other.name.now ≢ name.now) before.now }
{
    match before.last() {
        Some(last) => is_before(last.mode, last.name, 100_644, name),
        None => true,
    }
}

/// Whether no entry has this name, neither as a file nor as a folder. Since the entries ascend, the last one mostly tells;
/// where it does not, as for `a` after `a.b`, two searches find it.
pub fn is_fresh(before: &[SpelledEntry<'_>], name: &[u8]) -> bool
    requires { AreEntries (entries_in_body before.now) }
    ensures { IsTrue result ↔ All (λ other. other.name.now ≢ name.now) before.now }
{
    if is_past(before, name) {
        return true;
    }
    let file = has_name(before, 100_644, name);
    let folder = has_name(before, 40_000, name);
    !file && !folder
}

/// Whether this entry comes after all of the entries.
pub fn is_after(before: &[SpelledEntry<'_>], next: &SpelledEntry<'_>) -> bool
    requires { AreEntries (entries_in_body before.now) }
    ensures { IsTrue result ↔ IsAfter (entries_in_body before.now) (entry_of next.now) }
{
    match before.last() {
        Some(last) => is_before(last.mode, last.name, next.mode, next.name),
        None => true,
    }
}
