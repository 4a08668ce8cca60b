//! The entry of one name in a directory's body. No list of the entries is made.
ghost use Rattle.std.specs.Prelude.{◌≡◌, ◌<◌, ℕ, IfSome, IfNone, decimal, length};
ghost use Rattle.swh_base.specs.Directory.{IsMode};
ghost use Rattle.swh_dirfmt.specs.Entries.{entry_of};
ghost use Rattle.swh_graph.specs.Named.{TakesEntry, HasNoEntry, IsNamedIn, HasNoneNamed};

use swh_base::split_at_byte;
use swh_dirfmt::SpelledEntry;

/// The mode that an entry's digits write.
fn mode_of(digits: &[u8]) -> u32
    ensures { (mode : ℕ) → IsMode mode → digits.now ≡ decimal mode → result ≡ mode }
{
    if digits == b"100644".as_slice() {
        100_644
    } else if digits == b"100755".as_slice() {
        100_755
    } else if digits == b"120000".as_slice() {
        120_000
    } else if digits == b"40000".as_slice() {
        40_000
    } else {
        160_000
    }
}

/// The first of the entries that the bytes spell, and the bytes behind it. It takes for granted that they spell entries.
fn first_entry(bytes: &[u8]) -> Option<(SpelledEntry<'_>, &[u8])>
    ensures some { IfSome result (λ x. TakesEntry bytes.now (entry_of x.0) x.1.now) }
    ensures shorter { IfSome result (λ x. length x.1.now < length bytes.now) }
    ensures none { IfNone result (HasNoEntry bytes.now) }
{
    let Some((digits, behind)) = split_at_byte(bytes, b' ') else {
        return None;
    };
    let Some((name, after)) = split_at_byte(behind, b'\0') else {
        return None;
    };
    let Some((id, rest)) = after.split_first_chunk::<20>() else {
        return None;
    };
    let mode = mode_of(digits);
    Some((SpelledEntry { mode, name, id }, rest))
}

/// The entry of a name, where it lies in a directory's body. The entries before it are read, and none behind it.
pub fn find_entry<'a>(body: &'a [u8], name: &[u8]) -> Option<SpelledEntry<'a>>
    ensures some { IfSome result (λ entry. IsNamedIn body.now name.now (entry_of entry)) }
    ensures none { IfNone result (HasNoneNamed body.now name.now) }
{
    let mut rest = body;
    'entries: while let Some((entry, behind)) = first_entry(rest) {
        if entry.name == name {
            return Some(entry);
        }
        rest = behind;
    }
    None
}
