//! The order of git's directories (git objects, tree): by names, a folder's as if it ended in a slash.

ghost use Rattle.std.specs.Prelude.{◌≡◌, ◌<◌, ◌≤◌, ◌++◌, length};
ghost use Rattle.swh_entries.specs.Keys.{is_before, entry_key, suffix, texts};

use crate::entry::{Child, Entry};
use std::cmp::Ordering;

/// What a name is compared with after its own bytes.
pub fn suffix(child: Child) -> &'static [u8]
    ensures { result.now ≡ suffix child }
{
    match child {
        Child::File(_) => b"",
        Child::Folder(_) => b"/",
    }
}

/// How many bytes stand in both names.
fn common_of(a: &[u8], b: &[u8]) -> usize
    ensures first { result ≤ length a.now }
    ensures second { result ≤ length b.now }
{
    a.len().min(b.len())
}

/// Whether what is left of the first name, with what it is compared with after it, comes before that of the second: of one
/// of them nothing is left.
fn is_rest_less(a: &[u8], a_end: &[u8], b: &[u8], b_end: &[u8]) -> bool
    ensures { result ≡ is_before (a.now ++ a_end.now) (b.now ++ b_end.now) }
{
    let key = a.iter().chain(a_end);
    key.cmp(b.iter().chain(b_end)).is_lt()
}

/// Whether the first name, with what it is compared with after it, comes before the second.
fn is_less(a: &[u8], a_end: &[u8], b: &[u8], b_end: &[u8]) -> bool
    ensures { result ≡ is_before (a.now ++ a_end.now) (b.now ++ b_end.now) }
{
    let common = common_of(a, b);
    let (front, rest) = a.split_at(common);
    let (other_front, other_rest) = b.split_at(common);
    match front.cmp(other_front) {
        Ordering::Less => true,
        Ordering::Equal => is_rest_less(rest, a_end, other_rest, b_end),
        Ordering::Greater => false,
    }
}

/// Whether this name, with what it is compared with after it, comes before the entry.
pub fn comes_before(names: &[Vec<u8>], name: &[u8], end: &[u8], f: Entry) -> bool
    requires { f.name < length names.now }
    ensures { result ≡ is_before (name.now ++ end.now) (entry_key (texts names.now) f) }
{
    is_less(name, end, names[f.name].as_slice(), suffix(f.child))
}

/// Whether this name, with what it is compared with after it, comes before the entry, if that one's name has a number.
pub fn is_name_before(names: &[Vec<u8>], name: &[u8], end: &[u8], f: Entry) -> bool {
    f.name < names.len() && comes_before(names, name, end, f)
}
