//! What the rows under a directory sum up to, as far as numbers go.
ghost use Rattle.std.specs.Prelude.{◌≡◌, if◌then◌else◌, ◌+◌, ◌*◌, ◌++◌, ◌∷◌, [], ℕ, List, length, map};
ghost use Rattle.std.specs.List.{flat_map, list_any};
ghost use Rattle.swh_base.specs.Directory.{DirectoryEntry};
ghost use Rattle.swh_fastwrite.specs.Quoted.{is_quoted_byte, quoted_byte};
ghost use Rattle.swh_pathwalk.specs.Tree.{Row};
ghost use Rattle.swh_pathsums.specs.declared.weight.Weight.{Weight as Weighed};
ghost use Rattle.swh_pathsums.specs.Lengths.{IsUpTo};
ghost use Rattle.swh_pathsums.specs.Tallies.{Tallies, IsSpelling, one_if, where_written, row_behind, total_of};

use crate::weight::Weight;

/// Of some rows: how many are written with their paths, and how many of those paths are quoted; the bytes that the rows have
/// by their entries; and the bytes of those paths, but for the quotes round them. Each as far as a number goes.
#[derive(Clone, Copy, Debug, PartialEq, Eq)]
pub struct Tally {
    pub paths: u64,
    pub quoted: u64,
    pub bytes: u64,
    pub spelled: u64,
}

/// How a name is spelled in a path: whether it has the path quoted, and the bytes of it there.
#[derive(Clone, Copy, Debug, PartialEq, Eq)]
pub struct Spelling {
    pub quoted: bool,
    pub bytes: u64,
}

/// A sum, as far as a number goes: exact, or above 2 to the 32nd where the true one is.
#[tactic(auto, using(crate::proofs::UpTo::up_plus))]
pub fn plus(a: u64, b: u64) -> u64
    ensures { (m n : ℕ) → IsUpTo m a → IsUpTo n b → IsUpTo (m + n) result }
{
    a.saturating_add(b)
}

/// A product, as far as a number goes.
#[tactic(auto, using(crate::proofs::UpTo::up_times))]
fn times(a: u64, b: u64) -> u64
    ensures { (m n : ℕ) → IsUpTo m a → IsUpTo n b → IsUpTo (m * n) result }
{
    a.saturating_mul(b)
}

fn is_quoted_byte(c: u8) -> bool
    ensures { result ≡ is_quoted_byte c }
{
    c <= 31 || c == b'"' || c == b'\\' || c >= 127
}

fn has_quoted_byte(name: &[u8]) -> bool
    ensures { result ≡ list_any is_quoted_byte name.now }
{
    name.iter().any(|c| is_quoted_byte(*c))
}

/// How many bytes stand for a byte of a quoted path.
fn byte_length(c: u8) -> u64
    ensures { result ≡ length (quoted_byte c) }
{
    if c == b'"' || c == b'\\' {
        return 2;
    }
    if is_quoted_byte(c) {
        return 4;
    }
    1
}

/// How many bytes stand for those of a name in a quoted path.
fn quoted_length(name: &[u8]) -> u64
    ensures { IsUpTo (length (flat_map quoted_byte name.now)) result }
{
    let mut bytes: u64 = 0;
    for c in name {
        bytes = plus(bytes, byte_length(*c));
    }
    bytes
}

/// How a name is spelled.
pub(crate) fn spell(name: &[u8]) -> Spelling
    ensures { IsSpelling name.now result }
{
    if !has_quoted_byte(name) {
        let bytes = name.len() as u64;
        return Spelling {
            quoted: false,
            bytes,
        };
    }
    Spelling {
        quoted: true,
        bytes: quoted_length(name),
    }
}

impl Tally {
    /// What no rows sum up to.
    pub(crate) const NONE: Tally = Tally {
        paths: 0,
        quoted: 0,
        bytes: 0,
        spelled: 0,
    };
}

/// The number where a path is written, and else nothing.
fn where_written(with_path: bool, count: u64) -> u64
    ensures { (n : ℕ) → IsUpTo n count → IsUpTo (where_written with_path n) result }
{
    if with_path {
        return count;
    }
    0
}

/// One for what is so.
fn one_if(so: bool) -> u64
    ensures { result ≡ one_if so }
{
    if so {
        return 1;
    }
    0
}

/// What a row sums up to, whose path is spelled like this.
pub(crate) fn of_row(weight: Weight, path: Spelling) -> Tally
    ensures { (weigh : DirectoryEntry → Weighed) (row : Row) → weigh row.entry ≡ weight → IsSpelling row.path path
        → Tallies weigh (row ∷ []) result }
{
    Tally {
        paths: where_written(weight.with_path, 1),
        quoted: where_written(weight.with_path, one_if(path.quoted)),
        bytes: weight.bytes,
        spelled: where_written(weight.with_path, path.bytes),
    }
}

/// How many of some rows have quoted paths behind the name of a folder: all that have paths, where the name is quoted.
fn quoted_behind(folder: Spelling, inner: Tally) -> u64
    ensures { result ≡ if folder.quoted then inner.paths else inner.quoted }
{
    if folder.quoted {
        return inner.paths;
    }
    inner.quoted
}

/// What rows sum up to behind the name of a folder, and a slash.
pub(crate) fn behind(folder: Spelling, inner: Tally) -> Tally
    ensures { (weigh : DirectoryEntry → Weighed) (name : List ℕ) (rows : List Row) → IsSpelling name folder
        → Tallies weigh rows inner → Tallies weigh (map (row_behind (name ++ 47 ∷ [])) rows) result }
{
    Tally {
        paths: inner.paths,
        quoted: quoted_behind(folder, inner),
        bytes: inner.bytes,
        spelled: plus(times(inner.paths, plus(folder.bytes, 1)), inner.spelled),
    }
}

/// What rows and further rows sum up to together.
pub(crate) fn both(first: Tally, further: Tally) -> Tally
    ensures { (weigh : DirectoryEntry → Weighed) (xs ys : List Row) → Tallies weigh xs first → Tallies weigh ys further
        → Tallies weigh (xs ++ ys) result }
{
    Tally {
        paths: plus(first.paths, further.paths),
        quoted: plus(first.quoted, further.quoted),
        bytes: plus(first.bytes, further.bytes),
        spelled: plus(first.spelled, further.spelled),
    }
}

/// How long the texts of rows are together that sum up to this.
pub(crate) fn length_of(t: Tally) -> u64
    ensures { result ≡ total_of t }
{
    let texts = t.bytes.saturating_add(t.spelled);
    texts.saturating_add(t.quoted.saturating_mul(2))
}
