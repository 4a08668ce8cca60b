//! What the rows under a directory weigh: as files, as lines of the listing, and as rows.
ghost use Rattle.std.specs.Prelude.{◌≡◌, ◌+◌, length};
ghost use Rattle.swh_dirfmt.specs.Entries.{entry_of};
ghost use Rattle.swh_listing.specs.Line.{mode_text};
ghost use Rattle.swh_dircook.specs.Rules.{file_length};
ghost use Rattle.swh_dircook.specs.Weights.{row_weight, file_weight, listed_weight, line_weight};

use swh_base::{Kind, Name};
use swh_dirfmt::SpelledEntry;
use swh_listing::Mode;
use swh_model::Look;
use swh_pathsums::{Weigh, Weight};

/// Each entry is one row.
#[derive(Drop)]
pub struct Rows;

impl Weigh for Rows {
    ghost weight_of = { λ s e. row_weight e };

    ghost may_weigh = { λ s e. Unit {0} };

    fn weigh(&self, _entry: &SpelledEntry<'_>) -> Weight
        requires { Unit {0} }
        ensures { result ≡ row_weight (entry_of _entry.now) }
    {
        Weight {
            bytes: 1,
            with_path: false,
        }
    }
}

/// Each entry has the bytes of its file.
#[derive(Drop)]
pub struct FileBytes<'a, L: Look> {
    pub look: &'a L,
}

/// How many bytes the file of an entry has; none where it has no file.
fn file_length<L: Look>(look: &L, entry: &SpelledEntry<'_>) -> usize
    ensures { result ≡ file_length (L.archive look.now).bodies (entry_of entry.now) }
{
    if entry.mode == 40_000 || entry.mode == 160_000 {
        return 0;
    }
    let kind = Kind::Content;
    let id = *entry.id;
    match look.body(&Name { kind, id }) {
        Some(body) => body.as_slice().len(),
        None => 0,
    }
}

impl<L: Look> Weigh for FileBytes<'_, L> {
    ghost weight_of = { λ s e. file_weight (L.archive s.look.now).bodies e };

    ghost may_weigh = { λ s e. Unit {0} };

    fn weigh(&self, entry: &SpelledEntry<'_>) -> Weight
        requires { Unit {0} }
        ensures { result ≡ file_weight (L.archive self.now.look.now).bodies (entry_of entry.now) }
    {
        Weight {
            bytes: file_length(self.look, entry) as u64,
            with_path: false,
        }
    }
}

/// Each entry has the line that the listing has of it, but for its path.
#[derive(Drop)]
pub struct ListedLines;

/// What a line of so many bytes weighs, but for its path.
fn line_of(bytes: u64) -> Weight
    ensures { result ≡ listed_weight bytes }
{
    Weight {
        bytes,
        with_path: true,
    }
}

/// How many bytes the line of a revision of another project has, but for its path: its mode, the digits of its id, and its end.
fn project_line(_id: &[u8; 20]) -> u64
    ensures { result ≡ length (mode_text (Mode.Project _id.now)) + 1 }
{
    49
}

impl Weigh for ListedLines {
    ghost weight_of = { λ s e. line_weight e };

    ghost may_weigh = { λ s e. Unit {0} };

    fn weigh(&self, entry: &SpelledEntry<'_>) -> Weight
        requires { Unit {0} }
        ensures { result ≡ line_weight (entry_of entry.now) }
    {
        if entry.mode == 100_755 || entry.mode == 120_000 {
            return line_of(8);
        }
        if entry.mode == 160_000 {
            return line_of(project_line(entry.id));
        }
        Weight {
            bytes: 0,
            with_path: false,
        }
    }
}
