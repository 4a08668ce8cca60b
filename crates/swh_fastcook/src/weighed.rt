//! How long the lines of the files of trees are.
ghost use Rattle.std.specs.Prelude.{◌≡◌, ◌+◌, decimal, length};
ghost use Rattle.hex.specs.Hex.{encode_lower};
ghost use Rattle.swh_base.specs.Directory.{DirectoryEntry};
ghost use Rattle.swh_dirfmt.specs.Entries.{entry_of};
ghost use Rattle.swh_pathsums.specs.declared.weight.Weight.{Weight as Weighed};
ghost use Rattle.swh_fastcook.specs.Files.{IsFileIn};
ghost use Rattle.swh_fastcook.specs.Weighed.{file_weight};

use itoa::Buffer;
use swh_base::{Kind, Name};
use swh_dirfmt::SpelledEntry;
use swh_marks::Marks;
use swh_pathsums::{Weigh, Weight};

/// The lines of files, weighed by the marks of their contents.
#[derive(Clone, Copy)]
pub struct FileLines<'a> {
    pub marks: &'a Marks,
}

/// How many digits a number has.
fn digits(number: u64) -> usize
    ensures { result ≡ length (decimal number) }
{
    let mut digits = Buffer::new();
    digits.format(number).len()
}

/// How many bytes stand for a revision of another project, but for its path.
fn project_bytes(id: [u8; 20]) -> u64
    ensures { result ≡ 11 + length (encode_lower id) }
{
    let _ = id;
    51
}

/// How many bytes stand for a file, but for its path.
#[tactic(auto, using(crate::proofs::FileLengths::digits_few))]
fn file_bytes(mode: u32, mark: u64) -> u64
    ensures { result ≡ 6 + length (decimal mode) + length (decimal mark) }
{
    let mode = digits(mode as u64);
    let mark = digits(mark);
    6 + mode as u64 + mark as u64
}

/// How many bytes stand for an entry of a tree, but for its path: none for a folder.
fn line_bytes(marks: &Marks, entry: &SpelledEntry<'_>) -> u64
    requires { IsFileIn marks.now (entry_of entry.now) }
    ensures { result ≡ (file_weight marks.now (entry_of entry.now)).bytes }
{
    if entry.mode == 40_000 {
        return 0;
    }
    if entry.mode == 160_000 {
        return project_bytes(*entry.id);
    }
    let kind = Kind::Content;
    let id = *entry.id;
    file_bytes(entry.mode, marks.get(&Name { kind, id }))
}

impl<'a> Weigh for FileLines<'a> {
    ghost weight_of = { λ lines. file_weight lines.marks.now };

    ghost may_weigh = { λ lines. IsFileIn lines.marks.now };

    fn weigh(&self, entry: &SpelledEntry<'_>) -> Weight {
        Weight {
            bytes: line_bytes(self.marks, entry),
            with_path: entry.mode != 40_000,
        }
    }
}
