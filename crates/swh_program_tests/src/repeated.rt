// Files that are too long to be held, and folders of too many files, and runs over them: each file gives one text many times
// over.
ghost use Rattle.std.specs.Prelude.{◌≡◌, IfOk, string_bytes};
ghost use Rattle.swh_outside.specs.Opened.{IfFound, IsFailed};

use std::alloc::{AllocError, Global};
use swh_folder_names::are_names;
use swh_memory_repeated::{RepeatedFile, RepeatedSource};
use swh_outside::{Folder, Item, Opened, Origins, OutFault, What};
use swh_program_fixtures::{Piece, spelled};

/// A file at a path: a text, how many times it comes, and what comes behind it.
#[derive(Clone, Copy)]
pub struct LongFile<'a> {
    pub path: &'a str,
    pub text: &'a [Piece<'a>],
    pub times: u64,
    pub end: &'a [Piece<'a>],
}

/// A folder at a path, of so many files, whose names are their numbers in six digits. Each gives a text so many times.
#[derive(Clone, Copy)]
pub struct LongFolder<'a> {
    pub path: &'a str,
    pub count: usize,
    pub text: &'a [Piece<'a>],
    pub times: u64,
}

/// Files and folders at their paths, of which none fails.
#[derive(Drop)]
pub struct LongOrigins<'a> {
    pub alloc: Global,
    pub files: &'a [LongFile<'a>],
    pub folders: &'a [LongFolder<'a>],
}

/// A folder that was opened at a path.
#[derive(Drop)]
pub struct OpenFolder<'a> {
    alloc: Global,
    path: String,
    files: LongFolder<'a>,
}

fn items_of(alloc: Global, count: usize) -> Result<Vec<Item>, AllocError> {
    let mut items = Vec::new(alloc);
    for number in 0..count {
        let name = format!(in alloc; "{number:06}")?;
        let what = What::File;
        items.push(Item { name, what })?;
    }
    Ok(items)
}

impl<'a> Folder for OpenFolder<'a> {
    ghost use Rattle.std.specs.Prelude.{string_bytes};
    ghost use Rattle.swh_outside.specs.Folder.{nothing};

    type S = RepeatedFile;

    ghost tells = { ⊥ };

    ghost holds = { λ _. nothing };

    ghost opened_at = { λ folder. string_bytes folder.path };

    ghost faults = { λ _. 0 };

    fn list(&mut self, alloc: Global, dir: &str) -> Result<Vec<Item>, OutFault> {
        let items = items_of(alloc, if dir.is_empty() { self.files.count } else { 0 })?;
        if are_names(alloc, &items)? {
            Ok(items)
        } else {
            Err(OutFault::Memory)
        }
    }

    fn read(&mut self, path: &str) -> Result<RepeatedFile, OutFault> {
        let file = LongFile {
            path: "",
            text: self.files.text,
            times: self.files.times,
            end: &[],
        };
        Ok(opened(self.alloc, &file, path)?)
    }

    fn back(&mut self, _source: RepeatedFile) {}
}

fn opened(alloc: Global, file: &LongFile<'_>, path: &str) -> Result<RepeatedFile, AllocError>
    ensures { IfOk result (λ file. file ≡ path.now) }
{
    let text = spelled(alloc, file.text)?;
    let end = spelled(alloc, file.end)?;
    let path = String::from_str(alloc, path)?;
    let source = RepeatedSource::new(text, file.times, end);
    Ok(RepeatedFile::new(path, source))
}

fn opened_at(alloc: Global, files: &[LongFile<'_>], path: &str) -> Opened<RepeatedFile>
    ensures path { IfFound result (λ file. file ≡ path.now) }
    ensures no_fault { IsFailed result → ⊥ }
{
    for file in files {
        if file.path == path {
            return match opened(alloc, file, path) {
                Ok(source) => Opened::Found(source),
                Err(_) => Opened::Memory,
            };
        }
    }
    Opened::NotFound
}

fn folder_at<'a>(alloc: Global, folders: &[LongFolder<'a>], path: &str) -> Opened<OpenFolder<'a>>
    ensures path { IfFound result (λ folder. string_bytes folder.path ≡ path.now) }
    ensures no_fault { IsFailed result → ⊥ }
{
    for files in folders {
        if files.path == path {
            return match String::from_str(alloc, path) {
                Ok(path) => Opened::Found(OpenFolder {
                    alloc,
                    path,
                    files: *files,
                }),
                Err(_) => Opened::Memory,
            };
        }
    }
    Opened::NotFound
}

impl<'a> Origins for LongOrigins<'a> {
    ghost use Rattle.std.specs.Prelude.{None};

    type S = RepeatedFile;

    type F = OpenFolder<'a>;

    ghost tells = { ⊥ };

    ghost file_at = { λ _ _. None };

    ghost folder_at = { λ _ _. None };

    ghost faults = { λ _. 0 };

    ghost path_faults = { λ _ _. 0 };

    ghost has_place = { λ _ _. Unit {0} };

    fn file(&mut self, path: &str) -> Opened<RepeatedFile> {
        opened_at(self.alloc, self.files, path)
    }

    fn folder(&mut self, path: &str) -> Opened<OpenFolder<'a>> {
        folder_at(self.alloc, self.folders, path)
    }

    fn back(&mut self, _source: RepeatedFile) {}

    fn back_folder(&mut self, _folder: OpenFolder<'a>) {}
}
