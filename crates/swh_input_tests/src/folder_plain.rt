// A folder of files whose bytes do not matter: so many of them, each of so many bytes, which are counted as they are taken.
ghost use Rattle.std.specs.Prelude.{◌≡◌, string_bytes};

use std::alloc::{AllocError, Global};
use std::marker::Model;
use swh_folder_names::are_names;
use swh_outside::{Failed, Folder, Item, OutFault, Source, What};

/// A file of so many bytes, whichever stand in the buffer.
#[derive(Drop)]
pub struct PlainFile {
    path: String,
    left: usize,
    taken: usize,
}

impl Model for PlainFile {
    ghost use Rattle.std.specs.Prelude.{ℕ, List, string_bytes};

    ghost Value = { List ℕ };

    ghost view = { λ file. string_bytes file.path };
}

impl PlainFile {
    fn open(path: String, left: usize) -> PlainFile
        ensures { result ≡ string_bytes path }
    {
        PlainFile {
            path,
            left,
            taken: 0,
        }
    }

    /// How many bytes it gave.
    fn taken(&self) -> usize {
        self.taken
    }
}

impl Source for PlainFile {
    ghost use Rattle.std.specs.Prelude.{[], false};

    ghost tells = { ⊥ };

    ghost left = { λ _. [] };

    ghost given = { λ _. [] };

    ghost ended = { λ _. false };

    ghost faults = { λ _. 0 };

    ghost path = { λ file. file };

    fn get(&mut self, out: &mut [u8]) -> Result<usize, Failed> {
        let count = out.len().min(self.left);
        self.left -= count;
        self.taken = self.taken.saturating_add(count);
        Ok(count)
    }
}

/// A folder of so many files of one length, whose names are numbers of five digits.
#[derive(Drop)]
pub struct PlainFolder {
    pub alloc: Global,
    pub count: usize,
    pub length: usize,
    /// How many bytes its files gave.
    pub taken: usize,
}

/// Five digits of a number.
fn name_of(alloc: Global, number: usize) -> Result<String, AllocError> {
    let mut name = String::new(alloc);
    for power in [10_000, 1_000, 100, 10, 1] {
        name.push_str(["0", "1", "2", "3", "4", "5", "6", "7", "8", "9"][number / power % 10])?;
    }
    Ok(name)
}

fn items_of(alloc: Global, count: usize) -> Result<Vec<Item>, AllocError> {
    let mut items = Vec::new(alloc);
    for number in 0..count {
        let name = name_of(alloc, number)?;
        let what = What::File;
        items.push(Item { name, what })?;
    }
    Ok(items)
}

impl Folder for PlainFolder {
    ghost use Rattle.std.specs.Prelude.{[]};
    ghost use Rattle.swh_outside.specs.Folder.{nothing};

    type S = PlainFile;

    ghost tells = { ⊥ };

    ghost holds = { λ _. nothing };

    ghost opened_at = { λ _. [] };

    ghost faults = { λ _. 0 };

    fn list(&mut self, alloc: Global, _dir: &str) -> Result<Vec<Item>, OutFault> {
        let items = items_of(alloc, self.count)?;
        if are_names(alloc, &items)? {
            Ok(items)
        } else {
            Err(OutFault::Memory)
        }
    }

    fn read(&mut self, path: &str) -> Result<PlainFile, OutFault> {
        let path = String::from_str(self.alloc, path)?;
        Ok(PlainFile::open(path, self.length))
    }

    // None of its files fails.
    fn back(&mut self, file: PlainFile) {
        self.taken = self.taken.saturating_add(file.taken());
    }
}
