// Origins in memory.
ghost use Rattle.std.specs.Prelude.{◌≡◌, ◌≢◌, ◌<◌, ◌≤◌, [], false, List, ℕ, None, Some, length, IfOk};
ghost use Rattle.std.specs.List.{position_or_len};
ghost use Rattle.swh_memory_input.specs.Folders.{is_folder_for, tree_at, folder_made_at, folder_places, folder_tree, folder_path, folder_tally, folder_faults};
ghost use Rattle.swh_memory_input.specs.Outside.{is_for, input_at, made_at};
ghost use Rattle.swh_memory_input.specs.Inputs.{
  source_left,
  source_given,
  source_ended,
  source_path,
  source_piece,
  source_tally,
  source_faults,
};

use crate::{FolderInput, Input, MemoryFolder, MemorySource};
use std::alloc::{AllocError, Global};
use swh_memory_failures::Failures;
use swh_outside::{Opened, Origins, PathCounts};

/// Files and folders outside, by their paths.
#[derive(Drop)]
pub struct MemoryOrigins {
    alloc: Global,
    inputs: Vec<Input>,
    folders: Vec<FolderInput>,
    failures: Failures,
    counts: PathCounts,
}

impl MemoryOrigins {
    ghost use Rattle.swh_outside.specs.Faults.{one_more};
    ghost use Rattle.swh_memory_input.specs.Outside.{
      origin_files,
      origin_folders,
      origin_inputs,
      origin_folder_inputs,
      origin_tally,
      origin_faults,
      origin_path_faults,
      has_origin_place,
      SameOutside,
      KeepsCounts,
      CountsGivenBack,
    };
    ghost use Rattle.swh_memory_failures.specs.Tally.{fresh_tally, refused};

    /// Origins with these inputs, and no folders. Of two at one path the first counts. Openings with the listed numbers,
    /// from 0, will fail.
    pub fn new(alloc: Global, inputs: Vec<Input>, failing: Vec<u64>) -> Self
        ensures files { (path : List ℕ) → origin_files result path ≡ input_at inputs.items path }
        ensures folders { (path : List ℕ) → origin_folders result path ≡ None }
        ensures inputs { origin_inputs result ≡ inputs.items }
        ensures failing { origin_tally result ≡ fresh_tally failing.items }
        ensures no_fault { origin_faults result ≡ 0 }
        ensures no_path_fault { (path : List ℕ) → origin_path_faults result path ≡ 0 }
    {
        MemoryOrigins::with_folders(alloc, inputs, Vec::new(alloc), failing)
    }

    /// Origins with these inputs and folders. Of two files at one path the first counts, and so of two folders.
    /// Openings with the listed numbers, from 0, will fail.
    pub fn with_folders(
        alloc: Global,
        inputs: Vec<Input>,
        folders: Vec<FolderInput>,
        failing: Vec<u64>,
    ) -> Self
        ensures files { (path : List ℕ) → origin_files result path ≡ input_at inputs.items path }
        ensures folders { (path : List ℕ) → origin_folders result path ≡ tree_at folders.items path }
        ensures inputs { origin_inputs result ≡ inputs.items }
        ensures folder_inputs { origin_folder_inputs result ≡ folders.items }
        ensures failing { origin_tally result ≡ fresh_tally failing.items }
        ensures no_fault { origin_faults result ≡ 0 }
        ensures no_path_fault { (path : List ℕ) → origin_path_faults result path ≡ 0 }
    {
        MemoryOrigins {
            alloc,
            inputs,
            folders,
            failures: Failures::at(failing),
            counts: PathCounts::new(alloc),
        }
    }

    /// How often it has failed, what it gave included once it is given back.
    pub fn faults(&self) -> u64
        ensures { result ≡ origin_faults self.now }
    {
        self.failures.count()
    }

    /// How often it has failed at a path.
    pub fn path_faults(&self, path: &str) -> u64
        ensures { result ≡ origin_path_faults self.now path.now }
    {
        self.counts.at(path)
    }

    // Counts a failure at a path.
    fn refuse(&mut self, path: &str)
        ensures same { SameOutside self.old self.new }
        ensures keeps { KeepsCounts self.old self.new }
        ensures counted { origin_tally self.new ≡ refused (origin_tally self.old) }
        ensures path_counted { origin_path_faults self.new path.now ≡ one_more (origin_path_faults self.old path.now) }
        ensures other_paths { has_origin_place self.old path.now → (p : List ℕ) → p ≢ path.now
            → origin_path_faults self.new p ≡ origin_path_faults self.old p }
        ensures other_places { (p : List ℕ) → p ≢ path.now → has_origin_place self.old p
            → origin_path_faults self.new p ≡ origin_path_faults self.old p }
    {
        let _ = self.failures.refuse();
        self.counts.raise(path);
    }

    // Counts once, at its path, what is given back, where it has failed.
    fn take_back(&mut self, faults: u64, path: &str)
        ensures same { SameOutside self.old self.new }
        ensures keeps { KeepsCounts self.old self.new }
        ensures counted { CountsGivenBack path.now faults self.old self.new }
    {
        if faults > 0 {
            self.refuse(path);
        }
    }
}

impl Origins for MemoryOrigins {
    ghost use Rattle.swh_outside.specs.Opened.{IfFound, IsNotFound};
    ghost use Rattle.swh_memory_input.specs.Outside.{
      origin_files,
      origin_folders,
      origin_inputs,
      origin_folder_inputs,
      origin_faults,
      origin_path_faults,
      has_origin_place,
      SameOutside,
      KeepsCounts,
      CountsOpening,
      CountsGivenBack,
    };

    type S = MemorySource;

    type F = MemoryFolder;

    ghost tells = { Unit {0} };

    ghost file_at = { origin_files };

    ghost folder_at = { origin_folders };

    ghost faults = { origin_faults };

    ghost path_faults = { origin_path_faults };

    ghost has_place = { has_origin_place };

    fn file(&mut self, path: &str) -> Opened<MemorySource>
        ensures found { IfFound result (λ source. origin_files self.old path.now ≡ Some (source_left source)) }
        ensures absent { IsNotFound result → origin_files self.old path.now ≡ None }
        ensures source_path { IfFound result (λ source. source_path source ≡ path.now) }
        ensures no_fault { IfFound result (λ source. source_faults source ≡ 0) }
        ensures made { IfFound result (λ source. made_at (origin_inputs self.old) path.now
            ≡ Some (source_piece source, source_tally source)) }
        ensures nothing_given { IfFound result (λ source. source_given source ≡ []) }
        ensures not_ended { IfFound result (λ source. source_ended source ≡ false) }
        ensures same { SameOutside self.old self.new }
        ensures keeps { KeepsCounts self.old self.new }
        ensures counted { CountsOpening path.now result self.old self.new }
    {
        let fails = self.failures.next_fails();
        if self.counts.place(path).is_err() {
            return Opened::Memory;
        }
        if fails {
            self.refuse(path);
            return Opened::Failed;
        }
        let i = find_input(&self.inputs, path);
        if i == self.inputs.len() {
            return Opened::NotFound;
        }
        match open_input(self.alloc, &self.inputs, i, path) {
            Ok(source) => Opened::Found(source),
            Err(_) => Opened::Memory,
        }
    }

    fn folder(&mut self, path: &str) -> Opened<MemoryFolder>
        ensures found { IfFound result (λ folder. origin_folders self.old path.now ≡ Some (folder_tree folder)) }
        ensures absent { IsNotFound result → origin_folders self.old path.now ≡ None }
        ensures folder_path { IfFound result (λ folder. folder_path folder ≡ path.now) }
        ensures no_fault { IfFound result (λ folder. folder_faults folder ≡ 0) }
        ensures made { IfFound result (λ folder. folder_made_at (origin_folder_inputs self.old) path.now
            ≡ Some (folder_places folder, folder_tally folder)) }
        ensures same { SameOutside self.old self.new }
        ensures keeps { KeepsCounts self.old self.new }
        ensures counted { CountsOpening path.now result self.old self.new }
    {
        let fails = self.failures.next_fails();
        if self.counts.place(path).is_err() {
            return Opened::Memory;
        }
        if fails {
            self.refuse(path);
            return Opened::Failed;
        }
        let i = find_folder(&self.folders, path);
        if i == self.folders.len() {
            return Opened::NotFound;
        }
        match open_folder(self.alloc, &self.folders, i, path) {
            Ok(folder) => Opened::Found(folder),
            Err(_) => Opened::Memory,
        }
    }

    fn back(&mut self, source: MemorySource)
        ensures same { SameOutside self.old self.new }
        ensures keeps { KeepsCounts self.old self.new }
        ensures counted { CountsGivenBack (source_path source) (source_faults source) self.old self.new }
    {
        self.take_back(source.faults(), source.path());
    }

    fn back_folder(&mut self, folder: MemoryFolder)
        ensures same { SameOutside self.old self.new }
        ensures keeps { KeepsCounts self.old self.new }
        ensures counted { CountsGivenBack (folder_path folder) (folder_faults folder) self.old self.new }
    {
        self.take_back(folder.faults(), folder.path());
    }
}

// The place of the first input at a path, or the number of inputs.
fn find_input(inputs: &[Input], path: &str) -> usize
    ensures first { result ≡ position_or_len (is_for path.now) inputs.now }
    ensures within { result ≤ length inputs.now }
{
    for (i, input) in inputs.iter().enumerate() {
        if input.is_for(path) {
            return i;
        }
    }
    inputs.len()
}

// A source of the first input at a path.
fn open_input(
    alloc: Global,
    inputs: &[Input],
    i: usize,
    path: &str,
) -> Result<MemorySource, AllocError>
    requires found { i ≡ position_or_len (is_for path.now) inputs.now }
    requires inside { i < length inputs.now }
    ensures given { IfOk result (λ source. input_at inputs.now path.now ≡ Some (source_left source)) }
    ensures path { IfOk result (λ source. source_path source ≡ path.now) }
    ensures no_fault { IfOk result (λ source. source_faults source ≡ 0) }
    ensures made { IfOk result (λ source. made_at inputs.now path.now
        ≡ Some (source_piece source, source_tally source)) }
    ensures nothing_given { IfOk result (λ source. source_given source ≡ []) }
    ensures not_ended { IfOk result (λ source. source_ended source ≡ false) }
{
    let input = &inputs[i];
    let name = String::from_str(alloc, path)?;
    let bytes = input.bytes.to_vec(alloc)?;
    let failing = input.failing.to_vec(alloc)?;
    Ok(MemorySource::new(name, bytes, input.piece, failing))
}

// The number of the first folder at a path, or of folders.
fn find_folder(folders: &[FolderInput], path: &str) -> usize
    ensures first { result ≡ position_or_len (is_folder_for path.now) folders.now }
    ensures within { result ≤ length folders.now }
{
    for (i, folder) in folders.iter().enumerate() {
        if folder.is_for(path) {
            return i;
        }
    }
    folders.len()
}

// The first folder at a path. Its places are shared.
fn open_folder(
    alloc: Global,
    folders: &[FolderInput],
    i: usize,
    path: &str,
) -> Result<MemoryFolder, AllocError>
    requires found { i ≡ position_or_len (is_folder_for path.now) folders.now }
    requires inside { i < length folders.now }
    ensures holds { IfOk result (λ folder. tree_at folders.now path.now ≡ Some (folder_tree folder)) }
    ensures path { IfOk result (λ folder. folder_path folder ≡ path.now) }
    ensures no_fault { IfOk result (λ folder. folder_faults folder ≡ 0) }
    ensures made { IfOk result (λ folder. folder_made_at folders.now path.now
        ≡ Some (folder_places folder, folder_tally folder)) }
{
    let folder = &folders[i];
    let name = String::from_str(alloc, path)?;
    let places = folder.places.clone()?;
    let failing = folder.failing.to_vec(alloc)?;
    Ok(MemoryFolder::new(alloc, name, places, failing))
}
