// A folder of the origins in memory.
ghost use Rattle.std.specs.Prelude.{◌≡◌};

use crate::PathItem;
use std::sync::ArcSlice;

/// A folder outside: its path, what stands in it, and the numbers, from 0, of its calls that will fail.
#[derive(Drop)]
pub struct FolderInput {
    pub path: String,
    pub places: ArcSlice<PathItem>,
    pub failing: Vec<u64>,
}

impl FolderInput {
    ghost use Rattle.swh_memory_input.specs.Folders.{is_folder_for};

    /// Says whether it stands at a path.
    pub fn is_for(&self, path: &str) -> bool
        ensures { result ≡ is_folder_for path.now self.now }
    {
        self.path.as_str() == path
    }
}
