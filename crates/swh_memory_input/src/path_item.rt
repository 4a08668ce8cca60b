// What stands at the paths of a folder in memory.
ghost use Rattle.std.specs.Prelude.{◌≡◌};

use swh_outside::Item;

/// What stands at a path.
#[derive(Drop)]
pub enum Stands {
    /// A file: its bytes, the size of the pieces in which it is read, and the numbers, from 0, of the calls on its
    /// source that will fail.
    File {
        bytes: Vec<u8>,
        piece: usize,
        failing: Vec<u64>,
    },
    /// A folder, with the items of its list in their order.
    Folder(Vec<Item>),
}

/// A path of a folder, and what stands there. The folder's own path is the empty one.
#[derive(Drop)]
pub struct PathItem {
    pub path: String,
    pub stands: Stands,
}

impl PathItem {
    ghost use Rattle.swh_memory_input.specs.Folders.{is_place_at};

    /// Says whether it is the place of a path.
    pub fn is_at(&self, path: &str) -> bool
        ensures { result ≡ is_place_at path.now self.now }
    {
        self.path.as_str() == path
    }
}
