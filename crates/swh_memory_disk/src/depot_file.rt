// A file of a depot in memory.
use crate::MemoryDisk;

#[derive(Drop)]
pub struct DepotFile {
    pub dir: String,
    pub file: u32,
    pub disk: MemoryDisk,
}

impl DepotFile {
    ghost use Rattle.std.specs.Prelude.{◌≡◌};
    ghost use Rattle.swh_memory_disk.specs.InPlace.{is_at};

    /// Says whether it is the file of this number in a folder.
    pub fn is_at(&self, dir: &str, file: u32) -> bool
        ensures { result ≡ is_at dir.now file self.now }
    {
        self.file == file && self.dir.as_str() == dir
    }
}
