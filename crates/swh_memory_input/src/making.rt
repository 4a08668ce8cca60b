// What was begun in a yard in memory.
ghost use Rattle.std.specs.Prelude.{◌≡◌};

/// What begins at a path.
#[derive(Clone, Copy, PartialEq, Eq)]
pub enum Begins {
    Folder,
    /// A file. Its bytes are those that were put from this place on, up to that of the file that was begun next.
    File { from: usize },
}

/// A folder or a file that was begun in a yard.
#[derive(Drop)]
pub struct Making {
    pub path: String,
    pub begins: Begins,
}

impl Making {
    ghost use Rattle.swh_memory_input.specs.Yards.{is_making_at};

    /// Says whether it was begun at a path.
    pub fn is_at(&self, path: &str) -> bool
        ensures { result ≡ is_making_at path.now self.now }
    {
        self.path.as_str() == path
    }
}
