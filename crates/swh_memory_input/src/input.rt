// An input of the origins in memory.
ghost use Rattle.std.specs.Prelude.{◌≡◌};

/// A file outside: its path, its bytes, the size of the pieces in which it is read, and the numbers, from 0, of the
/// calls on its source that will fail.
#[derive(Drop)]
pub struct Input {
    pub path: String,
    pub bytes: Vec<u8>,
    pub piece: usize,
    pub failing: Vec<u64>,
}

impl Input {
    ghost use Rattle.swh_memory_input.specs.Outside.{is_for};

    /// Says whether it stands at a path.
    pub fn is_for(&self, path: &str) -> bool
        ensures { result ≡ is_for path.now self.now }
    {
        self.path.as_str() == path
    }
}
