//! How far a walk has come.
ghost use Rattle.std.specs.Prelude.{◌≡◌, ◌++◌, ◌∷◌, [], IfOk, IfErr};

use std::marker::Model;
use swh_dirfmt::SpelledEntry;

/// A directory on the way: so many bytes of the path lead to it, and its entries from the number `next` on are yet to
/// come.
#[derive(Drop)]
pub struct Level<'a> {
    pub front: usize,
    pub entries: Vec<SpelledEntry<'a>>,
    pub next: usize,
    /// It is no root: a slash stands between what leads to it and the names of its entries.
    pub nested: bool,
}

/// A walk over the paths of a directory.
#[derive(Drop)]
pub struct PathWalk<'a> {
    pub(crate) path: Vec<u8>,
    pub(crate) levels: Vec<Level<'a>>,
}

impl<'a> Model for PathWalk<'a> {
    ghost use Rattle.std.specs.Prelude.{length, reverse};
    ghost use Rattle.swh_pathwalk.specs.Walk.{Standing, standing, AreNested};

    ghost Value = { Standing };

    ghost view = { λ w. standing w.path.items w.levels.items };

    ghost invariant = { λ w. AreNested (length w.path.items) (reverse w.levels.items) };
}

impl<'a> PathWalk<'a> {
    /// The path of the entry that was given last; none is given yet where it is empty.
    pub fn path(&self) -> &[u8]
        ensures { result.now ≡ self.now.path }
    {
        self.path.as_slice()
    }
}
