//! How far a walk has come.
ghost use Rattle.std.specs.Prelude.{◌≡◌, []};

use crate::places::Places;
use std::alloc::Global;
use swh_base::Name;
use swh_closure::Closed;

/// A name that was entered and not left, and those of its children that are yet to be walked over.
#[derive(Clone, Copy)]
pub struct Frame<'a> {
    pub name: Name,
    pub kids: &'a [Name],
}

/// The names that were entered; the frames of those that were not left, each inside of the one before; and the names that
/// were left, in their order, with their places in it.
#[derive(Drop)]
pub struct Walk<'a> {
    pub entered: Closed,
    pub frames: Vec<Frame<'a>>,
    pub left: Vec<Name>,
    pub places: Places,
}

impl<'a> Walk<'a> {
    pub fn new(alloc: Global) -> Walk<'a>
        ensures entered { result.entered ≡ [] }
        ensures frames { result.frames.items ≡ [] }
        ensures left { result.left.items ≡ [] }
    {
        Walk {
            entered: Closed::new(alloc),
            frames: Vec::new(alloc),
            left: Vec::new(alloc),
            places: Places::new(alloc, 0),
        }
    }
}
