//! What a walk has met.
ghost use Rattle.std.specs.Prelude.{◌≡◌, []};

use crate::closed::Closed;
use std::alloc::Global;
use swh_base::Name;

/// A name that is held, with its children, which are yet to be met.
#[derive(Clone, Copy)]
pub struct Turn<'a> {
    pub name: Name,
    pub kids: &'a [Name],
}

/// Names, each once, and the turns of those whose children are yet to be met.
#[derive(Drop)]
pub struct Met<'a> {
    pub names: Closed,
    pub turns: Vec<Turn<'a>>,
}

impl<'a> Met<'a> {
    pub fn new(alloc: Global) -> Met<'a>
        ensures names { result.names ≡ [] }
        ensures turns { result.turns.items ≡ [] }
    {
        Met {
            names: Closed::new(alloc),
            turns: Vec::new(alloc),
        }
    }
}
