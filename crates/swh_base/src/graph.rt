//! Bodies and the names that they name, as a graph. `specs/Reach.antt` says what is reached over one, and what is
//! closed.

ghost use Rattle.std.specs.Prelude.{◌≡◌, List, Option, None, IfSome, IfNone};
ghost use Rattle.swh_base.specs.declared.name.Name.{Name};

use crate::name::Name;

/// What holds bodies, and tells which names each of them names.
pub trait Graph {
    /// The children of the body held under a name, and nothing where none is held.
    ghost children_of: { Self → Name → Option (List Name) };

    /// None exactly where the name is not held. It takes no memory.
    fn children_of(&self, name: &Name) -> Option<&[Name]>
        ensures held { IfSome result (λ kids. children_of self.now name.now ≡ Some kids.now) }
        ensures not_held { IfNone result (children_of self.now name.now ≡ None) };
}
