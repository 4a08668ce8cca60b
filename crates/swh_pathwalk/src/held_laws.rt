//! What is known of walks over the paths of a directory of which all is held.
ghost use Rattle.std.specs.Prelude.{◌≡◌, List, Option, Contains};
ghost use Rattle.swh_base.specs.declared.kind.Kind.TheVariants.{Directory};
ghost use Rattle.swh_base.specs.declared.name.Name.{Name};
ghost use Rattle.swh_model.specs.Archive.{Bodies, IsGraphOf};
ghost use Rattle.swh_postorder.specs.Postorder.{IsPostorder};
ghost use Rattle.swh_postorder.specs.Cycle.{IsOnCycle};
ghost use Rattle.swh_pathwalk.specs.Tree.{Row, IsPathWalk};
ghost use Rattle.swh_pathwalk.specs.Held.{IsHeldOrder};

/// Where nothing in the order is reached from itself, each child stands before what it is a child of.
pub fn acyclic_orders_are_held()
    ensures { (children_of : Name → Option (List Name)) (root : Name) (order : List Name) → IsPostorder children_of root order
        → ((n : Name) → Contains order n → IsOnCycle children_of n → ⊥) → IsHeldOrder children_of order }
{}

/// A directory has one walk over its paths at most.
pub fn one_path_walk()
    ensures { (bodies : Bodies) (name : Name) (rows others : List Row) → IsPathWalk bodies name rows
        → IsPathWalk bodies name others → rows ≡ others }
{}

/// A directory of which all is held has a walk over its paths.
pub fn path_walks_exist()
    ensures { (bodies : Bodies) (children_of : Name → Option (List Name)) (order : List Name) (name : Name)
        → IsGraphOf bodies children_of → IsHeldOrder children_of order → Contains order name → name.kind ≡ Directory
        → (rows : List Row) × IsPathWalk bodies name rows }
{}
