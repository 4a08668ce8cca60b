//! That the entries that are given are the walk over the paths.
ghost use Rattle.std.specs.Prelude.{ℕ, ◌<◌, ◌∷◌, [], length, Contains, List, Option, Some, None};
ghost use Rattle.swh_base.specs.declared.name.Name.{Name};
ghost use Rattle.swh_dirfmt.specs.declared.entry.SpelledEntry.{SpelledEntry};
ghost use Rattle.swh_model.specs.Archive.{Bodies, IsGraphOf};
ghost use Rattle.swh_graph.specs.Path.{directory_name};
ghost use Rattle.swh_postorder.specs.Cycle.{ArePreceded};
ghost use Rattle.swh_pathwalk.specs.Tree.{Row, IsPathWalk};
ghost use Rattle.swh_pathwalk.specs.Walk.{Standing, BeginsAt, Steps, Remain, row_of};
ghost use Rattle.swh_pathwalk.specs.Weight.{coming_weight, LeadInto};

/// What remains at the beginning of a directory is its whole walk.
pub fn all_remains_at_first()
    ensures { (bodies : Bodies) (directory : Name) (new : Standing) (rows : List Row)
        → BeginsAt bodies directory new → Remain bodies new.levels rows → IsPathWalk bodies directory rows }
{}

/// What remained before a step is the entry that it gives, and what remains after it.
pub fn less_remains_after_a_step()
    ensures { (bodies : Bodies) (old new : Standing) (entry : SpelledEntry) (rows : List Row)
        → Steps bodies old (Some entry) new → Remain bodies new.levels rows
        → Remain bodies old.levels (row_of new entry ∷ rows) }
{}

/// Where a step gives nothing, nothing remained.
pub fn nothing_remains_at_last()
    ensures { (bodies : Bodies) (old new : Standing) → Steps bodies old None new → Remain bodies old.levels [] }
{}

/// Where no directory is reached from itself, each step leaves less to come: so a walk ends.
pub fn steps_come_to_an_end()
    ensures first { (bodies : Bodies) (children_of : Name → Option (List Name)) (order : List Name) (id : List ℕ) (new : Standing)
        → IsGraphOf bodies children_of → ArePreceded children_of order → BeginsAt bodies (directory_name id) new
        → Contains order (directory_name id) → LeadInto order new.levels }
    ensures lighter { (bodies : Bodies) (children_of : Name → Option (List Name)) (order : List Name) (old new : Standing)
        (entry : SpelledEntry) → IsGraphOf bodies children_of → ArePreceded children_of order → LeadInto order old.levels
        → Steps bodies old (Some entry) new → coming_weight bodies children_of (length order) new.levels
        < coming_weight bodies children_of (length order) old.levels }
    ensures led { (bodies : Bodies) (children_of : Name → Option (List Name)) (order : List Name) (old new : Standing)
        (entry : SpelledEntry) → IsGraphOf bodies children_of → ArePreceded children_of order → LeadInto order old.levels
        → Steps bodies old (Some entry) new → LeadInto order new.levels }
{}
