// That a path asks for one thing.
ghost use Rattle.std.specs.Prelude.{◌≡◌, ℕ, List};
ghost use Rattle.swh_replies.specs.Shape.{Shape, Spells};

/// A path has one shape at most.
pub fn one_shape()
    ensures { (path : List ℕ) (s t : Shape) → Spells path s → Spells path t → s ≡ t }
{}
