//! What the definitions determine.
ghost use Rattle.std.specs.Prelude.{◌≡◌, ℕ, List, Option};
ghost use Rattle.swh_base.specs.declared.kind.Kind.{Kind};
ghost use Rattle.swh_base.specs.declared.name.Name.{Name};
ghost use Rattle.swh_base.specs.Name.{IsName};
ghost use Rattle.swh_model.specs.Archive.{Bodies, IsGraphOf};
ghost use Rattle.swh_model.specs.declared.event.Event.{Event};
ghost use Rattle.swh_model.specs.Step.{IsHistory, replay};
ghost use Rattle.swh_postorder.specs.Postorder.{IsFirstMissing};
ghost use Rattle.swh_carried.specs.declared.fault.Why.{Why};
ghost use Rattle.swh_fastcook.specs.Cook.{IsHeadOf};
ghost use Rattle.swh_dircook.specs.Made.{Made};
ghost use Rattle.swh_roundtrip.specs.Sound.{AreReachedOfBytes};
ghost use Rattle.swh_cook.specs.Back.{IsAgain};
ghost use Rattle.swh_cook.specs.Cook.{AreMade, IsCarried, IsUncarried};

/// A name is carried, or a name that is reached is not held, or one is the first that is not carried; and no two of these.
/// One at most is that first one, for one reason.
pub fn one_end()
    ensures held { (bodies : Bodies) (children_of : Name → Option (List Name)) (root missing : Name)
        → IsCarried bodies children_of root → IsFirstMissing children_of root missing → ⊥ }
    ensures reached { (bodies : Bodies) (children_of : Name → Option (List Name)) (root name missing : Name) (why : Why)
        → IsUncarried bodies children_of root name why → IsFirstMissing children_of root missing → ⊥ }
    ensures carried { (bodies : Bodies) (children_of : Name → Option (List Name)) (root name : Name) (why : Why)
        → IsCarried bodies children_of root → IsUncarried bodies children_of root name why → ⊥ }
    ensures first { (bodies : Bodies) (children_of : Name → Option (List Name)) (root m n : Name) (v w : Why)
        → IsUncarried bodies children_of root m v → IsUncarried bodies children_of root n w → (m ≡ n) × (v ≡ w) }
{}

/// What was made of a name is the name again: out of the archive of a history that may happen, where all that is reached is
/// held, in directories that are made of bytes, and its form carries it, with the head that is told.
pub fn what_was_made_is_again()
    ensures { (id : Kind → List ℕ → List ℕ) (h : List Event) (children_of : Name → Option (List Name)) (root : Name)
        (out : List ℕ) (made : List Made) (head : Option (List ℕ)) → IsHistory id h → IsGraphOf (replay h).bodies children_of
        → IsName root → AreReachedOfBytes (replay h).bodies children_of root → IsHeadOf (replay h).bodies root head
        → IsCarried (replay h).bodies children_of root → AreMade (replay h).bodies children_of root out made
        → IsAgain id (replay h).bodies children_of root out made head }
{}
