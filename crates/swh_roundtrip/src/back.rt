//! That what was cooked loads back.
ghost use Rattle.std.specs.Prelude.{◌≢◌, ℕ, List, Option};
ghost use Rattle.swh_base.specs.declared.kind.Kind.{Kind};
ghost use Rattle.swh_base.specs.declared.kind.Kind.TheVariants.{Content, Directory};
ghost use Rattle.swh_base.specs.declared.name.Name.{Name};
ghost use Rattle.swh_model.specs.Archive.{Bodies, IsGraphOf};
ghost use Rattle.swh_model.specs.declared.event.Event.{Event};
ghost use Rattle.swh_model.specs.Step.{IsHistory, replay};
ghost use Rattle.swh_postorder.specs.Postorder.{IsPostorder};
ghost use Rattle.swh_carried.specs.Uncarried.{AreCarried};
ghost use Rattle.swh_fastcook.specs.Stream.{IsStreamText};
ghost use Rattle.swh_fastcook.specs.Cook.{BreaksStream, IsCarriedStream, IsCookedText, IsHeadOf};
ghost use Rattle.swh_roundtrip.specs.LoadsBack.{LoadsBack};
ghost use Rattle.swh_roundtrip.specs.Sound.{AreInLimit, AreNamed, AreOfBytes, AreReachedOfBytes};

/// What was cooked loads back: where all that is reached is held, in bodies that stand under their names and are within the
/// limit, with directories that are made of bytes, and a stream carries it, the text of the stream, with the head that is
/// told, means a snapshot, which is the root itself; or for a revision the snapshot of the one branch `refs/heads/main` to
/// it; or for a release a snapshot whose branch `refs/tags/` and its name is it.
pub fn what_was_cooked_loads_back()
    ensures { (id : Kind → List ℕ → List ℕ) (bodies : Bodies) (children_of : Name → Option (List Name)) (root : Name)
        (order : List Name) (text : List ℕ) (head : Option (List ℕ)) → AreNamed id bodies → AreInLimit bodies
        → AreOfBytes bodies order → IsGraphOf bodies children_of → root.kind ≢ Content → root.kind ≢ Directory
        → IsPostorder children_of root order → AreCarried children_of (BreaksStream bodies root order) order
        → IsStreamText bodies order root text → IsHeadOf bodies root head → LoadsBack id bodies order root head text }
{}

/// The same as cooking a name tells it, where it answers: all that is reached is held, and a stream carries it; what was
/// written is the text of the name; and the head is told.
pub fn streams_load_back()
    ensures { (id : Kind → List ℕ → List ℕ) (bodies : Bodies) (children_of : Name → Option (List Name)) (root : Name)
        (text : List ℕ) (head : Option (List ℕ)) (c : IsCarriedStream bodies children_of root) → AreNamed id bodies
        → AreInLimit bodies → AreOfBytes bodies c.order → IsGraphOf bodies children_of → root.kind ≢ Content
        → root.kind ≢ Directory → IsCookedText bodies children_of root text → IsHeadOf bodies root head
        → LoadsBack id bodies c.order root head text }
{}

/// Out of the archive of a history that may happen, where the directories that are reached are made of bytes, the text that a
/// root is cooked to, which is no content and no directory, means with its head the snapshot that the root loads as.
pub fn reached_streams_load_back()
    ensures { (id : Kind → List ℕ → List ℕ) (h : List Event) (children_of : Name → Option (List Name)) (root : Name)
        (text : List ℕ) (head : Option (List ℕ)) (c : IsCarriedStream (replay h).bodies children_of root) → IsHistory id h
        → IsGraphOf (replay h).bodies children_of → AreReachedOfBytes (replay h).bodies children_of root
        → root.kind ≢ Content → root.kind ≢ Directory → IsCookedText (replay h).bodies children_of root text
        → IsHeadOf (replay h).bodies root head → LoadsBack id (replay h).bodies c.order root head text }
{}
