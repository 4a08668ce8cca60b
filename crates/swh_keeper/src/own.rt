//! That an archive which this program made is never damaged: what its device calls and crashes leave of the two files
//! is not made, or stands for a history.
ghost use Rattle.std.specs.Prelude.{◌++◌, ◌∷◌, [], ℕ, List};
ghost use Rattle.swh_base.specs.declared.kind.Kind.{Kind};
ghost use Rattle.swh_outside.specs.Files.{Files, Images, AreImages, EachFilesMoment};
ghost use Rattle.swh_model.specs.declared.event.Event.{Event};
ghost use Rattle.swh_model.specs.Step.{IsHistory};
ghost use Rattle.swh_format.specs.EventRecord.{AreCodable};
ghost use Rattle.swh_segment.specs.Making.{IsNotMade, barriers, making_calls};
ghost use Rattle.swh_segment.specs.Settled.{seen_of};
ghost use Rattle.swh_segment.specs.Calls.{calls_for};
ghost use Rattle.swh_segment.specs.Standing.{AreStanding};
ghost use Rattle.swh_keeper.specs.Opening.{IsDamaged};
ghost use Rattle.swh_keeper.specs.Own.{IsUnwritten, AreUsable, AreOwn};

/// With a ledger that is absent or empty the files are such that this program may make an archive of them.
pub fn unwritten_files_are_own()
    ensures { (id_of : Kind → List ℕ → List ℕ) (files : Files) → IsUnwritten (files 0)
        → AreImages files (seen_of files) → AreOwn id_of files }
{}

/// A crash at any call of an opening leaves them so.
pub fn opening_keeps_own()
    ensures { (id_of : Kind → List ℕ → List ℕ) (files : Files) → AreOwn id_of files
        → EachFilesMoment barriers files (AreUsable id_of) }
{}

/// A crash at any call of a making leaves them so.
pub fn making_keeps_own()
    ensures { (id_of : Kind → List ℕ → List ℕ) (files : Files) → AreOwn id_of files → IsNotMade (files 0).seen
        → EachFilesMoment (making_calls (files 0).seen) files (AreUsable id_of) }
{}

/// A crash at any call of an event that may happen leaves them so.
pub fn events_keep_own()
    ensures { (id_of : Kind → List ℕ → List ℕ) (files : Files) (h : List Event) (e : Event)
        → AreStanding (files 0) (files 1) h → AreCodable 0 (h ++ e ∷ []) → IsHistory id_of (h ++ e ∷ [])
        → EachFilesMoment (calls_for h e) files (AreUsable id_of) }
{}

/// What an opening finds of them is not damaged, whatever a crash left.
pub fn own_files_are_not_damaged()
    ensures { (id_of : Kind → List ℕ → List ℕ) (files : Files) (images : Images) → AreOwn id_of files
        → AreImages files images → IsDamaged id_of (images 0) (images 1) → ⊥ }
{}
