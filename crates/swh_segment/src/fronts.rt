//! What a crash leaves at the device calls of events that are added one after another.
ghost use Rattle.std.specs.Prelude.{◌≡◌, ◌∷◌, ◌++◌, [], ℕ, List};
ghost use Rattle.swh_outside.specs.Files.{Files, FilesBreaks, AreImages, EachImages, files_done};
ghost use Rattle.swh_model.specs.declared.event.Event.{Event};
ghost use Rattle.swh_model.specs.WorkedExample.{with_snapshot};
ghost use Rattle.swh_format.specs.EventRecord.{AreCodable};
ghost use Rattle.swh_segment.specs.Settled.{seen_of};
ghost use Rattle.swh_format.specs.Stands.{StandsFor};
ghost use Rattle.swh_segment.specs.Calls.{calls_for, all_calls};
ghost use Rattle.swh_segment.specs.Standing.{AreStanding, WithOrWithout};
ghost use Rattle.swh_segment.specs.Moments.{acknowledged, EachFrontMoment, IsSafeOpening};

/// A crash at any device call of the events leaves files that stand for the history and a front of the events, which
/// has each event that was acknowledged before that call, and at most one more.
pub fn fronts_survive_crashes()
    ensures { (files : Files) (h more : List Event) → AreStanding (files 0) (files 1) h → AreCodable 0 (h ++ more)
        → EachFrontMoment h more files }
{}

/// After all of their calls both files stand for the history with them, with nothing written since a barrier.
pub fn events_are_added()
    ensures { (files : Files) (h more : List Event) → AreStanding (files 0) (files 1) h → AreCodable 0 (h ++ more)
        → AreStanding (files_done (all_calls h more) files 0) (files_done (all_calls h more) files 1) (h ++ more) }
{}

/// Where a call of an event failed, a crash leaves files that stand for the history, with the event or without it.
pub fn broken_event_is_in_doubt()
    ensures { (files new : Files) (h : List Event) (e : Event) → AreStanding (files 0) (files 1) h
        → AreCodable 0 (h ++ e ∷ []) → FilesBreaks (calls_for h e) files new → EachImages new (WithOrWithout h e) }
{}

/// Where a read gives what a crash may leave, a crash while a barrier is made on each file leaves what it might have left
/// before.
pub fn opening_survives_crashes()
    ensures { (files : Files) (h : List Event) → AreImages files (seen_of files)
        → StandsFor (files 0).seen (files 1).seen h → IsSafeOpening h files }
{}

/// An opening is acknowledged once four calls were made, its record and its gate, each with a barrier after it; a batch
/// after it once six more were, since its run is written before that, with a barrier too.
pub fn worked_acknowledgements()
    ensures three { (id : List ℕ) → acknowledged [] (with_snapshot id) 3 ≡ 0 }
    ensures four { (id : List ℕ) → acknowledged [] (with_snapshot id) 4 ≡ 1 }
    ensures nine { (id : List ℕ) → acknowledged [] (with_snapshot id) 9 ≡ 1 }
    ensures ten { (id : List ℕ) → acknowledged [] (with_snapshot id) 10 ≡ 2 }
{}
