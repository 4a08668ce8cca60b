//! What the plans of the making and of an event mean for the two files.
ghost use Rattle.std.specs.Prelude.{◌+◌, ◌++◌, ◌∷◌, [], ℕ, List, length};
ghost use Rattle.swh_outside.specs.Disk.{EachImage};
ghost use Rattle.swh_outside.specs.Files.{Files, EachFilesMoment, files_done};
ghost use Rattle.swh_format.specs.Record.{IsReady};
ghost use Rattle.swh_format.specs.Events.{Append, run_bytes};
ghost use Rattle.swh_segment.specs.Making.{IsNotMade, IsEmptyArchive, IsCrashSafe, making_calls};
ghost use Rattle.swh_segment.specs.Settled.{AreSettled, with_or_without_event};
ghost use Rattle.swh_segment.specs.Calls.{event_calls};

/// After all calls of the making both files stand for no record, with nothing written since a barrier.
pub fn made_is_empty()
    ensures { (files : Files) → IsNotMade (files 0).seen → IsEmptyArchive
        (files_done (making_calls (files 0).seen) files) }
{}

/// A crash at any call of the making leaves an archive that is not made, or is made with no record.
pub fn making_survives_crashes()
    ensures { (files : Files) → IsNotMade (files 0).seen → EachImage (files 0) IsNotMade → IsCrashSafe files }
{}

/// After all calls of an event both files stand for the history with it, with nothing written since a barrier.
pub fn event_is_added()
    ensures { (files : Files) (h : List Append) (e : Append) (store_end end : ℕ) (bytes : List ℕ)
        → AreSettled files h store_end end → IsReady bytes e.entry
        → AreSettled (files_done (event_calls store_end e.run end bytes) files) (h ++ e ∷ [])
        (store_end + length (run_bytes e.run)) (end + length bytes) }
{}

/// A crash at any call of an event leaves files that stand for the history with the event or without.
pub fn event_survives_crashes()
    ensures { (files : Files) (h : List Append) (e : Append) (store_end end : ℕ) (bytes : List ℕ)
        → AreSettled files h store_end end → IsReady bytes e.entry
        → EachFilesMoment (event_calls store_end e.run end bytes) files (with_or_without_event h e) }
{}
