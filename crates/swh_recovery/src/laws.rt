//! Laws of what is read.
ghost use Rattle.std.specs.Prelude.{◌≡◌, ◌++◌, ℕ, List};
ghost use Rattle.swh_base.specs.declared.kind.Kind.{Kind};
ghost use Rattle.swh_model.specs.declared.event.Event.{Event};
ghost use Rattle.swh_model.specs.Step.{IsHistory};
ghost use Rattle.swh_format.specs.EventRecord.{coded_record, IsCodable};
ghost use Rattle.swh_format.specs.Stands.{StandsFor};
ghost use Rattle.swh_recovery.specs.declared.harm.Found.{Found};
ghost use Rattle.swh_recovery.specs.declared.harm.Harm.{Harm};
ghost use Rattle.swh_recovery.specs.LedgerHarm.{RecordBreaks};
ghost use Rattle.swh_recovery.specs.Records.{IsHarm};

/// A record that is an event's does not break by its own bytes, wherever its run begins.
pub fn an_event_does_not_break()
    ensures { (start : ℕ) (e : Event) (behind x : List ℕ) (at : ℕ) (found : Found) → IsCodable start e
        → behind ≡ coded_record start e ++ x → RecordBreaks behind at found → ⊥ }
{}

/// Files that have a harm stand for no history.
pub fn harms_leave_no_history()
    ensures { (id_of : Kind → List ℕ → List ℕ) (ledger store : List ℕ) (file at : ℕ) (harm : Harm)
        (before : List Event) (h : List Event) → IsHarm id_of ledger store file at harm before
        → StandsFor ledger store h → IsHistory id_of h → ⊥ }
{}

/// Two files have one harm at most, in one file and at one place, after one list of events.
pub fn one_harm()
    ensures { (id_of : Kind → List ℕ → List ℕ) (ledger store : List ℕ) (file at file' at' : ℕ) (harm harm' : Harm)
        (before before' : List Event) → IsHarm id_of ledger store file at harm before
        → IsHarm id_of ledger store file' at' harm' before'
        → (file ≡ file') × (at ≡ at') × (harm ≡ harm') × (before ≡ before') }
{}
