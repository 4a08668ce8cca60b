//! For which history two files stand, and how long what is written is.
ghost use Rattle.std.specs.Prelude.{◌≡◌, ◌≢◌, ◌+◌, ◌++◌, ◌∷◌, [], ℕ, List, length};
ghost use Rattle.swh_model.specs.declared.event.Event.{Event};
ghost use Rattle.swh_model.specs.declared.event.EventKind.{EventKind};
ghost use Rattle.swh_model.specs.Alike.{AreAlike};
ghost use Rattle.swh_model.specs.Limits.{stored_length, store_length, payload_length, ledger_length};
ghost use Rattle.swh_model.specs.WorkedExample.{opening, event_by};
ghost use Rattle.swh_format.specs.Record.{Record, magic, front, Stands, HaveCodableLengths};
ghost use Rattle.swh_format.specs.Events.{records};
ghost use Rattle.swh_format.specs.EventRecord.{packed_objects, payload_of, coded_record};
ghost use Rattle.swh_format.specs.Stands.{all_written, coded_runs, StandsFor};
ghost use Rattle.swh_format.specs.WorkedBytes.{opening_bytes};

/// A ledger stands for one list of records at most.
pub fn ledger_stands_once()
    ensures { (ledger : List ℕ) (rs ss : List Record) → HaveCodableLengths rs → HaveCodableLengths ss → Stands ledger rs
        → Stands ledger ss → rs ≡ ss }
{}

/// A closed gate after the magic stands for the empty history, and for no other.
pub fn closed_at_once()
    ensures empty { (ledger store rest : List ℕ) (gate : ℕ) → gate ≢ 1 → ledger ≡ magic ++ gate ∷ rest
        → StandsFor ledger store [] }
    ensures only { (ledger store rest : List ℕ) (gate : ℕ) (h : List Event) → gate ≢ 1 → ledger ≡ magic ++ gate ∷ rest
        → StandsFor ledger store h → h ≡ [] }
{}

/// Two files stand for one history at most, up to the children, which the bodies determine.
pub fn files_stand_for_one_history()
    ensures { (ledger store : List ℕ) (g h : List Event) → StandsFor ledger store g → StandsFor ledger store h
        → AreAlike g h }
{}

/// What is written of events is as long as the limits count it: what an event adds to the store, the payload of its record,
/// all runs of a history, and its records with the magic and the gate after them.
pub fn lengths_are_counted()
    ensures run { (what : EventKind) → length (packed_objects what) ≡ stored_length what }
    ensures payload { (at : ℕ) (e : Event) → length (payload_of at e) ≡ payload_length e.what }
    ensures store { (h : List Event) → length (coded_runs h) ≡ store_length h }
    ensures ledger { (h : List Event) → length (front (records (all_written 0 h))) + 1 ≡ ledger_length h }
{}

/// What is written after the gate for the first opening of the worked history, with the next gate.
pub fn worked_bytes()
    ensures { coded_record 0 (event_by 1 opening) ++ 0 ∷ [] ≡ opening_bytes }
{}
