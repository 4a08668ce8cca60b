//! That archives are as the laws ask for them.
ghost use Rattle.std.specs.Prelude.{ℕ, List};
ghost use Rattle.swh_base.specs.declared.kind.Kind.{Kind};
ghost use Rattle.swh_base.specs.declared.name.Name.{Name};
ghost use Rattle.swh_model.specs.declared.event.Event.{Event};
ghost use Rattle.swh_model.specs.Step.{IsHistory, replay};
ghost use Rattle.swh_roundtrip.specs.Sound.{AreInLimit, AreMadeOfBytes, AreNamed, AreOfBytes};

/// Each body of the archive that a history makes stands under its name, and is no longer than a body may be; and where those
/// of the entries are made of bytes it is.
pub fn histories_hold_named_bodies()
    ensures named { (id : Kind → List ℕ → List ℕ) (h : List Event) → IsHistory id h → AreNamed id (replay h).bodies }
    ensures in_limit { (id : Kind → List ℕ → List ℕ) (h : List Event) → IsHistory id h → AreInLimit (replay h).bodies }
    ensures of_bytes { (h : List Event) (names : List Name) → AreMadeOfBytes h → AreOfBytes (replay h).bodies names }
{}
