// What the definitions determine.
ghost use Rattle.std.specs.Prelude.{ℕ, List, Contains};
ghost use Rattle.swh_base.specs.declared.kind.Kind.{Kind};
ghost use Rattle.swh_model.specs.Meaning.{Made, StreamMeaning};
ghost use Rattle.swh_fastload.specs.Input.{IsSameMaking};
ghost use Rattle.swh_inputs.specs.declared.bad.BadText.{BadText};
ghost use Rattle.swh_inputs.specs.Input.{InputText, MeansInput, BreaksInput, IsOneBreak};
ghost use Rattle.swh_inputs.specs.Streaming.{MayGiveInput};

/// An input means one thing at most, the same objects and the same snapshot, and one that means something does not break.
pub fn one_meaning()
    ensures same { (id : Kind → List ℕ → List ℕ) (text : InputText) (meaning other : StreamMeaning)
        → MeansInput id text meaning → MeansInput id text other → IsSameMaking meaning other }
    ensures never_both { (id : Kind → List ℕ → List ℕ) (text : InputText) (meaning : StreamMeaning) (bad : BadText)
        → MeansInput id text meaning → BreaksInput id text bad → ⊥ }
{}

/// An input breaks in one way. Of the limits that a stream passes first one or the other may be told (`one_limit` of
/// `swh_fastload`).
pub fn one_break()
    ensures { (id : Kind → List ℕ → List ℕ) (text : InputText) (bad other : BadText)
        → BreaksInput id text bad → BreaksInput id text other → IsOneBreak text bad other }
{}

/// What an input may give before its reading stops belongs to what it means, where it means something; and all that it means
/// it may give.
pub fn given_is_meant()
    ensures among { (id : Kind → List ℕ → List ℕ) (text : InputText) (objects : List Made) (meaning : StreamMeaning)
        → MayGiveInput id text objects → MeansInput id text meaning
        → (made : Made) → Contains objects made → Contains meaning.objects made }
    ensures all { (id : Kind → List ℕ → List ℕ) (text : InputText) (meaning : StreamMeaning)
        → MeansInput id text meaning → MayGiveInput id text meaning.objects }
{}
