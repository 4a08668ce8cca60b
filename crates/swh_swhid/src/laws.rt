//! Laws of texts and the values that they spell.

ghost use Rattle.std.specs.Prelude.{◌≡◌, ℕ, List};
ghost use Rattle.swh_swhid.specs.declared.swhid.Swhid.{Swhid};
ghost use Rattle.swh_swhid.specs.Front.{BreaksAt};
ghost use Rattle.swh_swhid.specs.Qualifier.{IsSwhid, HasSwhid};
ghost use Rattle.swh_swhid.specs.Printed.{printed, IsValue};

/// A text spells one value at most.
pub fn one_reading()
    ensures { (text : List ℕ) (s t : Swhid) → IsSwhid text s → IsSwhid text t → s ≡ t }
{}

/// A text breaks off at one place at most.
pub fn one_place()
    ensures { (text : List ℕ) (m n : ℕ) → BreaksAt HasSwhid text m → BreaksAt HasSwhid text n → m ≡ n }
{}

/// What a text spells is a value, so its printed text is read as the same.
pub fn read_is_value()
    ensures { (text : List ℕ) (s : Swhid) → IsSwhid text s → IsValue s }
{}

/// The printed text of a value is a text of that value, so it is read as the same.
pub fn printed_is_read()
    ensures { (s : Swhid) → IsValue s → IsSwhid (printed s) s }
{}

/// Values with the same printed text are the same, so each has its own.
pub fn one_printed_text()
    ensures { (s t : Swhid) → IsValue s → IsValue t → printed s ≡ printed t → s ≡ t }
{}
