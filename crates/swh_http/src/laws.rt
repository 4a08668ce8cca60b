//! What the pieces of bytes ask together.
ghost use Rattle.std.specs.Prelude.{◌≡◌, ◌++◌, ℕ, List, Option, Some, None};
ghost use Rattle.swh_http.specs.Wire.{AreAsks};
ghost use Rattle.swh_http.specs.declared.ask.Ask.{Ask};

/// What pieces ask one after the other is what their bytes ask together, and after a refusal no piece asks more.
pub fn any_pieces()
    ensures open { (bytes piece : List ℕ) (asks more : List Ask) (held : List ℕ) (left : Option (List ℕ))
        → AreAsks bytes asks (Some held)
        → AreAsks (held ++ piece) more left → AreAsks (bytes ++ piece) (asks ++ more) left }
    ensures closed { (bytes piece : List ℕ) (asks : List Ask) → AreAsks bytes asks None
        → AreAsks (bytes ++ piece) asks None }
{}

/// The same bytes have one answer at most: what a session answers to them is all that they ask.
pub fn one_answer()
    ensures { (bytes : List ℕ) (asks more : List Ask) (held left : Option (List ℕ))
        → AreAsks bytes asks held → AreAsks bytes more left → (asks ≡ more) × (held ≡ left) }
{}
