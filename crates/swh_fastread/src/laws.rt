//! Laws of what a text is from a position on, within the limits: it is one thing only, and behind whole commands the
//! rest decides what.
ghost use Rattle.std.specs.Prelude.{◌≡◌, ◌++◌, ℕ, Bool, List};
ghost use Rattle.swh_base.specs.declared.visit.Which.{Which as Limit};
ghost use Rattle.swh_fastgrammar.specs.declared.command.Command.{Command as Said};
ghost use Rattle.swh_fastgrammar.specs.declared.fault.StreamWhy.{StreamWhy as Why};
ghost use Rattle.swh_fastrows.specs.Outcome.{IsStreamWithin, IsFaultWithin, PassesFirst, StartsWith};
ghost use Rattle.swh_fastrows.specs.Places.{Position};

/// A text that begins with whole commands is what the rest behind them is, with these commands in front.
pub fn starts_go_on()
    ensures stream { (a b : Position) (front cs : List Said) → StartsWith a b front
        → IsStreamWithin b.at b.promised b.left cs → IsStreamWithin a.at a.promised a.left (front ++ cs) }
    ensures fault { (a b : Position) (front cs : List Said) (place : ℕ) (why : Why) → StartsWith a b front
        → IsFaultWithin b.at b.promised b.left cs place why
        → IsFaultWithin a.at a.promised a.left (front ++ cs) place why }
    ensures limit { (a b : Position) (front cs : List Said) (which : Limit) (number : ℕ) → StartsWith a b front
        → PassesFirst b.at b.promised b.left cs which number
        → PassesFirst a.at a.promised a.left (front ++ cs) which number }
    ensures joined { (a b c : Position) (front more : List Said) → StartsWith a b front → StartsWith b c more
        → StartsWith a c (front ++ more) }
{}

/// A text is a stream, has a fault, or passes a limit, and no two of these.
pub fn one_kind()
    ensures no_fault { (at : ℕ) (p : Bool) (text : List ℕ) (cs ds : List Said) (place : ℕ) (why : Why)
        → IsStreamWithin at p text cs → IsFaultWithin at p text ds place why → ⊥ }
    ensures stream_or_limit { (at : ℕ) (p : Bool) (text : List ℕ) (cs ds : List Said) (which : Limit) (number : ℕ)
        → IsStreamWithin at p text cs → PassesFirst at p text ds which number → ⊥ }
    ensures fault_or_limit { (at : ℕ) (p : Bool) (text : List ℕ) (cs ds : List Said) (place : ℕ) (why : Why)
        (which : Limit) (number : ℕ) → IsFaultWithin at p text cs place why
        → PassesFirst at p text ds which number → ⊥ }
{}

/// A text is one list of commands, or has one fault after one list of them, or passes limits at one place after one list
/// of them.
pub fn one_outcome()
    ensures stream { (at : ℕ) (p : Bool) (text : List ℕ) (cs ds : List Said) → IsStreamWithin at p text cs
        → IsStreamWithin at p text ds → cs ≡ ds }
    ensures fault { (at : ℕ) (p : Bool) (text : List ℕ) (cs ds : List Said) (place other : ℕ) (why because : Why)
        → IsFaultWithin at p text cs place why → IsFaultWithin at p text ds other because
        → (cs ≡ ds) × (place ≡ other) × (why ≡ because) }
    ensures limit { (at : ℕ) (p : Bool) (text : List ℕ) (cs ds : List Said) (which other : Limit) (number count : ℕ)
        (f : PassesFirst at p text cs which number) (g : PassesFirst at p text ds other count)
        → (cs ≡ ds) × (f.rows ≡ g.rows) }
{}
