//! What the bytes of a stream determine. A place is one where a command may begin, and `p` says whether `done` was
//! promised before it.
ghost use Rattle.std.specs.Prelude.{◌≡◌, ℕ, Bool, List};
ghost use Rattle.swh_fastgrammar.specs.declared.command.Command.{Command as Said};
ghost use Rattle.swh_fastgrammar.specs.declared.fault.StreamWhy.{StreamWhy as Why};
ghost use Rattle.swh_fastgrammar.specs.Fault.{IsFault};
ghost use Rattle.swh_fastgrammar.specs.Grammar.{IsCommand, IsStream};
ghost use Rattle.swh_fastgrammar.specs.Givable.{IsGivable};
ghost use Rattle.swh_fastgrammar.specs.Row.{Placed};

/// A text has one first fault at most, at one place, with one list of whole commands before it.
pub fn one_fault()
    ensures { (at : ℕ) (p : Bool) (text : List ℕ) (cs ds : List Said) (place other : ℕ) (why because : Why)
        → IsFault at p text cs place why → IsFault at p text ds other because
        → (cs ≡ ds) × (place ≡ other) × (why ≡ because) }
{}

/// A text that is a stream has no fault.
pub fn no_fault()
    ensures { (at : ℕ) (p : Bool) (text : List ℕ) (cs before : List Said) (place : ℕ) (why : Why)
        → IsStream at p text cs → IsFault at p text before place why → ⊥ }
{}

/// A text is a stream of one list of commands at most.
pub fn one_reading()
    ensures { (at : ℕ) (p : Bool) (text : List ℕ) (cs ds : List Said) → IsStream at p text cs → IsStream at p text ds
        → cs ≡ ds }
{}

/// What the grammar says of a command without its stream: its refs and paths are such, and its modes fit.
pub fn givable()
    ensures { (rows : List Placed) (c : Said) → IsCommand rows c → IsGivable c }
{}
