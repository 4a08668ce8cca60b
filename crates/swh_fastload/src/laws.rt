//! Laws of what inputs mean.
ghost use Rattle.std.specs.Prelude.{◌≡◌, ℕ, List, Option};
ghost use Rattle.swh_base.specs.declared.kind.Kind.{Kind};
ghost use Rattle.swh_base.specs.declared.visit.Which.{Which};
ghost use Rattle.swh_model.specs.Meaning.{StreamMeaning};
ghost use Rattle.swh_fastgrammar.specs.declared.fault.StreamWhy.{StreamWhy};
ghost use Rattle.swh_fastload.specs.Input.{IsSameMaking, Means, Breaks, MayBreak, PassesAt, MakesAbove, EndsAbove};
ghost use Rattle.swh_fastload.specs.declared.bad.BadStream.{BadStream};
ghost use Rattle.swh_fastload.specs.declared.bad.BadStream.TheVariants.{Stream, Limit};

/// What an input means has one set of objects and one snapshot.
pub fn same_making()
    ensures { (id : Kind → List ℕ → List ℕ) (head : Option (List ℕ)) (text : List ℕ) (m n : StreamMeaning)
        → Means id head text m → Means id head text n → IsSameMaking m n }
{}

/// An input that means something does not break.
pub fn never_both()
    ensures { (id : Kind → List ℕ → List ℕ) (head : Option (List ℕ)) (text : List ℕ) (m : StreamMeaning)
        (bad : BadStream) → Means id head text m → Breaks id head text bad → ⊥ }
{}

/// An input breaks only in the ways in which one may: by a fault, or by a limit of bodies, streams, lines, paths, refs or
/// the number of refs, with a number above it.
pub fn ways_to_break()
    ensures { (id : Kind → List ℕ → List ℕ) (head : Option (List ℕ)) (text : List ℕ) (bad : BadStream)
        → Breaks id head text bad → MayBreak bad }
{}

/// An input breaks in one way only: by one fault, at one place, or by limits that it passes first, and never by both.
pub fn one_break()
    ensures fault { (id : Kind → List ℕ → List ℕ) (head : Option (List ℕ)) (text : List ℕ) (at other : ℕ)
        (why because : StreamWhy) → Breaks id head text (Stream at why) → Breaks id head text (Stream other because)
        → (at ≡ other) × (why ≡ because) }
    ensures kind { (id : Kind → List ℕ → List ℕ) (head : Option (List ℕ)) (text : List ℕ) (at : ℕ) (why : StreamWhy)
        (which : Which) (number : ℕ) → Breaks id head text (Stream at why) → Breaks id head text (Limit which number)
        → ⊥ }
{}

/// The limits that an input passes first are passed by its text, after the same rows, or by bodies that one command makes,
/// or by what the stream ends with, which is one limit with one number; and by no two of these. Which limit of the text is
/// told, and which of the command's directories, is left open.
pub fn one_limit()
    ensures text { (id : Kind → List ℕ → List ℕ) (text : List ℕ) (which other : Which) (number count : ℕ)
        (f : PassesAt id text which number) (g : PassesAt id text other count)
        → (f.commands ≡ g.commands) × (f.passes.rows ≡ g.passes.rows) }
    ensures command { (id : Kind → List ℕ → List ℕ) (text : List ℕ) (which other : Which) (number count : ℕ)
        (f : MakesAbove id text which number) (g : MakesAbove id text other count)
        → (f.1.commands ≡ g.1.commands) × (f.1.command ≡ g.1.command) }
    ensures ending { (id : Kind → List ℕ → List ℕ) (head : Option (List ℕ)) (text : List ℕ) (which other : Which)
        (number count : ℕ) → EndsAbove id head text which number → EndsAbove id head text other count
        → (which ≡ other) × (number ≡ count) }
    ensures text_or_command { (id : Kind → List ℕ → List ℕ) (text : List ℕ) (which other : Which) (number count : ℕ)
        → PassesAt id text which number → MakesAbove id text other count → ⊥ }
    ensures text_or_ending { (id : Kind → List ℕ → List ℕ) (head : Option (List ℕ)) (text : List ℕ)
        (which other : Which) (number count : ℕ) → PassesAt id text which number
        → EndsAbove id head text other count → ⊥ }
    ensures command_or_ending { (id : Kind → List ℕ → List ℕ) (head : Option (List ℕ)) (text : List ℕ)
        (which other : Which) (number count : ℕ) → MakesAbove id text which number
        → EndsAbove id head text other count → ⊥ }
{}
