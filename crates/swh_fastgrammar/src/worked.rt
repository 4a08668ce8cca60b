//! Worked examples of the grammar, as laws.
ghost use Rattle.std.specs.Prelude.{◌≡◌, ℕ, List, ◌∷◌, [], ◌++◌, None, false, codes};
ghost use Rattle.swh_fastlex.specs.Path.{NamesPath};
ghost use Rattle.swh_fastgrammar.specs.declared.fault.StreamWhy.TheVariants.{End, Grammar, LeftOut};
ghost use Rattle.swh_fastgrammar.specs.declared.command.Command.TheVariants.{Blob as IsBlob};
ghost use Rattle.swh_fastgrammar.specs.Fault.{IsFault};
ghost use Rattle.swh_fastgrammar.specs.Grammar.{Parses};
ghost use Rattle.swh_fastgrammar.specs.Row.{Row, IsData};

/// A line may follow data at once: the bytes are these three, and the line is not among them.
pub fn data_before_line()
    ensures { let row : Row = record { line = codes "data 3"; raw = codes "abc" } in
        IsData row (codes "abc") (codes "from :1\n") }
{}

/// A stream of one blob without a mark, whose data end the input.
pub fn one_blob()
    ensures { Parses (codes "blob\n#c\ndata 2\nab") (IsBlob None (codes "ab") ∷ []) }
{}

/// A stream that promises `done` and ends is faulty at its end, 13 bytes on.
pub fn promise_not_kept()
    ensures { IsFault 0 false (codes "feature done\n") [] 13 End }
{}

/// A first line that is left out is the fault, at its first byte.
pub fn left_out_line()
    ensures { IsFault 0 false (codes "ls x\n") [] 0 LeftOut }
{}

/// A first line with which no stream begins is the fault, at its first byte, whatever follows.
pub fn unknown_line()
    ensures { (rest : List ℕ) → IsFault 0 false (codes "foo\n" ++ rest) [] 0 Grammar }
{}

/// Octal digits between quotes are the bytes that they name, and the same bytes spell the same path without quotes.
pub fn octal_path()
    ensures quoted { NamesPath (codes "\"caf\\303\\251\"") (codes "caf" ++ 195 ∷ 169 ∷ []) }
    ensures plain { NamesPath (codes "caf" ++ 195 ∷ 169 ∷ []) (codes "caf" ++ 195 ∷ 169 ∷ []) }
{}
