//! What holds of all words.
ghost use Rattle.std.specs.Prelude.{◌≡◌, ◌≢◌, ◌<◌, ◌↔◌, ◌⊎◌, ◌^◌, ℕ, List, [], Some, length};
ghost use Rattle.clap.specs.Words.{fault_of};
ghost use Rattle.swh_words.specs.Definition.{program_app};
ghost use Rattle.swh_words.specs.Spelling.{NamesNoKind, spelling_of};
ghost use Rattle.swh_words.specs.Words.{Wanted, IsCommand, IsOffered, spelled_command};

/// Words are one command at most.
pub fn one_command()
    ensures { (words : List (List ℕ)) (a b : Wanted) → IsCommand words a → IsCommand words b → a ≡ b }
{}

/// Fewer than 2^64 words are a command exactly where they spell it and it is offered.
pub fn spelled_words()
    ensures { (words : List (List ℕ)) (wanted : Wanted) → length words < 2 ^ 64
        → IsCommand words wanted ↔ ((spelling_of words ≡ Some (spelled_command wanted)) × IsOffered wanted) }
{}

/// Words are no command exactly where clap's definition of the program refuses them, or they name no kind.
pub fn refused_words()
    ensures { (words : List (List ℕ)) → ((wanted : Wanted) → IsCommand words wanted → ⊥) ↔
        ((fault_of program_app words ≢ []) ⊎ NamesNoKind words) }
{}
