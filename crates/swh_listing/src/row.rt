// One line of a listing: a mode, for a revision of another project its id, and a path.
ghost use Rattle.std.specs.Prelude.{◌++◌, ℕ, List, IfOk, IfSome, IfNone, codes};
ghost use Rattle.swh_fastlex.specs.Word.{IsWord};
ghost use Rattle.swh_listing.specs.declared.listed.Mode.{Mode as Listing};
ghost use Rattle.swh_listing.specs.Line.{BeginsMode, SaysListed, PassesPathIn};

use crate::listed::{Listed, Mode};
use std::alloc::{AllocError, Global};
use swh_base::{behind, split_at_byte};
use swh_fastlex::{Word, path_word};
use swh_fastlines::id_of;

/// What follows the mode of a project's revision and a space: its id, and what comes after that and a space.
fn project_front(text: &[u8]) -> Option<(Mode, &[u8])>
    ensures some { IfSome result (λ x. BeginsMode (codes "160000 " ++ text.now) x.0 x.1.now) }
    ensures none { IfNone result ((mode : Listing) (rest : List ℕ)
        → BeginsMode (codes "160000 " ++ text.now) mode rest → ⊥) }
{
    let Some((digits, rest)) = split_at_byte(text, b' ') else {
        return None;
    };
    let Some(id) = id_of(digits) else {
        return None;
    };
    Some((Mode::Project(id), rest))
}

/// The mode with which a line begins, and what comes after it.
fn mode_front(line: &[u8]) -> Option<(Mode, &[u8])>
    ensures some { IfSome result (λ x. BeginsMode line.now x.0 x.1.now) }
    ensures none { IfNone result ((mode : Listing) (rest : List ℕ) → BeginsMode line.now mode rest → ⊥) }
{
    if let Some(text) = behind(b"100755 ", line) {
        return Some((Mode::Executable, text));
    }
    if let Some(text) = behind(b"120000 ", line) {
        return Some((Mode::Link, text));
    }
    match behind(b"160000 ", line) {
        Some(text) => project_front(text),
        None => None,
    }
}

/// What the line says, which is given without its LF. A path that is too long is told before anything else.
///
/// # Errors
///
/// Memory ran out.
pub fn listed_line(alloc: Global, line: &[u8]) -> Result<Word<Listed>, AllocError>
    ensures { IfOk result (IsWord (SaysListed line.now) (PassesPathIn line.now)) }
{
    let Some((mode, text)) = mode_front(line) else {
        return Ok(Word::No);
    };
    match path_word(alloc, text)? {
        Word::Is(path) => Ok(Word::Is(Listed { mode, path })),
        Word::Over(number) => Ok(Word::Over(number)),
        Word::No => Ok(Word::No),
    }
}
