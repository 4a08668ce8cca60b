// Paths in the lines of a stream (git-fast-import(1), filemodify). One that is too long is told before anything else.
ghost use Rattle.std.specs.Prelude.{◌↔◌, ◌≡◌, ◌≢◌, ◌≤◌, ℕ, List, ◌∷◌, [], IfOk, IfSome, IfNone, IsTrue, MatchBool, length, drop};
ghost use Rattle.swh_fastlex.specs.Path.{NamesPath, NamesPathBefore, PassesPath};
ghost use Rattle.swh_fastlex.specs.Word.{IsWord, IfWord};

use crate::path::is_path;
use crate::spelling::path_run;
use crate::word::Word;
use std::alloc::{AllocError, Global};
use swh_base::{Bytes, PATH_LIMIT, behind};

/// A path with which a text begins.
#[derive(Drop)]
pub struct PathBefore {
    pub path: Bytes,
    /// How many bytes of the text spell it, with the byte that ends it.
    pub length: usize,
}

/// Whether these bytes after a run end a spelling that ends with the text: its closing quote, or nothing.
fn ends_text(quoted: bool, rest: &[u8]) -> bool
    ensures { IsTrue result ↔ MatchBool quoted (rest.now ≡ 34 ∷ []) (rest.now ≡ []) }
{
    if quoted {
        rest == b"\"".as_slice()
    } else {
        rest.is_empty()
    }
}

/// What follows a spelling that the byte `stop` ends, after its closing quote and that byte.
fn after_stop<'a>(quoted: bool, rest: &'a [u8], stop: u8) -> Option<&'a [u8]>
    ensures some { IfSome result (λ after. MatchBool quoted (rest.now ≡ 34 ∷ stop ∷ after.now)
        (rest.now ≡ stop ∷ after.now)) }
    ensures none { IfNone result ((after : List ℕ) → MatchBool quoted (rest.now ≡ 34 ∷ stop ∷ after)
        (rest.now ≡ stop ∷ after) → ⊥) }
{
    if quoted {
        behind(&[b'"', stop], rest)
    } else {
        behind(&[stop], rest)
    }
}

/// The path that the text is, up to its end.
///
/// # Errors
///
/// Memory ran out.
pub fn path_word(alloc: Global, text: &[u8]) -> Result<Word<Bytes>, AllocError>
    ensures { IfOk result (IsWord (NamesPath text.now) (PassesPath 10 text.now)) }
{
    let run = path_run(alloc, text, b'\n')?;
    if run.path.len() > PATH_LIMIT {
        return Ok(Word::Over(run.path.len() as u64));
    }
    if !ends_text(run.quoted, &text[run.length..]) {
        return Ok(Word::No);
    }
    if !is_path(run.path.as_slice()) {
        return Ok(Word::No);
    }
    Ok(Word::Is(Bytes::from_vec(run.path)))
}

/// The path with which the text begins, up to the byte `stop`: a space for the source of a copy or a rename.
///
/// # Errors
///
/// Memory ran out.
pub fn path_before(alloc: Global, text: &[u8], stop: u8) -> Result<Word<PathBefore>, AllocError>
    requires { stop ≢ 34 }
    ensures word { IfOk result (IsWord (λ x. NamesPathBefore stop text.now x.path (drop x.length text.now))
        (PassesPath stop text.now)) }
    ensures within { IfOk result (IfWord (λ x. x.length ≤ length text.now)) }
{
    let run = path_run(alloc, text, stop)?;
    if run.path.len() > PATH_LIMIT {
        return Ok(Word::Over(run.path.len() as u64));
    }
    let Some(after) = after_stop(run.quoted, &text[run.length..], stop) else {
        return Ok(Word::No);
    };
    if !is_path(run.path.as_slice()) {
        return Ok(Word::No);
    }
    Ok(Word::Is(PathBefore {
        path: Bytes::from_vec(run.path),
        length: text.len() - after.len(),
    }))
}
