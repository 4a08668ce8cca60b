// Limits of the words in a line (git-fast-import(1), commit, data, filemodify), asked of the line alone.
ghost use Rattle.std.specs.Prelude.{◌≡◌, ℕ, List, ◌++◌, IfOk, IfSome, IfNone, Contains};
ghost use Rattle.swh_base.specs.declared.visit.Which.{Which as Limit};
ghost use Rattle.swh_fastlines.specs.Limit.{ref_words, PassesCount, PassesRefs, PassesPaths, PassesWords};

use crate::change_lines::{ChangeLine, change_line};
use crate::line_words::ref_run;
use std::alloc::{AllocError, Global};
use swh_base::{BODY_LIMIT, PATH_LIMIT, REF_LIMIT, TAG_LIMIT, Which, behind, number_of};

/// How many bytes of data the line opens, where a body may have fewer.
fn long_count(line: &[u8]) -> Option<u64>
    ensures some { IfSome result (PassesCount line.now) }
    ensures none { IfNone result ((number : ℕ) → PassesCount line.now number → ⊥) }
{
    let Some(digits) = behind(b"data ", line) else {
        return None;
    };
    let Some(count) = number_of(digits) else {
        return None;
    };
    if count > BODY_LIMIT {
        Some(count)
    } else {
        None
    }
}

/// What stands behind a word that a ref follows, and how many bytes the ref may have there.
fn ref_place(line: &[u8]) -> Option<(&[u8], usize)>
    ensures some { IfSome result (λ x. (word : List ℕ) × Contains ref_words (word, x.1) × (line.now ≡ word ++ x.0.now)) }
    ensures none { IfNone result ((word text : List ℕ) (limit : ℕ) → Contains ref_words (word, limit)
        → line.now ≡ word ++ text → ⊥) }
{
    if let Some(text) = behind(b"commit ", line) {
        return Some((text, REF_LIMIT));
    }
    if let Some(text) = behind(b"reset ", line) {
        return Some((text, REF_LIMIT));
    }
    if let Some(text) = behind(b"from ", line) {
        return Some((text, REF_LIMIT));
    }
    if let Some(text) = behind(b"merge ", line) {
        return Some((text, REF_LIMIT));
    }
    if let Some(text) = behind(b"tag ", line) {
        return Some((text, TAG_LIMIT));
    }
    None
}

/// How many bytes a ref in the line has, where it may have fewer.
fn long_ref(line: &[u8]) -> Option<u64>
    ensures some { IfSome result (PassesRefs line.now) }
    ensures none { IfNone result ((number : ℕ) → PassesRefs line.now number → ⊥) }
{
    let Some((text, limit)) = ref_place(line) else {
        return None;
    };
    let run = ref_run(text);
    if run > limit { Some(run as u64) } else { None }
}

/// How many bytes a path in the line has, where it may have fewer. No line that is as short as a path may be has one
/// that is too long.
fn long_path(alloc: Global, line: &[u8]) -> Result<Option<u64>, AllocError>
    ensures some { IfOk result (λ found. IfSome found (PassesPaths line.now)) }
    ensures none { IfOk result (λ found. IfNone found ((number : ℕ) → PassesPaths line.now number → ⊥)) }
{
    if line.len() <= PATH_LIMIT {
        return Ok(None);
    }
    match change_line(alloc, line)? {
        ChangeLine::Over(number) => Ok(Some(number)),
        ChangeLine::Whole(_) => Ok(None),
        ChangeLine::Inline { .. } => Ok(None),
        ChangeLine::No => Ok(None),
    }
}

/// The limit that a word of the line, which is given without its LF, passes, and by which number: a count of data, the
/// bytes of a ref, or those of a path. The line alone is asked, wherever it stands.
///
/// # Errors
///
/// Memory ran out.
pub fn word_limit(alloc: Global, line: &[u8]) -> Result<Option<(Which, u64)>, AllocError>
    ensures some { IfOk result (λ found. IfSome found (λ x. PassesWords line.now x.0 x.1)) }
    ensures none { IfOk result (λ found. IfNone found ((which : Limit) (number : ℕ) → PassesWords line.now which number → ⊥)) }
{
    if let Some(count) = long_count(line) {
        return Ok(Some((Which::Body, count)));
    }
    if let Some(length) = long_ref(line) {
        return Ok(Some((Which::Ref, length)));
    }
    match long_path(alloc, line)? {
        Some(length) => Ok(Some((Which::Path, length))),
        None => Ok(None),
    }
}
