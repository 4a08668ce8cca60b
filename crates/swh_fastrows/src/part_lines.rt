// Lines of commands (git-fast-import(1), commit, tag, mark, original-oid).
ghost use Rattle.std.specs.Prelude.{◌≡◌, true, codes, IfOk, IfSome, IfNone};
ghost use Rattle.swh_base.specs.Text.{IsPerson};
ghost use Rattle.swh_fastrows.specs.Places.{SaysLine, NeverLine};
ghost use Rattle.swh_fastgrammar.specs.Word.{IsMark, NamesPerson, NamesEncoding, NamesCommit};

use std::alloc::{AllocError, Global};
use swh_base::{behind, is_person};
use swh_fastgrammar::Commitish;
use swh_fastlex::Word;
use swh_fastlines::{commit_word, is_encoding, mark_of};

/// The mark that a line `mark` gives.
pub fn mark_line(line: &[u8]) -> Option<u64>
    ensures some { IfSome result (SaysLine (codes "mark :") IsMark line.now) }
    ensures none { IfNone result (NeverLine (codes "mark :") IsMark line.now) }
{
    let text = behind(b"mark :", line)?;
    mark_of(text)
}

/// The person that a line of this word names.
pub fn person_line<'a>(word: &[u8], line: &'a [u8]) -> Option<&'a [u8]>
    ensures some { IfSome result (λ person. SaysLine word.now NamesPerson line.now person.now) }
    ensures none { IfNone result (NeverLine word.now NamesPerson line.now) }
{
    let text = behind(word, line)?;
    if is_person(text) { Some(text) } else { None }
}

/// The encoding that a line `encoding` names.
pub fn encoding_line(line: &[u8]) -> Option<&[u8]>
    ensures some { IfSome result (λ encoding. SaysLine (codes "encoding ") NamesEncoding line.now encoding.now) }
    ensures none { IfNone result (NeverLine (codes "encoding ") NamesEncoding line.now) }
{
    let text = behind(b"encoding ", line)?;
    if is_encoding(text) { Some(text) } else { None }
}

/// The commit that a line of this word names.
///
/// # Errors
///
/// Memory ran out.
pub fn commit_line(alloc: Global, word: &[u8], line: &[u8]) -> Result<Option<Commitish>, AllocError>
    ensures some { IfOk result (λ found. IfSome found (SaysLine word.now NamesCommit line.now)) }
    ensures none { IfOk result (λ found. IfNone found (NeverLine word.now NamesCommit line.now)) }
{
    let Some(text) = behind(word, line) else {
        return Ok(None);
    };
    match commit_word(alloc, text)? {
        Word::Is(commit) => Ok(Some(commit)),
        Word::Over(_) => Ok(None),
        Word::No => Ok(None),
    }
}
