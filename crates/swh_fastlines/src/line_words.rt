// The words inside lines (git-fast-import(1), commit, tag, filemodify). A ref that is too long is told before anything
// else.
ghost use Rattle.std.specs.Prelude.{◌≡◌, ◌↔◌, ◌≤◌, ℕ, List, [], Contains, IsTrue, IfOk, IfSome, IfNone, length, take};
ghost use Rattle.std.specs.List.{AllPass};
ghost use Rattle.swh_base.specs.Limits.{ref_limit, tag_limit};
ghost use Rattle.swh_base.specs.Text.{is_ref_byte};
ghost use Rattle.swh_fastlex.specs.Word.{IsWord};
ghost use Rattle.swh_fastgrammar.specs.Grammar.{zeros};
ghost use Rattle.swh_fastlines.specs.Limit.{PassesRef};
ghost use Rattle.swh_fastgrammar.specs.Word.{IsMark, IsMode, SpellsId, NamesRef, NamesTag, NamesEncoding, NamesCommit, IsRefRun, IsRefUpTo, EndsCommit};

use std::alloc::{AllocError, Global};
use swh_base::{Bytes, Kind, Name, REF_LIMIT, TAG_LIMIT, behind, is_ref, number_of, split_at_byte};
use swh_fastgrammar::Commitish;
use swh_fastlex::Word;

/// The mark that the text writes: 1 to 18 digits, and not 0.
pub fn mark_of(text: &[u8]) -> Option<u64>
    ensures some { IfSome result (λ mark. IsMark text.now mark) }
    ensures none { IfNone result ((mark : ℕ) → IsMark text.now mark → ⊥) }
{
    let mark = number_of(text)?;
    if mark == 0 {
        return None;
    }
    Some(mark)
}

/// The mode of a file or of a link that the text names: 100644, 100755 or 120000, with 644 and 755 for the first two.
pub fn mode_of(text: &[u8]) -> Option<u32>
    ensures some { IfSome result (λ mode. IsMode text.now mode) }
    ensures none { IfNone result ((mode : ℕ) → IsMode text.now mode → ⊥) }
{
    if text == b"100644".as_slice() {
        return Some(100_644);
    }
    if text == b"644".as_slice() {
        return Some(100_644);
    }
    if text == b"100755".as_slice() {
        return Some(100_755);
    }
    if text == b"755".as_slice() {
        return Some(100_755);
    }
    if text == b"120000".as_slice() {
        return Some(120_000);
    }
    None
}

/// The id that forty lower-case hexadecimal digits spell.
pub fn id_of(text: &[u8]) -> Option<[u8; 20]>
    ensures some { IfSome result (λ id. SpellsId text.now id) }
    ensures none { IfNone result ((id : List ℕ) → SpellsId text.now id → ⊥) }
{
    match Name::from_hex(Kind::Revision, text) {
        Some(name) => Some(name.id),
        None => None,
    }
}

/// Whether the text may be an encoding: it is not empty, and has no NUL.
pub fn is_encoding(text: &[u8]) -> bool
    ensures { IsTrue result ↔ NamesEncoding text.now text.now }
{
    if text.is_empty() {
        return false;
    }
    match split_at_byte(text, b'\0') {
        Some(_) => false,
        None => true,
    }
}

/// Whether the text is forty zeros.
pub fn is_zeros(text: &[u8]) -> bool
    ensures { IsTrue result ↔ text.now ≡ zeros }
{
    text == b"0000000000000000000000000000000000000000".as_slice()
}

/// Whether a byte may stand in a ref.
fn is_ref_byte(byte: u8) -> bool
    ensures { result ≡ is_ref_byte byte }
{
    is_ref(&[byte])
}

/// How many bytes of a ref the text begins with.
pub fn ref_run(text: &[u8]) -> usize
    ensures { IsRefRun text.now result }
{
    let mut count = 0;
    'bytes: while count < text.len() {
        if !is_ref_byte(text[count]) {
            return count;
        }
        count += 1;
    }
    count
}

/// The ref that the text is, which has at most so many bytes.
fn ref_up_to(alloc: Global, text: &[u8], limit: usize) -> Result<Word<Bytes>, AllocError>
    requires { limit ≤ ref_limit }
    ensures { IfOk result (IsWord (IsRefUpTo limit text.now) (PassesRef limit text.now)) }
{
    let run = ref_run(text);
    if run > limit {
        return Ok(Word::Over(run as u64));
    }
    if run == 0 || run < text.len() {
        return Ok(Word::No);
    }
    Ok(Word::Is(Bytes::from_vec(Vec::from_slice(alloc, text)?)))
}

/// The ref that the text is.
///
/// # Errors
///
/// Memory ran out.
pub fn ref_word(alloc: Global, text: &[u8]) -> Result<Word<Bytes>, AllocError>
    ensures { IfOk result (IsWord (NamesRef text.now) (PassesRef ref_limit text.now)) }
{
    ref_up_to(alloc, text, REF_LIMIT)
}

/// The name of a tag that the text is, so that `refs/tags/` and it are a ref.
///
/// # Errors
///
/// Memory ran out.
pub fn tag_word(alloc: Global, text: &[u8]) -> Result<Word<Bytes>, AllocError>
    ensures { IfOk result (IsWord (NamesTag text.now) (PassesRef tag_limit text.now)) }
{
    ref_up_to(alloc, text, TAG_LIMIT)
}

/// What the text names a commit by: `:` and a mark, or a ref, which may have `^0` after it.
///
/// # Errors
///
/// Memory ran out.
pub fn commit_word(alloc: Global, text: &[u8]) -> Result<Word<Commitish>, AllocError>
    ensures { IfOk result (IsWord (NamesCommit text.now) (PassesRef ref_limit text.now)) }
{
    if let Some(number) = behind(b":", text) {
        return match mark_of(number) {
            Some(mark) => Ok(Word::Is(Commitish::Mark(mark))),
            None => Ok(Word::No),
        };
    }
    let run = ref_run(text);
    if run > REF_LIMIT {
        return Ok(Word::Over(run as u64));
    }
    if run == 0 {
        return Ok(Word::No);
    }
    if !ends_commit(&text[run..]) {
        return Ok(Word::No);
    }
    let name = Vec::from_slice(alloc, &text[..run])?;
    Ok(Word::Is(Commitish::Branch(Bytes::from_vec(name))))
}

/// Whether nothing follows a ref, or `^0`.
fn ends_commit(rest: &[u8]) -> bool
    ensures { IsTrue result ↔ EndsCommit rest.now }
{
    rest.is_empty() || rest == b"^0".as_slice()
}
