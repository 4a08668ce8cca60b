// The bytes that a text spells as a path (git-fast-import(1), filemodify): quoted, or as they are.
ghost use Rattle.std.specs.Prelude.{◌≡◌, ◌≢◌, ◌+◌, ◌≤◌, ℕ, List, ◌∷◌, ◌++◌, IfOk, IfSome, IfNone, MatchBool, true, length, drop};
ghost use Rattle.swh_fastlex.specs.Path.{letter_byte, Piece, IsPiece, piece_text, RunsQuoted, RunsPlain};
ghost use Rattle.swh_fastlex.specs.Spelling.{BeginsWithPiece, BeginsWithOctal, NeverOctal, IsBefore};

use std::alloc::{AllocError, Global};
use swh_base::behind;

/// The bytes that the front of a text spells, as far as a path may go.
#[derive(Drop)]
pub struct PathRun {
    pub path: Vec<u8>,
    /// How many bytes of the text spell them, with the quote before them.
    pub length: usize,
    /// Whether the text begins with a quote.
    pub quoted: bool,
}

/// The byte that a letter after a backslash spells.
fn letter_byte(letter: u8) -> Option<u8>
    ensures { result ≡ letter_byte letter }
{
    if letter == b'a' {
        Some(7)
    } else if letter == b'b' {
        Some(8)
    } else if letter == b'f' {
        Some(12)
    } else if letter == b'n' {
        Some(10)
    } else if letter == b'r' {
        Some(13)
    } else if letter == b't' {
        Some(9)
    } else if letter == b'v' {
        Some(11)
    } else if letter == b'\\' {
        Some(92)
    } else if letter == b'"' {
        Some(34)
    } else {
        None
    }
}

/// The byte that the first three octal digits spell.
fn octal_byte(text: &[u8]) -> Option<u8>
    ensures some { IfSome result (BeginsWithOctal text.now) }
    ensures none { IfNone result (NeverOctal text.now) }
{
    if text.len() < 3 {
        return None;
    }
    let (high, middle, low) = (text[0], text[1], text[2]);
    if high < b'0' || high > b'3' {
        return None;
    }
    if middle < b'0' || middle > b'7' {
        return None;
    }
    if low < b'0' || low > b'7' {
        return None;
    }
    Some((high - b'0') * 64 + (middle - b'0') * 8 + (low - b'0'))
}

/// The byte that the first piece spells, and the bytes of the piece.
fn first_piece(text: &[u8]) -> Option<(u8, usize)>
    ensures some { IfSome result (λ x. BeginsWithPiece text.now x.0 x.1) }
    ensures none { IfNone result ((piece : Piece) (rest : List ℕ) → IsPiece piece
        → text.now ≡ piece_text piece ++ rest → ⊥) }
{
    let Some((first, after)) = text.split_first() else {
        return None;
    };
    if *first == b'"' || *first == b'\n' {
        return None;
    }
    if *first != b'\\' {
        return Some((*first, 1));
    }
    let Some((letter, _)) = after.split_first() else {
        return None;
    };
    if let Some(byte) = letter_byte(*letter) {
        return Some((byte, 2));
    }
    match octal_byte(after) {
        Some(byte) => Some((byte, 4)),
        None => None,
    }
}

/// The bytes that the pieces after a quote spell.
fn quoted_run(alloc: Global, text: &[u8], pieces: &[u8]) -> Result<PathRun, AllocError>
    requires { text.now ≡ 34 ∷ pieces.now }
    ensures runs { IfOk result (λ run. RunsQuoted text.now run.path.items (drop run.length text.now)) }
    ensures within { IfOk result (λ run. run.length ≤ length text.now) }
    ensures quoted { IfOk result (λ run. run.quoted ≡ true) }
{
    let mut path = Vec::new(alloc);
    let mut rest = pieces;
    'pieces: while let Some((byte, length)) = first_piece(rest) {
        path.push(byte)?;
        rest = &rest[length..];
    }
    Ok(PathRun {
        path,
        length: text.len() - rest.len(),
        quoted: true,
    })
}

/// How many bytes stand before the first `stop`, or before the end.
fn bytes_before(text: &[u8], stop: u8) -> usize
    ensures { IsBefore stop text.now result }
{
    match text.iter().position(|byte| *byte == stop) {
        Some(end) => end,
        None => text.len(),
    }
}

/// The bytes that the front of a text spells, as far as a path may go: those of the pieces after a quote, or else the
/// bytes of the text itself up to the first `stop`. What is read is not tested to be a path (`is_path` does).
///
/// # Errors
///
/// Memory ran out.
pub fn path_run(alloc: Global, text: &[u8], stop: u8) -> Result<PathRun, AllocError>
    ensures runs { IfOk result (λ run. MatchBool run.quoted
        (RunsQuoted text.now run.path.items (drop run.length text.now))
        (RunsPlain stop text.now run.path.items (drop run.length text.now))) }
    ensures within { IfOk result (λ run. run.length ≤ length text.now) }
{
    if let Some(pieces) = behind(b"\"", text) {
        return quoted_run(alloc, text, pieces);
    }
    let length = bytes_before(text, stop);
    let path = Vec::from_slice(alloc, &text[..length])?;
    Ok(PathRun {
        path,
        length,
        quoted: false,
    })
}
