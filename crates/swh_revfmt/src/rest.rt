//! The rests of plain manifests: lines of a word and a text, and a message.

ghost use Rattle.std.specs.Prelude.{◌≡◌, ℕ, ◌<◌, ◌^◌, length, List, Option, ◌∷◌, ◌++◌, Contains, codes, IfSome, IfNone};
ghost use Rattle.std.specs.Option.{option_copied};
ghost use Rattle.swh_revfmt.specs.Plain.{
  text_line,
  optional_line,
  IsPersonLine,
  IsEncoding,
  RevisionRest,
  IsRevisionRest,
  ReleaseRest,
  IsReleaseRest,
};
ghost use Rattle.swh_revfmt.specs.PlainReading.{rev_rest, rel_rest};

use swh_base::{LINE_LIMIT, behind, is_person, split_at_byte};

/// The text of a line after its word, and the bytes after the line.
#[derive(Drop)]
struct TextLine<'a> {
    text: &'a [u8],
    rest: &'a [u8],
}

/// A line of this word.
fn text_line<'a>(word: &[u8], bytes: &'a [u8]) -> Option<TextLine<'a>>
    ensures some { IfSome result (λ line. (Contains line.text.now 10 → ⊥)
        × (bytes.now ≡ text_line word.now line.text.now ++ line.rest.now)) }
    ensures none { IfNone result ((text rest : List ℕ) → (Contains text 10 → ⊥)
        → bytes.now ≡ text_line word.now text ++ rest → ⊥) }
{
    let Some(rest) = behind(word, bytes) else {
        return None;
    };
    let Some((text, rest)) = split_at_byte(rest, b'\n') else {
        return None;
    };
    Some(TextLine { text, rest })
}

/// A line of this word and a person.
fn person_line<'a>(word: &[u8], bytes: &'a [u8]) -> Option<TextLine<'a>>
    requires { length word.now < 2 ^ 32 }
    ensures some { IfSome result (λ line. IsPersonLine word.now line.text.now
        × (bytes.now ≡ text_line word.now line.text.now ++ line.rest.now)) }
    ensures none { IfNone result ((text rest : List ℕ) → IsPersonLine word.now text
        → bytes.now ≡ text_line word.now text ++ rest → ⊥) }
{
    let Some(line) = text_line(word, bytes) else {
        return None;
    };
    if word.len() + line.text.len() >= LINE_LIMIT {
        return None;
    }
    if !is_person(line.text) {
        return None;
    }
    Some(line)
}

/// A line that names an encoding.
fn encoding_line(bytes: &[u8]) -> Option<TextLine<'_>>
    ensures some { IfSome result (λ line. IsEncoding line.text.now
        × (bytes.now ≡ text_line (codes "encoding ") line.text.now ++ line.rest.now)) }
    ensures none { IfNone result ((text rest : List ℕ) → IsEncoding text
        → bytes.now ≡ text_line (codes "encoding ") text ++ rest → ⊥) }
{
    let Some(line) = text_line(b"encoding ", bytes) else {
        return None;
    };
    if line.text.len() >= LINE_LIMIT - 9 {
        return None;
    }
    if line.text.is_empty() {
        return None;
    }
    if line.text.contains(&b'\0') {
        return None;
    }
    Some(line)
}

/// An optional line, and the message after an empty line.
#[derive(Drop)]
struct Tail<'a> {
    text: Option<&'a [u8]>,
    message: &'a [u8],
}

/// An optional line that names an encoding, an empty line, and a message.
fn encoding_tail(bytes: &[u8]) -> Option<Tail<'_>>
    ensures some { IfSome result (λ tail. IfSome (option_copied tail.text) IsEncoding
        × (bytes.now ≡ optional_line (codes "encoding ") (option_copied tail.text) ++ 10 ∷ tail.message.now)) }
    ensures none { IfNone result ((text : Option (List ℕ)) (message : List ℕ) → IfSome text IsEncoding
        → bytes.now ≡ optional_line (codes "encoding ") text ++ 10 ∷ message → ⊥) }
{
    if let Some(message) = behind(b"\n", bytes) {
        return Some(Tail {
            text: None,
            message,
        });
    }
    let Some(line) = encoding_line(bytes) else {
        return None;
    };
    let Some(message) = behind(b"\n", line.rest) else {
        return None;
    };
    Some(Tail {
        text: Some(line.text),
        message,
    })
}

/// An optional line of a tagger, an empty line, and a message.
fn tagger_tail(bytes: &[u8]) -> Option<Tail<'_>>
    ensures some { IfSome result (λ tail. IfSome (option_copied tail.text) (λ text. IsPersonLine (codes "tagger ") text)
        × (bytes.now ≡ optional_line (codes "tagger ") (option_copied tail.text) ++ 10 ∷ tail.message.now)) }
    ensures none { IfNone result ((text : Option (List ℕ)) (message : List ℕ)
        → IfSome text (λ text. IsPersonLine (codes "tagger ") text)
        → bytes.now ≡ optional_line (codes "tagger ") text ++ 10 ∷ message → ⊥) }
{
    if let Some(message) = behind(b"\n", bytes) {
        return Some(Tail {
            text: None,
            message,
        });
    }
    let Some(line) = person_line(b"tagger ", bytes) else {
        return None;
    };
    let Some(message) = behind(b"\n", line.rest) else {
        return None;
    };
    Some(Tail {
        text: Some(line.text),
        message,
    })
}

/// The rest of a plain revision.
#[derive(Drop)]
pub struct RevRest<'a> {
    pub author: &'a [u8],
    pub committer: &'a [u8],
    pub encoding: Option<&'a [u8]>,
    pub message: &'a [u8],
}

/// The rest of a plain revision in these bytes; none where they are no such rest.
pub fn revision_rest(bytes: &[u8]) -> Option<RevRest<'_>>
    ensures some { IfSome result (λ rest. IsRevisionRest bytes.now (rev_rest rest)) }
    ensures none { IfNone result ((rest : RevisionRest) → IsRevisionRest bytes.now rest → ⊥) }
{
    let Some(author) = person_line(b"author ", bytes) else {
        return None;
    };
    let Some(committer) = person_line(b"committer ", author.rest) else {
        return None;
    };
    let Some(tail) = encoding_tail(committer.rest) else {
        return None;
    };
    Some(RevRest {
        author: author.text,
        committer: committer.text,
        encoding: tail.text,
        message: tail.message,
    })
}

/// The rest of a plain release.
#[derive(Drop)]
pub struct RelRest<'a> {
    pub tagger: Option<&'a [u8]>,
    pub message: &'a [u8],
}

/// The rest of a plain release in these bytes; none where they are no such rest.
pub fn release_rest(bytes: &[u8]) -> Option<RelRest<'_>>
    ensures some { IfSome result (λ rest. IsReleaseRest bytes.now (rel_rest rest)) }
    ensures none { IfNone result ((rest : ReleaseRest) → IsReleaseRest bytes.now rest → ⊥) }
{
    let Some(tail) = tagger_tail(bytes) else {
        return None;
    };
    Some(RelRest {
        tagger: tail.text,
        message: tail.message,
    })
}
