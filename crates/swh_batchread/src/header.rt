//! Headers of objects in a batch (git-cat-file(1), batch output).
ghost use Rattle.std.specs.Prelude.{◌≡◌, ℕ, ◌<◌, ◌^◌, decimal, IfSome, IfNone};
ghost use Rattle.swh_base.specs.Kind.{word_of};
ghost use Rattle.swh_base.specs.declared.kind.Kind.{Kind as AnyKind};
ghost use Rattle.swh_base.specs.declared.kind.Kind.TheVariants.{Snapshot};
ghost use Rattle.swh_batchread.specs.declared.header.Header.{Header as AnyHeader};
ghost use Rattle.swh_batchread.specs.Batch.{IsHeader, header_line};

use itoa::Buffer;
use swh_base::{Kind, Name, split_at_byte};

/// What the line before a body says: the id, the kind and how many bytes the body has.
#[derive(Clone, Copy, Debug)]
pub struct Header {
    pub id: [u8; 20],
    pub kind: Kind,
    pub size: u64,
}

/// The kind that a word names: `blob`, `tree`, `commit` or `tag`.
fn kind_of(word: &[u8]) -> Option<Kind>
    ensures some { IfSome result (λ kind. (word.now ≡ word_of kind) × (kind ≡ Snapshot → ⊥)) }
    ensures none { IfNone result ((kind : AnyKind) → (kind ≡ Snapshot → ⊥) → word.now ≡ word_of kind → ⊥) }
{
    if word == b"blob".as_slice() {
        return Some(Kind::Content);
    }
    if word == b"tree".as_slice() {
        return Some(Kind::Directory);
    }
    if word == b"commit".as_slice() {
        return Some(Kind::Revision);
    }
    if word == b"tag".as_slice() {
        return Some(Kind::Release);
    }
    None
}

/// The number of these decimal digits, which have no leading zero but `0` itself.
fn size_of(digits: &[u8]) -> Option<u64>
    ensures some { IfSome result (λ n. digits.now ≡ decimal n) }
    ensures small { IfSome result (λ n. n < 2 ^ 64) }
    ensures none { IfNone result ((n : ℕ) → n < 2 ^ 64 → digits.now ≡ decimal n → ⊥) }
{
    let Ok(text) = str::from_utf8(digits) else {
        return None;
    };
    let Ok(number) = text.parse::<u64>() else {
        return None;
    };
    let mut buffer = Buffer::new();
    if buffer.format(number).as_bytes() == digits {
        Some(number)
    } else {
        None
    }
}

/// The header that a line without its LF is.
pub fn header_of(line: &[u8]) -> Option<Header>
    ensures some { IfSome result (λ h. IsHeader h × (line.now ≡ header_line h)) }
    ensures none { IfNone result ((h : AnyHeader) → IsHeader h → line.now ≡ header_line h → ⊥) }
{
    let Some((hex, rest)) = split_at_byte(line, b' ') else {
        return None;
    };
    let Some(name) = Name::from_hex(Kind::Revision, hex) else {
        return None;
    };
    let Some((word, digits)) = split_at_byte(rest, b' ') else {
        return None;
    };
    let Some(kind) = kind_of(word) else {
        return None;
    };
    let Some(size) = size_of(digits) else {
        return None;
    };
    let id = name.id;
    Some(Header { id, kind, size })
}
