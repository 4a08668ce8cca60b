//! Targets as they stand in a body: a word, and the bytes after the length.

ghost use Rattle.std.specs.Prelude.{◌≡◌, ◌≢◌, [], length, IfSome, IfNone};
ghost use Rattle.swh_base.specs.declared.kind.Kind.{Kind};
ghost use Rattle.swh_base.specs.Snapshot.{
  BranchTarget,
  ToObject,
  ToBranch,
  ToNothing,
  IsTarget,
  target_kind_word,
  target_word,
  target_bytes,
};
ghost use Rattle.swh_snpfmt.specs.Branches.{target_view, target_spelled};

use crate::branch::{SpelledTarget, Target};
use swh_base::Kind;

fn kind_of(word: &[u8]) -> Option<Kind>
    ensures some { IfSome result (λ kind. word.now ≡ target_kind_word kind) }
    ensures none { IfNone result ((kind : Kind) → word.now ≢ target_kind_word kind) }
{
    if word == b"content".as_slice() {
        Some(Kind::Content)
    } else if word == b"directory".as_slice() {
        Some(Kind::Directory)
    } else if word == b"revision".as_slice() {
        Some(Kind::Revision)
    } else if word == b"release".as_slice() {
        Some(Kind::Release)
    } else if word == b"snapshot".as_slice() {
        Some(Kind::Snapshot)
    } else {
        None
    }
}

fn alias_from(bytes: &[u8]) -> Option<SpelledTarget<'_>>
    ensures some { IfSome result (λ x. (target_spelled x ≡ ToBranch bytes.now) × (bytes.now ≢ [])) }
    ensures none { IfNone result (bytes.now ≡ []) }
{
    if bytes.is_empty() {
        None
    } else {
        Some(SpelledTarget::Alias(bytes))
    }
}

fn nothing_from<'a>(bytes: &[u8]) -> Option<SpelledTarget<'a>>
    ensures some { IfSome result (λ x. (target_spelled x ≡ ToNothing) × (bytes.now ≡ [])) }
    ensures none { IfNone result (bytes.now ≢ []) }
{
    if bytes.is_empty() {
        Some(SpelledTarget::Dangling)
    } else {
        None
    }
}

fn object_from(kind: Kind, bytes: &[u8]) -> Option<SpelledTarget<'_>>
    ensures some { IfSome result (λ x. (target_spelled x ≡ ToObject (record { kind = kind; id = bytes.now }))
        × (length bytes.now ≡ 20)) }
    ensures none { IfNone result (length bytes.now ≢ 20) }
{
    if bytes.len() != 20 {
        return None;
    }
    let (id, _) = bytes.split_first_chunk::<20>()?;
    Some(SpelledTarget::Object(kind, id))
}

/// The target that this word and these bytes stand for.
pub fn target_from<'a>(word: &[u8], bytes: &'a [u8]) -> Option<SpelledTarget<'a>>
    ensures some { IfSome result (λ x. let target = target_spelled x in IsTarget target
        × (word.now ≡ target_word target) × (bytes.now ≡ target_bytes target)) }
    ensures none { IfNone result ((target : BranchTarget) → IsTarget target → word.now ≡ target_word target
        → bytes.now ≡ target_bytes target → ⊥) }
{
    if word == b"alias".as_slice() {
        return alias_from(bytes);
    }
    if word == b"dangling".as_slice() {
        return nothing_from(bytes);
    }
    let kind = kind_of(word)?;
    object_from(kind, bytes)
}

fn kind_word(kind: Kind) -> &'static [u8]
    ensures { result.now ≡ target_kind_word kind }
{
    match kind {
        Kind::Content => b"content",
        Kind::Directory => b"directory",
        Kind::Revision => b"revision",
        Kind::Release => b"release",
        Kind::Snapshot => b"snapshot",
    }
}

/// The word of a target: an object's kind, `alias` or `dangling`.
pub fn word_of(target: &Target) -> &'static [u8]
    ensures { result.now ≡ target_word (target_view target.now) }
{
    match target {
        Target::Object(name) => kind_word(name.kind),
        Target::Alias(_) => b"alias",
        Target::Dangling => b"dangling",
    }
}

/// The bytes of a target: an object's id, the other branch's name, or none.
pub fn bytes_of(target: &Target) -> &[u8]
    ensures { result.now ≡ target_bytes (target_view target.now) }
{
    match target {
        Target::Object(name) => &name.id,
        Target::Alias(name) => name.as_slice(),
        Target::Dangling => b"",
    }
}
