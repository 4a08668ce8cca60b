//! The branch that bytes begin with, cut off part by part.

ghost use Rattle.std.specs.Prelude.{◌≡◌, ℕ, ◌<◌, ◌^◌, List, ◌++◌, length, IfSome, IfNone};
ghost use Rattle.swh_base.specs.Snapshot.{IsBranch, branch_text};
ghost use Rattle.swh_snpfmt.specs.Fault.{BeginsBranch};
ghost use Rattle.swh_snpfmt.specs.Branches.{branch_of};
ghost use Rattle.swh_snpfmt.specs.Reading.{sized_text};

use crate::branch::SpelledBranch;
use crate::number::number_of;
use crate::target::target_from;
use swh_base::split_at_byte;

/// The bytes after a length and a colon, as many as the length says, and what follows them.
fn sized(bytes: &[u8]) -> Option<(&[u8], &[u8])>
    ensures some { IfSome result (λ x. (bytes.now ≡ sized_text x.0.now ++ x.1.now) × (length x.0.now < 2 ^ 64)) }
    ensures none { IfNone result ((content rest : List ℕ) → length content < 2 ^ 64
        → bytes.now ≡ sized_text content ++ rest → ⊥) }
{
    let Some((digits, rest)) = split_at_byte(bytes, b':') else {
        return None;
    };
    let Some(size) = number_of(digits) else {
        return None;
    };
    if size > rest.len() {
        return None;
    }
    Some(rest.split_at(size))
}

/// The branch at the front of these bytes, and the bytes after it.
pub fn front_branch(bytes: &[u8]) -> Option<(SpelledBranch<'_>, &[u8])>
    ensures some { IfSome result (λ x. IsBranch (branch_of x.0)
        × (bytes.now ≡ branch_text (branch_of x.0) ++ x.1.now)) }
    ensures none { IfNone result (BeginsBranch bytes.now → ⊥) }
{
    let Some((word, rest)) = split_at_byte(bytes, b' ') else {
        return None;
    };
    let Some((name, rest)) = split_at_byte(rest, b'\0') else {
        return None;
    };
    if name.is_empty() {
        return None;
    }
    let Some((content, rest)) = sized(rest) else {
        return None;
    };
    let Some(target) = target_from(word, content) else {
        return None;
    };
    Some((SpelledBranch { name, target }, rest))
}
