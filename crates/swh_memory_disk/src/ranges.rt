// Bytes, and ranges in them.
ghost use Rattle.std.specs.Prelude.{
  ◌≡◌,
  ◌≤◌,
  ◌<◌,
  ◌+◌,
  ◌⊎◌,
  ◌↔◌,
  ℕ,
  [],
  List,
  length,
  reverse,
  slice_index,
  vec_capacity,
  IsTrue,
  IfOk,
};
ghost use Rattle.swh_outside.specs.Disk.{IsOutside, patched};

use std::alloc::{AllocError, Global};

/// The bytes, with room for this many in all.
pub fn filled(alloc: Global, room: usize, bytes: &[u8]) -> Result<Vec<u8>, AllocError>
    ensures items { IfOk result (λ v. v.items ≡ bytes.now) }
    ensures room { IfOk result (λ v. room ≤ vec_capacity v) }
{
    let mut filled = Vec::with_capacity(alloc, room)?;
    filled.extend_from_slice(bytes)?;
    Ok(filled)
}

/// Says whether a place is in none of the ranges.
pub fn is_outside(ranges: &[(usize, usize)], k: usize) -> bool
    ensures { IsTrue result ↔ IsOutside (reverse ranges.now) k }
{
    for range in ranges {
        if range.0 <= k && k - range.0 < range.1 {
            return false;
        }
    }
    true
}

/// Writes bytes over those at a place, and past the end, where there is room for them.
pub fn patch(target: &mut Vec<u8>, at: usize, bytes: &[u8])
    requires inside { at ≤ length target.old.items }
    requires room { at + length bytes.now ≤ vec_capacity target.old }
    ensures items { target.new.items ≡ patched target.old.items at bytes.now }
    ensures capacity { vec_capacity target.old ≤ vec_capacity target.new }
{
    let kept = bytes.len().min(target.len() - at);
    let _ = target.extend_from_slice(&bytes[kept..]);
    target[at..at + kept].copy_from_slice(&bytes[..kept]);
}

/// Makes `base` the same as `bytes`, from which it differs in these ranges and past its end alone. It copies those and
/// nothing else, and leaves no ranges.
pub fn settle(base: &mut Vec<u8>, bytes: &[u8], ranges: &mut Vec<(usize, usize)>)
    requires room { length bytes.now ≤ vec_capacity base.old }
    requires shorter { length base.old.items ≤ length bytes.now }
    requires same { (k : ℕ) → k < length base.old.items → IsOutside (reverse ranges.old.items) k
        → slice_index bytes.now k ≡ slice_index base.old.items k }
    ensures settled { base.new.items ≡ bytes.now }
    ensures no_ranges { ranges.new.items ≡ [] }
    ensures capacity { vec_capacity base.old ≤ vec_capacity base.new }
    ensures ranges_capacity { vec_capacity ranges.new ≡ vec_capacity ranges.old }
{
    let _ = base.extend_from_slice(&bytes[base.len()..]);
    'copies: while let Some((at, count)) = ranges.pop() {
        copy_range(base, bytes, at, count);
    }
}

// Copies the bytes of a range, as far as they stand.
fn copy_range(base: &mut [u8], bytes: &[u8], at: usize, count: usize)
    requires { length base.old ≡ length bytes.now }
    ensures inside { (k : ℕ) → k < length bytes.now → at ≤ k → k < at + count
        → slice_index base.new k ≡ slice_index bytes.now k }
    ensures outside { (k : ℕ) → (k < at) ⊎ (at + count ≤ k) → slice_index base.new k ≡ slice_index base.old k }
{
    let from = at.min(bytes.len());
    let to = from + count.min(bytes.len() - from);
    base[from..to].copy_from_slice(&bytes[from..to]);
}
