//! Numbers of decimal digits.

ghost use Rattle.std.specs.Prelude.{ℕ, IfSome, IfNone};
ghost use Rattle.swh_base.specs.Text.{IsNumber};

/// The number of 1 to 18 digits.
pub fn number_of(digits: &[u8]) -> Option<u64>
    ensures some { IfSome result (λ n. IsNumber digits.now n) }
    ensures none { IfNone result ((n : ℕ) → IsNumber digits.now n → ⊥) }
{
    if digits.is_empty() || digits.len() > 18 {
        return None;
    }
    let mut n = 0u64;
    for digit in digits {
        if *digit < b'0' || *digit > b'9' {
            return None;
        }
        n = n * 10 + (*digit - b'0') as u64;
    }
    Some(n)
}
